// What is wanted of a text, as lists that the library owns until all of them are made.

use crate::flags::{EVENTS, HTML, LABELS, OUTLINE, UNSAFE};
use crate::lists::{extend, handed, push, with_room};
use crate::shapes::{
    HoxalgurreDocument, HoxalgurreEvent, HoxalgurreLine, HoxalgurrePlace, HoxalgurreSpan, Refusal,
};
use crate::words::shown_line;
use markdown_blocks::event::{Event, Kind};
use markdown_blocks::outline::outline;
use markdown_blocks::parser::ParseState;
use markdown_html::{HtmlOptions, html};
use std::alloc::Global;

/// The lists of a document.
#[derive(Drop)]
pub(crate) struct Results {
    events: Vec<HoxalgurreEvent>,
    definitions: Vec<HoxalgurreSpan>,
    footnotes: Vec<HoxalgurreSpan>,
    lines: Vec<HoxalgurreLine>,
    bytes: Vec<u8>,
    html: Vec<u8>,
}

impl Results {
    pub(crate) fn new(alloc: Global) -> Results {
        Results {
            events: Vec::new(alloc),
            definitions: Vec::new(alloc),
            footnotes: Vec::new(alloc),
            lines: Vec::new(alloc),
            bytes: Vec::new(alloc),
            html: Vec::new(alloc),
        }
    }

    /// Hands the lists over to C.
    pub(crate) fn hand_over(self) -> HoxalgurreDocument {
        let Results {
            events,
            definitions,
            footnotes,
            lines,
            bytes,
            html,
        } = self;
        let (events, event_count) = handed(events);
        let (definitions, definition_count) = handed(definitions);
        let (footnotes, footnote_count) = handed(footnotes);
        let (lines, line_count) = handed(lines);
        let (bytes, byte_count) = handed(bytes);
        let (html, html_count) = handed(html);
        HoxalgurreDocument {
            events,
            event_count,
            definitions,
            definition_count,
            footnotes,
            footnote_count,
            lines,
            line_count,
            bytes,
            byte_count,
            html,
            // without the NUL after them
            html_len: html_count.saturating_sub(1),
            valid_len: 0,
        }
    }
}

/// The events as C sees them, after what was read of the text before.
fn shown_events(
    alloc: Global,
    events: &[Event],
    before: HoxalgurrePlace,
) -> Result<Vec<HoxalgurreEvent>, Refusal> {
    let mut shown = with_room(alloc, events.len())?;
    for event in events {
        push(&mut shown, shown_event(event, before))?;
    }
    Ok(shown)
}

/// An event as C sees it.
pub(crate) fn shown_event(event: &Event, before: HoxalgurrePlace) -> HoxalgurreEvent {
    HoxalgurreEvent {
        name: event.name as u16,
        is_exit: if event.kind == Kind::Exit { 1 } else { 0 },
        line: before.lines.saturating_add(event.point.line),
        column: event.point.column,
        index: before.index.saturating_add(event.point.index),
        vs: event.point.vs,
    }
}

/// Adds a text and a NUL to the bytes of a document. An empty one is the NUL that they begin with.
fn span(bytes: &mut Vec<u8>, text: &str) -> Result<HoxalgurreSpan, Refusal> {
    if text.is_empty() {
        return Ok(HoxalgurreSpan { at: 0, len: 0 });
    }
    let at = bytes.len();
    extend(bytes, text.as_bytes())?;
    push(bytes, 0)?;
    Ok(HoxalgurreSpan {
        at,
        len: text.len(),
    })
}

/// The labels as C sees them.
fn shown_labels(
    alloc: Global,
    labels: &[String],
    bytes: &mut Vec<u8>,
) -> Result<Vec<HoxalgurreSpan>, Refusal> {
    let mut shown = with_room(alloc, labels.len())?;
    for label in labels {
        let label = span(bytes, label.as_str())?;
        push(&mut shown, label)?;
    }
    Ok(shown)
}

/// The outline as C sees it.
fn shown_outline(
    alloc: Global,
    events: &[Event],
    state: &ParseState,
    bytes: &mut Vec<u8>,
) -> Result<Vec<HoxalgurreLine>, Refusal> {
    let lines = outline(alloc, events, state)?;
    let mut shown = with_room(alloc, lines.len())?;
    for line in lines.iter() {
        let text = span(bytes, line.text)?;
        push(&mut shown, shown_line(line, text))?;
    }
    Ok(shown)
}

/// The HTML, and a NUL after it.
fn shown_html<'a>(
    alloc: Global,
    events: &'a [Event],
    state: &'a ParseState<'a>,
    wanted: u32,
) -> Result<Vec<u8>, Refusal> {
    let options = if wanted & UNSAFE != 0 {
        &HtmlOptions::DANGEROUS
    } else {
        &HtmlOptions::SAFE
    };
    let mut page = html(alloc, events, state, options)?.into_bytes();
    push(&mut page, 0)?;
    Ok(page)
}

/// What is wanted of a text, or of a part of it, of which these are the events, after what was read before.
pub(crate) fn results_of<'a>(
    alloc: Global,
    events: &'a [Event],
    state: &'a ParseState<'a>,
    wanted: u32,
    before: HoxalgurrePlace,
) -> Result<Results, Refusal> {
    let mut made = Results::new(alloc);
    if wanted & EVENTS != 0 {
        made.events = shown_events(alloc, events, before)?;
    }
    if wanted & (LABELS | OUTLINE) != 0 {
        push(&mut made.bytes, 0)?;
    }
    if wanted & LABELS != 0 {
        made.definitions = shown_labels(alloc, &state.definitions, &mut made.bytes)?;
        made.footnotes = shown_labels(alloc, &state.gfm_footnote_definitions, &mut made.bytes)?;
    }
    if wanted & OUTLINE != 0 {
        made.lines = shown_outline(alloc, events, state, &mut made.bytes)?;
    }
    if wanted & HTML != 0 {
        made.html = shown_html(alloc, events, state, wanted)?;
    }
    Ok(made)
}
