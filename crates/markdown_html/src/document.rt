// The HTML of a text: of all its events at once, or as the parser hands them over.
//
// What is known only further on, where definitions lead and which footnotes are called, is listed before the page is
// written. Where events are handed over the parser gives the definitions ahead. Footnotes are numbered by their first
// calls, and the last section is of those that are shown: so a text with footnotes is written at once.

ghost use Rattle.std.specs.Prelude.{◌≤◌, length};
ghost use Rattle.markdown_blocks.specs.Parsed.{IsSmall, IsWithoutMdx};

use crate::known::{Known, Whole, ending_of};
use crate::memory::push;
use crate::notes::{Notes, numbered_notes};
use crate::options::HtmlOptions;
use crate::page::Page;
use crate::survey::{Survey, SurveyWalk, Target};
use crate::tags::is_surveyed;
use markdown_blocks::parser::{Ahead, LEAST, Sink, parse_into};
use md_engine::configuration::ParseOptions;
use md_engine::event::Event;
use md_engine::message::Message;
use md_engine::parse_state::ParseState;
use md_events::inline::Inline;
use md_events::labels::Labels;
use md_events::moving::append;
use std::alloc::{AllocError, Global};

/// What some events list.
fn survey_of(alloc: Global, events: &[Event]) -> Result<Survey, AllocError> {
    let mut walk = SurveyWalk::new(alloc);
    for (at, event) in events.iter().enumerate() {
        if is_surveyed(event.name) {
            walk.read(event, at)?;
        }
    }
    Ok(walk.found)
}

/// The HTML of a text, given what `parser::parse_with` returns of it with the layer `Inlines` of `markdown_inlines`.
///
/// Paragraphs in tight lists have no `<p>` around them (CommonMark 5.3). Definitions and frontmatter are not shown.
/// Footnotes that are called are in a section at the end, in the order of their first calls. Text is escaped; raw HTML
/// and addresses are as `options` say. No list of events is refused, but of one that no parse returns the HTML has no
/// meaning.
///
/// An `Err` says that memory ran out.
pub fn html<'a>(
    alloc: Global,
    events: &'a [Event],
    state: &'a ParseState<'a>,
    options: &'a HtmlOptions<'a>,
) -> Result<String, Message> {
    html_with_ids(alloc, events, state, options, &[])
}

/// The same, where each heading has an `id` too: the first of `ids` for the first heading of the text, and so on. Where
/// it is empty, or none is left, the heading has none.
pub fn html_with_ids<'a>(
    alloc: Global,
    events: &'a [Event],
    state: &'a ParseState<'a>,
    options: &'a HtmlOptions<'a>,
    ids: &'a [String],
) -> Result<String, Message> {
    let bytes = html_bytes(alloc, events, state, options, ids)?;
    Ok(String::from_utf8(bytes).unwrap_or(String::new(alloc)))
}

/// The same as bytes, for whoever writes them somewhere: `html_with_ids` looks at them once more. Of what a parse returns
/// they are UTF-8; of other events they may not be, and then the string is empty.
pub fn html_bytes<'a>(
    alloc: Global,
    events: &'a [Event],
    state: &'a ParseState<'a>,
    options: &'a HtmlOptions<'a>,
    ids: &'a [String],
) -> Result<Vec<u8>, Message> {
    let forms = &state.gfm_footnote_definitions;
    let labels = Labels::new(alloc, &state.definitions, forms)?;
    let Survey {
        definitions,
        calls,
        ..
    } = survey_of(alloc, events)?;
    let notes = numbered_notes(alloc, state.bytes, events, &calls, &labels, forms.len())?;
    let whole = Whole {
        alloc,
        options,
        ids,
        ending: ending_of(state.bytes, options.default_line_ending.text()),
        definitions,
        notes,
        forms,
    };
    let ahead = Ahead {
        state,
        labels: &labels,
        definitions: events,
    };
    let page = Page::new(alloc, state.bytes, whole.ending);
    let mut begun = Begun { page, whole };
    begun.write(&ahead, events, 0, events.len());
    begun.html(&ahead, events)
}

/// A page on which something is written.
#[derive(Drop)]
struct Begun<'a> {
    page: Page,
    whole: Whole<'a>,
}

/// Writes the events of a text as they are handed over, if it has no footnotes.
#[derive(Drop)]
struct Pages<'a> {
    alloc: Global,
    options: &'a HtmlOptions<'a>,
    /// None before the first events.
    begun: Option<Begun<'a>>,
    /// All events, of a text that has footnotes.
    all: Vec<Event>,
}

impl<'a> Pages<'a> {
    /// Begins to write.
    fn begin(&self, ahead: &Ahead) -> Result<Begun<'a>, Message> {
        let bytes = ahead.state.bytes;
        let ending = ending_of(bytes, self.options.default_line_ending.text());
        Ok(Begun {
            page: Page::new(self.alloc, bytes, ending),
            whole: Whole {
                alloc: self.alloc,
                options: self.options,
                ids: &[],
                ending,
                definitions: definitions_ahead(self.alloc, ahead.definitions)?,
                notes: Notes::none(self.alloc),
                forms: &[],
            },
        })
    }

    /// Keeps events of a text with footnotes; of another begins to write.
    fn take_first(
        &mut self,
        ahead: &Ahead,
        list: &[Event],
        from: usize,
        to: usize,
    ) -> Result<(), Message>
        requires { (from ≤ to) × (to ≤ length list.now) }
    {
        if !ahead.state.gfm_footnote_definitions.is_empty() {
            return append(&mut self.all, &list[from..to]);
        }
        self.begun = Some(self.begin(ahead)?);
        Ok(())
    }
}

impl Begun<'_> {
    /// Writes the events of a list from one index to another.
    fn write(&mut self, ahead: &Ahead, list: &[Event], from: usize, to: usize) {
        let known = Known {
            bytes: ahead.state.bytes,
            events: list,
            ahead: ahead.definitions,
            labels: ahead.labels,
            whole: &self.whole,
        };
        self.page.write(&known, from, to);
    }

    /// All that is written, with footnotes at its end.
    fn html(self, ahead: &Ahead, list: &[Event]) -> Result<Vec<u8>, Message> {
        let Begun { mut page, whole } = self;
        let known = Known {
            bytes: ahead.state.bytes,
            events: list,
            ahead: ahead.definitions,
            labels: ahead.labels,
            whole: &whole,
        };
        page.write_notes(&known);
        page.html()
    }
}

impl Sink for Pages<'_> {
    ghost takes = { λ old events new. Unit {0} };

    fn wants_definitions(&self) -> bool {
        true
    }

    #[inline(always)]
    fn take(
        &mut self,
        ahead: &Ahead,
        list: &[Event],
        from: usize,
        to: usize,
    ) -> Result<(), Message> {
        if self.begun.is_none() {
            self.take_first(ahead, list, from, to)?;
        }
        if let Some(begun) = &mut self.begun {
            begun.write(ahead, list, from, to);
        }
        Ok(())
    }
}

/// Where the definitions lead that are known ahead.
fn definitions_ahead(alloc: Global, events: &[Event]) -> Result<Vec<Target>, Message> {
    let survey = survey_of(alloc, events)?;
    let mut definitions = Vec::new(alloc);
    for definition in &survey.definitions {
        push(&mut definitions, definition.ahead())?;
    }
    Ok(definitions)
}

/// The HTML of a text whose inline content a layer reads, as `html` gives it of what `parser::parse_with` returns of it
/// with this layer, which is `Inlines` of `markdown_inlines`. Its events are never in one list, unless it has footnotes:
/// so it takes less time and memory.
///
/// The text has at most `parser::MAX_LEN` bytes, and the constructs of MDX are off. An `Err` says that memory ran out.
pub fn html_of<'x, I: Inline>(
    alloc: Global,
    inline: &I,
    text: &'x str,
    parse: &'x ParseOptions,
    options: &'x HtmlOptions<'x>,
) -> Result<Vec<u8>, Message>
    requires size { IsSmall text.now }
    requires built { IsWithoutMdx parse.now }
{
    html_with_least(alloc, inline, text, parse, options, LEAST)
}

/// The same in parts of so many bytes at least.
pub fn html_with_least<'x, I: Inline>(
    alloc: Global,
    inline: &I,
    text: &'x str,
    parse: &'x ParseOptions,
    options: &'x HtmlOptions<'x>,
    least: usize,
) -> Result<Vec<u8>, Message>
    requires size { IsSmall text.now }
    requires built { IsWithoutMdx parse.now }
{
    let mut pages = Pages {
        alloc,
        options,
        begun: None,
        all: Vec::new(alloc),
    };
    let state = parse_into(alloc, inline, text, parse, least, &mut pages)?;
    let Pages { begun, all, .. } = pages;
    if let Some(begun) = begun {
        return begun.page.html();
    }
    html_bytes(alloc, &all, &state, options, &[])
}
