// The labels of the footnote definitions of a text, as what refers to them finds them: in normal form.

ghost use Rattle.std.specs.Prelude.{◌≡◌, ◌&&◌, drop, map, not, string_bytes, IfOk};
ghost use Rattle.std.specs.List.{prefix_len};
ghost use Rattle.md_content.specs.FootnoteLabels.{footnote_labels_in, is_footnote_label};
ghost use Rattle.md_events.specs.Events.Nested.{is_enter, is_exit};
ghost use Rattle.md_events.specs.Events.Spelled.{byte_at};

use crate::labels::push_label;
use md_engine::event::{Event, Kind, Name, Point};
use md_engine::message::Message;
use md_events::slice::between;
use md_events::walks::{Test, passing};
use std::alloc::Global;

/// Whether a label begins here.
fn begins_label(event: &Event) -> bool
    ensures { result ≡ is_enter event.now.kind && is_footnote_label event.now.name }
{
    matches!(event.name, Name::GfmFootnoteDefinitionLabelString)
        && matches!(event.kind, Kind::Enter)
}

/// Whether a label ends here.
fn ends_label(event: &Event) -> bool
    ensures { result ≡ is_exit event.now.kind && is_footnote_label event.now.name }
{
    matches!(event.name, Name::GfmFootnoteDefinitionLabelString) && matches!(event.kind, Kind::Exit)
}

/// The first byte after a point: one that cuts a tab is before the next.
fn byte_at(point: Point) -> Result<usize, Message>
    ensures { IfOk result (λ byte. byte ≡ byte_at point) }
{
    if point.vs == 0 {
        return Ok(point.index);
    }
    match point.index.checked_add(1) {
        Some(next) => Ok(next),
        None => Err(Message),
    }
}

/// Whether an event belongs to no label.
struct IsNoLabel;

impl Test for IsNoLabel {
    ghost passes = { λ test e. not (is_footnote_label e.name) };

    fn passes(&self, event: &Event) -> bool {
        !matches!(event.name, Name::GfmFootnoteDefinitionLabelString)
    }
}

/// The events from the first label on.
fn from_label(events: &[Event]) -> &[Event]
    ensures { result.now ≡ drop (prefix_len (λ e. not (is_footnote_label e.name)) events.now) events.now }
{
    &events[passing(&IsNoLabel, events)..]
}

/// The normal forms of all labels of footnote definitions, in the order of the text, repeats kept. Nothing is allocated
/// where there is none.
///
/// An `Err` says that memory ran out.
pub fn footnote_labels(
    alloc: Global,
    bytes: &[u8],
    events: &[Event],
) -> Result<Vec<String>, Message>
    ensures { IfOk result (λ found. map string_bytes found.items ≡ footnote_labels_in bytes.now events.now) }
{
    let mut found = Vec::new(alloc);
    let mut from = 0;
    for event in from_label(events) {
        if begins_label(event) {
            from = byte_at(event.point)?;
        }
        if ends_label(event) {
            push_label(alloc, &mut found, between(bytes, from, event.point.index))?;
        }
    }
    Ok(found)
}
