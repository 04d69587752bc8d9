// Paragraphs, and the underlines after them.

ghost use Rattle.std.specs.Prelude.{◌≡◌, ◌&&◌};
ghost use Rattle.md_leaves.specs.Turned.{has_underline, is_paragraph, is_turned};
ghost use Rattle.md_leaves.specs.Turned.{is_underline, passes, underline_after};
ghost use Rattle.md_events.specs.Events.Inline.{is_line_ending};
ghost use Rattle.md_events.specs.Events.Nested.{enter, exit};

use md_engine::event::{Event, Kind, Name, Point};
use md_events::names::is_prefix;

/// Whether these events are of a paragraph.
#[inline(always)]
fn is_paragraph(name: Name) -> bool
    ensures { result ≡ is_paragraph name }
{
    matches!(name, Name::Paragraph)
}

/// Whether these events are of an underline.
#[inline(always)]
fn is_underline(name: Name) -> bool
    ensures { result ≡ is_underline name }
{
    matches!(name, Name::HeadingSetextUnderline)
}

/// Whether these events are of a line ending.
fn is_line_ending(name: Name) -> bool
    ensures { result ≡ is_line_ending name }
{
    matches!(name, Name::LineEnding)
}

/// Whether an event passes as it is: it is of no paragraph, and of no underline.
#[inline(always)]
pub(crate) fn passes(event: &Event) -> bool
    ensures { result ≡ passes event.now }
{
    !is_paragraph(event.name) && !is_underline(event.name)
}

/// Whether an underline begins after container prefixes.
fn underline_after(events: &[Event]) -> bool
    ensures { result ≡ underline_after events.now }
{
    let mut at = 0;
    while at < events.len() {
        let event = events[at];
        if !is_prefix(event.name) {
            return matches!(event.kind, Kind::Enter) && is_underline(event.name);
        }
        at += 1;
    }
    false
}

/// Whether an underline follows a paragraph that ends before these events.
fn has_underline(events: &[Event]) -> bool
    ensures { result ≡ has_underline events.now }
{
    events.len() >= 2 && is_line_ending(events[0].name) && underline_after(&events[2..])
}

/// Whether an underline follows the paragraph that has begun before these events.
pub(crate) fn is_turned(events: &[Event]) -> bool
    ensures { result ≡ is_turned events.now }
{
    let mut at = 0;
    while at < events.len() {
        let event = events[at];
        if matches!(event.kind, Kind::Exit) && is_paragraph(event.name) {
            return has_underline(&events[at + 1..]);
        }
        at += 1;
    }
    false
}

/// The begin of a part.
pub(crate) fn enter(name: Name, point: Point) -> Event
    ensures { result ≡ enter name point }
{
    Event {
        kind: Kind::Enter,
        name,
        point,
        link: None,
    }
}

/// The end of a part.
pub(crate) fn exit(name: Name, point: Point) -> Event
    ensures { result ≡ exit name point }
{
    Event {
        kind: Kind::Exit,
        name,
        point,
        link: None,
    }
}
