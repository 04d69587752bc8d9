// Events at points of a line.

ghost use Rattle.std.specs.Prelude.{◌≡◌, ◌+◌, ◌*◌, ◌^◌, ◌<◌, ◌≤◌, ◌∷◌, ◌++◌, true, OnOk, [], length};
ghost use Rattle.md_events.specs.Events.Inline.{pair_unless_empty};
ghost use Rattle.md_events.specs.Events.Places.{past_byte, past_text};
ghost use Rattle.md_inline_events.specs.Room.{is_even};

use md_engine::class::Class;
use md_engine::event::{Event, Kind, Name, Point};
use md_engine::message::Message;
use md_scan::memory::push;

/// The point after a byte of a line.
fn past_byte(byte: u8, point: Point) -> Point
    requires index { point.index + 1 < 2 ^ 61 }
    requires column { point.column ≤ 4 * point.index + 5 }
    ensures value { result ≡ past_byte byte point }
    ensures index { result.index ≡ point.index + 1 }
    ensures column { result.column ≤ 4 * result.index + 5 }
{
    let column = point.column.saturating_sub(1);
    let columns = if byte == b'\t' { 4 - column % 4 } else { 1 };
    Point {
        line: point.line,
        column: column + columns + 1,
        index: point.index + 1,
        vs: 0,
    }
}

/// The point after a piece of a line.
pub(crate) fn past_text(text: &[u8], point: Point) -> Point
    requires index { point.index + length text.now < 2 ^ 61 }
    requires column { point.column ≤ 4 * point.index + 5 }
    ensures value { result ≡ past_text text.now point }
    ensures index { result.index ≡ point.index + length text.now }
    ensures column { result.column ≤ 4 * result.index + 5 }
{
    let mut at = point;
    let mut rest = text;
    while let Some((byte, following)) = rest.split_first() {
        let to = past_byte(*byte, at);
        let count = Class::Text.span(following);
        at = Point {
            line: to.line,
            column: to.column + count,
            index: to.index + count,
            vs: to.vs,
        };
        rest = following.split_at(count).1;
    }
    at
}

/// Whether each byte of a line is one column.
pub(crate) fn is_even(line: &[u8]) -> bool
    ensures { result ≡ true → is_even line.now ≡ true }
{
    Class::Text.span(line) >= line.len()
}

/// The point after a run of bytes of a line; `even` says that each of them is one column.
#[inline(always)]
pub(crate) fn past_run(even: bool, run: &[u8], point: Point) -> Point
    requires even { even ≡ true → is_even run.now ≡ true }
    requires some { 0 < length run.now }
    requires index { point.index + length run.now < 2 ^ 61 }
    requires column { point.column ≤ 4 * point.index + 5 }
    ensures value { result ≡ past_text run.now point }
    ensures index { result.index ≡ point.index + length run.now }
    ensures column { result.column ≤ 4 * result.index + 5 }
{
    if !even {
        return past_text(run, point);
    }
    Point {
        line: point.line,
        column: point.column.saturating_sub(1) + 1 + run.len(),
        index: point.index + run.len(),
        vs: 0,
    }
}

/// Adds an event.
///
/// An `Err` says that memory ran out.
#[inline(always)]
pub(crate) fn push_event(
    events: &mut Vec<Event>,
    kind: Kind,
    name: Name,
    point: Point,
) -> Result<(), Message>
    ensures { OnOk result (events.new.items ≡
        events.old.items ++ (record { kind = kind; name = name; link = None; point = point }) ∷ []) }
{
    push(
        events,
        Event {
            kind,
            name,
            link: None,
            point,
        },
    )
}

/// Adds the begin and the end of a piece, unless it would be empty.
///
/// An `Err` says that memory ran out.
#[inline(always)]
pub(crate) fn push_unless_empty(
    events: &mut Vec<Event>,
    name: Name,
    first: Point,
    after: Point,
) -> Result<(), Message>
    ensures { OnOk result (events.new.items ≡ events.old.items ++ pair_unless_empty name first after) }
{
    if first.index == after.index && first.vs == after.vs {
        return Ok(());
    }
    push_event(events, Kind::Enter, name, first)?;
    push_event(events, Kind::Exit, name, after)
}
