// Events of a prefix that is taken at once: they are added where the list of events has room for all of them, so that
// there is one test and none for each.

ghost use Rattle.std.specs.Prelude.{◌≡◌, ◌+◌, ◌^◌, ◌<◌, ◌≤◌, true};
ghost use Rattle.std.specs.Vec.{vec_capacity, vec_len};
ghost use Rattle.md_containers.specs.Ahead.{ahead};
ghost use Rattle.md_events.specs.Events.Nested.{enter, exit};

use md_engine::event::{Event, Kind, Name, Point};
use md_engine::tokenizer::Tokenizer;

/// Whether the list of events has room for so many more.
#[inline(always)]
pub(crate) fn has_room(tokenizer: &Tokenizer, count: usize) -> bool
    ensures { result ≡ true → vec_len tokenizer.now.events + count ≤ vec_capacity tokenizer.now.events }
{
    tokenizer.events.capacity() - tokenizer.events.len() >= count
}

/// The point so many bytes further on its line.
#[inline(always)]
pub(crate) fn ahead(point: Point, count: usize) -> Point
    requires { (point.index + count < 2 ^ 64) × (point.column + count < 2 ^ 64) }
    ensures { result ≡ ahead count point }
{
    Point {
        line: point.line,
        column: point.column + count,
        index: point.index + count,
        vs: 0,
    }
}

/// The begin of a part.
#[inline(always)]
pub(crate) fn enter(name: Name, point: Point) -> Event
    ensures { result ≡ enter name point }
{
    Event {
        kind: Kind::Enter,
        name,
        point,
        link: None,
    }
}

/// The end of a part.
#[inline(always)]
pub(crate) fn exit(name: Name, point: Point) -> Event
    ensures { result ≡ exit name point }
{
    Event {
        kind: Kind::Exit,
        name,
        point,
        link: None,
    }
}
