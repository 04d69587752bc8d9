// Where the events of the first blocks end.

ghost use Rattle.std.specs.Prelude.{◌≡◌, ◌<◌, ◌≤◌, length};
ghost use Rattle.md_outline.specs.CountOpen.{begun};
ghost use Rattle.md_outline.specs.OutlinePart.{IsFewest, IsWhole};

use md_engine::event::{Event, Kind};

/// A part of an outline is of so many events at least, if there are so many: its lines need little memory beside the
/// events, and there are few parts.
const LEAST_EVENTS: usize = 4096;

/// How many parts begin with this event: one or none.
#[inline(always)]
fn entered(event: Event) -> usize
    ensures { result ≡ begun event.kind 0 }
{
    match event.kind {
        Kind::Enter => 1,
        Kind::Exit => 0,
    }
}

/// How many events the first blocks are: the fewest after which each part has ended, but not fewer than `LEAST_EVENTS`,
/// or all.
///
/// It counts the first of them four at a time.
pub fn part_end(events: &[Event]) -> usize
    ensures within { result ≤ length events.now }
    ensures some { 0 < length events.now → 0 < result }
    ensures whole { IsWhole events.now result }
    ensures fewest { IsFewest events.now result }
{
    let most = events.len().min(LEAST_EVENTS);
    let mut enters = 0;
    let mut rest = &events[..most];
    while let [first, second, third, fourth, following @ ..] = rest {
        enters += entered(*first) + entered(*second) + entered(*third) + entered(*fourth);
        rest = following;
    }
    let mut end = most - rest.len();
    while end < events.len() && (end < most || end - enters != enters) {
        enters += entered(events[end]);
        end += 1;
    }
    end
}
