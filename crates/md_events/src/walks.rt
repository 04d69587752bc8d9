// Walks over events up to the first that fails a test.

ghost use Rattle.std.specs.Prelude.{◌≡◌, ◌≤◌, Bool, length};
ghost use Rattle.std.specs.List.{prefix_len};
ghost use Rattle.md_engine.specs.declared.event.Event.{Event};

use md_engine::event::Event;

/// A test of events.
pub trait Test {
    /// Whether an event passes.
    ghost passes: { Self → Event → Bool };

    /// Whether an event passes.
    fn passes(&self, event: &Event) -> bool
        ensures { result ≡ passes self.now event.now };
}

/// How many of the events come before the first that fails, which is looked for one by one.
#[inline(always)]
fn passing_each<T: Test>(test: &T, events: &[Event]) -> usize
    ensures value { result ≡ prefix_len (T.passes test.now) events.now }
    ensures within { result ≤ length events.now }
{
    let mut at = 0;
    while at < events.len() && test.passes(&events[at]) {
        at += 1;
    }
    at
}

/// So many events are tested in a round.
const ROUND: usize = 8;

/// How many of the events come before the first that fails.
///
/// Such walks go over all events of a text, so the end of the events is looked for only once a round.
#[inline(always)]
pub fn passing<T: Test>(test: &T, events: &[Event]) -> usize
    ensures value { result ≡ prefix_len (T.passes test.now) events.now }
    ensures within { result ≤ length events.now }
{
    let mut at = 0;
    while events.len() - at >= ROUND {
        let many = passing_each(test, &events[at..][..ROUND]);
        at += many;
        if many < ROUND {
            return at;
        }
    }
    at + passing_each(test, &events[at..])
}
