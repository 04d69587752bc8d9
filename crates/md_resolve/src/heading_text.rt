// The text of an ATX heading: one part in the place of all events from the first run after the opening sequence to the
// last that is no closing sequence.
//
// A heading is set whole. One walk finds its end, one the end of its opening sequence, one the begin of its text, and,
// from the end, one the end of that.

ghost use Rattle.std.specs.Prelude.{◌≡◌, ◌++◌, ◌≤◌, None, OnOk, Some, [], drop, length, not, take, true};
ghost use Rattle.std.specs.List.{All};
ghost use Rattle.md_engine.specs.declared.event.Event.{Event};
ghost use Rattle.md_resolve.specs.Texted.{IsInside, IsLastRun, begun, texted};
ghost use Rattle.md_events.specs.Rewritten.{IsFirst, given_of, held_of, left_of, written_of};
ghost use Rattle.md_leaves.specs.HeadingText.{Before, Within, begins, ends, headings_resolved, is_heading, is_run};
ghost use Rattle.md_leaves.specs.HeadingText.{is_sequence, resolved, text_between};
ghost use Rattle.md_order.specs.Left.{heading_len};

use md_engine::event::{Content, Event, Kind, Link, Name, Point};
use md_engine::message::Message;
use md_events::rewriting::Rewriting;
use md_events::walks::{Test, passing};

/// The link of a text that is read later.
const TEXT_LINK: Link = Link {
    previous: false,
    next: false,
    content: Content::Text,
};

/// Whether a heading begins here.
#[inline(always)]
pub(crate) fn begins_heading(event: &Event) -> bool
    ensures { result ≡ begins is_heading event.now }
{
    matches!(event.kind, Kind::Enter) && matches!(event.name, Name::HeadingAtx)
}

/// Whether a heading ends here.
#[inline(always)]
pub(crate) fn ends_heading(event: &Event) -> bool
    ensures { result ≡ ends is_heading event.now }
{
    matches!(event.name, Name::HeadingAtx) && matches!(event.kind, Kind::Exit)
}

/// Whether a run of `#` ends here.
#[inline(always)]
fn ends_sequence(event: &Event) -> bool
    ensures { result ≡ ends is_sequence event.now }
{
    matches!(event.kind, Kind::Exit) && matches!(event.name, Name::HeadingAtxSequence)
}

/// Whether no heading ends at an event.
struct EndsNoHeading;

impl Test for EndsNoHeading {
    ghost passes = { λ test e. not (ends is_heading e) };

    #[inline(always)]
    fn passes(&self, event: &Event) -> bool {
        !ends_heading(event)
    }
}

/// Whether no run of `#` ends at an event.
struct EndsNoSequence;

impl Test for EndsNoSequence {
    ghost passes = { λ test e. not (ends is_sequence e) };

    #[inline(always)]
    fn passes(&self, event: &Event) -> bool {
        !ends_sequence(event)
    }
}

/// Whether no run of `#` or of text begins at an event.
struct BeginsNoRun;

impl Test for BeginsNoRun {
    ghost passes = { λ test e. not (begins is_run e) };

    #[inline(always)]
    fn passes(&self, event: &Event) -> bool {
        !(matches!(event.kind, Kind::Enter)
            && (matches!(event.name, Name::Data) || matches!(event.name, Name::HeadingAtxSequence)))
    }
}

/// How many of the events come before the first end of a heading.
fn until_end(events: &[Event]) -> usize
    ensures value { result ≡ heading_len events.now }
    ensures within { result ≤ length events.now }
{
    passing(&EndsNoHeading, events)
}

/// How many events of a heading come before the first run after its opening sequence.
fn until_text(events: &[Event]) -> usize
    requires inside { All IsInside events.now }
    ensures set { resolved Before events.now ≡ take result events.now ++ begun (drop result events.now) }
    ensures within { result ≤ length events.now }
{
    let opening = passing(&EndsNoSequence, events);
    opening + passing(&BeginsNoRun, &events[opening..])
}

/// Whether a run of `#` or of text ends here.
#[inline(always)]
fn ends_run(event: &Event) -> bool
    ensures { result ≡ ends is_run event.now }
{
    matches!(event.kind, Kind::Exit)
        && (matches!(event.name, Name::Data) || matches!(event.name, Name::HeadingAtxSequence))
}

/// How many events there are up to the end of the last run, which is looked for from the end.
#[inline(always)]
fn last_run(events: &[Event]) -> usize
    ensures { IsLastRun result events.now }
{
    let mut at = events.len();
    while at > 0 && !ends_run(&events[at - 1]) {
        at -= 1;
    }
    at
}

/// How many events, from the first run after the opening sequence on, are of the text: those up to the end of the last
/// run, or of the one before if the last is of `#`.
fn text_len(events: &[Event]) -> usize
    requires inside { All IsInside events.now }
    ensures set { (first : Point) →
        resolved (Within first None None [] []) events.now ≡ texted first result events.now }
    ensures within { result ≤ length events.now }
{
    let last = last_run(events);
    if last > 0 && ends_sequence(&events[last - 1]) {
        last_run(&events[..last - 1])
    } else {
        last
    }
}

/// An event without a link.
fn plain(kind: Kind, name: Name, point: Point) -> Event
    ensures { result ≡ record { kind = kind; name = name; point = point; link = None } }
{
    Event {
        kind,
        name,
        point,
        link: None,
    }
}

/// Writes the text between two points, as one part that is read later.
fn push_text(events: &mut Rewriting, first: Point, after: Point) -> Result<(), Message>
    ensures left { OnOk result (left_of events.new ≡ left_of events.old) }
    ensures held { held_of events.new ≡ held_of events.old }
    ensures written { OnOk result
        (written_of events.new ≡ written_of events.old ++ text_between first (Some after)) }
{
    let data = Event {
        kind: Kind::Enter,
        name: Name::Data,
        point: first,
        link: Some(TEXT_LINK),
    };
    events.push(plain(Kind::Enter, Name::HeadingAtxText, first))?;
    events.push(data)?;
    events.push(plain(Kind::Exit, Name::Data, after))?;
    events.push(plain(Kind::Exit, Name::HeadingAtxText, after))
}

/// Sets the text of the heading that begins with the event that is left first, up to its end.
pub(crate) fn set(all: &mut Rewriting, _event: Event) -> Result<(), Message>
    requires first { IsFirst _event (left_of all.old) }
    requires begins { begins is_heading _event ≡ true }
    ensures given { OnOk result
        (given_of all.new ≡
        given_of all.old ++ headings_resolved (take (heading_len (left_of all.old)) (left_of all.old))) }
    ensures left { OnOk result (left_of all.new ≡ drop (heading_len (left_of all.old)) (left_of all.old)) }
{
    let left = all.left();
    let many = until_end(left);
    let events = &left[..many];
    let front = until_text(events);
    let text = text_len(&events[front..]);
    if text == 0 {
        all.hold_many(many);
        return Ok(());
    }
    let first = events[front].point;
    let after = events[front + text - 1].point;
    all.hold_many(front);
    all.skip(text);
    push_text(all, first, after)?;
    all.hold_many(many - front - text);
    Ok(())
}
