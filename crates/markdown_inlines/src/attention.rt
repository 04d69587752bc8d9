// Emphasis, strong emphasis and strikethrough (CommonMark 6.2, GFM 6.5).
//
// Runs are listed as they are read, and matched where the text around them ends, from left to right: a run that may
// close looks for the nearest one before it that it may close. What is between the two takes no further part.
//
// A run that looks in vain notes for its kind where it is: no later run of this kind looks before that byte again. This
// is to keep the work linear, of which no clause speaks.

ghost use Rattle.std.specs.Prelude.{◌≡◌, ℕ, ◌+◌, ◌-◌, ◌*◌, ◌^◌, ◌<◌, ◌≤◌, true, List, [], ◌∷◌, ◌++◌};
ghost use Rattle.std.specs.Prelude.{length, take, drop, OnOk};
ghost use Rattle.md_inlines.specs.Emphasis as emphasis;
ghost use Rattle.md_inlines.specs.Emphasis.{Item};
ghost use Rattle.markdown_inlines.specs.Filled.{Filled, Placed, Shows, placed, room, shorter_run, width};
ghost use Rattle.markdown_inlines.specs.Matching as matching;
ghost use Rattle.markdown_inlines.specs.Matching.{IsOpener, kept, raised, stack};
ghost use Rattle.markdown_inlines.specs.Spans.{holes};

use crate::span::{Span, push_places};
use md_engine::event::Name;
use md_engine::message::Message;
use md_inlines::Run;
use md_scan::memory::push;

/// A run as a reader lists it: what is left of it, where its first byte is, and the first of its places.
#[derive(Clone, Copy, Debug, PartialEq, Eq)]
pub struct PlacedRun {
    pub run: Run,
    pub first: usize,
    pub place: usize,
}

/// The names of what two runs make: the whole, a run, and the text between them.
#[derive(Clone, Copy)]
pub(crate) struct Names {
    whole: Name,
    sequence: Name,
    text: Name,
}

const STRIKETHROUGH: Names = Names {
    whole: Name::GfmStrikethrough,
    sequence: Name::GfmStrikethroughSequence,
    text: Name::GfmStrikethroughText,
};

const STRONG: Names = Names {
    whole: Name::Strong,
    sequence: Name::StrongSequence,
    text: Name::StrongText,
};

const EMPHASIS: Names = Names {
    whole: Name::Emphasis,
    sequence: Name::EmphasisSequence,
    text: Name::EmphasisText,
};

/// How many kinds of runs there are.
const KINDS: usize = 16;

/// The kind of a run that is of no mark known here. Nothing is noted for it.
const OTHER: usize = 15;

/// How many places are kept for each byte of a run, by whether it may open.
fn width(opens: bool) -> usize
    ensures value { result ≡ width opens }
    ensures few { result ≤ 3 }
{
    if opens { 3 } else { 1 }
}

/// The names of what two runs of this mark make by so many bytes of each.
fn names_of(mark: u8, count: usize) -> Names
    ensures { result ≡ matching.names_of mark count }
{
    if mark == b'~' {
        STRIKETHROUGH
    } else if count == 2 {
        STRONG
    } else {
        EMPHASIS
    }
}

/// Whether the sizes of two runs fit (rules 9 and 10).
fn fit(opener: &Run, closer: &Run) -> bool
    ensures { result ≡ emphasis.fit opener.now closer.now }
{
    !(opener.closes || closer.opens)
        || (opener.size % 3 + closer.size % 3) % 3 != 0
        || (opener.size % 3 == 0 && closer.size % 3 == 0)
}

/// Whether two runs of tildes fit, where `single` says whether one tilde is a mark.
fn strike(single: bool, opener: &Run, closer: &Run) -> bool
    ensures { result ≡ emphasis.strike single opener.now closer.now }
{
    opener.left == closer.left && (closer.left == 2 || (closer.left == 1 && single))
}

/// Whether a run may close another.
fn may_pair(single: bool, opener: &Run, closer: &Run) -> bool
    ensures { result ≡ emphasis.may_pair single opener.now closer.now }
{
    opener.mark == closer.mark
        && opener.opens
        && closer.closes
        && (if closer.mark == b'~' {
            strike(single, opener, closer)
        } else {
            fit(opener, closer)
        })
}

/// How many bytes two runs use of each.
fn taken(opener: &Run, closer: &Run) -> usize
    ensures { result ≡ matching.taken opener.now closer.now }
{
    if closer.mark == b'~' {
        closer.left
    } else if opener.left >= 2 && closer.left >= 2 {
        2
    } else {
        1
    }
}

/// What counts of the size of a run and of whether it may open.
fn size_kind(run: &Run) -> usize
    ensures value { result ≡ matching.size_kind run.now }
    ensures few { result < 6 }
{
    run.size % 3 + if run.opens { 3 } else { 0 }
}

/// The kind of a run: two runs of one kind may close the same runs. Those of kind 0 close none.
fn kind_of(run: &Run) -> usize
    ensures value { result ≡ matching.kind_of run.now }
    ensures few { result < 16 }
{
    if !run.closes {
        0
    } else if run.mark == b'*' {
        1 + size_kind(run)
    } else if run.mark == b'_' {
        7 + size_kind(run)
    } else if run.mark != b'~' {
        OTHER
    } else if run.left == 1 {
        13
    } else if run.left == 2 {
        14
    } else {
        0
    }
}

/// The nearest of the first `height` runs that this one may close, of those that do not begin before `bound`.
fn opener_of(
    single: bool,
    bound: usize,
    closer: &Run,
    runs: &[PlacedRun],
    height: usize,
) -> Option<usize>
    requires { height ≤ length runs.now }
    ensures { IsOpener single bound closer.now runs.now height result }
{
    if !closer.closes {
        return None;
    }
    let mut at = height;
    while at > 0 {
        let opener = &runs[at - 1];
        if opener.first < bound {
            return None;
        }
        if may_pair(single, &opener.run, closer) {
            return Some(at - 1);
        }
        at -= 1;
    }
    None
}

/// Notes where a run of this kind looked in vain.
fn raise(bounds: &mut [usize], kind: usize, first: usize)
    requires { kind < length bounds.old }
    ensures { bounds.new ≡ raised bounds.old kind first }
{
    if kind != OTHER {
        bounds[kind] = first;
    }
}

/// Keeps a run that was passed after the first `height` runs, if it may open. Returns how many runs are kept.
fn keep(runs: &mut [PlacedRun], height: usize, closer: PlacedRun) -> usize
    requires { height < length runs.old }
    ensures openers { stack runs.new result ≡ kept closer.run.opens closer (stack runs.old height) }
    ensures ahead { drop (height + 1) runs.new ≡ drop (height + 1) runs.old }
    ensures bound { result ≤ height + 1 }
{
    if closer.run.opens {
        runs[height] = closer;
        height + 1
    } else {
        height
    }
}

/// Keeps what is left of an opener, which is at this place. Returns how many runs are kept.
fn shorten_opener(runs: &mut [PlacedRun], at: usize, opener: PlacedRun, count: usize) -> usize
    requires { at < length runs.old }
    ensures openers { stack runs.new result ≡
        shorter_run opener.run count opener.first opener.place ++ stack runs.old at }
    ensures ahead { drop (at + 1) runs.new ≡ drop (at + 1) runs.old }
    ensures bound { result ≤ at + 1 }
{
    if count < opener.run.left {
        let run = Run {
            left: opener.run.left - count,
            ..opener.run
        };
        runs[at] = PlacedRun { run, ..opener };
        at + 1
    } else {
        at
    }
}

/// Leaves what is left of a closer at this place. Returns where the next run is.
fn shorten_closer(runs: &mut [PlacedRun], at: usize, closer: PlacedRun, count: usize) -> usize
    requires there { at < length runs.old }
    requires fits { Placed (2 ^ 64 - 1) (closer ∷ []) }
    ensures ahead { drop result runs.new ≡
        shorter_run closer.run count (closer.first + count) (closer.place + count * width closer.run.opens)
        ++ drop (at + 1) runs.old }
    ensures openers { take at runs.new ≡ take at runs.old }
    ensures bound { (at ≤ result) × (result ≤ at + 1) }
{
    if count < closer.run.left {
        let run = Run {
            left: closer.run.left - count,
            ..closer.run
        };
        runs[at] = PlacedRun {
            run,
            first: closer.first + count,
            place: closer.place + count * width(closer.run.opens),
        };
        at
    } else {
        at + 1
    }
}

/// Fills the places of two runs that pair by so many bytes of each.
fn fill(spans: &mut [Span], opener: &PlacedRun, closer: &PlacedRun, count: usize)
    requires placed { Placed (length spans.old) (opener.now ∷ closer.now ∷ []) }
    requires opens { opener.now.run.opens ≡ true }
    requires some { 0 < count }
    requires there { (count ≤ opener.now.run.left) × (count ≤ closer.now.run.left) }
    ensures { spans.new ≡ matching.filled_by count opener.now closer.now spans.old }
{
    let names = names_of(closer.run.mark, count);
    let start = opener.first + (opener.run.left - count);
    let close = closer.first;
    let place = opener.place + (opener.run.left - count) * width(opener.run.opens);
    spans[place] = Span {
        name: names.whole,
        start,
        end: close + count,
    };
    spans[place + 1] = Span {
        name: names.sequence,
        start,
        end: start + count,
    };
    spans[place + 2] = Span {
        name: names.text,
        start: start + count,
        end: close,
    };
    spans[closer.place] = Span {
        name: names.sequence,
        start: close,
        end: close + count,
    };
}

/// Matches the runs of a level, and fills the places of those that pair: the spans are then those of its emphasis.
///
/// The runs are spent: what the list has afterwards means nothing.
pub fn match_runs(single: bool, runs: &mut [PlacedRun], spans: &mut [Span])
    requires { Placed (length spans.old) runs.old }
    ensures { (at : ℕ) (others own : List Span) (items : List Item) → spans.old ≡ others ++ own →
        Filled at (length others) items own runs.old → Shows at others (emphasis.emphasis single items) spans.new }
{
    let mut bounds = [0; KINDS];
    let mut height = 0;
    let mut at = 0;
    while at < runs.len() {
        let closer = runs[at];
        let kind = kind_of(&closer.run);
        match opener_of(single, bounds[kind], &closer.run, runs, height) {
            None => {
                raise(&mut bounds, kind, closer.first);
                height = keep(runs, height, closer);
                at += 1;
            }
            Some(found) => {
                let opener = runs[found];
                let count = taken(&opener.run, &closer.run);
                fill(spans, &opener, &closer, count);
                height = shorten_opener(runs, found, opener, count);
                at = shorten_closer(runs, at, closer, count);
            }
        }
    }
}

/// Keeps the places of a run's bytes.
///
/// An `Err` says that memory ran out.
fn push_room(spans: &mut Vec<Span>, run: Run) -> Result<(), Message>
    ensures { OnOk result (spans.new.items ≡ spans.old.items ++ holes (room run)) }
{
    push_places(spans, run.left)?;
    if !run.opens {
        return Ok(());
    }
    push_places(spans, run.left)?;
    push_places(spans, run.left)
}

/// Lists a run that begins at a byte, and keeps the places of its bytes.
///
/// An `Err` says that memory ran out.
pub fn push_run(
    spans: &mut Vec<Span>,
    runs: &mut Vec<PlacedRun>,
    run: Run,
    first: usize,
) -> Result<(), Message>
    ensures places { OnOk result (spans.new.items ≡ spans.old.items ++ holes (room run)) }
    ensures listed { OnOk result
        (runs.new.items ≡ runs.old.items ++ placed run first (length spans.old.items) ∷ []) }
{
    let place = spans.len();
    push_room(spans, run)?;
    push(runs, PlacedRun { run, first, place })
}
