// Delimiter runs of examples of the standards, listed by hand, and the spans of what they make (CommonMark 6.2, GFM
// 6.5).
ghost use Rattle.std.specs.Prelude.{◌≡◌};

use markdown_inlines::attention::{PlacedRun, match_runs};
use markdown_inlines::span::Span;
use md_engine::event::Name;
use md_inlines::Run;

/// A place that is kept.
const HOLE: Span = Span {
    name: Name::Data,
    start: 0,
    end: 0,
};

fn span(name: Name, start: usize, end: usize) -> Span
    ensures { result ≡ record { name = name; start = start; end = end } }
{
    Span { name, start, end }
}

/// A run of so many bytes that begins at a byte, with its first place.
fn run(mark: u8, size: usize, opens: bool, closes: bool, first: usize, place: usize) -> PlacedRun
    ensures { result ≡ record {
      run = record { mark = mark; size = size; left = size; opens = opens; closes = closes };
      first = first;
      place = place;
    } }
{
    PlacedRun {
        run: Run {
            mark,
            size,
            left: size,
            opens,
            closes,
        },
        first,
        place,
    }
}

/// `*a*`
#[test]
fn one_of_each_is_emphasis(rt: HostRuntime) {
    let mut runs = [
        run(b'*', 1, true, false, 0, 0),
        run(b'*', 1, false, true, 2, 3),
    ];
    let mut spans = [HOLE; 4];
    match_runs(false, &mut runs, &mut spans);
    let want = [
        span(Name::Emphasis, 0, 3),
        span(Name::EmphasisSequence, 0, 1),
        span(Name::EmphasisText, 1, 2),
        span(Name::EmphasisSequence, 2, 3),
    ];
    assert!(rt; spans == want);
}

/// `***foo** bar*`
#[test]
fn strong_emphasis_is_inside(rt: HostRuntime) {
    let mut runs = [
        run(b'*', 3, true, false, 0, 0),
        run(b'*', 2, false, true, 6, 9),
        run(b'*', 1, false, true, 12, 11),
    ];
    let mut spans = [HOLE; 12];
    match_runs(false, &mut runs, &mut spans);
    let want = [
        span(Name::Emphasis, 0, 13),
        span(Name::EmphasisSequence, 0, 1),
        span(Name::EmphasisText, 1, 12),
        span(Name::Strong, 1, 8),
        span(Name::StrongSequence, 1, 3),
        span(Name::StrongText, 3, 6),
        HOLE,
        HOLE,
        HOLE,
        span(Name::StrongSequence, 6, 8),
        HOLE,
        span(Name::EmphasisSequence, 12, 13),
    ];
    assert!(rt; spans == want);
}

/// `*foo**bar*`: the run between may close none by rule 9, nor may the last close it.
#[test]
fn sizes_that_do_not_fit_are_text(rt: HostRuntime) {
    let mut runs = [
        run(b'*', 1, true, false, 0, 0),
        run(b'*', 2, true, true, 4, 3),
        run(b'*', 1, false, true, 9, 9),
    ];
    let mut spans = [HOLE; 10];
    match_runs(false, &mut runs, &mut spans);
    assert!(rt; spans[0] == span(Name::Emphasis, 0, 10));
    assert!(rt; spans[2] == span(Name::EmphasisText, 1, 9));
    assert!(rt; spans[3] == HOLE);
    assert!(rt; spans[9] == span(Name::EmphasisSequence, 9, 10));
}

/// `~a~`, where one tilde is a mark and where it is none.
#[test]
fn one_tilde_may_be_a_mark(rt: HostRuntime) {
    let mut runs = [
        run(b'~', 1, true, false, 0, 0),
        run(b'~', 1, false, true, 2, 3),
    ];
    let mut spans = [HOLE; 4];
    match_runs(false, &mut runs, &mut spans);
    assert!(rt; spans == [HOLE; 4]);
    let mut runs = [
        run(b'~', 1, true, false, 0, 0),
        run(b'~', 1, false, true, 2, 3),
    ];
    match_runs(true, &mut runs, &mut spans);
    let want = [
        span(Name::GfmStrikethrough, 0, 3),
        span(Name::GfmStrikethroughSequence, 0, 1),
        span(Name::GfmStrikethroughText, 1, 2),
        span(Name::GfmStrikethroughSequence, 2, 3),
    ];
    assert!(rt; spans == want);
}
