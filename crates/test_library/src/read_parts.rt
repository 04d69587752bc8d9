// A text that is read part by part has the events of its parse, one part after the other, and its labels; and before
// its text parts are read it has its outline.
ghost use Rattle.markdown_blocks.specs.Parsed.{IsSmall, IsWithoutMdx};

use crate::parts::repeated;
use markdown_blocks::configuration::ParseOptions;
use markdown_blocks::event::{Event, Kind, Name};
use markdown_blocks::message::Message;
use markdown_blocks::outline::outline;
use markdown_blocks::parser::{Part, Parts, parse};
use std::alloc::Global;
use std::process::Abort;

// More parts than a text here has.
const MOST_PARTS: usize = 1000;

// The next part. Where it is refused memory, it is asked for again.
fn next_part(parts: &mut Parts) -> Result<Option<Part>, Message> {
    if let Ok(part) = parts.next() {
        return Ok(part);
    }
    parts.next()
}

// In how many parts a text is read; `None` if their events or their labels are not those of its parse.
fn count_parts(
    alloc: Global,
    text: &str,
    options: &ParseOptions,
    least: usize,
) -> Result<Option<usize>, Message>
    requires small { IsSmall text.now }
    requires built { IsWithoutMdx options.now }
{
    let (events, state) = parse(alloc, text, options)?;
    let mut wanted = events.iter();
    let mut definitions = state.definitions.iter();
    let mut footnotes = state.gfm_footnote_definitions.iter();
    let mut parts = Parts::with_least(alloc, text, options, least);
    let mut count = 0;
    for number in 0..MOST_PARTS {
        let Some(part) = next_part(&mut parts)? else {
            break;
        };
        count = number + 1;
        for event in part.events.iter() {
            if wanted.next() != Some(event) {
                return Ok(None);
            }
        }
        for label in part.definitions.iter() {
            if definitions.next() != Some(label) {
                return Ok(None);
            }
        }
        for label in part.gfm_footnote_definitions.iter() {
            if footnotes.next() != Some(label) {
                return Ok(None);
            }
        }
        parts.reuse(part);
    }
    if wanted.next().is_some() || definitions.next().is_some() || footnotes.next().is_some() {
        return Ok(None);
    }
    Ok(Some(count))
}

// The same; where it is refused memory, once more.
fn counted(alloc: Global, text: &str, least: usize) -> Result<Option<usize>, Message>
    requires { IsSmall text.now }
{
    match count_parts(alloc, text, &ParseOptions::GFM, least) {
        Ok(count) => Ok(count),
        Err(Message) => count_parts(alloc, text, &ParseOptions::GFM, least),
    }
}

fn check(rt: &impl Abort, alloc: Global, text: &str, least: usize, want: usize) {
    assert!(rt; text.len() <= usize::MAX / 8);
    let count = counted(alloc, text, least);
    assert!(rt;
        matches!(count, Ok(Some(all)) if all == want),
        "{text:?}: {count:?}"
    );
}

#[test]
fn a_text_ends_a_part_before_an_empty_line(rt: HostRuntime) {
    let alloc = rt.alloc();
    check(&rt, alloc, "", 1, 0);
    check(&rt, alloc, "\n", 1, 1);
    check(&rt, alloc, "a", 1, 1);
    check(&rt, alloc, "a\n\nb\n\nc", 0, 3);
    check(&rt, alloc, "a\n\nb\n\nc", 1, 3);
    check(&rt, alloc, "a\r\n\r\nb\r\rc\n", 1, 3);
    check(&rt, alloc, "a\n\nb\n\nc\n\nd", 3, 3);
    check(&rt, alloc, "a\n\nb\n\nc\n\nd", 6, 2);
    check(&rt, alloc, "# a\n\nb\n\n* * *\n\nc", 5, 2);
    check(&rt, alloc, "[a]: b\n\nc\n\n[d]: e\n\n[^f]: g\n\nh\n", 1, 4);
}

#[test]
fn no_part_ends_in_a_block_or_after_an_item(rt: HostRuntime) {
    let alloc = rt.alloc();
    check(&rt, alloc, "- a\n\n- b\n\nc\n\nd", 1, 2);
    check(&rt, alloc, "- a\n\n- b\n\nc\n\nd", 10, 2);
    check(&rt, alloc, "> a\n\nb\n\nc", 1, 2);
    check(&rt, alloc, "> a\n\nb\n\nc", 5, 2);
    check(&rt, alloc, "```\na\n\nb\n```\n\nc\n\nd", 1, 1);
    check(&rt, alloc, "```\na\n\nb\n```\n\nc\n\nd", 14, 2);
    check(&rt, alloc, "<!--\na\n\nb -->\n\nc\n\nd", 1, 1);
    check(&rt, alloc, "<!--\na\n\nb -->\n\nc\n\nd", 15, 2);
    check(
        &rt,
        alloc,
        "a\n  \nb\n\nc\n===\n\n| d |\n| - |\n\ne\n\nf",
        1,
        3,
    );
}

// Where no paragraph ends, a part has 4,096 bytes more, and then ends after the next heading, fence or comment.
#[test]
fn a_part_ends_after_another_leaf(rt: HostRuntime) -> Result<(), Message> {
    let alloc = rt.alloc();
    check(&rt, alloc, &repeated(alloc, "", "# a\n", 2_000)?, 1, 2);
    check(
        &rt,
        alloc,
        &repeated(alloc, "", "```\na\n```\n\n", 1_000)?,
        1,
        3,
    );
    check(
        &rt,
        alloc,
        &repeated(alloc, "", "<!-- a -->\n", 1_000)?,
        1,
        3,
    );
    Ok(())
}

// So it does not in a fence or in an item, where a space is last, or before CR LF.
#[test]
fn no_part_ends_after_what_only_looks_so(rt: HostRuntime) -> Result<(), Message> {
    let alloc = rt.alloc();
    check(&rt, alloc, &repeated(alloc, "~~~\n", "# a\n", 2_000)?, 1, 1);
    check(
        &rt,
        alloc,
        &repeated(alloc, "- a\n\n", "  <!-- b -->\n", 1_000)?,
        1,
        1,
    );
    check(&rt, alloc, &repeated(alloc, "", "# a \n", 2_000)?, 1, 1);
    check(&rt, alloc, &repeated(alloc, "", "# a\r\n", 2_000)?, 1, 1);
    Ok(())
}

#[test]
fn the_front_of_a_text_is_a_part(rt: HostRuntime) {
    let alloc = rt.alloc();
    check(&rt, alloc, "\u{feff}a\n\nb", 1, 3);
    check(&rt, alloc, "\u{feff}", 1, 1);
}

// A text with each construct, and endings of each kind.
const WHOLE: &str =
    "\u{feff}# # a #\nb\n> > c\n> d\ne\n\nf\n\n### ##\n***\n- g\r\n\r\n  1. h\n     > i\n- j\n\n\
    > [!note]\t\n> ~~~ k l\n>  m\n>\nn\n<p\no\n\no\n=\n\n> [P\n> Q]: r 's'\n\n[P]: u\n\t \nv\n=\nw|x\n-|-\n|y\n\n[^Z]: z\r\r\
    [S]: t\nu\n\n    v\n\n    w\n\nx\n\n\ny\n";

fn check_parts(rt: &impl Abort, alloc: Global, text: &str, least: usize) {
    assert!(rt; text.len() <= usize::MAX / 8);
    let count = counted(alloc, text, least);
    assert!(rt; matches!(count, Ok(Some(_))), "{least}: {count:?}");
}

#[test]
fn parts_of_any_size_are_those_of_the_text(rt: HostRuntime) {
    let alloc = rt.alloc();
    for least in 0..WHOLE.len() {
        check_parts(&rt, alloc, WHOLE, least);
    }
}

// Whether the outlines of the parts of a text whose text parts are not read are its outline.
fn has_outline(alloc: Global, text: &str, least: usize) -> Result<bool, Message>
    requires { IsSmall text.now }
{
    let (events, state) = parse(alloc, text, &ParseOptions::GFM)?;
    let lines = outline(alloc, &events, &state)?;
    let mut wanted = lines.iter();
    let mut parts = Parts::with_least(alloc, text, &ParseOptions::GFM, least);
    for _part in 0..MOST_PARTS {
        let Some(part) = parts.next_blocks()? else {
            break;
        };
        for line in outline(alloc, &part.events, &state)?.iter() {
            if wanted.next() != Some(line) {
                return Ok(false);
            }
        }
        parts.reuse(part);
    }
    Ok(wanted.next().is_none())
}

#[test]
fn unread_parts_of_any_size_have_the_outline_of_the_text(rt: HostRuntime) {
    let alloc = rt.alloc();
    assert!(&rt; WHOLE.len() <= usize::MAX / 8);
    for least in 0..WHOLE.len() {
        let is = match has_outline(alloc, WHOLE, least) {
            Ok(is) => Ok(is),
            Err(Message) => has_outline(alloc, WHOLE, least),
        };
        assert!(&rt; matches!(is, Ok(true)), "{least}: {is:?}");
    }
}

// Whether an event begins a chunk that is read later.
fn is_linked(event: &Event) -> bool {
    matches!(event.kind, Kind::Enter) && matches!(event.name, Name::Data) && event.link.is_some()
}

// How many chunks are read later in the first part of a text, and how many events it has.
fn unread(alloc: Global, text: &str) -> Result<(usize, usize), Message>
    requires { IsSmall text.now }
{
    match Parts::new(alloc, text, &ParseOptions::GFM).next_blocks()? {
        Some(part) => Ok((
            part.events.iter().filter(|event| is_linked(event)).count(),
            part.events.len(),
        )),
        None => Ok((0, 0)),
    }
}

fn check_unread(rt: &impl Abort, alloc: Global, text: &str, want: (usize, usize)) {
    assert!(rt; text.len() <= usize::MAX / 8);
    let counts = match unread(alloc, text) {
        Ok(counts) => Ok(counts),
        Err(Message) => unread(alloc, text),
    };
    assert!(rt;
        matches!(counts, Ok(both) if both == want),
        "{text:?}: {counts:?}"
    );
}

#[test]
fn each_line_of_an_unread_part_is_a_chunk(rt: HostRuntime) {
    let alloc = rt.alloc();
    check_unread(&rt, alloc, "", (0, 0));
    check_unread(&rt, alloc, "---", (0, 4));
    check_unread(&rt, alloc, "a\nb", (2, 6));
}
