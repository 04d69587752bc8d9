// Outlines by parts: the lines of the parts of a text, one part after the other, are those of its outline.
ghost use Rattle.markdown_blocks.specs.Parsed.{IsSmall};

use markdown_blocks::configuration::ParseOptions;
use markdown_blocks::message::Message;
use markdown_blocks::outline::{outline, outline_part};
use markdown_blocks::parser::parse;
use std::alloc::Global;
use std::process::Abort;

// More parts than a text here has.
const MOST_PARTS: usize = 100;

// How many lines each part of the outline of a text has; `None` if the lines of the parts are not those of the outline.
fn parts(alloc: Global, text: &str) -> Result<Option<Vec<usize>>, Message>
    requires { IsSmall text.now }
{
    let (events, state) = parse(alloc, text, &ParseOptions::COMMONMARK)?;
    let lines = outline(alloc, &events, &state)?;
    let mut wanted = lines.iter();
    let mut counts = Vec::new(alloc);
    let mut rest = events.as_slice();
    for _part in 0..MOST_PARTS {
        if rest.is_empty() {
            break;
        }
        let part = outline_part(alloc, rest, &state)?;
        for line in part.lines.iter() {
            if wanted.next() != Some(line) {
                return Ok(None);
            }
        }
        if counts.push(part.lines.len()).is_err() {
            return Err(Message);
        }
        rest = rest.split_at(part.events).1;
    }
    if wanted.next().is_some() || !rest.is_empty() {
        return Ok(None);
    }
    Ok(Some(counts))
}

fn check(rt: &impl Abort, alloc: Global, text: &str, want: &[usize]) {
    assert!(rt; text.len() <= usize::MAX / 8);
    let counts = match parts(alloc, text) {
        Ok(counts) => Ok(counts),
        Err(Message) => parts(alloc, text),
    };
    assert!(rt;
        matches!(counts, Ok(Some(ref all)) if all.as_slice() == want),
        "of {} bytes: {counts:?}",
        text.len()
    );
}

// So many times the same text, after another.
pub fn repeated(alloc: Global, first: &str, part: &str, count: usize) -> Result<String, Message> {
    let mut all = String::from_str(alloc, first)?;
    for _ in 0..count {
        all.push_str(part)?;
    }
    Ok(all)
}

#[test]
fn outlines_no_events(rt: HostRuntime) {
    check(&rt, rt.alloc(), "", &[]);
}

#[test]
fn outlines_a_short_text_at_once(rt: HostRuntime) {
    check(&rt, rt.alloc(), "# a\n\n> b\nc\n", &[6]);
}

// A break has four events, and its line ending two, so a part has 683 breaks or more: 4,096 events are 682 of them and
// four events of the next.
#[test]
fn outlines_a_long_text_by_parts(rt: HostRuntime) -> Result<(), Message> {
    let text = repeated(rt.alloc(), "", "***\n", 2_000)?;
    check(&rt, rt.alloc(), &text, &[683, 683, 634]);
    Ok(())
}

// A block is in one part, however many events it has: a list with a paragraph in each item.
#[test]
fn outlines_a_long_block_at_once(rt: HostRuntime) -> Result<(), Message> {
    let text = repeated(rt.alloc(), "", "- a\n", 2_000)?;
    check(&rt, rt.alloc(), &text, &[6_001]);
    let text = repeated(rt.alloc(), "***\n***\n", "- a\n", 2_000)?;
    check(&rt, rt.alloc(), &text, &[6_003]);
    Ok(())
}
