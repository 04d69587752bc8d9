// What is before the body of a text: a byte order mark, and frontmatter (own choice: CommonMark knows neither).

ghost use Rattle.std.specs.Prelude.{◌≡◌, ◌≤◌, not, length, drop, Some, IfOk, IfSome};
ghost use Rattle.std.specs.List.{prefix_len};
ghost use Rattle.std.specs.Option.{option_map};
ghost use Rattle.md_meaning.specs.Preamble as preamble;
ghost use Rattle.reference_tree.specs.Trees.{slices};
ghost use Rattle.reference_tree.specs.Fronts as fronts;

use crate::rest::Rest;
use crate::tree::Block;
use md_engine::configuration::ParseOptions;
use md_engine::message::Message;
use md_scan::bytes::{is_blank, run_len};
use md_scan::memory;
use std::alloc::Global;

/// Frontmatter, and the lines after it.
#[derive(Drop)]
pub struct Front<'a, 'b> {
    pub block: Block<'a>,
    pub after: &'b [Rest<'a>],
}

/// Whether the text begins with the bytes EF BB BF.
pub fn has_mark(text: &[u8]) -> bool
    ensures { result ≡ preamble.has_mark text.now }
{
    text.starts_with(b"\xef\xbb\xbf")
}

/// Whether a line is exactly three of this byte, and then spaces and tabs only.
fn is_front_fence(marker: u8, line: &[u8]) -> bool
    ensures { result ≡ preamble.is_front_fence marker line.now }
{
    run_len(marker, line) == 3 && is_blank(line.split_at(3).1)
}

/// The byte of the fence that this line is.
fn front_marker(line: &[u8]) -> Option<u8>
    ensures { result ≡ preamble.front_marker line.now }
{
    if is_front_fence(b'-', line) {
        Some(b'-')
    } else if is_front_fence(b'+', line) {
        Some(b'+')
    } else {
        None
    }
}

/// How many lines are before the first fence with this marker.
fn lines_before_fence(marker: u8, rests: &[Rest]) -> usize
    ensures value { result ≡ prefix_len (λ x. not (preamble.is_front_fence marker x.bytes.now)) rests.now }
    ensures bound { result ≤ length rests.now }
{
    rests
        .iter()
        .take_while(|rest| !is_front_fence(marker, rest.bytes))
        .count()
}

/// The bytes of these lines.
fn lines_in<'a>(alloc: Global, rests: &[Rest<'a>]) -> Result<Vec<&'a [u8]>, Message>
    ensures { IfOk result (λ v. slices v.items ≡ fronts.lines_in rests.now) }
{
    let mut lines = Vec::new(alloc);
    for rest in rests {
        memory::push(&mut lines, rest.bytes)?;
    }
    Ok(lines)
}

/// The frontmatter of these lines, which follow a fence with this marker: the first fence with the same marker closes
/// it, and without one there is none.
fn front_by<'a, 'b>(
    alloc: Global,
    marker: u8,
    rests: &'b [Rest<'a>],
) -> Result<Option<Front<'a, 'b>>, Message>
    ensures front { IfOk result
        (λ o. option_map fronts.front_meaning o ≡ preamble.front_by (Some marker) (fronts.lines_in rests.now)) }
    ensures after { IfOk result (λ o. IfSome o (λ f. fronts.IsEnd rests.now f.after.now)) }
{
    let (inside, following) = rests.split_at(lines_before_fence(marker, rests));
    match following.split_first() {
        None => Ok(None),
        Some((_, after)) => {
            let lines = lines_in(alloc, inside)?;
            Ok(Some(Front {
                block: Block::Frontmatter(marker, lines),
                after,
            }))
        }
    }
}

/// The frontmatter at the front of these lines, if the first is a fence.
#[tactic(auto, unfolding(md_meaning::specs::Preamble::front_of))]
pub fn front_of<'a, 'b>(
    alloc: Global,
    options: &ParseOptions,
    rests: &'b [Rest<'a>],
) -> Result<Option<Front<'a, 'b>>, Message>
    ensures front { IfOk result
        (λ o. option_map fronts.front_meaning o ≡ preamble.front_of options.now (fronts.lines_in rests.now)) }
    ensures after { IfOk result (λ o. IfSome o (λ f. fronts.IsEnd (drop 1 rests.now) f.after.now)) }
{
    let Some((first, later)) = rests.split_first() else {
        return Ok(None);
    };
    if !options.constructs.frontmatter {
        return Ok(None);
    }
    let Some(marker) = front_marker(first.bytes) else {
        return Ok(None);
    };
    front_by(alloc, marker, later)
}
