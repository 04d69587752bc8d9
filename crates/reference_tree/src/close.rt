// Closing what is open, from the inside out.

ghost use Rattle.std.specs.Prelude.{◌≡◌, ◌≤◌, length, take, drop, IfOk};
ghost use Rattle.std.specs.List.{suffix_len};
ghost use Rattle.md_meaning.specs.Rest.{is_blank};
ghost use Rattle.md_meaning.specs.State as state;
ghost use Rattle.reference_tree.specs.Trees.{meaning, line_meanings};
ghost use Rattle.reference_tree.specs.Held.{blocks_meaning};
ghost use Rattle.reference_tree.specs.States.{container_meaning, spot_meaning, path_meaning, within};

use crate::blocks::{Blocks, Whole, push_block, push_whole};
use crate::leaves::fence_block;
use crate::paragraph::with_paragraph;
use crate::state::{Container, Frame, Innermost, Leaf, Path};
use crate::tree::{Block, Line};
use md_engine::configuration::ParseOptions;
use md_engine::message::Message;
use md_scan::bytes::is_blank;
use std::alloc::Global;

/// How many blank lines are at the end.
fn blank_len(lines: &[Line]) -> usize
    ensures value { result ≡ suffix_len (λ l. is_blank l.text.now) lines.now }
    ensures bound { result ≤ length lines.now }
{
    lines
        .iter()
        .rev()
        .take_while(|line| is_blank(line.text))
        .count()
}

/// Blank lines at the end do not belong to indented code (CommonMark 4.4).
fn without_trailing_blank<'a>(lines: Vec<Line<'a>>) -> Vec<Line<'a>>
    ensures { line_meanings result.items ≡ state.without_trailing_blank (line_meanings lines.entry.items) }
{
    let mut lines = lines;
    let count = blank_len(&lines);
    lines.truncate(lines.len() - count);
    lines
}

/// The blocks of the innermost container, with its leaf closed.
pub fn shut<'a>(
    alloc: Global,
    options: &ParseOptions,
    spot: Innermost<'a>,
) -> Result<Blocks<'a>, Message>
    ensures { IfOk result (λ bs. blocks_meaning bs ≡ state.shut options.now (spot_meaning spot.entry)) }
{
    let Innermost { mut here, leaf } = spot;
    let block = match leaf {
        Leaf::None => return Ok(here),
        Leaf::Paragraph(lines) => return with_paragraph(alloc, options, here, lines),
        Leaf::Code(lines) => Block::Code(without_trailing_blank(lines)),
        Leaf::Fence(opening, lines) => fence_block(&opening, lines, false),
        Leaf::Html(_, lines) => Block::Html(lines),
        Leaf::Table(delimiter, rows) => Block::Table(delimiter, rows),
    };
    push_block(&mut here, block)?;
    Ok(here)
}

/// The block that a container is with these blocks in it.
pub fn container_block<'a>(container: Container<'a>, blocks: Blocks<'a>) -> Whole<'a>
    ensures { meaning result.block ≡
        state.container_block (container_meaning container.entry) (blocks_meaning blocks.entry) }
{
    let list = blocks.into_list();
    let block = match container {
        Container::Quote(kind) => Block::Quote(kind, list),
        Container::Item { digits, marker, .. } => Block::Item(marker, digits, list),
        Container::Footnote(label) => Block::Footnote(label, list),
    };
    Whole { block }
}

/// Closes the leaf and all containers but so many of the outermost: the containers that are left, and the blocks of the
/// innermost of these.
pub fn close_to<'a>(
    alloc: Global,
    options: &ParseOptions,
    path: Path<'a>,
    count: usize,
) -> Result<(Vec<Frame<'a>>, Blocks<'a>), Message>
    ensures outer { IfOk result (λ r. r.0.items ≡ take count path.entry.frames.items) }
    ensures blocks { IfOk result
        (λ r.
        blocks_meaning r.1 ≡
        state.closed options.now (within (drop count path.entry.frames.items) (state.At
        (spot_meaning path.entry.spot)))) }
{
    let Path { mut frames, spot } = path;
    let mut here = shut(alloc, options, spot)?;
    while frames.len() > count {
        let Some(Frame { before, container }) = frames.pop() else {
            break;
        };
        let inner = here;
        here = before;
        push_whole(&mut here, container_block(container, inner))?;
    }
    Ok((frames, here))
}

/// Closes everything that is open.
pub fn closed<'a>(
    alloc: Global,
    options: &ParseOptions,
    path: Path<'a>,
) -> Result<Blocks<'a>, Message>
    ensures { IfOk result (λ bs. blocks_meaning bs ≡ state.closed options.now (path_meaning path.entry)) }
{
    let (_, here) = close_to(alloc, options, path, 0)?;
    Ok(here)
}
