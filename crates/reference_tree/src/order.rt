// The blocks of a tree in the order in which they begin, each with its depth.

ghost use Rattle.std.specs.Prelude.{◌≡◌, ◌+◌, ◌++◌, ◌∷◌, [], IfOk, OnOk};
ghost use Rattle.reference_tree.specs.Trees.{meaning, meanings};
ghost use Rattle.reference_tree.specs.Placed.{blocks_in, left, placed, places};

use crate::tree::Block;
use md_engine::message::Message;
use md_scan::memory;
use std::alloc::Global;

/// A block, and the number of blocks that it is in.
#[derive(Clone, Copy)]
pub struct Place<'t, 'a> {
    pub depth: usize,
    pub block: &'t Block<'a>,
}

/// Blocks that are still to be visited, and the number of blocks that they are in.
#[derive(Clone, Copy)]
struct Level<'t, 'a> {
    depth: usize,
    blocks: &'t [Block<'a>],
}

/// The blocks in a block.
fn inside<'t, 'a>(block: &'t Block<'a>) -> &'t [Block<'a>]
    ensures { meanings result.now ≡ blocks_in (meaning block.now) }
{
    match block {
        Block::Quote(_, blocks)
        | Block::ListOf(_, blocks)
        | Block::Item(_, _, blocks)
        | Block::Footnote(_, blocks) => blocks,
        _ => &[],
    }
}

/// One deeper. A depth that is no `usize` is one that no memory holds.
pub fn deeper(depth: usize) -> Result<usize, Message>
    ensures { IfOk result (λ n. n ≡ depth + 1) }
{
    match depth.checked_add(1) {
        Some(inner) => Ok(inner),
        None => Err(Message),
    }
}

/// Visits the first of the blocks of a level: those after it are left for later than those in it.
fn visit<'t, 'a>(
    found: &mut Vec<Place<'t, 'a>>,
    levels: &mut Vec<Level<'t, 'a>>,
    level: Level<'t, 'a>,
) -> Result<(), Message>
    ensures { OnOk result
        (places found.new.items ++ left levels.new.items ≡
        places found.old.items ++ left (levels.old.items ++ level.entry ∷ [])) }
{
    let Some((block, after)) = level.blocks.split_first() else {
        return Ok(());
    };
    let depth = level.depth;
    let inner = deeper(depth)?;
    memory::push(found, Place { depth, block })?;
    memory::push(
        levels,
        Level {
            depth,
            blocks: after,
        },
    )?;
    memory::push(
        levels,
        Level {
            depth: inner,
            blocks: inside(block),
        },
    )?;
    Ok(())
}

/// All blocks, those in a block directly after it. What is still to be visited is on the heap, and no memory holds more
/// blocks than there are rounds.
pub fn in_order<'t, 'a>(
    alloc: Global,
    blocks: &'t [Block<'a>],
) -> Result<Vec<Place<'t, 'a>>, Message>
    ensures { IfOk result (λ found. places found.items ≡ placed 0 (meanings blocks.now)) }
{
    let mut found = Vec::new(alloc);
    let mut levels = Vec::new(alloc);
    memory::push(&mut levels, Level { depth: 0, blocks })?;
    for _round in 0..u64::MAX {
        let Some(level) = levels.pop() else {
            return Ok(found);
        };
        visit(&mut found, &mut levels, level)?;
    }
    Err(Message)
}
