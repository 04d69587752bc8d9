// Finished blocks, which take no stack by depth where they are let go.

ghost use Rattle.std.specs.Prelude.{◌≡◌, [], ◌∷◌, ◌++◌, OnOk};
ghost use Rattle.md_meaning.specs.State.{then_block, then_paragraph};
ghost use Rattle.reference_tree.specs.Trees.{meaning, slices};
ghost use Rattle.reference_tree.specs.Held.{blocks_meaning};

use crate::tree::Block;
use md_engine::message::Message;
use std::alloc::Global;
use std::mem::swap;

/// Blocks, with those in them.
pub struct Blocks<'a> {
    pub list: Vec<Block<'a>>,
}

/// A block, with those in it.
pub struct Whole<'a> {
    pub block: Block<'a>,
}

impl Drop for Blocks<'_> {
    fn drop(self) {
        let Blocks { list } = self;
        free(list);
    }
}

impl Drop for Whole<'_> {
    fn drop(self) {
        let Whole { block } = self;
        if let Some(list) = blocks_in(block) {
            free(list);
        }
    }
}

impl<'a> Blocks<'a> {
    /// No blocks.
    pub fn new(alloc: Global) -> Blocks<'a>
        ensures { result.list.items ≡ [] }
    {
        Blocks {
            list: Vec::new(alloc),
        }
    }

    /// The list alone, which takes stack by depth where it is let go.
    pub fn into_list(self) -> Vec<Block<'a>>
        ensures { result ≡ self.entry.list }
    {
        let Blocks { list } = self;
        list
    }
}

impl<'a> Whole<'a> {
    /// The block alone, which takes stack by depth where it is let go.
    pub fn into_block(self) -> Block<'a>
        ensures { result ≡ self.entry.block }
    {
        let Whole { block } = self;
        block
    }
}

/// The blocks in a block that is let go, if it is none without.
fn blocks_in<'a>(block: Block<'a>) -> Option<Vec<Block<'a>>> {
    match block {
        Block::Quote(_, blocks)
        | Block::ListOf(_, blocks)
        | Block::Item(_, _, blocks)
        | Block::Footnote(_, blocks) => Some(blocks),
        _ => None,
    }
}

/// The last of these blocks, in place of which are the blocks around them: these come first, so that they are let go
/// last. If there are none, it is the last of those around them.
///
/// Where one block was taken there is room for one, so this asks for no memory.
fn descend<'a>(around: &mut Vec<Block<'a>>, blocks: Vec<Block<'a>>) -> Option<Block<'a>> {
    let mut blocks = blocks;
    let Some(last) = blocks.pop() else {
        return around.pop();
    };
    swap(around, &mut blocks);
    if !blocks.is_empty() {
        let _ = around.push(Block::Quote(None, blocks));
        if let Some(index) = around.len().checked_sub(1) {
            around.swap(0, index);
        }
    }
    Some(last)
}

/// Lets blocks go one by one, with those in them, and asks for no memory. Each round lets a block go, or moves those
/// around it into a list that had none of them: no memory holds so many.
fn free(blocks: Vec<Block>) {
    let mut around = blocks;
    let mut next = around.pop();
    for _round in 0..u64::MAX {
        let Some(block) = next else {
            return;
        };
        next = match blocks_in(block) {
            Some(blocks) => descend(&mut around, blocks),
            None => around.pop(),
        };
    }
}

/// Adds a block at the end. After an `Err` the list is as it was.
pub fn push<'a>(blocks: &mut Blocks<'a>, whole: Whole<'a>) -> Result<(), Message>
    ensures { OnOk result (blocks.new.list.items ≡ blocks.old.list.items ++ whole.entry.block ∷ []) }
{
    match blocks.list.push(whole.into_block()) {
        Ok(()) => Ok(()),
        Err(failed) => {
            let _ = Whole {
                block: failed.value,
            };
            Err(Message)
        }
    }
}

/// Adds a block at the end, with those in it.
#[tactic(auto, using(crate::proofs::TreeLemmas::meanings_push))]
pub fn push_whole<'a>(blocks: &mut Blocks<'a>, whole: Whole<'a>) -> Result<(), Message>
    ensures { OnOk result
        (blocks_meaning blocks.new ≡ then_block (blocks_meaning blocks.old) (meaning whole.entry.block)) }
{
    push(blocks, whole)
}

/// Adds a block at the end.
pub fn push_block<'a>(blocks: &mut Blocks<'a>, block: Block<'a>) -> Result<(), Message>
    ensures { OnOk result (blocks_meaning blocks.new ≡ then_block (blocks_meaning blocks.old) (meaning block.entry)) }
{
    push_whole(blocks, Whole { block })
}

/// Adds a paragraph of these lines, if there are any.
pub fn push_paragraph<'a>(blocks: &mut Blocks<'a>, lines: Vec<&'a [u8]>) -> Result<(), Message>
    ensures { OnOk result
        (blocks_meaning blocks.new ≡ then_paragraph (blocks_meaning blocks.old) (slices lines.entry.items)) }
{
    match lines.as_slice() {
        [] => Ok(()),
        [_, ..] => push_block(blocks, Block::Paragraph(lines)),
    }
}
