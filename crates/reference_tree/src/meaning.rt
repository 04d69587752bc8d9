// What a text means: its block tree.

ghost use Rattle.std.specs.Prelude.{◌≡◌, ◌^◌, ◌<◌, length, IfOk};
ghost use Rattle.md_meaning.specs.Grouped as lists;
ghost use Rattle.md_meaning.specs.Lines.{lines_of};
ghost use Rattle.md_meaning.specs.Meaning as spec;
ghost use Rattle.md_meaning.specs.Preamble.{without_mark, first_column, rests_at};
ghost use Rattle.md_meaning.specs.State as state;
ghost use Rattle.md_meaning.specs.Step as definition;
ghost use Rattle.md_meaning.specs.Tree.{End, More};
ghost use Rattle.reference_tree.specs.Rests.{rest_meanings};
ghost use Rattle.reference_tree.specs.Trees.{meaning};
ghost use Rattle.reference_tree.specs.Held.{blocks_meaning};

use crate::blocks::Blocks;
use crate::close::closed;
use crate::grouped::grouped;
use crate::lines::rests_of;
use crate::preamble::{Front, front_of, has_mark};
use crate::rest::Rest;
use crate::state::{Innermost, Leaf, Path};
use crate::step::step;
use md_engine::configuration::ParseOptions;
use md_engine::message::Message;
use std::alloc::Global;

/// The lines after a byte order mark, whose bytes are columns of the first.
fn rests_after_mark<'a>(alloc: Global, text: &'a [u8]) -> Result<Vec<Rest<'a>>, Message>
    requires { length text.now < 2 ^ 61 }
    ensures { IfOk result
        (λ v. rest_meanings v.items ≡ rests_at (first_column text.now) (lines_of (without_mark text.now))) }
{
    if has_mark(text) {
        rests_of(alloc, 3, text.split_at(3).1)
    } else {
        rests_of(alloc, 0, text)
    }
}

/// The blocks of a body, not yet grouped.
fn blocks_of<'a>(
    alloc: Global,
    options: &ParseOptions,
    rests: &[Rest<'a>],
) -> Result<Blocks<'a>, Message>
    ensures { IfOk result
        (λ bs.
        blocks_meaning bs ≡
        state.closed options.now
        (definition.steps options.now (state.At (definition.spot_of End)) (rest_meanings rests.now))) }
{
    let mut path = Path {
        frames: Vec::new(alloc),
        spot: Innermost {
            here: Blocks::new(alloc),
            leaf: Leaf::None,
        },
    };
    for rest in rests {
        path = step(alloc, options, path, rest)?;
    }
    closed(alloc, options, path)
}

/// The blocks of a body, with lists.
fn body<'a>(
    alloc: Global,
    options: &ParseOptions,
    rests: &[Rest<'a>],
) -> Result<Blocks<'a>, Message>
    ensures { IfOk result
        (λ bs.
        blocks_meaning bs ≡
        lists.grouped
        (state.closed options.now
        (definition.steps options.now (state.At (definition.spot_of End)) (rest_meanings rests.now)))) }
{
    grouped(alloc, blocks_of(alloc, options, rests)?)
}

/// A tree with frontmatter, and the lines after it.
fn tree_after<'a>(
    alloc: Global,
    options: &ParseOptions,
    front: Front<'a, '_>,
) -> Result<Blocks<'a>, Message>
    ensures { IfOk result
        (λ t.
        blocks_meaning t ≡
        More (meaning front.entry.block)
        (lists.grouped
        (state.closed options.now
        (definition.steps options.now (state.At (definition.spot_of End)) (rest_meanings front.entry.after.now))))) }
{
    let Front { block, after } = front;
    let mut blocks = body(alloc, options, after)?;
    match blocks.list.insert(0, block) {
        Ok(()) => Ok(blocks),
        Err(_) => Err(Message),
    }
}

/// The block tree of a text of fewer than 2^61 bytes.
pub fn tree<'a>(alloc: Global, text: &'a str, options: &ParseOptions) -> Result<Blocks<'a>, Message>
    requires { length text.now < 2 ^ 61 }
    ensures { IfOk result (λ t. blocks_meaning t ≡ spec.tree options.now text.now) }
{
    let rests = rests_after_mark(alloc, text.as_bytes())?;
    match front_of(alloc, options, &rests)? {
        Some(front) => tree_after(alloc, options, front),
        None => body(alloc, options, &rests),
    }
}
