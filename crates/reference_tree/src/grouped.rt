// Lists: neighbouring items with the same marker byte (CommonMark 5.3).

ghost use Rattle.std.specs.Prelude.{◌≡◌, ◌==◌, ◌++◌, reverse, IfOk, OnOk};
ghost use Rattle.md_meaning.specs.Tree as tree;
ghost use Rattle.md_meaning.specs.Grouped as grouped;
ghost use Rattle.md_meaning.specs.State.{container_block};
ghost use Rattle.reference_tree.specs.Trees.{meaning};
ghost use Rattle.reference_tree.specs.Groups.{then_groups, AddsItem, Adds, OpensTo};
ghost use Rattle.reference_tree.specs.Groups.{forward, around, around_all, left_to_group, progress_meaning, with_next};
ghost use Rattle.reference_tree.specs.Held.{blocks_meaning};
ghost use Rattle.reference_tree.specs.States.{container_meaning};

use crate::blocks::{Blocks, Whole, push};
use crate::close::container_block as closed_block;
use crate::state::Container;
use crate::tree::Block;
use md_engine::message::Message;
use md_scan::memory;
use std::alloc::Global;

/// Blocks that are done, and after them items with one marker that may still become more.
#[derive(Drop)]
struct Groups<'a> {
    done: Blocks<'a>,
    marker: u8,
    items: Blocks<'a>,
}

/// Moves these blocks to the end.
fn append<'a>(blocks: &mut Blocks<'a>, more: &mut Blocks<'a>) -> Result<(), Message>
    ensures { OnOk result (blocks.new.list.items ≡ blocks.old.list.items ++ more.old.list.items) }
{
    match blocks.list.append(&mut more.list) {
        Ok(()) => Ok(()),
        Err(_) => Err(Message),
    }
}

/// These items as a list.
fn list_of<'a>(marker: u8, items: Blocks<'a>) -> Whole<'a>
    ensures { meaning result.block ≡ tree.ListOf marker (blocks_meaning items.entry) }
{
    Whole {
        block: Block::ListOf(marker, items.into_list()),
    }
}

/// The blocks, with the items as a list.
fn flushed<'a>(groups: Groups<'a>) -> Result<Blocks<'a>, Message>
    ensures { IfOk result (λ bs. blocks_meaning bs ≡ then_groups groups.entry tree.End) }
{
    let Groups {
        mut done,
        marker,
        items,
    } = groups;
    if items.list.is_empty() {
        return Ok(done);
    }
    push(&mut done, list_of(marker, items))?;
    Ok(done)
}

/// Whether an item or a list with this marker joins the items.
fn joins(groups: &Groups, marker: u8) -> bool
    ensures { result ≡ (groups.now.marker == marker) }
{
    groups.marker == marker
}

/// With one more item.
fn with_item<'a>(
    alloc: Global,
    groups: Groups<'a>,
    marker: u8,
    item: Whole<'a>,
) -> Result<Groups<'a>, Message>
    ensures { IfOk result (AddsItem groups.entry marker (meaning item.entry.block)) }
{
    if joins(&groups, marker) {
        let Groups {
            done,
            marker,
            mut items,
        } = groups;
        push(&mut items, item)?;
        return Ok(Groups {
            done,
            marker,
            items,
        });
    }
    let done = flushed(groups)?;
    let mut items = Blocks::new(alloc);
    push(&mut items, item)?;
    Ok(Groups {
        done,
        marker,
        items,
    })
}

/// With one more list, which takes the items before it that have its marker.
fn with_list<'a>(
    alloc: Global,
    groups: Groups<'a>,
    marker: u8,
    list: Blocks<'a>,
) -> Result<Groups<'a>, Message>
    ensures { IfOk result (Adds groups.entry (tree.ListOf marker (blocks_meaning list.entry))) }
{
    let mut list = list;
    if joins(&groups, marker) {
        let Groups {
            mut done,
            marker,
            mut items,
        } = groups;
        append(&mut items, &mut list)?;
        push(&mut done, list_of(marker, items))?;
        return Ok(Groups {
            done,
            marker,
            items: Blocks::new(alloc),
        });
    }
    let mut done = flushed(groups)?;
    push(&mut done, list_of(marker, list))?;
    Ok(Groups {
        done,
        marker,
        items: Blocks::new(alloc),
    })
}

/// With one more block, whose own blocks are grouped.
fn with_block<'a>(
    alloc: Global,
    groups: Groups<'a>,
    whole: Whole<'a>,
) -> Result<Groups<'a>, Message>
    ensures { IfOk result (Adds groups.entry (meaning whole.entry.block)) }
{
    match whole.into_block() {
        Block::Item(marker, digits, blocks) => {
            let block = Block::Item(marker, digits, blocks);
            with_item(alloc, groups, marker, Whole { block })
        }
        Block::ListOf(marker, list) => with_list(alloc, groups, marker, Blocks { list }),
        block => {
            let other = Whole { block };
            let marker = groups.marker;
            let mut done = flushed(groups)?;
            push(&mut done, other)?;
            Ok(Groups {
                done,
                marker,
                items: Blocks::new(alloc),
            })
        }
    }
}

/// No blocks, and no items.
fn no_groups<'a>(alloc: Global) -> Groups<'a>
    ensures { (bs : tree.Blocks) → then_groups result bs ≡ bs }
{
    Groups {
        done: Blocks::new(alloc),
        marker: 0,
        items: Blocks::new(alloc),
    }
}

/// A container whose blocks are grouped: what is before it, and the blocks after it, the last first.
#[derive(Drop)]
struct Level<'a> {
    groups: Groups<'a>,
    container: Container<'a>,
    after: Blocks<'a>,
}

/// A block: a container and the blocks in it, the last first, or one that has none or whose own are not grouped.
#[derive(Drop)]
enum Opened<'a> {
    Container(Container<'a>, Blocks<'a>),
    Other(Whole<'a>),
}

/// These blocks, the last first.
fn reversed<'a>(blocks: Vec<Block<'a>>) -> Blocks<'a>
    ensures { result.list.items ≡ reverse blocks.entry.items }
{
    let mut blocks = Blocks { list: blocks };
    blocks.list.reverse();
    blocks
}

/// Opens a container.
fn open<'a>(whole: Whole<'a>) -> Opened<'a>
    ensures { OpensTo (meaning whole.entry.block) result }
{
    match whole.into_block() {
        Block::Quote(kind, blocks) => {
            Opened::Container(Container::Quote(kind), reversed(blocks))
        }
        Block::Item(marker, digits, blocks) => Opened::Container(
            Container::Item {
                digits,
                marker,
                width: 0,
                starts_blank: false,
            },
            reversed(blocks),
        ),
        Block::Footnote(label, blocks) => {
            Opened::Container(Container::Footnote(label), reversed(blocks))
        }
        block => Opened::Other(Whole { block }),
    }
}

/// What is done of the grouping of blocks: the containers that are open, and in the innermost the groups and the blocks
/// that are left, the last first.
#[derive(Drop)]
struct Grouping<'a> {
    levels: Vec<Level<'a>>,
    groups: Groups<'a>,
    after: Blocks<'a>,
}

/// What a round leaves: more to do, or the blocks.
#[derive(Drop)]
enum Progress<'a> {
    Left(Grouping<'a>),
    Done(Blocks<'a>),
}

/// Opens a container.
fn enter<'a>(
    alloc: Global,
    grouping: Grouping<'a>,
    container: Container<'a>,
    inner: Blocks<'a>,
) -> Result<Grouping<'a>, Message>
    ensures { IfOk result
        (λ g.
        left_to_group g ≡
        with_next grouping.entry
        (container_block (container_meaning container.entry) (forward inner.entry))) }
{
    let Grouping {
        mut levels,
        groups,
        after,
    } = grouping;
    let level = Level {
        groups,
        container,
        after,
    };
    memory::push(&mut levels, level)?;
    Ok(Grouping {
        levels,
        groups: no_groups(alloc),
        after: inner,
    })
}

/// Takes the next block.
fn take<'a>(
    alloc: Global,
    grouping: Grouping<'a>,
    whole: Whole<'a>,
) -> Result<Grouping<'a>, Message>
    ensures { IfOk result (λ g. left_to_group g ≡ with_next grouping.entry (meaning whole.entry.block)) }
{
    match open(whole) {
        Opened::Container(container, inner) => enter(alloc, grouping, container, inner),
        Opened::Other(whole) => {
            let Grouping {
                levels,
                groups,
                after,
            } = grouping;
            let groups = with_block(alloc, groups, whole)?;
            Ok(Grouping {
                levels,
                groups,
                after,
            })
        }
    }
}

/// Closes the innermost container, with these blocks in it.
fn leave<'a>(
    alloc: Global,
    levels: Vec<Level<'a>>,
    level: Level<'a>,
    inner: Blocks<'a>,
) -> Result<Grouping<'a>, Message>
    ensures { IfOk result
        (λ g. left_to_group g ≡ around_all levels.entry.items (around level.entry (blocks_meaning inner.entry))) }
{
    let Level {
        groups,
        container,
        after,
    } = level;
    let groups = with_block(alloc, groups, closed_block(container, inner))?;
    Ok(Grouping {
        levels,
        groups,
        after,
    })
}

/// Takes the next block, or closes the innermost container if there is none.
fn round<'a>(alloc: Global, grouping: Grouping<'a>) -> Result<Progress<'a>, Message>
    ensures { IfOk result (λ r. progress_meaning r ≡ left_to_group grouping.entry) }
{
    let mut grouping = grouping;
    if let Some(block) = grouping.after.list.pop() {
        let grouping = take(alloc, grouping, Whole { block })?;
        return Ok(Progress::Left(grouping));
    }
    let Grouping {
        mut levels,
        groups,
        ..
    } = grouping;
    let inner = flushed(groups)?;
    match levels.pop() {
        Some(level) => {
            let grouping = leave(alloc, levels, level, inner)?;
            Ok(Progress::Left(grouping))
        }
        None => Ok(Progress::Done(inner)),
    }
}

/// Every longest run of neighbouring items with one marker becomes a list, in all containers. The containers that are
/// open are on the heap, and no memory holds more blocks than there are rounds.
pub fn grouped<'a>(alloc: Global, blocks: Blocks<'a>) -> Result<Blocks<'a>, Message>
    ensures { IfOk result (λ bs. blocks_meaning bs ≡ grouped.grouped (blocks_meaning blocks.entry)) }
{
    let mut grouping = Grouping {
        levels: Vec::new(alloc),
        groups: no_groups(alloc),
        after: reversed(blocks.into_list()),
    };
    for _round in 0..u64::MAX {
        match round(alloc, grouping)? {
            Progress::Left(left) => grouping = left,
            Progress::Done(blocks) => return Ok(blocks),
        }
    }
    Err(Message)
}
