// Emphasis, strong emphasis and strikethrough among the nodes of one level (CommonMark 6.2, GFM 6.5): of all runs that
// may close one before them, the first closes the nearest, until none may.

ghost use Rattle.std.specs.Prelude.{◌≡◌, ◌<◌, ◌++◌, IfOk, OnOk, [], length};
ghost use Rattle.md_inlines.specs.Emphasis as inlines;
ghost use Rattle.reference_inlines.specs.Rounds as rounds;

use crate::node::{Node, push_nodes, push_piece, push_texts, sum};
use md_engine::event::Name;
use md_engine::message::Message;
use md_inlines::Run;
use md_scan::memory::push;
use std::alloc::Global;

/// A run among nodes that another may close: where it is, and what is left of it.
#[derive(Clone, Copy, Debug)]
pub(crate) struct Opener {
    pub(crate) at: usize,
    pub(crate) run: Run,
}

/// Two runs among nodes that pair.
#[derive(Clone, Copy, Debug)]
pub(crate) struct Pair {
    pub(crate) opener_at: usize,
    pub(crate) opener: Run,
    pub(crate) closer_at: usize,
    pub(crate) closer: Run,
}

/// Rules 9 and 10.
#[tactic(auto, using(crate::proofs::RoundLemmas::sum_of_rests))]
fn fit(opener: Run, closer: Run) -> bool
    ensures { result ≡ inlines.fit opener closer }
{
    !(opener.closes || closer.opens)
        || (opener.size % 3 + closer.size % 3) % 3 != 0
        || opener.size % 3 == 0 && closer.size % 3 == 0
}

/// Whether two runs of tildes pair; `single` says whether one tilde is a mark.
fn strike(single: bool, opener: Run, closer: Run) -> bool
    ensures { result ≡ inlines.strike single opener closer }
{
    opener.left == closer.left && (closer.left == 2 || closer.left == 1 && single)
}

/// Whether a run may close another.
fn may_pair(single: bool, opener: Run, closer: Run) -> bool
    ensures { result ≡ inlines.may_pair single opener closer }
{
    opener.mark == closer.mark
        && opener.opens
        && closer.closes
        && if closer.mark == b'~' {
            strike(single, opener, closer)
        } else {
            fit(opener, closer)
        }
}

/// The run that a node is, if this one may close it.
fn opens_for(single: bool, closer: Run, node: Node) -> Option<Run>
    ensures { result ≡ rounds.opens_for single closer node }
{
    match node {
        Node::Run(opener) => {
            if may_pair(single, opener, closer) {
                Some(opener)
            } else {
                None
            }
        }
        Node::Begin(_) | Node::End | Node::Piece(_, _) => None,
    }
}

/// The last run among nodes that this one may close.
fn last_opener(single: bool, closer: Run, nodes: &[Node]) -> Option<Opener>
    ensures { result ≡ rounds.last_opener single closer nodes.now }
{
    let mut rest = nodes;
    while let Some((node, before)) = rest.split_last() {
        if let Some(run) = opens_for(single, closer, *node) {
            return Some(Opener {
                at: before.len(),
                run,
            });
        }
        rest = before;
    }
    None
}

/// The pair that a node makes with the nearest run before it.
fn pair_at(single: bool, before: &[Node], node: Node) -> Option<Pair>
    ensures { result ≡ rounds.pair_at single before.now node }
{
    match node {
        Node::Run(closer) => match last_opener(single, closer, before) {
            Some(opener) => Some(Pair {
                opener_at: opener.at,
                opener: opener.run,
                closer_at: before.len(),
                closer,
            }),
            None => None,
        },
        Node::Begin(_) | Node::End | Node::Piece(_, _) => None,
    }
}

/// The first run that may close one before it, with the nearest such.
fn first_pair(single: bool, nodes: &[Node]) -> Option<Pair>
    ensures { result ≡ rounds.pair_from single [] nodes.now }
{
    for (index, node) in nodes.iter().enumerate() {
        let pair = pair_at(single, nodes.split_at(index).0, *node);
        if pair.is_some() {
            return pair;
        }
    }
    None
}

/// How many bytes of each run a pair uses.
fn used(opener: Run, closer: Run) -> usize
    ensures { result ≡ rounds.used_of opener closer }
{
    if closer.mark == b'~' {
        closer.left
    } else if 2 <= opener.left && 2 <= closer.left {
        2
    } else {
        1
    }
}

/// Adds a run without so many of its bytes, if some are left.
///
/// An `Err` says that memory ran out.
fn push_shorter(nodes: &mut Vec<Node>, count: usize, run: Run) -> Result<(), Message>
    ensures { OnOk result (nodes.new.items ≡ nodes.old.items ++ rounds.shorter_nodes count run) }
{
    if count < run.left {
        push(
            nodes,
            Node::Run(Run {
                mark: run.mark,
                size: run.size,
                left: run.left - count,
                opens: run.opens,
                closes: run.closes,
            }),
        )
    } else {
        Ok(())
    }
}

/// Adds a part of these names, with marks of so many bytes, around nodes.
///
/// An `Err` says that memory ran out.
fn push_enclosed(
    nodes: &mut Vec<Node>,
    whole: Name,
    sequence: Name,
    text: Name,
    count: usize,
    inside: &[Node],
) -> Result<(), Message>
    ensures { OnOk result
        (nodes.new.items ≡ nodes.old.items ++ rounds.enclosed_nodes whole sequence text count inside.now) }
{
    push(nodes, Node::Begin(whole))?;
    push_piece(nodes, sequence, count)?;
    push(nodes, Node::Begin(text))?;
    push_texts(nodes, inside)?;
    push(nodes, Node::End)?;
    push_piece(nodes, sequence, count)?;
    push(nodes, Node::End)
}

/// Adds what a pair of this mark is, around nodes.
///
/// An `Err` says that memory ran out.
fn push_marked(
    nodes: &mut Vec<Node>,
    mark: u8,
    count: usize,
    inside: &[Node],
) -> Result<(), Message>
    ensures { OnOk result (nodes.new.items ≡ nodes.old.items ++ rounds.marked_nodes mark count inside.now) }
{
    if mark == b'~' {
        push_enclosed(
            nodes,
            Name::GfmStrikethrough,
            Name::GfmStrikethroughSequence,
            Name::GfmStrikethroughText,
            count,
            inside,
        )
    } else if count == 2 {
        push_enclosed(
            nodes,
            Name::Strong,
            Name::StrongSequence,
            Name::StrongText,
            count,
            inside,
        )
    } else {
        push_enclosed(
            nodes,
            Name::Emphasis,
            Name::EmphasisSequence,
            Name::EmphasisText,
            count,
            inside,
        )
    }
}

/// The nodes once two runs are paired: what is between them is read by itself.
///
/// An `Err` says that memory ran out.
fn paired(alloc: Global, nodes: &[Node], pair: Pair) -> Result<Vec<Node>, Message>
    requires order { pair.opener_at < pair.closer_at }
    requires within { pair.closer_at < length nodes.now }
    ensures { IfOk result (λ made. made.items ≡ rounds.with_pair nodes.now pair) }
{
    let count = used(pair.opener, pair.closer);
    let (front, after) = nodes.split_at(pair.closer_at);
    let (before, between) = front.split_at(pair.opener_at);
    let mut made = Vec::new(alloc);
    push_nodes(&mut made, before)?;
    push_shorter(&mut made, count, pair.opener)?;
    push_marked(&mut made, pair.closer.mark, count, between.split_at(1).1)?;
    push_shorter(&mut made, count, pair.closer)?;
    push_nodes(&mut made, after.split_at(1).1)?;
    Ok(made)
}

/// How many bytes a node has that is a run.
fn delimiters_of(node: Node) -> usize
    ensures { result ≡ rounds.node_delimiters node }
{
    match node {
        Node::Run(run) => run.left,
        Node::Begin(_) | Node::End | Node::Piece(_, _) => 0,
    }
}

/// How many bytes runs have.
///
/// An `Err` says that they are more than a text in memory can have.
fn delimiters(nodes: &[Node]) -> Result<usize, Message>
    ensures { IfOk result (λ count. count ≡ rounds.delimiters nodes.now) }
{
    let mut count: usize = 0;
    for node in nodes {
        count = sum(count, delimiters_of(*node))?;
    }
    Ok(count)
}

/// The nodes of a level once its runs are read; `single` says whether one tilde is a mark.
///
/// An `Err` says that memory ran out.
pub(crate) fn emphasis(alloc: Global, single: bool, nodes: &[Node]) -> Result<Vec<Node>, Message>
    ensures { IfOk result (λ made. made.items ≡ rounds.emphasis_nodes single nodes.now) }
{
    let mut left = delimiters(nodes)?;
    let mut list = Vec::new(alloc);
    push_nodes(&mut list, nodes)?;
    while left > 0 {
        let Some(pair) = first_pair(single, &list) else {
            break;
        };
        list = paired(alloc, &list, pair)?;
        left -= 1;
    }
    let mut made = Vec::new(alloc);
    push_texts(&mut made, &list)?;
    Ok(made)
}
