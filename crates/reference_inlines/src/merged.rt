// Text beside text is one piece.

ghost use Rattle.std.specs.Prelude.{◌≡◌, IfOk, OnOk, [], reverse};
ghost use Rattle.reference_inlines.specs.Merged as spec;

use crate::node::{Node, sum};
use md_engine::event::Name;
use md_engine::message::Message;
use md_scan::memory::push;
use std::alloc::Global;

/// How many bytes of text a node is; none of another.
pub(crate) fn data_len(node: Node) -> Option<usize>
    ensures { result ≡ spec.data_len node }
{
    match node {
        Node::Piece(Name::Data, len) => Some(len),
        _ => None,
    }
}

/// Two nodes as one, if both are text.
///
/// An `Err` says that they are longer than a text in memory can be.
fn both(node: Node, next: Node) -> Result<Option<Node>, Message>
    ensures { IfOk result (λ found. found ≡ spec.both node next) }
{
    let (Some(len), Some(more)) = (data_len(node), data_len(next)) else {
        return Ok(None);
    };
    Ok(Some(Node::Piece(Name::Data, sum(len, more)?)))
}

/// Adds a node before nodes, the last of which is first.
///
/// An `Err` says that memory ran out.
fn push_joined(made: &mut Vec<Node>, node: Node) -> Result<(), Message>
    ensures { OnOk result (reverse made.new.items ≡ spec.joined_node node (reverse made.old.items)) }
{
    let Some(next) = made.pop() else {
        return push(made, node);
    };
    match both(node, next)? {
        Some(whole) => push(made, whole),
        None => {
            push(made, next)?;
            push(made, node)
        }
    }
}

/// Nodes, with text beside text as one piece.
///
/// An `Err` says that memory ran out.
pub(crate) fn merged(alloc: Global, nodes: &[Node]) -> Result<Vec<Node>, Message>
    ensures { IfOk result (λ made. made.items ≡ spec.merged_onto nodes.now []) }
{
    let mut made = Vec::new(alloc);
    let mut rest = nodes;
    while let Some((node, before)) = rest.split_last() {
        push_joined(&mut made, *node)?;
        rest = before;
    }
    made.reverse();
    Ok(made)
}
