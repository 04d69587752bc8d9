// The printed form of a forest. No function calls itself, so the depth of a text takes no stack.

ghost use Rattle.std.specs.Prelude.{◌≡◌, ◌++◌, IfOk, OnOk, codes, string_bytes};
ghost use Rattle.std.specs.List.{flat_map, repeat};
ghost use Rattle.std.specs.Str.Lossy.{utf8_lossy};
ghost use Rattle.plain_inlines.specs.PrintedForest as spec;
ghost use Rattle.plain_inlines.specs.PrintedNodes as nodes;

use md_engine::event::Name;
use md_engine::message::Message;
use md_events::names::text_of;
use md_scan::memory::push;
use reference_inlines::node::{Node, len_of};
use reference_inlines::slices::{after, front};
use std::alloc::Global;

/// Adds bytes.
///
/// An `Err` says that memory ran out.
fn push_bytes(made: &mut Vec<u8>, bytes: &[u8]) -> Result<(), Message>
    ensures { OnOk result (made.new.items ≡ made.old.items ++ bytes.now) }
{
    match made.extend_from_slice(bytes) {
        Ok(()) => Ok(()),
        Err(_) => Err(Message),
    }
}

/// Adds two spaces for each part that is open.
///
/// An `Err` says that memory ran out.
fn push_indent(made: &mut Vec<u8>, depth: usize) -> Result<(), Message>
    ensures { OnOk result (made.new.items ≡ made.old.items ++ repeat depth (codes "  ")) }
{
    for _done in 0..depth {
        push_bytes(made, b"  ")?;
    }
    Ok(())
}

/// Adds a byte of a piece.
///
/// An `Err` says that memory ran out.
fn push_shown(made: &mut Vec<u8>, depth: usize, byte: u8) -> Result<(), Message>
    ensures { OnOk result (made.new.items ≡ made.old.items ++ spec.shown_byte depth byte) }
{
    if byte != b'\n' {
        return push(made, byte);
    }
    push_bytes(made, b"\n")?;
    push_indent(made, depth)?;
    push_bytes(made, b"| ")
}

/// Adds the bytes of a piece.
///
/// An `Err` says that memory ran out.
fn push_text(made: &mut Vec<u8>, depth: usize, text: &[u8]) -> Result<(), Message>
    ensures { OnOk result (made.new.items ≡ made.old.items ++ flat_map (spec.shown_byte depth) text.now) }
{
    for byte in text {
        push_shown(made, depth, *byte)?;
    }
    Ok(())
}

/// Adds the line where a part begins.
///
/// An `Err` says that memory ran out.
fn push_begin(made: &mut Vec<u8>, depth: usize, name: Name) -> Result<(), Message>
    ensures { OnOk result (made.new.items ≡ made.old.items ++ spec.part_line depth name) }
{
    push_indent(made, depth)?;
    push_bytes(made, text_of(name).as_bytes())?;
    push_bytes(made, b"\n")
}

/// Adds the lines of a piece over this text.
///
/// An `Err` says that memory ran out.
fn push_piece(made: &mut Vec<u8>, depth: usize, name: Name, text: &[u8]) -> Result<(), Message>
    ensures { OnOk result (made.new.items ≡ made.old.items ++ spec.piece_line depth name text.now) }
{
    push_indent(made, depth)?;
    push_bytes(made, text_of(name).as_bytes())?;
    push_bytes(made, b" | ")?;
    push_text(made, depth, text)?;
    push_bytes(made, b"\n")
}

/// Adds the lines of a node that is at the front of this text.
///
/// An `Err` says that memory ran out.
fn push_node(made: &mut Vec<u8>, depth: usize, text: &[u8], node: Node) -> Result<(), Message>
    ensures { OnOk result (made.new.items ≡ made.old.items ++ nodes.node_lines depth text.now node) }
{
    match node {
        Node::Begin(name) => push_begin(made, depth, name),
        Node::Piece(name, len) => push_piece(made, depth, name, front(text, len)),
        Node::End | Node::Run(_) => Ok(()),
    }
}

/// How many parts are open after a node.
///
/// An `Err` says that they are more than a text in memory can have.
fn depth_after(depth: usize, node: Node) -> Result<usize, Message>
    ensures { IfOk result (λ count. count ≡ nodes.depth_after depth node) }
{
    match node {
        Node::Begin(_) => match depth.checked_add(1) {
            Some(count) => Ok(count),
            None => Err(Message),
        },
        Node::End => Ok(depth.saturating_sub(1)),
        Node::Piece(_, _) | Node::Run(_) => Ok(depth),
    }
}

/// Adds the lines of nodes over this text.
///
/// An `Err` says that memory ran out.
fn push_nodes(made: &mut Vec<u8>, text: &[u8], list: &[Node]) -> Result<(), Message>
    ensures { OnOk result (made.new.items ≡ made.old.items ++ nodes.printed_nodes 0 text.now list.now) }
{
    let mut depth = 0;
    let mut left = text;
    let mut rest = list;
    while let Some((node, following)) = rest.split_first() {
        push_node(made, depth, left, *node)?;
        depth = depth_after(depth, *node)?;
        left = after(left, len_of(*node));
        rest = following;
    }
    Ok(())
}

/// The printed form of nodes over this text.
///
/// An `Err` says that memory ran out.
pub(crate) fn print(alloc: Global, text: &[u8], list: &[Node]) -> Result<String, Message>
    ensures { IfOk result
        (λ made. string_bytes made ≡ utf8_lossy (nodes.printed_nodes 0 text.now list.now)) }
{
    let mut bytes = Vec::new(alloc);
    push_nodes(&mut bytes, text, list)?;
    match String::from_utf8_lossy(alloc, &bytes) {
        Ok(made) => Ok(made),
        Err(_) => Err(Message),
    }
}
