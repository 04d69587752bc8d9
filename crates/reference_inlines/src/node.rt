// What is read of a text, as a list: where parts begin and end, and the pieces between, in the order of the text. So
// nothing here is as deep as the text is.

ghost use Rattle.std.specs.Prelude.{◌≡◌, ◌+◌, ◌++◌, IfOk, OnOk};
ghost use Rattle.reference_inlines.specs.Nodes as spec;
ghost use Rattle.reference_inlines.specs.Nodes.{kept, kept_of, pieces, text_of, texts};

use md_engine::event::Name;
use md_engine::message::Message;
use md_inlines::Run;
use md_scan::memory::push;

/// A step through what is read of a text.
#[derive(Clone, Copy, Debug, PartialEq, Eq)]
pub enum Node {
    /// A part begins.
    Begin(Name),
    /// The innermost part that is open ends.
    End,
    /// A piece over so many bytes.
    Piece(Name, usize),
    /// A delimiter run, of which it is not known yet what it is.
    Run(Run),
}

/// Adds nodes.
///
/// An `Err` says that memory ran out.
pub(crate) fn push_nodes(nodes: &mut Vec<Node>, more: &[Node]) -> Result<(), Message>
    ensures { OnOk result (nodes.new.items ≡ nodes.old.items ++ more.now) }
{
    match nodes.extend_from_slice(more) {
        Ok(()) => Ok(()),
        Err(_) => Err(Message),
    }
}

/// Adds a piece, unless it is over no byte.
///
/// An `Err` says that memory ran out.
#[tactic(auto, using(crate::proofs::NodeLemmas::pieces_none, crate::proofs::NodeLemmas::pieces_some))]
pub(crate) fn push_piece(nodes: &mut Vec<Node>, name: Name, len: usize) -> Result<(), Message>
    ensures { OnOk result (nodes.new.items ≡ nodes.old.items ++ pieces name len) }
{
    if len == 0 {
        Ok(())
    } else {
        push(nodes, Node::Piece(name, len))
    }
}

/// Adds a node as text, where it is a run.
///
/// An `Err` says that memory ran out.
fn push_as_text(nodes: &mut Vec<Node>, node: Node) -> Result<(), Message>
    ensures { OnOk result (nodes.new.items ≡ nodes.old.items ++ text_of node) }
{
    match node {
        Node::Run(run) => push_piece(nodes, Name::Data, run.left),
        Node::Begin(_) | Node::End | Node::Piece(_, _) => push(nodes, node),
    }
}

/// Adds nodes, with runs as text.
///
/// An `Err` says that memory ran out.
pub(crate) fn push_texts(nodes: &mut Vec<Node>, more: &[Node]) -> Result<(), Message>
    ensures { OnOk result (nodes.new.items ≡ nodes.old.items ++ texts more.now) }
{
    for node in more {
        push_as_text(nodes, *node)?;
    }
    Ok(())
}

/// Adds a node, unless it is a piece over no byte.
///
/// An `Err` says that memory ran out.
fn push_if_kept(nodes: &mut Vec<Node>, node: Node) -> Result<(), Message>
    ensures { OnOk result (nodes.new.items ≡ nodes.old.items ++ kept_of node) }
{
    match node {
        Node::Piece(name, len) => push_piece(nodes, name, len),
        Node::Begin(_) | Node::End | Node::Run(_) => push(nodes, node),
    }
}

/// Adds nodes but pieces over no byte.
///
/// An `Err` says that memory ran out.
pub(crate) fn push_kept(nodes: &mut Vec<Node>, more: &[Node]) -> Result<(), Message>
    ensures { OnOk result (nodes.new.items ≡ nodes.old.items ++ kept more.now) }
{
    for node in more {
        push_if_kept(nodes, *node)?;
    }
    Ok(())
}

/// The sum of two lengths.
///
/// An `Err` says that it is longer than a text in memory can be.
pub(crate) fn sum(a: usize, b: usize) -> Result<usize, Message>
    ensures { IfOk result (λ c. c ≡ a + b) }
{
    match a.checked_add(b) {
        Some(c) => Ok(c),
        None => Err(Message),
    }
}

/// How many bytes a node is over.
pub fn len_of(node: Node) -> usize
    ensures { result ≡ spec.len_of node }
{
    match node {
        Node::Piece(_, len) => len,
        Node::Run(run) => run.left,
        Node::Begin(_) | Node::End => 0,
    }
}

/// How many bytes nodes are over.
///
/// An `Err` says that they are more than a text in memory can have.
pub(crate) fn len_of_all(nodes: &[Node]) -> Result<usize, Message>
    ensures { IfOk result (λ len. len ≡ spec.len_of_all nodes.now) }
{
    let mut len: usize = 0;
    for node in nodes {
        len = sum(len, len_of(*node))?;
    }
    Ok(len)
}
