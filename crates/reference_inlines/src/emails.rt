// E-mail addresses without angle brackets (GFM 6.9): they are found in what is text, outside of links.

ghost use Rattle.std.specs.Prelude.{◌≡◌, ◌++◌, IfOk, OnOk, drop, take};
ghost use Rattle.md_inlines.specs.Emails as emails;
ghost use Rattle.reference_inlines.specs.Nodes as spec;
ghost use Rattle.reference_inlines.specs.Searched as searched;

use crate::atom::literal_name;
use crate::merged::data_len;
use crate::node::{Node, push_piece, sum};
use crate::slices::{after, front};
use md_engine::event::Name;
use md_engine::message::Message;
use md_inlines::email::email_at;
use md_scan::memory::push;
use std::alloc::Global;

/// Whether the text of a part is searched.
fn holds_text(name: Name) -> bool
    ensures { result ≡ emails.holds_text name }
{
    matches!(name, Name::Image | Name::Label | Name::LabelText)
        || matches!(name, Name::Emphasis | Name::EmphasisText)
        || matches!(name, Name::Strong | Name::StrongText)
        || matches!(name, Name::GfmStrikethrough | Name::GfmStrikethroughText)
}

/// Adds a text from a place on, with the addresses in it.
///
/// An `Err` says that memory ran out.
fn push_emails(nodes: &mut Vec<Node>, text: &[u8], start: usize) -> Result<(), Message>
    ensures { OnOk result (nodes.new.items ≡ nodes.old.items
        ++ spec.nodes (emails.emails_in (take start text.now) (drop start text.now))) }
{
    let mut at = start;
    while let Some((_byte, _following)) = after(text, at).split_first() {
        match email_at(front(text, at), after(text, at)) {
            Some(found) => {
                push_piece(nodes, literal_name(found.kind), found.len)?;
                at = sum(at, found.len)?;
            }
            None => {
                push(nodes, Node::Piece(Name::Data, 1))?;
                at = sum(at, 1)?;
            }
        }
    }
    Ok(())
}

/// Adds a node that is at a place of a text, with the addresses in it if it is text and in no part that is not
/// searched, of which so many are open.
///
/// An `Err` says that memory ran out.
#[tactic(auto, using(crate::proofs::SearchedLemmas::node_hidden, crate::proofs::SearchedLemmas::node_open))]
fn push_searched(
    nodes: &mut Vec<Node>,
    text: &[u8],
    hidden: usize,
    at: usize,
    node: Node,
) -> Result<(), Message>
    ensures { OnOk result
        (nodes.new.items ≡ nodes.old.items ++ searched.node_searched text.now hidden at node) }
{
    if hidden != 0 {
        return push(nodes, node);
    }
    match data_len(node) {
        Some(len) => push_emails(nodes, front(text, sum(at, len)?), at),
        None => push(nodes, node),
    }
}

/// Where a text is read after a node.
fn at_after(at: usize, node: Node) -> Result<usize, Message>
    ensures { IfOk result (λ place. place ≡ searched.at_after at node) }
{
    match node {
        Node::Piece(_, len) => sum(at, len),
        Node::Run(run) => sum(at, run.left),
        Node::Begin(_) | Node::End => Ok(at),
    }
}

/// How many parts are open of which the text is not searched, or that are in one, after one more begins.
#[tactic(auto, using(crate::proofs::SearchedLemmas::begin_open, crate::proofs::SearchedLemmas::begin_hidden))]
fn begun(hidden: usize, name: Name) -> Result<usize, Message>
    ensures { IfOk result (λ count. count ≡ searched.begun hidden name) }
{
    if hidden == 0 && holds_text(name) {
        Ok(0)
    } else {
        sum(hidden, 1)
    }
}

/// How many such parts are open after a node.
#[tactic(auto, using(crate::proofs::SearchedLemmas::end_any))]
fn hidden_after(hidden: usize, node: Node) -> Result<usize, Message>
    ensures { IfOk result (λ count. count ≡ searched.hidden_after hidden node) }
{
    match node {
        Node::Begin(name) => begun(hidden, name),
        Node::End => Ok(hidden.saturating_sub(1)),
        Node::Piece(_, _) | Node::Run(_) => Ok(hidden),
    }
}

/// Nodes from a place of a text on, with the addresses in its text.
///
/// An `Err` says that memory ran out.
pub(crate) fn with_emails(
    alloc: Global,
    text: &[u8],
    start: usize,
    nodes: &[Node],
) -> Result<Vec<Node>, Message>
    ensures { IfOk result (λ made. made.items ≡ searched.searched text.now 0 start nodes.now) }
{
    let mut made = Vec::new(alloc);
    let mut at = start;
    let mut hidden = 0;
    let mut rest = nodes;
    while let Some((node, following)) = rest.split_first() {
        push_searched(&mut made, text, hidden, at, *node)?;
        at = at_after(at, *node)?;
        hidden = hidden_after(hidden, *node)?;
        rest = following;
    }
    Ok(made)
}
