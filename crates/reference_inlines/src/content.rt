// The inline content of a text (CommonMark 6), by the definition.

ghost use Rattle.std.specs.Prelude.{◌≡◌, IfOk, map, drop, string_bytes, take};
ghost use Rattle.md_inlines.specs.Content as inlines;
ghost use Rattle.reference_inlines.specs.Nodes.{check_nodes, nodes};
ghost use Rattle.reference_inlines.specs.Given.{labels_of};
ghost use Rattle.reference_inlines.specs.Searched.{addressed};

use crate::brackets::read;
use crate::emails::with_emails;
use crate::emphasis::emphasis;
use crate::labels::Defined;
use crate::merged::merged;
use crate::node::{Node, push_nodes};
use md_engine::event::Name;
use md_engine::message::Message;
use md_inlines::InlineOptions;
use md_inlines::task::{is_checked, is_task};
use std::alloc::Global;

/// Nodes from a place of a text on, with the e-mail addresses in its text, if these are on.
///
/// An `Err` says that memory ran out.
fn with_addresses(
    alloc: Global,
    options: &InlineOptions,
    text: &[u8],
    start: usize,
    made: Vec<Node>,
) -> Result<Vec<Node>, Message>
    ensures { IfOk result
        (λ found. found.items ≡ addressed options.now text.now start made.items) }
{
    if !options.constructs.gfm_autolink_literal {
        return Ok(made);
    }
    let found = with_emails(alloc, text, start, &made)?;
    merged(alloc, &found)
}

/// The content of a text from a place on.
///
/// An `Err` says that memory ran out.
fn content_from(
    alloc: Global,
    options: &InlineOptions,
    labels: Defined<'_>,
    text: &[u8],
    start: usize,
) -> Result<Vec<Node>, Message>
    ensures { IfOk result (λ made. made.items ≡ nodes
        (inlines.forest_after options.now (inlines.has_form (map string_bytes labels.entry.definitions.now))
        (inlines.has_form (map string_bytes labels.entry.footnotes.now)) (take start text.now) (drop start text.now))) }
{
    let level = read(alloc, options, labels, text, start)?;
    let list = emphasis(alloc, options.gfm_strikethrough_single_tilde, &level)?;
    let made = merged(alloc, &list)?;
    with_addresses(alloc, options, text, start, made)
}

/// The check of a task item, with this byte between its brackets.
///
/// An `Err` says that memory ran out.
fn check(alloc: Global, byte: u8) -> Result<Vec<Node>, Message>
    ensures { IfOk result (λ made. made.items ≡ check_nodes byte) }
{
    let value = if is_checked(byte) {
        Name::GfmTaskListItemValueChecked
    } else {
        Name::GfmTaskListItemValueUnchecked
    };
    let mut made = Vec::new(alloc);
    push_nodes(
        &mut made,
        &[
            Node::Begin(Name::GfmTaskListItemCheck),
            Node::Piece(Name::GfmTaskListItemMarker, 1),
            Node::Piece(value, 1),
            Node::Piece(Name::GfmTaskListItemMarker, 1),
            Node::End,
        ],
    )?;
    Ok(made)
}

/// The inline content of a text, in a document that defines these labels, as the definition gives it: all parts and
/// pieces of its forest, in the order of the text. `first` says that the text is that of the first paragraph of an
/// item.
///
/// An `Err` says that memory ran out.
pub fn content(
    alloc: Global,
    options: &InlineOptions,
    labels: Defined<'_>,
    first: bool,
    text: &[u8],
) -> Result<Vec<Node>, Message>
    ensures { IfOk result (λ made. made.items ≡ nodes
        (inlines.content options.now (labels_of labels.entry) first text.now)) }
{
    if options.constructs.gfm_task_list_item && first && is_task(text) {
        let mut made = check(alloc, text[1])?;
        let rest = content_from(alloc, options, labels, text, 3)?;
        push_nodes(&mut made, &rest)?;
        Ok(made)
    } else {
        content_from(alloc, options, labels, text, 0)
    }
}
