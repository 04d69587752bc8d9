// The tokens of the inline content of a text (CommonMark 6).

ghost use Rattle.std.specs.Prelude.{◌≡◌, ◌≤◌, ◌++◌, false, if◌then◌else◌, [], IfOk, OnOk, drop, length, map, take};
ghost use Rattle.std.specs.Prelude.{string_bytes};
ghost use Rattle.md_engine.specs.declared.event.Name.TheVariants as n;
ghost use Rattle.md_inline_events.specs.Forest.{nothing};
ghost use Rattle.md_inline_events.specs.Tokens as listed;
ghost use Rattle.md_inlines.specs.Content as inlines;
ghost use Rattle.md_inlines.specs.Task as task;
ghost use Rattle.markdown_inlines.specs.Given.{labels_of};

use crate::brackets::{Source, read};
use crate::emails::{may_have_address, with_addresses};
use crate::slices::after;
use crate::tokens::tokens_of;
use md_engine::event::Name;
use md_engine::message::Message;
use md_events::labels::Labels;
use md_inline_events::token::Token;
use md_inlines::InlineOptions;
use md_inlines::task::{is_checked, is_task};
use std::alloc::Global;

/// What a check says by the byte between its brackets.
fn value_of(byte: u8) -> Name
    ensures { result ≡
        (if task.is_checked byte then n.GfmTaskListItemValueChecked else n.GfmTaskListItemValueUnchecked) }
{
    if is_checked(byte) {
        Name::GfmTaskListItemValueChecked
    } else {
        Name::GfmTaskListItemValueUnchecked
    }
}

/// The tokens of a text from a place on.
///
/// An `Err` says that memory ran out.
fn tokens_from(
    alloc: Global,
    options: &InlineOptions,
    labels: &Labels<'_>,
    text: &[u8],
    start: usize,
) -> Result<Vec<Token>, Message>
    requires { start ≤ length text.now }
    ensures { IfOk result (λ made. made.items ≡ listed.tokens (inlines.forest_after options.now
        (inlines.has_form (map string_bytes labels.now.definitions.forms.now))
        (inlines.has_form (map string_bytes labels.now.footnotes.forms.now)) (take start text.now) (drop start text.now))) }
{
    let source = Source {
        options,
        labels,
        text,
        start,
    };
    let spans = read(alloc, source)?;
    let tokens = tokens_of(alloc, &spans, start, text.len())?;
    if may_have_address(options.constructs.gfm_autolink_literal, after(text, start)) {
        with_addresses(alloc, text, start, tokens)
    } else {
        Ok(tokens)
    }
}

/// Adds tokens.
///
/// An `Err` says that memory ran out.
fn push_tokens(tokens: &mut Vec<Token>, more: &[Token]) -> Result<(), Message>
    ensures { OnOk result (tokens.new.items ≡ tokens.old.items ++ more.now) }
{
    match tokens.extend_from_slice(more) {
        Ok(()) => Ok(()),
        Err(_) => Err(Message),
    }
}

/// Adds the tokens of the check of a task item, with this byte between its brackets.
///
/// An `Err` says that memory ran out.
fn push_check_tokens(tokens: &mut Vec<Token>, byte: u8) -> Result<(), Message>
    ensures { OnOk result
        (tokens.new.items ≡ tokens.old.items ++ listed.tokens (inlines.check byte nothing)) }
{
    push_tokens(
        tokens,
        &[
            Token::Enters(Name::GfmTaskListItemCheck),
            Token::Over(Name::GfmTaskListItemMarker, 1),
            Token::Over(value_of(byte), 1),
            Token::Over(Name::GfmTaskListItemMarker, 1),
            Token::Leaves(Name::GfmTaskListItemCheck),
        ],
    )
}

/// The tokens of the inline content of a text, in a document that defines these labels. `first` says that the text is
/// that of the first paragraph of an item.
///
/// An `Err` says that memory ran out.
pub fn content_tokens(
    alloc: Global,
    options: &InlineOptions,
    labels: &Labels<'_>,
    first: bool,
    text: &[u8],
) -> Result<Vec<Token>, Message>
    ensures { IfOk result (λ made.
        made.items ≡ listed.tokens (inlines.content options.now (labels_of labels.now) first text.now)) }
{
    if options.constructs.gfm_task_list_item && first && is_task(text) {
        let mut made = Vec::new(alloc);
        push_check_tokens(&mut made, text[1])?;
        let rest = tokens_from(alloc, options, labels, text, 3)?;
        push_tokens(&mut made, &rest)?;
        Ok(made)
    } else {
        tokens_from(alloc, options, labels, text, 0)
    }
}
