// The tokens of a text.

ghost use Rattle.std.specs.Prelude.{◌≡◌, ◌++◌, IfOk, OnOk, length};
ghost use Rattle.md_inline_events.specs.Forest.{nothing, over};
ghost use Rattle.md_inline_events.specs.Tokens.{live, tokens};
ghost use Rattle.examples_marks.specs.References.{forms_of, reference_forest};
ghost use Rattle.examples_marks.specs.Listed.{reference_tokens};

use crate::found::{Found, found_at};
use md_engine::event::Name;
use md_engine::message::Message;
use md_events::inline::PartKind;
use md_events::labels::Labels;
use md_inline_events::token::Token;
use md_scan::memory::push;
use std::alloc::Global;

/// Adds a reference, whose label has so many bytes.
///
/// An `Err` says that memory ran out.
fn push_reference(list: &mut Vec<Token>, len: usize) -> Result<(), Message>
    ensures { OnOk result (list.new.items ≡ list.old.items ++ reference_tokens len) }
{
    push(list, Token::Enters(Name::Link))?;
    push(list, Token::Over(Name::LabelMarker, 1))?;
    push(list, Token::Enters(Name::LabelText))?;
    push(list, Token::Over(Name::Data, len))?;
    push(list, Token::Leaves(Name::LabelText))?;
    push(list, Token::Over(Name::LabelMarker, 1))?;
    push(list, Token::Leaves(Name::Link))
}

/// The tokens of the references in a text, and of the text around them.
///
/// An `Err` says that memory ran out.
fn references(alloc: Global, labels: &Labels, text: &[u8]) -> Result<Vec<Token>, Message>
    ensures { IfOk result
        (λ list. live list.items ≡ tokens (reference_forest (forms_of labels.now) PartKind.Text text.now)) }
{
    let mut list = Vec::new(alloc);
    let mut plain = 0;
    let mut rest = text;
    while let Some((byte, following)) = rest.split_first() {
        match found_at(alloc, labels, *byte, following)? {
            Found::Text(len) => {
                plain += len;
                rest = following.split_at(len - 1).1;
            }
            Found::Reference(len) => {
                push(&mut list, Token::Over(Name::Data, plain))?;
                push_reference(&mut list, len)?;
                plain = 0;
                rest = following.split_at(len + 1).1;
            }
        }
    }
    push(&mut list, Token::Over(Name::Data, plain))?;
    Ok(list)
}

/// The tokens of a text that is nothing but text.
///
/// An `Err` says that memory ran out.
#[tactic(auto, using(crate::proofs::ReferenceLemmas::string_tokens))]
fn only_text(alloc: Global, text: &[u8]) -> Result<Vec<Token>, Message>
    ensures { IfOk result (λ list. live list.items ≡ tokens (over Name.Data (length text.now) nothing)) }
{
    let mut list = Vec::new(alloc);
    push(&mut list, Token::Over(Name::Data, text.len()))?;
    Ok(list)
}

/// The tokens of what the layer finds in the text of a part.
///
/// An `Err` says that memory ran out.
pub fn tokens_of(
    alloc: Global,
    kind: PartKind,
    text: &[u8],
    labels: &Labels,
) -> Result<Vec<Token>, Message>
    ensures { IfOk result
        (λ list. live list.items ≡ tokens (reference_forest (forms_of labels.now) kind text.now)) }
{
    match kind {
        PartKind::Text => references(alloc, labels, text),
        PartKind::String => only_text(alloc, text),
    }
}
