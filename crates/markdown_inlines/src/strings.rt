// Strings: texts in which there are escapes and character references alone (CommonMark 2.4, 2.5), as an info string or
// a title, and what is found in them.

ghost use Rattle.std.specs.Prelude.{◌≡◌, ◌++◌, IfOk, OnOk};
ghost use Rattle.md_inline_events.specs.Forest.{size};
ghost use Rattle.md_inline_events.specs.Tokens as listed;
ghost use Rattle.md_inlines.specs.Atoms as inlines;
ghost use Rattle.md_inlines.specs.Targets as targets;
ghost use Rattle.markdown_inlines.specs.Found.{atom_forest};

use crate::atom::{Atom, string_atom};
use crate::slices::after;
use crate::span::past;
use md_engine::event::Name;
use md_engine::message::Message;
use md_inline_events::token::Token;
use md_inlines::{InlineOptions, Reference};
use md_scan::memory::push;
use std::alloc::Global;

/// Adds tokens.
///
/// An `Err` says that memory ran out.
fn push_tokens(tokens: &mut Vec<Token>, more: &[Token]) -> Result<(), Message>
    ensures { OnOk result (tokens.new.items ≡ tokens.old.items ++ more.now) }
{
    match tokens.extend_from_slice(more) {
        Ok(()) => Ok(()),
        Err(_) => Err(Message),
    }
}

/// Adds the tokens of an escape, and says how many bytes it has.
///
/// An `Err` says that memory ran out.
fn push_escape(tokens: &mut Vec<Token>) -> Result<usize, Message>
    ensures tokens { OnOk result (listed.live tokens.new.items ≡
        listed.live tokens.old.items ++ listed.tokens inlines.escape) }
    ensures len { IfOk result (λ len. len ≡ size inlines.escape) }
{
    push_tokens(
        tokens,
        &[
            Token::Enters(Name::CharacterEscape),
            Token::Over(Name::CharacterEscapeMarker, 1),
            Token::Over(Name::CharacterEscapeValue, 1),
            Token::Leaves(Name::CharacterEscape),
        ],
    )?;
    Ok(2)
}

/// Adds the tokens of a character reference, and says how many bytes it has.
///
/// An `Err` says that memory ran out.
fn push_reference(tokens: &mut Vec<Token>, found: Reference) -> Result<usize, Message>
    ensures tokens { OnOk result (listed.live tokens.new.items ≡
        listed.live tokens.old.items ++ listed.tokens (inlines.reference found)) }
    ensures len { IfOk result (λ len. len ≡ size (inlines.reference found)) }
{
    let len = past(past(2, found.markers)?, found.value)?;
    push_tokens(
        tokens,
        &[
            Token::Enters(Name::CharacterReference),
            Token::Over(Name::CharacterReferenceMarker, 1),
            Token::Over(Name::CharacterReferenceMarkerNumeric, found.markers.min(1)),
            Token::Over(
                Name::CharacterReferenceMarkerHexadecimal,
                found.markers.saturating_sub(1),
            ),
            Token::Over(Name::CharacterReferenceValue, found.value),
            Token::Over(Name::CharacterReferenceMarkerSemi, 1),
            Token::Leaves(Name::CharacterReference),
        ],
    )?;
    Ok(len)
}

/// Adds the tokens of an atom of a string, and says how many bytes it has.
///
/// An `Err` says that memory ran out.
fn push_string_atom(tokens: &mut Vec<Token>, atom: Atom) -> Result<usize, Message>
    ensures tokens { OnOk result (listed.live tokens.new.items ≡
        listed.live tokens.old.items ++ listed.tokens (atom_forest atom)) }
    ensures len { IfOk result (λ len. len ≡ size (atom_forest atom)) }
{
    match atom {
        Atom::Escape => push_escape(tokens),
        Atom::Reference(reference) => push_reference(tokens, reference),
        // No string has another.
        _ => Err(Message),
    }
}

/// The tokens of a string.
///
/// An `Err` says that memory ran out.
pub fn string_tokens(
    alloc: Global,
    options: &InlineOptions,
    text: &[u8],
) -> Result<Vec<Token>, Message>
    ensures { IfOk result (λ made. listed.live made.items ≡
        listed.tokens (targets.string options.now text.now)) }
{
    let mut made = Vec::new(alloc);
    let mut plain: usize = 0;
    let mut rest = text;
    while let Some((_byte, following)) = rest.split_first() {
        match string_atom(options, rest) {
            Some(atom) => {
                push(&mut made, Token::Over(Name::Data, plain))?;
                plain = 0;
                let len = push_string_atom(&mut made, atom)?;
                rest = after(rest, len);
            }
            None => {
                plain = past(plain, 1)?;
                rest = following;
            }
        }
    }
    push(&mut made, Token::Over(Name::Data, plain))?;
    Ok(made)
}
