// The tokens of a text, from the spans that a reader listed: where its parts begin and end, and its pieces.
//
// Spans are in the order of the text, the outer before the inner. So a part that is open ends before the first span
// that begins at its end or after it, and what no span is over is text.

ghost use Rattle.std.specs.Prelude.{◌≡◌, ℕ, ◌+◌, ◌<◌, ◌≤◌, ◌&&◌, ◌++◌, ◌∷◌, [], true, not, IfNone, IfOk};
ghost use Rattle.std.specs.Prelude.{IfSome, OnOk, reverse};
ghost use Rattle.md_events.specs.Events.Inline.{is_inline};
ghost use Rattle.md_events.specs.Events.Pieces.{is_piece_name};
ghost use Rattle.md_inline_events.specs.Forest.{Forest, size};
ghost use Rattle.md_inline_events.specs.Tokens as listed;
ghost use Rattle.md_inlines.specs.Atoms.{merged};
ghost use Rattle.markdown_inlines.specs.Filled.{Shows};
ghost use Rattle.markdown_inlines.specs.Readable.{is_readable};
ghost use Rattle.markdown_inlines.specs.Tokens.{begun, ends, opened, past_begun, still_open, text};

use crate::slices::with_room;
use crate::span::Span;
use md_engine::event::Name;
use md_engine::message::Message;
use md_inline_events::token::Token;
use md_scan::memory::push;
use std::alloc::Global;

/// Whether this is the name of a piece that an inline layer may give.
fn is_inline_piece(name: Name) -> bool
    ensures { result ≡ (is_inline name && is_piece_name name) }
{
    match name {
        Name::SpaceOrTab
        | Name::LineEnding
        | Name::Data
        | Name::HardBreakEscape
        | Name::HardBreakTrailing => true,
        Name::LabelMarker
        | Name::LabelImageMarker
        | Name::GfmFootnoteCallMarker
        | Name::ReferenceMarker
        | Name::ResourceMarker
        | Name::ResourceDestinationLiteralMarker
        | Name::ResourceTitleMarker => true,
        Name::EmphasisSequence | Name::StrongSequence | Name::GfmStrikethroughSequence => true,
        Name::CodeTextSequence
        | Name::CodeTextData
        | Name::MathTextSequence
        | Name::MathTextData
        | Name::HtmlTextData => true,
        Name::AutolinkMarker
        | Name::AutolinkProtocol
        | Name::AutolinkEmail
        | Name::GfmAutolinkLiteralEmail
        | Name::GfmAutolinkLiteralMailto
        | Name::GfmAutolinkLiteralProtocol
        | Name::GfmAutolinkLiteralWww
        | Name::GfmAutolinkLiteralXmpp => true,
        Name::CharacterEscapeMarker
        | Name::CharacterEscapeValue
        | Name::CharacterReferenceMarker
        | Name::CharacterReferenceMarkerNumeric
        | Name::CharacterReferenceMarkerHexadecimal
        | Name::CharacterReferenceValue
        | Name::CharacterReferenceMarkerSemi => true,
        Name::GfmTaskListItemMarker
        | Name::GfmTaskListItemValueChecked
        | Name::GfmTaskListItemValueUnchecked => true,
        _ => false,
    }
}

/// Whether this is the name of a piece that only blocks have.
fn is_block_piece(name: Name) -> bool
    ensures { result ≡ (not (is_inline name) && is_piece_name name) }
{
    match name {
        Name::FrontmatterSequence
        | Name::FrontmatterChunk
        | Name::ByteOrderMark
        | Name::BlankLineEnding => true,
        Name::BlockQuoteMarker | Name::ListItemValue | Name::ListItemMarker => true,
        Name::HeadingAtxSequence
        | Name::HeadingSetextUnderlineSequence
        | Name::ThematicBreakSequence => true,
        Name::CodeFencedFenceSequence
        | Name::CodeFlowChunk
        | Name::MathFlowFenceSequence
        | Name::MathFlowChunk
        | Name::HtmlFlowData => true,
        Name::GfmFootnoteDefinitionLabelMarker
        | Name::GfmFootnoteDefinitionMarker
        | Name::DefinitionLabelMarker
        | Name::DefinitionMarker
        | Name::DefinitionDestinationLiteralMarker
        | Name::DefinitionTitleMarker => true,
        Name::GfmTableCellDivider | Name::GfmTableDelimiterMarker | Name::GfmTableDelimiterFiller =>
            true,
        _ => false,
    }
}

/// Whether this is the name of a piece, and of no block and no part.
fn is_piece_name(name: Name) -> bool
    ensures { result ≡ is_piece_name name }
{
    is_inline_piece(name) || is_block_piece(name)
}

/// Adds the text between two places, if a byte is between them.
///
/// An `Err` says that memory ran out.
#[inline(always)]
fn push_text(tokens: &mut Vec<Token>, at: usize, to: usize) -> Result<(), Message>
    ensures { OnOk result (tokens.new.items ≡ tokens.old.items ++ text at to) }
{
    if at < to {
        push(tokens, Token::Over(Name::Data, to - at))?;
    }
    Ok(())
}

/// Takes the innermost part that is open, if it ends at a place or before it.
#[inline(always)]
fn pop_ended(parts: &mut Vec<Span>, to: usize) -> Option<Span>
    ensures some { IfSome result (λ part. (part.end ≤ to) × (parts.old.items ≡ parts.new.items ++ part ∷ [])) }
    ensures none { IfNone result ((at : ℕ) → ends (reverse parts.old.items) at to ≡ text at to) }
    ensures left { IfNone result (reverse parts.new.items ≡ still_open (reverse parts.old.items) to) }
{
    let (part, outer) = parts.split_last()?;
    let (part, count) = (*part, outer.len());
    if part.end > to {
        return None;
    }
    parts.truncate(count);
    Some(part)
}

/// Adds the ends of the parts that end between two places, and the text before and after each.
///
/// An `Err` says that memory ran out.
#[inline(always)]
fn push_ends(
    tokens: &mut Vec<Token>,
    parts: &mut Vec<Span>,
    at: usize,
    to: usize,
) -> Result<(), Message>
    ensures tokens { OnOk result (tokens.new.items ≡ tokens.old.items ++ ends (reverse parts.old.items) at to) }
    ensures left { OnOk result (reverse parts.new.items ≡ still_open (reverse parts.old.items) to) }
{
    let mut from = at;
    while let Some(part) = pop_ended(parts, to) {
        push_text(tokens, from, part.end)?;
        push(tokens, Token::Leaves(part.name))?;
        from = part.end;
    }
    push_text(tokens, from, to)
}

/// Adds what begins at a span: a piece, or a part, which is open then. Returns the place after it.
///
/// An `Err` says that memory ran out.
#[inline(always)]
fn push_span(tokens: &mut Vec<Token>, parts: &mut Vec<Span>, span: Span) -> Result<usize, Message>
    requires { span.start < span.end }
    ensures tokens { OnOk result (tokens.new.items ≡ tokens.old.items ++ begun span ∷ []) }
    ensures left { OnOk result (reverse parts.new.items ≡ opened span (reverse parts.old.items)) }
    ensures past { IfOk result (λ past. past ≡ past_begun span) }
{
    if is_piece_name(span.name) {
        push(tokens, Token::Over(span.name, span.end - span.start))?;
        Ok(span.end)
    } else {
        push(tokens, Token::Enters(span.name))?;
        push(parts, span)?;
        Ok(span.start)
    }
}

/// The tokens of what is from a place to an end, from its spans.
///
/// An `Err` says that memory ran out.
pub(crate) fn tokens_of(
    alloc: Global,
    spans: &[Span],
    start: usize,
    end: usize,
) -> Result<Vec<Token>, Message>
    ensures { (forest : Forest) → is_readable forest ≡ true → merged forest ≡ forest → start + size forest ≡ end →
        Shows start [] forest spans.now → IfOk result (λ made. made.items ≡ listed.tokens forest) }
{
    let mut tokens = with_room(alloc, spans.len().saturating_mul(2).saturating_add(1))?;
    let mut parts = Vec::new(alloc);
    let mut at = start;
    let mut rest = spans;
    while let Some((span, following)) = rest.split_first() {
        if span.start < span.end {
            push_ends(&mut tokens, &mut parts, at, span.start)?;
            at = push_span(&mut tokens, &mut parts, *span)?;
        }
        rest = following;
    }
    push_ends(&mut tokens, &mut parts, at, end)?;
    Ok(tokens)
}
