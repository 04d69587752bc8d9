// What binds tightest at the front of a text (CommonMark 2.4, 2.5, 6.1, 6.5, 6.6, 6.7, 6.8, GFM 6.9), and its spans.

ghost use Rattle.std.specs.Prelude.{◌≡◌, ◌+◌, ◌++◌, true, None, IfOk, OnOk, drop, option_copied};
ghost use Rattle.md_inlines.specs.Atoms as inlines;
ghost use Rattle.md_inlines.specs.Targets as targets;
ghost use Rattle.md_inlines.specs.Code as code;
ghost use Rattle.md_inlines.specs.Literal as literal;
ghost use Rattle.md_inlines.specs.RawHtml as html;
ghost use Rattle.markdown_inlines.specs.Ends.{IsAbsent};
ghost use Rattle.markdown_inlines.specs.Found as spec;
ghost use Rattle.markdown_inlines.specs.Found.{found};

use crate::ends::Absent;
use crate::span::{Span, past, push_spans};
use md_engine::event::Name;
use md_engine::message::Message;
use md_inlines::address::literal_at;
use md_inlines::autolink::{email_len, uri_len};
use md_inlines::breaks::{break_len, is_break_escape, trailing_len};
use md_inlines::code::raw_at;
use md_inlines::escape::{is_escape, reference_at};
use md_inlines::html::after_html;
use md_inlines::{InlineOptions, Literal, LiteralKind, Raw, Reference};
use md_scan::bytes::run_len;

/// What binds tightest at the front of a text.
#[derive(Clone, Copy)]
pub enum Atom {
    Escape,
    BreakEscape,
    Reference(Reference),
    Code(Raw),
    Math(Raw),
    /// So many bytes of text: a run of backticks or of dollars that no other closes.
    Text(usize),
    /// An absolute URI of so many bytes between angle brackets.
    Uri(usize),
    /// An e-mail address of so many bytes between angle brackets.
    Email(usize),
    Html(usize),
    /// So many spaces and tabs before the end of a line, and so many spaces that make a hard break.
    Trailing(usize, usize),
    /// An address without angle brackets.
    Literal(Literal),
}

/// An atom whose construct is on.
fn when(on: bool, atom: Option<Atom>) -> Option<Atom>
    ensures { found result ≡ inlines.when on (found atom) }
{
    if on { atom } else { None }
}

fn escape_at(text: &[u8]) -> Option<Atom>
    ensures { found result ≡ inlines.escape_at text.now }
{
    if is_escape(text) {
        Some(Atom::Escape)
    } else {
        None
    }
}

fn character_reference_at(text: &[u8]) -> Option<Atom>
    ensures { found result ≡ inlines.reference_forest text.now }
{
    match text {
        [b'&', rest @ ..] => match reference_at(rest) {
            Some(reference) => Some(Atom::Reference(reference)),
            None => None,
        },
        _ => None,
    }
}

/// The run of this byte that comes first, and what is between it and the next of its size, which may be known to be
/// absent.
fn raw_unless(absent: bool, mark: u8, text: &[u8]) -> Option<Raw>
    requires { absent ≡ true → code.raw_at mark text.now ≡ None }
    ensures { result ≡ code.raw_at mark text.now }
{
    if absent { None } else { raw_at(mark, text) }
}

/// `absent` says that it is known that no run closes the first.
fn code_at(absent: bool, text: &[u8]) -> Option<Atom>
    requires { absent ≡ true → code.raw_at 96 text.now ≡ None }
    ensures { found result ≡ inlines.code_at text.now }
{
    match text {
        [b'`', ..] => match raw_unless(absent, b'`', text) {
            Some(raw) => Some(Atom::Code(raw)),
            None => Some(Atom::Text(run_len(b'`', text))),
        },
        _ => None,
    }
}

/// `single` says whether one dollar is a mark, and `absent` that it is known that no run closes the first.
fn math_at(absent: bool, single: bool, text: &[u8]) -> Option<Atom>
    requires { absent ≡ true → code.raw_at 36 text.now ≡ None }
    ensures { found result ≡ inlines.math_at single text.now }
{
    match text {
        [b'$', ..] => {
            let len = run_len(b'$', text);
            if !single && len == 1 {
                return Some(Atom::Text(1));
            }
            match raw_unless(absent, b'$', text) {
                Some(raw) => Some(Atom::Math(raw)),
                None => Some(Atom::Text(len)),
            }
        }
        _ => None,
    }
}

fn autolink_at(text: &[u8]) -> Option<Atom>
    ensures { found result ≡ inlines.autolink_at text.now }
{
    match text {
        [b'<', rest @ ..] => match uri_len(rest) {
            Some(len) => Some(Atom::Uri(len)),
            None => match email_len(rest) {
                Some(len) => Some(Atom::Email(len)),
                None => None,
            },
        },
        _ => None,
    }
}

/// What follows the HTML whose `<` is before this text, which may be known to have no end.
fn after_unless(absent: bool, text: &[u8]) -> Option<&[u8]>
    requires { absent ≡ true → html.after_html text.now ≡ None }
    ensures { option_copied result ≡ html.after_html text.now }
{
    if absent { None } else { after_html(text) }
}

/// `absent` says that it is known that the HTML has no end.
fn html_at(absent: bool, text: &[u8]) -> Option<Atom>
    requires { absent ≡ true → html.after_html (drop 1 text.now) ≡ None }
    ensures { found result ≡ inlines.html_at text.now }
{
    match text {
        [b'<', rest @ ..] => match after_unless(absent, rest) {
            Some(after) => Some(Atom::Html(text.len().saturating_sub(after.len()))),
            None => None,
        },
        _ => None,
    }
}

fn break_escape_at(text: &[u8]) -> Option<Atom>
    ensures { found result ≡ inlines.break_escape_at text.now }
{
    if is_break_escape(text) {
        Some(Atom::BreakEscape)
    } else {
        None
    }
}

/// `hard` says whether spaces make hard breaks.
fn trailing_at(hard: bool, text: &[u8]) -> Option<Atom>
    ensures { found result ≡ inlines.trailing_at hard text.now }
{
    let len = trailing_len(text);
    let spaces = if hard { break_len(text) } else { 0 };
    if len == 0 {
        None
    } else {
        Some(Atom::Trailing(len.saturating_sub(spaces), spaces))
    }
}

/// The address that comes first in a text, after another, which may be known to be absent.
fn literal_unless(absent: bool, before: &[u8], text: &[u8]) -> Option<Literal>
    requires { absent ≡ true → literal.literal_at before.now text.now ≡ None }
    ensures { result ≡ literal.literal_at before.now text.now }
{
    if absent {
        None
    } else {
        literal_at(before, text)
    }
}

/// `on` says whether addresses are read there, and `absent` that it is known that none begins.
fn address_at(on: bool, absent: bool, before: &[u8], text: &[u8]) -> Option<Atom>
    requires { absent ≡ true → literal.literal_at before.now text.now ≡ None }
    ensures { found result ≡ inlines.when on (spec.address_at before.now text.now) }
{
    if !on {
        return None;
    }
    match literal_unless(absent, before, text) {
        Some(literal) => Some(Atom::Literal(literal)),
        None => None,
    }
}

/// The atom at the front of a text, after another; `outside` says that no bracket is open.
pub fn atom_at(options: &InlineOptions, outside: bool, before: &[u8], text: &[u8]) -> Option<Atom>
    ensures { found result ≡ inlines.atom options.now outside before.now text.now }
{
    atom_unless(options, outside, Absent::NOTHING, before, text)
}

/// The atom at the front of a text, after another, where some searches are known to fail.
pub(crate) fn atom_unless(
    options: &InlineOptions,
    outside: bool,
    absent: Absent,
    before: &[u8],
    text: &[u8],
) -> Option<Atom>
    requires { IsAbsent absent text.now }
    ensures { found result ≡ inlines.atom options.now outside before.now text.now }
{
    let on = options.constructs;
    if let Some(atom) = when(on.character_escape, escape_at(text)) {
        return Some(atom);
    }
    if let Some(atom) = when(on.hard_break_escape, break_escape_at(text)) {
        return Some(atom);
    }
    if let Some(atom) = when(on.character_reference, character_reference_at(text)) {
        return Some(atom);
    }
    if let Some(atom) = when(on.code_text, code_at(absent.code, text)) {
        return Some(atom);
    }
    let single = options.math_text_single_dollar;
    if let Some(atom) = when(on.math_text, math_at(absent.math, single, text)) {
        return Some(atom);
    }
    if let Some(atom) = when(on.autolink, autolink_at(text)) {
        return Some(atom);
    }
    if let Some(atom) = when(on.html_text, html_at(absent.html, text)) {
        return Some(atom);
    }
    if let Some(atom) = trailing_at(on.hard_break_trailing, text) {
        return Some(atom);
    }
    address_at(
        on.gfm_autolink_literal && outside,
        absent.address,
        before,
        text,
    )
}

/// Whether an escape or a character reference may be at the front of a text.
fn may_begin_string_atom(text: &[u8]) -> bool
    ensures { result ≡ spec.may_begin_string_atom text.now }
{
    match text {
        [byte, ..] => *byte == b'\\' || *byte == b'&',
        [] => false,
    }
}

/// The atom at the front of a text in which there are escapes and character references alone.
pub(crate) fn string_atom(options: &InlineOptions, text: &[u8]) -> Option<Atom>
    ensures { found result ≡ targets.string_atom options.now text.now }
{
    if !may_begin_string_atom(text) {
        return None;
    }
    let on = options.constructs;
    if let Some(atom) = when(on.character_escape, escape_at(text)) {
        return Some(atom);
    }
    when(on.character_reference, character_reference_at(text))
}

/// The name of an address.
pub(crate) fn literal_name(kind: LiteralKind) -> Name
    ensures { result ≡ inlines.literal_name kind }
{
    match kind {
        LiteralKind::Www => Name::GfmAutolinkLiteralWww,
        LiteralKind::Protocol => Name::GfmAutolinkLiteralProtocol,
        LiteralKind::Email => Name::GfmAutolinkLiteralEmail,
        LiteralKind::Mailto => Name::GfmAutolinkLiteralMailto,
        LiteralKind::Xmpp => Name::GfmAutolinkLiteralXmpp,
    }
}

/// Adds the spans of an escape.
///
/// An `Err` says that memory ran out.
fn push_escape(spans: &mut Vec<Span>, at: usize) -> Result<usize, Message>
    ensures spans { OnOk result (spans.new.items ≡ spans.old.items ++ spec.escape_spans at) }
    ensures end { IfOk result (λ end. end ≡ at + 2) }
{
    let middle = past(at, 1)?;
    let end = past(middle, 1)?;
    push_spans(
        spans,
        &[
            Span::new(Name::CharacterEscape, at, end),
            Span::new(Name::CharacterEscapeMarker, at, middle),
            Span::new(Name::CharacterEscapeValue, middle, end),
        ],
    )?;
    Ok(end)
}

/// Adds the spans of a character reference.
///
/// An `Err` says that memory ran out.
fn push_reference(spans: &mut Vec<Span>, at: usize, found: Reference) -> Result<usize, Message>
    ensures spans { OnOk result (spans.new.items ≡ spans.old.items ++ spec.reference_spans at found) }
    ensures end { IfOk result (λ end. end ≡ at + spec.reference_size found) }
{
    let marker = past(at, 1)?;
    let numeric = past(marker, if found.markers == 0 { 0 } else { 1 })?;
    let value = past(numeric, found.markers.saturating_sub(1))?;
    let semi = past(value, found.value)?;
    let end = past(semi, 1)?;
    push_spans(
        spans,
        &[
            Span::new(Name::CharacterReference, at, end),
            Span::new(Name::CharacterReferenceMarker, at, marker),
            Span::new(Name::CharacterReferenceMarkerNumeric, marker, numeric),
            Span::new(Name::CharacterReferenceMarkerHexadecimal, numeric, value),
            Span::new(Name::CharacterReferenceValue, value, semi),
            Span::new(Name::CharacterReferenceMarkerSemi, semi, end),
        ],
    )?;
    Ok(end)
}

/// Adds the spans of two runs of a mark, and of what is between them.
///
/// An `Err` says that memory ran out.
fn push_raw(
    spans: &mut Vec<Span>,
    at: usize,
    whole: Name,
    sequence: Name,
    inner: Name,
    raw: Raw,
) -> Result<usize, Message>
    ensures spans { OnOk result
        (spans.new.items ≡ spans.old.items ++ spec.raw_spans whole sequence inner at raw) }
    ensures end { IfOk result (λ end. end ≡ at + spec.raw_size raw) }
{
    let start = past(at, raw.size)?;
    let close = past(start, raw.inside)?;
    let end = past(close, raw.size)?;
    push_spans(
        spans,
        &[
            Span::new(whole, at, end),
            Span::new(sequence, at, start),
            Span::new(inner, start, close),
            Span::new(sequence, close, end),
        ],
    )?;
    Ok(end)
}

/// Adds the spans of an address of so many bytes between angle brackets.
///
/// An `Err` says that memory ran out.
fn push_angled(spans: &mut Vec<Span>, at: usize, name: Name, len: usize) -> Result<usize, Message>
    ensures spans { OnOk result (spans.new.items ≡ spans.old.items ++ spec.angled_spans name at len) }
    ensures end { IfOk result (λ end. end ≡ at + (len + 2)) }
{
    let start = past(at, 1)?;
    let close = past(start, len)?;
    let end = past(close, 1)?;
    push_spans(
        spans,
        &[
            Span::new(Name::Autolink, at, end),
            Span::new(Name::AutolinkMarker, at, start),
            Span::new(name, start, close),
            Span::new(Name::AutolinkMarker, close, end),
        ],
    )?;
    Ok(end)
}

/// Adds the spans of spaces and tabs, and of spaces that make a hard break.
///
/// An `Err` says that memory ran out.
fn push_trailing(
    spans: &mut Vec<Span>,
    at: usize,
    white: usize,
    spaces: usize,
) -> Result<usize, Message>
    ensures spans { OnOk result (spans.new.items ≡ spans.old.items ++ spec.trailing_spans at white spaces) }
    ensures end { IfOk result (λ end. end ≡ at + (white + spaces)) }
{
    let middle = past(at, white)?;
    let end = past(middle, spaces)?;
    push_spans(
        spans,
        &[
            Span::new(Name::SpaceOrTab, at, middle),
            Span::new(Name::HardBreakTrailing, middle, end),
        ],
    )?;
    Ok(end)
}

/// Adds the span of a piece of so many bytes.
///
/// An `Err` says that memory ran out.
fn push_piece(spans: &mut Vec<Span>, at: usize, name: Name, len: usize) -> Result<usize, Message>
    ensures spans { OnOk result (spans.new.items ≡ spans.old.items ++ spec.piece_spans name at len) }
    ensures end { IfOk result (λ end. end ≡ at + len) }
{
    let end = past(at, len)?;
    push_spans(spans, &[Span::new(name, at, end)])?;
    Ok(end)
}

/// Adds the spans of raw HTML.
///
/// An `Err` says that memory ran out.
fn push_html(spans: &mut Vec<Span>, at: usize, len: usize) -> Result<usize, Message>
    ensures spans { OnOk result (spans.new.items ≡ spans.old.items ++ spec.html_spans at len) }
    ensures end { IfOk result (λ end. end ≡ at + len) }
{
    let end = past(at, len)?;
    push_spans(
        spans,
        &[
            Span::new(Name::HtmlText, at, end),
            Span::new(Name::HtmlTextData, at, end),
        ],
    )?;
    Ok(end)
}

/// Adds the spans of an atom that begins at a byte, and says where it ends. Text has none.
///
/// An `Err` says that memory ran out.
pub fn push_atom(spans: &mut Vec<Span>, at: usize, atom: Atom) -> Result<usize, Message>
    ensures spans { OnOk result (spans.new.items ≡ spans.old.items ++ spec.atom_spans at atom) }
    ensures end { IfOk result (λ end. end ≡ at + spec.atom_size atom) }
{
    match atom {
        Atom::Escape => push_escape(spans, at),
        Atom::BreakEscape => push_piece(spans, at, Name::HardBreakEscape, 1),
        Atom::Reference(reference) => push_reference(spans, at, reference),
        Atom::Code(raw) => push_raw(
            spans,
            at,
            Name::CodeText,
            Name::CodeTextSequence,
            Name::CodeTextData,
            raw,
        ),
        Atom::Math(raw) => push_raw(
            spans,
            at,
            Name::MathText,
            Name::MathTextSequence,
            Name::MathTextData,
            raw,
        ),
        Atom::Text(len) => past(at, len),
        Atom::Uri(len) => push_angled(spans, at, Name::AutolinkProtocol, len),
        Atom::Email(len) => push_angled(spans, at, Name::AutolinkEmail, len),
        Atom::Html(len) => push_html(spans, at, len),
        Atom::Trailing(white, spaces) => push_trailing(spans, at, white, spaces),
        Atom::Literal(literal) => push_piece(spans, at, literal_name(literal.kind), literal.len),
    }
}
