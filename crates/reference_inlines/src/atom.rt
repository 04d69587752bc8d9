// What binds tightest at the front of a text (CommonMark 2.4, 2.5, 6.1, 6.5, 6.6, 6.7, 6.8, GFM 6.9).

ghost use Rattle.std.specs.Prelude.{◌≡◌, ◌++◌, IfOk, OnOk, option_map};
ghost use Rattle.md_inlines.specs.Atoms as inlines;
ghost use Rattle.md_inlines.specs.Literal.{literal_at};
ghost use Rattle.md_inlines.specs.Targets as targets;
ghost use Rattle.reference_inlines.specs.Found as spec;
ghost use Rattle.reference_inlines.specs.Found.{found};
ghost use Rattle.reference_inlines.specs.Nodes.{kept, nodes};

use crate::node::{Node, push_kept};
use md_engine::event::Name;
use md_engine::message::Message;
use md_inlines::address::literal_at;
use md_inlines::autolink::{email_len, uri_len};
use md_inlines::breaks::{break_len, is_break_escape, trailing_len};
use md_inlines::code::raw_at;
use md_inlines::escape::{is_escape, reference_at};
use md_inlines::html::after_html;
use md_inlines::{InlineOptions, Literal, LiteralKind, Raw, Reference};
use md_scan::bytes::run_len;
use std::alloc::Global;

/// What binds tightest at the front of a text.
#[derive(Clone, Copy, Debug)]
pub(crate) enum Atom {
    Escape,
    BreakEscape,
    Reference(Reference),
    Code(Raw),
    Math(Raw),
    /// So many bytes of text: a run of backticks or of dollars that no other closes.
    Text(usize),
    /// An absolute URI of so many bytes between angle brackets.
    Uri(usize),
    /// An e-mail address of so many bytes between angle brackets.
    Email(usize),
    Html(usize),
    /// So many spaces and tabs before the end of a line, and so many spaces that make a hard break.
    Trailing(usize, usize),
    /// An address without angle brackets.
    Literal(Literal),
}

fn when(on: bool, atom: Option<Atom>) -> Option<Atom>
    ensures { found result ≡ inlines.when on (found atom) }
{
    if on { atom } else { None }
}

fn or_else(atom: Option<Atom>, other: Option<Atom>) -> Option<Atom>
    ensures { found result ≡ inlines.or_else (found atom) (found other) }
{
    match atom {
        Some(_) => atom,
        None => other,
    }
}

fn escape_at(text: &[u8]) -> Option<Atom>
    ensures { found result ≡ inlines.escape_at text.now }
{
    if is_escape(text) {
        Some(Atom::Escape)
    } else {
        None
    }
}

fn character_reference_at(text: &[u8]) -> Option<Atom>
    ensures { found result ≡ inlines.reference_forest text.now }
{
    match text {
        [b'&', rest @ ..] => match reference_at(rest) {
            Some(reference) => Some(Atom::Reference(reference)),
            None => None,
        },
        _ => None,
    }
}

fn code_at(text: &[u8]) -> Option<Atom>
    ensures { found result ≡ inlines.code_at text.now }
{
    match text {
        [b'`', ..] => match raw_at(b'`', text) {
            Some(raw) => Some(Atom::Code(raw)),
            None => Some(Atom::Text(run_len(b'`', text))),
        },
        _ => None,
    }
}

/// `single` says whether one dollar is a mark.
fn math_at(single: bool, text: &[u8]) -> Option<Atom>
    ensures { found result ≡ inlines.math_at single text.now }
{
    match text {
        [b'$', ..] => {
            let len = run_len(b'$', text);
            if !single && len == 1 {
                return Some(Atom::Text(1));
            }
            match raw_at(b'$', text) {
                Some(raw) => Some(Atom::Math(raw)),
                None => Some(Atom::Text(len)),
            }
        }
        _ => None,
    }
}

fn autolink_at(text: &[u8]) -> Option<Atom>
    ensures { found result ≡ inlines.autolink_at text.now }
{
    match text {
        [b'<', rest @ ..] => match uri_len(rest) {
            Some(len) => Some(Atom::Uri(len)),
            None => match email_len(rest) {
                Some(len) => Some(Atom::Email(len)),
                None => None,
            },
        },
        _ => None,
    }
}

fn html_at(text: &[u8]) -> Option<Atom>
    ensures { found result ≡ inlines.html_at text.now }
{
    match text {
        [b'<', rest @ ..] => match after_html(rest) {
            Some(after) => Some(Atom::Html(text.len().saturating_sub(after.len()))),
            None => None,
        },
        _ => None,
    }
}

fn break_escape_at(text: &[u8]) -> Option<Atom>
    ensures { found result ≡ inlines.break_escape_at text.now }
{
    if is_break_escape(text) {
        Some(Atom::BreakEscape)
    } else {
        None
    }
}

/// `hard` says whether spaces make hard breaks.
fn trailing_at(hard: bool, text: &[u8]) -> Option<Atom>
    ensures { found result ≡ inlines.trailing_at hard text.now }
{
    let len = trailing_len(text);
    let spaces = if hard { break_len(text) } else { 0 };
    if len == 0 {
        None
    } else {
        Some(Atom::Trailing(len.saturating_sub(spaces), spaces))
    }
}

/// An address without angle brackets, after another text.
fn address_at(before: &[u8], text: &[u8]) -> Option<Atom>
    ensures { found result ≡ option_map inlines.address (literal_at before.now text.now) }
{
    match literal_at(before, text) {
        Some(literal) => Some(Atom::Literal(literal)),
        None => None,
    }
}

/// The atom at the front of a text, after another; `outside` says that no bracket is open.
pub(crate) fn atom_at(
    options: &InlineOptions,
    outside: bool,
    before: &[u8],
    text: &[u8],
) -> Option<Atom>
    ensures { found result ≡ inlines.atom options.now outside before.now text.now }
{
    let on = options.constructs;
    let address = when(on.gfm_autolink_literal && outside, address_at(before, text));
    let trailing = or_else(trailing_at(on.hard_break_trailing, text), address);
    let html = or_else(when(on.html_text, html_at(text)), trailing);
    let autolink = or_else(when(on.autolink, autolink_at(text)), html);
    let math = math_at(options.math_text_single_dollar, text);
    let math = or_else(when(on.math_text, math), autolink);
    let code = or_else(when(on.code_text, code_at(text)), math);
    let reference = character_reference_at(text);
    let reference = or_else(when(on.character_reference, reference), code);
    let hard = or_else(when(on.hard_break_escape, break_escape_at(text)), reference);
    or_else(when(on.character_escape, escape_at(text)), hard)
}

/// The atom at the front of a text in which there are escapes and character references alone.
pub(crate) fn string_atom(options: &InlineOptions, text: &[u8]) -> Option<Atom>
    ensures { found result ≡ targets.string_atom options.now text.now }
{
    let on = options.constructs;
    let reference = when(on.character_reference, character_reference_at(text));
    or_else(when(on.character_escape, escape_at(text)), reference)
}

/// A part of so many pieces of these names.
fn angled(name: Name, len: usize) -> [Node; 5]
    ensures { result ≡ spec.angled_shape name len }
{
    [
        Node::Begin(Name::Autolink),
        Node::Piece(Name::AutolinkMarker, 1),
        Node::Piece(name, len),
        Node::Piece(Name::AutolinkMarker, 1),
        Node::End,
    ]
}

/// What is between two runs of a mark, with them.
fn raw(whole: Name, sequence: Name, inner: Name, raw: Raw) -> [Node; 5]
    ensures { result ≡ spec.raw_shape whole sequence inner raw }
{
    [
        Node::Begin(whole),
        Node::Piece(sequence, raw.size),
        Node::Piece(inner, raw.inside),
        Node::Piece(sequence, raw.size),
        Node::End,
    ]
}

/// A character reference.
fn reference(reference: Reference) -> [Node; 7]
    ensures { result ≡ spec.reference_shape reference }
{
    let numeric = if reference.markers == 0 { 0 } else { 1 };
    [
        Node::Begin(Name::CharacterReference),
        Node::Piece(Name::CharacterReferenceMarker, 1),
        Node::Piece(Name::CharacterReferenceMarkerNumeric, numeric),
        Node::Piece(
            Name::CharacterReferenceMarkerHexadecimal,
            reference.markers.saturating_sub(1),
        ),
        Node::Piece(Name::CharacterReferenceValue, reference.value),
        Node::Piece(Name::CharacterReferenceMarkerSemi, 1),
        Node::End,
    ]
}

/// The name of an address without angle brackets.
pub(crate) fn literal_name(kind: LiteralKind) -> Name
    ensures { result ≡ inlines.literal_name kind }
{
    match kind {
        LiteralKind::Www => Name::GfmAutolinkLiteralWww,
        LiteralKind::Protocol => Name::GfmAutolinkLiteralProtocol,
        LiteralKind::Email => Name::GfmAutolinkLiteralEmail,
        LiteralKind::Mailto => Name::GfmAutolinkLiteralMailto,
        LiteralKind::Xmpp => Name::GfmAutolinkLiteralXmpp,
    }
}

/// Adds the nodes of an atom.
///
/// An `Err` says that memory ran out.
fn push_atom(nodes: &mut Vec<Node>, atom: Atom) -> Result<(), Message>
    ensures { OnOk result (nodes.new.items ≡ nodes.old.items ++ kept (spec.shape atom)) }
{
    match atom {
        Atom::Escape => push_kept(
            nodes,
            &[
                Node::Begin(Name::CharacterEscape),
                Node::Piece(Name::CharacterEscapeMarker, 1),
                Node::Piece(Name::CharacterEscapeValue, 1),
                Node::End,
            ],
        ),
        Atom::BreakEscape => push_kept(nodes, &[Node::Piece(Name::HardBreakEscape, 1)]),
        Atom::Reference(found) => push_kept(nodes, &reference(found)),
        Atom::Code(found) => push_kept(
            nodes,
            &raw(
                Name::CodeText,
                Name::CodeTextSequence,
                Name::CodeTextData,
                found,
            ),
        ),
        Atom::Math(found) => push_kept(
            nodes,
            &raw(
                Name::MathText,
                Name::MathTextSequence,
                Name::MathTextData,
                found,
            ),
        ),
        Atom::Text(len) => push_kept(nodes, &[Node::Piece(Name::Data, len)]),
        Atom::Uri(len) => push_kept(nodes, &angled(Name::AutolinkProtocol, len)),
        Atom::Email(len) => push_kept(nodes, &angled(Name::AutolinkEmail, len)),
        Atom::Html(len) => push_kept(
            nodes,
            &[
                Node::Begin(Name::HtmlText),
                Node::Piece(Name::HtmlTextData, len),
                Node::End,
            ],
        ),
        Atom::Trailing(white, spaces) => push_kept(
            nodes,
            &[
                Node::Piece(Name::SpaceOrTab, white),
                Node::Piece(Name::HardBreakTrailing, spaces),
            ],
        ),
        Atom::Literal(found) => push_kept(
            nodes,
            &[Node::Piece(literal_name(found.kind), found.len)],
        ),
    }
}

/// The nodes of an atom.
///
/// An `Err` says that memory ran out.
pub(crate) fn atom_nodes(alloc: Global, atom: Atom) -> Result<Vec<Node>, Message>
    ensures { IfOk result (λ made. made.items ≡ nodes (spec.atom_forest atom)) }
{
    let mut made = Vec::new(alloc);
    push_atom(&mut made, atom)?;
    Ok(made)
}
