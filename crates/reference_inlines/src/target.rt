// What a link or an image leads to (CommonMark 6.3, 6.4): resources and references.

ghost use Rattle.std.specs.Prelude.{◌≡◌, ◌++◌, IfOk, map, option_map, string_bytes};
ghost use Rattle.md_inlines.specs.Content as content;
ghost use Rattle.reference_inlines.specs.Leading as spec;
ghost use Rattle.reference_inlines.specs.Nodes.{nodes};

use crate::atom::{atom_nodes, string_atom};
use crate::labels::{has_form, is_own_label};
use crate::merged::merged;
use crate::node::{Node, len_of_all, push_kept, push_nodes};
use crate::slices::{after, front};
use md_engine::event::Name;
use md_engine::message::Message;
use md_inlines::target::{label_len, resource_at};
use md_inlines::{InlineOptions, Resource};
use md_scan::ahead::begins_with;
use md_scan::memory::push;
use std::alloc::Global;

/// A text with escapes and character references alone, of which no text is joined yet.
///
/// An `Err` says that memory ran out.
fn string_parts(alloc: Global, options: &InlineOptions, text: &[u8]) -> Result<Vec<Node>, Message>
    ensures { IfOk result (λ made. made.items ≡ nodes (spec.string_parts options.now text.now)) }
{
    let mut made = Vec::new(alloc);
    let mut rest = text;
    while let Some((_byte, following)) = rest.split_first() {
        match string_atom(options, rest) {
            Some(atom) => {
                let found = atom_nodes(alloc, atom)?;
                let len = len_of_all(&found)?;
                push_nodes(&mut made, &found)?;
                rest = after(rest, len);
            }
            None => {
                push(&mut made, Node::Piece(Name::Data, 1))?;
                rest = following;
            }
        }
    }
    Ok(made)
}

/// A text with escapes and character references alone.
///
/// An `Err` says that memory ran out.
pub fn string(alloc: Global, options: &InlineOptions, text: &[u8]) -> Result<Vec<Node>, Message>
    ensures { IfOk result (λ made. made.items ≡ spec.string_nodes options.now text.now) }
{
    let made = string_parts(alloc, options, text)?;
    merged(alloc, &made)
}

/// Two marks around a string.
///
/// An `Err` says that memory ran out.
fn between(
    alloc: Global,
    opening: &[Node],
    inside: &[Node],
    closing: &[Node],
) -> Result<Vec<Node>, Message>
    ensures { IfOk result (λ made. made.items ≡ opening.now ++ inside.now ++ closing.now) }
{
    let mut made = Vec::new(alloc);
    push_nodes(&mut made, opening)?;
    push_nodes(&mut made, inside)?;
    push_nodes(&mut made, closing)?;
    Ok(made)
}

/// A text without its first and last byte.
fn inner(text: &[u8]) -> &[u8]
    ensures { result.now ≡ spec.inner text.now }
{
    front(after(text, 1), text.len().saturating_sub(2))
}

/// A destination, with its angle brackets if it has some.
///
/// An `Err` says that memory ran out.
fn destination(
    alloc: Global,
    options: &InlineOptions,
    is_literal: bool,
    text: &[u8],
) -> Result<Vec<Node>, Message>
    ensures { IfOk result (λ made. made.items ≡ spec.destination_nodes options.now is_literal text.now) }
{
    if is_literal {
        let inside = string(alloc, options, inner(text))?;
        between(
            alloc,
            &[
                Node::Begin(Name::ResourceDestinationLiteral),
                Node::Piece(Name::ResourceDestinationLiteralMarker, 1),
                Node::Begin(Name::ResourceDestinationString),
            ],
            &inside,
            &[
                Node::End,
                Node::Piece(Name::ResourceDestinationLiteralMarker, 1),
                Node::End,
            ],
        )
    } else {
        let inside = string(alloc, options, text)?;
        between(
            alloc,
            &[
                Node::Begin(Name::ResourceDestinationRaw),
                Node::Begin(Name::ResourceDestinationString),
            ],
            &inside,
            &[Node::End, Node::End],
        )
    }
}

/// A title, with its marks, as what is within its part.
///
/// An `Err` says that memory ran out.
fn title(alloc: Global, options: &InlineOptions, text: &[u8]) -> Result<Vec<Node>, Message>
    ensures { IfOk result (λ made. made.items ≡ spec.marked_title options.now text.now) }
{
    let inside = string(alloc, options, inner(text))?;
    between(
        alloc,
        &[
            Node::Piece(Name::ResourceTitleMarker, 1),
            Node::Begin(Name::ResourceTitleString),
        ],
        &inside,
        &[Node::End, Node::Piece(Name::ResourceTitleMarker, 1)],
    )
}

/// The title of a resource, with the whitespace after it, if there is one.
///
/// An `Err` says that memory ran out.
fn title_part(
    alloc: Global,
    options: &InlineOptions,
    resource: Resource,
    text: &[u8],
) -> Result<Vec<Node>, Message>
    ensures { IfOk result (λ made. made.items ≡ spec.title_nodes options.now resource text.now) }
{
    let mut made = Vec::new(alloc);
    if resource.title != 0 {
        let inside = title(alloc, options, front(text, resource.title))?;
        push(&mut made, Node::Begin(Name::ResourceTitle))?;
        push_nodes(&mut made, &inside)?;
        push_kept(
            &mut made,
            &[Node::End, Node::Piece(Name::SpaceOrTab, resource.after)],
        )?;
    }
    Ok(made)
}

/// A resource, whose `(` is first in a text.
///
/// An `Err` says that memory ran out.
fn resource(
    alloc: Global,
    options: &InlineOptions,
    text: &[u8],
    found: Resource,
) -> Result<Vec<Node>, Message>
    ensures { IfOk result (λ made. made.items ≡ spec.resource_nodes options.now text.now found) }
{
    let start = after(after(text, 1), found.before);
    let tail = after(after(start, found.destination), found.between);
    let target = destination(
        alloc,
        options,
        found.is_literal,
        front(start, found.destination),
    )?;
    let title = title_part(alloc, options, found, tail)?;
    let mut made = Vec::new(alloc);
    push_kept(
        &mut made,
        &[
            Node::Begin(Name::Resource),
            Node::Piece(Name::ResourceMarker, 1),
            Node::Piece(Name::SpaceOrTab, found.before),
            Node::Begin(Name::ResourceDestination),
        ],
    )?;
    push_nodes(&mut made, &target)?;
    push_kept(
        &mut made,
        &[Node::End, Node::Piece(Name::SpaceOrTab, found.between)],
    )?;
    push_nodes(&mut made, &title)?;
    push_nodes(
        &mut made,
        &[Node::Piece(Name::ResourceMarker, 1), Node::End],
    )?;
    Ok(made)
}

/// The resource that comes first in a text, if one does.
///
/// An `Err` says that memory ran out.
fn resource_nodes(
    alloc: Global,
    options: &InlineOptions,
    text: &[u8],
) -> Result<Option<Vec<Node>>, Message>
    ensures { IfOk result
        (λ made. option_map (λ v. v.items) made ≡ spec.resource_found options.now text.now) }
{
    match text {
        [b'(', rest @ ..] => match resource_at(rest) {
            Some(found) => Ok(Some(resource(alloc, options, text, found)?)),
            None => Ok(None),
        },
        _ => Ok(None),
    }
}

/// A reference with this label in brackets of its own.
///
/// An `Err` says that memory ran out.
fn reference(alloc: Global, options: &InlineOptions, label: &[u8]) -> Result<Vec<Node>, Message>
    ensures { IfOk result (λ made. made.items ≡ spec.reference_nodes options.now label.now) }
{
    let inside = string(alloc, options, label)?;
    between(
        alloc,
        &[
            Node::Begin(Name::Reference),
            Node::Piece(Name::ReferenceMarker, 1),
            Node::Begin(Name::ReferenceString),
        ],
        &inside,
        &[Node::End, Node::Piece(Name::ReferenceMarker, 1), Node::End],
    )
}

/// A collapsed reference or a shortcut, by the text between the brackets as the label.
///
/// An `Err` says that memory ran out.
fn short(
    alloc: Global,
    options: &InlineOptions,
    definitions: &[String],
    inside: &[u8],
    following: &[u8],
) -> Result<Option<Vec<Node>>, Message>
    ensures { IfOk result
        (λ made. option_map (λ v. v.items) made ≡
        spec.short options.now (content.has_form (map string_bytes definitions.now)) inside.now following.now) }
{
    if !is_own_label(alloc, inside)? || !has_form(alloc, definitions, inside)? {
        return Ok(None);
    }
    if begins_with(b'[', following) && begins_with(b']', after(following, 1)) {
        Ok(Some(reference(alloc, options, &[])?))
    } else {
        Ok(Some(Vec::new(alloc)))
    }
}

/// How many bytes the label has whose `[` is first in a text.
fn label_after(text: &[u8]) -> Option<usize>
    ensures { result ≡ spec.label_after text.now }
{
    match text {
        [b'[', rest @ ..] => label_len(rest),
        _ => None,
    }
}

/// A reference after a pair of brackets, or by the text in it.
///
/// An `Err` says that memory ran out.
fn reference_after(
    alloc: Global,
    options: &InlineOptions,
    definitions: &[String],
    inside: &[u8],
    following: &[u8],
) -> Result<Option<Vec<Node>>, Message>
    ensures { IfOk result
        (λ made. option_map (λ v. v.items) made ≡
        spec.reference_after options.now (content.has_form (map string_bytes definitions.now)) inside.now
        following.now) }
{
    let Some(len) = label_after(following) else {
        return short(alloc, options, definitions, inside, following);
    };
    let label = front(after(following, 1), len);
    if has_form(alloc, definitions, label)? {
        Ok(Some(reference(alloc, options, label)?))
    } else {
        Ok(None)
    }
}

/// What a link or an image with this text leads to.
///
/// An `Err` says that memory ran out.
pub(crate) fn target(
    alloc: Global,
    options: &InlineOptions,
    definitions: &[String],
    inside: &[u8],
    following: &[u8],
) -> Result<Option<Vec<Node>>, Message>
    ensures { IfOk result
        (λ made. option_map (λ v. v.items) made ≡
        spec.target options.now (content.has_form (map string_bytes definitions.now)) inside.now following.now) }
{
    match resource_nodes(alloc, options, following)? {
        Some(made) => Ok(Some(made)),
        None => reference_after(alloc, options, definitions, inside, following),
    }
}
