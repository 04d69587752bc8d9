// What a link or an image leads to (CommonMark 6.3, 6.4): resources and references, and their spans.

ghost use Rattle.std.specs.Prelude.{◌≡◌, ◌+◌, false, IfOk, OnOk, length, map, option_map, string_bytes};
ghost use Rattle.md_inline_events.specs.Forest.{size};
ghost use Rattle.md_inlines.specs.Content as content;
ghost use Rattle.md_inlines.specs.Targets as targets;
ghost use Rattle.md_inlines.specs.declared.InlineOptions.{InlineOptions as Asked};
ghost use Rattle.markdown_inlines.specs.Filled.{Shows};
ghost use Rattle.markdown_inlines.specs.Leading as spec;

use crate::atom::{push_atom, string_atom};
use crate::labels::{is_definition, is_own_label};
use crate::slices::{after, front};
use crate::span::{Span, past, push_spans};
use md_engine::event::Name;
use md_engine::message::Message;
use md_events::labels::Labels;
use md_inlines::target::{label_len, resource_at};
use md_inlines::{InlineOptions, Resource};
use md_scan::ahead::begins_with;
use std::alloc::Global;

/// What a link or an image leads to, by what follows its text.
#[derive(Clone, Copy)]
pub enum Target {
    Resource(Resource),
    /// A label of so many bytes in brackets of its own.
    Full(usize),
    /// Empty brackets: the text is the label.
    Collapsed,
    /// Nothing: the text is the label.
    Shortcut,
}

/// A collapsed reference or a shortcut, by the text between the brackets as the label.
///
/// An `Err` says that memory ran out.
fn short(
    alloc: Global,
    labels: &Labels<'_>,
    inside: &[u8],
    following: &[u8],
) -> Result<Option<Target>, Message>
    ensures { (options : Asked) → IfOk result (λ made. option_map (spec.leads options following.now) made ≡
        targets.short options (content.has_form (map string_bytes labels.now.definitions.forms.now)) inside.now
        following.now) }
{
    if !is_own_label(inside) || !is_definition(alloc, labels, inside)? {
        return Ok(None);
    }
    if begins_with(b'[', following) && begins_with(b']', after(following, 1)) {
        Ok(Some(Target::Collapsed))
    } else {
        Ok(Some(Target::Shortcut))
    }
}

/// How many bytes the label has whose `[` is first in a text.
fn label_after(text: &[u8]) -> Option<usize>
    ensures { result ≡ spec.label_after text.now }
{
    match text {
        [b'[', rest @ ..] => label_len(rest),
        _ => None,
    }
}

/// A reference after a pair of brackets, or by the text in it.
///
/// An `Err` says that memory ran out.
fn reference_after(
    alloc: Global,
    labels: &Labels<'_>,
    inside: &[u8],
    following: &[u8],
) -> Result<Option<Target>, Message>
    ensures { (options : Asked) → IfOk result (λ made. option_map (spec.leads options following.now) made ≡
        targets.reference_after options (content.has_form (map string_bytes labels.now.definitions.forms.now))
        inside.now following.now) }
{
    let Some(len) = label_after(following) else {
        return short(alloc, labels, inside, following);
    };
    if is_definition(alloc, labels, front(after(following, 1), len))? {
        Ok(Some(Target::Full(len)))
    } else {
        Ok(None)
    }
}

/// The resource that comes first in a text, if one does.
fn resource_found(text: &[u8]) -> Option<Resource>
    ensures { (options : Asked) →
        option_map (targets.resource options text.now) result ≡ targets.resource_forest options text.now }
{
    match text {
        [b'(', rest @ ..] => resource_at(rest),
        _ => None,
    }
}

/// What a link or an image with this text leads to, if anything.
///
/// An `Err` says that memory ran out.
pub(crate) fn target_of(
    alloc: Global,
    labels: &Labels<'_>,
    inside: &[u8],
    following: &[u8],
) -> Result<Option<Target>, Message>
    ensures { (options : Asked) → IfOk result (λ made. option_map (spec.leads options following.now) made ≡
        targets.target options (content.has_form (map string_bytes labels.now.definitions.forms.now)) inside.now
        following.now) }
{
    match resource_found(following) {
        Some(resource) => Ok(Some(Target::Resource(resource))),
        None => reference_after(alloc, labels, inside, following),
    }
}

/// Adds the spans of a text in which there are escapes and character references alone.
///
/// An `Err` says that memory ran out.
pub fn push_string(
    spans: &mut Vec<Span>,
    options: &InlineOptions,
    text: &[u8],
    at: usize,
) -> Result<(), Message>
    ensures { OnOk result (Shows at spans.old.items (targets.string options.now text.now) spans.new.items) }
{
    let mut here = at;
    let mut rest = text;
    while let Some((_byte, following)) = rest.split_first() {
        match string_atom(options, rest) {
            Some(atom) => {
                let end = push_atom(spans, here, atom)?;
                rest = after(rest, end.saturating_sub(here));
                here = end;
            }
            None => {
                here = past(here, 1)?;
                rest = following;
            }
        }
    }
    Ok(())
}

/// The names of a string between two marks: the whole, a mark, and the string.
#[derive(Clone, Copy)]
pub(crate) struct Quotes {
    whole: Name,
    mark: Name,
    string: Name,
}

const LITERAL: Quotes = Quotes {
    whole: Name::ResourceDestinationLiteral,
    mark: Name::ResourceDestinationLiteralMarker,
    string: Name::ResourceDestinationString,
};

const TITLE: Quotes = Quotes {
    whole: Name::ResourceTitle,
    mark: Name::ResourceTitleMarker,
    string: Name::ResourceTitleString,
};

const REFERENCE: Quotes = Quotes {
    whole: Name::Reference,
    mark: Name::ReferenceMarker,
    string: Name::ReferenceString,
};

/// Adds the spans of a string between two marks, and says where it ends.
///
/// An `Err` says that memory ran out.
fn push_quoted(
    spans: &mut Vec<Span>,
    options: &InlineOptions,
    names: Quotes,
    inside: &[u8],
    at: usize,
) -> Result<usize, Message>
    requires { spec.is_named names }
    ensures spans { OnOk result
        (Shows at spans.old.items (spec.quoted options.now names inside.now) spans.new.items) }
    ensures end { IfOk result (λ end. end ≡ at + (length inside.now + 2)) }
{
    let start = past(at, 1)?;
    let close = past(start, inside.len())?;
    let end = past(close, 1)?;
    push_spans(
        spans,
        &[
            Span::new(names.whole, at, end),
            Span::new(names.mark, at, start),
            Span::new(names.string, start, close),
        ],
    )?;
    push_string(spans, options, inside, start)?;
    push_spans(spans, &[Span::new(names.mark, close, end)])?;
    Ok(end)
}

/// A text without its first and last byte.
fn inner(text: &[u8]) -> &[u8]
    ensures { result.now ≡ spec.inner text.now }
{
    front(after(text, 1), text.len().saturating_sub(2))
}

/// Adds the spans of a destination without angle brackets, and says where it ends.
///
/// An `Err` says that memory ran out.
fn push_raw_destination(
    spans: &mut Vec<Span>,
    options: &InlineOptions,
    text: &[u8],
    at: usize,
) -> Result<usize, Message>
    ensures spans { OnOk result
        (Shows at spans.old.items (targets.destination options.now false text.now) spans.new.items) }
    ensures end { IfOk result (λ end. end ≡ at + length text.now) }
{
    let end = past(at, text.len())?;
    push_spans(
        spans,
        &[
            Span::new(Name::ResourceDestinationRaw, at, end),
            Span::new(Name::ResourceDestinationString, at, end),
        ],
    )?;
    push_string(spans, options, text, at)?;
    Ok(end)
}

/// How many bytes a destination is over, in angle brackets or not.
///
/// An `Err` says that they are more than a text in memory can have.
fn destination_len(is_literal: bool, text: &[u8]) -> Result<usize, Message>
    ensures { IfOk result (λ len. len ≡ spec.destination_len is_literal text.now) }
{
    if is_literal {
        past(inner(text).len(), 2)
    } else {
        Ok(text.len())
    }
}

/// Adds the spans of a destination.
///
/// An `Err` says that memory ran out.
fn push_destination(
    spans: &mut Vec<Span>,
    options: &InlineOptions,
    is_literal: bool,
    text: &[u8],
    at: usize,
) -> Result<(), Message>
    ensures { OnOk result
        (Shows at spans.old.items (targets.destination options.now is_literal text.now) spans.new.items) }
{
    if is_literal {
        let _end = push_quoted(spans, options, LITERAL, inner(text), at)?;
        return Ok(());
    }
    let _end = push_raw_destination(spans, options, text, at)?;
    Ok(())
}

/// How many bytes are after the destination of a resource and the whitespace after it: its title, where there is one,
/// whitespace, and its `)`. The title is first in a text.
///
/// An `Err` says that they are more than a text in memory can have.
fn ending_len(found: Resource, text: &[u8]) -> Result<usize, Message>
    ensures { IfOk result (λ len. len ≡ spec.ending_len found text.now) }
{
    if found.title == 0 {
        return Ok(1);
    }
    let title = past(inner(front(text, found.title)).len(), 2)?;
    past(past(title, found.after)?, 1)
}

/// Adds the spans of the title of a resource, where there is one, of whitespace, and of its `)`.
///
/// An `Err` says that memory ran out.
fn push_ending(
    spans: &mut Vec<Span>,
    options: &InlineOptions,
    found: Resource,
    text: &[u8],
    at: usize,
) -> Result<(), Message>
    ensures { OnOk result (Shows at spans.old.items (spec.ending options.now found text.now) spans.new.items) }
{
    if found.title == 0 {
        let end = past(at, 1)?;
        return push_spans(spans, &[Span::new(Name::ResourceMarker, at, end)]);
    }
    let close = push_quoted(spans, options, TITLE, inner(front(text, found.title)), at)?;
    let mark = past(close, found.after)?;
    let end = past(mark, 1)?;
    push_spans(
        spans,
        &[
            Span::new(Name::SpaceOrTab, close, mark),
            Span::new(Name::ResourceMarker, mark, end),
        ],
    )
}

/// Adds the spans of a resource, whose `(` is first in a text, and says where it ends.
///
/// An `Err` says that memory ran out.
fn push_resource(
    spans: &mut Vec<Span>,
    options: &InlineOptions,
    text: &[u8],
    found: Resource,
    at: usize,
) -> Result<usize, Message>
    ensures spans { OnOk result
        (Shows at spans.old.items (targets.resource options.now text.now found) spans.new.items) }
    ensures end { IfOk result (λ end. end ≡ at + size (targets.resource options.now text.now found)) }
{
    let rest = after(text, past(1, found.before)?);
    let target = front(rest, found.destination);
    let tail = after(rest, past(found.destination, found.between)?);
    let inside = past(at, 1)?;
    let start = past(inside, found.before)?;
    let close = past(start, destination_len(found.is_literal, target)?)?;
    let quote = past(close, found.between)?;
    let end = past(quote, ending_len(found, tail)?)?;
    push_spans(
        spans,
        &[
            Span::new(Name::Resource, at, end),
            Span::new(Name::ResourceMarker, at, inside),
            Span::new(Name::SpaceOrTab, inside, start),
            Span::new(Name::ResourceDestination, start, close),
        ],
    )?;
    push_destination(spans, options, found.is_literal, target, start)?;
    push_spans(spans, &[Span::new(Name::SpaceOrTab, close, quote)])?;
    push_ending(spans, options, found, tail, quote)?;
    Ok(end)
}

/// Adds the spans of what follows the text of a link or an image, and says where it ends.
///
/// An `Err` says that memory ran out.
pub(crate) fn push_target(
    spans: &mut Vec<Span>,
    options: &InlineOptions,
    following: &[u8],
    target: Target,
    at: usize,
) -> Result<usize, Message>
    ensures spans { OnOk result
        (Shows at spans.old.items (spec.leads options.now following.now target) spans.new.items) }
    ensures end { IfOk result (λ end. end ≡ at + size (spec.leads options.now following.now target)) }
{
    match target {
        Target::Resource(found) => push_resource(spans, options, following, found, at),
        Target::Full(len) => {
            push_quoted(
                spans,
                options,
                REFERENCE,
                front(after(following, 1), len),
                at,
            )
        }
        Target::Collapsed => push_quoted(spans, options, REFERENCE, &[], at),
        Target::Shortcut => Ok(at),
    }
}
