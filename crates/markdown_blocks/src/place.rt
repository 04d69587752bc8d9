// Where a text part of a document is, for a layer that is asked for the part without its place.

ghost use Rattle.std.specs.Prelude.{◌≡◌, ◌∷◌, [], IfOk, IfSome, true};
ghost use Rattle.md_events.specs.Events.Tiles.{part_at, part_kind};
ghost use Rattle.md_events.specs.TextPart.{IsTextPart, document_of};
ghost use Rattle.markdown_blocks.specs.Parsed.{IsWithoutMdx};
ghost use Rattle.markdown_blocks.specs.PartPlaces.{IsPartAt, IsPlaceOf, chunks_in};

use crate::blocks::read_blocks;
use crate::part_places::{chunk_at, ends_part, last_after, place_by};
use crate::parts::LEAST;
use md_engine::configuration::ParseOptions;
use md_engine::event::{Event, Kind, Name};
use md_engine::message::Message;
use md_engine::parse_state::ParseState;
use md_events::inline::{Chunk, PartKind, PartPlace};
use md_events::names::is_text_part;
use std::alloc::Global;

/// What a text part of this name may hold; `None` where it is no text part's.
fn part_kind(name: Name) -> Option<PartKind>
    ensures { result ≡ part_kind name }
{
    match name {
        Name::Paragraph | Name::HeadingAtxText | Name::HeadingSetextText | Name::GfmTableCellText =>
            Some(PartKind::Text),
        name if is_text_part(name) => Some(PartKind::String),
        _ => None,
    }
}

/// Whether these are the chunks of a text part, by the events after the one with which it begins.
fn has_chunks(following: &[Event], chunks: &[Chunk]) -> bool
    ensures { result ≡ true → chunks_in following.now ≡ chunks.now }
{
    let mut left = following;
    let mut awaited = chunks;
    while let [event, rest @ ..] = left {
        if ends_part(event) {
            return awaited.is_empty();
        }
        left = rest;
        let Some(chunk) = chunk_at(event, rest) else {
            continue;
        };
        match awaited {
            [first, others @ ..] if *first == chunk => awaited = others,
            _ => return false,
        }
    }
    awaited.is_empty()
}

/// Whether the text part of this kind and with these chunks begins with an event.
fn begins_part(event: &Event, following: &[Event], kind: PartKind, chunks: &[Chunk]) -> bool
    ensures { result ≡ true →
        part_at event.now.kind (part_kind event.now.name) following.now ≡
        (record { kind = kind; chunks = chunks.now }) ∷ [] }
{
    matches!(event.kind, Kind::Enter)
        && part_kind(event.name) == Some(kind)
        && !chunks.is_empty()
        && has_chunks(following, chunks)
}

/// Where the text part of this kind and with these chunks is, if it begins with one of these events.
fn place_among(events: &[Event], kind: PartKind, chunks: &[Chunk]) -> Option<PartPlace>
    ensures { IfSome result
        (λ place. IsPartAt events.now (record { kind = kind; chunks = chunks.now }) place) }
{
    let mut last = None;
    let mut left = events;
    while let [event, rest @ ..] = left {
        if begins_part(event, rest, kind, chunks) {
            return Some(place_by(last, event.name));
        }
        last = last_after(last, event);
        left = rest;
    }
    None
}

/// Whether the constructs of MDX, which are not built, are off.
fn is_without_mdx(options: &ParseOptions) -> bool
    ensures { result ≡ true → IsWithoutMdx options.now }
{
    let constructs = &options.constructs;
    !constructs.mdx_esm
        && !constructs.mdx_expression_flow
        && !constructs.mdx_expression_text
        && !constructs.mdx_jsx_flow
        && !constructs.mdx_jsx_text
}

/// Where a text part of a document is: in a cell of a table, in the paragraph that is the first block of an item, or
/// elsewhere. In the exact list of the events of a document a part has one place, and this is it.
///
/// For the `read` of a layer whose answer depends on that, since it is given the kind and the chunks of a part alone:
/// `read_part`, which a parse calls, is given the place too. The blocks of the whole text are read again and searched for
/// the part, in the time of a parse with a layer that reads nothing. So call it where the bytes of the part leave a
/// choice, as where a paragraph begins with `[ ]`, and not for each part.
///
/// An `Err` says that memory ran out. What a parse never asks for is answered by it too: constructs of MDX that are on,
/// and a part that is not in the text.
pub fn place_of(
    alloc: Global,
    state: &ParseState,
    kind: PartKind,
    chunks: &[Chunk],
) -> Result<PartPlace, Message>
    requires { IsTextPart (document_of state.now) (record { kind = kind; chunks = chunks.now }) }
    ensures { IfOk result
        (λ place. IsPlaceOf (document_of state.now) (record { kind = kind; chunks = chunks.now }) place) }
{
    if !is_without_mdx(state.options) {
        return Err(Message);
    }
    let (blocks, _marks) = read_blocks(alloc, state.bytes, state.options, LEAST, false)?;
    match place_among(&blocks.events, kind, chunks) {
        Some(place) => Ok(place),
        None => Err(Message),
    }
}
