// The text of a part as a layer reads it.

ghost use Rattle.std.specs.Prelude.{◌≡◌, ◌++◌, IfOk, OnOk, []};
ghost use Rattle.std.specs.List.{All};
ghost use Rattle.md_events.specs.TextPart.{IsTextPart, document_of};
ghost use Rattle.md_inline_events.specs.Room.{IsStretch};
ghost use Rattle.md_inline_events.specs.SidesOf.{IsTextOf, text_bytes};
ghost use Rattle.md_inline_events.specs.Woven as woven;

use crate::sides::{Sides, next_side};
use md_engine::message::Message;
use md_engine::parse_state::ParseState;
use md_events::inline::{Chunk, PartKind};
use md_scan::memory::push;
use std::alloc::Global;

/// Whether whitespace around the text of a part is left out.
pub(crate) fn is_text(kind: PartKind) -> bool
    ensures { result ≡ woven.is_text kind }
{
    matches!(kind, PartKind::Text)
}

/// Adds what is read of a chunk.
///
/// An `Err` says that memory ran out.
fn push_side(text: &mut Vec<u8>, side: &Sides) -> Result<(), Message>
    ensures { OnOk result (text.new.items ≡
        text.old.items ++ (side.now.text.now ++ woven.as_feed side.now.ending.now)) }
{
    if text.extend_from_slice(side.text).is_err() {
        return Err(Message);
    }
    if side.ending.is_empty() {
        Ok(())
    } else {
        push(text, b'\n')
    }
}

/// How many bytes the lines of a part have at most: those from its first to its last.
fn room_of(chunks: &[Chunk]) -> usize {
    match (chunks.first(), chunks.last()) {
        (Some(first), Some(last)) => last.after.index.saturating_sub(first.first.index),
        _ => 0,
    }
}

/// An empty text with room for the lines of a part.
///
/// An `Err` says that memory ran out.
fn with_room(alloc: Global, chunks: &[Chunk]) -> Result<Vec<u8>, Message>
    ensures { IfOk result (λ text. text.items ≡ []) }
{
    match Vec::with_capacity(alloc, room_of(chunks)) {
        Ok(text) => Ok(text),
        Err(_) => Err(Message),
    }
}

/// The text of a part, in memory of its own.
///
/// An `Err` says that memory ran out.
fn copied(
    alloc: Global,
    bytes: &[u8],
    leaves_out: bool,
    chunks: &[Chunk],
) -> Result<Vec<u8>, Message>
    requires { All (IsStretch bytes.now) chunks.now }
    ensures { IfOk result (λ text. text.items ≡ woven.read_chunks bytes.now leaves_out leaves_out chunks.now) }
{
    let mut text = with_room(alloc, chunks)?;
    let mut starts = leaves_out;
    let mut rest = chunks;
    while let Some((chunk, following)) = rest.split_first() {
        push_side(
            &mut text,
            &next_side(bytes, starts, leaves_out, chunk, following),
        )?;
        starts = true;
        rest = following;
    }
    Ok(text)
}

/// What a layer reads of a part.
#[derive(Debug, Drop)]
pub enum PartText<'a> {
    /// A piece of the document, and what is left out around it, where the part is on one line.
    Lent(Sides<'a>),
    /// Its lines one after the other.
    Copied(Vec<u8>),
}

impl<'a> PartText<'a> {
    /// Its bytes.
    pub fn bytes(&self) -> &[u8]
        ensures { result.now ≡ text_bytes self.now }
    {
        match self {
            PartText::Lent(side) => side.text,
            PartText::Copied(text) => text.as_slice(),
        }
    }
}

/// The text of a part as a layer reads it: each ending is a LF, and prefixes and the whitespace around lines are left
/// out. No memory is asked for where the part is on one line.
///
/// An `Err` says that memory ran out.
pub fn part_text<'a>(
    alloc: Global,
    kind: PartKind,
    chunks: &[Chunk],
    state: &ParseState<'a>,
) -> Result<PartText<'a>, Message>
    requires { IsTextPart (document_of state.now) (record { kind = kind; chunks = chunks.now }) }
    ensures bytes { IfOk result (λ text. text_bytes text ≡
        woven.read_text state.now.bytes.now (record { kind = kind; chunks = chunks.now })) }
    ensures text { IfOk result (λ text.
        IsTextOf state.now.bytes.now (record { kind = kind; chunks = chunks.now }) text) }
{
    let leaves_out = is_text(kind);
    if let [chunk] = chunks {
        let side = next_side(state.bytes, leaves_out, leaves_out, chunk, &[]);
        if side.ending.is_empty() {
            return Ok(PartText::Lent(side));
        }
    }
    Ok(PartText::Copied(copied(alloc, state.bytes, leaves_out, chunks)?))
}
