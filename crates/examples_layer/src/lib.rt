// An inline layer that looks labels up: it marks the shortcut references of a document (CommonMark 6.3).
//
// It finds in the text of a part what `examples_marks` says, and has `md_inline_events` make the events of that.
#![tactic(auto)]

ghost use Rattle.std.specs.Prelude.{◌≡◌, OnOk};
ghost use Rattle.md_events.specs.TextPart.{IsTextPart, document_of};
ghost use Rattle.examples_marks.specs.References.{forms_of, reference_events};
ghost use Rattle.examples_marks.proofs.ReferenceLemmas.{references-keep};

use examples_marks::tokens::tokens_of;
use md_engine::event::Event;
use md_engine::message::Message;
use md_engine::parse_state::ParseState;
use md_events::inline::{Chunk, Inline, PartKind, TextPart};
use md_events::labels::Labels;
use md_inline_events::text::part_text;
use md_inline_events::writer::push_part;
use std::alloc::Global;

/// Replaces `events` with those of the references in a part, whose labels are looked up in `labels`.
///
/// An `Err` says that memory ran out; the list then means nothing.
fn read_with(
    alloc: Global,
    kind: PartKind,
    chunks: &[Chunk],
    state: &ParseState,
    labels: &Labels,
    events: &mut Vec<Event>,
) -> Result<(), Message>
    requires part { IsTextPart (document_of state.now) (record { kind = kind; chunks = chunks.now }) }
    requires labels { forms_of labels.now ≡ (document_of state.now).definitions }
    ensures { OnOk result
        (events.new.items ≡
        reference_events (document_of state.now) (record { kind = kind; chunks = chunks.now })) }
{
    let text = part_text(alloc, kind, chunks, state)?;
    let tokens = tokens_of(alloc, kind, text.bytes(), labels)?;
    events.clear();
    push_part(events, kind, chunks, &text, state, &tokens)
}

/// Marks the shortcut references of a text whose labels the document defines, and reads all else as text.
pub struct References;

impl Inline for References {
    ghost reads = { λ layer document part events. events ≡ reference_events document part };

    fn read(
        &self,
        alloc: Global,
        kind: PartKind,
        chunks: &[Chunk],
        state: &ParseState,
    ) -> Result<Vec<Event>, Message> {
        let mut events = Vec::new(alloc);
        self.read_into(alloc, kind, chunks, state, &mut events)?;
        Ok(events)
    }

    // The block parser calls `read_part`, with labels that are made once a document: here they are made for the part.
    fn read_into(
        &self,
        alloc: Global,
        kind: PartKind,
        chunks: &[Chunk],
        state: &ParseState,
        events: &mut Vec<Event>,
    ) -> Result<(), Message> {
        let labels = Labels::new(alloc, &state.definitions, &state.gfm_footnote_definitions)?;
        read_with(alloc, kind, chunks, state, &labels, events)
    }

    fn read_part(
        &self,
        alloc: Global,
        part: TextPart,
        state: &ParseState,
        labels: &Labels,
        events: &mut Vec<Event>,
    ) -> Result<(), Message> {
        let TextPart {
            kind,
            place: _,
            chunks,
        } = part;
        read_with(alloc, kind, chunks, state, labels, events)
    }

    ghost keeps_frame = { λ layer document. references-keep document };
}
