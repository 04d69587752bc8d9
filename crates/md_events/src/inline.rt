// What the block parser hands to an inline layer: the text parts of a document, each as its chunks.

ghost use Rattle.std.specs.Prelude.{◌≡◌, IfOk, List, OnOk, true};
ghost use Rattle.md_engine.specs.declared.event.Event.{Event};
ghost use Rattle.md_events.specs.Events.Inline.{KeepsFrame, Part, plain_events};
ghost use Rattle.md_events.specs.TextPart.{AreLabelsOf, Document, IsTextPart, IsTextPartAt, document_of};

use crate::labels::Labels;
use md_engine::event::{Event, Point};
use md_engine::message::Message;
use md_engine::parse_state::ParseState;
use std::alloc::Global;

/// What a text part may hold.
#[derive(Clone, Copy, Debug, PartialEq, Eq)]
pub enum PartKind {
    /// Any inline content: a paragraph, a heading or a cell of a table.
    Text,
    /// Text with escapes and references alone: an info string, a label, a destination or a title.
    String,
}

/// The bytes of a text part on one line, with the line's ending where the part has a further line.
#[derive(Clone, Copy, Debug, PartialEq, Eq)]
pub struct Chunk {
    /// Where it begins.
    pub first: Point,
    /// Where it has ended.
    pub after: Point,
}

/// Where a text part is, as far as its meaning depends on that.
#[derive(Clone, Copy, Debug, PartialEq, Eq)]
pub enum PartPlace {
    /// In a cell of a table, where `\|` is a `|` (GFM 4.10).
    TableCell,
    /// In the paragraph that is the first block of a list item, where a task has its check (GFM 5.3).
    ItemStart,
    /// Anywhere else.
    Elsewhere,
}

/// A text part of a document.
#[derive(Clone, Copy, Debug, PartialEq, Eq)]
pub struct TextPart<'a> {
    pub kind: PartKind,
    pub place: PartPlace,
    pub chunks: &'a [Chunk],
}

/// Reads text parts.
///
/// The part that it is asked for is one of the document, and `state` has the labels of the whole document: those of
/// definitions after the part too.
pub trait Inline {
    /// What it may give for a part of a document.
    ghost reads: { Self → Document → Part → List Event → Type 0 };

    /// The events of the text part in these chunks.
    ///
    /// An `Err` says that memory ran out.
    fn read(
        &self,
        alloc: Global,
        kind: PartKind,
        chunks: &[Chunk],
        state: &ParseState,
    ) -> Result<Vec<Event>, Message>
        requires { IsTextPart (document_of state.now) (record { kind = kind; chunks = chunks.now }) }
        ensures { IfOk result
            (λ events. reads self.now (document_of state.now) (record { kind = kind; chunks = chunks.now })
            events.items) };

    /// Replaces `events` with those of the text part in these chunks. After an `Err` the list means nothing.
    ///
    /// The list is that of the part before, so a layer that writes there asks for no memory for most parts.
    fn read_into(
        &self,
        alloc: Global,
        kind: PartKind,
        chunks: &[Chunk],
        state: &ParseState,
        events: &mut Vec<Event>,
    ) -> Result<(), Message>
        requires { IsTextPart (document_of state.now) (record { kind = kind; chunks = chunks.now }) }
        ensures { OnOk result
            (reads self.now (document_of state.now) (record { kind = kind; chunks = chunks.now }) events.new.items) }
    {
        *events = self.read(alloc, kind, chunks, state)?;
        Ok(())
    }

    /// Replaces `events` with those of a text part, as `read_into`.
    ///
    /// For a caller that knows where the part is and has an index of the labels, made once a document: a layer that
    /// resolves references looks each label up in few steps.
    fn read_part(
        &self,
        alloc: Global,
        part: TextPart,
        state: &ParseState,
        labels: &Labels,
        events: &mut Vec<Event>,
    ) -> Result<(), Message>
        requires part { IsTextPartAt (document_of state.now) (record { kind = part.kind; chunks = part.chunks.now })
            part.place }
        requires labels { AreLabelsOf (document_of state.now) labels.now }
        ensures { OnOk result
            (reads self.now (document_of state.now)
            (record { kind = part.entry.kind; chunks = part.entry.chunks.now }) events.new.items) }
    {
        let TextPart {
            kind,
            place: _,
            chunks,
        } = part;
        self.read_into(alloc, kind, chunks, state, events)
    }

    /// Whether it may read each part as the plain layer does: `Data` over each line, if it is not empty, and
    /// `LineEnding` over its ending.
    ///
    /// Where it may, the block parser does so itself, in the list of its events, and calls no other method. A layer
    /// that finds more than lines has the default.
    fn is_plain(&self) -> bool
        ensures { result ≡ true → (document : Document) → (part : Part) → IsTextPart document part →
            reads self.now document part (plain_events document.bytes part) }
    {
        false
    }

    /// What it gives keeps the promise of every layer.
    ghost keeps_frame: { (layer : Self) (document : Document) → KeepsFrame document.bytes (reads layer document) };
}
