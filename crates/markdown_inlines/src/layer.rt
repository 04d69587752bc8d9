// The inline layer: the events of what the text parts of a document mean (CommonMark 6, GFM 5.3, 6.5 and 6.9). Its
// meaning is in `specs/Layer.antt`.
//
// The text of a part is read as tokens, by its kind, and `md_inline_events` makes the events of those. Only where a
// text begins with the check of a task does it matter where the part is.

ghost use Rattle.std.specs.Prelude.{◌≡◌, IfOk, OnOk};
ghost use Rattle.md_events.specs.TextPart.{AreLabelsOf, IsTextPart, IsTextPartAt, document_of};
ghost use Rattle.md_inline_events.specs.Tokens as listed;
ghost use Rattle.proof_inlines.proofs.ReadLemmas.{read-keeps};
ghost use Rattle.std.specs.Prelude.{refl};
ghost use Rattle.markdown_inlines.specs.Given.{labels_of};
ghost use Rattle.markdown_inlines.specs.Layer as spec;

use crate::content::content_tokens;
use crate::strings::string_tokens;
use markdown_blocks::parser::place_of;
use md_engine::event::Event;
use md_engine::message::Message;
use md_engine::parse_state::ParseState;
use md_events::inline::{Chunk, Inline, PartKind, PartPlace, TextPart};
use md_events::labels::Labels;
use md_inline_events::text::part_text;
use md_inline_events::token::Token;
use md_inline_events::writer::push_part;
use md_inlines::task::is_task;
use md_inlines::{InlineConstructs, InlineOptions};
use std::alloc::Global;

/// Whether a part at this place may begin with the check of a task item.
fn may_have_check(place: PartPlace) -> bool
    ensures { result ≡ spec.may_have_check place }
{
    matches!(place, PartPlace::ItemStart)
}

/// The tokens of a part with this text.
///
/// An `Err` says that memory ran out.
fn part_tokens(
    alloc: Global,
    options: &InlineOptions,
    labels: &Labels,
    kind: PartKind,
    place: PartPlace,
    text: &[u8],
) -> Result<Vec<Token>, Message>
    ensures { IfOk result (λ made. listed.live made.items ≡ listed.tokens
        (spec.part_forest options.now (labels_of labels.now) place kind text.now)) }
{
    match kind {
        PartKind::Text => content_tokens(alloc, options, labels, may_have_check(place), text),
        PartKind::String => string_tokens(alloc, options, text),
    }
}

/// Replaces `events` with those of a part that means the same at this place as where it is.
///
/// An `Err` says that memory ran out; the list then means nothing.
fn read_as_at(
    alloc: Global,
    options: &InlineOptions,
    part: TextPart,
    state: &ParseState,
    labels: &Labels,
    events: &mut Vec<Event>,
) -> Result<(), Message>
    requires part { IsTextPart (document_of state.now)
        (record { kind = part.kind; chunks = part.chunks.now }) }
    requires labels { AreLabelsOf (document_of state.now) labels.now }
    ensures { OnOk result (events.new.items ≡ spec.inline_events options.now (document_of state.now)
        part.entry.place (record { kind = part.entry.kind; chunks = part.entry.chunks.now })) }
{
    let TextPart {
        kind,
        place,
        chunks,
    } = part;
    let text = part_text(alloc, kind, chunks, state)?;
    let tokens = part_tokens(alloc, options, labels, kind, place, text.bytes())?;
    events.clear();
    push_part(events, kind, chunks, &text, state, &tokens)
}

/// Whether it matters where a part with this text is.
fn place_matters(options: &InlineOptions, kind: PartKind, text: &[u8]) -> bool
    ensures { result ≡ spec.place_matters options.now kind text.now }
{
    match kind {
        PartKind::Text => options.constructs.gfm_task_list_item && is_task(text),
        PartKind::String => false,
    }
}

/// A place at which a part means the same as where it is. The blocks of the document are read again only where the
/// text of the part begins with the check of a task.
///
/// An `Err` says that memory ran out.
fn place_to_read_at(
    alloc: Global,
    options: &InlineOptions,
    kind: PartKind,
    chunks: &[Chunk],
    state: &ParseState,
) -> Result<PartPlace, Message>
    requires { IsTextPart (document_of state.now) (record { kind = kind; chunks = chunks.now }) }
    ensures { IfOk result (λ place. spec.MeansAsAt options.now (document_of state.now)
        (record { kind = kind; chunks = chunks.now }) place) }
{
    let text = part_text(alloc, kind, chunks, state)?;
    if place_matters(options, kind, text.bytes()) {
        place_of(alloc, state, kind, chunks)
    } else {
        Ok(PartPlace::Elsewhere)
    }
}

/// Reads the inline content of a document: emphasis, code spans, links and all else of CommonMark 6, the inline
/// extensions of GitHub, and math.
///
/// It is handed to `parse_with`. It has options alone, a flag for each construct: a construct that is off leaves its
/// bytes to the others, and else they are text. So one value serves many documents and threads.
#[derive(Clone, Copy, Debug, PartialEq, Eq)]
pub struct Inlines {
    options: InlineOptions,
}

impl Inlines {
    /// The inline constructs of CommonMark.
    pub const COMMONMARK: Inlines = Inlines {
        options: InlineOptions {
            constructs: InlineConstructs::COMMONMARK,
            gfm_strikethrough_single_tilde: true,
            math_text_single_dollar: true,
        },
    };

    /// CommonMark with the extensions of GitHub: addresses without angle brackets, footnote calls, strikethrough and
    /// task items.
    pub const GFM: Inlines = Inlines {
        options: InlineOptions {
            constructs: InlineConstructs::GFM,
            gfm_strikethrough_single_tilde: true,
            math_text_single_dollar: true,
        },
    };

    /// Every construct: those of `GFM`, and math.
    pub const ALL: Inlines = Inlines {
        options: InlineOptions {
            constructs: InlineConstructs::ALL,
            gfm_strikethrough_single_tilde: true,
            math_text_single_dollar: true,
        },
    };

    /// A layer that reads by these options.
    pub fn new(options: InlineOptions) -> Inlines
        ensures { result.options ≡ options }
    {
        Inlines { options }
    }
}

impl Inline for Inlines {
    ghost reads = { λ layer document part events. spec.AreEvents layer.options document part events };

    fn read(
        &self,
        alloc: Global,
        kind: PartKind,
        chunks: &[Chunk],
        state: &ParseState,
    ) -> Result<Vec<Event>, Message>
        requires { IsTextPart (document_of state.now) (record { kind = kind; chunks = chunks.now }) }
        ensures reads { IfOk result
            (λ events. spec.AreEvents self.now.options (document_of state.now)
            (record { kind = kind; chunks = chunks.now }) events.items) }
    {
        let mut events = Vec::new(alloc);
        self.read_into(alloc, kind, chunks, state, &mut events)?;
        Ok(events)
    }

    // The block parser calls `read_part`, with labels that are made once a document: here they are made for the part.
    fn read_into(
        &self,
        alloc: Global,
        kind: PartKind,
        chunks: &[Chunk],
        state: &ParseState,
        events: &mut Vec<Event>,
    ) -> Result<(), Message>
        requires { IsTextPart (document_of state.now) (record { kind = kind; chunks = chunks.now }) }
        ensures reads { OnOk result (spec.AreEvents self.now.options (document_of state.now)
            (record { kind = kind; chunks = chunks.now }) events.new.items) }
    {
        let place = place_to_read_at(alloc, &self.options, kind, chunks, state)?;
        let labels = Labels::new(alloc, &state.definitions, &state.gfm_footnote_definitions)?;
        let part = TextPart {
            kind,
            place,
            chunks,
        };
        read_as_at(alloc, &self.options, part, state, &labels, events)
    }

    fn read_part(
        &self,
        alloc: Global,
        part: TextPart,
        state: &ParseState,
        labels: &Labels,
        events: &mut Vec<Event>,
    ) -> Result<(), Message>
        requires part { IsTextPartAt (document_of state.now)
            (record { kind = part.kind; chunks = part.chunks.now }) part.place }
        requires labels { AreLabelsOf (document_of state.now) labels.now }
        ensures reads { OnOk result (spec.AreEvents self.now.options (document_of state.now)
            (record { kind = part.entry.kind; chunks = part.entry.chunks.now }) events.new.items) }
        ensures same { OnOk result (events.new.items ≡ spec.inline_events self.now.options (document_of state.now)
            part.entry.place (record { kind = part.entry.kind; chunks = part.entry.chunks.now })) }
    {
        read_as_at(alloc, &self.options, part, state, labels, events)
    }

    ghost keeps_frame = { λ layer document part events is answer.
        read-keeps layer.options (spec.labels_in document) (spec.may_have_check answer.place)
        (spec.part_forest layer.options (spec.labels_in document) answer.place) (λ text. refl) (λ text. refl)
        document.bytes part events is answer.same };
}
