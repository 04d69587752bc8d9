// Text parts, as an inline layer reads them.
//
// A layer that finds nothing but lines is asked for no part: the parser reads the lines itself. Any other layer is asked
// for each part with its place, and with the labels of the document made ready to be looked up.

ghost use Rattle.std.specs.Prelude.{◌≡◌, ◌+◌, ◌-◌, ◌<◌, ◌≤◌, IfOk, IfSome, List, None, OnOk, [], drop, length, suc, take, true};
ghost use Rattle.std.specs.List.{prefix_len};
ghost use Rattle.md_engine.specs.declared.event.Event.{Event};
ghost use Rattle.md_events.specs.Events.Inline.{together};
ghost use Rattle.md_events.specs.Parts.{ArePlaced};
ghost use Rattle.md_events.specs.Substituted.{Begun, Substituted, belongs, chunks_from, share, stays, wanted};
ghost use Rattle.md_events.specs.TextPart.{AreBlocks, AreLabelsOf, IsTextPart, document_of};
ghost use Rattle.md_events.specs.TextPart.{text_kind, text_readings, wants_text};
ghost use Rattle.markdown_blocks.specs.Taken.{AreTaken};
ghost use Rattle.markdown_blocks.specs.Definitions.{marked};
ghost use Rattle.markdown_blocks.specs.InPlace.{InPlace, IsFurther};
ghost use Rattle.markdown_blocks.specs.PartPlaces.{IsNext, places_after, places_from};

use crate::definitions::read_definitions;
use crate::part_places::Places;
use crate::sink::{Ahead, All, Sink};
use md_engine::event::{Content, Event, Kind};
use md_engine::message::Message;
use md_engine::parse_state::ParseState;
use md_events::inline::{Chunk, Inline, PartKind, TextPart};
use md_events::labels::Labels;
use md_events::names::is_prefix;
use md_events::subtokenize::{Reader, push_chunk, subtokenize};
use md_events::walks::{Test, passing};
use std::alloc::Global;

/// What a part of this content may hold.
fn kind_of(content: Content) -> PartKind
    ensures { result ≡ text_kind content }
{
    match content {
        Content::Text => PartKind::Text,
        _ => PartKind::String,
    }
}

/// Whether a layer reads parts of this content.
fn is_wanted(content: Content) -> bool
    ensures { result ≡ wants_text content }
{
    matches!(content, Content::Text | Content::String)
}

/// Reads text parts by an inline layer, without their places and labels. A layer that finds nothing but lines needs
/// none of these.
#[derive(Drop)]
struct TextReader<'a, 'b, I: Inline> {
    inline: &'b I,
    state: &'b ParseState<'a>,
}

impl<I: Inline> Reader for TextReader<'_, '_, I> {
    ghost text = { λ reader. reader.state.now.bytes.now };

    ghost wants = { λ reader. wants_text };

    ghost may_read = { λ reader content chunks. IsTextPart (document_of reader.state.now)
        (record { kind = text_kind content; chunks = chunks }) };

    ghost reads_as = { λ reader content chunks events. I.reads reader.inline.now (document_of reader.state.now)
        (record { kind = text_kind content; chunks = chunks }) events };

    fn reads(&self, content: Content) -> bool {
        is_wanted(content)
    }

    fn read(
        &self,
        alloc: Global,
        content: Content,
        chunks: &[Chunk],
        events: &mut Vec<Event>,
    ) -> Result<(), Message> {
        self.inline
            .read_into(alloc, kind_of(content), chunks, self.state, events)
    }

    fn plain_text(&self) -> Option<&[u8]> {
        let TextReader { inline, state } = self;
        if inline.is_plain() {
            Some(state.bytes)
        } else {
            None
        }
    }
}

/// A layer, and what is known of the document whose text parts it reads.
#[derive(Drop)]
struct TextParts<'a, 'b, 'c, 'd, I: Inline> {
    inline: &'b I,
    ahead: &'d Ahead<'a, 'b, 'c>,
}

/// What the chunk of a text part holds that begins with an event, if one does.
fn text_content(event: &Event) -> Option<Content>
    ensures { result ≡ wanted wants_text event.now }
{
    match (event.link, event.kind) {
        (Some(link), Kind::Enter) if is_wanted(link.content) => Some(link.content),
        _ => None,
    }
}

/// That no chunk of a text part begins with an event, as a test.
struct Stays;

impl Test for Stays {
    ghost passes = { λ test. stays wants_text };

    fn passes(&self, event: &Event) -> bool {
        text_content(event).is_none()
    }
}

/// Lists the chunks of the text part that begins with these events, in place of those that are listed.
fn list_chunks(chunks: &mut Vec<Chunk>, events: &[Event]) -> Result<(), Message>
    requires { 1 < length events.now }
    ensures { OnOk result (chunks.new.items ≡ chunks_from wants_text events.now) }
{
    chunks.clear();
    push_chunk(chunks, &events[0], &events[1])?;
    let mut at = 2;
    while at + 1 < events.len() {
        if text_content(&events[at]).is_some() {
            push_chunk(chunks, &events[at], &events[at + 1])?;
            at += 2;
        } else if is_prefix(events[at].name) {
            at += 1;
        } else {
            break;
        }
    }
    Ok(())
}

/// What the layer has read of a part.
#[derive(Drop)]
struct Answer {
    events: Vec<Event>,
    /// How many of them are in their place.
    placed: usize,
    /// How many chunks of the part are left.
    chunks: usize,
    ghost within: { placed ≤ length events.items },
}

/// Whether an event belongs to a chunk that ends at a byte, or to one before it: it begins before that byte, or ends
/// there at last.
#[derive(Drop)]
struct Belongs {
    end: usize,
}

impl Test for Belongs {
    ghost passes = { λ test. belongs test.end };

    fn passes(&self, event: &Event) -> bool {
        match event.kind {
            Kind::Enter => event.point.index < self.end,
            Kind::Exit => event.point.index <= self.end,
        }
    }
}

impl Answer {
    /// Nothing, read of no chunk.
    fn nothing(alloc: Global) -> Answer
        ensures events { result.events.items ≡ [] }
        ensures placed { result.placed ≡ 0 }
        ensures chunks { result.chunks ≡ 0 }
    {
        Answer {
            events: Vec::new(alloc),
            placed: 0,
            chunks: 0,
        }
    }

    /// Has in its place what belongs to the next chunk, which ends at the byte `end`.
    #[inline(always)]
    fn place(&mut self, end: usize)
        requires { 0 < self.old.chunks }
        ensures chunks { self.new.chunks + 1 ≡ self.old.chunks }
        ensures events { self.new.events.items ≡ self.old.events.items }
        ensures more { self.old.placed ≤ self.new.placed }
        ensures placed { let left = drop self.old.placed self.old.events.items in
            take (self.new.placed - self.old.placed) left ≡ take (share (self.old.chunks - 1) left end) left }
        ensures left { let left = drop self.old.placed self.old.events.items in
            drop self.new.placed self.new.events.items ≡ drop (share (self.old.chunks - 1) left end) left }
    {
        let left = &self.events[self.placed..];
        let many = if self.chunks > 1 {
            passing(&Belongs { end }, left)
        } else {
            left.len()
        };
        self.placed += many;
        self.chunks -= 1;
    }
}

/// Reads the text part that begins with these events, unless chunks of another part are left. It is at the next of the
/// places.
fn or_read<I: Inline>(
    alloc: Global,
    parts: &TextParts<I>,
    places: &mut Places,
    found: &mut Answer,
    chunks: &mut Vec<Chunk>,
    content: Content,
    events: &[Event],
) -> Result<(), Message>
    requires within { 1 < length events.now }
    requires labels { AreLabelsOf (document_of parts.now.ahead.now.state.now) parts.now.ahead.now.labels.now }
    requires next { found.old.chunks ≡ 0 →
        IsNext (document_of parts.now.ahead.now.state.now) (places_from places.old.blocks.now places.old.at)
        (record { kind = text_kind content; chunks = chunks_from wants_text events.now }) }
    ensures chunks { OnOk result (0 < found.new.chunks) }
    ensures places { OnOk result
        (places_from places.new.blocks.now places.new.at ≡
        places_after found.old.chunks (places_from places.old.blocks.now places.old.at)) }
    ensures begun { let reads = text_readings (I.reads parts.now.inline.now (document_of parts.now.ahead.now.state.now)) in
        OnOk result
        (Begun (reads content (chunks_from wants_text events.now)) (length (chunks_from wants_text events.now))
        (drop found.old.placed found.old.events.items) found.old.chunks
        (drop found.new.placed found.new.events.items) found.new.chunks) }
{
    if found.chunks > 0 {
        return Ok(());
    }
    list_chunks(chunks, events)?;
    let part = TextPart {
        kind: kind_of(content),
        place: places.next(),
        chunks,
    };
    let inline = parts.inline;
    let Ahead { state, labels, .. } = parts.ahead;
    found.placed = 0;
    inline.read_part(alloc, part, state, labels, &mut found.events)?;
    found.chunks = chunks.len();
    Ok(())
}

/// Whether these events begin with a chunk of a part that has begun, of which so many chunks are left.
fn is_further(chunks: usize, events: &[Event]) -> bool
    ensures { result ≡ true → IsFurther chunks events.now }
{
    chunks > 0 && events.len() > 1 && text_content(&events[0]).is_some()
}

/// Has in its place what belongs to the chunks with which these events begin, one after the other, of a part that has
/// begun. Returns the events after them.
#[inline(always)]
fn place_chunks<'a>(found: &mut Answer, events: &'a [Event]) -> &'a [Event]
    requires { IsFurther found.old.chunks events.now }
    ensures events { found.new.events.items ≡ found.old.events.items }
    ensures more { found.old.placed ≤ found.new.placed }
    ensures fewer { length result.now < length events.now }
    ensures placed { let left = drop found.old.placed found.old.events.items in
        InPlace left found.old.chunks events.now (take (found.new.placed - found.old.placed) left)
        (drop found.new.placed found.new.events.items) found.new.chunks result.now }
{
    let mut left = events;
    let mut is_next = true;
    while is_next {
        found.place(left[1].point.index);
        left = &left[2..];
        is_next = is_further(found.chunks, left);
    }
    left
}

/// How many of these events stay. The first is known to.
fn staying(events: &[Event]) -> usize
    requires { 0 < length events.now }
    ensures some { 0 < result }
    ensures within { result ≤ length events.now }
    ensures stay { result ≤ suc (prefix_len (stays wants_text) (drop 1 events.now)) }
{
    1 + passing(&Stays, &events[1..])
}

/// Hands events over, with what the layer reads in the places of their text parts.
fn read_each<I: Inline, S: Sink>(
    alloc: Global,
    parts: &TextParts<I>,
    events: &[Event],
    sink: &mut S,
) -> Result<(), Message>
    requires are { AreBlocks (document_of parts.now.ahead.now.state.now) events.now }
    requires labels { AreLabelsOf (document_of parts.now.ahead.now.state.now) parts.now.ahead.now.labels.now }
    ensures { let reads = text_readings (I.reads parts.now.inline.now (document_of parts.now.ahead.now.state.now)) in
        OnOk result
        ((all : List (List Event)) × AreTaken S.takes sink.old all sink.new
        × Substituted wants_text reads [] 0 events.now (together all)) }
{
    let mut found = Answer::nothing(alloc);
    let mut chunks = Vec::new(alloc);
    let mut places = Places::of(events);
    let mut left = events;
    while let [event, ..] = left {
        match text_content(event) {
            Some(content) if left.len() > 1 => {
                or_read(
                    alloc,
                    parts,
                    &mut places,
                    &mut found,
                    &mut chunks,
                    content,
                    left,
                )?;
                let from = found.placed;
                left = place_chunks(&mut found, left);
                sink.take(parts.ahead, &found.events, from, found.placed)?;
            }
            _ => {
                let many = staying(left);
                sink.take(parts.ahead, left, 0, many)?;
                let (_taken, following) = left.split_at(many);
                left = following;
            }
        }
    }
    Ok(())
}

/// The definitions among the blocks of a text, given where their events are, if they are wanted.
///
/// An `Err` says that memory ran out.
fn definitions_ahead<I: Inline>(
    alloc: Global,
    inline: &I,
    state: &ParseState,
    labels: &Labels,
    blocks: &[Event],
    marks: Option<&[usize]>,
) -> Result<Vec<Event>, Message>
    requires are { AreBlocks (document_of state.now) blocks.now }
    requires labels { AreLabelsOf (document_of state.now) labels.now }
    requires marks { IfSome marks (λ at. at.now ≡ marked 0 blocks.now) }
{
    match marks {
        Some(marks) => read_definitions(alloc, inline, state, labels, blocks, marks),
        None => Ok(Vec::new(alloc)),
    }
}

/// Hands the events of a text over, with what the layer reads in the places of the text parts. It is asked for each part
/// with its place, and with the labels of the document. If it is given where the events of definitions are, these are
/// read ahead.
///
/// An `Err` says that memory ran out, or is that of the sink.
pub(crate) fn hand_over<'x, I: Inline, S: Sink>(
    alloc: Global,
    inline: &'x I,
    state: &'x ParseState,
    events: &[Event],
    marks: Option<&[usize]>,
    sink: &mut S,
) -> Result<(), Message>
    requires are { AreBlocks (document_of state.now) events.now }
    requires marks { IfSome marks (λ at. at.now ≡ marked 0 events.now) }
    ensures { let reads = text_readings (I.reads inline.now (document_of state.now)) in
        OnOk result
        ((all : List (List Event)) × AreTaken S.takes sink.old all sink.new
        × Substituted wants_text reads [] 0 events.now (together all)) }
{
    let labels = Labels::new(alloc, &state.definitions, &state.gfm_footnote_definitions)?;
    let definitions = definitions_ahead(alloc, inline, state, &labels, events, marks)?;
    let ahead = Ahead {
        state,
        labels: &labels,
        definitions: &definitions,
    };
    let parts = TextParts {
        inline,
        ahead: &ahead,
    };
    read_each(alloc, &parts, events, sink)
}

/// An empty list with room for what becomes of so many events: twice as many, as of a text on one line.
///
/// An `Err` says that memory ran out.
fn with_room(alloc: Global, events: usize) -> Result<Vec<Event>, Message>
    ensures { IfOk result (λ list. list.items ≡ []) }
{
    match Vec::with_capacity(alloc, events.saturating_mul(2)) {
        Ok(list) => Ok(list),
        Err(_) => Err(Message),
    }
}

/// The events of a text with what the layer reads in the places of the text parts.
///
/// An `Err` says that memory ran out.
pub(crate) fn read_text_parts<'x, I: Inline>(
    alloc: Global,
    inline: &'x I,
    state: &'x ParseState,
    events: Vec<Event>,
) -> Result<Vec<Event>, Message>
    requires are { AreBlocks (document_of state.now) events.items }
    requires placed { ArePlaced state.now.bytes.now events.items }
    ensures { let reads = text_readings (I.reads inline.now (document_of state.now)) in
        IfOk result (λ all. Substituted wants_text reads [] 0 events.items all.items) }
{
    if inline.is_plain() {
        return subtokenize(alloc, &TextReader { inline, state }, events);
    }
    let mut all = All {
        events: with_room(alloc, events.len())?,
    };
    hand_over(alloc, inline, state, &events, None, &mut all)?;
    Ok(all.events)
}
