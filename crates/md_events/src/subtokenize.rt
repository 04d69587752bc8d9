// Parts that are read after the events around them are complete.
//
// A linked part is a chunk of the text on one line. Chunks with nothing but container prefixes between them are read as
// one part, and the events of this part replace those of the chunks.

ghost use Rattle.std.specs.Prelude.{◌≡◌, ℕ, ◌+◌, ◌-◌, ◌<◌, ◌≤◌, ◌∷◌, ◌++◌, Bool, IfOk, List, OnOk, [], drop, length};
ghost use Rattle.std.specs.Prelude.{IfNone, IfSome, nat_lt, take};
ghost use Rattle.std.specs.List.{prefix_len};
ghost use Rattle.md_engine.specs.declared.event.Content.{Content};
ghost use Rattle.md_events.specs.Lined.{BeginsWith, EachLine, ReadsLines, lined};
ghost use Rattle.md_events.specs.Parts.{AreChunks, ArePlaced};
ghost use Rattle.md_events.specs.Rewritten.{given_of, held_of, left_of, written_of};
ghost use Rattle.md_events.specs.Substituted.{Asked, Begun, EachAsked, Readings, Substituted, belongs, chunk_of};
ghost use Rattle.md_events.specs.Substituted.{chunks_from, is_plain_prefix, share, stays, wanted};

use crate::inline::Chunk;
pub use crate::names::is_prefix;
use crate::plain;
use crate::rewriting::Rewriting;
use crate::walks::{Test, passing};
use md_engine::event::{Content, Event, Kind, Name};
use md_engine::message::Message;
use std::alloc::Global;

/// Reads parts of some contents.
pub trait Reader {
    /// The text that the parts lie in.
    ghost text: { Self → List ℕ };

    /// Of which contents it reads parts.
    ghost wants: { Self → Content → Bool };

    /// Which parts it may be asked for.
    ghost may_read: { Self → Asked };

    /// What it may give for a part.
    ghost reads_as: { Self → Readings };

    /// Whether it reads parts of this content.
    fn reads(&self, content: Content) -> bool
        ensures { result ≡ wants self.now content };

    /// Replaces `events` with those of the part in these chunks. After an `Err` the list means nothing.
    fn read(
        &self,
        alloc: Global,
        content: Content,
        chunks: &[Chunk],
        events: &mut Vec<Event>,
    ) -> Result<(), Message>
        requires chunks { AreChunks (text self.now) chunks.now }
        requires asked { may_read self.now content chunks.now }
        ensures placed { OnOk result (ArePlaced (text self.now) events.new.items) }
        ensures reading { OnOk result (reads_as self.now content chunks.now events.new.items) };

    /// The text, if it may read each part as the plain layer does.
    fn plain_text(&self) -> Option<&[u8]>
        ensures text { IfSome result (λ bytes. bytes.now ≡ text self.now) }
        ensures lines { IfSome result (λ bytes. ReadsLines (text self.now) (may_read self.now) (reads_as self.now)) }
    {
        None
    }
}

/// What was found in a part, and how many of these events are in their place.
#[derive(Drop)]
pub struct Found {
    events: Vec<Event>,
    placed: usize,
    /// How many chunks of the part are left.
    chunks: usize,
    /// A list for the chunks of a part.
    spare: Vec<Chunk>,
    ghost within: { placed ≤ length events.items },
}

/// What the chunk that begins here holds, if one does that is wanted.
fn chunk_content<R: Reader>(reader: &R, event: &Event) -> Option<Content>
    ensures { result ≡ wanted (R.wants reader.now) event.now }
{
    match (event.link, event.kind) {
        (Some(link), Kind::Enter) if reader.reads(link.content) => Some(link.content),
        _ => None,
    }
}

/// Appends the chunk between two events, or changes nothing.
pub fn push_chunk(chunks: &mut Vec<Chunk>, first: &Event, after: &Event) -> Result<(), Message>
    ensures { OnOk result (chunks.new.items ≡ chunks.old.items ++ chunk_of first.now after.now ∷ []) }
{
    let chunk = Chunk {
        first: first.point,
        after: after.point,
    };
    match chunks.push(chunk) {
        Ok(()) => Ok(()),
        Err(_) => Err(Message),
    }
}

/// How many of the events come before the first that does not belong to a container prefix, or has a link. Most events
/// between two chunks are so.
fn plain_prefixes(events: &[Event]) -> usize
    ensures value { result ≡ prefix_len is_plain_prefix events.now }
    ensures within { result ≤ length events.now }
{
    for (at, event) in events.iter().enumerate() {
        if !is_prefix(event.name) || event.link.is_some() {
            return at;
        }
    }
    events.len()
}

/// Lists the chunks of the part that begins with these events, in place of those that are listed.
fn list_chunks<R: Reader>(
    chunks: &mut Vec<Chunk>,
    reader: &R,
    events: &[Event],
) -> Result<(), Message>
    requires { 1 < length events.now }
    ensures { OnOk result (chunks.new.items ≡ chunks_from (R.wants reader.now) events.now) }
{
    chunks.clear();
    push_chunk(chunks, &events[0], &events[1])?;
    let mut at = 2 + plain_prefixes(&events[2..]);
    while at + 1 < events.len() {
        if chunk_content(reader, &events[at]).is_some() {
            push_chunk(chunks, &events[at], &events[at + 1])?;
            at += 2;
            at += plain_prefixes(&events[at..]);
        } else if is_prefix(events[at].name) {
            at += 1;
        } else {
            break;
        }
    }
    Ok(())
}

/// Whether an event stays as it is: no chunk that is read begins there.
#[derive(Drop)]
struct Stays<'a, R> {
    reader: &'a R,
}

impl<R: Reader> Test for Stays<'_, R> {
    ghost passes = { λ test. stays (R.wants test.reader.now) };

    fn passes(&self, event: &Event) -> bool {
        chunk_content(self.reader, event).is_none()
    }
}

/// How many of the events stay as they are before a chunk begins that is read.
fn staying<R: Reader>(reader: &R, events: &[Event]) -> usize
    ensures value { result ≡ prefix_len (stays (R.wants reader.now)) events.now }
    ensures within { result ≤ length events.now }
{
    passing(&Stays { reader }, events)
}

/// Whether an event belongs to a chunk that ends at the byte `end`, or to one before it: it begins before that byte, or
/// ends there at last.
fn belongs(event: &Event, end: usize) -> bool
    ensures { result ≡ belongs end event.now }
{
    match event.kind {
        Kind::Enter => event.point.index < end,
        Kind::Exit => event.point.index <= end,
    }
}

/// How many of the events come before the first that does not belong to a chunk that ends at the byte `end`.
fn belonging(events: &[Event], end: usize) -> usize
    ensures { result ≡ prefix_len (belongs end) events.now }
{
    for (at, event) in events.iter().enumerate() {
        if !belongs(event, end) {
            return at;
        }
    }
    events.len()
}

impl Found {
    /// Nothing, found in no chunk.
    pub fn nothing(alloc: Global) -> Found
        ensures events { result.events.items ≡ [] }
        ensures placed { result.placed ≡ 0 }
        ensures chunks { result.chunks ≡ 0 }
    {
        Found {
            events: Vec::new(alloc),
            placed: 0,
            chunks: 0,
            spare: Vec::new(alloc),
        }
    }

    /// Reads the part that begins with these events, unless chunks of another part are left.
    fn or_read<R: Reader>(
        &mut self,
        alloc: Global,
        reader: &R,
        content: Content,
        events: &[Event],
    ) -> Result<(), Message>
        requires within { 1 < length events.now }
        requires placed { ArePlaced (R.text reader.now) events.now }
        requires found { ArePlaced (R.text reader.now) self.old.events.items }
        requires asked { self.old.chunks ≡ 0 →
            R.may_read reader.now content (chunks_from (R.wants reader.now) events.now) }
        ensures chunks { OnOk result (0 < self.new.chunks) }
        ensures placed { OnOk result (ArePlaced (R.text reader.now) self.new.events.items) }
        ensures begun { OnOk result
            (Begun (R.reads_as reader.now content (chunks_from (R.wants reader.now) events.now))
            (length (chunks_from (R.wants reader.now) events.now)) (drop self.old.placed self.old.events.items)
            self.old.chunks (drop self.new.placed self.new.events.items) self.new.chunks) }
    {
        if self.chunks > 0 {
            return Ok(());
        }
        list_chunks(&mut self.spare, reader, events)?;
        self.placed = 0;
        reader.read(alloc, content, &self.spare, &mut self.events)?;
        self.chunks = self.spare.len();
        Ok(())
    }

    /// Whether chunks of a part are left.
    pub fn is_begun(&self) -> bool
        ensures { result ≡ nat_lt 0 self.now.chunks }
    {
        self.chunks > 0
    }

    /// Reads the part in these chunks.
    pub fn read<R: Reader>(
        &mut self,
        alloc: Global,
        reader: &R,
        content: Content,
        chunks: &[Chunk],
    ) -> Result<(), Message>
        requires chunks { AreChunks (R.text reader.now) chunks.now }
        requires asked { R.may_read reader.now content chunks.now }
        ensures placed { OnOk result (ArePlaced (R.text reader.now) self.new.events.items) }
        ensures reading { OnOk result
            (R.reads_as reader.now content chunks.now (drop self.new.placed self.new.events.items)) }
        ensures chunks { OnOk result (self.new.chunks ≡ length chunks.now) }
    {
        self.placed = 0;
        reader.read(alloc, content, chunks, &mut self.events)?;
        self.chunks = chunks.len();
        Ok(())
    }

    /// Writes what belongs to the next chunk, which ends at the byte `end`.
    #[inline(always)]
    pub fn place(&mut self, events: &mut Rewriting, end: usize) -> Result<(), Message>
        requires { 0 < self.old.chunks }
        ensures same { self.new.events ≡ self.old.events }
        ensures chunks { OnOk result (self.new.chunks + 1 ≡ self.old.chunks) }
        ensures held { held_of events.new ≡ held_of events.old }
        ensures rest { OnOk result (left_of events.new ≡ left_of events.old) }
        ensures placed { let left = drop self.old.placed self.old.events.items in
            OnOk result
            (written_of events.new ≡ written_of events.old ++ take (share (self.old.chunks - 1) left end) left) }
        ensures left { let left = drop self.old.placed self.old.events.items in
            OnOk result (drop self.new.placed self.new.events.items ≡ drop (share (self.old.chunks - 1) left end)
            left) }
    {
        let left = &self.events[self.placed..];
        let many = if self.chunks > 1 {
            belonging(left, end)
        } else {
            left.len()
        };
        events.push_all(&left[..many])?;
        self.placed += many;
        self.chunks -= 1;
        Ok(())
    }
}

/// Holds the events that stay as they are, up to the next chunk that is read, and returns this chunk.
#[inline(always)]
fn next_chunk<R: Reader>(reader: &R, all: &mut Rewriting) -> Option<Chunk>
    ensures left { let many = prefix_len (stays (R.wants reader.now)) (left_of all.old) in
        left_of all.new ≡ drop many (left_of all.old) }
    ensures given { let many = prefix_len (stays (R.wants reader.now)) (left_of all.old) in
        given_of all.new ≡ given_of all.old ++ take many (left_of all.old) }
    ensures some { IfSome result (λ chunk. BeginsWith (R.wants reader.now) chunk (left_of all.new)) }
    ensures none { IfNone result (length (left_of all.new) < 2) }
{
    let many = staying(reader, all.left());
    all.hold_many(many);
    let left = all.left();
    if left.len() < 2 {
        return None;
    }
    Some(Chunk {
        first: left[0].point,
        after: left[1].point,
    })
}

/// The events with what the plain layer gives in the places of the chunks that are read, in the list of the events.
fn read_lines<R: Reader>(
    reader: &R,
    bytes: &[u8],
    events: Vec<Event>,
) -> Result<Vec<Event>, Message>
    requires { EachLine (R.wants reader.now) bytes.now events.items }
    ensures { IfOk result (λ all. all.items ≡ lined (R.wants reader.now) bytes.now events.items) }
{
    let mut all = Rewriting::new(events);
    while let Some(chunk) = next_chunk(reader, &mut all) {
        plain::put_chunk(bytes, &chunk, &mut all)?;
    }
    let rest = all.left().len();
    all.hold_many(rest);
    all.give();
    Ok(all.finish())
}

/// The events with what `reader` reads part by part in the places of the parts, in the list of the events.
fn read_parts<R: Reader>(
    alloc: Global,
    reader: &R,
    events: Vec<Event>,
) -> Result<Vec<Event>, Message>
    requires placed { ArePlaced (R.text reader.now) events.items }
    requires asked { EachAsked (R.wants reader.now) (R.may_read reader.now) 0 events.items }
    ensures placed { IfOk result (λ all. ArePlaced (R.text reader.now) all.items) }
    ensures substituted { IfOk result
        (λ all. Substituted (R.wants reader.now) (R.reads_as reader.now) [] 0 events.items all.items) }
{
    let mut all = Rewriting::new(events);
    let mut found = Found::nothing(alloc);
    while let Some(event) = all.first() {
        match chunk_content(reader, &event) {
            Some(content) if all.left().len() > 1 => {
                found.or_read(alloc, reader, content, all.left())?;
                let end = all.left()[1].point.index;
                all.skip(2);
                found.place(&mut all, end)?;
            }
            _ => {
                let many = 1 + staying(reader, &all.left()[1..]);
                all.hold_many(many);
            }
        }
    }
    all.give();
    Ok(all.finish())
}

/// The events with what `reader` finds in the places of the parts that it reads, in the list of the events.
#[inline(never)]
pub fn subtokenize<R: Reader>(
    alloc: Global,
    reader: &R,
    events: Vec<Event>,
) -> Result<Vec<Event>, Message>
    requires placed { ArePlaced (R.text reader.now) events.items }
    requires asked { EachAsked (R.wants reader.now) (R.may_read reader.now) 0 events.items }
    ensures placed { IfOk result (λ all. ArePlaced (R.text reader.now) all.items) }
    ensures substituted { IfOk result
        (λ all. Substituted (R.wants reader.now) (R.reads_as reader.now) [] 0 events.items all.items) }
{
    match reader.plain_text() {
        Some(bytes) => read_lines(reader, bytes, events),
        None => read_parts(alloc, reader, events),
    }
}
