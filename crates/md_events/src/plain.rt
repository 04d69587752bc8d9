// What the plainest inline layer reads: lines. The layer itself is in `markdown_blocks`, where its law may be proved.

ghost use Rattle.std.specs.Prelude.{◌≡◌, ◌+◌, ◌^◌, ◌<◌, ◌≤◌, ◌++◌, IfOk, IsTrue, OnOk, drop, length, true};
ghost use Rattle.std.specs.Prelude.{vec_capacity, vec_len};
ghost use Rattle.std.specs.List.{list_all};
ghost use Rattle.md_engine.specs.declared.event.Name.{Name};
ghost use Rattle.md_events.specs.Events.Inline.{ends_whole, is_line, line_end, pair_unless_empty, plain_chunk};
ghost use Rattle.md_events.specs.Events.Inline.{plain_chunks, together};
ghost use Rattle.md_meaning.specs.Lines.{is_ending};
ghost use Rattle.md_events.specs.Lined.{IsLine};
ghost use Rattle.md_events.specs.Parts.{AreChunks, IsChunk};
ghost use Rattle.md_events.specs.Rewritten.{given_of, left_of};
ghost use Rattle.md_events.specs.Events.Nested.{pair};
ghost use Rattle.md_events.specs.Events.Places.{past_byte};

use crate::inline::Chunk;
use crate::rewriting::Rewriting;
use md_engine::class::Class;
use md_engine::event::{Event, Kind, Name, Point};
use md_engine::message::Message;
use md_engine::parse_state::ParseState;
use std::alloc::Global;

/// How many events a chunk has at most: those of its line and of its ending.
const MOST: usize = 4;

/// Whether a line ends at this byte of the text.
fn ends_line(byte: u8) -> bool
    ensures { result ≡ is_ending byte }
{
    byte == b'\n' || byte == b'\r'
}

/// The point after a byte of a line, also from within a tab.
fn past_byte(byte: u8, point: Point) -> Point
    requires { (1 ≤ point.column) × (point.column + 4 < 2 ^ 64) × (point.index + 1 < 2 ^ 64) }
    ensures value { result ≡ past_byte byte point }
    ensures columns { (point.column < result.column) × (result.column ≤ point.column + 4) }
{
    Point {
        line: point.line,
        column: point.column
            + if byte == b'\t' {
                4 - (point.column - 1) % 4
            } else {
                1
            },
        index: point.index + 1,
        vs: 0,
    }
}

/// The point at the end of a chunk's line.
#[inline(always)]
fn line_end(bytes: &[u8], chunk: &Chunk) -> Point
    requires { IsChunk bytes.now chunk.now }
    ensures { result ≡ line_end bytes.now chunk.now }
{
    let end = chunk.after.index;
    let mut point = chunk.first;
    while point.index < end && !ends_line(bytes[point.index]) {
        point = past_byte(bytes[point.index], point);
        let count = Class::Text.span(&bytes[point.index..end]);
        point.column += count;
        point.index += count;
    }
    point
}

/// Whether a chunk has bytes, and no line ending at its end. A chunk of one line then has none, and ends with the line.
fn is_without_ending(bytes: &[u8], chunk: &Chunk) -> bool
    requires chunk { IsChunk bytes.now chunk.now }
    requires line { IsTrue (is_line bytes.now chunk.now) }
    requires whole { IsTrue (ends_whole chunk.now) }
    ensures { result ≡ true →
        plain_chunk bytes.now chunk.now ≡ pair Name.Data chunk.now.first chunk.now.after }
{
    let end = chunk.after.index;
    chunk.first.index < end && !ends_line(bytes[end - 1])
}

/// Adds a part of this name between two points.
fn write_pair(events: &mut Vec<Event>, name: Name, first: Point, after: Point)
    requires { vec_len events.old + 2 ≤ vec_capacity events.old }
    ensures items { events.new.items ≡ events.old.items ++ pair name first after }
    ensures len { vec_len events.new ≡ vec_len events.old + 2 }
    ensures capacity { vec_capacity events.new ≡ vec_capacity events.old }
{
    events.push_reserved(Event {
        kind: Kind::Enter,
        name,
        link: None,
        point: first,
    });
    events.push_reserved(Event {
        kind: Kind::Exit,
        name,
        link: None,
        point: after,
    });
}

/// Adds a part of this name between two points, or nothing if it would be empty.
fn write_unless_empty(events: &mut Vec<Event>, name: Name, first: Point, after: Point)
    requires { vec_len events.old + 2 ≤ vec_capacity events.old }
    ensures items { events.new.items ≡ events.old.items ++ pair_unless_empty name first after }
    ensures len { vec_len events.new ≤ vec_len events.old + 2 }
    ensures capacity { vec_capacity events.new ≡ vec_capacity events.old }
{
    if first.index != after.index || first.vs != after.vs {
        write_pair(events, name, first, after);
    }
}

/// Adds the events of a chunk: those of its line and of its ending. Most parts are one line without an ending, where
/// this is not called, so its code is kept apart.
#[inline(never)]
fn write_line(bytes: &[u8], chunk: &Chunk, events: &mut Vec<Event>)
    requires chunk { IsChunk bytes.now chunk.now }
    requires room { vec_len events.old + 4 ≤ vec_capacity events.old }
    ensures items { events.new.items ≡ events.old.items ++ plain_chunk bytes.now chunk.now }
    ensures len { vec_len events.new ≤ vec_len events.old + 4 }
    ensures capacity { vec_capacity events.new ≡ vec_capacity events.old }
{
    let end = line_end(bytes, chunk);
    write_unless_empty(events, Name::Data, chunk.first, end);
    write_unless_empty(events, Name::LineEnding, end, chunk.after);
}

/// The same, without a walk over a line that has no ending.
fn write_chunk(bytes: &[u8], chunk: &Chunk, events: &mut Vec<Event>)
    requires chunk { IsChunk bytes.now chunk.now }
    requires line { IsTrue (is_line bytes.now chunk.now) }
    requires whole { IsTrue (ends_whole chunk.now) }
    requires room { vec_len events.old + 4 ≤ vec_capacity events.old }
    ensures items { events.new.items ≡ events.old.items ++ plain_chunk bytes.now chunk.now }
    ensures len { vec_len events.new ≤ vec_len events.old + 4 }
    ensures capacity { vec_capacity events.new ≡ vec_capacity events.old }
{
    if is_without_ending(bytes, chunk) {
        write_pair(events, Name::Data, chunk.first, chunk.after);
    } else {
        write_line(bytes, chunk, events);
    }
}

/// Gives the events of a chunk, those of its line and of its ending, in the place of the two events that are left
/// first. Most parts are one line without an ending, where this is not called, so its code is kept apart.
#[inline(never)]
fn put_line(bytes: &[u8], chunk: Chunk, all: &mut Rewriting) -> Result<(), Message>
    requires chunk { IsChunk bytes.now chunk }
    requires two { 1 < length (left_of all.old) }
    ensures left { left_of all.new ≡ drop 2 (left_of all.old) }
    ensures given { OnOk result (given_of all.new ≡ given_of all.old ++ plain_chunk bytes.now chunk) }
{
    let end = line_end(bytes, &chunk);
    all.skip(2);
    all.push_unless_empty(Name::Data, chunk.first, end)?;
    all.push_unless_empty(Name::LineEnding, end, chunk.after)
}

/// Gives the events of a chunk in the place of the two events that are left first. A line without an ending is `Data`
/// as a whole, which is held where these were.
#[inline(always)]
pub fn put_chunk(bytes: &[u8], chunk: &Chunk, all: &mut Rewriting) -> Result<(), Message>
    requires line { IsLine bytes.now chunk.now }
    requires two { 1 < length (left_of all.old) }
    ensures left { left_of all.new ≡ drop 2 (left_of all.old) }
    ensures given { OnOk result (given_of all.new ≡ given_of all.old ++ plain_chunk bytes.now chunk.now) }
{
    if is_without_ending(bytes, chunk) {
        all.hold_pair(Name::Data, chunk.first, chunk.after);
        return Ok(());
    }
    put_line(bytes, *chunk, all)
}

/// The events of a part of these chunks, in place of those in `events`: `Data` over each line, if it is not empty, and
/// `LineEnding` over its ending.
///
/// An `Err` says that memory ran out; the list then means nothing.
pub fn read_into(
    _alloc: Global,
    chunks: &[Chunk],
    state: &ParseState,
    events: &mut Vec<Event>,
) -> Result<(), Message>
    requires chunks { AreChunks state.now.bytes.now chunks.now }
    requires lines { IsTrue (list_all (is_line state.now.bytes.now) chunks.now) }
    requires whole { IsTrue (list_all ends_whole chunks.now) }
    ensures { OnOk result (events.new.items ≡ together (plain_chunks state.now.bytes.now chunks.now)) }
{
    events.clear();
    if chunks.len() > usize::MAX / MOST || events.reserve(chunks.len() * MOST).is_err() {
        return Err(Message);
    }
    for chunk in chunks {
        write_chunk(state.bytes, chunk, events);
    }
    Ok(())
}

/// The same, in a list of its own.
pub fn read(alloc: Global, chunks: &[Chunk], state: &ParseState) -> Result<Vec<Event>, Message>
    requires chunks { AreChunks state.now.bytes.now chunks.now }
    requires lines { IsTrue (list_all (is_line state.now.bytes.now) chunks.now) }
    requires whole { IsTrue (list_all ends_whole chunks.now) }
    ensures { IfOk result (λ events. events.items ≡ together (plain_chunks state.now.bytes.now chunks.now)) }
{
    let mut events = Vec::new(alloc);
    read_into(alloc, chunks, state, &mut events)?;
    Ok(events)
}
