// The events of a text part, from the tokens of what a layer found in it.

ghost use Rattle.std.specs.Prelude.{◌≡◌, ◌+◌, ◌*◌, ◌^◌, ◌<◌, ◌≤◌, ◌++◌, true, IfOk, OnOk, length, take, drop, []};
ghost use Rattle.std.specs.List.{All};
ghost use Rattle.md_engine.specs.declared.event.Name.TheVariants as n;
ghost use Rattle.md_events.specs.Events.Places.{past_text};
ghost use Rattle.md_events.specs.Events.Inline.{together};
ghost use Rattle.md_events.specs.TextPart.{IsTextPart, document_of};
ghost use Rattle.md_inline_events.specs.Cursor.{token_marks};
ghost use Rattle.md_inline_events.specs.Forest.{Forest};
ghost use Rattle.md_inline_events.specs.Marks.{last_name, line_events};
ghost use Rattle.md_inline_events.specs.Room.{IsStretch, is_even};
ghost use Rattle.md_inline_events.specs.SidesOf.{IsNextOf, IsReadOf, IsSideOf, IsTextOf, cursor_marks, sides_of};
ghost use Rattle.md_inline_events.specs.Tokens as listed;
ghost use Rattle.md_inline_events.specs.Woven as woven;

use crate::cursor::{Cursor, push_back, push_front};
use crate::events::{is_even, past_run, past_text, push_unless_empty};
use crate::sides::{Sides, next_side};
use crate::text::{PartText, is_text};
use crate::token::Token;
use md_engine::event::{Event, Name, Point};
use md_engine::message::Message;
use md_engine::parse_state::ParseState;
use md_events::inline::{Chunk, PartKind};

/// How many of so many bytes are in a piece with so many bytes left, of which there may be none.
#[inline(always)]
fn run_len(left: usize, len: usize) -> usize
    requires { 0 < len }
    ensures some { 0 < result }
    ensures within { result ≤ len }
    ensures fits { 0 < left → result ≤ left }
{
    if left == 0 || left > len { len } else { left }
}

/// Adds the events of bytes on one line, from a point on; and says where they end. Each of them may be known to be one
/// column.
///
/// An `Err` says that memory ran out.
fn push_line<'a>(
    events: &mut Vec<Event>,
    line: &[u8],
    is_known_even: bool,
    cursor: Cursor<'a>,
    first: Point,
) -> Result<(Cursor<'a>, Point), Message>
    requires index { first.index + length line.now < 2 ^ 61 }
    requires column { first.column ≤ 4 * first.index + 5 }
    requires even { is_known_even ≡ true → is_even line.now ≡ true }
    ensures events { OnOk result (events.new.items ≡ events.old.items
        ++ line_events line.now (cursor_marks cursor.entry) cursor.entry.name first first) }
    ensures marks { IfOk result (λ end. cursor_marks end.0 ≡
        drop (length line.now) (cursor_marks cursor.entry)) }
    ensures name { IfOk result (λ end. end.0.name ≡
        last_name cursor.entry.name (take (length line.now) (cursor_marks cursor.entry))) }
    ensures point { IfOk result (λ end. end.1 ≡ past_text line.now first) }
    ensures index { IfOk result (λ end. end.1.index ≡ first.index + length line.now) }
    ensures column { IfOk result (λ end. end.1.column ≤ 4 * end.1.index + 5) }
{
    let even = is_known_even || is_even(line);
    let mut cursor = cursor;
    let mut from = first;
    let mut at = first;
    let mut rest = line;
    while !rest.is_empty() {
        let (entered, begun) = push_front(events, cursor, from, at)?;
        let (run, following) = rest.split_at(run_len(entered.left, rest.len()));
        let to = past_run(even, run, at);
        let (left, next) = push_back(events, entered, run.len(), begun, to)?;
        cursor = left;
        from = next;
        at = to;
        rest = following;
    }
    push_unless_empty(events, cursor.name, from, at)?;
    Ok((cursor, at))
}

/// Adds the events of an ending, which may be none, between two points.
///
/// An `Err` says that memory ran out.
fn push_ending<'a>(
    events: &mut Vec<Event>,
    ending: &[u8],
    cursor: Cursor<'a>,
    end: Point,
    after: Point,
) -> Result<Cursor<'a>, Message>
    ensures events { OnOk result (events.new.items ≡ events.old.items
        ++ woven.ending_events end after ending.now (cursor_marks cursor.entry)) }
    ensures marks { IfOk result (λ next. cursor_marks next ≡
        drop (length (woven.as_feed ending.now)) (cursor_marks cursor.entry)) }
    ensures name { IfOk result (λ next. next.name ≡
        last_name cursor.entry.name (take (length (woven.as_feed ending.now)) (cursor_marks cursor.entry))) }
{
    if ending.is_empty() {
        push_unless_empty(events, Name::LineEnding, end, after)?;
        return Ok(cursor);
    }
    let (entered, _) = push_front(events, cursor, end, end)?;
    push_unless_empty(events, Name::LineEnding, end, after)?;
    let (left, _) = push_back(events, entered, 1, after, after)?;
    Ok(left)
}

/// Adds the events of a chunk.
///
/// An `Err` says that memory ran out.
fn push_side<'a>(
    events: &mut Vec<Event>,
    chunk: &Chunk,
    side: &Sides,
    cursor: Cursor<'a>,
) -> Result<Cursor<'a>, Message>
    requires index { chunk.now.first.index
        + (length side.now.indent.now + (length side.now.text.now + length side.now.trail.now)) < 2 ^ 61 }
    requires column { chunk.now.first.column ≤ 4 * chunk.now.first.index + 5 }
    ensures events { OnOk result (events.new.items ≡ events.old.items
        ++ woven.side_events chunk.now (sides_of side.now) (cursor_marks cursor.entry) cursor.entry.name) }
    ensures marks { IfOk result (λ next. cursor_marks next ≡
        drop (length (woven.read_side (sides_of side.now))) (cursor_marks cursor.entry)) }
    ensures name { IfOk result (λ next. next.name ≡ last_name cursor.entry.name
        (take (length (woven.read_side (sides_of side.now))) (cursor_marks cursor.entry))) }
{
    let first = past_text(side.indent, chunk.first);
    push_unless_empty(events, Name::SpaceOrTab, chunk.first, first)?;
    let (left, after) = push_line(events, side.text, side.is_even, cursor, first)?;
    let end = past_text(side.trail, after);
    push_unless_empty(events, Name::SpaceOrTab, after, end)?;
    push_ending(events, side.ending, left, end, chunk.after)
}

/// The next chunk of a part with this text, and those after it.
#[inline(always)]
fn side_of<'a>(
    text: &PartText<'a>,
    bytes: &'a [u8],
    starts: bool,
    ends: bool,
    chunk: &Chunk,
    chunks: &[Chunk],
) -> Sides<'a>
    requires stretch { IsStretch bytes.now chunk.now }
    requires text { IsNextOf bytes.now starts ends chunk.now chunks.now text.now }
    ensures { IsSideOf bytes.now starts ends chunk.now chunks.now result }
{
    match text {
        PartText::Lent(side) => *side,
        PartText::Copied(_) => next_side(bytes, starts, ends, chunk, chunks),
    }
}

/// Adds the events of the chunks of a part with this text.
///
/// An `Err` says that memory ran out.
fn push_chunks<'x>(
    events: &mut Vec<Event>,
    bytes: &'x [u8],
    leaves_out: bool,
    chunks: &[Chunk],
    text: &PartText<'x>,
    tokens: &[Token],
) -> Result<(), Message>
    requires stretches { All (IsStretch bytes.now) chunks.now }
    requires text { IsReadOf bytes.now leaves_out chunks.now text.now }
    ensures { OnOk result (events.new.items ≡ events.old.items ++ together
        (woven.chunks_events bytes.now leaves_out leaves_out chunks.now (token_marks [] tokens.now) n.Data)) }
{
    let mut cursor = Cursor {
        name: Name::Data,
        left: 0,
        tokens,
    };
    let mut starts = leaves_out;
    let mut rest = chunks;
    while let Some((chunk, following)) = rest.split_first() {
        let side = side_of(text, bytes, starts, leaves_out, chunk, following);
        cursor = push_side(events, chunk, &side, cursor)?;
        starts = true;
        rest = following;
    }
    Ok(())
}

/// Adds the events of a text part, in which a layer found these tokens: those of a forest over the text of the part
/// (`text::part_text`). It asks for memory for events alone.
///
/// An `Err` says that memory ran out.
pub fn push_part<'x>(
    events: &mut Vec<Event>,
    kind: PartKind,
    chunks: &[Chunk],
    text: &PartText<'x>,
    state: &ParseState<'x>,
    tokens: &[Token],
) -> Result<(), Message>
    requires part { IsTextPart (document_of state.now) (record { kind = kind; chunks = chunks.now }) }
    requires text { IsTextOf state.now.bytes.now (record { kind = kind; chunks = chunks.now }) text.now }
    ensures { (forest : Forest) → listed.live tokens.now ≡ listed.tokens forest → OnOk result (events.new.items ≡
        events.old.items
        ++ woven.woven_events state.now.bytes.now (record { kind = kind; chunks = chunks.now }) forest) }
{
    push_chunks(events, state.bytes, is_text(kind), chunks, text, tokens)
}
