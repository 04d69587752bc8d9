// The text of an ATX heading, and what follows it (CommonMark 4.2).
//
// At the end of the line of a heading all of it is known from where its text begins: the text, a closing sequence, and
// the whitespace beside that. They are added in one go.

ghost use Rattle.std.specs.Prelude.{◌≡◌, ◌^◌, ◌<◌, ◌≤◌, ◌++◌, ◌==◌, ◌&&◌, None, OnOk, Some, if◌then◌else◌, is_err};
ghost use Rattle.std.specs.Prelude.{length, true};
ghost use Rattle.std.specs.List.{list_any, prefix_len};
ghost use Rattle.md_engine.specs.Full.{Grown, IsFullList};
ghost use Rattle.md_engine.specs.Place.{IsPlaced, first_point};
ghost use Rattle.md_engine.specs.World.{world};
ghost use Rattle.md_engine.specs.declared.event.Name.{Name};
ghost use Rattle.md_leaves.specs.Heading.{text_added};
ghost use Rattle.md_leaves.specs.HeadingRuns.{Apart, Hashes, White, chunk_unless_empty, is_continued, line_runs};
ghost use Rattle.md_leaves.specs.HeadingRuns.{linked_data};
ghost use Rattle.md_leaves.specs.OnLine.{IsOnLine};
ghost use Rattle.md_meaning.specs.Lines.{without_ending};
ghost use Rattle.md_events.specs.Events.Nested.{last_point};
ghost use Rattle.md_events.specs.Events.Places.{past_byte, past_text};
ghost use Rattle.md_events.specs.WholeLine.{line_taken};

use md_engine::class::is_white;
use md_engine::event::{Content, Link, Name, Point};
use md_engine::message::Message;
use md_engine::tokenizer::Tokenizer;
use md_events::parts::add_part;
use md_events::slice::{between, whole_from};
use md_scan::bytes::white_len;
use md_scan::heading::heading_text;
use md_scan::lines::line_len;

/// What is text of a heading is read later.
const TEXT_LINK: Link = Link {
    previous: false,
    next: false,
    content: Content::Text,
};

/// The point of the first byte of a text.
const FIRST: Point = Point {
    line: 1,
    column: 1,
    index: 0,
    vs: 0,
};

/// The point after a byte of a line.
#[inline(always)]
fn past_byte(byte: u8, point: Point) -> Point
    requires { (point.index < 2 ^ 61) × (point.column ≤ 2 ^ 63) }
    ensures { result ≡ past_byte byte point }
{
    let before = point.column.saturating_sub(1);
    let columns = if byte == b'\t' { 4 - before % 4 } else { 1 };
    Point {
        line: point.line,
        column: before + columns + 1,
        index: point.index + 1,
        vs: 0,
    }
}

/// The point after a piece of a line.
#[inline(always)]
fn past_text(bytes: &[u8], piece: &[u8], from: Point) -> Point
    requires { IsOnLine bytes.now piece.now from }
    ensures { result ≡ past_text piece.now from }
{
    if from.vs == 0 && !has_tab(piece) {
        return Point {
            line: from.line,
            column: from.column + piece.len(),
            index: from.index + piece.len(),
            vs: 0,
        };
    }
    let mut point = from;
    for byte in piece {
        point = past_byte(*byte, point);
    }
    point
}

/// How many bytes the run at the front has: whitespace, or what is none.
fn run_len(line: &[u8], white: bool) -> usize
    ensures value { result ≡ prefix_len (is_continued (if white then White else Hashes)) line.now }
    ensures bound { result ≤ length line.now }
{
    if white {
        white_len(line)
    } else {
        line.iter().take_while(|byte| !is_white(**byte)).count()
    }
}

/// The name of a run of whitespace, or of `#`.
fn run_name(white: bool) -> Name
    ensures { result ≡ if white then Name.SpaceOrTab else Name.HeadingAtxSequence }
{
    if white {
        Name::SpaceOrTab
    } else {
        Name::HeadingAtxSequence
    }
}

/// Adds the runs of whitespace and of `#` that a piece of a line has.
fn add_runs(tokenizer: &mut Tokenizer, piece: &[u8], from: Point) -> Result<(), Message>
    requires { IsOnLine (world tokenizer.old).setting.bytes piece.now from }
    ensures world { OnOk result
        (world tokenizer.new ≡
        record (world tokenizer.old) { events = (world tokenizer.old).events ++ line_runs Apart piece.now from }) }
    ensures full { is_err result ≡ true → IsFullList Grown.Events tokenizer.new }
{
    let mut rest = piece;
    let mut point = from;
    while !rest.is_empty() {
        let white = is_white(rest[0]);
        let (run, following) = rest.split_at(run_len(rest, white));
        let end = past_text(tokenizer.bytes, run, point);
        add_part(tokenizer, run_name(white), None, point, end)?;
        rest = following;
        point = end;
    }
    Ok(())
}

/// What was taken of the line since the text of the heading began, at this point. Where the tokenizer's point is on the
/// same line, no byte of it ends a line.
fn text_taken<'a>(tokenizer: &Tokenizer<'a>, from: Point) -> &'a [u8]
    requires placed { IsPlaced (world tokenizer.now).setting.bytes from }
    requires at { from.index ≡ (world tokenizer.now).scratch.start }
    ensures { let w = world tokenizer.now in
        result.now ≡ without_ending (line_taken w.setting.bytes w.scratch w.point) }
{
    let to = tokenizer.point;
    let line = between(tokenizer.bytes, tokenizer.scratch.start, whole_from(to));
    if to.vs == 0 && to.line == from.line {
        return line;
    }
    line.split_at(line_len(line)).0
}

/// Whether a tab is among these bytes.
fn has_tab(bytes: &[u8]) -> bool
    ensures { result ≡ list_any (λ b. b == 9) bytes.now }
{
    bytes.iter().any(|byte| *byte == b'\t')
}

/// The point after the text of a heading. Where what follows it on the line reaches to the tokenizer's point and has no
/// tab, it is so many bytes and columns before that point.
fn text_end(tokenizer: &Tokenizer, text: &[u8], rest: &[u8], from: Point) -> Point
    requires on { IsOnLine (world tokenizer.now).setting.bytes (text.now ++ rest.now) from }
    requires whole { from.vs ≡ 0 }
    ensures { result ≡ past_text text.now from }
{
    let to = tokenizer.point;
    if to.vs == 0 && to.index == from.index + text.len() + rest.len() && !has_tab(rest) {
        return Point {
            line: to.line,
            column: to.column.saturating_sub(rest.len()),
            index: to.index.saturating_sub(rest.len()),
            vs: 0,
        };
    }
    past_text(tokenizer.bytes, text, from)
}

/// The point of the last event, or the first of a text.
fn last_point(tokenizer: &Tokenizer) -> Point
    ensures { result ≡ last_point first_point (world tokenizer.now).events }
{
    match tokenizer.events.last() {
        Some(event) => event.point,
        None => FIRST,
    }
}

/// The point of the last event, if the text of the heading began there.
fn text_begin(tokenizer: &Tokenizer) -> Option<Point>
    ensures { let p = last_point first_point (world tokenizer.now).events in
        result ≡ if (p.vs == 0) && (p.index == (world tokenizer.now).scratch.start) then Some p else None }
{
    let point = last_point(tokenizer);
    if point.vs == 0 && point.index == tokenizer.scratch.start {
        Some(point)
    } else {
        None
    }
}

/// Adds the text of a heading as one part that is read later, unless it is empty.
fn add_data(tokenizer: &mut Tokenizer, text: &[u8], from: Point, end: Point) -> Result<(), Message>
    requires from { IsPlaced (world tokenizer.old).setting.bytes from }
    requires end { IsPlaced (world tokenizer.old).setting.bytes end }
    ensures world { OnOk result
        (world tokenizer.new ≡
        record (world tokenizer.old) {
          events = (world tokenizer.old).events ++ linked_data (chunk_unless_empty (length text.now) from end);
        }) }
    ensures full { is_err result ≡ true → IsFullList Grown.Events tokenizer.new }
{
    if text.is_empty() {
        return Ok(());
    }
    add_part(tokenizer, Name::Data, Some(TEXT_LINK), from, end)
}

/// Adds the text of the heading, whose line ends here, and what is after it.
pub(crate) fn add_text(tokenizer: &mut Tokenizer) -> Result<(), Message>
    ensures world { OnOk result (world tokenizer.new ≡ text_added (world tokenizer.old)) }
    ensures full { is_err result ≡ true → IsFullList Grown.Events tokenizer.new }
{
    let Some(from) = text_begin(tokenizer) else {
        return Ok(());
    };
    let line = text_taken(tokenizer, from);
    let (text, rest) = line.split_at(heading_text(line).len());
    let end = text_end(tokenizer, text, rest, from);
    add_data(tokenizer, text, from, end)?;
    add_runs(tokenizer, rest, end)
}
