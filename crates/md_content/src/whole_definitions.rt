// Definitions that are whole lines, one after another (CommonMark 4.7). Their events are written at once.
//
//     lines       ::= *( line eol ) line
//     line        ::= "[" label "]: " destination
//     label       ::= 1*999 label_byte                 ; one of them is no space
//     label_byte  ::= any byte after U+001F but "[", "\" and "]"
//     destination ::= 1*plain_byte                     ; of `plain_destination`
//
// Other definitions are read state by state, as are lines with paragraphs after definitions.

ghost use Rattle.std.specs.Prelude.{◌≡◌, ◌+◌, ◌^◌, ◌<◌, ◌≤◌, ◌++◌, ◌∷◌, [], IfOk, IfSome, length, None, true};
ghost use Rattle.std.specs.Prelude.{vec_capacity, vec_len};
ghost use Rattle.std.specs.List.{prefix_len};
ghost use Rattle.md_content.specs.WholeDefinitions as whole;
ghost use Rattle.md_meaning.specs.Ascii.{colon, left_bracket, right_bracket, space};
ghost use Rattle.md_content.specs.ContentReads.{content_events};
ghost use Rattle.md_engine.specs.declared.configuration.ParseOptions.{ParseOptions};
ghost use Rattle.md_events.specs.Events.Nested.{pair};
ghost use Rattle.md_events.specs.Parts.{AreChunks, ArePlaced};

use crate::content::are_lines;
use md_engine::event::{Content, Event, Kind, Link, Name, Point};
use md_engine::message::Message;
use md_events::inline::Chunk;
use md_link_definitions::plain_destination::is_plain_destination;
use md_scan::bytes::is_blank;

/// How many bytes a label may have.
const LABEL_LEN: usize = 999;

/// How many events a definition has, with the ending of its line.
const EVENTS: usize = 26;

/// How many bytes the parts of a definition have.
#[derive(Clone, Copy)]
struct Sizes {
    label: usize,
    destination: usize,
}

/// Whether a label may have this byte, and it is no bracket and no backslash.
fn is_label_byte(byte: u8) -> bool
    ensures { result ≡ whole.is_label_byte byte }
{
    byte >= b' ' && !matches!(byte, b'[' | b'\\' | b']')
}

/// How many bytes of a label come first.
fn label_len(text: &[u8]) -> usize
    ensures value { result ≡ prefix_len whole.is_label_byte text.now }
    ensures bound { result ≤ length text.now }
{
    text.iter().take_while(|byte| is_label_byte(**byte)).count()
}

/// Whether a destination may end with this byte: `false` where a title, whitespace or `>` mostly does.
fn may_end(byte: u8) -> bool {
    !matches!(byte, b'"' | b'\'' | b')' | b'>' | b' ')
}

/// What follows the `[` that comes first.
fn after_opener(line: &[u8]) -> Option<&[u8]>
    ensures { IfSome result (λ text. line.now ≡ left_bracket ∷ text.now) }
{
    match line {
        [b'[', text @ ..] => Some(text),
        _ => None,
    }
}

/// What follows `]: ` that comes first.
fn after_closer(rest: &[u8]) -> Option<&[u8]>
    ensures { IfSome result (λ following. rest.now ≡ right_bracket ∷ colon ∷ space ∷ following.now) }
{
    match rest {
        [b']', b':', b' ', following @ ..] => Some(following),
        _ => None,
    }
}

/// The parts of the definition that a line is: `None` where that is not known.
fn sizes_of(line: &[u8]) -> Option<Sizes>
    ensures { IfSome result (λ sizes. whole.IsDefinition line.now sizes.label sizes.destination) }
{
    let Some(text) = after_opener(line) else {
        return None;
    };
    let (label, rest) = text.split_at(label_len(text));
    let Some(destination) = after_closer(rest) else {
        return None;
    };
    if label.len() > LABEL_LEN || is_blank(label) || !is_plain_destination(destination) {
        return None;
    }
    Some(Sizes {
        label: label.len(),
        destination: destination.len(),
    })
}

/// The point so many bytes further on its line.
fn past(point: Point, bytes: usize) -> Point
    requires column { point.column + bytes < 2 ^ 64 }
    requires index { point.index + bytes < 2 ^ 64 }
    ensures { result ≡ whole.past bytes point }
{
    Point {
        line: point.line,
        column: point.column + bytes,
        index: point.index + bytes,
        vs: 0,
    }
}

/// An event at a point.
#[inline(always)]
fn put(events: &mut Vec<Event>, kind: Kind, name: Name, point: Point)
    requires { vec_len events.old < vec_capacity events.old }
    ensures items { events.new.items ≡
        events.old.items ++ record { kind = kind; name = name; link = None; point = point } ∷ [] }
    ensures len { vec_len events.new ≡ vec_len events.old + 1 }
    ensures capacity { vec_capacity events.new ≡ vec_capacity events.old }
{
    events.push_reserved(Event {
        kind,
        name,
        link: None,
        point,
    });
}

/// A part with nothing in it.
#[inline(always)]
fn put_pair(events: &mut Vec<Event>, name: Name, first: Point, after: Point)
    requires room { vec_len events.old + 2 ≤ vec_capacity events.old }
    ensures items { events.new.items ≡ events.old.items ++ pair name first after }
    ensures len { vec_len events.new ≡ vec_len events.old + 2 }
    ensures capacity { vec_capacity events.new ≡ vec_capacity events.old }
{
    put(events, Kind::Enter, name, first);
    put(events, Kind::Exit, name, after);
}

/// A text that is read later.
#[inline(always)]
fn put_text(events: &mut Vec<Event>, first: Point, after: Point)
    requires room { vec_len events.old + 2 ≤ vec_capacity events.old }
    ensures items { events.new.items ≡ events.old.items ++ whole.string_part first after }
    ensures len { vec_len events.new ≡ vec_len events.old + 2 }
    ensures capacity { vec_capacity events.new ≡ vec_capacity events.old }
{
    let link = Link {
        previous: false,
        next: false,
        content: Content::String,
    };
    events.push_reserved(Event {
        kind: Kind::Enter,
        name: Name::Data,
        link: Some(link),
        point: first,
    });
    put(events, Kind::Exit, Name::Data, after);
}

/// A label with its marks, and its text between them.
fn put_label(events: &mut Vec<Event>, first: Point, text: Point, closer: Point, after: Point)
    requires room { vec_len events.old + 10 ≤ vec_capacity events.old }
    ensures items { events.new.items ≡ events.old.items ++ whole.label_part first text closer after }
    ensures len { vec_len events.new ≡ vec_len events.old + 10 }
    ensures capacity { vec_capacity events.new ≡ vec_capacity events.old }
{
    put(events, Kind::Enter, Name::DefinitionLabel, first);
    put_pair(events, Name::DefinitionLabelMarker, first, text);
    put(events, Kind::Enter, Name::DefinitionLabelString, text);
    put_text(events, text, closer);
    put(events, Kind::Exit, Name::DefinitionLabelString, closer);
    put_pair(events, Name::DefinitionLabelMarker, closer, after);
    put(events, Kind::Exit, Name::DefinitionLabel, after);
}

/// A destination between these points.
fn put_destination(events: &mut Vec<Event>, first: Point, after: Point)
    requires room { vec_len events.old + 8 ≤ vec_capacity events.old }
    ensures items { events.new.items ≡ events.old.items ++ whole.destination_part first after }
    ensures len { vec_len events.new ≡ vec_len events.old + 8 }
    ensures capacity { vec_capacity events.new ≡ vec_capacity events.old }
{
    put(events, Kind::Enter, Name::DefinitionDestination, first);
    put(events, Kind::Enter, Name::DefinitionDestinationRaw, first);
    put(
        events,
        Kind::Enter,
        Name::DefinitionDestinationString,
        first,
    );
    put_text(events, first, after);
    put(events, Kind::Exit, Name::DefinitionDestinationString, after);
    put(events, Kind::Exit, Name::DefinitionDestinationRaw, after);
    put(events, Kind::Exit, Name::DefinitionDestination, after);
}

/// The definition that a line is, and the point after it: `None` where that is not known, and then nothing is added.
fn put_definition(
    events: &mut Vec<Event>,
    line: &[u8],
    first: Point,
) -> Result<Option<Point>, Message>
    requires column { first.column + length line.now < 2 ^ 64 }
    requires index { first.index + length line.now < 2 ^ 64 }
    ensures written { IfOk result
        (λ found. IfSome found (λ end. whole.IsWritten line.now first end events.old.items events.new.items)) }
    ensures room { IfOk result
        (λ found. IfSome found (λ end. vec_len events.new + 2 ≤ vec_capacity events.new)) }
{
    let Some(sizes) = sizes_of(line) else {
        return Ok(None);
    };
    if events.reserve(EVENTS).is_err() {
        return Err(Message);
    }
    let text = past(first, 1);
    let closer = past(first, sizes.label + 1);
    let marker = past(first, sizes.label + 2);
    let gap = past(first, sizes.label + 3);
    let destination = past(first, sizes.label + 4);
    let after = past(first, sizes.label + 4 + sizes.destination);
    put(events, Kind::Enter, Name::Definition, first);
    put_label(events, first, text, closer, marker);
    put_pair(events, Name::DefinitionMarker, marker, gap);
    put_pair(events, Name::SpaceOrTab, gap, destination);
    put_destination(events, destination, after);
    put(events, Kind::Exit, Name::Definition, after);
    Ok(Some(after))
}

/// Replaces the events by those of the definitions that these chunks are, if each is one: `false` where that is not
/// known, and then the events mean nothing.
pub fn write_definitions(
    bytes: &[u8],
    chunks: &[Chunk],
    events: &mut Vec<Event>,
) -> Result<bool, Message>
    requires { AreChunks bytes.now chunks.now }
    ensures events { IfOk result
        (λ done. done ≡ true → (options : ParseOptions) → options.constructs.definition ≡ true →
        events.new.items ≡ content_events bytes.now options chunks.now) }
    ensures placed { IfOk result (λ done. done ≡ true → ArePlaced bytes.now events.new.items) }
{
    let end = chunks[chunks.len() - 1].after.index;
    if end == 0 || !may_end(bytes[end - 1]) || !are_lines(chunks) {
        return Ok(false);
    }
    events.clear();
    let mut at = 0;
    while at + 1 < chunks.len() {
        let Chunk { first, after } = chunks[at];
        if after.index <= first.index || bytes[after.index - 1] != b'\n' {
            return Ok(false);
        }
        match put_definition(events, &bytes[first.index..after.index - 1], first)? {
            Some(end) => put_pair(events, Name::LineEnding, end, after),
            None => return Ok(false),
        }
        at += 1;
    }
    let Chunk { first, after } = chunks[at];
    if after.index <= first.index {
        return Ok(false);
    }
    let last = put_definition(events, &bytes[first.index..after.index], first)?;
    Ok(last.is_some())
}
