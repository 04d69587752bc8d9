// Lines of content that follow one another are read as one part (CommonMark 4.8).
//
//     part ::= line *( ending *prefix line )
//
// Each line of content is a begin and an end of its own. The ending between two such lines belongs to the first, and
// the prefixes of containers before the second to neither. So a line that continues ends after its ending, whose two
// events are left out, and the events of the part replace those of the lines.
//
// ```markdown
// > | > a
//       ^^ a line with its ending
// > | > b
//       ^ the line that it continues with
// ```

ghost use Rattle.std.specs.Prelude.{◌≡◌, ◌≤◌, ◌<◌, ◌+◌, ◌&&◌, ◌∷◌, ◌++◌, length, drop, IfOk, IfSome, List, []};
ghost use Rattle.std.specs.Prelude.{OnOk, get_or, true};
ghost use Rattle.std.specs.List.{prefix_len};
ghost use Rattle.md_content.specs.ContentReads.{content_events, content_readings, wants_content};
ghost use Rattle.md_content.specs.Joined.{ends_content, is_continued, is_content, is_of_prefix, joined, joined_with};
ghost use Rattle.md_content.specs.Lines.{begins_chunk, is_passed, lines_from};
ghost use Rattle.md_content.specs.ParagraphLines.{GivesParagraph, HasLines, IsParagraph, is_unlinked};
ghost use Rattle.md_content.specs.WholeLines.{lines_of};
ghost use Rattle.md_engine.specs.declared.event.Event.{Event};
ghost use Rattle.md_engine.specs.declared.event.Name.{Name};
ghost use Rattle.md_meaning.specs.Ascii.{left_bracket};
ghost use Rattle.md_events.specs.Events.Inline.{is_line_ending};
ghost use Rattle.md_events.specs.Events.Nested.{enter, exit, is_enter};
ghost use Rattle.md_events.specs.Parts.{ArePlaced};
ghost use Rattle.md_events.specs.Rewritten.{given_of, held_of, left_of, written_of};
ghost use Rattle.md_events.specs.Substituted.{Begun, Substituted, chunk_of, is_plain_prefix};

use crate::content::{ContentReader, is_followed, is_within_line, may_define_at};
use md_engine::event::{Content, Event, Kind, Link, Name, Point};
use md_engine::message::Message;
use md_events::inline::Chunk;
use md_events::rewriting::Rewriting;
use md_events::subtokenize::{Found, is_prefix, push_chunk};
use md_events::walks::{Test, passing};
use std::alloc::Global;

/// Whether a line of content begins with an event.
fn begins_line(event: &Event) -> bool
    ensures { result ≡ is_enter event.now.kind && is_content event.now.name }
{
    matches!(event.kind, Kind::Enter) && matches!(event.name, Name::Content)
}

/// Whether this is the ending of a line of text.
fn is_ending(event: &Event) -> bool
    ensures { result ≡ is_line_ending event.now.name }
{
    matches!(event.name, Name::LineEnding)
}

/// How many of the events come before the first that belongs to no container prefix.
fn prefixes(events: &[Event]) -> usize
    ensures value { result ≡ prefix_len is_of_prefix events.now }
    ensures within { result ≤ length events.now }
{
    for (at, event) in events.iter().enumerate() {
        if !is_prefix(event.name) {
            return at;
        }
    }
    events.len()
}

/// Whether an event belongs to a container prefix, and begins no chunk.
struct IsPlainPrefix;

impl Test for IsPlainPrefix {
    ghost passes = { λ test. is_plain_prefix };

    fn passes(&self, event: &Event) -> bool {
        is_prefix(event.name) && event.link.is_none()
    }
}

/// How many of the events come before the first that belongs to no container prefix, or has a link.
fn plain_prefixes(events: &[Event]) -> usize
    ensures value { result ≡ prefix_len is_plain_prefix events.now }
    ensures within { result ≤ length events.now }
{
    passing(&IsPlainPrefix, events)
}

/// Whether a line of content that ends before these events continues: its ending comes first, and after it and the
/// prefixes of the next line a line of content.
fn is_continued(events: &[Event]) -> bool
    ensures { result ≡ is_continued events.now }
{
    if events.len() < 2 || !is_ending(&events[0]) {
        return false;
    }
    let next = 2 + prefixes(&events[2..]);
    next < events.len() && begins_line(&events[next])
}

/// Whether a line of content ends with an event.
fn ends_line(event: &Event) -> bool
    ensures { result ≡ ends_content event.now }
{
    matches!(event.name, Name::Content) && matches!(event.kind, Kind::Exit)
}

/// How many events are joined with the first of these: the two of an ending, where a line of content ends that
/// continues.
fn joined_with(events: &[Event]) -> usize
    requires { 0 < length events.now }
    ensures value { result ≡ joined_with events.now }
    ensures within { result < length events.now }
{
    if ends_line(&events[0]) && is_continued(&events[1..]) {
        2
    } else {
        0
    }
}

/// Whether a chunk of content begins with the first of these events.
fn begins_chunk(events: &[Event]) -> bool
    ensures value { result ≡ begins_chunk events.now }
    ensures within { result ≡ true → 1 < length events.now }
{
    if events.len() < 2 {
        return false;
    }
    match (events[0].kind, events[0].link) {
        (Kind::Enter, Some(link)) => matches!(link.content, Content::Content),
        _ => false,
    }
}

/// Whether an event has no link.
struct IsUnlinked;

impl Test for IsUnlinked {
    ghost passes = { λ test. is_unlinked };

    fn passes(&self, event: &Event) -> bool {
        event.link.is_none()
    }
}

/// How many of the events come before the first that has a link.
fn unlinked(events: &[Event]) -> usize
    ensures value { result ≡ prefix_len is_unlinked events.now }
    ensures within { result ≤ length events.now }
{
    passing(&IsUnlinked, events)
}

/// Where the next line of the part begins among the events after the begin of a line: after its ending and container
/// prefixes. `None` where none does, or where that is not known.
fn next_line(events: &[Event]) -> Option<usize>
    ensures line { IfSome result (λ next. (next ≡ 3 + prefix_len is_plain_prefix (drop 3 events.now))
        × (joined_with events.now ≡ 2)) }
    ensures begins { IfSome result (λ next. begins_chunk (drop next events.now) ≡ true) }
    ensures within { IfSome result (λ next. next + 1 < length events.now) }
{
    if events.len() < 3 || !ends_line(&events[0]) || !is_ending(&events[1]) {
        return None;
    }
    let next = 3 + plain_prefixes(&events[3..]);
    if begins_chunk(&events[next..]) && begins_line(&events[next]) {
        Some(next)
    } else {
        None
    }
}

/// Whether the line is the last of its part that ends with the first of these events: `false` where that is not known.
fn ends_part(events: &[Event]) -> bool
    requires { 0 < length events.now }
    ensures alone { result ≡ true → joined_with events.now ≡ 0 }
    ensures last { result ≡ true → lines_from (drop 1 events.now) ≡ [] }
{
    if joined_with(events) > 0 {
        return false;
    }
    events.len() < 3 || !begins_chunk(&events[1..]) && !is_prefix(events[1].name)
}

/// The chunk from one event to another.
fn chunk_of(first: &Event, last: &Event) -> Chunk
    ensures { result ≡ chunk_of first.now last.now }
{
    Chunk {
        first: first.point,
        after: last.point,
    }
}

/// Whether there is a `[` at this place, with which most definitions begin.
fn is_bracket(bytes: &[u8], at: usize) -> bool
    ensures { result ≡ true → get_or bytes.now at 0 ≡ left_bracket }
{
    at < bytes.len() && bytes[at] == b'['
}

/// How many lines follow the first in the part that begins with these events, if it is a paragraph: `None` where that
/// is not known, as after a `[`.
fn further_lines(bytes: &[u8], events: &[Event]) -> Option<usize>
    requires begins { begins_chunk events.now ≡ true }
    requires placed { ArePlaced bytes.now events.now }
    ensures { IfSome result (λ more. IsParagraph bytes.now more events.now) }
{
    if is_bracket(bytes, events[0].point.index) {
        return None;
    }
    let mut at = 0;
    let mut more = 0;
    while let Some(following) = next_line(&events[at + 1..]) {
        let next = at + 1 + following;
        let line = chunk_of(&events[at], &events[at + 3]);
        if !is_followed(&line, &chunk_of(&events[next], &events[next + 1])) {
            return None;
        }
        at = next;
        more += 1;
    }
    if !ends_part(&events[at + 1..]) || !is_within_line(&chunk_of(&events[at], &events[at + 1])) {
        return None;
    }
    let last = if more > 0 { 3 } else { 1 };
    if may_define_at(bytes, &chunk_of(&events[0], &events[last])) {
        return None;
    }
    Some(more)
}

/// Reads a line that is left first, with its ending if so many lines follow, and returns its chunk.
fn take_line(all: &mut Rewriting, more: usize) -> Chunk
    requires { HasLines more (left_of all.old) }
    ensures line { lines_from (left_of all.old) ≡ result ∷ lines_from (left_of all.new) }
    ensures left { left_of all.new ≡ drop (joined_with (drop 1 (left_of all.old)) + 2) (left_of all.old) }
    ensures held { held_of all.new ≡ [] }
    ensures written { written_of all.new ≡ given_of all.old }
{
    let last = if more > 0 { 3 } else { 1 };
    let left = all.left();
    let line = chunk_of(&left[0], &left[last]);
    all.skip(last + 1);
    line
}

/// Writes a line of a paragraph.
#[inline(always)]
fn put_line(all: &mut Rewriting, line: &Chunk) -> Result<(), Message>
    ensures left { left_of all.new ≡ left_of all.old }
    ensures held { held_of all.new ≡ held_of all.old }
    ensures written { OnOk result (written_of all.new ≡ written_of all.old ++ lines_of (line.now ∷ [])) }
{
    let link = Link {
        previous: false,
        next: false,
        content: Content::Text,
    };
    all.push_linked(Name::Data, link, line.first, line.after)
}

/// Writes the event with which a paragraph begins, at a point.
#[inline(always)]
fn put_begin(all: &mut Rewriting, begin: Event, point: Point) -> Result<(), Message>
    requires { begin ≡ enter Name.Paragraph begin.point }
    ensures left { left_of all.new ≡ left_of all.old }
    ensures held { held_of all.new ≡ held_of all.old }
    ensures written { OnOk result
        (written_of all.new ≡ written_of all.old ++ enter Name.Paragraph point ∷ []) }
{
    all.push(Event { point, ..begin })
}

/// Writes the event with which a paragraph ends, at a point.
#[inline(always)]
fn put_end(all: &mut Rewriting, point: Point) -> Result<(), Message>
    ensures left { left_of all.new ≡ left_of all.old }
    ensures held { held_of all.new ≡ held_of all.old }
    ensures written { OnOk result
        (written_of all.new ≡ written_of all.old ++ exit Name.Paragraph point ∷ []) }
{
    all.push(Event {
        kind: Kind::Exit,
        name: Name::Paragraph,
        link: None,
        point,
    })
}

/// Writes the paragraph that is left first, a line and so many further lines, in their places: its text is what was
/// content, and the ending between two lines belongs to the first. `begin` is the event with which paragraphs begin.
fn put_paragraph(all: &mut Rewriting, begin: Event, further: usize) -> Result<(), Message>
    requires begin { begin ≡ enter Name.Paragraph begin.point }
    requires lines { HasLines further (left_of all.old) }
    ensures given { OnOk result
        (GivesParagraph further (given_of all.old) (left_of all.old) (given_of all.new) (left_of all.new)) }
    ensures fewer { OnOk result (length (left_of all.new) < length (left_of all.old)) }
{
    let mut more = further;
    let mut line = take_line(all, more);
    put_begin(all, begin, line.first)?;
    put_line(all, &line)?;
    while more > 0 {
        more -= 1;
        let many = unlinked(all.left());
        all.hold_many(many);
        line = take_line(all, more);
        put_line(all, &line)?;
    }
    put_end(all, line.after)
}

/// Lists the chunks of the part that begins with these events, in place of those that are listed.
fn list_lines(chunks: &mut Vec<Chunk>, events: &[Event]) -> Result<(), Message>
    ensures { OnOk result (chunks.new.items ≡ lines_from events.now) }
{
    chunks.clear();
    let mut at = 0;
    while at + 1 < events.len() {
        if begins_chunk(&events[at..]) {
            let last = at + 1 + joined_with(&events[at + 1..]);
            push_chunk(chunks, &events[at], &events[last])?;
            at = last + 1;
        } else if is_prefix(events[at].name) {
            at += 1;
        } else {
            break;
        }
    }
    Ok(())
}

/// Reads the part that begins with these events, unless chunks of another part are left.
fn or_read(
    alloc: Global,
    reader: &ContentReader,
    found: &mut Found,
    chunks: &mut Vec<Chunk>,
    events: &[Event],
) -> Result<(), Message>
    requires begins { begins_chunk events.now ≡ true }
    requires placed { ArePlaced reader.now.bytes.now events.now }
    requires found { ArePlaced reader.now.bytes.now found.old.events.items }
    ensures chunks { OnOk result (0 < found.new.chunks) }
    ensures placed { OnOk result (ArePlaced reader.now.bytes.now found.new.events.items) }
    ensures begun { let reads = λ (left : List Event). left ≡ content_events reader.now.bytes.now reader.now.options.now
        (lines_from events.now) in
        OnOk result
        (Begun reads (length (lines_from events.now)) (drop found.old.placed found.old.events.items) found.old.chunks
        (drop found.new.placed found.new.events.items) found.new.chunks) }
{
    if found.is_begun() {
        return Ok(());
    }
    list_lines(chunks, events)?;
    found.read(alloc, reader, Content::Content, chunks)
}

/// Whether an event stays as it is: no chunk of content begins there, and no line of content ends.
struct IsPassed;

impl Test for IsPassed {
    ghost passes = { λ test. is_passed };

    fn passes(&self, event: &Event) -> bool {
        match (event.kind, event.link) {
            (Kind::Enter, Some(link)) => !matches!(link.content, Content::Content),
            (Kind::Enter, None) => true,
            (Kind::Exit, _) => !matches!(event.name, Name::Content),
        }
    }
}

/// How many of the events come before the first with which a chunk of content begins, or a line of content ends.
fn passed(events: &[Event]) -> usize
    ensures value { result ≡ prefix_len is_passed events.now }
    ensures within { result ≤ length events.now }
{
    passing(&IsPassed, events)
}

/// The events with each part of content read, in one walk, in the list of the events: lines that follow one another are
/// joined on the way. `begin` is the event with which paragraphs begin.
#[inline(never)]
pub fn read_lines(
    alloc: Global,
    reader: &ContentReader,
    begin: Event,
    events: Vec<Event>,
) -> Result<Vec<Event>, Message>
    requires begin { begin ≡ enter Name.Paragraph begin.point }
    requires placed { ArePlaced reader.now.bytes.now events.items }
    ensures placed { IfOk result (λ all. ArePlaced reader.now.bytes.now all.items) }
    ensures substituted { IfOk result
        (λ all. Substituted wants_content (content_readings reader.now.bytes.now reader.now.options.now) [] 0
        (joined events.items) all.items) }
{
    let mut all = Rewriting::new(events);
    let mut found = Found::nothing(alloc);
    let mut chunks = Vec::new(alloc);
    while let Some(event) = all.first() {
        if begins_chunk(all.left()) {
            if !found.is_begun() {
                if let Some(more) = further_lines(reader.bytes, all.left()) {
                    put_paragraph(&mut all, begin, more)?;
                    continue;
                }
            }
            or_read(alloc, reader, &mut found, &mut chunks, all.left())?;
            let last = 1 + joined_with(&all.left()[1..]);
            let end = all.left()[last].point.index;
            all.skip(last + 1);
            found.place(&mut all, end)?;
        } else {
            let with = joined_with(all.left());
            if with > 0 {
                let point = all.left()[with].point;
                all.skip(with + 1);
                all.push(Event { point, ..event })?;
            } else {
                let many = 1 + passed(&all.left()[1..]);
                all.hold_many(many);
            }
        }
    }
    all.give();
    Ok(all.finish())
}
