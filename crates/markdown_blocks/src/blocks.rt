// All blocks of a text, which are read part by part.
//
// Flow adds the events of a part to a list, and then its content is read, its lines are joined, its resolvers run, and it
// is noted where its definitions are. Each of these reads all events of the part: so they find them in a cache, which does
// not hold the events of a large text.

ghost use Rattle.std.specs.Prelude.{◌≡◌, ◌+◌, ◌<◌, ◌^◌, ◌++◌, IfOk, OnOk, [], length, true};
ghost use Rattle.md_meaning.specs.Label.{both};
ghost use Rattle.markdown_blocks.specs.Definitions.{marked};
ghost use Rattle.markdown_blocks.specs.Parsed.{IsSmall, IsWithoutMdx};
ghost use Rattle.markdown_blocks.specs.PartRead.{AreAllBlocks, labels_of};

use crate::definitions::mark_definitions;
use crate::parser::read_front;
use crate::parts::{Part, point_in, read_at_least};
use md_engine::configuration::ParseOptions;
use md_engine::event::Event;
use md_engine::message::Message;
use md_events::moving::append;
use std::alloc::Global;
use std::mem;

/// For how many events a byte of text a list has room at once: as many as `-` has, an empty item in a list of its own.
const EVENTS_A_BYTE: usize = 8;

/// For the events of so many bytes, at most: a list for them is large enough that the C library maps it, so that it
/// copies none of them when the list grows.
const BYTES_WITH_ROOM: usize = 512;

/// An empty list with room for the events of a text, or of its first bytes.
fn with_room(alloc: Global, bytes: &[u8]) -> Result<Vec<Event>, Message>
    ensures { IfOk result (λ events. events.items ≡ []) }
{
    match Vec::with_capacity(alloc, EVENTS_A_BYTE * bytes.len().min(BYTES_WITH_ROOM)) {
        Ok(events) => Ok(events),
        Err(_) => Err(Message),
    }
}

/// Adds labels to others.
fn add_labels(all: &mut Vec<String>, mut labels: Vec<String>) -> Result<(), Message>
    ensures { OnOk result (all.new.items ≡ all.old.items ++ labels.items) }
{
    if all.append(&mut labels).is_err() {
        return Err(Message);
    }
    Ok(())
}

/// Adds events to others. Returns a list for the events of the next part.
fn add_events(all: &mut Vec<Event>, events: Vec<Event>) -> Result<Vec<Event>, Message>
    ensures { OnOk result (all.new.items ≡ all.old.items ++ events.items) }
{
    if all.is_empty() {
        return Ok(mem::replace(all, events));
    }
    append(all, &events)?;
    Ok(events)
}

/// Adds a part to those before it. Returns a list for the events of the next part.
fn add_part(all: &mut Part, part: Part) -> Result<Vec<Event>, Message>
    ensures events { OnOk result (all.new.events.items ≡ all.old.events.items ++ part.events.items) }
    ensures labels { OnOk result (labels_of all.new ≡ both (labels_of all.old) (labels_of part)) }
{
    add_labels(&mut all.definitions, part.definitions)?;
    add_labels(
        &mut all.gfm_footnote_definitions,
        part.gfm_footnote_definitions,
    )?;
    let spare = add_events(&mut all.events, part.events)?;
    Ok(spare)
}

/// Adds where the events of definitions are among these, which so many are before, if they are wanted.
fn mark_if(
    wants_marks: bool,
    marks: &mut Vec<usize>,
    before: usize,
    events: &[Event],
) -> Result<(), Message>
    requires { before + length events.now < 2 ^ 64 }
    ensures { OnOk result (wants_marks ≡ true → marks.new.items ≡ marks.old.items ++ marked before events.now) }
{
    if wants_marks {
        mark_definitions(marks, before, events)?;
    }
    Ok(())
}

/// Reads the blocks of a text, whose text parts are not read, in parts of so many bytes at least: all events, those of its
/// front first, and all labels; and, if they are wanted, where the events of definitions are.
///
/// An `Err` says that memory ran out.
pub(crate) fn read_blocks(
    alloc: Global,
    text: &[u8],
    options: &ParseOptions,
    least: usize,
    wants_marks: bool,
) -> Result<(Part, Vec<usize>), Message>
    requires small { IsSmall text.now }
    requires built { IsWithoutMdx options.now }
    ensures read { IfOk result (λ read. AreAllBlocks options.now text.now read.0) }
    ensures marks { IfOk result
        (λ read. wants_marks ≡ true → read.1.items ≡ marked 0 read.0.events.items) }
{
    let front = read_front(alloc, text, options)?;
    let mut next = point_in(text, front.point);
    let mut all = Part {
        events: front.events,
        definitions: Vec::new(alloc),
        gfm_footnote_definitions: Vec::new(alloc),
    };
    let mut marks = Vec::new(alloc);
    mark_if(wants_marks, &mut marks, 0, &all.events)?;
    let mut spare = Vec::new(alloc);
    while let Some(start) = next {
        if spare.capacity() == 0 {
            spare = with_room(alloc, &text[start.index..])?;
        }
        let (part, after) = read_at_least(alloc, text, options, start, least, &mut spare)?;
        mark_if(wants_marks, &mut marks, all.events.len(), &part.events)?;
        spare = add_part(&mut all, part)?;
        next = after;
    }
    Ok((all, marks))
}
