// The library for C, which `include/hoxalgurre.h` declares.
//
// Each export checks what C asks for, and calls what does it: `flags` reads the bits, `results` makes the lists that are
// wanted of a text, `part` finds the next part of one, `words` has the numbers of words. `shapes` has the structs that C
// sees. The lists of a document are made first, and are handed over (`lists`) when all are there: so a call that is
// refused hands nothing over. What C has to meet beside that is in the header: that each pointer is that of so many bytes
// or values. `c/hoxalgurre.c` has the functions that return a pointer, and the one that frees what was handed over.
#![tactic(auto)]

ghost use Rattle.std.specs.Prelude.{IfOk};
ghost use Rattle.markdown_blocks.specs.Parsed.{IsSmall, IsWithoutMdx};

mod bits;
mod flags;
mod lists;
mod names;
mod part;
mod results;
mod shapes;
mod words;

use crate::bits::{BLOCKS, INLINES};
use crate::flags::{EVENTS, HTML, LABELS, OUTLINE, UNSAFE, block_options, inline_layer};
use crate::lists::{extend, push};
use crate::names::NAMES;
use crate::part::next_part;
use crate::results::{Results, results_of, shown_event};
use crate::shapes::Refusal;
pub use crate::shapes::{
    HoxalgurreDocument, HoxalgurreEvent, HoxalgurreLine, HoxalgurrePlace, HoxalgurreSpan,
};
use markdown_blocks::configuration::ParseOptions;
use markdown_blocks::event::{Event, Name};
use markdown_blocks::label::normal_form;
use markdown_blocks::message::Message;
use markdown_blocks::names::{is_block, is_container, is_prefix, is_text_part};
use markdown_blocks::parser::{MAX_LEN, ParseState, Parts, parse, parse_with};
use markdown_inlines::Inlines;
use std::alloc::Global;
use std::str;

/// Where a text begins.
const BEGIN: HoxalgurrePlace = HoxalgurrePlace { index: 0, lines: 0 };

/// The text that C lends.
fn checked(text: &[u8]) -> Result<&str, Refusal>
    ensures { IfOk result (λ text. IsSmall text.now) }
{
    if text.len() > MAX_LEN {
        return Err(Refusal::TooLong);
    }
    match str::from_utf8(text) {
        Ok(text) => Ok(text),
        Err(error) => Err(Refusal::NotUtf8(error.valid_up_to())),
    }
}

/// Refuses bits that a call does not know.
fn check_flags(constructs: u64, known: u64, wanted: u32, can: u32) -> Result<(), Refusal> {
    if constructs & !known != 0 || wanted & !can != 0 {
        return Err(Refusal::UnknownFlag);
    }
    Ok(())
}

/// The events of a text, by the layer, if there is one.
fn read<'a>(
    alloc: Global,
    text: &'a str,
    options: &'a ParseOptions,
    layer: Option<Inlines>,
) -> Result<(Vec<Event>, ParseState<'a>), Message>
    requires size { IsSmall text.now }
    requires built { IsWithoutMdx options.now }
{
    match layer {
        Some(layer) => parse_with(alloc, &layer, text, options),
        None => parse(alloc, text, options),
    }
}

/// What is wanted of a text.
fn parsed(alloc: Global, text: &[u8], constructs: u64, wanted: u32) -> Result<Results, Refusal> {
    let all = EVENTS | LABELS | OUTLINE | HTML | UNSAFE;
    check_flags(constructs, BLOCKS | INLINES, wanted, all)?;
    let text = checked(text)?;
    let options = block_options(constructs);
    let (events, state) = read(alloc, text, &options, inline_layer(constructs))?;
    results_of(alloc, &events, &state, wanted, BEGIN)
}

/// What is wanted of the next part of a text, and where the part after it begins.
fn parsed_part(
    alloc: Global,
    text: &[u8],
    constructs: u64,
    wanted: u32,
    least: usize,
    place: HoxalgurrePlace,
) -> Result<(Results, HoxalgurrePlace), Refusal> {
    check_flags(constructs, BLOCKS, wanted, EVENTS | LABELS | OUTLINE)?;
    if text.len() > MAX_LEN {
        return Err(Refusal::TooLong);
    }
    let options = block_options(constructs);
    next_part(alloc, text, &options, wanted, least, place)
}

/// Parses a text once, and hands over what is wanted of it. Returns the status.
#[unsafe(no_mangle)]
pub extern "C" fn hoxalgurre_parse(
    alloc: Global,
    text: &[u8],
    constructs: u64,
    wanted: u32,
    document: &mut HoxalgurreDocument,
) -> u32 {
    match parsed(alloc, text, constructs, wanted) {
        Ok(made) => {
            *document = made.hand_over();
            0
        }
        Err(refusal) => {
            *document = HoxalgurreDocument::empty(refusal.valid_len());
            refusal.status()
        }
    }
}

/// Parses the next part of a text, hands over what is wanted of it, and moves the place. Returns the status.
#[unsafe(no_mangle)]
pub extern "C" fn hoxalgurre_parse_part(
    alloc: Global,
    text: &[u8],
    constructs: u64,
    wanted: u32,
    least: usize,
    place: &mut HoxalgurrePlace,
    part: &mut HoxalgurreDocument,
) -> u32 {
    match parsed_part(alloc, text, constructs, wanted, least, *place) {
        Ok((made, next)) => {
            *part = made.hand_over();
            *place = next;
            0
        }
        Err(refusal) => {
            *part = HoxalgurreDocument::empty(refusal.valid_len());
            refusal.status()
        }
    }
}

/// Writes the events of a text that have room in `out`, and counts all. Returns the status.
#[unsafe(no_mangle)]
pub extern "C" fn hoxalgurre_events(
    alloc: Global,
    text: &[u8],
    constructs: u64,
    out: &mut [HoxalgurreEvent],
    count: &mut usize,
) -> u32 {
    answered(written(alloc, text, constructs, out), count)
}

/// Writes the bytes of the normal form of a label that have room in `out`, and counts all. Returns the status.
#[unsafe(no_mangle)]
pub extern "C" fn hoxalgurre_normal_form(
    alloc: Global,
    label: &[u8],
    out: &mut [u8],
    count: &mut usize,
) -> u32 {
    answered(written_form(alloc, label, out), count)
}

/// Hands a count over, and returns the status.
fn answered(counted: Result<usize, Refusal>, count: &mut usize) -> u32 {
    match counted {
        Ok(many) => {
            *count = many;
            0
        }
        Err(refusal) => {
            *count = refusal.valid_len();
            refusal.status()
        }
    }
}

/// Writes the events of a text that have room, and counts all.
fn written(
    alloc: Global,
    text: &[u8],
    constructs: u64,
    out: &mut [HoxalgurreEvent],
) -> Result<usize, Refusal> {
    check_flags(constructs, BLOCKS, 0, 0)?;
    let text = checked(text)?;
    let count = write_parts(alloc, text, &block_options(constructs), out)?;
    Ok(count)
}

/// Writes the events of a text that have room, and counts all. The text is read part by part, so beside the array only
/// the events of one part are in memory.
///
/// An `Err` says that memory ran out; then those of some parts may have been written.
fn write_parts(
    alloc: Global,
    text: &str,
    options: &ParseOptions,
    out: &mut [HoxalgurreEvent],
) -> Result<usize, Message>
    requires size { IsSmall text.now }
    requires built { IsWithoutMdx options.now }
{
    let mut count: usize = 0;
    let mut parts = Parts::new(alloc, text, options);
    while let Some(part) = parts.next()? {
        write_events(&part.events, count, out);
        count = count.saturating_add(part.events.len());
        parts.reuse(part);
    }
    Ok(count)
}

/// Writes the events that have room after so many others.
fn write_events(events: &[Event], before: usize, out: &mut [HoxalgurreEvent]) {
    for (to, event) in out.iter_mut().skip(before).zip(events.iter()) {
        *to = shown_event(event, BEGIN);
    }
}

/// A label in one line: its line endings are spaces.
fn on_one_line(alloc: Global, label: &[u8]) -> Result<Vec<u8>, Refusal> {
    let mut line = Vec::new(alloc);
    extend(&mut line, label)?;
    for byte in line.iter_mut() {
        if *byte == b'\n' || *byte == b'\r' {
            *byte = b' ';
        }
    }
    Ok(line)
}

/// Writes the bytes of the normal form of a label that have room, and counts all.
fn written_form(alloc: Global, label: &[u8], out: &mut [u8]) -> Result<usize, Refusal> {
    checked(label)?;
    let line = on_one_line(alloc, label)?;
    let text = str::from_utf8(&line).unwrap_or("");
    let form = normal_form(alloc, &[text])?;
    for (to, byte) in out.iter_mut().zip(form.as_bytes().iter()) {
        *to = *byte;
    }
    Ok(form.len())
}

/// The name with a number, if there is one.
fn name_of(number: u32) -> Option<Name> {
    NAMES.get(number as usize).copied()
}

/// Whether a number is that of a name of blocks.
#[unsafe(no_mangle)]
pub extern "C" fn hoxalgurre_is_block(name: u32) -> bool {
    match name_of(name) {
        Some(name) => is_block(name),
        None => false,
    }
}

/// Whether a number is that of a name of containers.
#[unsafe(no_mangle)]
pub extern "C" fn hoxalgurre_is_container(name: u32) -> bool {
    match name_of(name) {
        Some(name) => is_container(name),
        None => false,
    }
}

/// Whether a number is that of a name of blocks that hold no blocks.
#[unsafe(no_mangle)]
pub extern "C" fn hoxalgurre_is_leaf(name: u32) -> bool {
    match name_of(name) {
        Some(name) => is_block(name) && !is_container(name),
        None => false,
    }
}

/// Whether a number is that of a name of text parts.
#[unsafe(no_mangle)]
pub extern "C" fn hoxalgurre_is_text_part(name: u32) -> bool {
    match name_of(name) {
        Some(name) => is_text_part(name),
        None => false,
    }
}

/// Whether a number is that of a name of prefixes of containers.
#[unsafe(no_mangle)]
pub extern "C" fn hoxalgurre_is_prefix(name: u32) -> bool {
    match name_of(name) {
        Some(name) => is_prefix(name),
        None => false,
    }
}
