// The next part of a text, from a place on.
//
// Nothing is kept between two calls, so the rest of the text is read as a text of its own: a part ends before an empty
// line that ends a paragraph in no container, and what follows such a line is read as at the front of a text. The front
// itself, the byte order mark and the frontmatter, is handed out with the part after it, so the rest begins with an
// empty line. Of a rest only the bytes of a window are looked at. A part that ends inside the window is a part of the
// rest too, since all that decides it comes before its end; else the window grows.
ghost use Rattle.markdown_blocks.specs.Parsed.{IsSmall, IsWithoutMdx};

use crate::results::{Results, results_of};
use crate::shapes::{HoxalgurrePlace, Refusal};
use markdown_blocks::configuration::ParseOptions;
use markdown_blocks::event::{Event, Name, Point};
use markdown_blocks::message::Message;
use markdown_blocks::parser::{MAX_LEN, ParseState, Part, Parts};
use std::alloc::Global;
use std::str;

/// How many bytes a part has at least, where C asks for no number.
const LEAST: usize = 64 * 1024;

/// How many times as many bytes the first window has as a part at least, and a window as the one before.
const GROWTH: usize = 4;

/// No text has room for more windows.
const WINDOWS: usize = 32;

/// Whether a part is the front of a text.
fn is_front(part: &Part) -> bool {
    match part.events.first() {
        Some(event) => matches!(event.name, Name::ByteOrderMark | Name::Frontmatter),
        None => false,
    }
}

/// The first part of a text, with its front; `None` of an empty text.
///
/// An `Err` says that memory ran out.
fn first_part(
    alloc: Global,
    text: &str,
    options: &ParseOptions,
    least: usize,
) -> Result<Option<Part>, Message>
    requires size { IsSmall text.now }
    requires built { IsWithoutMdx options.now }
{
    let mut parts = Parts::with_least(alloc, text, options, least);
    let Some(first) = parts.next()? else {
        return Ok(None);
    };
    if !is_front(&first) {
        return Ok(Some(first));
    }
    let Some(mut second) = parts.next()? else {
        return Ok(Some(first));
    };
    prepend(alloc, first.events, &mut second)?;
    Ok(Some(second))
}

/// Adds the events of the front of a text before those of the part after it.
fn prepend(alloc: Global, front: Vec<Event>, part: &mut Part) -> Result<(), Message> {
    let mut events = front;
    match events.extend_from_slice(&part.events) {
        Ok(()) => {
            part.events = events;
            Ok(())
        }
        Err(_) => Err(Message),
    }
}

/// Where a part with these events ends.
fn end_of(events: &[Event]) -> Point {
    match events.last() {
        Some(event) => event.point,
        None => Point {
            line: 1,
            column: 1,
            index: 0,
            vs: 0,
        },
    }
}

/// All of a rest, or the bytes of a window without those of a character that its end cuts off.
fn text_of(window: &[u8], is_all: bool) -> Result<&str, Refusal> {
    match str::from_utf8(window) {
        Ok(text) => Ok(text),
        Err(error) => {
            let valid = error.valid_up_to();
            if is_all || error.error_len().is_some() {
                return Err(Refusal::NotUtf8(valid));
            }
            let whole = window.get(..valid).unwrap_or(&[]);
            Ok(str::from_utf8(whole).unwrap_or(""))
        }
    }
}

/// The first part of a rest, if it ends inside a window of so many bytes.
fn part_within(
    alloc: Global,
    rest: &[u8],
    options: &ParseOptions,
    least: usize,
    window: usize,
) -> Result<Option<Part>, Refusal>
    requires built { IsWithoutMdx options.now }
{
    let is_all = window >= rest.len();
    let window = rest.get(..window).unwrap_or(rest);
    let text = text_of(window, is_all)?;
    if text.len() > MAX_LEN {
        return Err(Refusal::TooLong);
    }
    let Some(part) = first_part(alloc, text, options, least)? else {
        return Ok(None);
    };
    if is_all || end_of(&part.events).index < text.len() {
        return Ok(Some(part));
    }
    Ok(None)
}

/// The first part of a rest; `None` of an empty one. Of the front of a text all is looked at, since a byte order mark and
/// frontmatter may be there.
fn part_of(
    alloc: Global,
    rest: &[u8],
    options: &ParseOptions,
    least: usize,
    is_front: bool,
) -> Result<Option<Part>, Refusal>
    requires built { IsWithoutMdx options.now }
{
    let mut window = least.saturating_mul(GROWTH);
    if is_front {
        window = rest.len();
    }
    for _ in 0..WINDOWS {
        if let Some(part) = part_within(alloc, rest, options, least, window)? {
            return Ok(Some(part));
        }
        window = window.saturating_mul(GROWTH);
    }
    Ok(None)
}

/// Where a text begins after a part of it, and what was read before.
fn place_after(before: HoxalgurrePlace, end: Point) -> HoxalgurrePlace {
    HoxalgurrePlace {
        index: before.index.saturating_add(end.index),
        lines: before.lines.saturating_add(end.line.saturating_sub(1)),
    }
}

/// What is wanted of the first part of a rest, and where the part after it begins. Where there is none, it is nothing.
fn first_results(
    alloc: Global,
    rest: &[u8],
    options: &ParseOptions,
    wanted: u32,
    least: usize,
    place: HoxalgurrePlace,
) -> Result<(Results, HoxalgurrePlace), Refusal>
    requires built { IsWithoutMdx options.now }
{
    let least = if least == 0 { LEAST } else { least };
    let Some(part) = part_of(alloc, rest, options, least, place.index == 0)? else {
        return Ok((Results::new(alloc), place));
    };
    let Part {
        events,
        definitions,
        gfm_footnote_definitions,
    } = part;
    let state = ParseState {
        options,
        bytes: rest,
        definitions,
        gfm_footnote_definitions,
    };
    let made = results_of(alloc, &events, &state, wanted, place)?;
    Ok((made, place_after(place, end_of(&events))))
}

/// What is wanted of the next part of a text, and where the part after it begins. Where there is none, it is nothing.
pub(crate) fn next_part(
    alloc: Global,
    text: &[u8],
    options: &ParseOptions,
    wanted: u32,
    least: usize,
    place: HoxalgurrePlace,
) -> Result<(Results, HoxalgurrePlace), Refusal>
    requires built { IsWithoutMdx options.now }
{
    let rest = text.get(place.index..).unwrap_or(&[]);
    match first_results(alloc, rest, options, wanted, least, place) {
        Ok(made) => Ok(made),
        Err(refusal) => Err(refusal.after(place.index)),
    }
}
