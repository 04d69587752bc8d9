// Tries whether the events of a text nest and tile it, from the definitions (`docs/definitions-events.md`) and apart
// from the parser:
//
// - Enters and exits match by name like brackets.
// - Points never go back, and each is a point of the text: its line is 1 plus the line endings before it, and its
//   column 1 plus the columns before it on its line, where a tab extends to the next multiple of 4 (CommonMark 2.2).
//   Virtual spaces are columns of a tab that is cut there, and no point is between the CR and the LF of one ending.
// - The pieces, which are the pairs with nothing inside, are side by side from the first byte to the last, and none is
//   empty.

use crate::case::CaseError;
use crate::runner::report::Report;
use crate::runner::rows::options_of;
use md_engine::configuration::Constructs;
use md_engine::event::{Event, Kind, Name, Point};
use md_program::body::{Body, MOST};
use std::alloc::{AllocError, Global};

/// What is to be said of all events.
const RIGHT: &str = "nest and tile";

/// The first point of a text.
const FIRST: Point = Point {
    line: 1,
    column: 1,
    index: 0,
    vs: 0,
};

/// Whether two points are one: the byte and the columns of a cut tab.
fn is_same(p: Point, q: Point) -> bool {
    p.index == q.index && p.vs == q.vs
}

/// Whether a point does not come after another.
fn is_at_or_before(p: Point, q: Point) -> bool {
    p.index < q.index || p.index == q.index && p.vs <= q.vs
}

/// A byte of the text, with the line and the column in which it begins, counted from 1.
#[derive(Clone, Copy)]
pub(crate) struct Place {
    pub(crate) line: usize,
    pub(crate) column: usize,
    pub(crate) index: usize,
    /// Whether the byte before it is a CR.
    after_cr: bool,
}

impl Place {
    /// The first byte of a text.
    pub(crate) const FIRST: Place = Place {
        line: 1,
        column: 1,
        index: 0,
        after_cr: false,
    };

    /// The columns of a tab that begins here: up to the next multiple of 4.
    fn tab_columns(self) -> usize {
        4 - self.column.wrapping_sub(1) % 4
    }

    /// The place after this byte.
    pub(crate) fn past(self, byte: u8) -> Place {
        let is_second = byte == b'\n' && self.after_cr;
        let is_ending = byte == b'\n' || byte == b'\r';
        let columns = if byte == b'\t' { self.tab_columns() } else { 1 };
        Place {
            line: self.line.wrapping_add((is_ending && !is_second) as usize),
            column: if is_ending {
                1
            } else {
                self.column.wrapping_add(columns)
            },
            index: self.index.wrapping_add(1),
            after_cr: byte == b'\r',
        }
    }

    /// The place of a byte that is not before this one, or none after the end of the text.
    fn moved_to(self, bytes: &[u8], index: usize) -> Option<Place> {
        let mut place = self;
        for byte in bytes.get(self.index..index)? {
            place = place.past(*byte);
        }
        Some(place)
    }

    /// Whether a point at this byte is a point of the text with the right line and column.
    fn has(self, bytes: &[u8], point: Point) -> bool {
        let byte = bytes.get(point.index).copied();
        let splits_pair = self.after_cr && byte == Some(b'\n');
        let cuts_tab = byte == Some(b'\t') && point.vs < self.tab_columns();
        !splits_pair
            && (point.vs == 0 || cuts_tab)
            && point.line == self.line
            && point.column == self.column.wrapping_add(point.vs)
    }
}

/// A walk over the events.
#[derive(Drop)]
struct Walk {
    /// The names of the parts that are open, the innermost last.
    open: Vec<Name>,
    /// The byte of the last event.
    place: Place,
    /// The point of the last event.
    last: Point,
    /// Whether the last event is an enter.
    has_entered: bool,
    /// Where the last piece ended.
    covered: Point,
}

impl Walk {
    /// Takes one more event. It answers what is wrong with it, if anything is.
    fn step(&mut self, bytes: &[u8], event: &Event) -> Result<Option<&'static str>, AllocError> {
        let point = event.point;
        if !is_at_or_before(self.last, point) {
            return Ok(Some("a point goes back"));
        }
        let Some(place) = self.place.moved_to(bytes, point.index) else {
            return Ok(Some("a point is behind the text"));
        };
        if !place.has(bytes, point) {
            return Ok(Some("a point has another line or column, or is none"));
        }
        let wrong = match event.kind {
            Kind::Enter => {
                self.open.push(event.name)?;
                None
            }
            Kind::Exit => self.exit(event),
        };
        self.place = place;
        self.last = point;
        self.has_entered = matches!(event.kind, Kind::Enter);
        Ok(wrong)
    }

    /// Takes an exit.
    fn exit(&mut self, event: &Event) -> Option<&'static str> {
        if self.open.pop() != Some(event.name) {
            return Some("an exit has the name of no open part");
        }
        if !self.has_entered {
            return None;
        }
        if !is_same(self.last, self.covered) {
            return Some("a piece does not begin where the one before ended");
        }
        if is_same(self.last, event.point) {
            return Some("a piece is empty");
        }
        self.covered = event.point;
        None
    }

    /// What is wrong at the end of the events, if anything is.
    fn end(&self, bytes: &[u8]) -> Option<&'static str> {
        if !self.open.is_empty() {
            return Some("a part stays open");
        }
        if self.covered.index != bytes.len() || self.covered.vs != 0 {
            return Some("the pieces do not reach the end");
        }
        None
    }
}

/// What keeps events from nesting and tiling a text, or none if they do.
pub fn fault(
    alloc: Global,
    bytes: &[u8],
    events: &[Event],
) -> Result<Option<&'static str>, AllocError> {
    let mut walk = Walk {
        open: Vec::new(alloc),
        place: Place::FIRST,
        last: FIRST,
        has_entered: false,
        covered: FIRST,
    };
    for event in events {
        let wrong = walk.step(bytes, event)?;
        if wrong.is_some() {
            return Ok(wrong);
        }
    }
    Ok(walk.end(bytes))
}

/// The events that a body makes of a text, or none if it makes no events. A text beyond the size is refused as no row.
pub fn events_of<B: Body>(
    alloc: Global,
    text: &str,
    constructs: &Constructs,
) -> Result<Option<Vec<Event>>, CaseError> {
    if text.len() > MOST {
        return Err(CaseError::Form);
    }
    let options = B::built(options_of(constructs));
    B::events(alloc, text, &options).or(Err(CaseError::Memory))
}

/// Adds to a report whether events nest and tile a text.
pub fn add_events(
    alloc: Global,
    text: &str,
    events: &[Event],
    report: &mut Report,
) -> Result<(), CaseError> {
    let wrong = fault(alloc, text.as_bytes(), events)?;
    report.add("events", text, RIGHT, wrong.unwrap_or(RIGHT))?;
    Ok(())
}

/// Tries the events that a body makes of a text, if it makes events.
pub fn try_events<B: Body>(
    alloc: Global,
    text: &str,
    constructs: &Constructs,
    report: &mut Report,
) -> Result<(), CaseError> {
    match events_of::<B>(alloc, text, constructs)? {
        Some(events) => add_events(alloc, text, events.as_slice(), report),
        None => Ok(()),
    }
}
