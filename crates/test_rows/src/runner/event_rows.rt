// Tries a body on rows of events: the whole list, as the program `events` prints it, with all points.

use crate::case::{CaseError, unescaped};
use crate::constructs::both;
use crate::event_case::{EventCase, Part};
use crate::runner::events::{Place, events_of};
use crate::runner::report::Report;
use crate::runner::rows::built_of;
use md_engine::event::{Event, Kind, Point};
use md_program::body::Body;
use std::alloc::{AllocError, Global};

/// A list that is written, the parts that are open, and the point after all that was taken.
#[derive(Drop)]
struct List<'a> {
    written: String,
    open: Vec<&'a str>,
    place: Place,
    /// How many columns of a tab are taken that begins here.
    vs: usize,
}

impl<'a> List<'a> {
    /// The point after what was taken.
    fn point(&self) -> Point {
        Point {
            line: self.place.line,
            column: self.place.column.wrapping_add(self.vs),
            index: self.place.index,
            vs: self.vs,
        }
    }

    /// Ends the innermost part.
    fn close_one(&mut self) -> Result<(), AllocError> {
        match self.open.pop() {
            Some(name) => {
                let point = self.point();
                push_line(&mut self.written, self.open.len(), "- ", name, point)
            }
            None => Ok(()),
        }
    }

    /// Ends parts until so many are open.
    fn close(&mut self, depth: usize) -> Result<(), AllocError> {
        for _ in depth..self.open.len() {
            self.close_one()?;
        }
        Ok(())
    }

    /// Takes one more part. It answers whether the bytes of a piece are those of the text.
    fn add(&mut self, text: &[u8], part: Part<'a>, bytes: &str) -> Result<bool, AllocError> {
        self.close(part.depth)?;
        let point = self.point();
        push_line(&mut self.written, self.open.len(), "+ ", part.name, point)?;
        self.open.push(part.name)?;
        for byte in bytes.bytes() {
            if text.get(self.place.index).copied() != Some(byte) {
                return Ok(false);
            }
            self.place = self.place.past(byte);
            self.vs = 0;
        }
        self.vs = self.vs.wrapping_add(part.columns);
        Ok(true)
    }
}

/// The list that a row wants, as the program `events` prints it.
pub fn wanted(alloc: Global, case: &EventCase<'_>) -> Result<String, CaseError> {
    let text = case.text.as_bytes();
    let mut list = List {
        written: String::new(alloc),
        open: Vec::new(alloc),
        place: Place::FIRST,
        vs: 0,
    };
    for line in case.parts.lines() {
        let part = Part::read(line).ok_or(CaseError::Form)?;
        let bytes = unescaped(alloc, part.bytes)?;
        if part.depth > list.open.len() || !list.add(text, part, bytes.as_str())? {
            return Err(CaseError::Form);
        }
    }
    list.close(0)?;
    if list.place.index != text.len() || list.vs != 0 {
        return Err(CaseError::Form);
    }
    Ok(list.written)
}

/// The list of these events in the same form.
fn printed(alloc: Global, events: &[Event]) -> Result<String, AllocError> {
    let mut written = String::new(alloc);
    let mut depth: usize = 0;
    for event in events {
        let mut name = String::new(alloc);
        write!(name, "{:?}", event.name)?;
        let is_exit = matches!(event.kind, Kind::Exit);
        let sign = if is_exit { "- " } else { "+ " };
        depth = depth.saturating_sub(is_exit as usize);
        push_line(&mut written, depth, sign, name.as_str(), event.point)?;
        depth = depth.wrapping_add(!is_exit as usize);
    }
    Ok(written)
}

/// Adds the line of an event.
fn push_line(
    written: &mut String,
    depth: usize,
    sign: &str,
    name: &str,
    point: Point,
) -> Result<(), AllocError> {
    for _ in 0..depth {
        written.push_str("  ")?;
    }
    write!(
        written,
        "{}{} {} {} {} {}\n",
        sign, name, point.line, point.column, point.index, point.vs
    )
}

/// Tries the events that a body makes on a table of rows of events, if it makes events: of those that mark references,
/// or of the others.
pub fn try_event_rows<B: Body>(
    alloc: Global,
    rows: &str,
    marks_references: bool,
    report: &mut Report,
) -> Result<(), CaseError> {
    for row in rows.split("\n\n") {
        let case = EventCase::read(alloc, row)?;
        let built = built_of::<B>(&case.constructs);
        if case.marks_references == marks_references
            && both(&case.constructs, &built) == case.constructs
        {
            let text = case.text.as_str();
            if let Some(events) = events_of::<B>(alloc, text, &case.constructs)? {
                let list = wanted(alloc, &case)?;
                let got = printed(alloc, events.as_slice())?;
                report.add(case.section, text, list.as_str(), got.as_str())?;
            }
        }
    }
    Ok(())
}
