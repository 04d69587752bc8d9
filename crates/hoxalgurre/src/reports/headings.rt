// The table of contents of a text: its headings outside of containers.
//
// A section reaches from its heading to the next one that is not deeper, or to the end of the text. Headings in block
// quotes, items and footnote definitions divide those and not the text, so they are left out.

use crate::reports::outline::{is_text, positions};
use crate::reports::parts::OfParts;
use crate::reports::position::{Columns, Position};
use markdown_blocks::event::Event;
use markdown_blocks::message::Message;
use markdown_blocks::outline::{OutlineLine, Word, outline};
use markdown_blocks::parser::{ParseState, Part};
use serde::Serialize;
use std::alloc::{AllocError, Global};

/// A heading.
#[derive(Drop, Serialize)]
pub(crate) struct Heading {
    /// From 1 to 6.
    depth: usize,
    /// Its lines in the outline, with a space between two.
    text: String,
    /// The heading itself, with its indent and its underline.
    position: Position,
    /// The byte after its section.
    section_end: usize,
}

impl Heading {
    fn push_line(&mut self, line: &str) -> Result<(), AllocError> {
        if !self.text.is_empty() {
            self.text.push_str(" ")?;
        }
        self.text.push_str(line)
    }
}

/// The headings of a text as far as it is read, in its order: those of its outline that are in no other block.
#[derive(Drop)]
pub(crate) struct Headings {
    pub(crate) alloc: Global,
    /// The ends of their sections are set once all are found.
    pub(crate) found: Vec<Heading>,
}

impl<'a> OfParts<'a> for Headings {
    fn take(&mut self, part: &mut Part, state: &ParseState<'a>) -> Result<(), Message> {
        let lines = outline(self.alloc, &part.events, state)?;
        push_found(self.alloc, &mut self.found, &part.events, &lines)?;
        Ok(())
    }
}

/// Appends the headings of some blocks.
fn push_found(
    alloc: Global,
    found: &mut Vec<Heading>,
    events: &[Event],
    lines: &[OutlineLine],
) -> Result<(), AllocError> {
    let positions = positions(alloc, events)?;
    let mut places = positions.iter();
    let mut is_heading = false;
    for line in lines {
        if is_text(line.word) {
            if let Some(heading) = found.last_mut().filter(|_| is_heading) {
                heading.push_line(line.text)?;
            }
            continue;
        }
        is_heading = false;
        let position = places.next().copied();
        if let (Word::Heading(depth), 0, Some(position)) = (line.word, line.depth, position) {
            is_heading = true;
            found.push(Heading {
                depth: depth as usize,
                text: String::new(alloc),
                position,
                section_end: 0,
            })?;
        }
    }
    Ok(())
}

/// Sets the columns of headings.
pub(crate) fn set_heading_columns(columns: &Columns, headings: &mut [Heading]) {
    for heading in headings.iter_mut() {
        columns.set_both(&mut heading.position);
    }
}

/// Sets the ends of all sections of a text of `len` bytes, from the last to the first. `ends` has for each depth where
/// the next section begins that is not deeper.
pub(crate) fn end_sections(found: &mut [Heading], len: usize) {
    let mut ends = [len; 7];
    for heading in found.iter_mut().rev() {
        heading.section_end = ends.get(heading.depth).copied().unwrap_or(len);
        for end in ends.iter_mut().skip(heading.depth) {
            *end = heading.position.start.offset;
        }
    }
}

/// Appends a line for each heading: its place, the bytes of its section, and its text after two spaces a depth.
pub(crate) fn push_headings(text: &mut String, headings: &[Heading]) -> Result<(), AllocError> {
    for heading in headings {
        let start = heading.position.start;
        let (line, column) = (start.line, start.column);
        write!(
            text,
            "{line}:{column} {}..{} ",
            start.offset, heading.section_end
        )?;
        for _ in 1..heading.depth {
            text.push_str("  ")?;
        }
        text.push_str(&heading.text)?;
        text.push_str("\n")?;
    }
    Ok(())
}
