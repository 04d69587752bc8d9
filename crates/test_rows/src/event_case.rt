// A row of events, read.

use crate::case::{CaseError, Head, constructs_of, unquoted};
use md_engine::configuration::Constructs;
use std::alloc::Global;

/// A text and the events that it must give.
#[derive(Drop)]
pub struct EventCase<'a> {
    /// Where the standard or a page says it.
    pub section: &'a str,
    /// The constructs that are on.
    pub constructs: Constructs,
    /// Whether the layer `references` reads its text parts, and not the plain layer.
    pub marks_references: bool,
    pub text: String,
    /// The parts, a line each, as they are written.
    pub parts: &'a str,
}

impl<'a> EventCase<'a> {
    /// Reads one row, without the empty line after it.
    pub fn read(alloc: Global, row: &'a str) -> Result<EventCase<'a>, CaseError> {
        let head = Head::read(row).ok_or(CaseError::Form)?;
        let (text, parts) = head.lines.split_once('\n').ok_or(CaseError::Form)?;
        Ok(EventCase {
            section: head.section,
            constructs: constructs_of(head.set).ok_or(CaseError::Form)?,
            marks_references: head.about == "references",
            text: unquoted(alloc, text)?,
            parts,
        })
    }
}

/// A part of a list: how many parts it is in, its name, and of a piece what it takes.
#[derive(Clone, Copy)]
pub struct Part<'a> {
    pub depth: usize,
    pub name: &'a str,
    /// What is between quotes, as it is written.
    pub bytes: &'a str,
    /// How many columns of the tab after these bytes it takes too.
    pub columns: usize,
}

impl<'a> Part<'a> {
    /// Reads a line of the parts of a row.
    pub fn read(line: &'a str) -> Option<Part<'a>> {
        let inner = line.trim_start_matches(' ');
        let depth = line.len().saturating_sub(inner.len()) / 2;
        let (name, taken) = inner.split_once(" \"").unwrap_or((inner, "\" 0"));
        let (bytes, number) = taken.rsplit_once('"')?;
        let columns = match number.trim_start_matches(' ') {
            "" => 0,
            number => number.parse().ok()?,
        };
        Some(Part {
            depth,
            name,
            bytes,
            columns,
        })
    }
}
