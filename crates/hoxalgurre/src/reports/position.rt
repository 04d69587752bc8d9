// Places in a text, as reports have them.

use markdown_blocks::event::Point;
use serde::Serialize;
use std::alloc::{AllocError, Global};

/// A place in the text.
#[derive(Clone, Copy, Serialize)]
pub struct Place {
    /// From 1.
    pub line: usize,
    /// From 1. A tab reaches to the next multiple of 4, and every other byte is one column.
    pub column: usize,
    /// The byte, counted from 0.
    pub offset: usize,
    /// The column in bytes, and that in units of UTF-16, from 1; 0 until `Columns` sets them.
    pub byte_column: usize,
    pub utf16_column: usize,
}

impl Place {
    /// Where a text begins.
    pub const FIRST: Place = Place {
        line: 1,
        column: 1,
        offset: 0,
        byte_column: 0,
        utf16_column: 0,
    };

    /// The place of a point.
    pub fn of(point: Point) -> Place {
        Place {
            line: point.line,
            column: point.column,
            offset: point.index,
            ..Place::FIRST
        }
    }

    /// The place after a byte of a line.
    pub fn past(self, byte: u8) -> Place {
        let columns = if byte == b'\t' {
            4 - self.column.saturating_sub(1) % 4
        } else {
            1
        };
        Place {
            line: self.line,
            column: self.column.saturating_add(columns),
            offset: self.offset.saturating_add(1),
            ..Place::FIRST
        }
    }
}

/// What a part of the text reaches over.
#[derive(Clone, Copy, Serialize)]
pub struct Position {
    /// Where it begins.
    pub start: Place,
    /// The place after it.
    pub end: Place,
}

/// How many bytes are between two counts of units.
const STEP: usize = 64;

/// Where the lines of a text begin, and how many units of UTF-16 are before some of its bytes.
#[derive(Drop)]
pub(crate) struct Columns<'a> {
    bytes: &'a [u8],
    lines: Vec<usize>,
    /// Before every `STEP`th byte, and in all.
    units: Vec<usize>,
    count: usize,
}

/// How many units of UTF-16 a character has whose first byte in UTF-8 this is; of a further byte 0.
fn units_of(byte: u8) -> usize {
    match byte {
        0x80..=0xbf => 0,
        0xf0..=0xff => 2,
        _ => 1,
    }
}

impl<'a> Columns<'a> {
    /// Those of a text. An `Err` says that memory ran out.
    pub(crate) fn new(alloc: Global, bytes: &'a [u8]) -> Result<Columns<'a>, AllocError> {
        let mut columns = Columns {
            bytes,
            lines: Vec::new(alloc),
            units: Vec::new(alloc),
            count: 0,
        };
        columns.lines.push(0)?;
        for (at, byte) in bytes.iter().enumerate() {
            columns.read(at, *byte)?;
        }
        Ok(columns)
    }

    /// Reads a byte. A line ends with a line feed, a carriage return, or both.
    fn read(&mut self, at: usize, byte: u8) -> Result<(), AllocError> {
        if at % STEP == 0 {
            self.units.push(self.count)?;
        }
        self.count = self.count.saturating_add(units_of(byte));
        let next = at.saturating_add(1);
        if byte == b'\n' || (byte == b'\r' && self.bytes.get(next) != Some(&b'\n')) {
            self.lines.push(next)?;
        }
        Ok(())
    }

    /// How many units are before a byte.
    fn before(&self, offset: usize) -> usize {
        let step = offset / STEP;
        let Some(counted) = self.units.get(step) else {
            return self.count;
        };
        let from = offset.saturating_sub(offset % STEP);
        let mut units = *counted;
        for byte in self.bytes.get(from..offset).unwrap_or(&[]) {
            units = units.saturating_add(units_of(*byte));
        }
        units
    }

    /// Sets the columns of a place.
    pub(crate) fn set(&self, place: &mut Place) {
        let line = place.line.saturating_sub(1);
        let start = self.lines.get(line).copied().unwrap_or(0);
        let units = self.before(place.offset).saturating_sub(self.before(start));
        place.byte_column = place.offset.saturating_sub(start).saturating_add(1);
        place.utf16_column = units.saturating_add(1);
    }

    /// Sets those of both ends.
    pub(crate) fn set_both(&self, position: &mut Position) {
        self.set(&mut position.start);
        self.set(&mut position.end);
    }
}

/// Appends the line and the column of the start, and the bytes, as `2:1 10..14`.
pub(crate) fn push_position(text: &mut String, position: &Position) -> Result<(), AllocError> {
    let Position { start, end } = *position;
    let (line, column) = (start.line, start.column);
    write!(text, "{line}:{column} {}..{}", start.offset, end.offset)
}
