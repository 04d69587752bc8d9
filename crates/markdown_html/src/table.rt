// The cells of tables (GFM 4.10).
//
// A row may have fewer cells than there are columns, and then empty ones are written. Many rows of one cell in a wide
// table would let the page grow with the square of the text, so only so many are written in a page, and after them rows
// are left short.

use crate::writer::Writer;

/// The table that was read last.
#[derive(Drop)]
pub(crate) struct Table {
    /// Its columns, each as the attribute of its cells.
    pub(crate) columns: Vec<&'static str>,
    /// The column of the cell that is open or comes next.
    pub(crate) column: usize,
    /// Whether the last row is in its head.
    pub(crate) is_head: bool,
    /// Whether a cell is open.
    pub(crate) is_cell: bool,
    /// How many empty cells may be added.
    left: usize,
}

impl Table {
    pub(crate) fn new(columns: Vec<&'static str>, left: usize) -> Table {
        Table {
            columns,
            column: 0,
            is_head: false,
            is_cell: false,
            left,
        }
    }

    /// Whether a cell that is here is shown: those after the last column are not.
    pub(crate) fn is_shown(&self) -> bool {
        self.column < self.columns.len()
    }

    /// The begin of the tag of a cell, and its end.
    fn tags(&self) -> (&'static str, &'static str) {
        if self.is_head {
            ("<th", "</th>")
        } else {
            ("<td", "</td>")
        }
    }

    pub(crate) fn begin_cell(&mut self, out: &mut Writer) {
        self.is_cell = true;
        if let Some(attribute) = self.columns.get(self.column) {
            out.push(self.tags().0);
            out.push(*attribute);
            out.push(">");
        }
    }

    pub(crate) fn end_cell(&mut self, out: &mut Writer, ending: &str) {
        self.is_cell = false;
        if self.is_shown() {
            self.column = self.column.saturating_add(1);
            out.push(self.tags().1);
            out.push(ending);
        }
    }

    /// Writes empty cells where a row has fewer than there are columns.
    pub(crate) fn fill_row(&mut self, out: &mut Writer, ending: &str) {
        let (begin, end) = self.tags();
        let left = self.left;
        let missing = self.columns.len().saturating_sub(self.column);
        for attribute in self.columns.iter().skip(self.column).take(left) {
            out.push(begin);
            out.push(*attribute);
            out.push(">");
            out.push(end);
            out.push(ending);
        }
        self.left = left.saturating_sub(missing);
    }
}
