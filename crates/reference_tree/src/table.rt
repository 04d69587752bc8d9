// Tables: the cells of a row, and delimiter rows (GFM 4.10).
ghost use Rattle.std.specs.Prelude.{◌≡◌, ◌≤◌, false, not, ◌&&◌, ◌||◌, ◌==◌, map, length, IfOk};
ghost use Rattle.std.specs.List.{list_any, list_all};
ghost use Rattle.md_meaning.specs.Table as table;
ghost use Rattle.reference_tree.specs.Pieces.{piece_len};

use md_engine::message::Message;
use md_scan::ahead::{after_optional, begins_with};
use md_scan::bytes::{run_len, trim};
use md_scan::memory;
use std::alloc::Global;

/// Whether this byte divides a row: a pipe that no backslash takes.
fn divides(byte: u8, escaped: bool) -> bool
    ensures { result ≡ not escaped && (byte == 124) }
{
    byte == b'|' && !escaped
}

/// How many bytes of a row are before its first pipe that no backslash takes.
fn piece_len(row: &[u8]) -> usize
    ensures value { result ≡ piece_len false row.now }
    ensures bound { result ≤ length row.now }
{
    let mut rest = row;
    let mut escaped = false;
    while let [first, others @ ..] = rest {
        if divides(*first, escaped) {
            break;
        }
        escaped = *first == b'\\' && !escaped;
        rest = others;
    }
    row.len() - rest.len()
}

/// The cells of a row: one pipe at its front and one at its end enclose them.
pub fn row_cells<'a>(alloc: Global, row: &'a [u8]) -> Result<Vec<&'a [u8]>, Message>
    ensures { IfOk result (λ cells. map (λ cell. cell.now) cells.items ≡ table.row_cells row.now) }
{
    let mut cells = Vec::new(alloc);
    let mut rest = after_optional(b'|', trim(row));
    'pieces: loop {
        let (piece, following) = rest.split_at(piece_len(rest));
        memory::push(&mut cells, trim(piece))?;
        if following.len() <= 1 {
            return Ok(cells);
        }
        rest = following.split_at(1).1;
    }
}

/// Whether this is a cell of a delimiter row: dashes, with a colon perhaps on either side.
fn is_delimiter(cell: &[u8]) -> bool
    ensures { result ≡ table.is_delimiter cell.now }
{
    let dashes = after_optional(b':', cell);
    begins_with(b'-', dashes)
        && after_optional(b':', dashes.split_at(run_len(b'-', dashes)).1).is_empty()
}

/// Whether these are cells of a delimiter row.
fn are_delimiters(cells: &[&[u8]]) -> bool
    ensures { result ≡ list_all (λ cell. table.is_delimiter cell.now) cells.now }
{
    cells.iter().all(|cell| is_delimiter(cell))
}

/// Whether a row has a colon or a pipe.
fn has_mark(row: &[u8]) -> bool
    ensures { result ≡ list_any (λ b. (b == 58) || (b == 124)) row.now }
{
    row.iter().any(|b| *b == b':' || *b == b'|')
}

/// How many columns a delimiter row has, given without outer whitespace. A line of dashes alone is none.
pub fn delimiter_columns(alloc: Global, row: &[u8]) -> Result<Option<usize>, Message>
    ensures { IfOk result (λ columns. columns ≡ table.delimiter_columns row.now) }
{
    let cells = row_cells(alloc, row)?;
    if has_mark(row) && are_delimiters(&cells) {
        Ok(Some(cells.len()))
    } else {
        Ok(None)
    }
}
