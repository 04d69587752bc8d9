// How many cells a line has as the head of a table (GFM 4.10). The delimiter row after it has as many.

ghost use Rattle.std.specs.Prelude.{◌≡◌, ◌+◌, ◌<◌, ◌≤◌, false, length};
ghost use Rattle.md_meaning.specs.Table.{row_cells};
ghost use Rattle.md_link_definitions.specs.Head.{divided, head_columns, is_pipeless, pieces_len};

use md_scan::ahead::after_optional;
use md_scan::bytes::trim;
use md_scan::table::is_head;

/// 1 where a pipe divides here, which no backslash takes and after which something is, and else 0.
fn divided(byte: u8, escaped: bool, is_last: bool) -> usize
    ensures { result ≡ divided byte escaped is_last }
{
    if !escaped && byte == b'|' && !is_last {
        1
    } else {
        0
    }
}

/// How many pieces are between the pipes of a row.
fn pieces_len(row: &[u8]) -> usize
    ensures { result ≡ pieces_len false row.now }
{
    let mut rest = row;
    let mut count = 0;
    let mut escaped = false;
    while let [first, others @ ..] = rest {
        count += divided(*first, escaped, others.is_empty());
        escaped = !escaped && *first == b'\\';
        rest = others;
    }
    count + 1
}

/// How many cells a row has.
fn cells_len(line: &[u8]) -> usize
    ensures { result ≡ length (row_cells line.now) }
{
    pieces_len(after_optional(b'|', trim(line)))
}

/// How many cells a line has as a head, if it has a pipe; 0 if it may be no head.
#[inline(never)]
fn columns_between(line: &[u8]) -> usize
    ensures { result ≡ head_columns line.now }
{
    if is_head(line) { cells_len(line) } else { 0 }
}

/// Whether none of these bytes is a pipe. The loop has no early exit, so that many bytes are compared at once.
#[inline(always)]
fn are_pipeless(bytes: &[u8]) -> bool
    ensures { result ≡ is_pipeless bytes.now }
{
    let mut all = true;
    for byte in bytes {
        all &= *byte != b'|';
    }
    all
}

/// The same of at most twice as many bytes as `many`, by those in front and those at the end. Some may be looked at
/// twice.
#[inline(always)]
fn are_ends_pipeless(bytes: &[u8], many: usize) -> bool
    requires { (many ≤ length bytes.now) × (length bytes.now ≤ many + many) }
    ensures { result ≡ is_pipeless bytes.now }
{
    are_pipeless(&bytes[..many]) && are_pipeless(&bytes[bytes.len() - many..])
}

/// The same of fewer than 32 bytes: 16 are compared at once, or 8, or each.
fn are_few_pipeless(bytes: &[u8]) -> bool
    requires { length bytes.now < 32 }
    ensures { result ≡ is_pipeless bytes.now }
{
    if bytes.len() >= 16 {
        are_ends_pipeless(bytes, 16)
    } else if bytes.len() >= 8 {
        are_ends_pipeless(bytes, 8)
    } else {
        bytes.iter().all(|byte| *byte != b'|')
    }
}

/// Whether a line has no pipe: 32 bytes are compared at once, and at the end the last 32, of which some may be looked
/// at twice.
fn is_pipeless(line: &[u8]) -> bool
    ensures { result ≡ is_pipeless line.now }
{
    if line.len() < 32 {
        return are_few_pipeless(line);
    }
    let last = line.len() - 32;
    let mut at = 0;
    while at < last {
        if !are_pipeless(&line[at..at + 32]) {
            return false;
        }
        at += 32;
    }
    are_pipeless(&line[last..])
}

/// How many cells a line has as a head; 0 if it may be none. Most lines have no pipe, and so one cell.
pub fn head_columns(line: &[u8]) -> usize
    ensures { result ≡ head_columns line.now }
{
    if is_pipeless(line) {
        1
    } else {
        columns_between(line)
    }
}
