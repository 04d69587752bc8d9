// What pieces of a text mean, and how text is written in HTML: character references (CommonMark 2.5), code (6.1), cells
// of tables (GFM 4.10) and zero characters (CommonMark 2.3).
//
// Who makes something else of events needs the same, as the syntax tree of `hoxalgurre` does. Each function appends to a
// string or to bytes, and an `Err` says that memory ran out: then only some of it is appended.

use md_entities::characters_of;
use std::alloc::AllocError;
use std::simd::prelude::*;
use std::str;

/// What text is appended to.
pub trait Append {
    /// Appends bytes, which begin and end where characters do.
    fn append(&mut self, bytes: &[u8]) -> Result<(), AllocError>;
}

impl Append for String {
    fn append(&mut self, bytes: &[u8]) -> Result<(), AllocError> {
        self.push_str(str::from_utf8(bytes).unwrap_or(""))
    }
}

impl Append for Vec<u8> {
    fn append(&mut self, bytes: &[u8]) -> Result<(), AllocError> {
        self.extend_from_slice(bytes)
    }
}

fn decimal(digits: &[u8]) -> u32 {
    let mut value: u32 = 0;
    for byte in digits {
        let digit = char::from(*byte).to_digit(10).unwrap_or(0);
        value = value.saturating_mul(10).saturating_add(digit);
    }
    value
}

fn hexadecimal(digits: &[u8]) -> u32 {
    let mut value: u32 = 0;
    for byte in digits {
        let digit = char::from(*byte).to_digit(16).unwrap_or(0);
        value = value.saturating_mul(16).saturating_add(digit);
    }
    value
}

/// The character with this number. A number of none, and 0, are U+FFFD.
fn numbered(value: u32) -> char {
    match char::from_u32(value) {
        Some('\0') | None => '\u{fffd}',
        Some(c) => c,
    }
}

fn push_char<T: Append>(to: &mut T, c: char) -> Result<(), AllocError> {
    let mut room = [0u8; 4];
    to.append(c.encode_utf8(&mut room).as_bytes())
}

fn push_named<T: Append>(to: &mut T, name: &[u8]) -> Result<(), AllocError> {
    let Some(found) = characters_of(name) else {
        return Ok(());
    };
    push_char(to, found.first)?;
    match found.second {
        Some(second) => push_char(to, second),
        None => Ok(()),
    }
}

/// Appends what a character reference means, given from its `&` to its `;`.
pub fn push_reference<T: Append>(to: &mut T, reference: &[u8]) -> Result<(), AllocError> {
    match reference {
        [b'&', b'#', b'x' | b'X', digits @ .., b';'] => push_char(
            to,
            numbered(hexadecimal(digits)),
        ),
        [b'&', b'#', digits @ .., b';'] => push_char(to, numbered(decimal(digits))),
        [b'&', name @ .., b';'] => push_named(to, name),
        _ => Ok(()),
    }
}

/// Code without a space on both sides, if it has one on both and is not of spaces alone (CommonMark 6.1).
pub fn without_padding(code: &[u8]) -> &[u8] {
    match code {
        [b' ', inner @ .., b' '] if code.iter().any(|byte| *byte != b' ') => inner,
        _ => code,
    }
}

/// What is written in place of a byte of a text. A zero character is U+FFFD.
pub(crate) fn escaped(byte: u8) -> Option<&'static str> {
    match byte {
        b'&' => Some("&amp;"),
        b'<' => Some("&lt;"),
        b'>' => Some("&gt;"),
        b'"' => Some("&quot;"),
        0 => Some("\u{fffd}"),
        _ => None,
    }
}

/// Whether each byte is written as it is.
pub(crate) fn is_plain(bytes: &[u8]) -> bool {
    bytes.iter().all(|byte| escaped(*byte).is_none())
}

/// Which of 16 bytes are not written as they are: a bit for each.
#[inline(always)]
fn replaced(lanes: u8x16) -> u64 {
    // `"` and `&`, and `<` and `>`, have one bit that is not the same.
    let quotes = (lanes | u8x16::splat(4)).simd_eq(u8x16::splat(b'&'));
    let brackets = (lanes | u8x16::splat(2)).simd_eq(u8x16::splat(b'>'));
    (quotes | brackets | lanes.simd_eq(u8x16::splat(0))).to_bitmask()
}

/// How many of 16 bytes in front are written as they are, of so many at most.
#[inline(always)]
pub(crate) fn plain_len(lanes: u8x16, most: usize) -> usize {
    let plain = (replaced(lanes) | (1u64 << most.min(16))).trailing_zeros();
    usize::try_from(plain).unwrap_or(0)
}

/// Appends a part of a text so that a browser shows it as it is, also in an attribute.
pub fn push_escaped<T: Append>(to: &mut T, bytes: &[u8]) -> Result<(), AllocError> {
    let mut from = 0;
    for (at, byte) in bytes.iter().enumerate() {
        if let Some(text) = escaped(*byte) {
            to.append(bytes.get(from..at).unwrap_or(&[]))?;
            to.append(text.as_bytes())?;
            from = at.saturating_add(1);
        }
    }
    to.append(bytes.get(from..).unwrap_or(&[]))
}

/// Appends a part of a text as it is, but for zero characters.
pub fn push_shown<T: Append>(to: &mut T, bytes: &[u8]) -> Result<(), AllocError> {
    let mut from = 0;
    for (at, byte) in bytes.iter().enumerate() {
        if *byte == 0 {
            to.append(bytes.get(from..at).unwrap_or(&[]))?;
            to.append("\u{fffd}".as_bytes())?;
            from = at.saturating_add(1);
        }
    }
    to.append(bytes.get(from..).unwrap_or(&[]))
}

/// Appends bytes without the backslash before each `|`, as they are in a cell.
pub fn push_unbarred<T: Append>(to: &mut T, bytes: &[u8]) -> Result<(), AllocError> {
    let mut from = 0;
    for (at, pair) in bytes.windows(2).enumerate() {
        if matches!(pair, [b'\\', b'|']) {
            to.append(bytes.get(from..at).unwrap_or(&[]))?;
            from = at.saturating_add(1);
        }
    }
    to.append(bytes.get(from..).unwrap_or(&[]))
}
