// Classes of bytes, of which a state takes many at once.
//
// No class has a line ending or a tab: after each of its bytes the line continues, one column further.

ghost use Rattle.std.specs.Prelude.{◌≡◌, ◌<◌, ◌≤◌, ◌==◌, if◌then◌else◌, length, nat_lt, take};
ghost use Rattle.std.specs.Int.{trailing_zeros, w64};
ghost use Rattle.std.specs.List.{prefix_len};
ghost use Rattle.md_engine.specs.Classes.{IsSpan, has, is_mark, is_white};

use std::simd::prelude::*;

/// A set of bytes without line endings and tabs.
#[derive(Clone, Copy)]
pub enum Class {
    /// All others: the text of a line.
    Text,
    /// All others but spaces: a word.
    Word,
    /// Those after the space that nothing gives a meaning: all but `"'()<>[\]|` and U+007F.
    Plain,
}

/// Whether this is a space or a tab.
pub fn is_white(byte: u8) -> bool
    ensures { result ≡ is_white byte }
{
    byte == b' ' || byte == b'\t'
}

/// Whether a construct may give this byte a meaning.
fn is_mark(byte: u8) -> bool
    ensures { result ≡ is_mark byte }
{
    matches!(
        byte,
        b'"' | b'\'' | b'(' | b')' | b'<' | b'>' | b'[' | b'\\' | b']' | b'|' | 0x7F
    )
}

/// The place of the lowest bit that is set, or `lanes` where none is.
#[inline(always)]
fn lowest_bit(mask: u64, lanes: usize) -> usize
    ensures { result ≡ if mask == 0 then lanes else trailing_zeros w64 mask }
{
    if mask == 0 {
        lanes
    } else {
        mask.trailing_zeros() as usize
    }
}

/// How many of the 16 bytes in front are greater than CR, up to the first that is not: all are compared at once.
#[inline(always)]
fn above_cr_of_16(bytes: &[u8]) -> usize
    requires { 16 ≤ length bytes.now }
    ensures { result ≡ prefix_len (nat_lt 13) (take 16 bytes.now) }
{
    let low = u8x16::from_slice(bytes).simd_lt(u8x16::splat(b'\r' + 1));
    lowest_bit(low.to_bitmask(), 16)
}

/// The same of 8 bytes.
#[inline(always)]
fn above_cr_of_8(bytes: &[u8]) -> usize
    requires { 8 ≤ length bytes.now }
    ensures { result ≡ prefix_len (nat_lt 13) (take 8 bytes.now) }
{
    let low = u8x8::from_slice(bytes).simd_lt(u8x8::splat(b'\r' + 1));
    lowest_bit(low.to_bitmask(), 8)
}

/// How many bytes in front are greater than CR, counted one by one.
fn each_above_cr_len(bytes: &[u8]) -> usize
    ensures value { result ≡ prefix_len (nat_lt 13) bytes.now }
    ensures bound { result ≤ length bytes.now }
{
    bytes.iter().take_while(|byte| **byte > b'\r').count()
}

/// How many bytes in front are greater than CR, of fewer than 16: 8 are compared at once, then the last 8, of which
/// some may be seen twice.
fn few_above_cr_len(bytes: &[u8]) -> usize
    requires { length bytes.now < 16 }
    ensures { result ≡ prefix_len (nat_lt 13) bytes.now }
{
    if bytes.len() < 8 {
        return each_above_cr_len(bytes);
    }
    let count = above_cr_of_8(bytes);
    if count < 8 {
        return count;
    }
    let last = bytes.len() - 8;
    last + above_cr_of_8(&bytes[last..])
}

/// How many bytes in front are greater than CR: 16 are compared at once, and at the end the last 16, of which some may
/// be seen twice.
pub fn above_cr_len(bytes: &[u8]) -> usize
    ensures value { result ≡ prefix_len (nat_lt 13) bytes.now }
    ensures bound { result ≤ length bytes.now }
{
    if bytes.len() < 16 {
        return few_above_cr_len(bytes);
    }
    let last = bytes.len() - 16;
    let mut at = 0;
    while at < last {
        let count = above_cr_of_16(&bytes[at..]);
        if count < 16 {
            return at + count;
        }
        at += 16;
    }
    last + above_cr_of_16(&bytes[last..])
}

/// How many bytes of text are in front: many at once, then byte by byte.
fn text_span(bytes: &[u8]) -> usize
    ensures { IsSpan Class.Text bytes.now result }
{
    let at = above_cr_len(bytes);
    at + Class::Text.count(&bytes[at..])
}

impl Class {
    /// Whether a byte is in the class.
    pub fn has(self, byte: u8) -> bool
        ensures { result ≡ has self byte }
    {
        // Most bytes come after all that a line or a word may lack.
        match self {
            Class::Text => byte > b' ' || !matches!(byte, b'\n' | b'\r' | b'\t'),
            Class::Word => byte > b' ' || !matches!(byte, b'\n' | b'\r' | b'\t' | b' '),
            Class::Plain => byte > b' ' && !is_mark(byte),
        }
    }

    /// How many bytes of the class are in front.
    pub fn span(self, bytes: &[u8]) -> usize
        ensures { IsSpan self bytes.now result }
    {
        match self {
            Class::Text => text_span(bytes),
            Class::Word | Class::Plain => self.count(bytes),
        }
    }

    /// The same, byte by byte.
    fn count(self, bytes: &[u8]) -> usize
        ensures { IsSpan self bytes.now result }
    {
        let mut count = 0;
        while count < bytes.len() && self.has(bytes[count]) {
            count += 1;
        }
        count
    }
}
