// Bytes that begin nothing: text, taken many at once.

ghost use Rattle.std.specs.Prelude.{◌≡◌, ℕ, ◌<◌, ◌≤◌, ◌+◌, ◌-◌, ◌^◌, ◌==◌, ◌&&◌, true, false, not, if◌then◌else◌, drop};
ghost use Rattle.std.specs.Prelude.{get_or, length, map};
ghost use Rattle.std.specs.Int.{trailing_zeros, w64};
ghost use Rattle.std.specs.Simd.Lanes.{mask_l, zip2};
ghost use Rattle.md_meaning.specs.Rest as rest;
ghost use Rattle.markdown_inlines.specs.Plain as spec;

use crate::slices::after;
use md_scan::bytes::is_white;
use std::simd::prelude::*;

/// Whether nothing but trailing whitespace begins with this byte; `literals` says whether addresses without angle
/// brackets are read.
fn is_plain(literals: bool, byte: u8) -> bool
    ensures { result ≡ spec.is_plain literals byte }
{
    match byte {
        b'!' | b'$' | b'&' | b'*' | b'<' | b'[' | b'\\' | b']' | b'_' | b'`' | b'~' => false,
        b'H' | b'W' | b'h' | b'w' => !literals,
        _ => true,
    }
}

/// Whether the first of two bytes is that of `http` or `www`, in any case, and the second is not.
fn differs(first: u8, second: u8) -> bool
    ensures { result ≡ spec.differs first second }
{
    match first {
        b'H' | b'h' => !(second == b'T' || second == b't'),
        b'W' | b'w' => !(second == b'W' || second == b'w'),
        _ => false,
    }
}

/// Whether no address begins, since the second byte is another, with a byte with which one may begin.
fn is_quiet(text: &[u8]) -> bool
    ensures { result ≡ spec.is_quiet text.now }
{
    match text {
        [first, second, ..] => differs(*first, *second),
        _ => false,
    }
}

/// Whether a text begins with a byte that begins nothing, or no address that is read, and ends no line.
fn is_inner(literals: bool, text: &[u8]) -> bool
    ensures { result ≡ spec.is_inner literals text.now }
{
    match text {
        [byte, ..] => *byte != b'\n' && (is_plain(literals, *byte) || literals && is_quiet(text)),
        [] => false,
    }
}

/// How many such bytes are at the front, counted one by one.
fn each_inner_len(literals: bool, text: &[u8]) -> usize
    ensures value { result ≡ spec.inner_len literals text.now }
    ensures bound { result ≤ length text.now }
{
    let mut at = 0;
    while at < text.len() && is_inner(literals, &text[at..]) {
        at += 1;
    }
    at
}

/// The place of the lowest bit that is set, or 16 where none is.
#[inline(always)]
fn lowest_bit(mask: u64) -> usize
    ensures { result ≡ if mask == 0 then 16 else trailing_zeros w64 mask }
{
    if mask == 0 {
        16
    } else {
        mask.trailing_zeros() as usize
    }
}

/// The bits of the bytes that are none of these, where no address is read.
#[inline(always)]
fn stops(bytes: u8x16) -> u64
    ensures { result ≡ mask_l (map (λ b. not (not (b == 10) && spec.is_plain false b)) bytes) }
{
    (bytes.simd_eq(u8x16::splat(b'\n'))
        | bytes.simd_eq(u8x16::splat(b'!'))
        | bytes.simd_eq(u8x16::splat(b'$'))
        | bytes.simd_eq(u8x16::splat(b'&'))
        | bytes.simd_eq(u8x16::splat(b'*'))
        | bytes.simd_eq(u8x16::splat(b'<'))
        | bytes.simd_eq(u8x16::splat(b'['))
        | bytes.simd_eq(u8x16::splat(b'\\'))
        | bytes.simd_eq(u8x16::splat(b']'))
        | bytes.simd_eq(u8x16::splat(b'_'))
        | bytes.simd_eq(u8x16::splat(b'`'))
        | bytes.simd_eq(u8x16::splat(b'~'))).to_bitmask()
}

/// The same, where addresses are read, given the byte after each: `http` begins with two bytes that few others do, and
/// so does `www`.
#[inline(always)]
fn stops_or_addresses(bytes: u8x16, nexts: u8x16) -> u64
    ensures { result ≡ mask_l (zip2 (λ b c. not (spec.is_inner_by true b c)) bytes nexts) }
{
    (bytes.simd_eq(u8x16::splat(b'\n'))
        | bytes.simd_eq(u8x16::splat(b'!'))
        | bytes.simd_eq(u8x16::splat(b'$'))
        | bytes.simd_eq(u8x16::splat(b'&'))
        | bytes.simd_eq(u8x16::splat(b'*'))
        | bytes.simd_eq(u8x16::splat(b'<'))
        | bytes.simd_eq(u8x16::splat(b'['))
        | bytes.simd_eq(u8x16::splat(b'\\'))
        | bytes.simd_eq(u8x16::splat(b']'))
        | bytes.simd_eq(u8x16::splat(b'_'))
        | bytes.simd_eq(u8x16::splat(b'`'))
        | bytes.simd_eq(u8x16::splat(b'~'))
        | (bytes.simd_eq(u8x16::splat(b'H')) | bytes.simd_eq(u8x16::splat(b'h')))
            & (nexts.simd_eq(u8x16::splat(b'T')) | nexts.simd_eq(u8x16::splat(b't')))
        | (bytes.simd_eq(u8x16::splat(b'W')) | bytes.simd_eq(u8x16::splat(b'w')))
            & (nexts.simd_eq(u8x16::splat(b'W')) | nexts.simd_eq(u8x16::splat(b'w')))).to_bitmask()
}

/// How many of the 16 bytes in front are such bytes, up to the first that is not: all are compared at once.
#[inline(always)]
fn inner_of_16(literals: bool, text: &[u8]) -> usize
    requires { 17 ≤ length text.now }
    ensures stops { result < 16 → result ≡ spec.inner_len literals text.now }
    ensures passes { 16 ≤ result →
        16 + spec.inner_len literals (drop 16 text.now) ≡ spec.inner_len literals text.now }
{
    let bytes = u8x16::from_slice(text);
    if literals {
        lowest_bit(stops_or_addresses(bytes, u8x16::from_slice(&text[1..])))
    } else {
        lowest_bit(stops(bytes))
    }
}

/// How many of these come first: 16 are compared at once, and the last ones one by one.
fn inner_len(literals: bool, text: &[u8]) -> usize
    ensures value { result ≡ spec.inner_len literals text.now }
    ensures bound { result ≤ length text.now }
{
    let mut at = 0;
    while 17 <= text.len() - at {
        let count = inner_of_16(literals, &text[at..]);
        if count < 16 {
            return at + count;
        }
        at += 16;
    }
    at + each_inner_len(literals, &text[at..])
}

/// How many bytes are before the whitespace at the end of a line.
fn before_white(line: &[u8]) -> usize
    ensures last { 0 < result → rest.is_white (get_or line.now (result - 1) 0) ≡ false }
    ensures bound { result ≤ length line.now }
{
    let mut at = line.len();
    while at > 0 {
        if !is_white(line[at - 1]) {
            return at;
        }
        at -= 1;
    }
    0
}

/// How far text goes in a line, of which so many bytes are inner ones, `dark` of them before the whitespace at their
/// end, and these follow.
fn line_end(dark: usize, len: usize, rest: &[u8]) -> usize
    requires { len + length rest.now < 2 ^ 64 }
    ensures { result ≡ spec.line_end dark len rest.now }
{
    match rest.split_first() {
        None => dark,
        Some((byte, _following)) => {
            if *byte != b'\n' {
                len
            } else if dark == len {
                len + 1
            } else {
                dark
            }
        }
    }
}

/// How many bytes of text are at the front, up to where a line ends.
fn line_len(literals: bool, text: &[u8]) -> usize
    ensures text { (k : ℕ) → k < result → spec.begins_text literals (drop k text.now) ≡ true }
    ensures bound { result ≤ length text.now }
{
    let len = inner_len(literals, text);
    let (line, rest) = text.split_at(len);
    let dark = before_white(line);
    line_end(dark, len, rest)
}

/// How many bytes of text are at the front.
pub(crate) fn text_len(literals: bool, text: &[u8]) -> usize
    ensures text { (k : ℕ) → k < result → spec.begins_text literals (drop k text.now) ≡ true }
    ensures bound { result ≤ length text.now }
{
    let mut at = 0;
    let mut len = line_len(literals, text);
    while len > 0 {
        at += len;
        len = line_len(literals, after(text, at));
    }
    at
}
