// Addresses of links and images.

use crate::writer::Writer;
use std::simd::prelude::*;

/// What is written in place of a byte of an address, if it is none that is written as it is and none that is encoded.
fn replaced(byte: u8) -> Option<&'static str> {
    match byte {
        b'&' => Some("&amp;"),
        b'\'' => Some("&#x27;"),
        0 => Some("%EF%BF%BD"),
        _ => None,
    }
}

/// Whether a byte of an address is written as it is.
fn is_plain(byte: u8) -> bool {
    byte.is_ascii_alphanumeric() || is_mark(byte)
}

fn is_mark(byte: u8) -> bool {
    is_low_mark(byte) || matches!(byte, b':' | b';' | b'=' | b'?' | b'@' | b'_' | b'~')
}

fn is_low_mark(byte: u8) -> bool {
    matches!(byte, b'!' | b'#'..=b'%' | b'('..=b'/')
}

/// A digit of a byte in base 16.
fn digit(value: u8) -> u8 {
    match value {
        0..=9 => b'0'.saturating_add(value),
        _ => b'A'.saturating_add(value.saturating_sub(10)),
    }
}

fn push_encoded(out: &mut Writer, byte: u8) {
    out.push_bytes(&[b'%', digit(byte / 16), digit(byte % 16)]);
}

/// Whether each of 16 bytes of an address is written as it is; false of fewer.
#[inline(always)]
fn are_plain(bytes: &[u8]) -> bool {
    if bytes.len() < 16 {
        return false;
    }
    let lanes = u8x16::from_slice(bytes);
    let others = lanes.simd_lt(u8x16::splat(b'!'))
        | lanes.simd_eq(u8x16::splat(b'"'))
        | lanes.simd_eq(u8x16::splat(b'&'))
        | lanes.simd_eq(u8x16::splat(b'\''))
        | lanes.simd_eq(u8x16::splat(b'<'))
        | lanes.simd_eq(u8x16::splat(b'>'))
        | (lanes.simd_ge(u8x16::splat(b'[')) & lanes.simd_le(u8x16::splat(b'^')))
        | lanes.simd_eq(u8x16::splat(b'`'))
        | lanes.simd_ge(u8x16::splat(b'{')) & lanes.simd_ne(u8x16::splat(b'~'));
    others.to_bitmask() == 0
}

/// Whether each byte of an address is written as it is, which is not looked for in one of fewer than 16.
fn is_plain_address(bytes: &[u8]) -> bool {
    for chunk in bytes.chunks_exact(16) {
        if !are_plain(chunk) {
            return false;
        }
    }
    let last = bytes.len().saturating_sub(16);
    are_plain(bytes.get(last..).unwrap_or(&[]))
}

/// Writes an address, so that it may be in an attribute: bytes that are none of an address are percent-encoded.
pub(crate) fn push_address(out: &mut Writer, bytes: &[u8]) {
    if is_plain_address(bytes) {
        return out.push_bytes(bytes);
    }
    let mut from = 0;
    for (at, byte) in bytes.iter().enumerate() {
        if !is_plain(*byte) {
            out.push_bytes(bytes.get(from..at).unwrap_or(&[]));
            match replaced(*byte) {
                Some(text) => out.push(text),
                None => push_encoded(out, *byte),
            }
            from = at.saturating_add(1);
        }
    }
    out.push_bytes(bytes.get(from..).unwrap_or(&[]));
}

/// Writes a label in an `id` or in the address of one. Unlike in an address a `%` is encoded too, so that two labels are
/// never the same `id`.
pub(crate) fn push_id(out: &mut Writer, label: &[u8]) {
    let mut from = 0;
    for (at, byte) in label.iter().enumerate() {
        if *byte == b'%' {
            push_address(out, label.get(from..at).unwrap_or(&[]));
            out.push("%25");
            from = at.saturating_add(1);
        }
    }
    push_address(out, label.get(from..).unwrap_or(&[]));
}

/// The protocols that an address of a link may have.
const LINKS: [&str; 6] = ["http", "https", "irc", "ircs", "mailto", "xmpp"];

/// Those that one of an image may have.
const IMAGES: [&str; 2] = ["http", "https"];

fn is_one_of(protocols: &[&str], protocol: &[u8]) -> bool {
    for allowed in protocols {
        if allowed.as_bytes().eq_ignore_ascii_case(protocol) {
            return true;
        }
    }
    false
}

/// Whether the protocol of an address is one of a safe link or image. An address without one is relative, which is safe:
/// its first `:`, if there is any, is after a `/`, `?` or `#`.
pub(crate) fn is_safe(address: &[u8], is_image: bool) -> bool {
    let end = address
        .iter()
        .position(|byte| matches!(*byte, b':' | b'/' | b'?' | b'#'));
    let Some(len) = end else {
        return true;
    };
    if address.get(len) != Some(&b':') {
        return true;
    }
    let protocol = address.get(..len).unwrap_or(&[]);
    if is_image {
        is_one_of(&IMAGES, protocol)
    } else {
        is_one_of(&LINKS, protocol)
    }
}
