// What a link or an image leads to (CommonMark 6.3): labels and resources.
ghost use Rattle.std.specs.Prelude.{◌≡◌, ◌≤◌, ◌<◌, ◌-◌, ◌==◌, false, length, count_by, nat_le, IfSome};
ghost use Rattle.std.specs.List.{list_any, list_all};
ghost use Rattle.md_inlines.specs.Characters as characters;
ghost use Rattle.md_inlines.specs.Target as target;
ghost use Rattle.md_meaning.specs.Definition as definition;

use crate::Resource;
use crate::html::after_gap;
use md_scan::ahead::begins_with;
use md_scan::bytes::is_white;
use md_scan::definition::{Enclosed, title_closer, up_to_mark};

/// Whether whitespace is all of it.
fn is_blank(text: &[u8]) -> bool
    ensures { result ≡ list_all characters.is_gap text.now }
{
    text.iter().all(|byte| is_white(*byte) || *byte == b'\n')
}

/// How many line endings there are.
fn endings(text: &[u8]) -> usize
    ensures value { result ≡ count_by (λ b. b == 10) text.now }
    ensures bound { result ≤ length text.now }
{
    text.iter().filter(|byte| **byte == b'\n').count()
}

/// Whether a label has at most so many bytes as one may have, without its line endings.
fn is_short(text: &[u8]) -> bool
    ensures { result ≡ nat_le (length text.now - count_by (λ b. b == 10) text.now) 999 }
{
    text.len() <= 999 || text.len() - endings(text) <= 999
}

/// Whether this is a label: not blank, and not long.
#[tactic(auto, using(crate::proofs::LabelLemmas::label_is))]
fn is_label(text: &[u8]) -> bool
    ensures { result ≡ target.is_label text.now }
{
    !is_blank(text) && is_short(text)
}

/// How many bytes are between two marks, the first of which is before this text.
fn enclosed_len(opener: u8, closer: u8, text: &[u8]) -> Option<usize>
    ensures value { result ≡ target.enclosed_len opener closer text.now }
    ensures bound { IfSome result (λ len. len < length text.now) }
{
    match up_to_mark(opener, closer, text) {
        Enclosed::Closed(inside, _) => Some(inside.len()),
        Enclosed::Open | Enclosed::Broken => None,
    }
}

fn has_ending(text: &[u8]) -> bool
    ensures { result ≡ list_any (λ b. b == 10) text.now }
{
    text.contains(&b'\n')
}

/// How many bytes of a label are before its `]`, whose `[` is before this text.
#[tactic(auto, unfolding(crate::specs::Target::label_len))]
pub fn label_len(text: &[u8]) -> Option<usize>
    ensures value { result ≡ target.label_len text.now }
    ensures bound { IfSome result (λ len. len < length text.now) }
{
    let len = enclosed_len(b'[', b']', text)?;
    if is_label(text.split_at(len).0) {
        Some(len)
    } else {
        None
    }
}

/// How many bytes of a destination are before its `>`, whose `<` is before this text.
#[tactic(auto, unfolding(crate::specs::Target::literal_len))]
fn literal_len(text: &[u8]) -> Option<usize>
    ensures value { result ≡ target.literal_len text.now }
    ensures bound { IfSome result (λ len. len < length text.now) }
{
    let len = enclosed_len(b'<', b'>', text)?;
    if has_ending(text.split_at(len).0) {
        None
    } else {
        Some(len)
    }
}

fn is_raw_byte(byte: u8) -> bool
    ensures { result ≡ definition.is_raw_byte byte }
{
    byte == 0 || byte > b' ' && byte != 0x7f
}

/// Whether a destination without angle brackets ends before this byte.
fn ends_raw(depth: usize, escaped: bool, byte: u8) -> bool
    ensures { result ≡ target.ends_raw depth escaped byte }
{
    !is_raw_byte(byte) || !escaped && byte == b')' && depth == 0
}

/// Whether this byte opens one parenthesis too many.
fn is_too_deep(depth: usize, escaped: bool, byte: u8) -> bool
    ensures { result ≡ target.is_too_deep depth escaped byte }
{
    !escaped && byte == b'(' && depth == 32
}

/// How many parentheses are open after this byte.
fn depth_after(depth: usize, escaped: bool, byte: u8) -> usize
    requires { depth ≤ 32 }
    ensures { result ≡ target.depth_after depth escaped byte }
{
    if escaped {
        depth
    } else if byte == b'(' {
        depth + 1
    } else if byte == b')' {
        depth.saturating_sub(1)
    } else {
        depth
    }
}

fn is_escaped_after(escaped: bool, byte: u8) -> bool
    ensures { result ≡ target.is_escaped_after escaped byte }
{
    !escaped && byte == b'\\'
}

/// So many bytes, if each parenthesis is closed.
fn closed(depth: usize, len: usize) -> Option<usize>
    ensures value { result ≡ target.closed depth len }
    ensures bound { IfSome result (λ found. found ≡ len) }
{
    if depth == 0 { Some(len) } else { None }
}

/// Whether this is a byte of a destination, whatever is before it, that opens and closes nothing.
fn is_plain_raw(byte: u8) -> bool
    ensures { result ≡ target.is_plain_raw byte }
{
    byte > b')' && byte != b'\\' && byte != 0x7f
}

/// How many bytes of a destination without angle brackets come first.
fn raw_len(text: &[u8]) -> Option<usize>
    ensures value { result ≡ target.raw_len 0 false text.now }
    ensures bound { IfSome result (λ len. len ≤ length text.now) }
{
    let mut depth = 0;
    let mut escaped = false;
    let mut rest = text;
    while let Some((first, others)) = rest.split_first() {
        if is_plain_raw(*first) {
            escaped = false;
            rest = others;
        } else {
            if ends_raw(depth, escaped, *first) {
                return closed(depth, text.len() - rest.len());
            }
            if is_too_deep(depth, escaped, *first) {
                return None;
            }
            depth = depth_after(depth, escaped, *first);
            escaped = is_escaped_after(escaped, *first);
            rest = others;
        }
    }
    closed(depth, text.len())
}

/// How many bytes a destination has, with its angle brackets if it has some.
#[tactic(auto, unfolding(crate::specs::Target::destination_len))]
fn destination_len(text: &[u8]) -> Option<usize>
    ensures value { result ≡ target.destination_len text.now }
    ensures bound { IfSome result (λ len. len ≤ length text.now) }
{
    match text {
        [b'<', rest @ ..] => match literal_len(rest) {
            Some(len) => Some(len + 2),
            None => None,
        },
        _ => raw_len(text),
    }
}

/// How many bytes the title has that comes first, with its marks.
#[tactic(auto, unfolding(crate::specs::Target::title_len))]
fn title_len(text: &[u8]) -> Option<usize>
    ensures value { result ≡ target.title_len text.now }
    ensures bound { IfSome result (λ len. len ≤ length text.now) }
{
    let (mark, rest) = text.split_first()?;
    let closer = title_closer(*mark)?;
    let len = enclosed_len(*mark, closer, rest)?;
    Some(len + 2)
}

/// The length of a title after a destination; 0 if there is none.
fn title_after(destination: usize, gap: usize, text: &[u8]) -> usize
    ensures value { result ≡ target.title_after destination gap text.now }
    ensures bound { result ≤ length text.now }
{
    if 0 < destination && 0 < gap {
        match title_len(text) {
            Some(len) => len,
            None => 0,
        }
    } else {
        0
    }
}

fn gap_len(text: &[u8]) -> usize
    ensures value { result ≡ target.gap_len text.now }
    ensures bound { result ≤ length text.now }
{
    text.len() - after_gap(text).len()
}

/// The whitespace after a title; 0 where there is none.
fn last_gap(title: usize, text: &[u8]) -> usize
    ensures value { result ≡ target.last_gap title text.now }
    ensures bound { result ≤ length text.now }
{
    if title == 0 { 0 } else { gap_len(text) }
}

/// The resource with a destination of so many bytes, after whitespace.
fn with_destination(text: &[u8], len: usize) -> Option<Resource>
    requires { len ≤ length (target.after_gap text.now) }
    ensures { result ≡ target.with_destination text.now len }
{
    let start = after_gap(text);
    let rest = start.split_at(len).1;
    let tail = after_gap(rest);
    let between = gap_len(rest);
    let title = title_after(len, between, tail);
    let last = tail.split_at(title).1;
    let after = last_gap(title, last);
    if !begins_with(b')', last.split_at(after).1) {
        return None;
    }
    Some(Resource {
        before: gap_len(text),
        destination: len,
        is_literal: begins_with(b'<', start),
        between,
        title,
        after,
    })
}

/// The resource whose `(` is before this text.
#[tactic(auto, unfolding(crate::specs::Target::resource_at))]
pub fn resource_at(text: &[u8]) -> Option<Resource>
    ensures { result ≡ target.resource_at text.now }
{
    match destination_len(after_gap(text)) {
        Some(len) => with_destination(text, len),
        None => None,
    }
}
