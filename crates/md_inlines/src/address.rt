// Addresses without angle brackets (GFM 6.9): `www.`, `http://` and `https://`, with a domain and a path.
ghost use Rattle.std.specs.Prelude.{◌≡◌, ◌<◌, ◌≤◌, ◌+◌, ◌-◌, ◌==◌, true, count_by, drop, length, nat_le};
ghost use Rattle.std.specs.Prelude.{option_copied, reverse, IfSome};
ghost use Rattle.std.specs.List.{list_any, slice_split};
ghost use Rattle.md_inlines.specs.Literal as literal;
ghost use Rattle.md_inlines.specs.Addresses as addresses;
ghost use Rattle.md_meaning.specs.Ascii.{dot};
ghost use Rattle.md_meaning.specs.Bytes.{is_end};
ghost use Rattle.md_meaning.specs.Html as h;

use crate::autolink::ends_with;
use crate::class::{Class, class_end_len, class_len};
use crate::flanking::{character, first_bytes, is_punctuation, is_whitespace};
use crate::{Literal, LiteralKind};

/// Whether an address may begin after this byte.
fn is_before(byte: u8) -> bool
    ensures { result ≡ addresses.is_before byte }
{
    byte.is_ascii_whitespace() || b"*_~(".contains(&byte)
}

/// Whether an address may begin after a text.
pub(crate) fn may_follow(before: &[u8]) -> bool
    ensures { result ≡ literal.may_follow before.now }
{
    match before.split_last() {
        Some((last, _)) => is_before(*last),
        None => true,
    }
}

/// Whether this word comes first, in any ASCII case.
pub fn starts_in_any_case(text: &[u8], word: &[u8]) -> bool
    ensures value { result ≡ h.starts_in_any_case text.now word.now }
    ensures bound { result ≡ true → length word.now ≤ length text.now }
{
    word.len() <= text.len() && word.eq_ignore_ascii_case(text.split_at(word.len()).0)
}

// Domains.

fn is_domain_byte(byte: u8) -> bool
    ensures { result ≡ literal.is_domain_byte byte }
{
    byte.is_ascii_alphanumeric() || byte == b'_' || byte == b'-' || byte == b'.'
}

/// What follows the first character, if a domain may have it.
#[tactic(auto, unfolding(crate::specs::Literal::after_domain_character))]
fn after_domain_character(text: &[u8]) -> Option<&[u8]>
    ensures { option_copied result ≡ literal.after_domain_character text.now }
{
    match text {
        [byte, rest @ ..] if *byte < 128 => {
            if is_domain_byte(*byte) {
                Some(rest)
            } else {
                None
            }
        }
        [_, rest @ ..] => match character(first_bytes(text)) {
            Some(c) if !is_whitespace(c) && !is_punctuation(c) => {
                Some(rest.split_at(class_len(Class::Within, rest)).1)
            }
            _ => None,
        },
        [] => None,
    }
}

/// The bytes of such characters that come first.
fn domain_front(text: &[u8]) -> &[u8]
    ensures value { result.now ≡ literal.domain_front text.now }
    ensures bound { length result.now ≤ length text.now }
{
    let mut rest = text;
    while let Some(more) = after_domain_character(rest) {
        rest = more;
    }
    text.split_at(text.len() - rest.len()).0
}

/// Whether a segment between two dots is empty.
pub(crate) fn has_empty_segment(text: &[u8]) -> bool
    ensures { result ≡ list_any is_end (slice_split (λ b. b == dot) text.now) }
{
    text.split(|byte| *byte == b'.')
        .any(|segment| segment.is_empty())
}

/// Whether a `.` makes two segments.
pub(crate) fn has_two_segments(text: &[u8]) -> bool
    ensures { result ≡ nat_le 2 (length (slice_split (λ b. b == dot) text.now)) }
{
    text.contains(&b'.')
}

/// Whether the segment before has a `_`, after a further byte.
fn earlier_after(earlier: bool, now: bool, byte: u8) -> bool
    ensures { result ≡ addresses.earlier_after earlier now byte }
{
    if byte == b'.' { now } else { earlier }
}

/// Whether this segment has a `_`, after a further byte.
fn now_after(now: bool, byte: u8) -> bool
    ensures { result ≡ addresses.now_after now byte }
{
    byte != b'.' && (now || byte == b'_')
}

/// Whether one of the last two segments has a `_`.
fn has_last_underscore(text: &[u8]) -> bool
    ensures { result ≡ addresses.has_last_underscore (slice_split (λ b. b == dot) text.now) }
{
    let mut earlier = false;
    let mut now = false;
    let mut rest = text;
    while let Some((first, others)) = rest.split_first() {
        earlier = earlier_after(earlier, now, *first);
        now = now_after(now, *first);
        rest = others;
    }
    earlier || now
}

/// Whether these are segments of a domain.
fn are_segments(text: &[u8]) -> bool
    ensures { result ≡ literal.are_segments (slice_split (λ b. b == dot) text.now) }
{
    has_two_segments(text) && !has_empty_segment(text) && !has_last_underscore(text)
}

/// Without the dots at the end.
pub(crate) fn without_last_dots(text: &[u8]) -> &[u8]
    ensures value { result.now ≡ literal.without_last dot text.now }
    ensures bound { length result.now ≤ length text.now }
{
    text.split_at(text.len() - class_end_len(Class::Dot, text))
        .0
}

/// How many bytes of a domain come first.
#[tactic(auto, unfolding(crate::specs::Literal::domain_len))]
fn domain_len(text: &[u8]) -> Option<usize>
    ensures value { result ≡ literal.domain_len text.now }
    ensures bound { IfSome result (λ len. len ≤ length text.now) }
{
    let domain = without_last_dots(domain_front(text));
    if are_segments(domain) {
        Some(domain.len())
    } else {
        None
    }
}

/// Whether an empty segment begins after the first byte.
fn begins_with_dots(text: &[u8]) -> bool
    ensures { result ≡ addresses.begins_with_dots text.now }
{
    match text {
        [first, second, ..] => *first == b'.' && *second == b'.',
        _ => false,
    }
}

/// How many bytes are before the last empty segment of a domain, or 0.
fn before_last_empty(text: &[u8]) -> usize
    ensures is { 0 < result → addresses.begins_with_dots (drop (result - 1) text.now) ≡ true }
    ensures bound { result ≤ length text.now }
{
    let mut at = text.len();
    while at > 0 {
        if begins_with_dots(text.split_at(at - 1).1) {
            return at;
        }
        at -= 1;
    }
    0
}

/// After how many places at the front no domain begins, where a dot is there. A `_` in one of its last two segments
/// makes a domain none, and each that begins after a dot of it; an empty segment makes those none that begin before it.
pub fn no_domain_len(text: &[u8]) -> usize
    ensures is { addresses.HasNoDomain text.now result }
    ensures bound { result ≤ length text.now }
{
    let front = domain_front(text);
    let domain = without_last_dots(front);
    if has_last_underscore(domain) {
        front.len()
    } else {
        before_last_empty(domain)
    }
}

// Paths, without what belongs to the sentence around them.

/// The bytes up to whitespace or a `<`.
fn path(text: &[u8]) -> &[u8]
    ensures value { result.now ≡ literal.path text.now }
    ensures bound { length result.now ≤ length text.now }
{
    text.split_at(class_len(Class::Path, text)).0
}

fn is_sentence_byte(byte: u8) -> bool
    ensures { result ≡ literal.is_sentence_byte byte }
{
    b"?!.,:*_~".contains(&byte)
}

/// How many of this byte there are.
fn count_of(byte: u8, text: &[u8]) -> usize
    ensures value { result ≡ count_by (λ b. b == byte) text.now }
    ensures bound { result ≤ length text.now }
{
    text.iter().filter(|other| **other == byte).count()
}

/// How many bytes a character reference has that ends with a `;` after this text; 0 if none does.
fn reference_end(text: &[u8]) -> usize
    ensures value { result ≡ literal.reference_end (reverse text.now) }
    ensures bound { result ≤ length text.now + 1 }
{
    let len = class_end_len(Class::Alphanumeric, text);
    if 1 <= len && ends_with(b'&', text.split_at(text.len() - len).0) {
        len + 2
    } else {
        0
    }
}

/// How many bytes at the end belong to the sentence around, where so many parentheses open and close in all.
fn extra_len(opening: usize, closing: usize, text: &[u8]) -> usize
    requires opens { opening ≡ count_by (λ b. b == 40) text.now }
    requires closes { closing ≡ count_by (λ b. b == 41) text.now }
    ensures value { result ≡ literal.extra_len text.now }
    ensures bound { result ≤ length text.now }
{
    match text.split_last() {
        Some((last, front)) => {
            if is_sentence_byte(*last) || *last == b')' && opening < closing {
                1
            } else if *last == b';' {
                reference_end(front)
            } else {
                0
            }
        }
        None => 0,
    }
}

/// A path without what belongs to the sentence around it.
fn trimmed(text: &[u8]) -> &[u8]
    ensures value { result.now ≡ literal.trimmed text.now }
    ensures bound { length result.now ≤ length text.now }
{
    let mut rest = text;
    let mut opening = count_of(b'(', text);
    let mut closing = count_of(b')', text);
    let mut len = extra_len(opening, closing, rest);
    while 0 < len {
        let (front, extra) = rest.split_at(rest.len() - len);
        opening -= count_of(b'(', extra);
        closing -= count_of(b')', extra);
        rest = front;
        len = extra_len(opening, closing, rest);
    }
    rest
}

// Addresses.

/// An address: a front of so many bytes, a domain, and a path.
fn address(kind: LiteralKind, front: usize, text: &[u8]) -> Option<Literal>
    requires { front ≤ length text.now }
    ensures value { result ≡ literal.address kind front text.now }
{
    let rest = text.split_at(front).1;
    match domain_len(rest) {
        Some(domain) => Some(Literal {
            kind,
            len: front + domain + trimmed(path(rest.split_at(domain).1)).len(),
        }),
        None => None,
    }
}

/// The address that comes first in a text, after another: `www.`, `http://` or `https://`, each in any case.
#[tactic(auto, unfolding(crate::specs::Literal::literal_at))]
pub fn literal_at(before: &[u8], text: &[u8]) -> Option<Literal>
    ensures { result ≡ literal.literal_at before.now text.now }
{
    if !may_follow(before) {
        None
    } else if starts_in_any_case(text, b"www.") {
        address(LiteralKind::Www, 4, text)
    } else if starts_in_any_case(text, b"http://") {
        address(LiteralKind::Protocol, 7, text)
    } else if starts_in_any_case(text, b"https://") {
        address(LiteralKind::Protocol, 8, text)
    } else {
        None
    }
}
