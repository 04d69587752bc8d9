// Delimiter runs, and the characters beside them (CommonMark 2.1, 6.2).
ghost use Rattle.std.specs.Prelude.{◌≡◌};
ghost use Rattle.md_inlines.specs.Characters as characters;
ghost use Rattle.md_inlines.specs.Flanking as flanking;

use crate::class::{Class, class_end_len, class_len};
use crate::{Run, Side};
use md_scan::bytes::run_len;
use ucd_category::{GeneralCategory, GeneralCategoryGroup};

/// Whether this is Unicode whitespace.
pub(crate) fn is_whitespace(c: char) -> bool
    ensures { result ≡ characters.is_whitespace c }
{
    if c < '\u{80}' {
        c == '\t' || c == '\n' || c == '\u{c}' || c == '\r' || c == ' '
    } else {
        GeneralCategory::for_char(c) == GeneralCategory::SpaceSeparator
    }
}

/// Whether this is Unicode punctuation.
pub(crate) fn is_punctuation(c: char) -> bool
    ensures { result ≡ characters.is_punctuation c }
{
    if c < '\u{80}' {
        c.is_ascii_punctuation()
    } else {
        let category = GeneralCategory::for_char(c);
        GeneralCategoryGroup::Punctuation.contains(category)
            || GeneralCategoryGroup::Symbol.contains(category)
    }
}

/// What a character is beside a run.
fn side_of(c: char) -> Side
    ensures { result ≡ characters.side_of c }
{
    if is_whitespace(c) {
        Side::White
    } else if is_punctuation(c) {
        Side::Punctuation
    } else {
        Side::Other
    }
}

/// The character that these bytes spell, if they are UTF-8.
pub(crate) fn character(bytes: &[u8]) -> Option<char>
    ensures { result ≡ characters.character bytes.now }
{
    match str::from_utf8(bytes) {
        Ok(text) => text.chars().next(),
        Err(_) => None,
    }
}

/// What these bytes of a character are beside a run.
#[tactic(auto, unfolding(crate::specs::Characters::side))]
fn side(bytes: &[u8]) -> Side
    ensures { result ≡ characters.side bytes.now }
{
    match bytes {
        [] => Side::White,
        [byte] if *byte < 128 => side_of(char::from(*byte)),
        [_] => Side::Other,
        [_, _, ..] => match character(bytes) {
            Some(c) => side_of(c),
            None => Side::Other,
        },
    }
}

/// The bytes of the first character.
pub(crate) fn first_bytes(text: &[u8]) -> &[u8]
    ensures { result.now ≡ characters.first_bytes text.now }
{
    match text {
        [_, rest @ ..] => text.split_at(1 + class_len(Class::Within, rest)).0,
        [] => text,
    }
}

/// The bytes of the last character.
fn last_bytes(text: &[u8]) -> &[u8]
    ensures { result.now ≡ characters.last_bytes text.now }
{
    let within = class_end_len(Class::Within, text);
    text.split_at((text.len() - within).saturating_sub(1)).1
}

/// Whether a run is left-flanking; with its sides exchanged, whether it is right-flanking.
fn flanks(before: Side, after: Side) -> bool
    ensures { result ≡ flanking.flanks before after }
{
    match (before, after) {
        (_, Side::White) => false,
        (Side::Other, Side::Punctuation) => false,
        _ => true,
    }
}

fn opens(mark: u8, before: Side, after: Side) -> bool
    ensures { result ≡ flanking.opens mark before after }
{
    flanks(before, after)
        && (mark != b'_' || !flanks(after, before) || matches!(before, Side::Punctuation))
}

fn closes(mark: u8, before: Side, after: Side) -> bool
    ensures { result ≡ flanking.closes mark before after }
{
    flanks(after, before)
        && (mark != b'_' || !flanks(before, after) || matches!(after, Side::Punctuation))
}

/// The run of this byte that comes first in a text, after another.
#[tactic(auto, unfolding(crate::specs::Flanking::run_at))]
pub fn run_at(mark: u8, before: &[u8], text: &[u8]) -> Run
    ensures { result ≡ flanking.run_at mark before.now text.now }
{
    let size = run_len(mark, text);
    let left = side(last_bytes(before));
    let right = side(first_bytes(text.split_at(size).1));
    Run {
        mark,
        size,
        left: size,
        opens: opens(mark, left, right),
        closes: closes(mark, left, right),
    }
}
