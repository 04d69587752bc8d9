// Line breaks (CommonMark 6.7, 6.8).
ghost use Rattle.std.specs.Prelude.{◌≡◌, ◌≤◌, length};
ghost use Rattle.md_inlines.specs.Breaks as breaks;

use crate::class::{Class, class_end_len};
use md_scan::ahead::begins_with;
use md_scan::bytes::white_len;

/// Whether the text or its line ends here.
fn ends_here(text: &[u8]) -> bool
    ensures { result ≡ breaks.ends_here text.now }
{
    match text {
        [first, ..] => *first == b'\n',
        [] => true,
    }
}

/// Whether a backslash before a line ending comes first.
pub fn is_break_escape(text: &[u8]) -> bool
    ensures { result ≡ breaks.is_break_escape text.now }
{
    matches!(text, [b'\\', b'\n', ..])
}

/// How many spaces and tabs come first, if the line ends after them.
#[tactic(auto, unfolding(crate::specs::Breaks::trailing_len))]
pub fn trailing_len(text: &[u8]) -> usize
    ensures value { result ≡ breaks.trailing_len text.now }
    ensures bound { result ≤ length text.now }
{
    let len = white_len(text);
    if ends_here(text.split_at(len).1) {
        len
    } else {
        0
    }
}

/// How many of these spaces and tabs make a hard break.
#[tactic(auto, unfolding(crate::specs::Breaks::break_len))]
pub fn break_len(text: &[u8]) -> usize
    ensures { result ≡ breaks.break_len text.now }
{
    let (white, rest) = text.split_at(trailing_len(text));
    let spaces = class_end_len(Class::Space, white);
    if 2 <= spaces && begins_with(b'\n', rest) {
        spaces
    } else {
        0
    }
}
