// The text of an ATX heading (CommonMark 4.2).

ghost use Rattle.std.specs.Prelude.{◌≡◌, ◌≤◌, ◌==◌, length, reverse};
ghost use Rattle.std.specs.List.{suffix_len};
ghost use Rattle.md_meaning.specs.Leaves as leaves;
ghost use Rattle.md_meaning.specs.Rest.{is_parted};

use crate::bytes::{is_white, trim, trim_end};

/// How many `#` are at the end.
fn closing_len(text: &[u8]) -> usize
    ensures value { result ≡ suffix_len (λ b. b == 35) text.now }
    ensures bound { result ≤ length text.now }
{
    text.iter().rev().take_while(|byte| **byte == b'#').count()
}

/// Whether this is empty, or ends with a space or a tab.
fn ends_parted(text: &[u8]) -> bool
    ensures { result ≡ is_parted (reverse text.now) }
{
    match text.last() {
        None => true,
        Some(byte) => is_white(*byte),
    }
}

/// The text of an ATX heading, from what follows its opening run: without a closing run that is all of it or is after
/// whitespace (CommonMark 4.2).
pub fn heading_text(after: &[u8]) -> &[u8]
    ensures { result.now ≡ leaves.heading_text after.now }
{
    let text = trim(after);
    let front = text.split_at(text.len() - closing_len(text)).0;
    if ends_parted(front) {
        trim_end(front)
    } else {
        text
    }
}
