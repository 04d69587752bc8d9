// The check of a task item (GFM 5.3).
ghost use Rattle.std.specs.Prelude.{◌≡◌};
ghost use Rattle.md_inlines.specs.Task as task;

use crate::html::begins_gap;

/// Whether this byte between the brackets says that the item is done.
pub fn is_checked(byte: u8) -> bool
    ensures { result ≡ task.is_checked byte }
{
    byte == b'x' || byte == b'X'
}

/// Whether a text begins with a check.
pub fn is_task(text: &[u8]) -> bool
    ensures { result ≡ task.is_task text.now }
{
    match text {
        [b'[', byte, b']', rest @ ..] => (is_checked(*byte) || *byte == b' ') && begins_gap(rest),
        _ => false,
    }
}
