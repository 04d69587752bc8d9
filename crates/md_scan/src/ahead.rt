// What comes first in what is left of a line.
ghost use Rattle.std.specs.Prelude.{◌≡◌};
ghost use Rattle.md_meaning.specs.Bytes as ahead;
ghost use Rattle.md_meaning.specs.Lines as lines;
ghost use Rattle.md_meaning.specs.Rest.{is_white};

use crate::bytes::is_white;

/// Whether this byte comes first.
pub fn begins_with(byte: u8, bytes: &[u8]) -> bool
    ensures { result ≡ lines.begins_with byte bytes.now }
{
    match bytes {
        [first, ..] => *first == byte,
        [] => false,
    }
}

/// Whether a space or a tab comes first.
pub fn begins_white(bytes: &[u8]) -> bool
    ensures { result ≡ ahead.begins is_white bytes.now }
{
    match bytes {
        [first, ..] => is_white(*first),
        [] => false,
    }
}

/// Without this byte, if it comes first.
pub fn after_optional(byte: u8, bytes: &[u8]) -> &[u8]
    ensures { result.now ≡ ahead.after_optional byte bytes.now }
{
    match bytes {
        [first, rest @ ..] if *first == byte => rest,
        _ => bytes,
    }
}
