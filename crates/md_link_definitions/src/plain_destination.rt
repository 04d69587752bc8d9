// Destinations that reach to the end of their line and have no byte with a meaning (CommonMark 6.3): most are so, and
// are known by one look over many bytes at once.

ghost use Rattle.std.specs.Prelude.{◌≡◌};
ghost use Rattle.std.specs.List.{list_all};
ghost use Rattle.md_link_definitions.specs.PlainDestination as plain;

/// Whether a destination may have this byte, and it is no parenthesis and no backslash.
fn is_plain_byte(byte: u8) -> bool
    ensures { result ≡ plain.is_plain_byte byte }
{
    (byte > b' ') & (byte != b'(') & (byte != b')') & (byte != b'\\') & (byte != 0x7F)
}

/// Whether all of these bytes are plain. The loop has no early exit, so that many bytes are compared at once.
#[inline(always)]
fn are_plain_at_once(bytes: &[u8]) -> bool
    ensures { result ≡ list_all plain.is_plain_byte bytes.now }
{
    let mut all = true;
    for byte in bytes {
        all &= is_plain_byte(*byte);
    }
    all
}

/// The same, byte by byte.
fn are_plain_each(bytes: &[u8]) -> bool
    ensures { result ≡ list_all plain.is_plain_byte bytes.now }
{
    bytes.iter().all(|byte| is_plain_byte(*byte))
}

/// The same: 8 are compared at once, then each.
fn are_few_plain(bytes: &[u8]) -> bool
    ensures { result ≡ list_all plain.is_plain_byte bytes.now }
{
    if bytes.len() < 8 {
        return are_plain_each(bytes);
    }
    let (front, following) = bytes.split_at(8);
    are_plain_at_once(front) && are_plain_each(following)
}

/// The same: 16 are compared at once, as often as there are so many.
fn are_plain(bytes: &[u8]) -> bool
    ensures { result ≡ list_all plain.is_plain_byte bytes.now }
{
    let mut rest = bytes;
    while rest.len() >= 16 {
        let (front, following) = rest.split_at(16);
        if !are_plain_at_once(front) {
            return false;
        }
        rest = following;
    }
    are_few_plain(rest)
}

/// Whether a line is one destination of plain bytes. In angle brackets it is none.
pub fn is_plain_destination(line: &[u8]) -> bool
    ensures { result ≡ plain.is_plain_destination line.now }
{
    match line {
        [] | [b'<', ..] => false,
        [..] => are_plain(line),
    }
}
