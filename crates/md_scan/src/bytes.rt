// Words on the bytes of a line.

ghost use Rattle.std.specs.Prelude.{◌≡◌, ◌≤◌, length};
ghost use Rattle.std.specs.List.{prefix_len, suffix_len};
ghost use Rattle.md_meaning.specs.Rest as rest;

/// Whether this is a space or a tab.
pub fn is_white(byte: u8) -> bool
    ensures { result ≡ rest.is_white byte }
{
    byte == b' ' || byte == b'\t'
}

/// Whether these are spaces and tabs alone.
pub fn is_blank(bytes: &[u8]) -> bool
    ensures { result ≡ rest.is_blank bytes.now }
{
    bytes.iter().all(|byte| is_white(*byte))
}

/// How many of this byte are at the front.
pub fn run_len(marker: u8, bytes: &[u8]) -> usize
    ensures value { result ≡ rest.run_len marker bytes.now }
    ensures bound { result ≤ length bytes.now }
{
    bytes.iter().take_while(|byte| **byte == marker).count()
}

/// How many spaces and tabs are at the front.
pub fn white_len(bytes: &[u8]) -> usize
    ensures value { result ≡ prefix_len rest.is_white bytes.now }
    ensures bound { result ≤ length bytes.now }
{
    bytes.iter().take_while(|byte| is_white(**byte)).count()
}

/// How many spaces and tabs are at the end.
pub fn white_end_len(bytes: &[u8]) -> usize
    ensures value { result ≡ suffix_len rest.is_white bytes.now }
    ensures bound { result ≤ length bytes.now }
{
    bytes
        .iter()
        .rev()
        .take_while(|byte| is_white(**byte))
        .count()
}

/// Without leading spaces and tabs.
pub fn trim_start(bytes: &[u8]) -> &[u8]
    ensures { result.now ≡ rest.trim_start bytes.now }
{
    bytes.split_at(white_len(bytes)).1
}

/// Without spaces and tabs at the end.
pub fn trim_end(bytes: &[u8]) -> &[u8]
    ensures { result.now ≡ rest.trim_end bytes.now }
{
    bytes.split_at(bytes.len() - white_end_len(bytes)).0
}

/// Without outer spaces and tabs.
pub fn trim(bytes: &[u8]) -> &[u8]
    ensures { result.now ≡ rest.trim bytes.now }
{
    trim_end(trim_start(bytes))
}

/// Whether nothing is here, or a space or a tab comes first.
pub fn is_parted(bytes: &[u8]) -> bool
    ensures { result ≡ rest.is_parted bytes.now }
{
    match bytes {
        [] => true,
        [first, ..] => is_white(*first),
    }
}
