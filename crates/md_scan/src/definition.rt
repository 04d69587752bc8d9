// Parts of link reference definitions on one line (CommonMark 4.7).
ghost use Rattle.std.specs.Prelude.{◌≡◌, ◌+◌, ◌^◌, ◌<◌, ◌≤◌, ◌&&◌, not, false, length};
ghost use Rattle.std.specs.Prelude.{option_map};
ghost use Rattle.std.specs.List.{prefix_len};
ghost use Rattle.md_meaning.specs.Bytes.{is_end};
ghost use Rattle.md_meaning.specs.Definition as definition;
ghost use Rattle.md_meaning.specs.Enclosed as text;
ghost use Rattle.md_scan.specs.Definitions as m;

use crate::ahead::{after_optional, begins_with};

/// A text on one line up to its closing mark.
#[derive(Clone, Copy)]
pub enum Enclosed<'a> {
    /// The text, and what follows the mark.
    Closed(&'a [u8], &'a [u8]),
    /// The line ends first.
    Open,
    /// The opening mark is in it unescaped.
    Broken,
}

/// A destination, and what follows it on its line.
#[derive(Clone, Copy)]
pub struct Destination<'a> {
    pub text: &'a [u8],
    pub rest: &'a [u8],
}

/// Whether this byte is the mark, and no backslash takes it.
fn is_bare(escaped: bool, byte: u8, mark: u8) -> bool
    ensures { result ≡ m.is_bare escaped byte mark }
{
    !escaped && byte == mark
}

/// The text up to the closing mark. A backslash takes the byte that is next.
pub fn up_to_mark<'a>(opener: u8, closer: u8, line: &'a [u8]) -> Enclosed<'a>
    ensures { m.enclosed_meaning result ≡ text.enclosed opener closer false line.now }
{
    let mut rest = line;
    let mut escaped = false;
    while let Some((first, others)) = rest.split_first() {
        if is_bare(escaped, *first, closer) {
            return Enclosed::Closed(line.split_at(line.len() - rest.len()).0, others);
        }
        if is_bare(escaped, *first, opener) {
            return Enclosed::Broken;
        }
        escaped = is_bare(escaped, *first, b'\\');
        rest = others;
    }
    Enclosed::Open
}

fn is_raw_byte(b: u8) -> bool
    ensures { result ≡ definition.is_raw_byte b }
{
    b == 0 || b > b' ' && b != 0x7f
}

/// How many bytes of a destination without angle brackets come first.
fn raw_len(rest: &[u8]) -> usize
    ensures value { result ≡ prefix_len definition.is_raw_byte rest.now }
    ensures bound { result ≤ length rest.now }
{
    rest.iter().take_while(|b| is_raw_byte(**b)).count()
}

/// How many parentheses are open after this byte, with so many open before it; none if it closes one too many.
fn depth_following(escaped: bool, depth: usize, byte: u8) -> Option<usize>
    requires { depth + 1 < 2 ^ 64 }
    ensures { result ≡ m.depth_following escaped depth byte }
{
    if is_bare(escaped, byte, b')') {
        depth.checked_sub(1)
    } else if is_bare(escaped, byte, b'(') {
        Some(depth + 1)
    } else {
        Some(depth)
    }
}

/// Whether the parentheses nest that no backslash takes.
fn is_balanced(text: &[u8]) -> bool
    ensures { result ≡ definition.balanced 0 false text.now }
{
    let mut depth = 0;
    let mut escaped = false;
    let mut rest = text;
    while let Some((first, others)) = rest.split_first() {
        let Some(following) = depth_following(escaped, depth, *first) else {
            return false;
        };
        depth = following;
        escaped = is_bare(escaped, *first, b'\\');
        rest = others;
    }
    depth == 0
}

/// Whether these bytes are a destination without angle brackets.
fn is_raw(text: &[u8]) -> bool
    ensures { result ≡ not (is_end text.now) && definition.balanced 0 false text.now }
{
    match text {
        [] => false,
        [..] => is_balanced(text),
    }
}

/// The destination that comes first (CommonMark 6.3).
#[tactic(auto, unfolding(md_meaning::specs::Definition::destination_at))]
pub fn destination_at(line: &[u8]) -> Option<Destination<'_>>
    ensures { option_map m.destination_meaning result ≡ definition.destination_at line.now }
{
    if begins_with(b'<', line) {
        return match up_to_mark(b'<', b'>', after_optional(b'<', line)) {
            Enclosed::Closed(text, rest) => Some(Destination { text, rest }),
            Enclosed::Open | Enclosed::Broken => None,
        };
    }
    let (text, rest) = line.split_at(raw_len(line));
    if is_raw(text) {
        Some(Destination { text, rest })
    } else {
        None
    }
}

/// The mark that closes a title which begins with this byte.
pub fn title_closer(b: u8) -> Option<u8>
    ensures { result ≡ definition.title_closer b }
{
    match b {
        b'"' | b'\'' => Some(b),
        b'(' => Some(b')'),
        _ => None,
    }
}
