// A chunk of a text part: its text, and what is left out around it.

ghost use Rattle.std.specs.Prelude.{◌≡◌, ◌≤◌, ◌<◌, ◌+◌, ◌^◌, true, length, nat_lt};
ghost use Rattle.std.specs.List.{prefix_len};
ghost use Rattle.md_meaning.specs.Lines.{without_ending};
ghost use Rattle.md_events.specs.Events.Inline.{chunk_text};
ghost use Rattle.md_inline_events.specs.Room as room;
ghost use Rattle.md_inline_events.specs.Room.{IsStretch};
ghost use Rattle.md_inline_events.specs.Woven as woven;

use md_engine::class::above_cr_len;
use md_events::inline::Chunk;
use md_scan::bytes::{white_end_len, white_len};

/// A chunk: the whitespace before its text, its text, the whitespace after it, and its ending.
#[derive(Clone, Copy, Debug)]
pub struct Sides<'a> {
    pub(crate) indent: &'a [u8],
    pub(crate) text: &'a [u8],
    pub(crate) trail: &'a [u8],
    pub(crate) ending: &'a [u8],
    /// Whether each byte of the text is known to be one column.
    pub(crate) is_even: bool,
    ghost even: { is_even ≡ true → room.is_even text.now ≡ true },
}

/// How many bytes are before the first ending of a line, counted one by one.
fn each_line_len(text: &[u8]) -> usize
    ensures value { result ≡ length (without_ending text.now) }
    ensures bound { result ≤ length text.now }
{
    text.iter()
        .take_while(|byte| **byte != b'\n' && **byte != b'\r')
        .count()
}

/// The same, where so many bytes in front are greater than CR.
fn line_len(text: &[u8], at: usize) -> usize
    requires counted { at ≡ prefix_len (nat_lt 13) text.now }
    requires within { at ≤ length text.now }
    ensures value { result ≡ length (without_ending text.now) }
    ensures bound { result ≤ length text.now }
{
    at + each_line_len(&text[at..])
}

/// How many bytes at the front of a line are whitespace that is left out.
fn indent_len(leaves_out: bool, line: &[u8]) -> usize
    ensures value { result ≡ woven.indent_len leaves_out line.now }
    ensures bound { result ≤ length line.now }
{
    if leaves_out { white_len(line) } else { 0 }
}

/// How many bytes are before the whitespace that is left out at the end of a line.
fn text_len(leaves_out: bool, rest: &[u8]) -> usize
    ensures value { result ≡ woven.text_len leaves_out rest.now }
    ensures bound { result ≤ length rest.now }
{
    if leaves_out {
        rest.len() - white_end_len(rest)
    } else {
        rest.len()
    }
}

/// The bytes of a chunk, where whitespace before its text is left out, or whitespace after it.
pub(crate) fn divided<'a>(starts: bool, ends: bool, text: &'a [u8]) -> Sides<'a>
    ensures indent { result.indent.now ≡ (woven.sides starts ends text.now).indent }
    ensures text { result.text.now ≡ (woven.sides starts ends text.now).text }
    ensures trail { result.trail.now ≡ (woven.sides starts ends text.now).trail }
    ensures ending { result.ending.now ≡ (woven.sides starts ends text.now).ending }
    ensures sized { length result.indent.now + (length result.text.now + length result.trail.now) ≤ length text.now }
{
    let even = above_cr_len(text);
    let (line, ending) = text.split_at(line_len(text, even));
    let (indent, rest) = line.split_at(indent_len(starts, line));
    let (text, trail) = rest.split_at(text_len(ends, rest));
    Sides {
        indent,
        text,
        trail,
        ending,
        is_even: line.len() <= even,
    }
}

/// The bytes of a chunk.
pub(crate) fn chunk_text<'a>(bytes: &'a [u8], chunk: &Chunk) -> &'a [u8]
    requires { IsStretch bytes.now chunk.now }
    ensures value { result.now ≡ chunk_text bytes.now chunk.now }
    ensures sized { chunk.now.first.index + length result.now < 2 ^ 61 }
{
    &bytes[chunk.first.index..chunk.after.index]
}

/// The next chunk of a part, and those after it.
pub(crate) fn next_side<'a>(
    bytes: &'a [u8],
    starts: bool,
    ends: bool,
    chunk: &Chunk,
    chunks: &[Chunk],
) -> Sides<'a>
    requires { IsStretch bytes.now chunk.now }
    ensures indent { result.indent.now ≡ (woven.next_side bytes.now starts ends chunk.now chunks.now).indent }
    ensures text { result.text.now ≡ (woven.next_side bytes.now starts ends chunk.now chunks.now).text }
    ensures trail { result.trail.now ≡ (woven.next_side bytes.now starts ends chunk.now chunks.now).trail }
    ensures ending { result.ending.now ≡ (woven.next_side bytes.now starts ends chunk.now chunks.now).ending }
    ensures sized { chunk.now.first.index
        + (length result.indent.now + (length result.text.now + length result.trail.now)) < 2 ^ 61 }
{
    divided(starts, ends && chunks.is_empty(), chunk_text(bytes, chunk))
}
