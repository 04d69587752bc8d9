// The lines of a text, as an outline shows them.

ghost use Rattle.std.specs.Prelude.{◌≡◌, ◌≤◌, ◌+◌, ◌-◌, ◌∷◌, [], ◌++◌, true, length, slice_range, IfOk, OnOk};
ghost use Rattle.std.specs.List.{prefix_len, suffix_len};
ghost use Rattle.std.specs.Str.{IsUtf8};
ghost use Rattle.md_meaning.specs.Outline.{entries_of, entry_with};
ghost use Rattle.md_meaning.specs.Rest.{is_white, trim, trim_start};
ghost use Rattle.md_meaning.specs.Texts.{first_byte, split_lines, trim_each};
ghost use Rattle.md_events.specs.Events.Places.{last_line};
ghost use Rattle.md_outline.specs.TextLines.{after_ending, first_as, first_full_as, full_as, line_len, lines_as};
ghost use Rattle.md_outline.specs.TextLines.{text_entries};

use md_engine::class::above_cr_len;
use md_engine::message::Message;
use md_meaning::outline::{OutlineLine, Word};
use std::str;

/// One more. A number that is no `usize` is one of which no memory holds so many.
pub fn next(number: usize) -> Result<usize, Message>
    ensures { IfOk result (λ n. n ≡ number + 1) }
{
    number.checked_add(1).ok_or(Message)
}

/// Whether this is a space or a tab.
pub fn is_space_or_tab(byte: u8) -> bool
    ensures { result ≡ is_white byte }
{
    byte == b' ' || byte == b'\t'
}

/// How many spaces and tabs are at the front.
pub fn white_len(bytes: &[u8]) -> usize
    ensures value { result ≡ prefix_len is_white bytes.now }
    ensures bound { result ≤ length bytes.now }
{
    bytes
        .iter()
        .take_while(|byte| is_space_or_tab(**byte))
        .count()
}

/// How many spaces and tabs are at the end.
fn white_end_len(bytes: &[u8]) -> usize
    ensures value { result ≡ suffix_len is_white bytes.now }
    ensures bound { result ≤ length bytes.now }
{
    bytes
        .iter()
        .rev()
        .take_while(|byte| is_space_or_tab(**byte))
        .count()
}

/// How many bytes are before the first line ending. Most bytes are greater than CR, and many of them are compared at
/// once.
pub fn first_line_len(text: &[u8]) -> usize
    ensures value { result ≡ line_len text.now }
    ensures bound { result ≤ length text.now }
{
    let mut at = above_cr_len(text);
    while at < text.len() && text[at] != b'\n' && text[at] != b'\r' {
        at += 1;
        at += above_cr_len(&text[at..]);
    }
    at
}

/// What follows the line ending that comes first: LF, CR or CR LF.
pub fn following_ending(bytes: &[u8]) -> &[u8]
    ensures value { result.now ≡ after_ending bytes.now }
    ensures bound { length result.now ≤ length bytes.now - 1 }
{
    match bytes {
        [b'\r', b'\n', rest @ ..] | [_, rest @ ..] => rest,
        [] => bytes,
    }
}

/// The bytes from one place to another, as far as the text goes.
pub fn part(bytes: &[u8], first: usize, end: usize) -> &[u8]
    ensures { result.now ≡ slice_range bytes.now first end }
{
    let end = end.min(bytes.len());
    if first < end { &bytes[first..end] } else { &[] }
}

/// The first byte of a text, 0 if it is empty.
pub fn first_of(text: &[u8]) -> u8
    ensures { result ≡ first_byte text.now }
{
    match text {
        [first, ..] => *first,
        [] => 0,
    }
}

/// The text that these bytes are. A text is cut only beside bytes of ASCII, so that each part of it is UTF-8.
pub fn text_of(bytes: &[u8]) -> &str
    ensures { IsUtf8 bytes.now → result.now ≡ bytes.now }
{
    str::from_utf8(bytes).unwrap_or("")
}

/// The text of a line after the spaces and tabs before it.
pub fn line_text(line: &[u8]) -> &str
    ensures { IsUtf8 line.now → result.now ≡ trim_start line.now }
{
    let (_, rest) = line.split_at(white_len(line));
    text_of(rest)
}

/// The text of a line without outer spaces and tabs.
pub fn trimmed_text(line: &[u8]) -> &str
    ensures { IsUtf8 line.now → result.now ≡ trim line.now }
{
    let (_, rest) = line.split_at(white_len(line));
    let (text, _) = rest.split_at(rest.len() - white_end_len(rest));
    text_of(text)
}

/// Adds a line to an outline.
pub fn push<'a>(
    lines: &mut Vec<OutlineLine<'a>>,
    depth: usize,
    word: Word,
    text: &'a str,
) -> Result<(), Message>
    ensures { OnOk result
        (entries_of lines.new.items ≡ entries_of lines.old.items ++ entry_with depth word text.now ∷ []) }
{
    let line = OutlineLine {
        depth,
        word,
        spaces: 0,
        text,
    };
    match lines.push(line) {
        Ok(()) => Ok(()),
        Err(_) => Err(Message),
    }
}

/// Adds the lines of a text that have an ending, and answers what follows the last ending.
#[inline(always)]
pub fn push_full_lines<'a>(
    lines: &mut Vec<OutlineLine<'a>>,
    depth: usize,
    word: Word,
    text: &'a [u8],
) -> Result<&'a [u8], Message>
    ensures rest { IfOk result
        (λ rest. IsUtf8 text.now → IsUtf8 rest.now × (rest.now ≡ last_line (split_lines text.now))) }
    ensures lines { OnOk result
        (IsUtf8 text.now → entries_of lines.new.items ≡ entries_of lines.old.items ++ full_as word depth text.now) }
{
    let mut left = text;
    'rest: loop {
        let (line, ending) = left.split_at(first_line_len(left));
        if ending.is_empty() {
            return Ok(left);
        }
        push(lines, depth, word, line_text(line))?;
        left = following_ending(ending);
    }
}

/// Adds the lines of a text.
pub fn push_lines<'a>(
    lines: &mut Vec<OutlineLine<'a>>,
    depth: usize,
    word: Word,
    text: &'a [u8],
) -> Result<(), Message>
    ensures { OnOk result
        (IsUtf8 text.now → entries_of lines.new.items ≡ entries_of lines.old.items ++ lines_as word depth text.now) }
{
    let rest = push_full_lines(lines, depth, word, text)?;
    push(lines, depth, word, line_text(rest))
}

/// Adds the lines of a text, the first as it is.
pub fn push_first_lines<'a>(
    lines: &mut Vec<OutlineLine<'a>>,
    depth: usize,
    word: Word,
    text: &'a [u8],
) -> Result<(), Message>
    ensures { OnOk result
        (IsUtf8 text.now → entries_of lines.new.items ≡ entries_of lines.old.items ++ first_as word depth text.now) }
{
    let (line, ending) = text.split_at(first_line_len(text));
    push(lines, depth, word, text_of(line))?;
    if ending.is_empty() {
        return Ok(());
    }
    push_lines(lines, depth, word, following_ending(ending))
}

/// Adds the first line of a text, as it is, and those after it that have an ending.
pub fn push_first_full<'a>(
    lines: &mut Vec<OutlineLine<'a>>,
    depth: usize,
    word: Word,
    text: &'a [u8],
) -> Result<(), Message>
    ensures { OnOk result (IsUtf8 text.now →
        entries_of lines.new.items ≡ entries_of lines.old.items ++ first_full_as word depth text.now) }
{
    let (line, ending) = text.split_at(first_line_len(text));
    push(lines, depth, word, text_of(line))?;
    push_full_lines(lines, depth, word, following_ending(ending))?;
    Ok(())
}

/// Whether a text, which is short, is seen to be one line: each of its bytes comes after CR. All are looked at, so that
/// no look waits for the one before.
fn is_one_line(text: &[u8]) -> bool
    ensures { result ≡ true → line_len text.now ≡ length text.now }
{
    let mut is_one = true;
    for byte in text {
        is_one &= *byte > b'\r';
    }
    is_one
}

/// Whether a text is one line without an ending that begins with neither a space nor a tab.
fn is_trimmed_line(text: &[u8]) -> bool
    ensures { result ≡ true → trim_each (split_lines text.now) ≡ text.now ∷ [] }
{
    is_one_line(text) && white_len(text) == 0
}

/// Adds the lines of a text, which is most often one that is shown as it is.
pub fn push_text<'a>(
    lines: &mut Vec<OutlineLine<'a>>,
    depth: usize,
    text: &'a str,
) -> Result<(), Message>
    ensures { OnOk result (entries_of lines.new.items ≡ entries_of lines.old.items ++ text_entries depth text.now) }
{
    if is_trimmed_line(text.as_bytes()) {
        push(lines, depth, Word::Line, text)
    } else {
        push_lines(lines, depth, Word::Line, text.as_bytes())
    }
}
