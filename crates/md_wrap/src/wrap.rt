// Whole texts in a container: a quote, a list item or a footnote definition around a text, of which all bytes are kept.
//
// A prefix comes before each line. A line ends at LF, CR or CR LF (CommonMark 2.1); bytes after the last ending are a
// last line, and no bytes are none. An empty line has its prefix too, so it does not end the container.
//
// What a text means that is wrapped so is known for most texts: the container, with what the text means in it. That is
// the law in the contract of each function, with the texts that it speaks of. It speaks of no text with a tab, whose
// columns would change, nor of one with a byte order mark or frontmatter, which are at the front of a document alone.
// Where alerts are on, that of a quote speaks of no text whose first line is the marker of a kind either: after `> ` it
// would make the quote an alert.

ghost use Rattle.std.specs.Prelude.{◌≡◌, ◌≢◌, ◌<◌, ◌≤◌, [], ◌∷◌, drop, length, take, string_bytes, IfOk, OnOk, ◌++◌};
ghost use Rattle.std.specs.List.{concat};
ghost use Rattle.std.specs.Str.{IsCharBoundary};
ghost use Rattle.md_meaning.specs.Lines.{full_lines_of};
ghost use Rattle.md_meaning.specs.Wrapped.{IsItemOf, IsQuoteOf, IsSmall, prefixed};
ghost use Rattle.md_wrap.specs.Endings.{ending_len};
ghost use Rattle.md_wrap.specs.Footnoted.{IsFootnoteOf};

use md_engine::configuration::ParseOptions;
use md_engine::message::Message;
use memchr::memchr2;
use std::alloc::Global;

/// How many bytes the line ending has that is first, and 0 of no bytes.
fn ending_len(bytes: &[u8]) -> usize
    ensures value { result ≡ ending_len bytes.now }
    ensures within { result ≤ length bytes.now }
{
    match bytes {
        [b'\r', b'\n', ..] => 2,
        [_, ..] => 1,
        [] => 0,
    }
}

/// How many bytes the first line of a text has, with its ending.
fn line_len(text: &str) -> usize
    ensures line { text.now ≢ [] →
        full_lines_of text.now ≡ take result text.now ∷ full_lines_of (drop result text.now) }
    ensures some { text.now ≢ [] → 0 < result }
    ensures cut { IsCharBoundary text.now result }
{
    let bytes = text.as_bytes();
    match memchr2(b'\n', b'\r', bytes) {
        Some(at) => at + ending_len(&bytes[at..]),
        None => bytes.len(),
    }
}

/// An empty text with room for a text with a prefix of at most so many bytes before each of its lines.
fn with_room(alloc: Global, text: &str, prefix_len: usize) -> Result<String, Message>
    requires { IsSmall text.now }
    ensures { IfOk result (λ room. string_bytes room ≡ []) }
{
    let endings = text
        .bytes()
        .filter(|byte| *byte == b'\n' || *byte == b'\r')
        .count();
    let prefixes = prefix_len.saturating_mul(endings + 1);
    match String::with_capacity(alloc, text.len().saturating_add(prefixes)) {
        Ok(room) => Ok(room),
        Err(_) => Err(Message),
    }
}

/// Appends to a text. After an `Err` it is as it was.
fn push(text: &mut String, more: &str) -> Result<(), Message>
    ensures { OnOk result (string_bytes text.new ≡ string_bytes text.old ++ more.now) }
{
    match text.push_str(more) {
        Ok(()) => Ok(()),
        Err(_) => Err(Message),
    }
}

/// A text with `first` before its first line, and `further` before each other.
fn prefixed(alloc: Global, text: &str, first: &str, further: &str) -> Result<String, Message>
    requires { IsSmall text.now }
    ensures { IfOk result
        (λ wrapped. string_bytes wrapped ≡ concat (prefixed first.now further.now (full_lines_of text.now))) }
{
    let mut wrapped = with_room(alloc, text, first.len().max(further.len()))?;
    let mut prefix = first;
    let mut left = text;
    'lines: while !left.is_empty() {
        let (line, following) = left.split_at(line_len(left));
        push(&mut wrapped, prefix)?;
        push(&mut wrapped, line)?;
        prefix = further;
        left = following;
    }
    Ok(wrapped)
}

/// A text in a block quote (CommonMark 5.1): `> ` before each line. The empty text stays empty.
///
/// The text has at most `usize::MAX / 8` bytes. The options change no byte: the contract says what the quote means with
/// them. An `Err` says that memory ran out; then nothing is handed out.
pub fn quote(alloc: Global, value: &str, options: &ParseOptions) -> Result<String, Message>
    requires { IsSmall value.now }
    ensures { IfOk result (λ quote. IsQuoteOf options.now value.now (string_bytes quote)) }
{
    prefixed(alloc, value, "> ", "> ")
}

/// A text in a list item (CommonMark 5.2) of a list of its own: `+ ` before the first line, and two spaces before each
/// other. The empty text stays empty.
///
/// The text has at most `usize::MAX / 8` bytes. The options change no byte: the contract says what the item means with
/// them. An `Err` says that memory ran out; then nothing is handed out.
pub fn item(alloc: Global, value: &str, options: &ParseOptions) -> Result<String, Message>
    requires { IsSmall value.now }
    ensures { IfOk result (λ item. IsItemOf options.now value.now (string_bytes item)) }
{
    prefixed(alloc, value, "+ ", "  ")
}

/// A text in a footnote definition (GFM) with the label `x`: `[^x]: ` before the first line, and four spaces before
/// each other. The empty text stays empty.
///
/// The text has at most `usize::MAX / 8` bytes. The options change no byte: the contract says what the footnote means
/// with them. An `Err` says that memory ran out; then nothing is handed out.
pub fn footnote(alloc: Global, value: &str, options: &ParseOptions) -> Result<String, Message>
    requires { IsSmall value.now }
    ensures { IfOk result (λ footnote. IsFootnoteOf options.now value.now (string_bytes footnote)) }
{
    prefixed(alloc, value, "[^x]: ", "    ")
}
