// Labels: which the document defines.

ghost use Rattle.std.specs.Prelude.{◌≡◌, ◌≤◌, ◌==◌, IfOk, length, map, not, string_bytes};
ghost use Rattle.std.specs.List.{list_any, prefix_len};
ghost use Rattle.md_meaning.specs.Ascii.{line_feed};
ghost use Rattle.md_inlines.specs.Target as target;
ghost use Rattle.md_inlines.specs.Characters as characters;
ghost use Rattle.md_inlines.specs.Content as content;
ghost use Rattle.md_inlines.specs.Targets as targets;
ghost use Rattle.md_scan.specs.Definitions.{texts};
ghost use Rattle.reference_inlines.specs.Given.{is_listed};

use md_engine::message::Message;
use md_inlines::target::label_len;
use md_scan::bytes::is_white;
use md_scan::label::form_of_bytes;
use md_scan::memory::push;
use std::alloc::Global;

/// The labels that a document defines, in their normal forms.
#[derive(Clone, Copy)]
pub struct Defined<'a> {
    /// Those of its definitions (CommonMark 4.7).
    pub definitions: &'a [String],
    /// Those of its footnotes.
    pub footnotes: &'a [String],
}

/// How many bytes are before the first line feed.
fn line_len(text: &[u8]) -> usize
    ensures value { result ≡ prefix_len (λ b. not (b == line_feed)) text.now }
    ensures bound { result ≤ length text.now }
{
    text.iter().take_while(|byte| **byte != b'\n').count()
}

/// The lines of a text.
///
/// An `Err` says that memory ran out. Each line is pushed, since `collect` would ask for less where a request is refused.
pub fn lines<'a>(alloc: Global, text: &'a [u8]) -> Result<Vec<&'a [u8]>, Message>
    ensures { IfOk result (λ made. texts made.items ≡ target.lines text.now) }
{
    let mut made = Vec::new(alloc);
    let mut start = 0;
    let mut end = line_len(text);
    while end < text.len() {
        push(&mut made, &text[start..end])?;
        start = end + 1;
        end = start + line_len(&text[start..]);
    }
    push(&mut made, &text[start..])?;
    Ok(made)
}

/// Whether a normal form is listed.
fn is_listed(forms: &[String], form: &str) -> bool
    ensures { result ≡ is_listed (map string_bytes forms.now) form.now }
{
    for known in forms {
        if known.as_str() == form {
            return true;
        }
    }
    false
}

/// Whether a label has one of these normal forms.
///
/// An `Err` says that memory ran out.
pub(crate) fn has_form(alloc: Global, forms: &[String], label: &[u8]) -> Result<bool, Message>
    ensures { IfOk result (λ has. has ≡ content.has_form (map string_bytes forms.now) label.now) }
{
    let lines = lines(alloc, label)?;
    let form = form_of_bytes(alloc, &lines)?;
    Ok(is_listed(forms, form.as_str()))
}

/// Whether the text between two brackets is a label.
///
/// An `Err` says that memory ran out.
pub(crate) fn is_own_label(alloc: Global, text: &[u8]) -> Result<bool, Message>
    ensures { IfOk result (λ is. is ≡ target.is_own_label text.now) }
{
    let mut own = Vec::new(alloc);
    if own.extend_from_slice(text).is_err() {
        return Err(Message);
    }
    push(&mut own, b']')?;
    match label_len(&own) {
        Some(len) => Ok(len == text.len()),
        None => Ok(false),
    }
}

/// Whether whitespace is among these bytes.
fn has_gap(text: &[u8]) -> bool
    ensures { result ≡ list_any characters.is_gap text.now }
{
    text.iter().any(|byte| is_white(*byte) || *byte == b'\n')
}

/// Whether the text between two brackets calls one of these footnotes.
///
/// An `Err` says that memory ran out.
pub(crate) fn is_call(alloc: Global, footnotes: &[String], text: &[u8]) -> Result<bool, Message>
    ensures { IfOk result
        (λ is. is ≡ targets.is_call (content.has_form (map string_bytes footnotes.now)) text.now) }
{
    match text {
        [b'^', label @ ..] => {
            if has_gap(label) || !is_own_label(alloc, label)? {
                return Ok(false);
            }
            has_form(alloc, footnotes, label)
        }
        _ => Ok(false),
    }
}
