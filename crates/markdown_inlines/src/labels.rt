// Labels: which the document defines.

ghost use Rattle.std.specs.Prelude.{◌≡◌, ◌==◌, ◌<◌, ◌-◌, true, false, IfOk, count_by, length, map, nat_le};
ghost use Rattle.std.specs.Prelude.{string_bytes};
ghost use Rattle.std.specs.List.{list_all, list_any};
ghost use Rattle.md_meaning.specs.Label.{normal_form};
ghost use Rattle.md_inlines.specs.Target as target;
ghost use Rattle.md_inlines.specs.Characters as characters;
ghost use Rattle.md_inlines.specs.Content as content;
ghost use Rattle.md_inlines.specs.Targets as targets;
ghost use Rattle.md_scan.specs.Definitions.{texts};
ghost use Rattle.markdown_inlines.specs.Own as own;

use md_engine::message::Message;
use md_events::labels::Labels;
use md_scan::bytes::is_white;
use md_scan::label::form_of_bytes;
use md_scan::memory::push;
use std::alloc::Global;

/// The lines of a text.
///
/// An `Err` says that memory ran out. Each line is pushed, since `collect` would ask for less where a request is
/// refused.
fn split_lines<'a>(alloc: Global, text: &'a [u8]) -> Result<Vec<&'a [u8]>, Message>
    ensures { IfOk result (λ made. texts made.items ≡ target.lines text.now) }
{
    let mut made = Vec::new(alloc);
    for line in text.split(|byte| *byte == b'\n') {
        push(&mut made, line)?;
    }
    Ok(made)
}

/// The normal form of a label.
///
/// An `Err` says that memory ran out.
fn form_of(alloc: Global, label: &[u8]) -> Result<String, Message>
    ensures { IfOk result (λ form. string_bytes form ≡ normal_form (target.lines label.now)) }
{
    if !label.contains(&b'\n') {
        return form_of_bytes(alloc, &[label]);
    }
    let lines = split_lines(alloc, label)?;
    form_of_bytes(alloc, &lines)
}

/// Whether a definition has this label.
///
/// An `Err` says that memory ran out.
pub(crate) fn is_definition(
    alloc: Global,
    labels: &Labels<'_>,
    label: &[u8],
) -> Result<bool, Message>
    ensures { IfOk result
        (λ is. is ≡ content.has_form (map string_bytes labels.now.definitions.forms.now) label.now) }
{
    let form = form_of(alloc, label)?;
    Ok(labels.definition(form.as_str()).is_some())
}

/// Whether a footnote has this label.
///
/// An `Err` says that memory ran out.
fn is_footnote(alloc: Global, labels: &Labels<'_>, label: &[u8]) -> Result<bool, Message>
    ensures { IfOk result
        (λ is. is ≡ content.has_form (map string_bytes labels.now.footnotes.forms.now) label.now) }
{
    let form = form_of(alloc, label)?;
    Ok(labels.footnote_definition(form.as_str()).is_some())
}

/// Whether a text has at most so many bytes as a label may have, without its line endings.
fn is_short(text: &[u8]) -> bool
    ensures { result ≡ nat_le (length text.now - count_by (λ b. b == 10) text.now) 999 }
{
    if text.len() <= 999 {
        return true;
    }
    let mut left: usize = 999;
    let mut rest = text;
    while let Some((byte, following)) = rest.split_first() {
        if *byte != b'\n' {
            if left == 0 {
                return false;
            }
            left -= 1;
        }
        rest = following;
    }
    true
}

/// Whether a bracket after a text is the first that no backslash takes.
fn is_whole(text: &[u8]) -> bool
    ensures { result ≡ own.is_whole false text.now }
{
    let mut escaped = false;
    let mut rest = text;
    while let Some((byte, following)) = rest.split_first() {
        if escaped {
            escaped = false;
        } else if *byte == b']' || *byte == b'[' {
            return false;
        } else {
            escaped = *byte == b'\\';
        }
        rest = following;
    }
    !escaped
}

/// Whether whitespace is all of it.
fn is_blank(text: &[u8]) -> bool
    ensures { result ≡ list_all characters.is_gap text.now }
{
    text.iter().all(|byte| is_white(*byte) || *byte == b'\n')
}

/// Whether the text between two brackets is a label. A bracket is looked for first, so no byte is looked at for more than
/// two pairs of brackets.
pub(crate) fn is_own_label(text: &[u8]) -> bool
    ensures { result ≡ target.is_own_label text.now }
{
    if !is_whole(text) {
        return false;
    }
    if !is_short(text) {
        return false;
    }
    !is_blank(text)
}

/// Whether whitespace is among these bytes.
fn has_gap(text: &[u8]) -> bool
    ensures { result ≡ list_any characters.is_gap text.now }
{
    text.iter().any(|byte| is_white(*byte) || *byte == b'\n')
}

/// Whether the text between two brackets calls a footnote.
///
/// An `Err` says that memory ran out.
pub(crate) fn is_call(alloc: Global, labels: &Labels<'_>, text: &[u8]) -> Result<bool, Message>
    ensures value { IfOk result
        (λ is. is ≡ targets.is_call
        (content.has_form (map string_bytes labels.now.footnotes.forms.now)) text.now) }
    ensures some { IfOk result (λ is. is ≡ true → 0 < length text.now) }
{
    match text {
        [b'^', label @ ..] => {
            if !is_own_label(label) || has_gap(label) {
                return Ok(false);
            }
            is_footnote(alloc, labels, label)
        }
        _ => Ok(false),
    }
}
