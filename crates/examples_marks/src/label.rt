// Labels of references: which text between brackets is a label that a definition of the document has.

ghost use Rattle.std.specs.Prelude.{◌≡◌, IfOk, count_by, not};
ghost use Rattle.std.specs.List.{list_all};
ghost use Rattle.md_meaning.specs.Lines.{is_ending};
ghost use Rattle.examples_marks.specs.References as spec;

use md_engine::message::Message;
use md_events::labels::Labels;
use md_scan::definition::{Enclosed, up_to_mark};
use md_scan::label::form_of_bytes;
use md_scan::memory;
use std::alloc::Global;

/// How many bytes a label has at most, endings of lines left out.
const MOST: usize = 999;

/// Whether a line ends with this byte.
fn ends_line(byte: u8) -> bool
    ensures { result ≡ is_ending byte }
{
    byte == b'\n' || byte == b'\r'
}

/// Whether this is a space, a tab or a byte that ends a line.
fn is_gap(byte: u8) -> bool
    ensures { result ≡ spec.is_gap byte }
{
    byte == b' ' || byte == b'\t' || ends_line(byte)
}

/// Whether a text is made of spaces, tabs and endings of lines alone.
fn is_blank(text: &[u8]) -> bool
    ensures { result ≡ list_all spec.is_gap text.now }
{
    text.iter().all(|byte| is_gap(*byte))
}

/// How many bytes a text has, endings of lines left out.
fn bare_len(text: &[u8]) -> usize
    ensures { result ≡ count_by (λ b. not (is_ending b)) text.now }
{
    text.iter().filter(|byte| !ends_line(**byte)).count()
}

/// Whether a text is a label: not blank, and not too long.
fn is_label(text: &[u8]) -> bool
    ensures { result ≡ spec.is_label text.now }
{
    !is_blank(text) && bare_len(text) <= MOST
}

/// A byte, and a space for one that ends a line.
fn unended(byte: u8) -> u8
    ensures { result ≡ spec.unended byte }
{
    if ends_line(byte) { b' ' } else { byte }
}

/// A text on one line.
///
/// An `Err` says that memory ran out.
fn on_one_line(alloc: Global, text: &[u8]) -> Result<Vec<u8>, Message>
    ensures { IfOk result (λ line. line.items ≡ spec.on_one_line text.now) }
{
    let mut line = Vec::new(alloc);
    for byte in text {
        memory::push(&mut line, unended(*byte))?;
    }
    Ok(line)
}

/// Whether a normal form is among those of the labels of all definitions. It takes time that grows with the logarithm of
/// their number.
fn is_listed(labels: &Labels, form: &str) -> bool
    ensures { result ≡ spec.is_listed (spec.forms_of labels.now) form.now }
{
    labels.definition(form).is_some()
}

/// Whether a text is a label, and a definition of the document has it.
///
/// An `Err` says that memory ran out.
fn is_defined(alloc: Global, labels: &Labels, text: &[u8]) -> Result<bool, Message>
    ensures { IfOk result (λ is. is ≡ spec.is_defined (spec.forms_of labels.now) text.now) }
{
    if !is_label(text) {
        return Ok(false);
    }
    let line = on_one_line(alloc, text)?;
    let form = form_of_bytes(alloc, &[line.as_slice()])?;
    Ok(is_listed(labels, &form))
}

/// How many bytes the label has whose `[` is before this text; none if it is no reference.
///
/// An `Err` says that memory ran out.
pub fn label_len(alloc: Global, labels: &Labels, text: &[u8]) -> Result<Option<usize>, Message>
    ensures { IfOk result (λ len. len ≡ spec.label_len (spec.forms_of labels.now) text.now) }
{
    let Enclosed::Closed(label, _) = up_to_mark(b'[', b']', text) else {
        return Ok(None);
    };
    if is_defined(alloc, labels, label)? {
        Ok(Some(label.len()))
    } else {
        Ok(None)
    }
}
