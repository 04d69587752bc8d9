// What is found at the front of a text.

ghost use Rattle.std.specs.Prelude.{◌≡◌, IfOk};
ghost use Rattle.examples_marks.specs.References as spec;

use crate::label::label_len;
use md_engine::message::Message;
use md_events::labels::Labels;
use std::alloc::Global;

/// What is at the front of a text.
#[derive(Clone, Copy, Debug, PartialEq, Eq)]
pub enum Found {
    /// So many bytes of text.
    Text(usize),
    /// A reference, whose label has so many bytes.
    Reference(usize),
}

/// What is at the front of a text, whose first byte is this.
///
/// An `Err` says that memory ran out.
pub(crate) fn found_at(
    alloc: Global,
    labels: &Labels,
    byte: u8,
    following: &[u8],
) -> Result<Found, Message>
    ensures { IfOk result (λ found. found ≡ spec.found (spec.forms_of labels.now) byte following.now) }
{
    match byte {
        b'\\' => Ok(Found::Text(if following.is_empty() { 1 } else { 2 })),
        b'[' => match label_len(alloc, labels, following)? {
            Some(len) => Ok(Found::Reference(len)),
            None => Ok(Found::Text(1)),
        },
        _ => Ok(Found::Text(1)),
    }
}
