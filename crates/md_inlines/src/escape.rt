// Escapes and character references (CommonMark 2.4, 2.5).
ghost use Rattle.std.specs.Prelude.{◌≡◌};
ghost use Rattle.md_inlines.specs.Escape as escape;
ghost use Rattle.md_inlines.specs.Classes.{is_in};

use crate::Reference;
use crate::class::{Class, class_len};
use md_entities::is_name;
use md_scan::ahead::begins_with;

/// Whether an escape comes first: a backslash before ASCII punctuation.
pub fn is_escape(text: &[u8]) -> bool
    ensures { result ≡ escape.is_escape text.now }
{
    match text {
        [b'\\', byte, ..] => byte.is_ascii_punctuation(),
        _ => false,
    }
}

/// How many bytes of a class come first, if there are 1 to so many and then a `;`.
fn value_len(class: Class, most: usize, text: &[u8]) -> Option<usize>
    ensures { result ≡ escape.value_len (is_in class) most text.now }
{
    let len = class_len(class, text);
    if 1 <= len && len <= most && begins_with(b';', text.split_at(len).1) {
        Some(len)
    } else {
        None
    }
}

/// How many bytes of a name come first, if a `;` follows it.
fn name_len(text: &[u8]) -> Option<usize>
    ensures { result ≡ escape.name_len text.now }
{
    let len = class_len(Class::Alphanumeric, text);
    let (name, rest) = text.split_at(len);
    if begins_with(b';', rest) && is_name(name) {
        Some(len)
    } else {
        None
    }
}

fn with_markers(markers: usize, value: Option<usize>) -> Option<Reference>
    ensures { result ≡ escape.with_markers markers value }
{
    match value {
        Some(value) => Some(Reference { markers, value }),
        None => None,
    }
}

/// The reference by number whose `&#` is before this text.
fn numeric(text: &[u8]) -> Option<Reference>
    ensures { result ≡ escape.numeric text.now }
{
    match text {
        [b'x' | b'X', digits @ ..] => with_markers(2, value_len(Class::HexDigit, 6, digits)),
        [_, ..] => with_markers(1, value_len(Class::Digit, 7, text)),
        [] => None,
    }
}

/// The character reference whose `&` is before this text.
#[tactic(auto, unfolding(crate::specs::Escape::reference_at))]
pub fn reference_at(text: &[u8]) -> Option<Reference>
    ensures { result ≡ escape.reference_at text.now }
{
    match text {
        [b'#', rest @ ..] => numeric(rest),
        [_, ..] => with_markers(0, name_len(text)),
        [] => None,
    }
}
