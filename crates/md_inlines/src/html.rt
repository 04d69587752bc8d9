// Raw HTML (CommonMark 6.6), over as many lines as it takes. Each form is given after its first bytes, and what follows
// it is returned.
ghost use Rattle.std.specs.Prelude.{◌≡◌, ◌≤◌, length, option_copied};
ghost use Rattle.md_meaning.specs.Bytes as ahead;
ghost use Rattle.md_meaning.specs.Html as h;
ghost use Rattle.md_inlines.specs.Characters as characters;
ghost use Rattle.md_inlines.specs.RawHtml as html;
ghost use Rattle.md_inlines.specs.Target as target;
ghost use Rattle.md_inlines.specs.Classes as classes;

use crate::class::{Class, begins_letter, class_len, is_in};
use md_scan::ahead::{after_optional, begins_with};
use md_scan::bytes::{is_white, trim_start};

/// What follows spaces, tabs and at most one line ending.
pub fn after_gap(text: &[u8]) -> &[u8]
    ensures value { result.now ≡ target.after_gap text.now }
    ensures bound { length result.now ≤ length text.now }
{
    trim_start(after_optional(b'\n', trim_start(text)))
}

/// Whether a space, a tab or a line ending comes first.
pub(crate) fn begins_gap(text: &[u8]) -> bool
    ensures { result ≡ ahead.begins characters.is_gap text.now }
{
    match text {
        [first, ..] => is_white(*first) || *first == b'\n',
        [] => false,
    }
}

/// Whether the name of an attribute comes first.
fn begins_attribute(text: &[u8]) -> bool
    ensures { result ≡ ahead.begins h.begins_attribute text.now }
{
    match text {
        [first, ..] => first.is_ascii_alphabetic() || *first == b'_' || *first == b':',
        [] => false,
    }
}

/// What follows the bytes of a class that come first.
fn after_class(class: Class, text: &[u8]) -> &[u8]
    ensures { result.now ≡ ahead.after (classes.is_in class) text.now }
{
    text.split_at(class_len(class, text)).1
}

/// What follows this byte, if it comes first.
fn after_byte(byte: u8, text: &[u8]) -> Option<&[u8]>
    ensures { option_copied result ≡ html.after_byte byte text.now }
{
    match text {
        [first, rest @ ..] if *first == byte => Some(rest),
        _ => None,
    }
}

/// What follows the next such byte.
fn after_next(byte: u8, text: &[u8]) -> Option<&[u8]>
    ensures { option_copied result ≡ h.after_next byte text.now }
{
    let mut rest = text;
    while let [first, others @ ..] = rest {
        if *first == byte {
            return Some(others);
        }
        rest = others;
    }
    None
}

/// What follows the first place where a text has these bytes.
fn after_word<'a>(word: &[u8], text: &'a [u8]) -> Option<&'a [u8]>
    ensures { option_copied result ≡ html.after_word word.now text.now }
{
    let mut rest = text;
    while let [_, others @ ..] = rest {
        if rest.starts_with(word) {
            return Some(rest.split_at(word.len()).1);
        }
        rest = others;
    }
    None
}

/// What follows the value of an attribute.
#[tactic(auto, unfolding(crate::specs::RawHtml::after_value))]
fn after_value(text: &[u8]) -> Option<&[u8]>
    ensures { option_copied result ≡ html.after_value text.now }
{
    match text {
        [quote, rest @ ..] if *quote == b'"' || *quote == b'\'' => after_next(*quote, rest),
        [first, rest @ ..] if is_in(Class::Value, *first) => Some(after_class(Class::Value, rest)),
        _ => None,
    }
}

/// What follows the value of an attribute that may have one, after its name.
#[tactic(auto, unfolding(crate::specs::RawHtml::after_assignment))]
fn after_assignment(text: &[u8]) -> Option<&[u8]>
    ensures { option_copied result ≡ html.after_assignment text.now }
{
    match after_gap(text) {
        [b'=', rest @ ..] => after_value(after_gap(rest)),
        _ => Some(text),
    }
}

/// What follows an attribute: whitespace, a name, and perhaps `=` and a value.
#[tactic(auto, unfolding(crate::specs::RawHtml::after_attribute))]
fn after_attribute(text: &[u8]) -> Option<&[u8]>
    ensures { option_copied result ≡ html.after_attribute text.now }
{
    let name = after_gap(text);
    if begins_gap(text) && begins_attribute(name) {
        after_assignment(after_class(Class::Attribute, name))
    } else {
        None
    }
}

/// What follows all attributes.
fn after_attributes(text: &[u8]) -> &[u8]
    ensures { result.now ≡ html.after_attributes text.now }
{
    let mut rest = text;
    while let Some(more) = after_attribute(rest) {
        rest = more;
    }
    rest
}

/// What follows an opening tag, after its name.
#[tactic(auto, unfolding(crate::specs::RawHtml::after_opening))]
fn after_opening(text: &[u8]) -> Option<&[u8]>
    ensures { option_copied result ≡ html.after_opening text.now }
{
    after_byte(
        b'>',
        after_optional(b'/', after_gap(after_attributes(text))),
    )
}

/// What follows a closing tag, after its `</`.
#[tactic(auto, unfolding(crate::specs::RawHtml::after_closing))]
fn after_closing(text: &[u8]) -> Option<&[u8]>
    ensures { option_copied result ≡ html.after_closing text.now }
{
    if begins_letter(text) {
        after_byte(b'>', after_gap(after_class(Class::Tag, text)))
    } else {
        None
    }
}

/// What follows a comment, after its `<!--`.
#[tactic(auto, unfolding(crate::specs::RawHtml::after_comment))]
fn after_comment(text: &[u8]) -> Option<&[u8]>
    ensures { option_copied result ≡ html.after_comment text.now }
{
    if begins_with(b'>', text) {
        Some(text.split_at(1).1)
    } else if text.starts_with(b"->") {
        Some(text.split_at(2).1)
    } else {
        after_word(b"-->", text)
    }
}

/// What follows a comment, a CDATA section or a declaration, after its `<!`.
#[tactic(auto, unfolding(crate::specs::RawHtml::after_marked))]
fn after_marked(text: &[u8]) -> Option<&[u8]>
    ensures { option_copied result ≡ html.after_marked text.now }
{
    if text.starts_with(b"--") {
        after_comment(text.split_at(2).1)
    } else if text.starts_with(b"[CDATA[") {
        after_word(b"]]>", text.split_at(7).1)
    } else if begins_letter(text) {
        after_next(b'>', text)
    } else {
        None
    }
}

/// What follows the HTML whose `<` is before this text.
#[tactic(auto, unfolding(crate::specs::RawHtml::after_html))]
pub fn after_html(text: &[u8]) -> Option<&[u8]>
    ensures { option_copied result ≡ html.after_html text.now }
{
    match text {
        [b'!', rest @ ..] => after_marked(rest),
        [b'?', rest @ ..] => after_word(b"?>", rest),
        [b'/', rest @ ..] => after_closing(rest),
        [first, rest @ ..] if first.is_ascii_alphabetic() => {
            after_opening(after_class(Class::Tag, rest))
        }
        _ => None,
    }
}
