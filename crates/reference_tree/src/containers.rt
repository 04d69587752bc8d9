// Containers: block quotes, list items and footnote definitions.

ghost use Rattle.std.specs.Prelude.{◌≡◌, ◌+◌, ◌≤◌, ◌&&◌, false, length, nat_le, IfSome};
ghost use Rattle.std.specs.List.{prefix_len};
ghost use Rattle.md_meaning.specs.Alert.{alert_at};
ghost use Rattle.md_meaning.specs.Containers as containers;
ghost use Rattle.md_meaning.specs.Lines as lines;
ghost use Rattle.reference_tree.specs.Rests.{rest_meaning};
ghost use Rattle.reference_tree.specs.States.{container_meaning, taken_meaning, taken_option};
ghost use Rattle.reference_tree.specs.Markers.{marker_meaning, marker_option, label_split};

use crate::alert::{after_marker, alert_at};
use crate::leaves::is_rule;
use crate::rest::Rest;
use crate::state::{Container, Taken};
use md_engine::configuration::ParseOptions;
use md_meaning::alert::AlertKind;
use md_scan::ahead::begins_with;
use md_scan::bytes::{is_blank, is_parted, is_white};

/// A quote's prefix: a small indent, `>`, and one column of whitespace if there is one (CommonMark 5.1).
#[tactic(auto, unfolding(md_meaning::specs::Containers::quote_taken))]
fn quote_taken<'a>(
    options: &ParseOptions,
    kind: Option<AlertKind>,
    rest: &Rest<'a>,
) -> Option<Taken<'a>>
    ensures { taken_option result ≡ containers.quote_taken options.now kind (rest_meaning rest.now) }
{
    let marker = rest.after_indent();
    if !rest.has_small_indent(options) || !begins_with(b'>', marker.bytes) {
        return None;
    }
    Some(Taken {
        container: Container::Quote(kind),
        rest: marker.following(1).lose(1),
    })
}

/// A nonblank line continues an item if it is indented by its width; a blank line does, unless it comes directly after
/// a first line that was blank (CommonMark 5.2).
#[tactic(auto, unfolding(md_meaning::specs::Containers::item_continues))]
fn item_continues<'a>(
    digits: &'a [u8],
    marker: u8,
    width: usize,
    starts_blank: bool,
    rest: &Rest<'a>,
) -> Option<Taken<'a>>
    ensures { taken_option result ≡
        containers.item_continues digits.now marker width starts_blank (rest_meaning rest.now) }
{
    let is_continued = if is_blank(rest.bytes) {
        !starts_blank
    } else {
        width <= rest.indent()
    };
    if !is_continued {
        return None;
    }
    Some(Taken {
        container: Container::Item {
            digits,
            marker,
            width,
            starts_blank: false,
        },
        rest: rest.lose(width),
    })
}

/// A footnote definition continues with blank lines and with lines indented by 4 columns (own choice, as on GitHub).
#[tactic(auto, unfolding(md_meaning::specs::Containers::footnote_continues))]
fn footnote_continues<'a>(label: &'a [u8], rest: &Rest<'a>) -> Option<Taken<'a>>
    ensures { taken_option result ≡ containers.footnote_continues label.now (rest_meaning rest.now) }
{
    if !is_blank(rest.bytes) && rest.indent() < 4 {
        return None;
    }
    Some(Taken {
        container: Container::Footnote(label),
        rest: rest.lose(4),
    })
}

/// Whether an open container continues on this line, and the rest in it.
pub fn continues<'a>(
    options: &ParseOptions,
    container: &Container<'a>,
    rest: &Rest<'a>,
) -> Option<Taken<'a>>
    ensures { taken_option result ≡
        containers.continues options.now (container_meaning container.now) (rest_meaning rest.now) }
{
    match *container {
        Container::Quote(kind) => quote_taken(options, kind, rest),
        Container::Item {
            digits,
            marker,
            width,
            starts_blank,
        } => { item_continues(digits, marker, width, starts_blank, rest) }
        Container::Footnote(label) => footnote_continues(label, rest),
    }
}

/// A quote, and its kind if its first rest is the marker of one: then all of it belongs to the prefix.
fn with_kind<'a>(options: &ParseOptions, taken: Taken<'a>) -> Taken<'a>
    ensures { taken_meaning result ≡
        containers.taken_as (taken_meaning taken.entry) (alert_at options.now (rest_meaning taken.entry.rest)) }
{
    match alert_at(options, &taken.rest) {
        None => taken,
        Some(kind) => Taken {
            container: Container::Quote(Some(kind)),
            rest: after_marker(kind, &taken.rest),
        },
    }
}

/// A quote, or an alert.
#[tactic(auto, unfolding(md_meaning::specs::Containers::opens_quote))]
fn opens_quote<'a>(options: &ParseOptions, rest: &Rest<'a>) -> Option<Taken<'a>>
    ensures { taken_option result ≡ containers.opens_quote options.now (rest_meaning rest.now) }
{
    if !options.constructs.block_quote {
        return None;
    }
    let taken = quote_taken(options, None, rest)?;
    Some(with_kind(options, taken))
}

/// A list marker: the digits of an ordered one, and the byte after them.
#[derive(Clone, Copy)]
struct Marker<'a> {
    digits: &'a [u8],
    byte: u8,
}

/// Whether this is a digit of ASCII.
fn is_digit(byte: u8) -> bool
    ensures { result ≡ containers.is_digit byte }
{
    b'0' <= byte && byte <= b'9'
}

/// How many digits are at the front.
fn digits_len(bytes: &[u8]) -> usize
    ensures value { result ≡ prefix_len containers.is_digit bytes.now }
    ensures bound { result ≤ length bytes.now }
{
    bytes.iter().take_while(|byte| is_digit(**byte)).count()
}

/// The `.` or `)` after digits.
fn marker_following<'a>(digits: &'a [u8], bytes: &[u8]) -> Option<Marker<'a>>
    ensures value { marker_option result ≡ containers.marker_following digits.now bytes.now }
    ensures same { IfSome result (λ m. m.digits.now ≡ digits.now) }
    ensures bound { IfSome result (λ _. 1 ≤ length bytes.now) }
{
    match bytes {
        [byte, ..] if *byte == b'.' || *byte == b')' => Some(Marker {
            digits,
            byte: *byte,
        }),
        _ => None,
    }
}

/// A bullet, or 1 to 9 digits and then `.` or `)` (CommonMark 5.2).
fn list_marker(bytes: &[u8]) -> Option<Marker<'_>>
    ensures value { marker_option result ≡ containers.list_marker bytes.now }
    ensures bound { IfSome result (λ m. length m.digits.now + 1 ≤ length bytes.now) }
    ensures few { IfSome result (λ m. length m.digits.now ≤ 9) }
{
    let [first, ..] = bytes else {
        return None;
    };
    if *first == b'*' || *first == b'+' || *first == b'-' {
        return Some(Marker {
            digits: bytes.split_at(0).0,
            byte: *first,
        });
    }
    let (digits, following) = bytes.split_at(digits_len(bytes));
    if digits.len() < 1 || digits.len() > 9 {
        return None;
    }
    marker_following(digits, following)
}

/// The columns after the marker that belong to the item: none before a blank rest, 1 of 5 or more.
fn item_padding(rest: &Rest) -> usize
    ensures value { result ≡ containers.item_padding (rest_meaning rest.now) }
    ensures bound { result ≤ 4 }
{
    if is_blank(rest.bytes) {
        0
    } else if rest.indent() >= 5 {
        1
    } else {
        rest.indent()
    }
}

/// Whether an item may interrupt a paragraph: it does not begin with a blank line, and its number, if any, is written
/// 1.
fn may_interrupt(marker: &Marker, rest: &Rest) -> bool
    ensures { result ≡ containers.may_interrupt (marker_meaning marker.now) (rest_meaning rest.now) }
{
    !is_blank(rest.bytes) && (marker.digits.is_empty() || matches!(marker.digits, [b'1']))
}

/// A small indent, a marker, and whitespace or the end of the line (CommonMark 5.2).
#[tactic(auto, unfolding(md_meaning::specs::Containers::opens_item))]
fn opens_item<'a>(options: &ParseOptions, interrupting: bool, rest: &Rest<'a>) -> Option<Taken<'a>>
    ensures { taken_option result ≡ containers.opens_item options.now interrupting (rest_meaning rest.now) }
{
    let from = rest.after_indent();
    if !options.constructs.list_item || !rest.has_small_indent(options) {
        return None;
    }
    let marker = list_marker(from.bytes)?;
    let after = from.following(marker.digits.len() + 1);
    let is_break = options.constructs.thematic_break && is_rule(from.bytes);
    if !is_parted(after.bytes) || is_break || (interrupting && !may_interrupt(&marker, &after)) {
        return None;
    }
    let padding = item_padding(&after);
    let starts_blank = is_blank(after.bytes);
    let width = rest.indent()
        + marker.digits.len()
        + 1
        + padding
        + if starts_blank { 1 } else { 0 };
    Some(Taken {
        container: Container::Item {
            digits: marker.digits,
            marker: marker.byte,
            width,
            starts_blank,
        },
        rest: after.lose(padding),
    })
}

/// Whether a backslash takes this byte of a label.
fn is_label_mark(byte: u8) -> bool
    ensures { result ≡ containers.is_label_mark byte }
{
    byte == b'[' || byte == b'\\' || byte == b']'
}

/// How many bytes are before the first `]` that no backslash takes, if all of them may be in a label.
fn label_len(bytes: &[u8]) -> Option<usize>
    ensures value { label_split result bytes.now ≡ containers.footnote_label false bytes.now }
    ensures bound { IfSome result (λ n. n + 1 ≤ length bytes.now) }
{
    let mut escaped = false;
    for (index, byte) in bytes.iter().enumerate() {
        if escaped && is_label_mark(*byte) {
            escaped = false;
        } else if *byte == b']' {
            return Some(index);
        } else if is_white(*byte) || *byte == b'[' {
            return None;
        } else {
            escaped = *byte == b'\\';
        }
    }
    None
}

/// Whether this is a label, with a colon after its bracket.
fn is_label(label: &[u8], after: &[u8]) -> bool
    ensures { result ≡ nat_le 1 (length label.now) && nat_le (length label.now) 999 && lines.begins_with 58 after.now }
{
    1 <= label.len() && label.len() <= 999 && begins_with(b':', after)
}

/// A small indent, `[^`, a label of 1 to 999 bytes, `]:`, and all whitespace after it (own choice, as on GitHub).
#[tactic(auto, unfolding(md_meaning::specs::Containers::opens_footnote))]
fn opens_footnote<'a>(options: &ParseOptions, rest: &Rest<'a>) -> Option<Taken<'a>>
    ensures { taken_option result ≡ containers.opens_footnote options.now (rest_meaning rest.now) }
{
    let from = rest.after_indent();
    if !options.constructs.gfm_footnote_definition
        || !rest.has_small_indent(options)
        || !from.bytes.starts_with(b"[^")
    {
        return None;
    }
    let bytes = from.bytes.split_at(2).1;
    let len = label_len(bytes)?;
    let label = bytes.split_at(len).0;
    let after = bytes.split_at(len + 1).1;
    if !is_label(label, after) {
        return None;
    }
    Some(Taken {
        container: Container::Footnote(label),
        rest: from.following(len + 4).after_indent(),
    })
}

/// The first container that opens here, if one does.
pub fn opens<'a>(options: &ParseOptions, interrupting: bool, rest: &Rest<'a>) -> Option<Taken<'a>>
    ensures { taken_option result ≡ containers.opens options.now interrupting (rest_meaning rest.now) }
{
    opens_quote(options, rest)
        .or(opens_item(options, interrupting, rest))
        .or(opens_footnote(options, rest))
}
