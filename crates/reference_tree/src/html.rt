// How each of the seven kinds of HTML block begins and ends (CommonMark 4.6).
ghost use Rattle.std.specs.Prelude.{◌≡◌, ◌≤◌, length, option_copied};
ghost use Rattle.std.specs.Char.{is_ascii_alphabetic};
ghost use Rattle.std.specs.List.{prefix_len, starts_with};
ghost use Rattle.md_meaning.specs.Bytes.{begins};
ghost use Rattle.md_meaning.specs.Html as h;

pub use md_engine::tokenizer::HtmlKind;
use md_meaning::html_names::{is_basic_name, is_name, is_raw_name};
use md_scan::ahead::{after_optional, begins_white, begins_with};
use md_scan::bytes::{is_blank, is_parted, is_white, trim_start};

const RAW_ENDS: [&str; 4] = ["</pre>", "</script>", "</style>", "</textarea>"];

/// How many bytes of a tag name come first (CommonMark 6.6).
fn tag_len(rest: &[u8]) -> usize
    ensures value { result ≡ prefix_len h.is_tag_byte rest.now }
    ensures bound { result ≤ length rest.now }
{
    rest.iter()
        .take_while(|b| b.is_ascii_alphanumeric() || **b == b'-')
        .count()
}

/// Whether a letter of ASCII comes first.
fn begins_letter(rest: &[u8]) -> bool
    ensures { result ≡ begins is_ascii_alphabetic rest.now }
{
    match rest {
        [first, ..] => first.is_ascii_alphabetic(),
        [] => false,
    }
}

/// Whether the end of a name of `HtmlKind::Raw` comes first.
fn ends_name(rest: &[u8]) -> bool
    ensures { result ≡ h.ends_name rest.now }
{
    is_parted(rest) || begins_with(b'>', rest)
}

/// Whether `HtmlKind::Raw` begins, after `<`.
#[tactic(auto, unfolding(md_meaning::specs::Html::begins_raw))]
fn begins_raw(rest: &[u8]) -> bool
    ensures { result ≡ h.begins_raw rest.now }
{
    let len = tag_len(rest);
    is_raw_name(&rest[..len]) && ends_name(&rest[len..])
}

/// Whether `HtmlKind::Basic` begins, after `<` or `</`.
#[tactic(auto, unfolding(md_meaning::specs::Html::begins_basic))]
fn begins_basic(rest: &[u8]) -> bool
    ensures { result ≡ h.begins_basic rest.now }
{
    let len = tag_len(rest);
    let after = &rest[len..];
    is_basic_name(&rest[..len]) && (ends_name(after) || after.starts_with(b"/>"))
}

/// Whether the name of an attribute comes first (CommonMark 6.6).
fn begins_attribute(rest: &[u8]) -> bool
    ensures { result ≡ begins h.begins_attribute rest.now }
{
    match rest {
        [first, ..] => first.is_ascii_alphabetic() || *first == b'_' || *first == b':',
        [] => false,
    }
}

fn is_attribute_byte(b: u8) -> bool
    ensures { result ≡ h.is_attribute_byte b }
{
    b.is_ascii_alphanumeric() || b == b'_' || b == b'.' || b == b':' || b == b'-'
}

/// How many bytes of an attribute's name come first.
fn attribute_len(rest: &[u8]) -> usize
    ensures value { result ≡ prefix_len h.is_attribute_byte rest.now }
    ensures bound { result ≤ length rest.now }
{
    rest.iter().take_while(|b| is_attribute_byte(**b)).count()
}

fn is_value_byte(b: u8) -> bool
    ensures { result ≡ h.is_value_byte b }
{
    !(is_white(b) || b == b'"' || b == b'\'' || b == b'=' || b == b'<' || b == b'>' || b == b'`')
}

/// How many bytes of a value without quotes come first.
fn value_len(rest: &[u8]) -> usize
    ensures value { result ≡ prefix_len h.is_value_byte rest.now }
    ensures bound { result ≤ length rest.now }
{
    rest.iter().take_while(|b| is_value_byte(**b)).count()
}

/// What follows the next such byte.
fn after_next(byte: u8, bytes: &[u8]) -> Option<&[u8]>
    ensures { option_copied result ≡ h.after_next byte bytes.now }
{
    let mut rest = bytes;
    while let [first, others @ ..] = rest {
        if *first == byte {
            return Some(others);
        }
        rest = others;
    }
    None
}

/// What follows a value (CommonMark 6.6).
#[tactic(auto, unfolding(md_meaning::specs::Html::after_value))]
fn after_value(rest: &[u8]) -> Option<&[u8]>
    ensures { option_copied result ≡ h.after_value rest.now }
{
    match rest {
        [quote, others @ ..] if *quote == b'"' || *quote == b'\'' => after_next(*quote, others),
        [first, others @ ..] if is_value_byte(*first) => Some(&others[value_len(others)..]),
        _ => None,
    }
}

/// What follows the value of an attribute that may have one, after its name.
#[tactic(auto, unfolding(md_meaning::specs::Html::after_assignment))]
fn after_assignment(rest: &[u8]) -> Option<&[u8]>
    ensures { option_copied result ≡ h.after_assignment rest.now }
{
    let sign = trim_start(rest);
    if begins_with(b'=', sign) {
        after_value(trim_start(after_optional(b'=', sign)))
    } else {
        Some(rest)
    }
}

/// What follows an attribute: whitespace, a name, and perhaps `=` and a value.
#[tactic(auto, unfolding(md_meaning::specs::Html::after_attribute))]
fn after_attribute(rest: &[u8]) -> Option<&[u8]>
    ensures { option_copied result ≡ h.after_attribute rest.now }
{
    let name = trim_start(rest);
    if begins_white(rest) && begins_attribute(name) {
        after_assignment(&name[attribute_len(name)..])
    } else {
        None
    }
}

/// What follows all attributes.
fn after_attributes(rest: &[u8]) -> &[u8]
    ensures { result.now ≡ h.after_attributes (length rest.now) rest.now }
{
    let mut left = rest;
    while let Some(more) = after_attribute(left) {
        left = more;
    }
    left
}

/// Whether `>` comes first, and then spaces and tabs alone.
fn closes_tag(rest: &[u8]) -> bool
    ensures { result ≡ h.closes_tag rest.now }
{
    begins_with(b'>', rest) && is_blank(after_optional(b'>', rest))
}

/// Whether this is the rest of an opening tag after its name, and then spaces and tabs alone.
#[tactic(auto, unfolding(md_meaning::specs::Html::ends_opening))]
fn ends_opening(rest: &[u8]) -> bool
    ensures { result ≡ h.ends_opening rest.now }
{
    closes_tag(after_optional(b'/', trim_start(after_attributes(rest))))
}

/// Whether `HtmlKind::Complete` begins, after `<`.
#[tactic(auto, unfolding(md_meaning::specs::Html::begins_complete))]
fn begins_complete(bytes: &[u8]) -> bool
    ensures { result ≡ h.begins_complete bytes.now }
{
    match bytes {
        [b'/', rest @ ..] => begins_letter(rest) && closes_tag(trim_start(&rest[tag_len(rest)..])),
        [first, rest @ ..] => first.is_ascii_alphabetic() && ends_opening(&rest[tag_len(rest)..]),
        [] => false,
    }
}

/// The kind that begins here, after `<`.
#[tactic(auto, unfolding(md_meaning::specs::Html::kind_after))]
fn kind_after(rest: &[u8]) -> Option<HtmlKind>
    ensures { result ≡ h.kind_after rest.now }
{
    if begins_raw(rest) {
        Some(HtmlKind::Raw)
    } else if rest.starts_with(b"!--") {
        Some(HtmlKind::Comment)
    } else if rest.starts_with(b"?") {
        Some(HtmlKind::Instruction)
    } else if rest.starts_with(b"!") && begins_letter(after_optional(b'!', rest)) {
        Some(HtmlKind::Declaration)
    } else if rest.starts_with(b"![CDATA[") {
        Some(HtmlKind::Cdata)
    } else if begins_basic(after_optional(b'/', rest)) {
        Some(HtmlKind::Basic)
    } else if begins_complete(rest) {
        Some(HtmlKind::Complete)
    } else {
        None
    }
}

/// The kind that a line begins, given from its `<` on.
#[tactic(auto, unfolding(md_meaning::specs::Html::html_kind))]
pub fn html_kind(line: &[u8]) -> Option<HtmlKind>
    ensures { result ≡ h.html_kind line.now }
{
    match line {
        [b'<', rest @ ..] => kind_after(rest),
        _ => None,
    }
}

/// Whether this word comes first, in any ASCII case.
#[tactic(auto, using(std::proofs::lemmas::List::take_min))]
fn starts_in_any_case(rest: &[u8], word: &str) -> bool
    ensures { result ≡ h.starts_in_any_case rest.now word.now }
{
    is_name(word, &rest[..word.len().min(rest.len())])
}

/// Whether an end of `HtmlKind::Raw` comes first.
fn is_raw_end(rest: &[u8]) -> bool
    ensures { result ≡ h.is_raw_end rest.now }
{
    RAW_ENDS.iter().any(|word| starts_in_any_case(rest, word))
}

/// Whether an end of `HtmlKind::Raw` is somewhere in the line.
fn holds_raw_end(line: &[u8]) -> bool
    ensures { result ≡ h.holds h.is_raw_end line.now }
{
    let mut rest = line;
    while let [_, others @ ..] = rest {
        if is_raw_end(rest) {
            return true;
        }
        rest = others;
    }
    false
}

/// Whether these bytes are somewhere in the line.
fn holds_word(word: &[u8], line: &[u8]) -> bool
    ensures { result ≡ h.holds_word word.now line.now }
{
    let mut rest = line;
    while let [_, others @ ..] = rest {
        if rest.starts_with(word) {
            return true;
        }
        rest = others;
    }
    false
}

/// Whether the line holds the end of this kind. The last two kinds end before a blank line.
#[tactic(auto, unfolding(md_meaning::specs::Html::html_ends))]
pub fn html_ends(kind: HtmlKind, line: &[u8]) -> bool
    ensures { result ≡ h.html_ends kind line.now }
{
    match kind {
        HtmlKind::Raw => holds_raw_end(line),
        HtmlKind::Comment => holds_word(b"-->", line),
        HtmlKind::Instruction => holds_word(b"?>", line),
        HtmlKind::Declaration => holds_word(b">", line),
        HtmlKind::Cdata => holds_word(b"]]>", line),
        HtmlKind::Basic | HtmlKind::Complete => false,
    }
}
