// Classes of bytes, and how many bytes of a class come first.
ghost use Rattle.std.specs.Prelude.{◌≡◌, ◌≤◌, length};
ghost use Rattle.std.specs.Char.{is_ascii_alphabetic};
ghost use Rattle.std.specs.List.{prefix_len, suffix_len};
ghost use Rattle.md_meaning.specs.Bytes.{begins};
ghost use Rattle.md_inlines.specs.Classes as classes;

use md_scan::bytes::is_white;

/// What a run of bytes has alone.
#[derive(Clone, Copy, Debug, PartialEq, Eq)]
pub enum Class {
    Alphanumeric,
    Digit,
    HexDigit,
    /// The scheme of an autolink.
    Scheme,
    /// An autolink.
    Uri,
    /// An e-mail address before its `@`.
    Local,
    /// An e-mail address after its `@`.
    Host,
    /// The name of a tag.
    Tag,
    /// The name of an attribute.
    Attribute,
    /// The value of an attribute, without quotes.
    Value,
    Space,
    Dot,
    /// A byte of a character after its first one.
    Within,
    /// What follows the domain of an address without angle brackets.
    Path,
    /// An e-mail address without angle brackets, before its `@`.
    BareLocal,
    /// An e-mail address without angle brackets, after its `@`.
    BareHost,
    /// What may follow an address of XMPP, after its `/`.
    XmppResource,
}

fn is_scheme_byte(byte: u8) -> bool
    ensures { result ≡ classes.is_in Class.Scheme byte }
{
    byte.is_ascii_alphanumeric() || byte == b'+' || byte == b'.' || byte == b'-'
}

fn is_uri_byte(byte: u8) -> bool
    ensures { result ≡ classes.is_in Class.Uri byte }
{
    byte > b' ' && !(byte == 0x7f || byte == b'<' || byte == b'>')
}

fn is_local_mark(byte: u8) -> bool
    ensures { result ≡ classes.is_local_mark byte }
{
    b".!#$%&'*+/=?^_`{|}~-".contains(&byte)
}

fn is_value_byte(byte: u8) -> bool
    ensures { result ≡ classes.is_in Class.Value byte }
{
    !(is_white(byte)
        || byte == b'"'
        || byte == b'\''
        || byte == b'='
        || byte == b'<'
        || byte == b'>'
        || byte == b'`')
        && byte != b'\n'
}

fn is_attribute_byte(byte: u8) -> bool
    ensures { result ≡ classes.is_in Class.Attribute byte }
{
    byte.is_ascii_alphanumeric() || byte == b'_' || byte == b'.' || byte == b':' || byte == b'-'
}

fn is_path_byte(byte: u8) -> bool
    ensures { result ≡ classes.is_in Class.Path byte }
{
    !byte.is_ascii_whitespace() && byte != b'<'
}

fn is_bare_local_byte(byte: u8) -> bool
    ensures { result ≡ classes.is_in Class.BareLocal byte }
{
    byte.is_ascii_alphanumeric() || byte == b'.' || byte == b'-' || byte == b'_' || byte == b'+'
}

fn is_bare_host_byte(byte: u8) -> bool
    ensures { result ≡ classes.is_in Class.BareHost byte }
{
    byte.is_ascii_alphanumeric() || byte == b'-' || byte == b'_' || byte == b'.'
}

/// Whether a byte is of a class.
pub fn is_in(class: Class, byte: u8) -> bool
    ensures { result ≡ classes.is_in class byte }
{
    match class {
        Class::Alphanumeric => byte.is_ascii_alphanumeric(),
        Class::Digit => byte.is_ascii_digit(),
        Class::HexDigit => byte.is_ascii_hexdigit(),
        Class::Scheme => is_scheme_byte(byte),
        Class::Uri => is_uri_byte(byte),
        Class::Local => byte.is_ascii_alphanumeric() || is_local_mark(byte),
        Class::Host => byte.is_ascii_alphanumeric() || byte == b'-' || byte == b'.',
        Class::Tag => byte.is_ascii_alphanumeric() || byte == b'-',
        Class::Attribute => is_attribute_byte(byte),
        Class::Value => is_value_byte(byte),
        Class::Space => byte == b' ',
        Class::Dot => byte == b'.',
        Class::Within => 128 <= byte && byte < 192,
        Class::Path => is_path_byte(byte),
        Class::BareLocal => is_bare_local_byte(byte),
        Class::BareHost => is_bare_host_byte(byte),
        Class::XmppResource => byte.is_ascii_alphanumeric() || byte == b'@' || byte == b'.',
    }
}

/// How many bytes of a class come first.
pub fn class_len(class: Class, text: &[u8]) -> usize
    ensures value { result ≡ prefix_len (classes.is_in class) text.now }
    ensures bound { result ≤ length text.now }
{
    text.iter().take_while(|byte| is_in(class, **byte)).count()
}

/// How many bytes of a class come last.
pub fn class_end_len(class: Class, text: &[u8]) -> usize
    ensures value { result ≡ suffix_len (classes.is_in class) text.now }
    ensures bound { result ≤ length text.now }
{
    text.iter()
        .rev()
        .take_while(|byte| is_in(class, **byte))
        .count()
}

/// Whether a letter of ASCII comes first.
pub fn begins_letter(text: &[u8]) -> bool
    ensures { result ≡ begins is_ascii_alphabetic text.now }
{
    match text {
        [first, ..] => first.is_ascii_alphabetic(),
        [] => false,
    }
}
