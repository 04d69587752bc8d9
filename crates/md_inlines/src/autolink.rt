// Autolinks between angle brackets (CommonMark 6.5), given after their `<`.
ghost use Rattle.std.specs.Prelude.{◌≡◌, ◌+◌, ◌^◌, ◌<◌, length, reverse};
ghost use Rattle.md_meaning.specs.Lines as lines;
ghost use Rattle.md_inlines.specs.Autolink as autolink;

use crate::class::{Class, begins_letter, class_len};
use md_scan::ahead::begins_with;

/// How many bytes an absolute URI has that comes first, if a `>` follows it.
#[tactic(auto, unfolding(crate::specs::Autolink::uri_len))]
pub fn uri_len(text: &[u8]) -> Option<usize>
    ensures { result ≡ autolink.uri_len text.now }
{
    let scheme = class_len(Class::Scheme, text);
    let len = class_len(Class::Uri, text);
    if begins_letter(text)
        && 2 <= scheme
        && scheme <= 32
        && begins_with(b':', text.split_at(scheme).1)
        && begins_with(b'>', text.split_at(len).1)
    {
        Some(len)
    } else {
        None
    }
}

/// Whether this byte is last.
pub(crate) fn ends_with(byte: u8, bytes: &[u8]) -> bool
    ensures { result ≡ lines.begins_with byte (reverse bytes.now) }
{
    match bytes.last() {
        Some(last) => *last == byte,
        None => false,
    }
}

/// Whether these are letters, digits and hyphens alone.
fn are_host_bytes(bytes: &[u8]) -> bool
    ensures { result ≡ autolink.are_host_bytes bytes.now }
{
    bytes
        .iter()
        .all(|byte| byte.is_ascii_alphanumeric() || *byte == b'-')
}

/// Whether this is a label of a host.
fn is_host_label(label: &[u8]) -> bool
    ensures { result ≡ autolink.is_host_label label.now }
{
    1 <= label.len()
        && label.len() <= 63
        && are_host_bytes(label)
        && !begins_with(b'-', label)
        && !ends_with(b'-', label)
}

/// Whether these are labels of a host with a `.` between each two.
fn is_host(bytes: &[u8]) -> bool
    ensures { result ≡ autolink.is_host bytes.now }
{
    bytes
        .split(|byte| *byte == b'.')
        .all(|label| is_host_label(label))
}

/// How many bytes of a host there are after the first `@`, which is at this byte, if a `>` follows them.
fn host_len(text: &[u8]) -> Option<usize>
    ensures { result ≡ autolink.host_len text.now }
{
    let len = class_len(Class::Host, text);
    let (host, rest) = text.split_at(len);
    if is_host(host) && begins_with(b'>', rest) {
        Some(len)
    } else {
        None
    }
}

/// How many bytes an e-mail address has that comes first, if a `>` follows it.
#[tactic(auto, unfolding(crate::specs::Autolink::email_len))]
pub fn email_len(text: &[u8]) -> Option<usize>
    ensures { result ≡ autolink.email_len text.now }
{
    let local = class_len(Class::Local, text);
    match text.split_at(local).1 {
        [b'@', rest @ ..] if 1 <= local => match host_len(rest) {
            Some(host) => Some(local + 1 + host),
            None => None,
        },
        _ => None,
    }
}
