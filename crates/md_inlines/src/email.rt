// E-mail addresses without angle brackets (GFM 6.9), perhaps with `mailto:` or `xmpp:` before them.
ghost use Rattle.std.specs.Prelude.{◌≡◌, ◌≤◌, ◌||◌, ◌==◌, drop, length, reverse, IfSome};
ghost use Rattle.md_meaning.specs.Bytes.{begins};
ghost use Rattle.md_inlines.specs.Literal as literal;
ghost use Rattle.md_inlines.specs.Addresses as addresses;

use crate::address::{
    has_empty_segment, has_two_segments, may_follow, starts_in_any_case, without_last_dots,
};
use crate::class::{Class, class_len};
use crate::{Literal, LiteralKind};

/// Whether `-` or `_` is last.
fn ends_with_mark(host: &[u8]) -> bool
    ensures { result ≡ begins (λ b. (b == 45) || (b == 95)) (reverse host.now) }
{
    match host.last() {
        Some(last) => *last == b'-' || *last == b'_',
        None => false,
    }
}

/// Whether these are the segments of a host.
fn is_host(host: &[u8]) -> bool
    ensures { result ≡ literal.is_host host.now }
{
    has_two_segments(host) && !has_empty_segment(host) && !ends_with_mark(host)
}

/// How many bytes an e-mail address has that comes first.
#[tactic(auto, unfolding(crate::specs::Literal::email_len))]
fn email_len(text: &[u8]) -> Option<usize>
    ensures value { result ≡ literal.email_len text.now }
    ensures bound { IfSome result (λ len. len ≤ length text.now) }
{
    let local = class_len(Class::BareLocal, text);
    match text.split_at(local).1 {
        [b'@', rest @ ..] if 1 <= local => {
            let host = without_last_dots(rest.split_at(class_len(Class::BareHost, rest)).0);
            if is_host(host) {
                Some(local + 1 + host.len())
            } else {
                None
            }
        }
        _ => None,
    }
}

/// How many bytes of what may follow an address of XMPP come first.
fn resource_len(text: &[u8]) -> usize
    ensures value { result ≡ literal.resource_len text.now }
    ensures bound { result ≤ length text.now }
{
    match text {
        [b'/', rest @ ..] => {
            let len = class_len(Class::XmppResource, rest);
            if 1 <= len { len + 1 } else { 0 }
        }
        _ => 0,
    }
}

/// The address that follows a front of so many bytes.
fn after_front(kind: LiteralKind, front: usize, text: &[u8]) -> Option<Literal>
    requires { front ≤ length text.now }
    ensures { result ≡ addresses.after_front kind front (literal.email_len (drop front text.now)) }
{
    match email_len(text.split_at(front).1) {
        Some(len) => Some(Literal {
            kind,
            len: len + front,
        }),
        None => None,
    }
}

/// The address that follows `xmpp:`, with what may follow it.
fn xmpp_at(text: &[u8]) -> Option<Literal>
    requires { 5 ≤ length text.now }
    ensures { result ≡ addresses.xmpp_at text.now }
{
    let rest = text.split_at(5).1;
    match email_len(rest) {
        Some(len) => Some(Literal {
            kind: LiteralKind::Xmpp,
            len: len + resource_len(rest.split_at(len).1) + 5,
        }),
        None => None,
    }
}

/// The e-mail address that comes first in a text, after another.
#[tactic(auto, unfolding(crate::specs::Literal::email_at))]
pub fn email_at(before: &[u8], text: &[u8]) -> Option<Literal>
    ensures { result ≡ literal.email_at before.now text.now }
{
    if !may_follow(before) {
        None
    } else if starts_in_any_case(text, b"mailto:") {
        after_front(LiteralKind::Mailto, 7, text)
    } else if starts_in_any_case(text, b"xmpp:") {
        xmpp_at(text)
    } else {
        after_front(LiteralKind::Email, 0, text)
    }
}
