// Searches that fail: from which place of a text on a run of backticks or of dollars, or the end of raw HTML, is known
// to be absent, and where no domain begins. So no text is searched for them again and again.
//
// All but domains are listed by one pass from the end of a text, once it has some bytes that begin such a search: in most
// texts few do, and find what they search.

ghost use Rattle.std.specs.Prelude.{◌≡◌, ℕ, ◌≤◌, ◌+◌, true, IfOk, List, OnOk, None, codes, drop, get_or, nat_le};
ghost use Rattle.md_meaning.specs.Html as h;
ghost use Rattle.md_inlines.specs.Code as inlines;
ghost use Rattle.md_inlines.specs.Literal as literal;
ghost use Rattle.md_inlines.specs.RawHtml as html;
ghost use Rattle.markdown_inlines.specs.Ends as spec;

use crate::slices::after;
use crate::span::past;
use md_engine::message::Message;
use md_inlines::InlineOptions;
use md_inlines::address::{no_domain_len, starts_in_any_case};
use md_scan::ahead::begins_with;
use md_scan::bytes::run_len;
use md_scan::memory::push;
use std::alloc::Global;

/// For each number of marks, where the last run of so many is, or 0.
#[derive(Drop)]
pub(crate) struct Listed {
    last: Vec<usize>,
}

/// From which places on searches of a text fail.
#[derive(Drop)]
pub(crate) struct Ends {
    /// The last runs of backticks, if they are listed.
    code: Option<Listed>,
    /// Those of dollars.
    math: Option<Listed>,
    /// One byte after the place of the last `-->`.
    comment: usize,
    /// Of the last `]]>`.
    section: usize,
    /// Of the last `?>`.
    instruction: usize,
    /// Of the last `>`.
    declaration: usize,
}

/// Lists a run of so many bytes at a place.
///
/// An `Err` says that memory ran out.
fn note(last: &mut Vec<usize>, len: usize, at: usize) -> Result<(), Message>
    ensures kept { OnOk result ((size : ℕ) → get_or last.old.items size 0 ≤ get_or last.new.items size 0) }
    ensures here { OnOk result (at ≤ get_or last.new.items len 0) }
{
    while last.len() <= len {
        push(last, 0)?;
    }
    if last[len] < at {
        last[len] = at;
    }
    Ok(())
}

/// For each number of marks, where the last run of so many is, or 0.
///
/// An `Err` says that memory ran out.
fn last_runs(alloc: Global, mark: u8, text: &[u8]) -> Result<Vec<usize>, Message>
    ensures { IfOk result (λ last. spec.AreLast mark text.now last.items) }
{
    let mut last = Vec::new(alloc);
    let mut run = 0;
    let mut at = text.len();
    while at > 0 {
        if text[at - 1] == mark {
            run += 1;
        } else if run > 0 {
            note(&mut last, run, at)?;
            run = 0;
        }
        at -= 1;
    }
    Ok(last)
}

/// One byte after the last place where a text has these bytes, or 0.
fn last_word(word: &[u8], text: &[u8]) -> usize
    ensures { spec.IsLast (html.after_word word.now) text.now result }
{
    let mut at = text.len();
    while at > 0 {
        if after(text, at - 1).starts_with(word) {
            return at;
        }
        at -= 1;
    }
    0
}

/// One byte after the last place of a byte in a text, or 0.
fn last_byte(byte: u8, text: &[u8]) -> usize
    ensures { spec.IsLast (h.after_next byte) text.now result }
{
    let mut at = text.len();
    while at > 0 {
        if text[at - 1] == byte {
            return at;
        }
        at -= 1;
    }
    0
}

/// Whether a run of so many marks is known to be absent from a place on.
fn is_absent(last: &[usize], size: usize, at: usize) -> bool
    ensures { result ≡ nat_le (get_or last.now size 0) at }
{
    match last.get(size) {
        Some(place) => *place <= at,
        None => true,
    }
}

/// The last runs of a mark, where they are asked for and there are some.
///
/// An `Err` says that memory ran out.
fn runs_if(alloc: Global, on: bool, mark: u8, text: &[u8]) -> Result<Option<Listed>, Message>
    ensures { IfOk result (λ listed. spec.AreListed mark text.now listed) }
{
    if on && text.contains(&mark) {
        let last = last_runs(alloc, mark, text)?;
        Ok(Some(Listed { last }))
    } else {
        Ok(None)
    }
}

/// Which searches are known to fail at a place.
#[derive(Clone, Copy)]
pub(crate) struct Absent {
    /// The run that closes the backticks that are there.
    pub(crate) code: bool,
    /// The run that closes the dollars.
    pub(crate) math: bool,
    /// The end of raw HTML.
    pub(crate) html: bool,
    /// The address that begins with `www.`.
    pub(crate) address: bool,
}

impl Absent {
    /// None.
    pub(crate) const NOTHING: Absent = Absent {
        code: false,
        math: false,
        html: false,
        address: false,
    };
}

/// Whether the run of marks at a place of a text, which is first in the rest, is known to close nowhere.
fn is_unclosed(listed: &Option<Listed>, mark: u8, whole: &[u8], at: usize, rest: &[u8]) -> bool
    requires listed { spec.AreListed mark whole.now listed.now }
    requires is { rest.now ≡ drop at whole.now }
    ensures { result ≡ true → inlines.raw_at mark rest.now ≡ None }
{
    match listed {
        Some(made) => is_absent(&made.last, run_len(mark, rest), at),
        None => false,
    }
}

/// Which ends of raw HTML are known to be absent.
#[derive(Clone, Copy)]
pub(crate) struct Gone {
    comment: bool,
    section: bool,
    instruction: bool,
    declaration: bool,
}

/// Which ends of raw HTML are known to be absent after the byte at a place of a text, where this rest begins.
fn gone_from(ends: &Ends, whole: &[u8], at: usize, rest: &[u8]) -> Gone
    requires ends { spec.AreEnds whole.now ends.now }
    requires is { rest.now ≡ drop (at + 1) whole.now }
    ensures { spec.AreGone result rest.now }
{
    Gone {
        comment: ends.comment <= at,
        section: ends.section <= at,
        instruction: ends.instruction <= at,
        declaration: ends.declaration <= at,
    }
}

/// Whether a comment is known to have no end, after its `<!--`; `gone` says that no `-->` follows.
#[tactic(auto, unfolding(md_inlines::specs::RawHtml::after_comment))]
fn is_comment_endless(gone: bool, text: &[u8]) -> bool
    requires { gone ≡ true → html.after_word (codes "-->") text.now ≡ None }
    ensures { result ≡ true → html.after_comment text.now ≡ None }
{
    if begins_with(b'>', text) {
        return false;
    }
    if text.starts_with(b"->") {
        return false;
    }
    gone
}

/// Whether a comment, a CDATA section or a declaration is known to have no end, after its `<!`.
fn is_marked_endless(gone: Gone, text: &[u8]) -> bool
    requires { spec.AreGone gone text.now }
    ensures { result ≡ true → html.after_marked text.now ≡ None }
{
    if text.starts_with(b"--") {
        return is_comment_endless(gone.comment, after(text, 2));
    }
    if text.starts_with(b"[CDATA[") {
        return gone.section;
    }
    gone.declaration
}

/// Whether raw HTML is known to have no end, after its `<`.
fn is_endless(gone: Gone, text: &[u8]) -> bool
    requires { spec.AreGone gone text.now }
    ensures { result ≡ true → html.after_html text.now ≡ None }
{
    let Some((first, rest)) = text.split_first() else {
        return false;
    };
    if *first == b'!' {
        return is_marked_endless(gone, rest);
    }
    if *first == b'?' {
        return gone.instruction;
    }
    false
}

/// Places of a text, from one up to another, at which no domain is after a `www.`.
#[derive(Clone, Copy)]
pub(crate) struct Domainless {
    from: usize,
    to: usize,
}

impl Domainless {
    /// None.
    pub(crate) const NOWHERE: Domainless = Domainless { from: 0, to: 0 };
}

/// The places of a text from one on, where this rest begins with `www.`.
///
/// An `Err` says that the text is longer than one in memory can be.
fn domainless_from(whole: &[u8], at: usize, rest: &[u8]) -> Result<Domainless, Message>
    requires { rest.now ≡ drop at whole.now }
    ensures { IfOk result (λ places. spec.AreDomainless whole.now places) }
{
    let to = past(at, no_domain_len(after(rest, 3)))?;
    Ok(Domainless { from: at, to })
}

/// Whether the last byte of a text is a `_`: then what follows may be in a domain, and an address may begin there.
fn ends_with_underscore(text: &[u8]) -> bool {
    matches!(text, [.., b'_'])
}

/// The places that are known where this rest of a text begins, with this byte. They are looked for where an address may
/// begin in the domain of another, and beyond those that are known.
///
/// An `Err` says that the text is longer than one in memory can be.
pub(crate) fn domainless_at(
    known: Domainless,
    whole: &[u8],
    at: usize,
    byte: u8,
    before: &[u8],
    rest: &[u8],
) -> Result<Domainless, Message>
    requires known { spec.AreDomainless whole.now known }
    requires is { rest.now ≡ drop at whole.now }
    ensures { IfOk result (λ places. spec.AreDomainless whole.now places) }
{
    if byte != b'w' && byte != b'W' {
        return Ok(known);
    }
    if at < known.to || !ends_with_underscore(before) || !starts_in_any_case(rest, b"www.") {
        return Ok(known);
    }
    domainless_from(whole, at, rest)
}

/// Whether an address that begins with `www.` is known to be absent at a place of a text, where this rest begins.
fn has_no_domain(places: Domainless, whole: &[u8], at: usize, rest: &[u8]) -> bool
    requires places { spec.AreDomainless whole.now places }
    requires is { rest.now ≡ drop at whole.now }
    ensures { result ≡ true → (before : List ℕ) → literal.literal_at before rest.now ≡ None }
{
    if at < places.from || places.to <= at {
        return false;
    }
    if begins_with(b'.', after(rest, 3)) {
        starts_in_any_case(rest, b"www.")
    } else {
        false
    }
}

/// Which searches are known to fail at a place of a text, where this rest begins.
pub(crate) fn absent_at(
    ends: &Ends,
    places: Domainless,
    whole: &[u8],
    at: usize,
    rest: &[u8],
) -> Absent
    requires ends { spec.AreEnds whole.now ends.now }
    requires places { spec.AreDomainless whole.now places }
    requires is { rest.now ≡ drop at whole.now }
    ensures { spec.IsAbsent result rest.now }
{
    match rest {
        [b'`', ..] => Absent {
            code: is_unclosed(&ends.code, b'`', whole, at, rest),
            ..Absent::NOTHING
        },
        [b'$', ..] => Absent {
            math: is_unclosed(&ends.math, b'$', whole, at, rest),
            ..Absent::NOTHING
        },
        [b'<', inside @ ..] => Absent {
            html: is_endless(gone_from(ends, whole, at, inside), inside),
            ..Absent::NOTHING
        },
        [b'W' | b'w', ..] => Absent {
            address: has_no_domain(places, whole, at, rest),
            ..Absent::NOTHING
        },
        _ => Absent::NOTHING,
    }
}

/// So many searches are tried in a text before it is listed which of them fail.
const TRIES: usize = 8;

/// Whether a search for an end begins with a byte.
fn begins_search(byte: u8) -> bool {
    matches!(byte, b'`' | b'$' | b'<')
}

/// Lists from which places on searches of a text fail, once so many bytes of it that begin one were read; `tried` says
/// how many before this byte. Returns how many there are with it.
///
/// An `Err` says that memory ran out.
pub(crate) fn list_ends(
    alloc: Global,
    options: &InlineOptions,
    text: &[u8],
    tried: usize,
    byte: u8,
    ends: &mut Ends,
) -> Result<usize, Message>
    requires { spec.AreEnds text.now ends.old }
    ensures { OnOk result (spec.AreEnds text.now ends.new) }
{
    if !begins_search(byte) {
        return Ok(tried);
    }
    if tried == TRIES {
        let on = options.constructs;
        *ends = ends_of(alloc, on.code_text, on.math_text, on.html_text, text)?;
    }
    Ok(tried.saturating_add(1))
}

/// From which places on searches of a text fail, for these constructs.
///
/// An `Err` says that memory ran out.
pub(crate) fn ends_of(
    alloc: Global,
    code: bool,
    math: bool,
    html: bool,
    text: &[u8],
) -> Result<Ends, Message>
    ensures { IfOk result (λ ends. spec.AreEnds text.now ends) }
{
    let code = runs_if(alloc, code, b'`', text)?;
    let math = runs_if(alloc, math, b'$', text)?;
    if html && text.contains(&b'<') {
        Ok(Ends {
            code,
            math,
            comment: last_word(b"-->", text),
            section: last_word(b"]]>", text),
            instruction: last_word(b"?>", text),
            declaration: last_byte(b'>', text),
        })
    } else {
        let end = text.len();
        Ok(Ends {
            code,
            math,
            comment: end,
            section: end,
            instruction: end,
            declaration: end,
        })
    }
}
