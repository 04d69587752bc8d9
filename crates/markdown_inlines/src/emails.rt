// E-mail addresses without angle brackets (GFM 6.9), in what is left as text outside of links.

ghost use Rattle.std.specs.Prelude.{◌≡◌, ◌+◌, ◌&&◌, ◌++◌, ◌∷◌, [], true, IfOk, OnOk, drop, length, take};
ghost use Rattle.md_inline_events.specs.Forest.{Forest, has_names, size};
ghost use Rattle.md_inline_events.specs.Tokens.{tokens as tokens_of};
ghost use Rattle.md_inlines.specs.Addresses as addresses;
ghost use Rattle.md_inlines.specs.Atoms as atoms;
ghost use Rattle.md_inlines.specs.Emails as emails;
ghost use Rattle.md_inlines.specs.Literal as literal;
ghost use Rattle.markdown_inlines.specs.Added.{IsAdded};
ghost use Rattle.markdown_inlines.specs.Addressed as spec;
ghost use Rattle.markdown_inlines.specs.Readable.{is_readable};

use crate::atom::literal_name;
use crate::slices::{after, front, with_room};
use crate::span::past;
use md_engine::event::Name;
use md_engine::message::Message;
use md_inline_events::token::Token;
use md_inlines::class::{Class, class_len};
use md_inlines::email::email_at;
use md_scan::memory::push;
use std::alloc::Global;

/// Tokens to which more are added, with text beside text as one token.
#[derive(Drop)]
struct Joined {
    tokens: Vec<Token>,
    /// How many bytes of text are after them.
    text: usize,
}

/// Whether an `@` is among these bytes.
fn has_at_sign(text: &[u8]) -> bool
    ensures { result ≡ spec.has_at_sign text.now }
{
    text.contains(&b'@')
}

/// Whether an address may be in a text: none is where no `@` is. `literals` says whether they are read.
pub(crate) fn may_have_address(literals: bool, text: &[u8]) -> bool
    ensures { result ≡ (literals && spec.has_at_sign text.now) }
{
    literals && has_at_sign(text)
}

/// How many bytes of text a token is; none of another.
#[inline(always)]
fn data_len(token: Token) -> Option<usize>
    ensures { result ≡ spec.data_len token }
{
    match token {
        Token::Over(Name::Data, len) => Some(len),
        _ => None,
    }
}

/// Adds the token of the text that is after the tokens.
///
/// An `Err` says that memory ran out.
fn push_text(joined: &mut Joined) -> Result<(), Message>
    ensures tokens { OnOk result (joined.new.tokens.items ≡ joined.old.tokens.items ++ spec.texts joined.old.text) }
    ensures text { OnOk result (joined.new.text ≡ 0) }
{
    if joined.text > 0 {
        push(&mut joined.tokens, Token::Over(Name::Data, joined.text))?;
        joined.text = 0;
    }
    Ok(())
}

/// Adds a token.
///
/// An `Err` says that memory ran out.
fn add(joined: &mut Joined, token: Token) -> Result<(), Message>
    ensures { OnOk result (IsAdded (token ∷ []) joined.old joined.new) }
{
    match data_len(token) {
        Some(len) => {
            joined.text = past(joined.text, len)?;
            Ok(())
        }
        None => {
            push_text(joined)?;
            push(&mut joined.tokens, token)?;
            Ok(())
        }
    }
}

/// Whether an address may begin after this byte.
fn is_before(byte: u8) -> bool
    ensures { result ≡ addresses.is_before byte }
{
    matches!(
        byte,
        b' ' | b'\t' | b'\n' | b'\x0c' | b'\r' | b'*' | b'_' | b'~' | b'('
    )
}

/// Whether an address may begin after a text.
fn may_follow(before: &[u8]) -> bool
    ensures { result ≡ literal.may_follow before.now }
{
    match before.split_last() {
        Some((last, _)) => is_before(*last),
        None => true,
    }
}

/// How many bytes come first after which no address may begin.
fn closed_len(text: &[u8]) -> usize
    ensures { result ≡ spec.closed_len text.now }
{
    text.iter().take_while(|byte| !is_before(**byte)).count()
}

/// How many bytes come first at which no address begins, if none does at the first.
fn quiet_len(before: &[u8], text: &[u8]) -> usize
    ensures { result ≡ spec.quiet_len before.now text.now }
{
    if !may_follow(before) {
        let closed = closed_len(text);
        return if closed >= 1 { closed } else { 1 };
    }
    let local = class_len(Class::BareLocal, text);
    if local >= 7 { local - 6 } else { 1 }
}

/// What is first in a text after another: an address, or text in which none begins.
fn first_token(before: &[u8], text: &[u8]) -> Token
    ensures { result ≡ spec.first_token before.now text.now }
{
    match email_at(before, text) {
        Some(found) => Token::Over(literal_name(found.kind), found.len),
        None => Token::Over(Name::Data, quiet_len(before, text)),
    }
}

/// Where a text is read after a token.
#[inline(always)]
fn at_after(at: usize, token: Token) -> Result<usize, Message>
    ensures { IfOk result (λ place. place ≡ spec.at_after at token) }
{
    match token {
        Token::Over(_, len) => past(at, len),
        Token::Enters(_) | Token::Leaves(_) => Ok(at),
    }
}

/// Adds a text from a place on, with the addresses in it.
///
/// An `Err` says that memory ran out.
fn add_addresses(joined: &mut Joined, text: &[u8], start: usize) -> Result<(), Message>
    ensures { OnOk result
        (IsAdded (tokens_of (emails.emails_in (take start text.now) (drop start text.now))) joined.old joined.new) }
{
    let rest = after(text, start);
    if !has_at_sign(rest) {
        return add(joined, Token::Over(Name::Data, rest.len()));
    }
    let mut at = start;
    while let Some((_byte, _following)) = after(text, at).split_first() {
        let token = first_token(front(text, at), after(text, at));
        add(joined, token)?;
        at = at_after(at, token)?;
    }
    Ok(())
}

/// Whether the text of a part is searched.
fn holds_text(name: Name) -> bool
    ensures { result ≡ emails.holds_text name }
{
    matches!(name, Name::Image | Name::Label | Name::LabelText)
        || matches!(name, Name::Emphasis | Name::EmphasisText)
        || matches!(name, Name::Strong | Name::StrongText)
        || matches!(name, Name::GfmStrikethrough | Name::GfmStrikethroughText)
}

/// Adds a token that is at a place of a text, with the addresses in it if it is text and in no part that is not
/// searched, of which so many are open.
///
/// An `Err` says that memory ran out.
fn add_searched(
    joined: &mut Joined,
    text: &[u8],
    hidden: usize,
    at: usize,
    token: Token,
) -> Result<(), Message>
    ensures { OnOk result (IsAdded (spec.token_searched text.now hidden at token) joined.old joined.new) }
{
    if hidden != 0 {
        return add(joined, token);
    }
    match data_len(token) {
        Some(len) => add_addresses(joined, front(text, past(at, len)?), at),
        None => add(joined, token),
    }
}

/// How many parts are open of which the text is not searched, or that are in one, after one more begins.
#[inline(always)]
fn begun(hidden: usize, name: Name) -> Result<usize, Message>
    ensures { IfOk result (λ count. count ≡ spec.begun hidden name) }
{
    if hidden == 0 && holds_text(name) {
        Ok(0)
    } else {
        past(hidden, 1)
    }
}

/// How many such parts are open after a token.
#[inline(always)]
fn hidden_after(hidden: usize, token: Token) -> Result<usize, Message>
    ensures { IfOk result (λ count. count ≡ spec.hidden_after hidden token) }
{
    match token {
        Token::Enters(name) => begun(hidden, name),
        Token::Leaves(_) => Ok(hidden.saturating_sub(1)),
        Token::Over(_, _) => Ok(hidden),
    }
}

/// Whether a token at a place of a text is searched, and an `@` is in it. So many parts are open of which the text is not
/// searched.
///
/// An `Err` says that the text is longer than one in memory can be.
#[inline(always)]
fn is_with_sign(text: &[u8], hidden: usize, at: usize, token: Token) -> Result<bool, Message>
    ensures { IfOk result (λ found. found ≡ spec.is_with_sign text.now hidden at token) }
{
    if hidden != 0 {
        return Ok(false);
    }
    match data_len(token) {
        Some(len) => {
            let piece = after(front(text, past(at, len)?), at);
            Ok(piece.len() != len || has_at_sign(piece))
        }
        None => Ok(false),
    }
}

/// Whether an `@` is in the tokens of a text from a place on that are searched.
///
/// An `Err` says that the text is longer than one in memory can be.
fn are_with_sign(text: &[u8], start: usize, tokens: &[Token]) -> Result<bool, Message>
    ensures { IfOk result (λ found. found ≡ spec.are_with_sign text.now 0 start tokens.now) }
{
    let mut at = start;
    let mut hidden = 0;
    let mut rest = tokens;
    while let Some((token, following)) = rest.split_first() {
        if is_with_sign(text, hidden, at, *token)? {
            return Ok(true);
        }
        at = at_after(at, *token)?;
        hidden = hidden_after(hidden, *token)?;
        rest = following;
    }
    Ok(false)
}

/// The tokens of a forest over a text from a place on, with the addresses in its text; of these tokens, no text is
/// beside text, as it is not in what is given. Most `@` are in links, where no address is.
///
/// An `Err` says that memory ran out.
pub(crate) fn with_addresses(
    alloc: Global,
    text: &[u8],
    start: usize,
    tokens: Vec<Token>,
) -> Result<Vec<Token>, Message>
    ensures { IfOk result (λ made. (forest : Forest) → has_names forest ≡ true → is_readable forest ≡ true →
        atoms.merged forest ≡ forest → start + size forest ≡ length text.now → tokens.items ≡ tokens_of forest →
        made.items ≡ tokens_of
        (atoms.merged (emails.with_emails (take start text.now) (drop start text.now) forest))) }
{
    let is_searched = are_with_sign(text, start, &tokens)?;
    if !is_searched {
        return Ok(tokens);
    }
    let mut joined = Joined {
        tokens: with_room(alloc, tokens.len())?,
        text: 0,
    };
    let mut at = start;
    let mut hidden = 0;
    let mut rest = tokens.as_slice();
    while let Some((token, following)) = rest.split_first() {
        add_searched(&mut joined, text, hidden, at, *token)?;
        at = at_after(at, *token)?;
        hidden = hidden_after(hidden, *token)?;
        rest = following;
    }
    push_text(&mut joined)?;
    Ok(joined.tokens)
}
