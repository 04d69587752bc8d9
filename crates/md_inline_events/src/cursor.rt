// Where a writer is among the tokens of a part, and the events of one byte.

ghost use Rattle.std.specs.Prelude.{◌≡◌, ◌<◌, ◌≤◌, ◌-◌, ◌++◌, IfOk, OnOk, [], drop};
ghost use Rattle.md_inline_events.specs.Cursor as spec;
ghost use Rattle.md_inline_events.specs.Marks as mark;
ghost use Rattle.md_inline_events.specs.SidesOf.{cursor_marks};

use crate::events::{push_event, push_unless_empty};
use crate::token::Token;
use md_engine::event::{Event, Kind, Name, Point};
use md_engine::message::Message;

/// Where a writer is among tokens.
#[derive(Clone, Copy, Debug)]
pub(crate) struct Cursor<'a> {
    /// The name of the piece that the last byte was in.
    pub(crate) name: Name,
    /// How many bytes of that piece are still to come.
    pub(crate) left: usize,
    /// The tokens after it.
    pub(crate) tokens: &'a [Token],
}

/// Whether this is a piece over bytes.
#[inline(always)]
fn is_piece(token: Token) -> bool
    ensures { result ≡ spec.is_piece token }
{
    matches!(token, Token::Over(_, 1..))
}

/// How many tokens are before the next piece.
#[inline(always)]
#[tactic(auto, using(crate::proofs::CursorLemmas::piece_here, crate::proofs::CursorLemmas::piece_later))]
fn opening_len(tokens: &[Token]) -> usize
    ensures { result ≡ spec.before_piece tokens.now }
{
    for (index, token) in tokens.iter().enumerate() {
        if is_piece(*token) {
            return index;
        }
    }
    tokens.len()
}

/// The name of a piece, and over how many bytes it is.
#[inline(always)]
fn piece_of(token: Token) -> (Name, usize)
    ensures { result ≡ (spec.piece_name token, spec.piece_len token) }
{
    match token {
        Token::Over(name, len) => (name, len),
        Token::Enters(name) | Token::Leaves(name) => (name, 0),
    }
}

/// Begins the parts that begin among tokens.
///
/// An `Err` says that memory ran out.
#[inline(always)]
fn enter_all(events: &mut Vec<Event>, tokens: &[Token], point: Point) -> Result<(), Message>
    ensures { OnOk result (events.new.items ≡ events.old.items ++ mark.entered (spec.entering tokens.now) point) }
{
    for token in tokens {
        if let Token::Enters(name) = *token {
            push_event(events, Kind::Enter, name, point)?;
        }
    }
    Ok(())
}

/// Ends the piece that began at `from`, and the parts that end before anything else is, if any does; and says what
/// follows, and where the next piece begins.
///
/// An `Err` says that memory ran out.
#[inline(always)]
fn exit_all<'a>(
    events: &mut Vec<Event>,
    tokens: &'a [Token],
    name: Name,
    from: Point,
    point: Point,
) -> Result<(&'a [Token], Point), Message>
    ensures events { OnOk result (events.new.items ≡
        events.old.items ++ mark.back_events (spec.back_of (spec.left_first tokens.now)) name from point) }
    ensures marks { IfOk result (λ next. spec.token_marks [] next.0.now ≡ spec.token_marks [] tokens.now) }
    ensures from { IfOk result
        (λ next. next.1 ≡ mark.back_from (spec.back_of (spec.left_first tokens.now)) from point) }
{
    let mut rest = tokens;
    let mut begun = from;
    while let Some((token, following)) = rest.split_first() {
        match *token {
            Token::Leaves(part) => {
                push_unless_empty(events, name, begun, point)?;
                push_event(events, Kind::Exit, part, point)?;
                begun = point;
            }
            Token::Over(_, 0) => {}
            _ => return Ok((rest, begun)),
        }
        rest = following;
    }
    Ok((rest, begun))
}

/// Adds what is before a byte at a point, where the piece before it began at `from`; and says where the piece of the
/// byte began.
///
/// An `Err` says that memory ran out.
#[inline(always)]
pub(crate) fn push_front<'a>(
    events: &mut Vec<Event>,
    cursor: Cursor<'a>,
    from: Point,
    at: Point,
) -> Result<(Cursor<'a>, Point), Message>
    ensures events { OnOk result (events.new.items ≡ events.old.items
        ++ mark.front_events (spec.first_front (cursor_marks cursor.entry)) cursor.entry.name from at) }
    ensures marks { IfOk result (λ next. cursor_marks next.0 ≡
        spec.passed (cursor_marks cursor.entry)) }
    ensures name { IfOk result (λ next. next.0.name ≡
        mark.front_name (spec.first_front (cursor_marks cursor.entry)) cursor.entry.name) }
    ensures from { IfOk result (λ next. next.1 ≡
        mark.front_from (spec.first_front (cursor_marks cursor.entry)) from at) }
    ensures within { IfOk result (λ next. next.0.left ≡ 0 → next.0.tokens.now ≡ []) }
{
    if cursor.left > 0 {
        return Ok((cursor, from));
    }
    let len = opening_len(cursor.tokens);
    if len >= cursor.tokens.len() {
        let next = Cursor {
            name: cursor.name,
            left: 0,
            tokens: &[],
        };
        return Ok((next, from));
    }
    let (opening, following) = cursor.tokens.split_at(len);
    let (name, left) = piece_of(cursor.tokens[len]);
    push_unless_empty(events, cursor.name, from, at)?;
    enter_all(events, opening, at)?;
    let next = Cursor {
        name,
        left,
        tokens: following.split_at(1).1,
    };
    Ok((next, at))
}

/// Adds what is after so many bytes of a piece, at a point, where the piece began at `from`; and says where the next
/// piece begins.
///
/// An `Err` says that memory ran out.
#[inline(always)]
pub(crate) fn push_back<'a>(
    events: &mut Vec<Event>,
    cursor: Cursor<'a>,
    count: usize,
    from: Point,
    following: Point,
) -> Result<(Cursor<'a>, Point), Message>
    requires some { 0 < count }
    requires within { cursor.left ≡ 0 → cursor.tokens.now ≡ [] }
    requires fits { 0 < cursor.left → count ≤ cursor.left }
    ensures events { OnOk result (events.new.items ≡ events.old.items ++ mark.back_events
        (spec.first_back (drop (count - 1) (cursor_marks cursor.entry))) cursor.entry.name from following) }
    ensures marks { IfOk result (λ next. cursor_marks next.0 ≡ drop count (cursor_marks cursor.entry)) }
    ensures name { IfOk result (λ next. next.0.name ≡ cursor.entry.name) }
    ensures from { IfOk result (λ next. next.1 ≡
        mark.back_from (spec.first_back (drop (count - 1) (cursor_marks cursor.entry))) from following) }
{
    if cursor.left != count {
        let next = Cursor {
            name: cursor.name,
            left: cursor.left.saturating_sub(count),
            tokens: cursor.tokens,
        };
        return Ok((next, from));
    }
    let (tokens, begun) = exit_all(events, cursor.tokens, cursor.name, from, following)?;
    let next = Cursor {
        name: cursor.name,
        left: 0,
        tokens,
    };
    Ok((next, begun))
}
