// Rows of a table, several parts at once.
//
//     part ::= '|' | word | *space_or_tab
//
// Most parts of a row are alone between single spaces. So what the states do one after another with pipes, words and
// single spaces is done here in one call. It becomes the same.

ghost use Rattle.std.specs.Prelude.{◌≡◌, ◌≢◌, ◌<◌, ◌≤◌, ◌⊎◌, IfSome, None, OnOk, Some, false, is_err, true};
ghost use Rattle.md_engine.specs.Full.{Grown, IsFull, IsFullList, OnError};
ghost use Rattle.md_engine.specs.Scheme.{cells_left};
ghost use Rattle.md_engine.specs.Staying.{SeesSome};
ghost use Rattle.md_engine.specs.World.{looks, world};
ghost use Rattle.md_engine.specs.declared.state.State.{State};
ghost use Rattle.md_engine.specs.declared.stay.Stay.{Stay};
ghost use Rattle.md_meaning.specs.Ascii.{pipe};
ghost use Rattle.md_events.specs.Spaces.{sees_white};
ghost use Rattle.md_events.specs.Transition.{IsAt, NeedsNothing};
ghost use Rattle.md_tables.specs.Row.{after_part, is_escaped, is_text, name_at, piece};
ghost use Rattle.md_tables.specs.RowWords.{Proceeds, ProceedsTo, IsGap, RowStep, TakesTo, divided, is_backslash};
ghost use Rattle.md_events.specs.States.{IsRun};

use crate::row::{Place, Row, TEXT_LINK, after_part, at_break, begin_row, name_at};
use md_engine::class::Class;
use md_engine::event::Name;
use md_engine::message::Message;
use md_engine::state::State;
use md_engine::tokenizer::Tokenizer;
use md_events::space_or_tab::{is_one_space, is_space_or_tab, take_one_space};

/// Whether a pipe is here.
#[inline(always)]
fn is_pipe(current: Option<u8>) -> bool
    ensures { result ≡ true → current ≡ Some pipe }
{
    matches!(current, Some(b'|'))
}

/// Whether text is here.
#[inline(always)]
fn sees_text(current: Option<u8>) -> bool
    ensures { result ≡ is_text (piece current) }
{
    match current {
        None => false,
        Some(byte) => !matches!(byte, b'\n' | b' ' | b'\t' | b'|'),
    }
}

/// Whether a backslash is here.
#[inline(always)]
fn is_backslash(current: Option<u8>) -> bool
    ensures { result ≡ is_backslash current }
{
    matches!(current, Some(b'\\'))
}

/// Whether a backslash in front takes what is here.
#[inline(always)]
fn is_escaped(current: Option<u8>) -> bool
    ensures { result ≡ is_escaped current }
{
    matches!(current, Some(b'\\' | b'|'))
}

/// Takes the pipe that is here.
#[inline(always)]
fn take_pipe(tokenizer: &mut Tokenizer) -> Result<(), Message>
    requires current { (world tokenizer.old).current ≡ looks (world tokenizer.old) }
    requires pipe { (world tokenizer.old).current ≡ Some pipe }
    ensures world { OnOk result (world tokenizer.new ≡ divided (world tokenizer.old)) }
    ensures full { is_err result ≡ true → IsFullList Grown.Events tokenizer.new }
{
    tokenizer.enter(Name::GfmTableCellDivider)?;
    tokenizer.consume();
    tokenizer.exit(Name::GfmTableCellDivider)
}

/// Sees and takes the bytes of a word that are here and that nothing gives a meaning.
#[inline(always)]
fn take_plain(tokenizer: &mut Tokenizer)
    ensures { SeesSome Stay.Plain (world tokenizer.old) (world tokenizer.new) }
{
    let index = tokenizer.point.index;
    tokenizer.consume_all(Class::Plain, tokenizer.limit);
    if tokenizer.point.index > index {
        tokenizer.current = Some(tokenizer.bytes[tokenizer.point.index - 1]);
    }
}

/// After a part of the row: takes one space, or nothing where no whitespace is here. Where more does, continues with
/// that as the states do.
#[inline(always)]
fn gap(tokenizer: &mut Tokenizer, row: Row) -> Option<State>
    requires { (world tokenizer.old).current ≡ looks (world tokenizer.old) }
    ensures none { result ≡ None → IsGap (world tokenizer.old) (world tokenizer.new) }
    ensures to { IfSome result
        (λ to. to ≢ State.Error →
        to ≡ (after_part row (world tokenizer.old) (sees_white tokenizer.old.current)).to) }
    ensures world { IfSome result
        (λ to. to ≢ State.Error →
        world tokenizer.new ≡
        (after_part row (world tokenizer.old) (sees_white tokenizer.old.current)).world) }
    ensures full { IfSome result (λ to. OnError to (IsFull tokenizer.new)) }
{
    if is_one_space(tokenizer) {
        if take_one_space(tokenizer).is_err() {
            return Some(State::Error);
        }
        None
    } else if is_space_or_tab(tokenizer.current) {
        Some(after_part(tokenizer, row))
    } else {
        None
    }
}

/// Takes what is here, and sees what follows it, at a place of the row.
#[inline(always)]
fn take_to(tokenizer: &mut Tokenizer, row: Row, place: Place) -> Option<State>
    requires { (world tokenizer.old).point.index < (world tokenizer.old).setting.limit }
    ensures takes { TakesTo row place (world tokenizer.old) result (world tokenizer.new) }
    ensures full { IfSome result (λ to. OnError to (IsFull tokenizer.new)) }
{
    tokenizer.consume();
    if tokenizer.see_or_wait(false) {
        Some(State::Next(name_at(row, place)))
    } else {
        None
    }
}

/// In a word: takes the bytes that nothing gives a meaning.
#[inline(always)]
fn pass_plain(tokenizer: &mut Tokenizer, row: Row) -> Option<State>
    requires at { IsAt NeedsNothing (name_at row Place.Data) (world tokenizer.old) }
    requires inside { (world tokenizer.old).point.index < (world tokenizer.old).setting.limit }
    ensures proceeds { ProceedsTo row (name_at row Place.Data) (world tokenizer.old) (name_at row Place.Data) result
        (world tokenizer.new) }
    ensures rests { result ≡ None →
        cells_left (world tokenizer.new).setting.limit (world tokenizer.new).point ≤
        cells_left (world tokenizer.old).setting.limit (world tokenizer.old).point }
    ensures falls { result ≡ None → is_text (piece (world tokenizer.old).current) ≡ true →
        is_text (piece (world tokenizer.new).current) ≡ false →
        cells_left (world tokenizer.new).setting.limit (world tokenizer.new).point <
        cells_left (world tokenizer.old).setting.limit (world tokenizer.old).point }
    ensures full { IfSome result (λ to. OnError to (IsFull tokenizer.new)) }
{
    take_plain(tokenizer);
    if tokenizer.see_or_wait(false) {
        return Some(State::Next(name_at(row, Place::Data)));
    }
    None
}

/// After `\` in a word: takes what this takes.
///
/// ```markdown
///   | | a    |
///   | | ---- |
/// > | | b\|c |
///         ^
/// ```
#[inline(always)]
fn pass_escape(tokenizer: &mut Tokenizer, row: Row) -> Option<State>
    requires { IsAt NeedsNothing (name_at row Place.Escape) (world tokenizer.old) }
    ensures proceeds { ProceedsTo row (name_at row Place.Escape) (world tokenizer.old) (name_at row Place.Data) result
        (world tokenizer.new) }
    ensures rests { result ≡ None →
        cells_left (world tokenizer.new).setting.limit (world tokenizer.new).point ≤
        cells_left (world tokenizer.old).setting.limit (world tokenizer.old).point }
    ensures full { IfSome result (λ to. OnError to (IsFull tokenizer.new)) }
{
    if is_escaped(tokenizer.current) {
        take_to(tokenizer, row, Place::Data)
    } else {
        None
    }
}

/// In a word, before a byte of it: takes that, and a pair whole.
///
/// ```markdown
///   | | a    |
///   | | ---- |
/// > | | b\|c |
///        ^
/// ```
fn pass_text(tokenizer: &mut Tokenizer, row: Row) -> Option<State>
    requires at { IsAt NeedsNothing (name_at row Place.Data) (world tokenizer.old) }
    requires text { is_text (piece (world tokenizer.old).current) ≡ true }
    ensures proceeds { ProceedsTo row (name_at row Place.Data) (world tokenizer.old) (name_at row Place.Data) result
        (world tokenizer.new) }
    ensures inside { result ≡ None → (world tokenizer.new).point.index < (world tokenizer.new).setting.limit }
    ensures falls { result ≡ None →
        cells_left (world tokenizer.new).setting.limit (world tokenizer.new).point <
        cells_left (world tokenizer.old).setting.limit (world tokenizer.old).point }
    ensures full { IfSome result (λ to. OnError to (IsFull tokenizer.new)) }
{
    if is_backslash(tokenizer.current) {
        if let Some(state) = take_to(tokenizer, row, Place::Escape) {
            return Some(state);
        }
        pass_escape(tokenizer, row)
    } else {
        take_to(tokenizer, row, Place::Data)
    }
}

/// In a word: continues up to where it ends.
#[inline(always)]
fn pass_rest(tokenizer: &mut Tokenizer, row: Row) -> Option<State>
    requires { IsAt NeedsNothing (name_at row Place.Data) (world tokenizer.old) }
    ensures proceeds { ProceedsTo row (name_at row Place.Data) (world tokenizer.old) (name_at row Place.Data) result
        (world tokenizer.new) }
    ensures ends { result ≡ None → is_text (piece (world tokenizer.new).current) ≡ false }
    ensures falls { result ≡ None →
        (world tokenizer.new ≡ world tokenizer.old) ⊎
        (cells_left (world tokenizer.new).setting.limit (world tokenizer.new).point <
        cells_left (world tokenizer.old).setting.limit (world tokenizer.old).point) }
    ensures full { IfSome result (λ to. OnError to (IsFull tokenizer.new)) }
{
    while sees_text(tokenizer.current) {
        if let Some(state) = pass_text(tokenizer, row) {
            return Some(state);
        }
        if let Some(state) = pass_plain(tokenizer, row) {
            return Some(state);
        }
    }
    None
}

/// In a word: takes what is left of it, and continues after it.
///
/// ```markdown
///   | | a  |
///   | | -- |
/// > | | bc |
///       ^^
/// ```
#[inline(always)]
fn end_word(tokenizer: &mut Tokenizer, row: Row) -> Option<State>
    requires { IsAt NeedsNothing (name_at row Place.Data) (world tokenizer.old) }
    ensures proceeds { Proceeds row (name_at row Place.Data) (world tokenizer.old) result (world tokenizer.new) }
    ensures rests { result ≡ None →
        cells_left (world tokenizer.new).setting.limit (world tokenizer.new).point ≤
        cells_left (world tokenizer.old).setting.limit (world tokenizer.old).point }
    ensures falls { result ≡ None → is_text (piece (world tokenizer.old).current) ≡ true →
        cells_left (world tokenizer.new).setting.limit (world tokenizer.new).point <
        cells_left (world tokenizer.old).setting.limit (world tokenizer.old).point }
    ensures full { IfSome result (λ to. OnError to (IsFull tokenizer.new)) }
{
    if let Some(state) = pass_rest(tokenizer, row) {
        return Some(state);
    }
    if tokenizer.exit(Name::Data).is_err() {
        return Some(State::Error);
    }
    gap(tokenizer, row)
}

/// Before a word: takes it, and continues after it.
///
/// ```markdown
///   | | a |
///   | | - |
/// > | | b |
///       ^
/// ```
#[inline(always)]
fn pass_word(tokenizer: &mut Tokenizer, row: Row) -> Option<State>
    requires at { IsAt NeedsNothing (name_at row Place.Break) (world tokenizer.old) }
    requires text { is_text (piece (world tokenizer.old).current) ≡ true }
    ensures proceeds { Proceeds row (name_at row Place.Break) (world tokenizer.old) result (world tokenizer.new) }
    ensures falls { result ≡ None →
        cells_left (world tokenizer.new).setting.limit (world tokenizer.new).point <
        cells_left (world tokenizer.old).setting.limit (world tokenizer.old).point }
    ensures full { IfSome result (λ to. OnError to (IsFull tokenizer.new)) }
{
    if tokenizer.enter_link(Name::Data, TEXT_LINK).is_err() {
        return Some(State::Error);
    }
    if let Some(state) = pass_plain(tokenizer, row) {
        return Some(state);
    }
    end_word(tokenizer, row)
}

/// Before a pipe: takes it, and continues after it.
///
/// ```markdown
///   | | a |
///   | | - |
/// > | | b |
///     ^   ^
/// ```
#[inline(always)]
fn pass_pipe(tokenizer: &mut Tokenizer, row: Row) -> Option<State>
    requires at { IsAt NeedsNothing (name_at row Place.Break) (world tokenizer.old) }
    requires pipe { (world tokenizer.old).current ≡ Some pipe }
    ensures proceeds { Proceeds row (name_at row Place.Break) (world tokenizer.old) result (world tokenizer.new) }
    ensures falls { result ≡ None →
        cells_left (world tokenizer.new).setting.limit (world tokenizer.new).point <
        cells_left (world tokenizer.old).setting.limit (world tokenizer.old).point }
    ensures full { IfSome result (λ to. OnError to (IsFull tokenizer.new)) }
{
    if take_pipe(tokenizer).is_err() {
        return Some(State::Error);
    }
    if tokenizer.see_or_wait(false) {
        return Some(State::Next(name_at(row, Place::CellBefore)));
    }
    gap(tokenizer, row)
}

/// Between two parts of a row, or at its end: takes the next part, and continues after it.
///
/// ```markdown
///   | | a |
///   | | - |
/// > | | b |
///     ^ ^ ^
/// ```
#[inline(always)]
fn pass_part(tokenizer: &mut Tokenizer, row: Row) -> Option<State>
    requires { IsAt NeedsNothing (name_at row Place.Break) (world tokenizer.old) }
    ensures proceeds { Proceeds row (name_at row Place.Break) (world tokenizer.old) result (world tokenizer.new) }
    ensures falls { result ≡ None →
        cells_left (world tokenizer.new).setting.limit (world tokenizer.new).point <
        cells_left (world tokenizer.old).setting.limit (world tokenizer.old).point }
    ensures full { IfSome result (λ to. OnError to (IsFull tokenizer.new)) }
{
    if is_pipe(tokenizer.current) {
        pass_pipe(tokenizer, row)
    } else if sees_text(tokenizer.current) {
        pass_word(tokenizer, row)
    } else {
        Some(at_break(tokenizer, row))
    }
}

/// Between two parts of a row, or at its end: takes all parts that follow.
///
/// ```markdown
///   | | a |
///   | | - |
/// > | | b |
///     ^ ^ ^
/// ```
#[inline(always)]
fn parts(tokenizer: &mut Tokenizer, row: Row) -> State
    requires { IsAt NeedsNothing (name_at row Place.Break) (world tokenizer.old) }
    ensures { IsRun (RowStep row) (name_at row Place.Break)
        (world tokenizer.old) (IsFull tokenizer.new) result tokenizer.new }
{
    loop {
        if let Some(state) = pass_part(tokenizer, row) {
            return state;
        }
    }
}

/// Before a row: begins it, and takes whitespace.
///
/// ```markdown
///   | | a |
///   | | - |
/// > | | b |
///     ^
/// ```
#[inline(always)]
fn begin(tokenizer: &mut Tokenizer, row: Row) -> Option<State>
    requires { IsAt NeedsNothing (name_at row Place.Start) (world tokenizer.old) }
    ensures proceeds { Proceeds row (name_at row Place.Start) (world tokenizer.old) result (world tokenizer.new) }
    ensures full { IfSome result (λ to. OnError to (IsFull tokenizer.new)) }
{
    if begin_row(tokenizer, row).is_err() {
        return Some(State::Error);
    }
    gap(tokenizer, row)
}

/// After a pipe: takes whitespace.
///
/// ```markdown
///   | | a |
///   | | - |
/// > | | b |
///      ^   ^
/// ```
#[inline(always)]
fn after_pipe(tokenizer: &mut Tokenizer, row: Row) -> Option<State>
    requires { IsAt NeedsNothing (name_at row Place.CellBefore) (world tokenizer.old) }
    ensures proceeds { Proceeds row (name_at row Place.CellBefore) (world tokenizer.old) result (world tokenizer.new) }
    ensures full { IfSome result (λ to. OnError to (IsFull tokenizer.new)) }
{
    gap(tokenizer, row)
}

/// After `\` in a word: takes what is left of the word, and continues after it.
///
/// ```markdown
///   | | a    |
///   | | ---- |
/// > | | b\|c |
///         ^
/// ```
#[inline(always)]
fn after_backslash(tokenizer: &mut Tokenizer, row: Row) -> Option<State>
    requires { IsAt NeedsNothing (name_at row Place.Escape) (world tokenizer.old) }
    ensures proceeds { Proceeds row (name_at row Place.Escape) (world tokenizer.old) result (world tokenizer.new) }
    ensures full { IfSome result (λ to. OnError to (IsFull tokenizer.new)) }
{
    if let Some(state) = pass_escape(tokenizer, row) {
        return Some(state);
    }
    end_word(tokenizer, row)
}

/// Goes on at a place of a row up to the next of its parts.
#[inline(always)]
fn reach(tokenizer: &mut Tokenizer, row: Row, place: Place) -> Option<State>
    requires { IsAt NeedsNothing (name_at row place) (world tokenizer.old) }
    ensures proceeds { Proceeds row (name_at row place) (world tokenizer.old) result (world tokenizer.new) }
    ensures full { IfSome result (λ to. OnError to (IsFull tokenizer.new)) }
{
    match place {
        Place::Start => begin(tokenizer, row),
        Place::Break => None,
        Place::Data => end_word(tokenizer, row),
        Place::Escape => after_backslash(tokenizer, row),
        Place::CellBefore => after_pipe(tokenizer, row),
    }
}

/// Calls a state of a row, and those that follow it.
#[inline(always)]
pub fn call(tokenizer: &mut Tokenizer, row: Row, place: Place) -> State
    requires { IsAt NeedsNothing (name_at row place) (world tokenizer.old) }
    ensures { IsRun (RowStep row) (name_at row place) (world tokenizer.old) (IsFull tokenizer.new) result
        tokenizer.new }
{
    match reach(tokenizer, row, place) {
        Some(state) => state,
        None => parts(tokenizer, row),
    }
}
