// Block quotes (CommonMark 5.1).
//
//     block_quote_prefix ::= small_indent '>' [ space_or_tab ]
//     alert_marker       ::= small_indent '[' '!' name ']' *space_or_tab
//
// A quote begins on a line with its prefix and continues on each further line that has it. `start` adds the begin of
// `BlockQuote` before the prefix. The prefix is its indent, and `BlockQuotePrefix` around `BlockQuoteMarker` and at
// most one column of whitespace.
//
// Where alerts are on, the prefix of the line on which a quote opens takes the rest of that line too, if it is the
// marker of an alert (as on GitHub): its brackets and what is between them are a second `BlockQuoteMarker`. A further
// line is never asked: it has states of its own.

ghost use Rattle.std.specs.Prelude.{◌≡◌, ◌≢◌, ◌==◌, OnOk, is_err, slice_get, true};
ghost use Rattle.std.specs.Char.{to_ascii_lowercase};
ghost use Rattle.md_containers.specs.QuoteRule.{IsQuoteState};
ghost use Rattle.md_engine.specs.Full.{Grown, IsFull, IsFullList, OnError};
ghost use Rattle.md_engine.specs.World.{looks, world};
ghost use Rattle.md_engine.specs.declared.state.Name.{Name as StateName};
ghost use Rattle.md_engine.specs.declared.state.State.{State};
ghost use Rattle.md_engine.specs.declared.state.block_quote.State.{State as QuoteState};
ghost use Rattle.md_containers.specs.QuotePrefix.{IsPlainPrefix, prefixed};
ghost use Rattle.md_containers.specs.Quote.{forgotten, indent_code, marker_code, may_begin, name_of};
ghost use Rattle.md_events.specs.Look.{may_with};
ghost use Rattle.md_events.specs.Spaces.{is_current, sees_white};
ghost use Rattle.md_events.specs.Transition.{IsAt, NeedsNothing};

use crate::room::{ahead, enter, exit, has_room};
use md_engine::event::Name;
use md_engine::message::Message;
use md_engine::or_error;
use md_engine::state::blank_line::State as BlankState;
use md_engine::state::block_quote::State as QuoteState;
use md_engine::state::{Name as StateName, State};
use md_engine::tokenizer::Tokenizer;
use md_events::space_or_tab::{is_space_or_tab, small_indent, space_or_tab_min_max};

/// Whether the prefix of a quote may begin here, by what is first after whitespace: `>`, if that is known.
pub fn may_begin(first: Option<u8>) -> bool
    ensures { result ≡ may_with may_begin first }
{
    matches!(first, None | Some(b'>'))
}

/// A small indent, if there is whitespace, and then this state.
fn indent_then(tokenizer: &mut Tokenizer, next: QuoteState) -> State
    ensures to { result ≢ State.Error →
        result ≡ (indent_code next (world tokenizer.old) (sees_white (world tokenizer.old).current)).to }
    ensures world { result ≢ State.Error → world tokenizer.new ≡
        (indent_code next (world tokenizer.old) (sees_white (world tokenizer.old).current)).world }
    ensures full { OnError result (IsFull tokenizer.new) }
{
    if is_space_or_tab(tokenizer.current) {
        let max = small_indent(tokenizer);
        space_or_tab_min_max(
            tokenizer,
            1,
            max,
            State::Next(StateName::BlockQuote(next)),
            State::Nok,
        )
    } else {
        State::Retry(StateName::BlockQuote(next))
    }
}

/// The marker of a prefix at `>`, and then this state.
fn marker_then(tokenizer: &mut Tokenizer, next: QuoteState) -> State
    requires { (world tokenizer.old).current ≡ looks (world tokenizer.old) }
    ensures to { result ≢ State.Error →
        result ≡ (marker_code next (world tokenizer.old) (is_current 62 (world tokenizer.old).current)).to }
    ensures world { result ≢ State.Error → world tokenizer.new ≡
        (marker_code next (world tokenizer.old) (is_current 62 (world tokenizer.old).current)).world }
    ensures full { OnError result (IsFull tokenizer.new) }
{
    if tokenizer.current != Some(b'>') {
        return State::Nok;
    }
    or_error!(tokenizer.enter(Name::BlockQuotePrefix));
    or_error!(tokenizer.enter(Name::BlockQuoteMarker));
    tokenizer.consume();
    or_error!(tokenizer.exit(Name::BlockQuoteMarker));
    State::Next(StateName::BlockQuote(next))
}

/// The name of the kind of an alert that begins with this small letter; an empty one where there is none.
fn name_of(letter: u8) -> &'static [u8]
    ensures { result.now ≡ name_of letter }
{
    match letter {
        b'n' => b"note",
        b't' => b"tip",
        b'i' => b"important",
        b'w' => b"warning",
        b'c' => b"caution",
        _ => b"",
    }
}

/// The byte that a name has after so many others, or none at its end.
fn name_byte(letter: u8, size: usize) -> Option<u8>
    ensures { result ≡ slice_get (name_of letter) size }
{
    name_of(letter).get(size).copied()
}

/// Whether this is that small letter, in any ASCII case.
fn is_letter(byte: u8, letter: u8) -> bool
    ensures { result ≡ (to_ascii_lowercase byte == letter) }
{
    byte.to_ascii_lowercase() == letter
}

/// It is no marker of an alert: the name of its kind is forgotten.
fn no_name(tokenizer: &mut Tokenizer) -> State
    ensures to { result ≡ State.Nok }
    ensures world { world tokenizer.new ≡ forgotten (world tokenizer.old) }
{
    tokenizer.scratch.marker = 0;
    tokenizer.scratch.size = 0;
    State::Nok
}

/// Before a quote.
///
/// ```markdown
/// > | > a
///     ^
/// ```
#[tactic(auto, using(crate::proofs::QuoteMeaning::quote_rule))]
pub fn start(tokenizer: &mut Tokenizer) -> State
    requires { IsAt NeedsNothing (StateName.BlockQuote QuoteState.Start) (world tokenizer.old) }
    ensures { IsQuoteState QuoteState.Start (world tokenizer.old) result tokenizer.new }
{
    if !tokenizer.options.constructs.block_quote {
        return State::Nok;
    }
    or_error!(tokenizer.enter(Name::BlockQuote));
    if tokenizer.options.constructs.alerts {
        State::Retry(StateName::BlockQuote(QuoteState::OpenStart))
    } else {
        State::Retry(StateName::BlockQuote(QuoteState::ContStart))
    }
}

/// Before the prefix of the first line, where alerts are on.
///
/// ```markdown
/// > | > [!NOTE]
///     ^
/// ```
#[tactic(auto, using(crate::proofs::QuoteMeaning::quote_rule))]
pub fn open_start(tokenizer: &mut Tokenizer) -> State
    requires { IsAt NeedsNothing (StateName.BlockQuote QuoteState.OpenStart) (world tokenizer.old) }
    ensures { IsQuoteState QuoteState.OpenStart (world tokenizer.old) result tokenizer.new }
{
    indent_then(tokenizer, QuoteState::OpenBefore)
}

/// After the indent of the first line, at `>`.
///
/// ```markdown
/// > | > [!NOTE]
///     ^
/// ```
#[tactic(auto, using(crate::proofs::QuoteMeaning::quote_rule))]
pub fn open_before(tokenizer: &mut Tokenizer) -> State
    requires { IsAt NeedsNothing (StateName.BlockQuote QuoteState.OpenBefore) (world tokenizer.old) }
    ensures { IsQuoteState QuoteState.OpenBefore (world tokenizer.old) result tokenizer.new }
{
    marker_then(tokenizer, QuoteState::OpenAfter)
}

/// After `>` on the first line: one column of whitespace belongs to the prefix, if it is there.
///
/// ```markdown
/// > | > [!NOTE]
///      ^
/// ```
#[tactic(auto, using(crate::proofs::QuoteMeaning::quote_rule))]
pub fn open_after(tokenizer: &mut Tokenizer) -> State
    requires { IsAt NeedsNothing (StateName.BlockQuote QuoteState.OpenAfter) (world tokenizer.old) }
    ensures { IsQuoteState QuoteState.OpenAfter (world tokenizer.old) result tokenizer.new }
{
    if is_space_or_tab(tokenizer.current) {
        or_error!(tokenizer.enter(Name::SpaceOrTab));
        tokenizer.consume();
        or_error!(tokenizer.exit(Name::SpaceOrTab));
        State::Next(StateName::BlockQuote(QuoteState::AlertTry))
    } else {
        State::Retry(StateName::BlockQuote(QuoteState::AlertTry))
    }
}

/// After the prefix of the first line: the marker of an alert is tried.
///
/// ```markdown
/// > | > [!NOTE]
///       ^
/// ```
#[tactic(auto, using(crate::proofs::QuoteMeaning::quote_rule))]
pub fn alert_try(tokenizer: &mut Tokenizer) -> State
    requires { IsAt NeedsNothing (StateName.BlockQuote QuoteState.AlertTry) (world tokenizer.old) }
    ensures { IsQuoteState QuoteState.AlertTry (world tokenizer.old) result tokenizer.new }
{
    or_error!(tokenizer.attempt(
        State::Next(StateName::BlockQuote(QuoteState::PrefixEnd)),
        State::Next(StateName::BlockQuote(QuoteState::PrefixEnd))
    ));
    State::Retry(StateName::BlockQuote(QuoteState::AlertStart))
}

/// Before the marker of an alert.
///
/// ```markdown
/// > | > [!NOTE]
///       ^
/// ```
#[tactic(auto, using(crate::proofs::QuoteMeaning::quote_rule))]
pub fn alert_start(tokenizer: &mut Tokenizer) -> State
    requires { IsAt NeedsNothing (StateName.BlockQuote QuoteState.AlertStart) (world tokenizer.old) }
    ensures { IsQuoteState QuoteState.AlertStart (world tokenizer.old) result tokenizer.new }
{
    indent_then(tokenizer, QuoteState::AlertBefore)
}

/// After the indent, at `[`.
///
/// ```markdown
/// > | > [!NOTE]
///       ^
/// ```
#[tactic(auto, using(crate::proofs::QuoteMeaning::quote_rule))]
pub fn alert_before(tokenizer: &mut Tokenizer) -> State
    requires { IsAt NeedsNothing (StateName.BlockQuote QuoteState.AlertBefore) (world tokenizer.old) }
    ensures { IsQuoteState QuoteState.AlertBefore (world tokenizer.old) result tokenizer.new }
{
    if tokenizer.current != Some(b'[') {
        return State::Nok;
    }
    or_error!(tokenizer.enter(Name::BlockQuoteMarker));
    tokenizer.consume();
    State::Next(StateName::BlockQuote(QuoteState::AlertMark))
}

/// After `[`, at `!`.
///
/// ```markdown
/// > | > [!NOTE]
///        ^
/// ```
#[tactic(auto, using(crate::proofs::QuoteMeaning::quote_rule))]
pub fn alert_mark(tokenizer: &mut Tokenizer) -> State
    requires { IsAt NeedsNothing (StateName.BlockQuote QuoteState.AlertMark) (world tokenizer.old) }
    ensures { IsQuoteState QuoteState.AlertMark (world tokenizer.old) result tokenizer.new }
{
    if tokenizer.current != Some(b'!') {
        return State::Nok;
    }
    tokenizer.consume();
    State::Next(StateName::BlockQuote(QuoteState::AlertLetter))
}

/// After `!`: the first letter says which kind it is.
///
/// ```markdown
/// > | > [!NOTE]
///         ^
/// ```
#[tactic(auto, using(crate::proofs::QuoteMeaning::quote_rule))]
pub fn alert_letter(tokenizer: &mut Tokenizer) -> State
    requires { IsAt NeedsNothing (StateName.BlockQuote QuoteState.AlertLetter) (world tokenizer.old) }
    ensures { IsQuoteState QuoteState.AlertLetter (world tokenizer.old) result tokenizer.new }
{
    let Some(byte) = tokenizer.current else {
        return State::Nok;
    };
    let letter = byte.to_ascii_lowercase();
    if name_of(letter).is_empty() {
        return State::Nok;
    }
    tokenizer.consume();
    tokenizer.scratch.marker = letter;
    tokenizer.scratch.size = 1;
    State::Next(StateName::BlockQuote(QuoteState::AlertName))
}

/// In the name of a kind, or after it at `]`; then nothing but whitespace may follow on the line.
///
/// ```markdown
/// > | > [!NOTE]
///          ^^^^
/// ```
#[tactic(auto, using(crate::proofs::QuoteMeaning::quote_rule))]
pub fn alert_name(tokenizer: &mut Tokenizer) -> State
    requires { IsAt NeedsNothing (StateName.BlockQuote QuoteState.AlertName) (world tokenizer.old) }
    ensures { IsQuoteState QuoteState.AlertName (world tokenizer.old) result tokenizer.new }
{
    let left = name_byte(tokenizer.scratch.marker, tokenizer.scratch.size);
    let Some(byte) = tokenizer.current else {
        return no_name(tokenizer);
    };
    match left {
        Some(letter) => {
            if !is_letter(byte, letter) {
                return no_name(tokenizer);
            }
            tokenizer.consume();
            tokenizer.scratch.size += 1;
            State::Next(StateName::BlockQuote(QuoteState::AlertName))
        }
        None => {
            if byte != b']' {
                return no_name(tokenizer);
            }
            tokenizer.consume();
            or_error!(tokenizer.exit(Name::BlockQuoteMarker));
            tokenizer.scratch.marker = 0;
            tokenizer.scratch.size = 0;
            State::Next(StateName::BlankLine(BlankState::Start))
        }
    }
}

/// At the end of the prefix of the first line: after the marker of an alert, if there is one.
///
/// ```markdown
/// > | > [!NOTE]
///              ^
/// ```
#[tactic(auto, using(crate::proofs::QuoteMeaning::quote_rule))]
pub fn prefix_end(tokenizer: &mut Tokenizer) -> State
    requires { IsAt NeedsNothing (StateName.BlockQuote QuoteState.PrefixEnd) (world tokenizer.old) }
    ensures { IsQuoteState QuoteState.PrefixEnd (world tokenizer.old) result tokenizer.new }
{
    or_error!(tokenizer.exit(Name::BlockQuotePrefix));
    State::Ok
}

/// Before the prefix of a further line.
///
/// ```markdown
///   | > a
/// > | > b
///     ^
/// ```
#[tactic(auto, using(crate::proofs::QuoteMeaning::quote_rule))]
pub fn cont_start(tokenizer: &mut Tokenizer) -> State
    requires { IsAt NeedsNothing (StateName.BlockQuote QuoteState.ContStart) (world tokenizer.old) }
    ensures { IsQuoteState QuoteState.ContStart (world tokenizer.old) result tokenizer.new }
{
    indent_then(tokenizer, QuoteState::ContBefore)
}

/// After the indent, at `>`.
///
/// ```markdown
/// > | > a
///     ^
/// ```
#[tactic(auto, using(crate::proofs::QuoteMeaning::quote_rule))]
pub fn cont_before(tokenizer: &mut Tokenizer) -> State
    requires { IsAt NeedsNothing (StateName.BlockQuote QuoteState.ContBefore) (world tokenizer.old) }
    ensures { IsQuoteState QuoteState.ContBefore (world tokenizer.old) result tokenizer.new }
{
    marker_then(tokenizer, QuoteState::ContAfter)
}

/// After `>`: one column of whitespace belongs to the prefix, if it is there.
///
/// ```markdown
/// > | > a
///      ^
/// ```
#[tactic(auto, using(crate::proofs::QuoteMeaning::quote_rule))]
pub fn cont_after(tokenizer: &mut Tokenizer) -> State
    requires { IsAt NeedsNothing (StateName.BlockQuote QuoteState.ContAfter) (world tokenizer.old) }
    ensures { IsQuoteState QuoteState.ContAfter (world tokenizer.old) result tokenizer.new }
{
    if is_space_or_tab(tokenizer.current) {
        or_error!(tokenizer.enter(Name::SpaceOrTab));
        tokenizer.consume();
        or_error!(tokenizer.exit(Name::SpaceOrTab));
    }
    or_error!(tokenizer.exit(Name::BlockQuotePrefix));
    State::Ok
}

/// Whether the prefix `> ` is here, and after it something that may be read now.
pub fn is_plain_prefix(tokenizer: &Tokenizer) -> bool
    ensures { result ≡ true → IsPlainPrefix (world tokenizer.now) }
{
    let index = tokenizer.point.index;
    index < tokenizer.limit
        && tokenizer.bytes[index] == b'>'
        && index + 1 < tokenizer.limit
        && tokenizer.bytes[index + 1] == b' '
        && index + 2 < tokenizer.limit
}

/// Takes the prefix `> ` that is here where the list of events may have no room for it. This is rare, so it is apart.
#[inline(never)]
fn take_growing(tokenizer: &mut Tokenizer) -> Result<(), Message>
    requires { IsPlainPrefix (world tokenizer.old) }
    ensures world { OnOk result (world tokenizer.new ≡ prefixed (world tokenizer.old)) }
    ensures full { is_err result ≡ true → IsFullList Grown.Events tokenizer.new }
{
    tokenizer.enter(Name::BlockQuotePrefix)?;
    tokenizer.enter(Name::BlockQuoteMarker)?;
    tokenizer.consume();
    tokenizer.exit(Name::BlockQuoteMarker)?;
    tokenizer.enter(Name::SpaceOrTab)?;
    tokenizer.consume();
    tokenizer.exit(Name::SpaceOrTab)?;
    tokenizer.exit(Name::BlockQuotePrefix)?;
    tokenizer.current = tokenizer.look();
    Ok(())
}

/// Takes the prefix `> ` that is here, as the states do, and sees what follows it.
#[inline(always)]
pub fn take_plain_prefix(tokenizer: &mut Tokenizer) -> Result<(), Message>
    requires { IsPlainPrefix (world tokenizer.old) }
    ensures world { OnOk result (world tokenizer.new ≡ prefixed (world tokenizer.old)) }
    ensures full { is_err result ≡ true → IsFullList Grown.Events tokenizer.new }
{
    if !has_room(tokenizer, 6) {
        return take_growing(tokenizer);
    }
    let from = tokenizer.point;
    let marked = ahead(from, 1);
    let to = ahead(from, 2);
    tokenizer
        .events
        .push_reserved(enter(Name::BlockQuotePrefix, from));
    tokenizer
        .events
        .push_reserved(enter(Name::BlockQuoteMarker, from));
    tokenizer
        .events
        .push_reserved(exit(Name::BlockQuoteMarker, marked));
    tokenizer
        .events
        .push_reserved(enter(Name::SpaceOrTab, marked));
    tokenizer.events.push_reserved(exit(Name::SpaceOrTab, to));
    tokenizer
        .events
        .push_reserved(exit(Name::BlockQuotePrefix, to));
    tokenizer.point = to;
    tokenizer.current = tokenizer.look();
    Ok(())
}

/// Calls a state of a quote.
#[tactic(auto, using(crate::proofs::QuoteMeaning::quote_rule))]
pub fn call(tokenizer: &mut Tokenizer, state: QuoteState) -> State
    requires { IsAt NeedsNothing (StateName.BlockQuote state) (world tokenizer.old) }
    ensures { IsQuoteState state (world tokenizer.old) result tokenizer.new }
{
    match state {
        QuoteState::Start => start(tokenizer),
        QuoteState::OpenStart => open_start(tokenizer),
        QuoteState::OpenBefore => open_before(tokenizer),
        QuoteState::OpenAfter => open_after(tokenizer),
        QuoteState::AlertTry => alert_try(tokenizer),
        QuoteState::AlertStart => alert_start(tokenizer),
        QuoteState::AlertBefore => alert_before(tokenizer),
        QuoteState::AlertMark => alert_mark(tokenizer),
        QuoteState::AlertLetter => alert_letter(tokenizer),
        QuoteState::AlertName => alert_name(tokenizer),
        QuoteState::PrefixEnd => prefix_end(tokenizer),
        QuoteState::ContStart => cont_start(tokenizer),
        QuoteState::ContBefore => cont_before(tokenizer),
        QuoteState::ContAfter => cont_after(tokenizer),
    }
}
