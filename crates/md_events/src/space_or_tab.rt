// Spaces and tabs (CommonMark 2.2).
//
//     space_or_tab ::= min*max ( space | column of a tab )
//
// It adds one `SpaceOrTab` around them, and nothing where there are none.

ghost use Rattle.std.specs.Prelude.{◌≡◌, ◌≢◌, IfSome, OnOk, is_err, true};
ghost use Rattle.md_events.specs.Ahead.{IsSureWhiteState, IsWhiteState};
ghost use Rattle.md_engine.specs.Full.{Grown, IsFull, IsFullList, OnError};
ghost use Rattle.md_engine.specs.Place.{is_ending};
ghost use Rattle.md_engine.specs.World.{world};
ghost use Rattle.md_engine.specs.declared.state.Name.{Name as StateName};
ghost use Rattle.md_engine.specs.declared.state.State.{State};
ghost use Rattle.md_engine.specs.declared.state.space_or_tab.State.{State as WhiteState};
ghost use Rattle.md_events.specs.Look.{as_seen, looks_after, sees_other};
ghost use Rattle.md_events.specs.OneSpace.{IsOneSpace, spaced};
ghost use Rattle.md_events.specs.Spaces.{WhiteNeeds, WhiteStep, any_size, begins_white};
ghost use Rattle.md_events.specs.Spaces.{sees_white, small_indent, white_then};
ghost use Rattle.md_events.specs.Spaces.{white_transition};
ghost use Rattle.md_events.specs.Stays.{TakesEach};
ghost use Rattle.md_events.specs.Transition.{IsAt};
ghost use Rattle.md_events.specs.States.{IsRun};

use crate::parts::add_part;
use md_engine::class::is_white;
use md_engine::event::Name;
use md_engine::message::Message;
use md_engine::or_error;
use md_engine::state::space_or_tab::State as WhiteState;
use md_engine::state::{Name as StateName, State};
use md_engine::stay::Stay;
use md_engine::tokenizer::{Tokenizer, Whitespace};

/// The greatest small indent: 3 columns.
const SMALL_INDENT: usize = 3;

/// Whether this is a space or a tab.
pub fn is_space_or_tab(current: Option<u8>) -> bool
    ensures { result ≡ sees_white current }
{
    match current {
        Some(byte) => byte == b' ' || byte == b'\t',
        None => false,
    }
}

/// Whether this byte ends a line.
fn is_ending(byte: u8) -> bool
    ensures { result ≡ is_ending byte }
{
    byte == b'\n' || byte == b'\r'
}

/// A byte as a state sees it: a line ending as `\n`.
fn as_seen(byte: u8) -> u8
    ensures { result ≡ as_seen byte }
{
    if is_ending(byte) { b'\n' } else { byte }
}

/// The byte here or, where that is whitespace, the first byte after the whitespace, as far as the text may be read now;
/// none where that is not known, or where the text ends.
#[tactic(auto, unfolding(crate::specs::Look::looks_after))]
pub fn look_after_white(tokenizer: &mut Tokenizer) -> Option<u8>
    ensures following { result ≡ looks_after (world tokenizer.old) }
    ensures same { world tokenizer.new ≡ world tokenizer.old }
{
    if !is_space_or_tab(tokenizer.current) {
        return tokenizer.current;
    }
    let end = tokenizer.spread_end(b' ');
    if end < tokenizer.limit {
        Some(as_seen(tokenizer.bytes[end]))
    } else {
        None
    }
}

/// Whether the rest of the line is known to hold something else than this marker and whitespace. Then it is no line
/// of such markers alone.
pub fn sees_other(tokenizer: &mut Tokenizer, marker: u8) -> bool
    ensures sees { result ≡ sees_other (world tokenizer.old) marker }
    ensures same { world tokenizer.new ≡ world tokenizer.old }
{
    let end = tokenizer.spread_end(marker);
    end < tokenizer.limit && !is_ending(tokenizer.bytes[end])
}

/// The greatest small indent, in columns: 3, or any where there is no indented code.
pub fn small_indent(tokenizer: &Tokenizer) -> usize
    ensures { result ≡ small_indent (world tokenizer.now).setting.options }
{
    if tokenizer.options.constructs.code_indented {
        SMALL_INDENT
    } else {
        usize::MAX
    }
}

/// Tries whitespace of at least `min` and at most `max` columns; `ok` is the next state where it is there, else
/// `nok`. No limit is the greatest `usize`.
pub fn space_or_tab_min_max(
    tokenizer: &mut Tokenizer,
    min: usize,
    max: usize,
    ok: State,
    nok: State,
) -> State
    ensures to { result ≢ State.Error → result ≡ (white_then (world tokenizer.old) min max ok nok).to }
    ensures world { result ≢ State.Error →
        world tokenizer.new ≡ (white_then (world tokenizer.old) min max ok nok).world }
    ensures full { OnError result (IsFull tokenizer.new) }
{
    or_error!(tokenizer.attempt(ok, nok));
    tokenizer.scratch.whitespace = Whitespace { min, max, size: 0 };
    State::Retry(StateName::SpaceOrTab(WhiteState::Start))
}

/// Tries at least one space or tab; `ok` is the next state where it is there, else `nok`.
pub fn space_or_tab(tokenizer: &mut Tokenizer, ok: State, nok: State) -> State
    ensures to { result ≢ State.Error → result ≡ (white_then (world tokenizer.old) 1 any_size ok nok).to }
    ensures world { result ≢ State.Error →
        world tokenizer.new ≡ (white_then (world tokenizer.old) 1 any_size ok nok).world }
    ensures full { OnError result (IsFull tokenizer.new) }
{
    space_or_tab_min_max(tokenizer, 1, usize::MAX, ok, nok)
}

/// Whether there is one space here, and after it a byte that may be read now and is no whitespace.
pub fn is_one_space(tokenizer: &Tokenizer) -> bool
    ensures { result ≡ true → IsOneSpace (world tokenizer.now) }
{
    let index = tokenizer.point.index;
    index < tokenizer.limit
        && tokenizer.bytes[index] == b' '
        && index + 1 < tokenizer.limit
        && !is_white(tokenizer.bytes[index + 1])
}

/// Takes the one space here, as the states of whitespace do, and sees the byte after it.
#[inline(always)]
pub fn take_one_space(tokenizer: &mut Tokenizer) -> Result<(), Message>
    requires { IsOneSpace (world tokenizer.old) }
    ensures world { OnOk result (world tokenizer.new ≡ spaced (world tokenizer.old)) }
    ensures full { is_err result ≡ true → IsFullList Grown.Events tokenizer.new }
{
    let from = tokenizer.point;
    tokenizer.consume();
    let to = tokenizer.point;
    add_part(tokenizer, Name::SpaceOrTab, None, from, to)?;
    tokenizer.scratch.whitespace = Whitespace {
        min: 0,
        max: 0,
        size: 0,
    };
    tokenizer.current = tokenizer.look();
    Ok(())
}

/// Whether whitespace begins here, and some is asked for.
fn begins(tokenizer: &Tokenizer) -> bool
    ensures { result ≡ begins_white (world tokenizer.now) }
{
    is_space_or_tab(tokenizer.current) && tokenizer.scratch.whitespace.max > 0
}

/// Before whitespace.
///
/// ```markdown
/// > |   a
///     ^
/// ```
#[tactic(auto, using(crate::proofs::WhiteMeaning::white_rule))]
pub fn start(tokenizer: &mut Tokenizer) -> State
    requires { IsAt WhiteNeeds (StateName.SpaceOrTab WhiteState.Start) (world tokenizer.old) }
    ensures { IsWhiteState WhiteState.Start (world tokenizer.old) result tokenizer.new }
{
    if begins(tokenizer) {
        or_error!(tokenizer.enter(Name::SpaceOrTab));
        State::Retry(StateName::SpaceOrTab(WhiteState::Inside))
    } else {
        State::Retry(StateName::SpaceOrTab(WhiteState::After))
    }
}

/// In whitespace.
///
/// ```markdown
/// > |   a
///      ^
/// ```
#[tactic(auto, using(crate::proofs::WhiteMeaning::white_rule))]
pub fn inside(tokenizer: &mut Tokenizer) -> State
    requires { IsAt WhiteNeeds (StateName.SpaceOrTab WhiteState.Inside) (world tokenizer.old) }
    ensures { IsWhiteState WhiteState.Inside (world tokenizer.old) result tokenizer.new }
{
    let Whitespace { max, size, .. } = tokenizer.scratch.whitespace;
    if is_space_or_tab(tokenizer.current) && size < max {
        tokenizer.consume();
        tokenizer.scratch.whitespace.size += 1;
        State::Next(StateName::SpaceOrTab(WhiteState::Inside))
    } else {
        or_error!(tokenizer.exit(Name::SpaceOrTab));
        State::Retry(StateName::SpaceOrTab(WhiteState::After))
    }
}

/// After whitespace.
///
/// ```markdown
/// > |   a
///       ^
/// ```
#[tactic(auto, using(crate::proofs::WhiteMeaning::white_rule))]
pub fn after(tokenizer: &mut Tokenizer) -> State
    requires { IsAt WhiteNeeds (StateName.SpaceOrTab WhiteState.After) (world tokenizer.old) }
    ensures { IsSureWhiteState WhiteState.After (world tokenizer.old) result tokenizer.new }
{
    let Whitespace { min, size, .. } = tokenizer.scratch.whitespace;
    tokenizer.scratch.whitespace = Whitespace {
        min: 0,
        max: 0,
        size: 0,
    };
    if size >= min { State::Ok } else { State::Nok }
}

/// What a state of whitespace only takes and counts.
pub fn takes_at_once(state: WhiteState) -> Option<Stay>
    ensures { IfSome result (λ stay. TakesEach stay (StateName.SpaceOrTab state) (white_transition state)) }
{
    match state {
        WhiteState::Inside => Some(Stay::White),
        _ => None,
    }
}

/// Calls a state of whitespace.
#[tactic(auto, using(crate::proofs::WhiteMeaning::white_rule))]
pub fn call(tokenizer: &mut Tokenizer, state: WhiteState) -> State
    requires { IsAt WhiteNeeds (StateName.SpaceOrTab state) (world tokenizer.old) }
    ensures { IsWhiteState state (world tokenizer.old) result tokenizer.new }
{
    match state {
        WhiteState::Start => start(tokenizer),
        WhiteState::Inside => inside(tokenizer),
        WhiteState::After => after(tokenizer),
    }
}

/// Before whitespace: takes all of it at once, as the states do one after another.
///
/// ```markdown
/// > |   a
///     ^
/// ```
fn start_at_once(tokenizer: &mut Tokenizer) -> State
    requires { IsAt WhiteNeeds (StateName.SpaceOrTab WhiteState.Start) (world tokenizer.old) }
    ensures { IsRun WhiteStep (StateName.SpaceOrTab WhiteState.Start)
        (world tokenizer.old) (IsFull tokenizer.new) result tokenizer.new }
{
    if begins(tokenizer) {
        or_error!(tokenizer.enter(Name::SpaceOrTab));
        tokenizer.see_white();
        if tokenizer.see_or_wait(false) {
            return State::Next(StateName::SpaceOrTab(WhiteState::Inside));
        }
        or_error!(tokenizer.exit(Name::SpaceOrTab));
        return after(tokenizer);
    }
    after(tokenizer)
}

/// Calls a state of whitespace; all of it is taken at once.
pub fn call_at_once(tokenizer: &mut Tokenizer, state: WhiteState) -> State
    requires { IsAt WhiteNeeds (StateName.SpaceOrTab state) (world tokenizer.old) }
    ensures { IsRun WhiteStep (StateName.SpaceOrTab state) (world tokenizer.old) (IsFull tokenizer.new) result
        tokenizer.new }
{
    match state {
        WhiteState::Start => start_at_once(tokenizer),
        _ => call(tokenizer, state),
    }
}
