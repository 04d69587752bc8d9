// Thematic breaks (CommonMark 4.1).
//
//     thematic_break ::= small_indent marker 2*( *space_or_tab marker ) *space_or_tab
//     marker         ::= '*' | '-' | '_'
//
// All markers of a break are one byte. It adds `ThematicBreak` around `ThematicBreakSequence`, one for each run of
// markers, and `SpaceOrTab`. A line that is an underline with nothing to turn is a line of the text, and no break.

ghost use Rattle.std.specs.Prelude.{◌≡◌, IfSome};
ghost use Rattle.md_leaves.specs.BreakRule.{IsBreakState, IsSureBreakState};
ghost use Rattle.md_engine.specs.World.{world};
ghost use Rattle.md_engine.specs.declared.state.Name.{Name as StateName};
ghost use Rattle.md_engine.specs.declared.state.State.{State};
ghost use Rattle.md_engine.specs.declared.state.thematic_break.State.{State as BreakState};
ghost use Rattle.md_leaves.specs.Break.{BreakNeeds, break_transition};
ghost use Rattle.md_leaves.specs.Break.{is_marker, may_begin};
ghost use Rattle.md_events.specs.Look.{may_with};
ghost use Rattle.md_events.specs.Stays.{TakesEach};
ghost use Rattle.md_events.specs.Transition.{IsAt};

use crate::heading_setext::turns_nothing;
use crate::leaf_start::start_leaf;
use md_engine::event::Name;
use md_engine::or_error;
use md_engine::state::thematic_break::State as BreakState;
use md_engine::state::{Name as StateName, State};
use md_engine::stay::Stay;
use md_engine::tokenizer::Tokenizer;
use md_events::space_or_tab::{is_space_or_tab, small_indent, space_or_tab_min_max};

/// A break has at least so many markers.
const MARKERS: usize = 3;

/// Whether this is a marker of a break.
fn is_marker(byte: u8) -> bool
    ensures { result ≡ is_marker byte }
{
    byte == b'*' || byte == b'-' || byte == b'_'
}

/// Whether a break may begin here, by what is first after whitespace: a marker, if that is known.
pub fn may_begin(first: Option<u8>) -> bool
    ensures { result ≡ may_with may_begin first }
{
    match first {
        Some(byte) => is_marker(byte),
        None => true,
    }
}

/// Before a break.
///
/// ```markdown
/// > | ***
///     ^
/// ```
#[tactic(auto, using(crate::proofs::BreakMeaning::break_rule))]
pub fn start(tokenizer: &mut Tokenizer) -> State
    requires { IsAt BreakNeeds (StateName.ThematicBreak BreakState.Start) (world tokenizer.old) }
    ensures { IsBreakState BreakState.Start (world tokenizer.old) result tokenizer.new }
{
    let is_on = tokenizer.options.constructs.thematic_break;
    start_leaf(
        tokenizer,
        is_on,
        Name::ThematicBreak,
        StateName::ThematicBreak(BreakState::Before),
    )
}

/// After the indent, at a marker.
///
/// ```markdown
/// > | ***
///     ^
/// ```
#[tactic(auto, using(crate::proofs::BreakMeaning::break_rule))]
pub fn before(tokenizer: &mut Tokenizer) -> State
    requires { IsAt BreakNeeds (StateName.ThematicBreak BreakState.Before) (world tokenizer.old) }
    ensures { IsBreakState BreakState.Before (world tokenizer.old) result tokenizer.new }
{
    match tokenizer.current {
        Some(byte) if is_marker(byte) => {
            if byte == b'-' && turns_nothing(tokenizer.options, tokenizer.flags.leaf) {
                or_error!(tokenizer.enter(Name::ThematicBreakSequence));
                tokenizer.scratch.marker = byte;
                return State::Retry(StateName::ThematicBreak(BreakState::OneRun));
            }
            tokenizer.scratch.marker = byte;
            State::Retry(StateName::ThematicBreak(BreakState::AtBreak))
        }
        _ => State::Nok,
    }
}

/// Before a run of markers, or at the end.
///
/// ```markdown
/// > | * * *
///     ^ ^ ^
/// ```
#[tactic(auto, using(crate::proofs::BreakMeaning::break_rule))]
pub fn at_break(tokenizer: &mut Tokenizer) -> State
    requires { IsAt BreakNeeds (StateName.ThematicBreak BreakState.AtBreak) (world tokenizer.old) }
    ensures { IsBreakState BreakState.AtBreak (world tokenizer.old) result tokenizer.new }
{
    if tokenizer.current == Some(tokenizer.scratch.marker) {
        or_error!(tokenizer.enter(Name::ThematicBreakSequence));
        return State::Retry(StateName::ThematicBreak(BreakState::Sequence));
    }
    let is_break = match tokenizer.current {
        None | Some(b'\n') => tokenizer.scratch.size >= MARKERS,
        _ => false,
    };
    tokenizer.scratch.marker = 0;
    tokenizer.scratch.size = 0;
    if is_break {
        or_error!(tokenizer.exit(Name::ThematicBreak));
        State::Ok
    } else {
        State::Nok
    }
}

/// In a run of markers.
///
/// ```markdown
/// > | ***
///     ^^^
/// ```
#[tactic(auto, using(crate::proofs::BreakMeaning::break_rule))]
pub fn sequence(tokenizer: &mut Tokenizer) -> State
    requires { IsAt BreakNeeds (StateName.ThematicBreak BreakState.Sequence) (world tokenizer.old) }
    ensures { IsBreakState BreakState.Sequence (world tokenizer.old) result tokenizer.new }
{
    if tokenizer.current == Some(tokenizer.scratch.marker) {
        tokenizer.consume();
        tokenizer.scratch.size += 1;
        return State::Next(StateName::ThematicBreak(BreakState::Sequence));
    }
    or_error!(tokenizer.exit(Name::ThematicBreakSequence));
    if is_space_or_tab(tokenizer.current) {
        space_or_tab_min_max(
            tokenizer,
            0,
            usize::MAX,
            State::Next(StateName::ThematicBreak(BreakState::AtBreak)),
            State::Nok,
        )
    } else {
        State::Retry(StateName::ThematicBreak(BreakState::AtBreak))
    }
}

/// In the first run of markers, where that may not be all of the line: then it is an underline with nothing to turn.
///
/// ```markdown
///   | [a]: b
/// > | - - -
///     ^
/// ```
#[tactic(auto, using(crate::proofs::BreakMeaning::break_rule))]
pub fn one_run(tokenizer: &mut Tokenizer) -> State
    requires { IsAt BreakNeeds (StateName.ThematicBreak BreakState.OneRun) (world tokenizer.old) }
    ensures { IsBreakState BreakState.OneRun (world tokenizer.old) result tokenizer.new }
{
    if tokenizer.current == Some(tokenizer.scratch.marker) {
        tokenizer.consume();
        tokenizer.scratch.size += 1;
        return State::Next(StateName::ThematicBreak(BreakState::OneRun));
    }
    or_error!(tokenizer.exit(Name::ThematicBreakSequence));
    if is_space_or_tab(tokenizer.current) {
        space_or_tab_min_max(
            tokenizer,
            0,
            usize::MAX,
            State::Next(StateName::ThematicBreak(BreakState::OneRunAfter)),
            State::Nok,
        )
    } else {
        State::Retry(StateName::ThematicBreak(BreakState::OneRunAfter))
    }
}

/// After that run, and the whitespace that follows it.
///
/// ```markdown
///   | [a]: b
/// > | - - -
///       ^
/// ```
#[tactic(auto, using(crate::proofs::BreakMeaning::break_rule))]
pub fn one_run_after(tokenizer: &mut Tokenizer) -> State
    requires { IsAt BreakNeeds (StateName.ThematicBreak BreakState.OneRunAfter) (world tokenizer.old) }
    ensures { IsSureBreakState BreakState.OneRunAfter (world tokenizer.old) result tokenizer.new }
{
    match tokenizer.current {
        None | Some(b'\n') => {
            tokenizer.scratch.marker = 0;
            tokenizer.scratch.size = 0;
            State::Nok
        }
        _ => State::Retry(StateName::ThematicBreak(BreakState::AtBreak)),
    }
}

/// What a state of a break only takes and counts.
pub fn takes_at_once(state: BreakState) -> Option<Stay>
    ensures { IfSome result (λ stay. TakesEach stay (StateName.ThematicBreak state) (break_transition state)) }
{
    match state {
        BreakState::Sequence => Some(Stay::Markers),
        BreakState::OneRun => Some(Stay::Markers),
        _ => None,
    }
}

/// Calls a state of a break.
#[tactic(auto, using(crate::proofs::BreakMeaning::break_rule))]
pub fn call(tokenizer: &mut Tokenizer, state: BreakState) -> State
    requires { IsAt BreakNeeds (StateName.ThematicBreak state) (world tokenizer.old) }
    ensures { IsBreakState state (world tokenizer.old) result tokenizer.new }
{
    match state {
        BreakState::Start => start(tokenizer),
        BreakState::Before => before(tokenizer),
        BreakState::AtBreak => at_break(tokenizer),
        BreakState::Sequence => sequence(tokenizer),
        BreakState::OneRun => one_run(tokenizer),
        BreakState::OneRunAfter => one_run_after(tokenizer),
    }
}
