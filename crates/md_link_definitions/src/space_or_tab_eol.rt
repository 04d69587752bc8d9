// Whitespace with at most one line ending, as it is between the parts of a definition (CommonMark 4.7).
//
//     space_or_tab_eol ::= 1*space_or_tab | *space_or_tab eol *space_or_tab
//
// It adds `SpaceOrTab`, `LineEnding` and `SpaceOrTab`, each where it is, and holds only where something does.

ghost use Rattle.md_link_definitions.specs.GapRule.{IsGapState, IsSureGapState};
ghost use Rattle.md_engine.specs.World.{world};
ghost use Rattle.md_engine.specs.declared.state.Name.{Name as StateName};
ghost use Rattle.md_engine.specs.declared.state.State.{State};
ghost use Rattle.md_engine.specs.declared.state.space_or_tab_eol.State.{State as GapState};
ghost use Rattle.md_events.specs.Transition.{IsAt, NeedsNothing};

use md_engine::event::Name;
use md_engine::or_error;
use md_engine::state::space_or_tab_eol::State as GapState;
use md_engine::state::{Name as StateName, State};
use md_engine::tokenizer::Tokenizer;
use md_events::space_or_tab::{is_space_or_tab, space_or_tab};

/// Before whitespace or a line ending.
///
/// ```markdown
/// > | [a]: b
///         ^
/// > | [a]:
///         ^
///   |   b
/// ```
#[tactic(auto, using(crate::proofs::GapMeaning::gap_rule))]
pub fn start(tokenizer: &mut Tokenizer) -> State
    requires { IsAt NeedsNothing (StateName.SpaceOrTabEol GapState.Start) (world tokenizer.old) }
    ensures { IsGapState GapState.Start (world tokenizer.old) result tokenizer.new }
{
    if is_space_or_tab(tokenizer.current) {
        space_or_tab(
            tokenizer,
            State::Next(StateName::SpaceOrTabEol(GapState::AfterFirst)),
            State::Nok,
        )
    } else {
        State::Retry(StateName::SpaceOrTabEol(GapState::AtEol))
    }
}

/// After whitespace.
///
/// ```markdown
/// > | [a]: b
///          ^
/// ```
#[tactic(auto, using(crate::proofs::GapMeaning::gap_rule))]
pub fn after_first(tokenizer: &mut Tokenizer) -> State
    requires { IsAt NeedsNothing (StateName.SpaceOrTabEol GapState.AfterFirst) (world tokenizer.old) }
    ensures { IsSureGapState GapState.AfterFirst (world tokenizer.old) result tokenizer.new }
{
    tokenizer.scratch.seen = true;
    State::Retry(StateName::SpaceOrTabEol(GapState::AtEol))
}

/// Where a line ending may be.
///
/// ```markdown
/// > | [a]:
///         ^
///   |   b
/// ```
#[tactic(auto, using(crate::proofs::GapMeaning::gap_rule))]
pub fn at_eol(tokenizer: &mut Tokenizer) -> State
    requires { IsAt NeedsNothing (StateName.SpaceOrTabEol GapState.AtEol) (world tokenizer.old) }
    ensures { IsGapState GapState.AtEol (world tokenizer.old) result tokenizer.new }
{
    let has_some = tokenizer.scratch.seen;
    tokenizer.scratch.seen = false;
    if tokenizer.current == Some(b'\n') {
        or_error!(tokenizer.enter(Name::LineEnding));
        tokenizer.consume();
        return State::Next(StateName::SpaceOrTabEol(GapState::AfterEol));
    }
    if has_some { State::Ok } else { State::Nok }
}

/// After the line ending, where the next line begins.
///
/// ```markdown
///   | [a]:
/// > |   b
///     ^
/// ```
#[tactic(auto, using(crate::proofs::GapMeaning::gap_rule))]
pub fn after_eol(tokenizer: &mut Tokenizer) -> State
    requires { IsAt NeedsNothing (StateName.SpaceOrTabEol GapState.AfterEol) (world tokenizer.old) }
    ensures { IsGapState GapState.AfterEol (world tokenizer.old) result tokenizer.new }
{
    or_error!(tokenizer.exit(Name::LineEnding));
    if is_space_or_tab(tokenizer.current) {
        space_or_tab(
            tokenizer,
            State::Next(StateName::SpaceOrTabEol(GapState::AfterMore)),
            State::Nok,
        )
    } else {
        State::Retry(StateName::SpaceOrTabEol(GapState::AfterMore))
    }
}

/// After the whitespace of the next line.
///
/// ```markdown
///   | [a]:
/// > |   b
///       ^
/// ```
#[tactic(auto, using(crate::proofs::GapMeaning::gap_rule))]
pub fn after_more(tokenizer: &mut Tokenizer) -> State
    requires { IsAt NeedsNothing (StateName.SpaceOrTabEol GapState.AfterMore) (world tokenizer.old) }
    ensures { IsSureGapState GapState.AfterMore (world tokenizer.old) result tokenizer.new }
{
    State::Ok
}

/// Calls a state of whitespace with at most one line ending.
#[tactic(auto, using(crate::proofs::GapMeaning::gap_rule))]
pub fn call(tokenizer: &mut Tokenizer, state: GapState) -> State
    requires { IsAt NeedsNothing (StateName.SpaceOrTabEol state) (world tokenizer.old) }
    ensures { IsGapState state (world tokenizer.old) result tokenizer.new }
{
    match state {
        GapState::Start => start(tokenizer),
        GapState::AfterFirst => after_first(tokenizer),
        GapState::AtEol => at_eol(tokenizer),
        GapState::AfterEol => after_eol(tokenizer),
        GapState::AfterMore => after_more(tokenizer),
    }
}
