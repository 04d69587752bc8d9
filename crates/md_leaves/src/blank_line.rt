// Blank lines (CommonMark 4.9).
//
//     blank_line ::= *space_or_tab
//
// It adds the `SpaceOrTab` of its whitespace, if there is any. The line's ending is not a part of it.

ghost use Rattle.std.specs.Prelude.{◌≡◌};
ghost use Rattle.md_leaves.specs.BlankRule.{IsBlankState, IsSureBlankState};
ghost use Rattle.md_engine.specs.World.{world};
ghost use Rattle.md_engine.specs.declared.state.Name.{Name as StateName};
ghost use Rattle.md_engine.specs.declared.state.State.{State};
ghost use Rattle.md_engine.specs.declared.state.blank_line.State.{State as BlankState};
ghost use Rattle.md_leaves.specs.Blank.{may_begin};
ghost use Rattle.md_events.specs.Look.{may_with};
ghost use Rattle.md_events.specs.Spaces.{ends_line};
ghost use Rattle.md_events.specs.Transition.{IsAt, NeedsNothing};

use md_engine::state::blank_line::State as BlankState;
use md_engine::state::{Name as StateName, State};
use md_engine::tokenizer::Tokenizer;
use md_events::space_or_tab::{is_space_or_tab, space_or_tab};

/// Whether the line ends here: then what is left of it is blank.
pub fn ends_line(current: Option<u8>) -> bool
    ensures { result ≡ ends_line current }
{
    matches!(current, None | Some(b'\n'))
}

/// Whether the line may be blank, by what is first after whitespace: its ending, if that is known.
pub fn may_begin(first: Option<u8>) -> bool
    ensures { result ≡ may_with may_begin first }
{
    matches!(first, None | Some(b'\n'))
}

/// Before a blank line.
///
/// ```markdown
/// > |
///     ^
/// ```
#[tactic(auto, using(crate::proofs::BlankMeaning::blank_rule))]
pub fn start(tokenizer: &mut Tokenizer) -> State
    requires { IsAt NeedsNothing (StateName.BlankLine BlankState.Start) (world tokenizer.old) }
    ensures { IsBlankState BlankState.Start (world tokenizer.old) result tokenizer.new }
{
    if is_space_or_tab(tokenizer.current) {
        space_or_tab(
            tokenizer,
            State::Next(StateName::BlankLine(BlankState::After)),
            State::Nok,
        )
    } else {
        State::Retry(StateName::BlankLine(BlankState::After))
    }
}

/// After the whitespace.
///
/// ```markdown
/// > | a
///     ^
/// ```
#[tactic(auto, using(crate::proofs::BlankMeaning::blank_rule))]
pub fn after(tokenizer: &mut Tokenizer) -> State
    requires { IsAt NeedsNothing (StateName.BlankLine BlankState.After) (world tokenizer.old) }
    ensures { IsSureBlankState BlankState.After (world tokenizer.old) result tokenizer.new }
{
    match tokenizer.current {
        None | Some(b'\n') => State::Ok,
        _ => State::Nok,
    }
}

/// Calls a state of a blank line.
#[tactic(auto, using(crate::proofs::BlankMeaning::blank_rule))]
pub fn call(tokenizer: &mut Tokenizer, state: BlankState) -> State
    requires { IsAt NeedsNothing (StateName.BlankLine state) (world tokenizer.old) }
    ensures { IsBlankState state (world tokenizer.old) result tokenizer.new }
{
    match state {
        BlankState::Start => start(tokenizer),
        BlankState::After => after(tokenizer),
    }
}
