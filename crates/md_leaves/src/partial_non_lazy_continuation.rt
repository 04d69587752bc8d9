// The check that a block may continue with the next line: that the line is not lazy (CommonMark 5.1).
//
//     non_lazy_continuation ::= line_ending      ; after which no lazy line begins
//
// A line is lazy where not all containers continued, and none opened. It adds the `LineEnding` between the lines.

ghost use Rattle.md_leaves.specs.NonLazyRule.{IsNonLazyState, IsSureNonLazyState};
ghost use Rattle.md_engine.specs.World.{world};
ghost use Rattle.md_engine.specs.declared.state.Name.{Name as StateName};
ghost use Rattle.md_engine.specs.declared.state.State.{State};
ghost use Rattle.md_engine.specs.declared.state.non_lazy_continuation.State.{State as NonLazyState};
ghost use Rattle.md_events.specs.Transition.{IsAt, NeedsNothing};

use md_engine::event::Name;
use md_engine::or_error;
use md_engine::state::non_lazy_continuation::State as NonLazyState;
use md_engine::state::{Name as StateName, State};
use md_engine::tokenizer::Tokenizer;

/// At the end of a line.
///
/// ```markdown
/// > | > ~~~ c
///            ^
///   | > d
/// ```
#[tactic(auto, using(crate::proofs::NonLazyMeaning::non_lazy_rule))]
pub fn start(tokenizer: &mut Tokenizer) -> State
    requires { IsAt NeedsNothing (StateName.NonLazyContinuation NonLazyState.Start) (world tokenizer.old) }
    ensures { IsNonLazyState NonLazyState.Start (world tokenizer.old) result tokenizer.new }
{
    if tokenizer.current == Some(b'\n') {
        or_error!(tokenizer.enter(Name::LineEnding));
        tokenizer.consume();
        or_error!(tokenizer.exit(Name::LineEnding));
        State::Next(StateName::NonLazyContinuation(NonLazyState::After))
    } else {
        State::Nok
    }
}

/// At the beginning of the next line, after the prefixes of its containers.
///
/// ```markdown
///   | > ~~~ c
/// > | > d
///       ^
/// ```
#[tactic(auto, using(crate::proofs::NonLazyMeaning::non_lazy_rule))]
pub fn after(tokenizer: &mut Tokenizer) -> State
    requires { IsAt NeedsNothing (StateName.NonLazyContinuation NonLazyState.After) (world tokenizer.old) }
    ensures { IsSureNonLazyState NonLazyState.After (world tokenizer.old) result tokenizer.new }
{
    if tokenizer.line.lazy {
        State::Nok
    } else {
        State::Ok
    }
}

/// Calls a state of the check.
#[tactic(auto, using(crate::proofs::NonLazyMeaning::non_lazy_rule))]
pub fn call(tokenizer: &mut Tokenizer, state: NonLazyState) -> State
    requires { IsAt NeedsNothing (StateName.NonLazyContinuation state) (world tokenizer.old) }
    ensures { IsNonLazyState state (world tokenizer.old) result tokenizer.new }
{
    match state {
        NonLazyState::Start => start(tokenizer),
        NonLazyState::After => after(tokenizer),
    }
}
