// How a line ends in the call that takes its leaf.
//
// A leaf has accepted its line, or content has been taken: the attempt at it is left, the state of flow after the leaf
// and that of the document at the end of the line are called in the same call.

ghost use Rattle.std.specs.Prelude.{IfSome, ◌≡◌};
ghost use Rattle.md_engine.specs.World.{world};
ghost use Rattle.md_engine.specs.declared.state.Name.{Name as StateName};
ghost use Rattle.md_engine.specs.declared.state.State.{State};
ghost use Rattle.md_at_once.specs.AtOnce.{IsAccepted, IsEnded, IsLineEnd, IsTried};
ghost use Rattle.md_registry.specs.Flow.{leaf_end};
ghost use Rattle.md_events.specs.Transition.{IsAt, NeedsNothing};
ghost use Rattle.md_engine.specs.declared.state.flow.State.{State as FlowState};

use md_engine::state::flow::State as FlowState;
use md_engine::state::{Name as StateName, State};
use md_engine::table::leave;
use md_engine::tokenizer::Tokenizer;
use md_flow::{document, flow};

/// After a leaf on one line: the line ends.
#[inline(always)]
pub(crate) fn leaf_end(tokenizer: &mut Tokenizer) -> State
    requires { IsAt NeedsNothing (StateName.Flow FlowState.LeafAfter) (world tokenizer.old) }
    ensures { IsLineEnd (StateName.Flow FlowState.LeafAfter) (world tokenizer.old) result tokenizer.new }
{
    flow::leaf_after(tokenizer);
    document::flow_end(tokenizer)
}

/// After a line of text: the line ends.
#[inline(always)]
pub(crate) fn line_end(tokenizer: &mut Tokenizer) -> State
    requires { IsAt NeedsNothing (StateName.Flow FlowState.After) (world tokenizer.old) }
    ensures { IsLineEnd (StateName.Flow FlowState.After) (world tokenizer.old) result tokenizer.new }
{
    flow::after(tokenizer);
    document::flow_end(tokenizer)
}

/// After a leaf, which is shut or may be open: the line ends.
#[inline(always)]
fn line_ends(tokenizer: &mut Tokenizer, shuts: bool) -> State
    requires { IsAt NeedsNothing (StateName.Flow (leaf_end shuts)) (world tokenizer.old) }
    ensures { IsLineEnd (StateName.Flow (leaf_end shuts)) (world tokenizer.old) result tokenizer.new }
{
    if shuts {
        leaf_end(tokenizer)
    } else {
        line_end(tokenizer)
    }
}

/// Whether a state is that after a leaf, and then whether the leaf is shut there.
#[inline(always)]
fn following_leaf(state: State) -> Option<bool>
    ensures { IfSome result (λ shuts. state ≡ State.Next (StateName.Flow (leaf_end shuts))) }
{
    match state {
        State::Next(StateName::Flow(FlowState::After)) => Some(false),
        State::Next(StateName::Flow(FlowState::LeafAfter)) => Some(true),
        _ => None,
    }
}

/// Whether the innermost attempt is one at a leaf, and then whether the leaf is shut after it.
#[inline(always)]
fn tried_leaf(tokenizer: &Tokenizer) -> Option<bool>
    ensures { IfSome result (λ shuts. IsTried shuts (world tokenizer.now)) }
{
    match tokenizer.frames.last() {
        None => None,
        Some(frame) => {
            if frame.is_check {
                None
            } else {
                following_leaf(frame.ok)
            }
        }
    }
}

/// Where the leaf of a line accepts: the attempt at it is left, and the line ends.
#[inline(always)]
fn accepted(tokenizer: &mut Tokenizer, shuts: bool) -> State
    requires { IsTried shuts (world tokenizer.old) }
    ensures { IsAccepted (world tokenizer.old) result tokenizer.new }
{
    match leave(tokenizer, State::Ok) {
        None => State::Ok,
        Some(next) => {
            if tokenizer.see_or_wait(false) {
                next
            } else {
                line_ends(tokenizer, shuts)
            }
        }
    }
}

/// Ends a line whose leaf has accepted it.
#[inline(always)]
pub(crate) fn end(tokenizer: &mut Tokenizer, to: State) -> State
    ensures { IsEnded to tokenizer.old result tokenizer.new }
{
    let State::Ok = to else {
        return to;
    };
    match tried_leaf(tokenizer) {
        None => to,
        Some(shuts) => accepted(tokenizer, shuts),
    }
}
