// States of constructs by their names, and what the first of them do with the rest of a line.

ghost use Rattle.std.specs.Prelude.{◌≡◌, ◌≢◌};
ghost use Rattle.md_engine.specs.Full.{IsFull, OnError};
ghost use Rattle.md_engine.specs.Scheme.{valid};
ghost use Rattle.md_engine.specs.World.{looks, world};
ghost use Rattle.md_engine.specs.declared.state.State.{State};
ghost use Rattle.md_registry.specs.Registry.{construct_transition};
ghost use Rattle.md_registry.specs.States.{flow_table_scheme};
ghost use Rattle.md_flow.specs.Calls.{FirstLine};

use md_engine::state::{Name as StateName, State};
use md_engine::tokenizer::Tokenizer;
use md_registry::choices;

/// Calls a state of a construct. The first states take the rest of a line where the line definition says (`line`).
#[inline(always)]
#[tactic(auto, using(crate::proofs::LineRule::Calls::first_line))]
pub fn call(tokenizer: &mut Tokenizer, name: StateName) -> State
    requires current { (world tokenizer.old).current ≡ looks (world tokenizer.old) }
    requires valid { valid flow_table_scheme (world tokenizer.old) (State.Next name) }
    ensures to { result ≢ State.Error →
        result ≡
        (construct_transition name
        (world tokenizer.old)).to }
    ensures world { result ≢ State.Error →
        world tokenizer.new ≡
        (construct_transition name
        (world tokenizer.old)).world }
    ensures full { OnError result (IsFull tokenizer.new) }
    ensures line { result ≢ State.Error → FirstLine name (world tokenizer.old) result (world tokenizer.new) }
{
    choices::call(tokenizer, name)
}
