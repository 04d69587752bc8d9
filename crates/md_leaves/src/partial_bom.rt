// The byte order mark at the front of a text.
//
//     byte_order_mark ::= 0xEF 0xBB 0xBF
//
// It adds `ByteOrderMark`.

ghost use Rattle.md_leaves.specs.BomRule.{IsBomState};
ghost use Rattle.md_engine.specs.World.{world};
ghost use Rattle.md_engine.specs.declared.state.Name.{Name as StateName};
ghost use Rattle.md_engine.specs.declared.state.State.{State};
ghost use Rattle.md_engine.specs.declared.state.bom.State.{State as BomState};
ghost use Rattle.md_leaves.specs.Bom.{BomNeeds};
ghost use Rattle.md_events.specs.Transition.{IsAt};

use md_engine::event::Name;
use md_engine::or_error;
use md_engine::state::bom::State as BomState;
use md_engine::state::{Name as StateName, State};
use md_engine::tokenizer::Tokenizer;

/// The bytes of the mark.
const MARK: [u8; 3] = [0xEF, 0xBB, 0xBF];

/// Before a mark.
///
/// ```text
/// > | 0xEF 0xBB 0xBF
///     ^^^^
/// ```
#[tactic(auto, using(crate::proofs::BomMeaning::bom_rule))]
pub fn start(tokenizer: &mut Tokenizer) -> State
    requires { IsAt BomNeeds (StateName.Bom BomState.Start) (world tokenizer.old) }
    ensures { IsBomState BomState.Start (world tokenizer.old) result tokenizer.new }
{
    if tokenizer.current == Some(MARK[0]) {
        or_error!(tokenizer.enter(Name::ByteOrderMark));
        State::Retry(StateName::Bom(BomState::Inside))
    } else {
        State::Nok
    }
}

/// In a mark.
///
/// ```text
/// > | 0xEF 0xBB 0xBF
///     ^^^^ ^^^^ ^^^^
/// ```
#[tactic(auto, using(crate::proofs::BomMeaning::bom_rule))]
pub fn inside(tokenizer: &mut Tokenizer) -> State
    requires { IsAt BomNeeds (StateName.Bom BomState.Inside) (world tokenizer.old) }
    ensures { IsBomState BomState.Inside (world tokenizer.old) result tokenizer.new }
{
    let size = tokenizer.scratch.size;
    if tokenizer.current != Some(MARK[size]) {
        tokenizer.scratch.size = 0;
        return State::Nok;
    }
    tokenizer.consume();
    if size + 1 < MARK.len() {
        tokenizer.scratch.size = size + 1;
        return State::Next(StateName::Bom(BomState::Inside));
    }
    tokenizer.scratch.size = 0;
    or_error!(tokenizer.exit(Name::ByteOrderMark));
    State::Ok
}

/// Calls a state of a mark.
#[tactic(auto, using(crate::proofs::BomMeaning::bom_rule))]
pub fn call(tokenizer: &mut Tokenizer, state: BomState) -> State
    requires { IsAt BomNeeds (StateName.Bom state) (world tokenizer.old) }
    ensures { IsBomState state (world tokenizer.old) result tokenizer.new }
{
    match state {
        BomState::Start => start(tokenizer),
        BomState::Inside => inside(tokenizer),
    }
}
