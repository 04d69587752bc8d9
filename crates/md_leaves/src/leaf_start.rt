// The start of a leaf that is after a small indent, as a heading.

ghost use Rattle.std.specs.Prelude.{◌≡◌, ◌≢◌};
ghost use Rattle.md_engine.specs.Full.{IsFull, OnError};
ghost use Rattle.md_engine.specs.World.{world};
ghost use Rattle.md_engine.specs.declared.state.State.{State};
ghost use Rattle.md_leaves.specs.LeafStart.{start_transition};

use md_engine::event::Name;
use md_engine::or_error;
use md_engine::state::{Name as StateName, State};
use md_engine::tokenizer::Tokenizer;
use md_events::space_or_tab::{is_space_or_tab, small_indent, space_or_tab_min_max};

/// Begins the leaf of this name, if it is on, takes a small indent, and continues at this state.
#[inline(always)]
pub(crate) fn start_leaf(
    tokenizer: &mut Tokenizer,
    is_on: bool,
    name: Name,
    following: StateName,
) -> State
    ensures to { result ≢ State.Error → result ≡ (start_transition name following is_on (world tokenizer.old)).to }
    ensures world { result ≢ State.Error →
        world tokenizer.new ≡ (start_transition name following is_on (world tokenizer.old)).world }
    ensures full { OnError result (IsFull tokenizer.new) }
{
    if !is_on {
        return State::Nok;
    }
    or_error!(tokenizer.enter(name));
    if is_space_or_tab(tokenizer.current) {
        let max = small_indent(tokenizer);
        space_or_tab_min_max(tokenizer, 0, max, State::Next(following), State::Nok)
    } else {
        State::Retry(following)
    }
}
