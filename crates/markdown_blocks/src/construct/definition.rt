// Definitions: their states. Of the first it is said what it does with the lines of a text.

ghost use Rattle.std.specs.Prelude.{◌≢◌};
ghost use Rattle.md_engine.specs.World.{world};
ghost use Rattle.md_engine.specs.declared.state.Name.{Name as StateName};
ghost use Rattle.md_engine.specs.declared.state.State.{State};
ghost use Rattle.md_engine.specs.declared.state.definition.State.{State as DefinitionState};
ghost use Rattle.md_events.specs.Transition.{IsAt, NeedsNothing};
ghost use Rattle.md_link_definitions.specs.DefinitionRule.{IsDefinitionState};
ghost use Rattle.markdown_blocks.specs.TextCalls.{DefinitionLines};

use md_engine::state::State;
use md_engine::tokenizer::Tokenizer;
use md_link_definitions::definition;
pub use md_link_definitions::definition::{
    after, after_whitespace, before, call, destination_after, destination_before,
    destination_missing, label_after, label_nok, marker_after, title_after,
    title_after_optional_whitespace, title_before, title_before_marker,
};

/// Before a definition. Lines of a text are taken to the end of a definition where the line definition has one at their
/// front, with its events, and else they are refused (`line`).
///
/// ```markdown
/// > |   [a]: b "c"
///     ^
/// ```
pub fn start(tokenizer: &mut Tokenizer) -> State
    requires { IsAt NeedsNothing (StateName.Definition DefinitionState.Start) (world tokenizer.old) }
    ensures state { IsDefinitionState DefinitionState.Start (world tokenizer.old) result tokenizer.new }
    ensures line { result ≢ State.Error → DefinitionLines (world tokenizer.old) result (world tokenizer.new) }
{
    definition::start(tokenizer)
}
