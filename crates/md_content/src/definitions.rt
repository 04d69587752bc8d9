// Definitions before the paragraph of a text (CommonMark 4.7).
//
//     text ::= *( definition eol ) ( definition | paragraph )
//
// A definition is tried on each line before the paragraph, and the paragraph begins where none is. It adds `LineEnding`
// after a definition. By one look most paragraphs begin at once.

ghost use Rattle.std.specs.Prelude.{◌≡◌};
ghost use Rattle.md_content.specs.DefinitionsRule.{IsDefinitionsState};
ghost use Rattle.md_engine.specs.World.{world};
ghost use Rattle.md_engine.specs.declared.state.Name.{Name as StateName};
ghost use Rattle.md_engine.specs.declared.state.State.{State};
ghost use Rattle.md_engine.specs.declared.state.content.State.{State as ContentState};
ghost use Rattle.md_content.specs.Definitions.{may_define};
ghost use Rattle.md_events.specs.Transition.{IsAt, NeedsNothing};

use md_engine::event::Name;
use md_engine::or_error;
use md_engine::state::content::State as ContentState;
use md_engine::state::definition::State as DefinitionState;
use md_engine::state::paragraph::State as ParagraphState;
use md_engine::state::{Name as StateName, State};
use md_engine::tokenizer::Tokenizer;
use md_events::space_or_tab::is_space_or_tab;

/// Whether a definition may begin with what is here.
fn may_define(current: Option<u8>) -> bool
    ensures { result ≡ may_define current }
{
    is_space_or_tab(current) || current == Some(b'[')
}

/// Before a definition, or the paragraph.
///
/// ```markdown
/// > | [a]: b
///     ^
/// > | c
///     ^
/// ```
#[tactic(auto, using(crate::proofs::DefinitionsMeaning::definitions_rule))]
pub fn definition_before(tokenizer: &mut Tokenizer) -> State
    requires { IsAt NeedsNothing (StateName.Content ContentState.DefinitionBefore) (world tokenizer.old) }
    ensures { IsDefinitionsState ContentState.DefinitionBefore (world tokenizer.old) result tokenizer.new }
{
    let paragraph = StateName::Paragraph(ParagraphState::Start);
    if !may_define(tokenizer.current) {
        return State::Retry(paragraph);
    }
    let following = StateName::Content(ContentState::DefinitionAfter);
    or_error!(tokenizer.attempt(State::Next(following), State::Next(paragraph)));
    State::Retry(StateName::Definition(DefinitionState::Start))
}

/// After a definition.
///
/// ```markdown
/// > | [a]: b
///           ^
///   | c
/// ```
#[tactic(auto, using(crate::proofs::DefinitionsMeaning::definitions_rule))]
pub fn definition_after(tokenizer: &mut Tokenizer) -> State
    requires { IsAt NeedsNothing (StateName.Content ContentState.DefinitionAfter) (world tokenizer.old) }
    ensures { IsDefinitionsState ContentState.DefinitionAfter (world tokenizer.old) result tokenizer.new }
{
    match tokenizer.current {
        None => State::Ok,
        Some(b'\n') => {
            or_error!(tokenizer.enter(Name::LineEnding));
            tokenizer.consume();
            or_error!(tokenizer.exit(Name::LineEnding));
            State::Next(StateName::Content(ContentState::DefinitionBefore))
        }
        _ => State::Nok,
    }
}

/// Calls a state before the paragraph of a text.
#[tactic(auto, using(crate::proofs::DefinitionsMeaning::definitions_rule))]
pub fn call(tokenizer: &mut Tokenizer, state: ContentState) -> State
    requires { IsAt NeedsNothing (StateName.Content state) (world tokenizer.old) }
    ensures { IsDefinitionsState state (world tokenizer.old) result tokenizer.new }
{
    match state {
        ContentState::DefinitionBefore => definition_before(tokenizer),
        ContentState::DefinitionAfter => definition_after(tokenizer),
        _ => State::Nok,
    }
}
