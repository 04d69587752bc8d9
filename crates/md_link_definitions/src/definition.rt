// Definitions, of what links refer to (CommonMark 4.7).
//
//     definition ::= *space_or_tab label ':' ?gap destination ?( gap title ) *space_or_tab
//     gap        ::= 1*space_or_tab | *space_or_tab eol *space_or_tab
//
// The line ends after it. A title that something else follows on its line is none, and the definition then ends with
// the line of the destination, if nothing else follows that. It adds `Definition`, from the `[` to the end of the line,
// around the parts of the label, `DefinitionMarker`, those of the destination and of the title, and what is between
// them; its indent is before it. That it may not interrupt a paragraph, the caller knows.

ghost use Rattle.std.specs.Prelude.{◌≡◌, ◌≢◌};
ghost use Rattle.md_link_definitions.specs.DefinitionRule.{IsDefinitionState, IsSureDefinitionState};
ghost use Rattle.md_engine.specs.Full.{IsFull, OnError};
ghost use Rattle.md_engine.specs.World.{world};
ghost use Rattle.md_engine.specs.declared.state.Name.{Name as StateName};
ghost use Rattle.md_engine.specs.declared.state.State.{State};
ghost use Rattle.md_engine.specs.declared.state.definition.State.{State as DefinitionState};
ghost use Rattle.md_link_definitions.specs.Definition.{following_white};
ghost use Rattle.md_link_definitions.specs.Definition.{tries_part};
ghost use Rattle.md_events.specs.Spaces.{ends_line, sees_white};
ghost use Rattle.md_events.specs.Transition.{IsAt, NeedsNothing};

use md_engine::event::Name;
use md_engine::or_error;
use md_engine::state::definition::State as DefinitionState;
use md_engine::state::destination::State as DestinationState;
use md_engine::state::label::State as LabelState;
use md_engine::state::space_or_tab_eol::State as GapState;
use md_engine::state::title::State as TitleState;
use md_engine::state::{Name as StateName, State};
use md_engine::tokenizer::Tokenizer;
use md_events::space_or_tab::{is_space_or_tab, space_or_tab};

/// Whether the line ends here.
fn ends_line(current: Option<u8>) -> bool
    ensures { result ≡ ends_line current }
{
    matches!(current, None | Some(b'\n'))
}

/// Tries a part, from this state on.
fn try_part(tokenizer: &mut Tokenizer, first: StateName, ok: State, nok: State) -> State
    ensures to { result ≢ State.Error → result ≡ (tries_part (world tokenizer.old) first ok nok).to }
    ensures world { result ≢ State.Error →
        world tokenizer.new ≡ (tries_part (world tokenizer.old) first ok nok).world }
    ensures full { OnError result (IsFull tokenizer.new) }
{
    or_error!(tokenizer.attempt(ok, nok));
    State::Retry(first)
}

/// Takes whitespace, if some is here, and continues after it.
fn following_white(tokenizer: &mut Tokenizer, next: DefinitionState) -> State
    ensures to { result ≢ State.Error →
        result ≡ (following_white (world tokenizer.old) next (sees_white (world tokenizer.old).current)).to }
    ensures world { result ≢ State.Error →
        world tokenizer.new ≡
        (following_white (world tokenizer.old) next (sees_white (world tokenizer.old).current)).world }
    ensures full { OnError result (IsFull tokenizer.new) }
{
    if is_space_or_tab(tokenizer.current) {
        space_or_tab(
            tokenizer,
            State::Next(StateName::Definition(next)),
            State::Nok,
        )
    } else {
        State::Retry(StateName::Definition(next))
    }
}

/// Before a definition.
///
/// ```markdown
/// > |   [a]: b "c"
///     ^
/// ```
#[tactic(auto, using(crate::proofs::DefinitionMeaning::definition_rule))]
pub fn start(tokenizer: &mut Tokenizer) -> State
    requires { IsAt NeedsNothing (StateName.Definition DefinitionState.Start) (world tokenizer.old) }
    ensures { IsDefinitionState DefinitionState.Start (world tokenizer.old) result tokenizer.new }
{
    if tokenizer.options.constructs.definition {
        following_white(tokenizer, DefinitionState::Before)
    } else {
        State::Nok
    }
}

/// After the indent, at `[`.
///
/// ```markdown
/// > |   [a]: b "c"
///       ^
/// ```
#[tactic(auto, using(crate::proofs::DefinitionMeaning::definition_rule))]
pub fn before(tokenizer: &mut Tokenizer) -> State
    requires { IsAt NeedsNothing (StateName.Definition DefinitionState.Before) (world tokenizer.old) }
    ensures { IsDefinitionState DefinitionState.Before (world tokenizer.old) result tokenizer.new }
{
    if tokenizer.current != Some(b'[') {
        return State::Nok;
    }
    or_error!(tokenizer.enter(Name::Definition));
    try_part(
        tokenizer,
        StateName::Label(LabelState::Start),
        State::Next(StateName::Definition(DefinitionState::LabelAfter)),
        State::Next(StateName::Definition(DefinitionState::LabelNok)),
    )
}

/// After the label.
///
/// ```markdown
/// > | [a]: b "c"
///        ^
/// ```
#[tactic(auto, using(crate::proofs::DefinitionMeaning::definition_rule))]
pub fn label_after(tokenizer: &mut Tokenizer) -> State
    requires { IsAt NeedsNothing (StateName.Definition DefinitionState.LabelAfter) (world tokenizer.old) }
    ensures { IsDefinitionState DefinitionState.LabelAfter (world tokenizer.old) result tokenizer.new }
{
    if tokenizer.current != Some(b':') {
        return State::Nok;
    }
    or_error!(tokenizer.enter(Name::DefinitionMarker));
    tokenizer.consume();
    or_error!(tokenizer.exit(Name::DefinitionMarker));
    State::Next(StateName::Definition(DefinitionState::MarkerAfter))
}

/// Where no label is: this is no definition.
///
/// ```markdown
/// > | []: b
///     ^
/// ```
#[tactic(auto, using(crate::proofs::DefinitionMeaning::definition_rule))]
pub fn label_nok(tokenizer: &mut Tokenizer) -> State
    requires { IsAt NeedsNothing (StateName.Definition DefinitionState.LabelNok) (world tokenizer.old) }
    ensures { IsSureDefinitionState DefinitionState.LabelNok (world tokenizer.old) result tokenizer.new }
{
    State::Nok
}

/// After the colon.
///
/// ```markdown
/// > | [a]: b "c"
///         ^
/// ```
#[tactic(auto, using(crate::proofs::DefinitionMeaning::definition_rule))]
pub fn marker_after(tokenizer: &mut Tokenizer) -> State
    requires { IsAt NeedsNothing (StateName.Definition DefinitionState.MarkerAfter) (world tokenizer.old) }
    ensures { IsDefinitionState DefinitionState.MarkerAfter (world tokenizer.old) result tokenizer.new }
{
    try_part(
        tokenizer,
        StateName::SpaceOrTabEol(GapState::Start),
        State::Next(StateName::Definition(DefinitionState::DestinationBefore)),
        State::Next(StateName::Definition(DefinitionState::DestinationBefore)),
    )
}

/// Before the destination.
///
/// ```markdown
/// > | [a]: b "c"
///          ^
/// ```
#[tactic(auto, using(crate::proofs::DefinitionMeaning::definition_rule))]
pub fn destination_before(tokenizer: &mut Tokenizer) -> State
    requires { IsAt NeedsNothing (StateName.Definition DefinitionState.DestinationBefore) (world tokenizer.old) }
    ensures { IsDefinitionState DefinitionState.DestinationBefore (world tokenizer.old) result tokenizer.new }
{
    try_part(
        tokenizer,
        StateName::Destination(DestinationState::Start),
        State::Next(StateName::Definition(DefinitionState::DestinationAfter)),
        State::Next(StateName::Definition(DefinitionState::DestinationMissing)),
    )
}

/// After the destination.
///
/// ```markdown
/// > | [a]: b "c"
///           ^
/// ```
#[tactic(auto, using(crate::proofs::DefinitionMeaning::definition_rule))]
pub fn destination_after(tokenizer: &mut Tokenizer) -> State
    requires { IsAt NeedsNothing (StateName.Definition DefinitionState.DestinationAfter) (world tokenizer.old) }
    ensures { IsDefinitionState DefinitionState.DestinationAfter (world tokenizer.old) result tokenizer.new }
{
    try_part(
        tokenizer,
        StateName::Definition(DefinitionState::TitleBefore),
        State::Next(StateName::Definition(DefinitionState::After)),
        State::Next(StateName::Definition(DefinitionState::After)),
    )
}

/// Where no destination is: this is no definition.
///
/// ```markdown
/// > | [a]:
///         ^
/// ```
#[tactic(auto, using(crate::proofs::DefinitionMeaning::definition_rule))]
pub fn destination_missing(tokenizer: &mut Tokenizer) -> State
    requires { IsAt NeedsNothing (StateName.Definition DefinitionState.DestinationMissing) (world tokenizer.old) }
    ensures { IsSureDefinitionState DefinitionState.DestinationMissing (world tokenizer.old) result tokenizer.new }
{
    State::Nok
}

/// Before the gap before a title.
///
/// ```markdown
/// > | [a]: b "c"
///           ^
/// ```
#[tactic(auto, using(crate::proofs::DefinitionMeaning::definition_rule))]
pub fn title_before(tokenizer: &mut Tokenizer) -> State
    requires { IsAt NeedsNothing (StateName.Definition DefinitionState.TitleBefore) (world tokenizer.old) }
    ensures { IsDefinitionState DefinitionState.TitleBefore (world tokenizer.old) result tokenizer.new }
{
    if is_space_or_tab(tokenizer.current) || tokenizer.current == Some(b'\n') {
        try_part(
            tokenizer,
            StateName::SpaceOrTabEol(GapState::Start),
            State::Next(StateName::Definition(DefinitionState::TitleBeforeMarker)),
            State::Nok,
        )
    } else {
        State::Nok
    }
}

/// Before a title.
///
/// ```markdown
/// > | [a]: b "c"
///            ^
/// ```
#[tactic(auto, using(crate::proofs::DefinitionMeaning::definition_rule))]
pub fn title_before_marker(tokenizer: &mut Tokenizer) -> State
    requires { IsAt NeedsNothing (StateName.Definition DefinitionState.TitleBeforeMarker) (world tokenizer.old) }
    ensures { IsDefinitionState DefinitionState.TitleBeforeMarker (world tokenizer.old) result tokenizer.new }
{
    try_part(
        tokenizer,
        StateName::Title(TitleState::Start),
        State::Next(StateName::Definition(DefinitionState::TitleAfter)),
        State::Nok,
    )
}

/// After a title.
///
/// ```markdown
/// > | [a]: b "c"
///               ^
/// ```
#[tactic(auto, using(crate::proofs::DefinitionMeaning::definition_rule))]
pub fn title_after(tokenizer: &mut Tokenizer) -> State
    requires { IsAt NeedsNothing (StateName.Definition DefinitionState.TitleAfter) (world tokenizer.old) }
    ensures { IsDefinitionState DefinitionState.TitleAfter (world tokenizer.old) result tokenizer.new }
{
    following_white(tokenizer, DefinitionState::TitleAfterOptionalWhitespace)
}

/// After a title and the whitespace that follows it.
///
/// ```markdown
/// > | [a]: b "c"
///               ^
/// ```
#[tactic(auto, using(crate::proofs::DefinitionMeaning::definition_rule))]
pub fn title_after_optional_whitespace(tokenizer: &mut Tokenizer) -> State
    requires { IsAt NeedsNothing
        (StateName.Definition DefinitionState.TitleAfterOptionalWhitespace) (world tokenizer.old) }
    ensures { IsSureDefinitionState DefinitionState.TitleAfterOptionalWhitespace (world tokenizer.old) result
        tokenizer.new }
{
    if ends_line(tokenizer.current) {
        State::Ok
    } else {
        State::Nok
    }
}

/// After the parts of the definition.
///
/// ```markdown
/// > | [a]: b
///           ^
/// > | [a]: b "c"
///               ^
/// ```
#[tactic(auto, using(crate::proofs::DefinitionMeaning::definition_rule))]
pub fn after(tokenizer: &mut Tokenizer) -> State
    requires { IsAt NeedsNothing (StateName.Definition DefinitionState.After) (world tokenizer.old) }
    ensures { IsDefinitionState DefinitionState.After (world tokenizer.old) result tokenizer.new }
{
    following_white(tokenizer, DefinitionState::AfterWhitespace)
}

/// After the parts of the definition and the whitespace that follows them.
///
/// ```markdown
/// > | [a]: b
///           ^
/// > | [a]: b "c"
///               ^
/// ```
#[tactic(auto, using(crate::proofs::DefinitionMeaning::definition_rule))]
pub fn after_whitespace(tokenizer: &mut Tokenizer) -> State
    requires { IsAt NeedsNothing (StateName.Definition DefinitionState.AfterWhitespace) (world tokenizer.old) }
    ensures { IsDefinitionState DefinitionState.AfterWhitespace (world tokenizer.old) result tokenizer.new }
{
    if !ends_line(tokenizer.current) {
        return State::Nok;
    }
    or_error!(tokenizer.exit(Name::Definition));
    State::Ok
}

/// Calls a state of a definition.
#[tactic(auto, using(crate::proofs::DefinitionMeaning::definition_rule))]
pub fn call(tokenizer: &mut Tokenizer, state: DefinitionState) -> State
    requires { IsAt NeedsNothing (StateName.Definition state) (world tokenizer.old) }
    ensures { IsDefinitionState state (world tokenizer.old) result tokenizer.new }
{
    match state {
        DefinitionState::Start => start(tokenizer),
        DefinitionState::Before => before(tokenizer),
        DefinitionState::LabelAfter => label_after(tokenizer),
        DefinitionState::LabelNok => label_nok(tokenizer),
        DefinitionState::MarkerAfter => marker_after(tokenizer),
        DefinitionState::DestinationBefore => destination_before(tokenizer),
        DefinitionState::DestinationAfter => destination_after(tokenizer),
        DefinitionState::DestinationMissing => destination_missing(tokenizer),
        DefinitionState::TitleBefore => title_before(tokenizer),
        DefinitionState::TitleBeforeMarker => title_before_marker(tokenizer),
        DefinitionState::TitleAfter => title_after(tokenizer),
        DefinitionState::TitleAfterOptionalWhitespace => title_after_optional_whitespace(tokenizer),
        DefinitionState::After => after(tokenizer),
        DefinitionState::AfterWhitespace => after_whitespace(tokenizer),
    }
}
