// Destinations of definitions (CommonMark 6.3).
//
//     destination ::= '<' *( pair | byte - '<' - '>' - eol ) '>' | 1*raw
//     raw         ::= pair | byte - space - control - '(' - ')' | '(' *raw ')'
//     pair        ::= '\' mark
//
// A mark is a backslash, and an angle bracket in the first form, or a parenthesis in the second. U+0000 is no control
// here, and the second form does not begin with `<`.
//
// It adds `DefinitionDestination` around `DefinitionDestinationLiteral`, with a marker for each bracket, or around
// `DefinitionDestinationRaw`. The text is `DefinitionDestinationString` around `Data`, which is read later; between
// angle brackets there may be none.

ghost use Rattle.std.specs.Prelude.{◌≡◌, IfSome};
ghost use Rattle.md_link_definitions.specs.DestinationRule.{IsDestinationState, IsSureDestinationState};
ghost use Rattle.md_engine.specs.World.{world};
ghost use Rattle.md_engine.specs.declared.state.Name.{Name as StateName};
ghost use Rattle.md_engine.specs.declared.state.State.{State};
ghost use Rattle.md_engine.specs.declared.state.destination.State.{State as DestinationState};
ghost use Rattle.md_meaning.specs.Definition.{is_raw_byte};
ghost use Rattle.md_link_definitions.specs.Destination.{DestinationNeeds, destination_transition};
ghost use Rattle.md_events.specs.Stays.{TakesEach};
ghost use Rattle.md_events.specs.Transition.{IsAt};

use md_engine::event::{Content, Link, Name};
use md_engine::or_error;
use md_engine::state::destination::State as DestinationState;
use md_engine::state::{Name as StateName, State};
use md_engine::stay::Stay;
use md_engine::tokenizer::Tokenizer;

/// The text of a destination is read later, as text with escapes and references.
const TEXT_LINK: Link = Link {
    previous: false,
    next: false,
    content: Content::String,
};

/// Whether this may be in a destination without angle brackets: no space, and no control of ASCII but U+0000.
fn is_raw(byte: u8) -> bool
    ensures { result ≡ is_raw_byte byte }
{
    byte == 0 || byte > b' ' && byte != 0x7F
}

/// Before a destination.
///
/// ```markdown
/// > | <aa>
///     ^
/// > | aa
///     ^
/// ```
#[tactic(auto, using(crate::proofs::DestinationMeaning::destination_rule))]
pub fn start(tokenizer: &mut Tokenizer) -> State
    requires { IsAt DestinationNeeds (StateName.Destination DestinationState.Start) (world tokenizer.old) }
    ensures { IsDestinationState DestinationState.Start (world tokenizer.old) result tokenizer.new }
{
    match tokenizer.current {
        Some(b'<') => {
            or_error!(tokenizer.enter(Name::DefinitionDestination));
            or_error!(tokenizer.enter(Name::DefinitionDestinationLiteral));
            or_error!(tokenizer.enter(Name::DefinitionDestinationLiteralMarker));
            tokenizer.consume();
            or_error!(tokenizer.exit(Name::DefinitionDestinationLiteralMarker));
            State::Next(StateName::Destination(DestinationState::EnclosedBefore))
        }
        Some(byte) if is_raw(byte) => {
            or_error!(tokenizer.enter(Name::DefinitionDestination));
            or_error!(tokenizer.enter(Name::DefinitionDestinationRaw));
            or_error!(tokenizer.enter(Name::DefinitionDestinationString));
            or_error!(tokenizer.enter_link(Name::Data, TEXT_LINK));
            State::Retry(StateName::Destination(DestinationState::Raw))
        }
        _ => State::Nok,
    }
}

/// After `<`, or at the `>` after the text.
///
/// ```markdown
/// > | <aa>
///      ^ ^
/// ```
#[tactic(auto, using(crate::proofs::DestinationMeaning::destination_rule))]
pub fn enclosed_before(tokenizer: &mut Tokenizer) -> State
    requires { IsAt DestinationNeeds (StateName.Destination DestinationState.EnclosedBefore) (world tokenizer.old) }
    ensures { IsDestinationState DestinationState.EnclosedBefore (world tokenizer.old) result tokenizer.new }
{
    if tokenizer.current == Some(b'>') {
        or_error!(tokenizer.enter(Name::DefinitionDestinationLiteralMarker));
        tokenizer.consume();
        or_error!(tokenizer.exit(Name::DefinitionDestinationLiteralMarker));
        or_error!(tokenizer.exit(Name::DefinitionDestinationLiteral));
        or_error!(tokenizer.exit(Name::DefinitionDestination));
        return State::Ok;
    }
    or_error!(tokenizer.enter(Name::DefinitionDestinationString));
    or_error!(tokenizer.enter_link(Name::Data, TEXT_LINK));
    State::Retry(StateName::Destination(DestinationState::Enclosed))
}

/// In text between angle brackets.
///
/// ```markdown
/// > | <aa>
///      ^^
/// ```
#[tactic(auto, using(crate::proofs::DestinationMeaning::destination_rule))]
pub fn enclosed(tokenizer: &mut Tokenizer) -> State
    requires { IsAt DestinationNeeds (StateName.Destination DestinationState.Enclosed) (world tokenizer.old) }
    ensures { IsDestinationState DestinationState.Enclosed (world tokenizer.old) result tokenizer.new }
{
    match tokenizer.current {
        None | Some(b'\n' | b'<') => State::Nok,
        Some(b'>') => {
            or_error!(tokenizer.exit(Name::Data));
            or_error!(tokenizer.exit(Name::DefinitionDestinationString));
            State::Retry(StateName::Destination(DestinationState::EnclosedBefore))
        }
        Some(b'\\') => {
            tokenizer.consume();
            State::Next(StateName::Destination(DestinationState::EnclosedEscape))
        }
        Some(_) => {
            tokenizer.consume();
            State::Next(StateName::Destination(DestinationState::Enclosed))
        }
    }
}

/// After a backslash between angle brackets.
///
/// ```markdown
/// > | <a\>a>
///        ^
/// ```
#[tactic(auto, using(crate::proofs::DestinationMeaning::destination_rule))]
pub fn enclosed_escape(tokenizer: &mut Tokenizer) -> State
    requires { IsAt DestinationNeeds (StateName.Destination DestinationState.EnclosedEscape) (world tokenizer.old) }
    ensures { IsSureDestinationState DestinationState.EnclosedEscape (world tokenizer.old) result tokenizer.new }
{
    match tokenizer.current {
        Some(b'<' | b'>' | b'\\') => {
            tokenizer.consume();
            State::Next(StateName::Destination(DestinationState::Enclosed))
        }
        _ => State::Retry(StateName::Destination(DestinationState::Enclosed)),
    }
}

/// In text without angle brackets.
///
/// ```markdown
/// > | aa(b)
///     ^^^^^
/// ```
#[tactic(auto, using(crate::proofs::DestinationMeaning::destination_rule))]
pub fn raw(tokenizer: &mut Tokenizer) -> State
    requires { IsAt DestinationNeeds (StateName.Destination DestinationState.Raw) (world tokenizer.old) }
    ensures { IsDestinationState DestinationState.Raw (world tokenizer.old) result tokenizer.new }
{
    match tokenizer.current {
        Some(b'(') => {
            tokenizer.consume();
            tokenizer.scratch.size += 1;
            State::Next(StateName::Destination(DestinationState::Raw))
        }
        Some(b')') => {
            if tokenizer.scratch.size == 0 {
                return State::Nok;
            }
            tokenizer.consume();
            tokenizer.scratch.size -= 1;
            State::Next(StateName::Destination(DestinationState::Raw))
        }
        Some(b'\\') => {
            tokenizer.consume();
            State::Next(StateName::Destination(DestinationState::RawEscape))
        }
        Some(byte) if is_raw(byte) => {
            tokenizer.consume();
            State::Next(StateName::Destination(DestinationState::Raw))
        }
        _ => {
            if tokenizer.scratch.size > 0 {
                tokenizer.scratch.size = 0;
                return State::Nok;
            }
            or_error!(tokenizer.exit(Name::Data));
            or_error!(tokenizer.exit(Name::DefinitionDestinationString));
            or_error!(tokenizer.exit(Name::DefinitionDestinationRaw));
            or_error!(tokenizer.exit(Name::DefinitionDestination));
            State::Ok
        }
    }
}

/// After a backslash without angle brackets.
///
/// ```markdown
/// > | a\(a
///       ^
/// ```
#[tactic(auto, using(crate::proofs::DestinationMeaning::destination_rule))]
pub fn raw_escape(tokenizer: &mut Tokenizer) -> State
    requires { IsAt DestinationNeeds (StateName.Destination DestinationState.RawEscape) (world tokenizer.old) }
    ensures { IsSureDestinationState DestinationState.RawEscape (world tokenizer.old) result tokenizer.new }
{
    match tokenizer.current {
        Some(b'(' | b')' | b'\\') => {
            tokenizer.consume();
            State::Next(StateName::Destination(DestinationState::Raw))
        }
        _ => State::Retry(StateName::Destination(DestinationState::Raw)),
    }
}

/// What a state of a destination only takes.
pub fn takes_at_once(state: DestinationState) -> Option<Stay>
    ensures { IfSome result (λ stay.
        TakesEach stay (StateName.Destination state) (destination_transition state)) }
{
    match state {
        DestinationState::Enclosed | DestinationState::Raw => Some(Stay::Plain),
        _ => None,
    }
}

/// Calls a state of a destination.
#[tactic(auto, using(crate::proofs::DestinationMeaning::destination_rule))]
pub fn call(tokenizer: &mut Tokenizer, state: DestinationState) -> State
    requires { IsAt DestinationNeeds (StateName.Destination state) (world tokenizer.old) }
    ensures { IsDestinationState state (world tokenizer.old) result tokenizer.new }
{
    match state {
        DestinationState::Start => start(tokenizer),
        DestinationState::EnclosedBefore => enclosed_before(tokenizer),
        DestinationState::Enclosed => enclosed(tokenizer),
        DestinationState::EnclosedEscape => enclosed_escape(tokenizer),
        DestinationState::Raw => raw(tokenizer),
        DestinationState::RawEscape => raw_escape(tokenizer),
    }
}
