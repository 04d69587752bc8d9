// Titles of definitions (CommonMark 6.3).
//
//     title ::= '"' text '"' | "'" text "'" | '(' text ')'
//     text  ::= *( pair | eol | any but the marks around the text )
//     pair  ::= '\' ( mark | '\' )
//
// It may reach over lines, as those of a paragraph follow one another. It adds `DefinitionTitle` around its marks, each
// a `DefinitionTitleMarker`, and between them `DefinitionTitleString` around one linked `Data` a line, which reaches
// over the line's ending where the title continues. There is none on the last line if the mark that closes comes first
// on it, and no `DefinitionTitleString` if nothing is between the marks.

ghost use Rattle.std.specs.Prelude.{◌≡◌, ◌≢◌, Some};
ghost use Rattle.md_link_definitions.specs.TitleRule.{IsSureTitleState, IsTitleState};
ghost use Rattle.md_engine.specs.Full.{IsFull, OnError};
ghost use Rattle.md_engine.specs.World.{looks, world};
ghost use Rattle.md_engine.specs.declared.state.Name.{Name as StateName};
ghost use Rattle.md_engine.specs.declared.state.State.{State};
ghost use Rattle.md_engine.specs.declared.state.title.State.{State as TitleState};
ghost use Rattle.md_link_definitions.specs.Title.{closed};
ghost use Rattle.md_link_definitions.specs.Title.{is_escaped, refused};
ghost use Rattle.md_events.specs.Transition.{IsAt, NeedsNothing};

use md_engine::event::{Content, Link, Name};
use md_engine::or_error;
use md_engine::state::title::State as TitleState;
use md_engine::state::{Name as StateName, State};
use md_engine::tokenizer::{Scratch, Tokenizer};
use md_scan::definition::title_closer;

/// Takes the marks back where no title is.
fn refuse(tokenizer: &mut Tokenizer) -> State
    ensures to { result ≡ (refused (world tokenizer.old)).to }
    ensures world { world tokenizer.new ≡ (refused (world tokenizer.old)).world }
{
    tokenizer.scratch.marker = 0;
    tokenizer.scratch.marker_b = 0;
    State::Nok
}

/// Ends a title with the closing mark, which is here.
fn close(tokenizer: &mut Tokenizer) -> State
    requires current { (world tokenizer.old).current ≡ looks (world tokenizer.old) }
    requires mark { (world tokenizer.old).current ≡ Some (world tokenizer.old).scratch.marker }
    ensures to { result ≢ State.Error → result ≡ (closed (world tokenizer.old)).to }
    ensures world { result ≢ State.Error → world tokenizer.new ≡ (closed (world tokenizer.old)).world }
    ensures full { OnError result (IsFull tokenizer.new) }
{
    or_error!(tokenizer.enter(Name::DefinitionTitleMarker));
    tokenizer.consume();
    or_error!(tokenizer.exit(Name::DefinitionTitleMarker));
    or_error!(tokenizer.exit(Name::DefinitionTitle));
    tokenizer.scratch.marker = 0;
    tokenizer.scratch.marker_b = 0;
    State::Ok
}

/// Whether a backslash escapes this.
fn is_escaped(scratch: &Scratch, current: Option<u8>) -> bool
    ensures { result ≡ is_escaped scratch.now current }
{
    match current {
        Some(byte) => byte == scratch.marker_b || byte == scratch.marker || byte == b'\\',
        None => false,
    }
}

/// Before a title.
///
/// ```markdown
/// > | [a]: b "c"
///            ^
/// ```
#[tactic(auto, using(crate::proofs::TitleMeaning::title_rule))]
pub fn start(tokenizer: &mut Tokenizer) -> State
    requires { IsAt NeedsNothing (StateName.Title TitleState.Start) (world tokenizer.old) }
    ensures { IsTitleState TitleState.Start (world tokenizer.old) result tokenizer.new }
{
    let Some(byte) = tokenizer.current else {
        return State::Nok;
    };
    let Some(closer) = title_closer(byte) else {
        return State::Nok;
    };
    or_error!(tokenizer.enter(Name::DefinitionTitle));
    or_error!(tokenizer.enter(Name::DefinitionTitleMarker));
    tokenizer.consume();
    or_error!(tokenizer.exit(Name::DefinitionTitleMarker));
    tokenizer.scratch.marker = closer;
    tokenizer.scratch.marker_b = byte;
    State::Next(StateName::Title(TitleState::Begin))
}

/// After the opening mark.
///
/// ```markdown
/// > | [a]: b "c"
///             ^
/// ```
#[tactic(auto, using(crate::proofs::TitleMeaning::title_rule))]
pub fn begin(tokenizer: &mut Tokenizer) -> State
    requires { IsAt NeedsNothing (StateName.Title TitleState.Begin) (world tokenizer.old) }
    ensures { IsTitleState TitleState.Begin (world tokenizer.old) result tokenizer.new }
{
    if tokenizer.current == Some(tokenizer.scratch.marker) {
        return close(tokenizer);
    }
    or_error!(tokenizer.enter(Name::DefinitionTitleString));
    State::Retry(StateName::Title(TitleState::AtBreak))
}

/// After the ending of a line, which belongs to it.
///
/// ```markdown
///   | [a]: b "c
/// > | d"
///     ^
/// ```
#[tactic(auto, using(crate::proofs::TitleMeaning::title_rule))]
pub fn after_eol(tokenizer: &mut Tokenizer) -> State
    requires { IsAt NeedsNothing (StateName.Title TitleState.AfterEol) (world tokenizer.old) }
    ensures { IsTitleState TitleState.AfterEol (world tokenizer.old) result tokenizer.new }
{
    or_error!(tokenizer.exit(Name::Data));
    State::Retry(StateName::Title(TitleState::AtBreak))
}

/// Before a line, or what is of the title on it.
///
/// ```markdown
/// > | [a]: b "c
///             ^
/// > | d"
///     ^
/// ```
#[tactic(auto, using(crate::proofs::TitleMeaning::title_rule))]
pub fn at_break(tokenizer: &mut Tokenizer) -> State
    requires { IsAt NeedsNothing (StateName.Title TitleState.AtBreak) (world tokenizer.old) }
    ensures { IsTitleState TitleState.AtBreak (world tokenizer.old) result tokenizer.new }
{
    if tokenizer.current == Some(tokenizer.scratch.marker) {
        or_error!(tokenizer.exit(Name::DefinitionTitleString));
        return close(tokenizer);
    }
    let link = Link {
        previous: false,
        next: false,
        content: Content::String,
    };
    or_error!(tokenizer.enter_link(Name::Data, link));
    State::Retry(StateName::Title(TitleState::Inside))
}

/// In a line.
///
/// ```markdown
/// > | [a]: b "c"
///             ^
/// ```
#[tactic(auto, using(crate::proofs::TitleMeaning::title_rule))]
pub fn inside(tokenizer: &mut Tokenizer) -> State
    requires { IsAt NeedsNothing (StateName.Title TitleState.Inside) (world tokenizer.old) }
    ensures { IsTitleState TitleState.Inside (world tokenizer.old) result tokenizer.new }
{
    let Some(byte) = tokenizer.current else {
        return refuse(tokenizer);
    };
    if byte == tokenizer.scratch.marker {
        or_error!(tokenizer.exit(Name::Data));
        or_error!(tokenizer.exit(Name::DefinitionTitleString));
        return close(tokenizer);
    }
    if byte == tokenizer.scratch.marker_b {
        return refuse(tokenizer);
    }
    tokenizer.consume();
    State::Next(StateName::Title(match byte {
        b'\n' => TitleState::AfterEol,
        b'\\' => TitleState::Escape,
        _ => TitleState::Inside,
    }))
}

/// After a backslash.
///
/// ```markdown
/// > | [a]: b "c\"d"
///               ^
/// ```
#[tactic(auto, using(crate::proofs::TitleMeaning::title_rule))]
pub fn escape(tokenizer: &mut Tokenizer) -> State
    requires { IsAt NeedsNothing (StateName.Title TitleState.Escape) (world tokenizer.old) }
    ensures { IsSureTitleState TitleState.Escape (world tokenizer.old) result tokenizer.new }
{
    if is_escaped(&tokenizer.scratch, tokenizer.current) {
        tokenizer.consume();
        State::Next(StateName::Title(TitleState::Inside))
    } else {
        State::Retry(StateName::Title(TitleState::Inside))
    }
}

/// Calls a state of a title.
#[tactic(auto, using(crate::proofs::TitleMeaning::title_rule))]
pub fn call(tokenizer: &mut Tokenizer, state: TitleState) -> State
    requires { IsAt NeedsNothing (StateName.Title state) (world tokenizer.old) }
    ensures { IsTitleState state (world tokenizer.old) result tokenizer.new }
{
    match state {
        TitleState::Start => start(tokenizer),
        TitleState::Begin => begin(tokenizer),
        TitleState::AfterEol => after_eol(tokenizer),
        TitleState::AtBreak => at_break(tokenizer),
        TitleState::Inside => inside(tokenizer),
        TitleState::Escape => escape(tokenizer),
        TitleState::Nok => State::Nok,
    }
}
