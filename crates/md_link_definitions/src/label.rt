// Labels of definitions (CommonMark 6.3).
//
//     label  ::= '[' text ']'
//     text   ::= 1*( pair | eol | any but '[' and ']' )
//     pair   ::= '\' ( '[' | ']' | '\' )
//
// Something else than whitespace is in it, and at most 999 bytes: endings of lines are not counted, nor is the
// whitespace before a further line. It may reach over lines, as those of a paragraph follow one another. It adds
// `DefinitionLabel` around `DefinitionLabelMarker`, `DefinitionLabelString` and `DefinitionLabelMarker`, and in the
// string one linked `Data` a line, which reaches over the line's ending where the label continues. There is none on the
// last line if `]` comes first on it.

ghost use Rattle.std.specs.Prelude.{◌≡◌, ◌≢◌, ◌<◌, IfSome, false, length};
ghost use Rattle.md_link_definitions.specs.LabelRule.{IsLabelState, IsSureLabelState};
ghost use Rattle.md_engine.specs.Full.{IsFull, OnError};
ghost use Rattle.md_engine.specs.World.{world};
ghost use Rattle.md_engine.specs.declared.state.Name.{Name as StateName};
ghost use Rattle.md_engine.specs.declared.state.State.{State};
ghost use Rattle.md_engine.specs.declared.state.label.State.{State as LabelState};
ghost use Rattle.md_link_definitions.specs.Label.{close_code, counted};
ghost use Rattle.md_link_definitions.specs.Label.{is_full, label_transition};
ghost use Rattle.md_link_definitions.specs.Label.{taken_as, unlabelled};
ghost use Rattle.md_events.specs.Stays.{TakesEach};
ghost use Rattle.md_events.specs.Transition.{IsAt, NeedsNothing};

use md_engine::class::is_white;
use md_engine::event::{Content, Link, Name};
use md_engine::or_error;
use md_engine::state::label::State as LabelState;
use md_engine::state::{Name as StateName, State};
use md_engine::stay::Stay;
use md_engine::tokenizer::{Scratch, Tokenizer};
use md_events::space_or_tab::is_space_or_tab;

/// A label has at most so many bytes.
const MOST: usize = 999;

/// Without what a label keeps. Fields are set one by one, which takes fewer instructions than `..scratch`.
fn unlabelled(mut scratch: Scratch) -> Scratch
    ensures { result ≡ unlabelled scratch }
{
    scratch.size = 0;
    scratch.seen = false;
    scratch.connect = false;
    scratch
}

/// Refuses, at rest.
fn refuse(tokenizer: &mut Tokenizer) -> State
    ensures to { result ≡ State.Nok }
    ensures world { world tokenizer.new ≡
        record (world tokenizer.old) { scratch = unlabelled (world tokenizer.old).scratch } }
{
    tokenizer.scratch = unlabelled(tokenizer.scratch);
    State::Nok
}

/// Whether there is no room for the byte that begins here. A further column of a tab is none.
fn is_full(tokenizer: &Tokenizer) -> bool
    ensures { result ≡ is_full (world tokenizer.now) }
{
    tokenizer.point.vs == 0 && tokenizer.scratch.size >= MOST
}

/// With this byte counted.
fn counted(tokenizer: &Tokenizer, byte: u8) -> Scratch
    requires { is_full (world tokenizer.now) ≡ false }
    ensures { result ≡ counted (world tokenizer.now) byte }
{
    let mut scratch = tokenizer.scratch;
    if tokenizer.point.vs == 0 {
        scratch.size += 1;
    }
    scratch.seen = scratch.seen || !is_white(byte);
    scratch
}

/// Takes what is here, counts it, and continues; or refuses where there is no room for it.
fn take(tokenizer: &mut Tokenizer, byte: u8, state: LabelState) -> State
    requires { (world tokenizer.old).point.index < length (world tokenizer.old).setting.bytes }
    ensures to { result ≡ (taken_as (world tokenizer.old) byte state).to }
    ensures world { world tokenizer.new ≡ (taken_as (world tokenizer.old) byte state).world }
{
    if is_full(tokenizer) {
        return refuse(tokenizer);
    }
    tokenizer.scratch = counted(tokenizer, byte);
    tokenizer.consume();
    State::Next(StateName::Label(state))
}

/// At `]`: the label ends, if something else than whitespace is in it.
fn close(tokenizer: &mut Tokenizer) -> State
    requires { (world tokenizer.old).point.index < length (world tokenizer.old).setting.bytes }
    ensures to { result ≢ State.Error →
        result ≡ (close_code (world tokenizer.old) (world tokenizer.old).scratch.seen).to }
    ensures world { result ≢ State.Error →
        world tokenizer.new ≡ (close_code (world tokenizer.old) (world tokenizer.old).scratch.seen).world }
    ensures full { OnError result (IsFull tokenizer.new) }
{
    if !tokenizer.scratch.seen {
        return refuse(tokenizer);
    }
    or_error!(tokenizer.exit(Name::DefinitionLabelString));
    or_error!(tokenizer.enter(Name::DefinitionLabelMarker));
    tokenizer.consume();
    or_error!(tokenizer.exit(Name::DefinitionLabelMarker));
    or_error!(tokenizer.exit(Name::DefinitionLabel));
    tokenizer.scratch = unlabelled(tokenizer.scratch);
    State::Ok
}

/// Before a label.
///
/// ```markdown
/// > | [a]: b
///     ^
/// ```
#[tactic(auto, using(crate::proofs::LabelMeaning::label_rule))]
pub fn start(tokenizer: &mut Tokenizer) -> State
    requires { IsAt NeedsNothing (StateName.Label LabelState.Start) (world tokenizer.old) }
    ensures { IsLabelState LabelState.Start (world tokenizer.old) result tokenizer.new }
{
    if tokenizer.current != Some(b'[') {
        return State::Nok;
    }
    or_error!(tokenizer.enter(Name::DefinitionLabel));
    or_error!(tokenizer.enter(Name::DefinitionLabelMarker));
    tokenizer.consume();
    or_error!(tokenizer.exit(Name::DefinitionLabelMarker));
    or_error!(tokenizer.enter(Name::DefinitionLabelString));
    State::Next(StateName::Label(LabelState::AtBreak))
}

/// At the begin of a line of a label, after `[` or after a line ending.
///
/// ```markdown
/// > | [a
///      ^
/// > | b]: c
///     ^
/// ```
#[tactic(auto, using(crate::proofs::LabelMeaning::label_rule))]
pub fn at_break(tokenizer: &mut Tokenizer) -> State
    requires { IsAt NeedsNothing (StateName.Label LabelState.AtBreak) (world tokenizer.old) }
    ensures { IsLabelState LabelState.AtBreak (world tokenizer.old) result tokenizer.new }
{
    match tokenizer.current {
        Some(b']') => close(tokenizer),
        None | Some(b'[') => refuse(tokenizer),
        _ => {
            let link = Link {
                previous: false,
                next: false,
                content: Content::String,
            };
            or_error!(tokenizer.enter_link(Name::Data, link));
            if tokenizer.scratch.connect {
                State::Retry(StateName::Label(LabelState::EolAfter))
            } else {
                State::Retry(StateName::Label(LabelState::Inside))
            }
        }
    }
}

/// In the whitespace before a further line, which does not count.
///
/// ```markdown
///   | [a
/// > |   b]: c
///     ^^
/// ```
#[tactic(auto, using(crate::proofs::LabelMeaning::label_rule))]
pub fn eol_after(tokenizer: &mut Tokenizer) -> State
    requires { IsAt NeedsNothing (StateName.Label LabelState.EolAfter) (world tokenizer.old) }
    ensures { IsSureLabelState LabelState.EolAfter (world tokenizer.old) result tokenizer.new }
{
    if is_space_or_tab(tokenizer.current) {
        tokenizer.consume();
        State::Next(StateName::Label(LabelState::EolAfter))
    } else {
        State::Retry(StateName::Label(LabelState::Inside))
    }
}

/// In a line of a label.
///
/// ```markdown
/// > | [a]: b
///      ^^
/// ```
#[tactic(auto, using(crate::proofs::LabelMeaning::label_rule))]
pub fn inside(tokenizer: &mut Tokenizer) -> State
    requires { IsAt NeedsNothing (StateName.Label LabelState.Inside) (world tokenizer.old) }
    ensures { IsLabelState LabelState.Inside (world tokenizer.old) result tokenizer.new }
{
    match tokenizer.current {
        None | Some(b'[') => refuse(tokenizer),
        Some(b']') => {
            or_error!(tokenizer.exit(Name::Data));
            close(tokenizer)
        }
        Some(b'\n') => {
            tokenizer.consume();
            or_error!(tokenizer.exit(Name::Data));
            tokenizer.scratch.connect = true;
            State::Next(StateName::Label(LabelState::AtBreak))
        }
        Some(b'\\') => take(tokenizer, b'\\', LabelState::Escape),
        Some(byte) => take(tokenizer, byte, LabelState::Inside),
    }
}

/// After `\`.
///
/// ```markdown
/// > | [\]]: b
///       ^
/// ```
#[tactic(auto, using(crate::proofs::LabelMeaning::label_rule))]
pub fn escape(tokenizer: &mut Tokenizer) -> State
    requires { IsAt NeedsNothing (StateName.Label LabelState.Escape) (world tokenizer.old) }
    ensures { IsSureLabelState LabelState.Escape (world tokenizer.old) result tokenizer.new }
{
    match tokenizer.current {
        Some(byte) if byte == b'[' || byte == b']' || byte == b'\\' => {
            take(tokenizer, byte, LabelState::Inside)
        }
        _ => State::Retry(StateName::Label(LabelState::Inside)),
    }
}

/// What a state of a label only takes.
pub fn takes_at_once(state: LabelState) -> Option<Stay>
    ensures { IfSome result (λ stay. TakesEach stay (StateName.Label state) (label_transition state)) }
{
    match state {
        LabelState::EolAfter => Some(Stay::Byte(b' ')),
        _ => None,
    }
}

/// Calls a state of a label.
#[tactic(auto, using(crate::proofs::LabelMeaning::label_rule))]
pub fn call(tokenizer: &mut Tokenizer, state: LabelState) -> State
    requires { IsAt NeedsNothing (StateName.Label state) (world tokenizer.old) }
    ensures { IsLabelState state (world tokenizer.old) result tokenizer.new }
{
    match state {
        LabelState::Start => start(tokenizer),
        LabelState::AtBreak => at_break(tokenizer),
        LabelState::EolAfter => eol_after(tokenizer),
        LabelState::Inside => inside(tokenizer),
        LabelState::Escape => escape(tokenizer),
        LabelState::Nok => State::Nok,
    }
}
