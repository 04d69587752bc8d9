// ATX headings (CommonMark 4.2).
//
//     heading_atx ::= small_indent 1*6'#' [ 1*space_or_tab line [ 1*space_or_tab 1*'#' ] ] *space_or_tab
//
// The states add `HeadingAtx` around what is on the line: `HeadingAtxSequence` and `SpaceOrTab` for the opening
// sequence and the whitespace beside it, one linked `Data` for the text, and the same names for a closing sequence and
// the whitespace beside that. Where the text ends is known only at the end of the line, so there all events after the
// opening sequence are added. When all of the document is read, a resolver puts `HeadingAtxText` around the text.

ghost use Rattle.std.specs.Prelude.{◌≡◌, ◌≢◌, IfSome};
ghost use Rattle.md_engine.specs.Full.{IsFull, OnError};
ghost use Rattle.md_engine.specs.World.{world};
ghost use Rattle.md_engine.specs.declared.state.Name.{Name as StateName};
ghost use Rattle.md_engine.specs.declared.state.State.{State};
ghost use Rattle.md_engine.specs.declared.state.heading_atx.State.{State as HeadingState};
ghost use Rattle.md_leaves.specs.Heading.{after_part};
ghost use Rattle.md_leaves.specs.Heading.{heading_transition, may_begin};
ghost use Rattle.md_leaves.specs.Heading.{text_begun};
ghost use Rattle.md_leaves.specs.HeadingCalls.{HeadingStep, begins_text};
ghost use Rattle.md_leaves.specs.HeadingRule.{IsHeadingState};
ghost use Rattle.md_events.specs.Look.{may_with};
ghost use Rattle.md_events.specs.Spaces.{is_current, sees_white};
ghost use Rattle.md_events.specs.Stays.{TakesEach};
ghost use Rattle.md_events.specs.Transition.{IsAt, NeedsNothing};
ghost use Rattle.md_events.specs.States.{IsRun};

use crate::blank_line::ends_line;
use crate::heading_text::add_text;
use crate::leaf_start::start_leaf;
use md_engine::event::Name;
use md_engine::or_error;
use md_engine::state::heading_atx::State as HeadingState;
use md_engine::state::{Name as StateName, State};
use md_engine::stay::Stay;
use md_engine::tokenizer::Tokenizer;
use md_events::slice::whole_from;
use md_events::space_or_tab::{is_one_space, is_space_or_tab, space_or_tab, take_one_space};

/// An opening sequence has at most so many `#`.
const OPENING: usize = 6;

/// Whether a heading may begin here, by what is first after whitespace: `#`, if that is known.
pub fn may_begin(first: Option<u8>) -> bool
    ensures { result ≡ may_with may_begin first }
{
    matches!(first, None | Some(b'#'))
}

/// Before a heading.
///
/// ```markdown
/// > | ## aa
///     ^
/// ```
#[inline(always)]
#[tactic(auto, using(crate::proofs::HeadingMeaning::heading_rule))]
pub fn start(tokenizer: &mut Tokenizer) -> State
    requires { IsAt NeedsNothing (StateName.HeadingAtx HeadingState.Start) (world tokenizer.old) }
    ensures { IsHeadingState HeadingState.Start (world tokenizer.old) result tokenizer.new }
{
    let is_on = tokenizer.options.constructs.heading_atx;
    start_leaf(
        tokenizer,
        is_on,
        Name::HeadingAtx,
        StateName::HeadingAtx(HeadingState::Before),
    )
}

/// After the indent, at `#`.
///
/// ```markdown
/// > | ## aa
///     ^
/// ```
#[tactic(auto, using(crate::proofs::HeadingMeaning::heading_rule))]
pub fn before(tokenizer: &mut Tokenizer) -> State
    requires { IsAt NeedsNothing (StateName.HeadingAtx HeadingState.Before) (world tokenizer.old) }
    ensures { IsHeadingState HeadingState.Before (world tokenizer.old) result tokenizer.new }
{
    if tokenizer.current == Some(b'#') {
        or_error!(tokenizer.enter(Name::HeadingAtxSequence));
        State::Retry(StateName::HeadingAtx(HeadingState::SequenceOpen))
    } else {
        State::Nok
    }
}

/// After the opening sequence: takes the whitespace that is here.
fn proceed(tokenizer: &mut Tokenizer) -> State
    ensures to { result ≢ State.Error →
        result ≡ (after_part (world tokenizer.old) (sees_white tokenizer.old.current)).to }
    ensures world { result ≢ State.Error →
        world tokenizer.new ≡ (after_part (world tokenizer.old) (sees_white tokenizer.old.current)).world }
    ensures full { OnError result (IsFull tokenizer.new) }
{
    if is_space_or_tab(tokenizer.current) {
        space_or_tab(
            tokenizer,
            State::Next(StateName::HeadingAtx(HeadingState::AtBreak)),
            State::Nok,
        )
    } else {
        State::Retry(StateName::HeadingAtx(HeadingState::AtBreak))
    }
}

/// In the opening sequence.
///
/// ```markdown
/// > | ## aa
///     ^^
/// ```
#[tactic(auto, using(crate::proofs::HeadingMeaning::heading_rule))]
pub fn sequence_open(tokenizer: &mut Tokenizer) -> State
    requires { IsAt NeedsNothing (StateName.HeadingAtx HeadingState.SequenceOpen) (world tokenizer.old) }
    ensures { IsHeadingState HeadingState.SequenceOpen (world tokenizer.old) result tokenizer.new }
{
    if tokenizer.current == Some(b'#') && tokenizer.scratch.size < OPENING {
        tokenizer.consume();
        tokenizer.scratch.size += 1;
        return State::Next(StateName::HeadingAtx(HeadingState::SequenceOpen));
    }
    tokenizer.scratch.size = 0;
    match tokenizer.current {
        None | Some(b'\t' | b'\n' | b' ') => {
            or_error!(tokenizer.exit(Name::HeadingAtxSequence));
            proceed(tokenizer)
        }
        _ => State::Nok,
    }
}

/// Holds where the text of a heading begins.
#[inline(always)]
fn begin_text(tokenizer: &mut Tokenizer)
    ensures { world tokenizer.new ≡
        record (world tokenizer.old) {
          scratch = text_begun (world tokenizer.old).point
              (world tokenizer.old).scratch;
        } }
{
    tokenizer.scratch.start = whole_from(tokenizer.point);
}

/// After the whitespace that follows the opening sequence: before the text, or at the line's end.
///
/// ```markdown
/// > | ## aa ##
///        ^
/// ```
#[tactic(auto, using(crate::proofs::HeadingMeaning::heading_rule))]
pub fn at_break(tokenizer: &mut Tokenizer) -> State
    requires { IsAt NeedsNothing (StateName.HeadingAtx HeadingState.AtBreak) (world tokenizer.old) }
    ensures { IsHeadingState HeadingState.AtBreak (world tokenizer.old) result tokenizer.new }
{
    match tokenizer.current {
        None | Some(b'\n') => {
            or_error!(tokenizer.exit(Name::HeadingAtx));
            State::Ok
        }
        // All whitespace lies after.
        Some(b'\t' | b' ') => State::Nok,
        Some(b'#') => {
            begin_text(tokenizer);
            State::Retry(StateName::HeadingAtx(HeadingState::SequenceFurther))
        }
        Some(_) => {
            begin_text(tokenizer);
            State::Retry(StateName::HeadingAtx(HeadingState::Data))
        }
    }
}

/// In a further sequence, after the whitespace that follows the opening one: it closes the heading, or is a part of the
/// text.
///
/// ```markdown
/// > | ## ##
///        ^^
/// ```
#[tactic(auto, using(crate::proofs::HeadingMeaning::heading_rule))]
pub fn sequence_further(tokenizer: &mut Tokenizer) -> State
    requires { IsAt NeedsNothing (StateName.HeadingAtx HeadingState.SequenceFurther) (world tokenizer.old) }
    ensures { IsHeadingState HeadingState.SequenceFurther (world tokenizer.old) result tokenizer.new }
{
    if tokenizer.current == Some(b'#') {
        tokenizer.consume();
        State::Next(StateName::HeadingAtx(HeadingState::SequenceFurther))
    } else {
        State::Retry(StateName::HeadingAtx(HeadingState::Data))
    }
}

/// In text.
///
/// ```markdown
/// > | ## aa
///        ^^
/// ```
#[tactic(auto, using(crate::proofs::HeadingMeaning::heading_rule))]
pub fn data(tokenizer: &mut Tokenizer) -> State
    requires { IsAt NeedsNothing (StateName.HeadingAtx HeadingState.Data) (world tokenizer.old) }
    ensures { IsHeadingState HeadingState.Data (world tokenizer.old) result tokenizer.new }
{
    if ends_line(tokenizer.current) {
        or_error!(add_text(tokenizer));
        or_error!(tokenizer.exit(Name::HeadingAtx));
        tokenizer.scratch.start = 0;
        State::Ok
    } else {
        tokenizer.consume();
        State::Next(StateName::HeadingAtx(HeadingState::Data))
    }
}

/// Whether text begins here that is no `#`.
fn begins_text(current: Option<u8>) -> bool
    ensures { result ≡ begins_text current }
{
    match current {
        None => false,
        Some(byte) => !matches!(byte, b'\t' | b'\n' | b' ' | b'#'),
    }
}

/// After the whitespace that follows the opening sequence: takes the rest of the line at once, as `at_break` and `data`
/// do one after another.
///
/// ```markdown
/// > | ## aa bb
///        ^
/// ```
#[inline(always)]
pub fn text(tokenizer: &mut Tokenizer) -> State
    requires { IsAt NeedsNothing (StateName.HeadingAtx HeadingState.AtBreak) (world tokenizer.old) }
    ensures { IsRun HeadingStep (StateName.HeadingAtx HeadingState.AtBreak)
        (world tokenizer.old) (IsFull tokenizer.new) result tokenizer.new }
{
    if !begins_text(tokenizer.current) {
        return at_break(tokenizer);
    }
    begin_text(tokenizer);
    tokenizer.see_line();
    if tokenizer.see_or_wait(false) {
        return State::Next(StateName::HeadingAtx(HeadingState::Data));
    }
    data(tokenizer)
}

/// In the opening sequence: where one space is after it, takes the rest of the line at once, as the states do one after
/// another.
///
/// ```markdown
/// > | ## aa bb
///       ^
/// ```
#[inline(always)]
pub fn opens(tokenizer: &mut Tokenizer) -> State
    requires { IsAt NeedsNothing (StateName.HeadingAtx HeadingState.SequenceOpen) (world tokenizer.old) }
    ensures { IsRun HeadingStep (StateName.HeadingAtx HeadingState.SequenceOpen)
        (world tokenizer.old) (IsFull tokenizer.new) result tokenizer.new }
{
    if is_one_space(tokenizer) {
        tokenizer.scratch.size = 0;
        or_error!(tokenizer.exit(Name::HeadingAtxSequence));
        or_error!(take_one_space(tokenizer));
        text(tokenizer)
    } else {
        sequence_open(tokenizer)
    }
}

/// Whether an opening sequence begins here.
fn begins_sequence(current: Option<u8>) -> bool
    ensures { result ≡ is_current 35 current }
{
    current == Some(b'#')
}

/// After the indent, at `#`: takes the opening sequence at once, and the rest of the line where one space is after it,
/// as the states do one after another.
///
/// ```markdown
/// > | ## aa
///     ^
/// ```
pub fn opening(tokenizer: &mut Tokenizer) -> State
    requires { IsAt NeedsNothing (StateName.HeadingAtx HeadingState.Before) (world tokenizer.old) }
    ensures { IsRun HeadingStep (StateName.HeadingAtx HeadingState.Before)
        (world tokenizer.old) (IsFull tokenizer.new) result tokenizer.new }
{
    if !begins_sequence(tokenizer.current) {
        return before(tokenizer);
    }
    or_error!(tokenizer.enter(Name::HeadingAtxSequence));
    tokenizer.see_while(Stay::UpTo(b'#', OPENING));
    if tokenizer.see_or_wait(false) {
        return State::Next(StateName::HeadingAtx(HeadingState::SequenceOpen));
    }
    opens(tokenizer)
}

/// Calls a state of a heading.
#[inline(always)]
#[tactic(auto, using(crate::proofs::HeadingMeaning::heading_rule))]
pub fn call(tokenizer: &mut Tokenizer, state: HeadingState) -> State
    requires { IsAt NeedsNothing (StateName.HeadingAtx state) (world tokenizer.old) }
    ensures { IsHeadingState state (world tokenizer.old) result tokenizer.new }
{
    match state {
        HeadingState::Start => start(tokenizer),
        HeadingState::Before => before(tokenizer),
        HeadingState::SequenceOpen => sequence_open(tokenizer),
        HeadingState::AtBreak => at_break(tokenizer),
        HeadingState::SequenceFurther => sequence_further(tokenizer),
        HeadingState::Data => data(tokenizer),
    }
}

/// What a state of a heading only takes and counts.
pub fn takes_at_once(state: HeadingState) -> Option<Stay>
    ensures { IfSome result (λ stay. TakesEach stay (StateName.HeadingAtx state) (heading_transition state)) }
{
    match state {
        HeadingState::SequenceOpen => Some(Stay::UpTo(b'#', OPENING)),
        HeadingState::SequenceFurther => Some(Stay::Byte(b'#')),
        HeadingState::Data => Some(Stay::Line),
        _ => None,
    }
}
