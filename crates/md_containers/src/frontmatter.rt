// Frontmatter (own choice: CommonMark knows none).
//
//     frontmatter ::= fence *( eol line ) eol fence
//     fence       ::= ( 3'-' | 3'+' ) *space_or_tab
//
// It is at the front of a text, after a byte order mark at most. Both fences have the same marker, with no indent and
// just three of it; the first later line that is such a fence is the closing one. Without one there is no frontmatter,
// and all that was read is taken back.
//
// It adds `Frontmatter`, and in it `FrontmatterFence` around `FrontmatterSequence` and the whitespace after it,
// `FrontmatterChunk` over each line that is not empty, and `LineEnding`. The ending after the closing fence is outside:
// the lines of the text begin after it.

ghost use Rattle.std.specs.Prelude.{◌≡◌, ◌≢◌, ◌<◌, IfSome, OnOk, is_err, length, true};
ghost use Rattle.md_containers.specs.Frontmatter.{cleared};
ghost use Rattle.md_containers.specs.Frontmatter.{ending_taken, fence_entered};
ghost use Rattle.md_containers.specs.Frontmatter.{front_transition, is_marker};
ghost use Rattle.md_containers.specs.Frontmatter.{sequence_transition};
ghost use Rattle.md_containers.specs.FrontmatterRule.{IsFrontState};
ghost use Rattle.md_engine.specs.Full.{Grown, IsFull, IsFullList, OnError};
ghost use Rattle.md_engine.specs.World.{looks, world};
ghost use Rattle.md_engine.specs.declared.state.Name.{Name as StateName};
ghost use Rattle.md_engine.specs.declared.state.State.{State};
ghost use Rattle.md_engine.specs.declared.state.frontmatter.State.{State as FrontState};
ghost use Rattle.md_leaves.specs.Heading.{without_size};
ghost use Rattle.md_events.specs.Stays.{TakesEach};
ghost use Rattle.md_events.specs.Transition.{IsAt, NeedsNothing};

use md_engine::event::Name;
use md_engine::message::Message;
use md_engine::or_error;
use md_engine::state::frontmatter::State as FrontState;
use md_engine::state::{Name as StateName, State};
use md_engine::stay::Stay;
use md_engine::tokenizer::{Scratch, Tokenizer};
use md_events::space_or_tab::{is_space_or_tab, space_or_tab_min_max};
use md_leaves::blank_line::ends_line;

/// How many markers a fence has.
const SIZE: usize = 3;

/// Whether this marks a fence.
fn is_marker(byte: u8) -> bool
    ensures { result ≡ is_marker byte }
{
    byte == b'-' || byte == b'+'
}

/// Without a marker and what was counted.
fn cleared(scratch: Scratch) -> Scratch
    ensures { result ≡ cleared scratch }
{
    Scratch {
        marker: 0,
        size: 0,
        ..scratch
    }
}

/// Without what was counted.
fn uncounted(scratch: Scratch) -> Scratch
    ensures { result ≡ without_size scratch }
{
    Scratch { size: 0, ..scratch }
}

/// A fence begins.
fn enter_fence(tokenizer: &mut Tokenizer) -> Result<(), Message>
    ensures world { OnOk result (world tokenizer.new ≡ fence_entered (world tokenizer.old)) }
    ensures full { is_err result ≡ true → IsFullList Grown.Events tokenizer.new }
{
    tokenizer.enter(Name::FrontmatterFence)?;
    tokenizer.enter(Name::FrontmatterSequence)
}

/// Takes the line ending that is here.
fn take_ending(tokenizer: &mut Tokenizer) -> Result<(), Message>
    requires { (world tokenizer.old).point.index < length (world tokenizer.old).setting.bytes }
    ensures world { OnOk result (world tokenizer.new ≡ ending_taken (world tokenizer.old)) }
    ensures full { is_err result ≡ true → IsFullList Grown.Events tokenizer.new }
{
    tokenizer.enter(Name::LineEnding)?;
    tokenizer.consume();
    tokenizer.exit(Name::LineEnding)
}

/// Before the opening fence.
///
/// ```markdown
/// > | ---
///     ^
///   | a: b
///   | ---
/// ```
#[tactic(auto, using(crate::proofs::FrontmatterMeaning::front_rule))]
pub fn start(tokenizer: &mut Tokenizer) -> State
    requires { IsAt NeedsNothing (StateName.Frontmatter FrontState.Start) (world tokenizer.old) }
    ensures { IsFrontState FrontState.Start (world tokenizer.old) result tokenizer.new }
{
    if !tokenizer.options.constructs.frontmatter {
        return State::Nok;
    }
    match tokenizer.current {
        Some(byte) if is_marker(byte) => {
            tokenizer.scratch.marker = byte;
            tokenizer.scratch.size = 0;
            or_error!(tokenizer.enter(Name::Frontmatter));
            or_error!(enter_fence(tokenizer));
            State::Retry(StateName::Frontmatter(FrontState::OpenSequence))
        }
        _ => State::Nok,
    }
}

/// In the sequence of a fence, which has just three markers: one more is counted where `here` continues, and `after` is
/// what follows the sequence and whitespace. Where there are fewer or more, `refused` is left.
fn sequence(
    tokenizer: &mut Tokenizer,
    here: FrontState,
    after: FrontState,
    refused: Scratch,
) -> State
    requires { (world tokenizer.old).current ≡ looks (world tokenizer.old) }
    ensures to { result ≢ State.Error →
        result ≡ (sequence_transition here after refused (world tokenizer.old)).to }
    ensures world { result ≢ State.Error →
        world tokenizer.new ≡ (sequence_transition here after refused (world tokenizer.old)).world }
    ensures full { OnError result (IsFull tokenizer.new) }
{
    let Scratch { marker, size, .. } = tokenizer.scratch;
    let valid = tokenizer.current == Some(marker);
    if valid && size < SIZE {
        tokenizer.consume();
        tokenizer.scratch.size = size + 1;
        return State::Next(StateName::Frontmatter(here));
    }
    if valid || size != SIZE {
        tokenizer.scratch = refused;
        return State::Nok;
    }
    tokenizer.scratch.size = 0;
    or_error!(tokenizer.exit(Name::FrontmatterSequence));
    if is_space_or_tab(tokenizer.current) {
        space_or_tab_min_max(
            tokenizer,
            0,
            usize::MAX,
            State::Next(StateName::Frontmatter(after)),
            State::Nok,
        )
    } else {
        State::Retry(StateName::Frontmatter(after))
    }
}

/// In the sequence of the opening fence.
///
/// ```markdown
/// > | ---
///     ^^^
///   | a: b
///   | ---
/// ```
#[tactic(auto, using(crate::proofs::FrontmatterMeaning::front_rule))]
pub fn open_sequence(tokenizer: &mut Tokenizer) -> State
    requires { IsAt NeedsNothing (StateName.Frontmatter FrontState.OpenSequence) (world tokenizer.old) }
    ensures { IsFrontState FrontState.OpenSequence (world tokenizer.old) result tokenizer.new }
{
    let refused = cleared(tokenizer.scratch);
    sequence(
        tokenizer,
        FrontState::OpenSequence,
        FrontState::OpenAfter,
        refused,
    )
}

/// After the opening fence and whitespace: the line ends here, and a further one follows.
///
/// ```markdown
/// > | ---
///        ^
///   | a: b
///   | ---
/// ```
#[tactic(auto, using(crate::proofs::FrontmatterMeaning::front_rule))]
pub fn open_after(tokenizer: &mut Tokenizer) -> State
    requires { IsAt NeedsNothing (StateName.Frontmatter FrontState.OpenAfter) (world tokenizer.old) }
    ensures { IsFrontState FrontState.OpenAfter (world tokenizer.old) result tokenizer.new }
{
    if tokenizer.current != Some(b'\n') {
        tokenizer.scratch = cleared(tokenizer.scratch);
        return State::Nok;
    }
    or_error!(tokenizer.exit(Name::FrontmatterFence));
    or_error!(take_ending(tokenizer));
    State::Next(StateName::Frontmatter(FrontState::CloseStart))
}

/// Before a further line: a closing fence, which begins with the marker, or else content.
///
/// ```markdown
///   | ---
/// > | a: b
///     ^
/// > | ---
///     ^
/// ```
#[tactic(auto, using(crate::proofs::FrontmatterMeaning::front_rule))]
pub fn close_start(tokenizer: &mut Tokenizer) -> State
    requires { IsAt NeedsNothing (StateName.Frontmatter FrontState.CloseStart) (world tokenizer.old) }
    ensures { IsFrontState FrontState.CloseStart (world tokenizer.old) result tokenizer.new }
{
    if tokenizer.current != Some(tokenizer.scratch.marker) {
        return State::Retry(StateName::Frontmatter(FrontState::ContentStart));
    }
    or_error!(tokenizer.attempt(
        State::Next(StateName::Frontmatter(FrontState::After)),
        State::Next(StateName::Frontmatter(FrontState::ContentStart)),
    ));
    or_error!(enter_fence(tokenizer));
    State::Retry(StateName::Frontmatter(FrontState::CloseSequence))
}

/// In the sequence of the closing fence.
///
/// ```markdown
///   | ---
///   | a: b
/// > | ---
///     ^^^
/// ```
#[tactic(auto, using(crate::proofs::FrontmatterMeaning::front_rule))]
pub fn close_sequence(tokenizer: &mut Tokenizer) -> State
    requires { IsAt NeedsNothing (StateName.Frontmatter FrontState.CloseSequence) (world tokenizer.old) }
    ensures { IsFrontState FrontState.CloseSequence (world tokenizer.old) result tokenizer.new }
{
    let refused = uncounted(tokenizer.scratch);
    sequence(
        tokenizer,
        FrontState::CloseSequence,
        FrontState::CloseAfter,
        refused,
    )
}

/// After the closing fence and whitespace: the line ends here.
///
/// ```markdown
///   | ---
///   | a: b
/// > | ---
///        ^
/// ```
#[tactic(auto, using(crate::proofs::FrontmatterMeaning::front_rule))]
pub fn close_after(tokenizer: &mut Tokenizer) -> State
    requires { IsAt NeedsNothing (StateName.Frontmatter FrontState.CloseAfter) (world tokenizer.old) }
    ensures { IsFrontState FrontState.CloseAfter (world tokenizer.old) result tokenizer.new }
{
    if !ends_line(tokenizer.current) {
        return State::Nok;
    }
    or_error!(tokenizer.exit(Name::FrontmatterFence));
    State::Ok
}

/// Before a line that is no closing fence.
///
/// ```markdown
///   | ---
/// > | a: b
///     ^
///   | ---
/// ```
#[tactic(auto, using(crate::proofs::FrontmatterMeaning::front_rule))]
pub fn content_start(tokenizer: &mut Tokenizer) -> State
    requires { IsAt NeedsNothing (StateName.Frontmatter FrontState.ContentStart) (world tokenizer.old) }
    ensures { IsFrontState FrontState.ContentStart (world tokenizer.old) result tokenizer.new }
{
    if ends_line(tokenizer.current) {
        return State::Retry(StateName::Frontmatter(FrontState::ContentEnd));
    }
    or_error!(tokenizer.enter(Name::FrontmatterChunk));
    State::Retry(StateName::Frontmatter(FrontState::ContentInside))
}

/// In such a line.
///
/// ```markdown
///   | ---
/// > | a: b
///     ^^^^
///   | ---
/// ```
#[tactic(auto, using(crate::proofs::FrontmatterMeaning::front_rule))]
pub fn content_inside(tokenizer: &mut Tokenizer) -> State
    requires { IsAt NeedsNothing (StateName.Frontmatter FrontState.ContentInside) (world tokenizer.old) }
    ensures { IsFrontState FrontState.ContentInside (world tokenizer.old) result tokenizer.new }
{
    if ends_line(tokenizer.current) {
        or_error!(tokenizer.exit(Name::FrontmatterChunk));
        return State::Retry(StateName::Frontmatter(FrontState::ContentEnd));
    }
    tokenizer.consume();
    State::Next(StateName::Frontmatter(FrontState::ContentInside))
}

/// At the end of such a line: where the text ends too, no fence closes.
///
/// ```markdown
///   | ---
/// > | a: b
///         ^
///   | ---
/// ```
#[tactic(auto, using(crate::proofs::FrontmatterMeaning::front_rule))]
pub fn content_end(tokenizer: &mut Tokenizer) -> State
    requires { IsAt NeedsNothing (StateName.Frontmatter FrontState.ContentEnd) (world tokenizer.old) }
    ensures { IsFrontState FrontState.ContentEnd (world tokenizer.old) result tokenizer.new }
{
    if tokenizer.current != Some(b'\n') {
        tokenizer.scratch = cleared(tokenizer.scratch);
        return State::Nok;
    }
    or_error!(take_ending(tokenizer));
    State::Next(StateName::Frontmatter(FrontState::CloseStart))
}

/// After the closing fence: the lines of the text begin after its line ending, if there is one.
///
/// ```markdown
///   | ---
///   | a: b
/// > | ---
///        ^
/// ```
#[tactic(auto, using(crate::proofs::FrontmatterMeaning::front_rule))]
pub fn after(tokenizer: &mut Tokenizer) -> State
    requires { IsAt NeedsNothing (StateName.Frontmatter FrontState.After) (world tokenizer.old) }
    ensures { IsFrontState FrontState.After (world tokenizer.old) result tokenizer.new }
{
    tokenizer.scratch = cleared(tokenizer.scratch);
    or_error!(tokenizer.exit(Name::Frontmatter));
    if tokenizer.current == Some(b'\n') {
        or_error!(take_ending(tokenizer));
    }
    State::Ok
}

/// What a state of frontmatter only takes.
pub fn takes_at_once(state: FrontState) -> Option<Stay>
    ensures { IfSome result (λ stay. TakesEach stay (StateName.Frontmatter state) (front_transition state)) }
{
    match state {
        FrontState::ContentInside => Some(Stay::Line),
        _ => None,
    }
}

/// Calls a state of frontmatter.
#[tactic(auto, using(crate::proofs::FrontmatterMeaning::front_rule))]
pub fn call(tokenizer: &mut Tokenizer, state: FrontState) -> State
    requires { IsAt NeedsNothing (StateName.Frontmatter state) (world tokenizer.old) }
    ensures { IsFrontState state (world tokenizer.old) result tokenizer.new }
{
    match state {
        FrontState::Start => start(tokenizer),
        FrontState::OpenSequence => open_sequence(tokenizer),
        FrontState::OpenAfter => open_after(tokenizer),
        FrontState::CloseStart => close_start(tokenizer),
        FrontState::CloseSequence => close_sequence(tokenizer),
        FrontState::CloseAfter => close_after(tokenizer),
        FrontState::ContentStart => content_start(tokenizer),
        FrontState::ContentInside => content_inside(tokenizer),
        FrontState::ContentEnd => content_end(tokenizer),
        FrontState::After => after(tokenizer),
    }
}
