// Fenced code (CommonMark 4.5) and math.
//
//     raw_flow ::= opening *( eol line ) [ eol closing ]
//     opening  ::= small_indent sequence [ *space_or_tab info [ 1*space_or_tab meta ] ] *space_or_tab
//     closing  ::= small_indent sequence *space_or_tab
//     sequence ::= 3*'`' | 3*'~' | 2*'$'
//
// A block of tildes or backticks is fenced code, one of dollars is math, which has no `info`: all after its sequence is
// `meta`. Neither holds the marker, unless that is a tilde. A closing sequence has the marker of the opening one, and
// at least as many. Each other line loses as many columns of whitespace as was before the opening sequence, or as many
// as it has.
//
// A block is read one line at a time: `start` is the first state of its opening line, `at_non_lazy_break` that of each
// further line. What is kept between them is `HeldLeaf::Fence`. Each line is a `CodeFenced` of its own, to the end of
// the line: the opening one from its sequence on, a further one from its begin, and linked to the line before. A
// resolver makes one block of them. In it are `CodeFencedFence` around a sequence and what follows it on its line:
// `CodeFencedFenceSequence`, `SpaceOrTab`, and around linked `Data` `CodeFencedFenceInfo` and `CodeFencedFenceMeta`;
// and `CodeFlowChunk` over what a line has left, if anything. Indents are `SpaceOrTab` before these. In math all names
// begin with `MathFlow`.

ghost use Rattle.std.specs.Prelude.{◌≡◌, ◌≢◌, IfSome};
ghost use Rattle.md_literal.specs.FenceRule.{FenceMeans, IsFenceState};
ghost use Rattle.md_engine.specs.Full.{IsFull, OnError};
ghost use Rattle.md_engine.specs.World.{world};
ghost use Rattle.md_engine.specs.declared.state.Name.{Name as StateName};
ghost use Rattle.md_engine.specs.declared.state.State.{State};
ghost use Rattle.md_engine.specs.declared.state.raw_flow.State.{State as RawState};
ghost use Rattle.md_literal.specs.Fence.{FenceNeeds, after_part};
ghost use Rattle.md_literal.specs.Fence.{content_before_transition};
ghost use Rattle.md_literal.specs.Fence.{fence_transition};
ghost use Rattle.md_literal.specs.Fence.{is_open, may_begin};
ghost use Rattle.md_events.specs.Look.{may_with};
ghost use Rattle.md_events.specs.Spaces.{sees_white};
ghost use Rattle.md_events.specs.Stays.{TakesEach};
ghost use Rattle.md_events.specs.Transition.{IsAt};

use crate::fence_parts::{
    block_name, chunk_name, cleared, fence_name, held_indent, held_marker, held_size, is_marker,
    is_refused, least_size, meta_name, sequence_name,
};
use md_engine::event::{Content, Link, Name};
use md_engine::or_error;
use md_engine::state::raw_flow::State as RawState;
use md_engine::state::{Name as StateName, State};
use md_engine::stay::Stay;
use md_engine::tokenizer::{HeldLeaf, Scratch, Tokenizer};
use md_events::space_or_tab::{is_space_or_tab, small_indent, space_or_tab_min_max};
use md_leaves::further::FURTHER;

/// What follows an opening sequence is read later.
const STRING_LINK: Link = Link {
    previous: false,
    next: false,
    content: Content::String,
};

/// Whether a block may begin here, by what is first after whitespace: a marker, if that is known.
pub fn may_begin(first: Option<u8>) -> bool
    ensures { result ≡ may_with may_begin first }
{
    matches!(first, None | Some(b'`' | b'~' | b'$'))
}

/// Whether this is a block that is open: its fence has a marker of such a block, and enough of it.
pub fn is_open(leaf: HeldLeaf) -> bool
    ensures { result ≡ is_open leaf }
{
    let marker = held_marker(leaf);
    may_begin(Some(marker)) && held_size(leaf) >= least_size(marker)
}

/// Before an opening sequence and its indent.
///
/// ```markdown
/// > | ~~~js
///     ^
///   | a
///   | ~~~
/// ```
#[tactic(auto, using(crate::proofs::FenceMeaning::fence_rule))]
pub fn start(tokenizer: &mut Tokenizer) -> State
    requires { IsAt FenceNeeds (StateName.RawFlow RawState.Start) (world tokenizer.old) }
    ensures { IsFenceState RawState.Start (world tokenizer.old) result tokenizer.new }
{
    if !tokenizer.options.constructs.code_fenced && !tokenizer.options.constructs.math_flow {
        return State::Nok;
    }
    tokenizer.scratch.size_c = tokenizer.point.column;
    if is_space_or_tab(tokenizer.current) {
        let max = small_indent(tokenizer);
        space_or_tab_min_max(
            tokenizer,
            0,
            max,
            State::Next(StateName::RawFlow(RawState::BeforeSequenceOpen)),
            State::Nok,
        )
    } else {
        State::Retry(StateName::RawFlow(RawState::BeforeSequenceOpen))
    }
}

/// After the indent, at an opening sequence. The columns of the indent are known here.
///
/// ```markdown
/// > | ~~~js
///     ^
///   | a
///   | ~~~
/// ```
#[tactic(auto, using(crate::proofs::FenceMeaning::fence_rule))]
pub fn before_sequence_open(tokenizer: &mut Tokenizer) -> State
    requires { IsAt FenceNeeds (StateName.RawFlow RawState.BeforeSequenceOpen) (world tokenizer.old) }
    ensures { IsFenceState RawState.BeforeSequenceOpen (world tokenizer.old) result tokenizer.new }
{
    match tokenizer.current {
        Some(byte) if is_marker(tokenizer.options, byte) => {
            let begin = tokenizer.scratch.size_c;
            tokenizer.scratch.marker = byte;
            tokenizer.scratch.size_c = tokenizer.point.column.saturating_sub(begin);
            or_error!(tokenizer.enter(block_name(byte)));
            or_error!(tokenizer.enter(fence_name(byte)));
            or_error!(tokenizer.enter(sequence_name(byte)));
            State::Retry(StateName::RawFlow(RawState::SequenceOpen))
        }
        _ => {
            tokenizer.scratch = cleared(tokenizer.scratch);
            State::Nok
        }
    }
}

/// Goes on after a part of a fence: after whitespace, if some is here.
fn proceed(tokenizer: &mut Tokenizer, following: RawState) -> State
    ensures to { result ≢ State.Error →
        result ≡ (after_part (world tokenizer.old) following (sees_white tokenizer.old.current)).to }
    ensures world { result ≢ State.Error →
        world tokenizer.new ≡ (after_part (world tokenizer.old) following (sees_white tokenizer.old.current)).world }
    ensures full { OnError result (IsFull tokenizer.new) }
{
    if is_space_or_tab(tokenizer.current) {
        space_or_tab_min_max(
            tokenizer,
            0,
            usize::MAX,
            State::Next(StateName::RawFlow(following)),
            State::Nok,
        )
    } else {
        State::Retry(StateName::RawFlow(following))
    }
}

/// In the opening sequence.
///
/// ```markdown
/// > | ~~~js
///     ^^^
///   | a
///   | ~~~
/// ```
#[tactic(auto, using(crate::proofs::FenceMeaning::fence_rule))]
pub fn sequence_open(tokenizer: &mut Tokenizer) -> State
    requires { IsAt FenceNeeds (StateName.RawFlow RawState.SequenceOpen) (world tokenizer.old) }
    ensures { IsFenceState RawState.SequenceOpen (world tokenizer.old) result tokenizer.new }
{
    let marker = tokenizer.scratch.marker;
    if tokenizer.current == Some(marker) {
        tokenizer.consume();
        tokenizer.scratch.size += 1;
        return State::Next(StateName::RawFlow(RawState::SequenceOpen));
    }
    if tokenizer.scratch.size < least_size(marker) {
        tokenizer.scratch = cleared(tokenizer.scratch);
        return State::Nok;
    }
    or_error!(tokenizer.exit(sequence_name(marker)));
    if marker == b'$' {
        proceed(tokenizer, RawState::MetaBefore)
    } else {
        proceed(tokenizer, RawState::InfoBefore)
    }
}

/// After the opening sequence, before `info`, or at the end of the line: then the block is open.
///
/// ```markdown
/// > | ~~~js
///        ^ ^
///   | a
///   | ~~~
/// ```
#[tactic(auto, using(crate::proofs::FenceMeaning::fence_rule))]
pub fn info_before(tokenizer: &mut Tokenizer) -> State
    requires { IsAt FenceNeeds (StateName.RawFlow RawState.InfoBefore) (world tokenizer.old) }
    ensures { IsFenceState RawState.InfoBefore (world tokenizer.old) result tokenizer.new }
{
    match tokenizer.current {
        None | Some(b'\n') => {
            let Scratch {
                marker,
                size,
                size_c,
                ..
            } = tokenizer.scratch;
            or_error!(tokenizer.exit(fence_name(marker)));
            or_error!(tokenizer.exit(block_name(marker)));
            tokenizer.flags.leaf = HeldLeaf::Fence {
                marker,
                size,
                indent: size_c,
            };
            tokenizer.scratch = cleared(tokenizer.scratch);
            State::Ok
        }
        // All whitespace lies after.
        Some(b'\t' | b' ') => {
            tokenizer.scratch = cleared(tokenizer.scratch);
            State::Nok
        }
        Some(_) => {
            or_error!(tokenizer.enter(Name::CodeFencedFenceInfo));
            or_error!(tokenizer.enter_link(Name::Data, STRING_LINK));
            State::Retry(StateName::RawFlow(RawState::Info))
        }
    }
}

/// In `info`.
///
/// ```markdown
/// > | ~~~js
///        ^^
///   | a
///   | ~~~
/// ```
#[tactic(auto, using(crate::proofs::FenceMeaning::fence_rule))]
pub fn info(tokenizer: &mut Tokenizer) -> State
    requires { IsAt FenceNeeds (StateName.RawFlow RawState.Info) (world tokenizer.old) }
    ensures { IsFenceState RawState.Info (world tokenizer.old) result tokenizer.new }
{
    match tokenizer.current {
        None | Some(b'\t' | b'\n' | b' ') => {
            or_error!(tokenizer.exit(Name::Data));
            or_error!(tokenizer.exit(Name::CodeFencedFenceInfo));
            proceed(tokenizer, RawState::MetaBefore)
        }
        Some(byte) => {
            if is_refused(tokenizer.scratch.marker, byte) {
                tokenizer.scratch = cleared(tokenizer.scratch);
                State::Nok
            } else {
                tokenizer.consume();
                State::Next(StateName::RawFlow(RawState::Info))
            }
        }
    }
}

/// Before `meta`, or at the end of the line.
///
/// ```markdown
/// > | ~~~js eval
///           ^
///   | a
///   | ~~~
/// ```
#[tactic(auto, using(crate::proofs::FenceMeaning::fence_rule))]
pub fn meta_before(tokenizer: &mut Tokenizer) -> State
    requires { IsAt FenceNeeds (StateName.RawFlow RawState.MetaBefore) (world tokenizer.old) }
    ensures { IsFenceState RawState.MetaBefore (world tokenizer.old) result tokenizer.new }
{
    match tokenizer.current {
        None | Some(b'\n') => State::Retry(StateName::RawFlow(RawState::InfoBefore)),
        // All whitespace lies after.
        Some(b'\t' | b' ') => {
            tokenizer.scratch = cleared(tokenizer.scratch);
            State::Nok
        }
        Some(_) => {
            let name = meta_name(tokenizer.scratch.marker);
            or_error!(tokenizer.enter(name));
            or_error!(tokenizer.enter_link(Name::Data, STRING_LINK));
            State::Retry(StateName::RawFlow(RawState::Meta))
        }
    }
}

/// In `meta`, which continues to the end of the line.
///
/// ```markdown
/// > | ~~~js eval
///           ^^^^
///   | a
///   | ~~~
/// ```
#[tactic(auto, using(crate::proofs::FenceMeaning::fence_rule))]
pub fn meta(tokenizer: &mut Tokenizer) -> State
    requires { IsAt FenceNeeds (StateName.RawFlow RawState.Meta) (world tokenizer.old) }
    ensures { IsFenceState RawState.Meta (world tokenizer.old) result tokenizer.new }
{
    match tokenizer.current {
        None | Some(b'\n') => {
            let name = meta_name(tokenizer.scratch.marker);
            or_error!(tokenizer.exit(Name::Data));
            or_error!(tokenizer.exit(name));
            State::Retry(StateName::RawFlow(RawState::InfoBefore))
        }
        Some(byte) => {
            if is_refused(tokenizer.scratch.marker, byte) {
                tokenizer.scratch = cleared(tokenizer.scratch);
                State::Nok
            } else {
                tokenizer.consume();
                State::Next(StateName::RawFlow(RawState::Meta))
            }
        }
    }
}

/// Before a further line: a closing fence, which begins with whitespace or the marker, or else content. Either
/// continues the block of the line before.
///
/// ```markdown
///   | ~~~js
/// > | a
///     ^
/// > | ~~~
///     ^
/// ```
#[tactic(auto, using(crate::proofs::FenceMeaning::fence_rule))]
pub fn at_non_lazy_break(tokenizer: &mut Tokenizer) -> State
    requires { IsAt FenceNeeds (StateName.RawFlow RawState.AtNonLazyBreak) (world tokenizer.old) }
    ensures { IsFenceState RawState.AtNonLazyBreak (world tokenizer.old) result tokenizer.new }
{
    let marker = held_marker(tokenizer.flags.leaf);
    or_error!(tokenizer.enter_link(block_name(marker), FURTHER));
    if is_space_or_tab(tokenizer.current) || tokenizer.current == Some(marker) {
        or_error!(tokenizer.attempt(
            State::Next(StateName::RawFlow(RawState::After)),
            State::Next(StateName::RawFlow(RawState::ContentStart)),
        ));
        tokenizer.scratch.marker = marker;
        State::Retry(StateName::RawFlow(RawState::CloseStart))
    } else {
        State::Retry(StateName::RawFlow(RawState::ContentStart))
    }
}

/// Before a closing sequence and its indent.
///
/// ```markdown
///   | ~~~js
///   | a
/// > | ~~~
///     ^
/// ```
#[tactic(auto, using(crate::proofs::FenceMeaning::fence_rule))]
pub fn close_start(tokenizer: &mut Tokenizer) -> State
    requires { IsAt FenceNeeds (StateName.RawFlow RawState.CloseStart) (world tokenizer.old) }
    ensures { IsFenceState RawState.CloseStart (world tokenizer.old) result tokenizer.new }
{
    if is_space_or_tab(tokenizer.current) {
        let max = small_indent(tokenizer);
        space_or_tab_min_max(
            tokenizer,
            0,
            max,
            State::Next(StateName::RawFlow(RawState::BeforeSequenceClose)),
            State::Nok,
        )
    } else {
        State::Retry(StateName::RawFlow(RawState::BeforeSequenceClose))
    }
}

/// After the indent, at a closing sequence.
///
/// ```markdown
///   | ~~~js
///   | a
/// > | ~~~
///     ^
/// ```
#[tactic(auto, using(crate::proofs::FenceMeaning::fence_rule))]
pub fn before_sequence_close(tokenizer: &mut Tokenizer) -> State
    requires { IsAt FenceNeeds (StateName.RawFlow RawState.BeforeSequenceClose) (world tokenizer.old) }
    ensures { IsFenceState RawState.BeforeSequenceClose (world tokenizer.old) result tokenizer.new }
{
    let marker = tokenizer.scratch.marker;
    if tokenizer.current == Some(marker) {
        or_error!(tokenizer.enter(fence_name(marker)));
        or_error!(tokenizer.enter(sequence_name(marker)));
        State::Retry(StateName::RawFlow(RawState::SequenceClose))
    } else {
        tokenizer.scratch = cleared(tokenizer.scratch);
        State::Nok
    }
}

/// In the closing sequence, which is as long as the opening one at least.
///
/// ```markdown
///   | ~~~js
///   | a
/// > | ~~~
///     ^^^
/// ```
#[tactic(auto, using(crate::proofs::FenceMeaning::fence_rule))]
pub fn sequence_close(tokenizer: &mut Tokenizer) -> State
    requires { IsAt FenceNeeds (StateName.RawFlow RawState.SequenceClose) (world tokenizer.old) }
    ensures { IsFenceState RawState.SequenceClose (world tokenizer.old) result tokenizer.new }
{
    let Scratch { marker, size, .. } = tokenizer.scratch;
    if tokenizer.current == Some(marker) {
        tokenizer.consume();
        tokenizer.scratch.size += 1;
        return State::Next(StateName::RawFlow(RawState::SequenceClose));
    }
    tokenizer.scratch = cleared(tokenizer.scratch);
    if size < held_size(tokenizer.flags.leaf) {
        return State::Nok;
    }
    or_error!(tokenizer.exit(sequence_name(marker)));
    proceed(tokenizer, RawState::SequenceCloseAfter)
}

/// After the closing sequence and whitespace: the line ends here.
///
/// ```markdown
///   | ~~~js
///   | a
/// > | ~~~
///        ^
/// ```
#[tactic(auto, using(crate::proofs::FenceMeaning::fence_rule))]
pub fn sequence_close_after(tokenizer: &mut Tokenizer) -> State
    requires { IsAt FenceNeeds (StateName.RawFlow RawState.SequenceCloseAfter) (world tokenizer.old) }
    ensures { IsFenceState RawState.SequenceCloseAfter (world tokenizer.old) result tokenizer.new }
{
    match tokenizer.current {
        None | Some(b'\n') => {
            let name = fence_name(held_marker(tokenizer.flags.leaf));
            or_error!(tokenizer.exit(name));
            State::Ok
        }
        _ => State::Nok,
    }
}

/// Before a line that is no closing fence. The ending before it was taken by flow, so that nothing is left to do here,
/// and the line continues with `content_start`.
///
/// ```markdown
///   | ~~~js
/// > | a
///     ^
///   | ~~~
/// ```
#[tactic(auto, using(crate::proofs::FenceMeaning::fence_rule))]
pub fn content_before(_tokenizer: &mut Tokenizer) -> State
    requires { IsAt FenceNeeds (StateName.RawFlow RawState.ContentBefore) (world _tokenizer.old) }
    ensures to { result ≡ (content_before_transition (world _tokenizer.old)).to }
    ensures world { world _tokenizer.new ≡ (content_before_transition (world _tokenizer.old)).world }
    ensures rule { FenceMeans RawState.ContentBefore (world _tokenizer.old) result (world _tokenizer.new) }
{
    State::Retry(StateName::RawFlow(RawState::ContentStart))
}

/// Before a line that is no closing fence: as many columns of whitespace as was before the opening sequence do not
/// belong to it.
///
/// ```markdown
///   | ~~~js
/// > | a
///     ^
///   | ~~~
/// ```
#[tactic(auto, using(crate::proofs::FenceMeaning::fence_rule))]
pub fn content_start(tokenizer: &mut Tokenizer) -> State
    requires { IsAt FenceNeeds (StateName.RawFlow RawState.ContentStart) (world tokenizer.old) }
    ensures { IsFenceState RawState.ContentStart (world tokenizer.old) result tokenizer.new }
{
    let max = held_indent(tokenizer.flags.leaf);
    if max > 0 && is_space_or_tab(tokenizer.current) {
        space_or_tab_min_max(
            tokenizer,
            0,
            max,
            State::Next(StateName::RawFlow(RawState::BeforeContentChunk)),
            State::Nok,
        )
    } else {
        State::Retry(StateName::RawFlow(RawState::BeforeContentChunk))
    }
}

/// Before what is left of a line, or at its end, where the line is done.
///
/// ```markdown
///   | ~~~js
/// > | a
///     ^^
///   | ~~~
/// ```
#[tactic(auto, using(crate::proofs::FenceMeaning::fence_rule))]
pub fn before_content_chunk(tokenizer: &mut Tokenizer) -> State
    requires { IsAt FenceNeeds (StateName.RawFlow RawState.BeforeContentChunk) (world tokenizer.old) }
    ensures { IsFenceState RawState.BeforeContentChunk (world tokenizer.old) result tokenizer.new }
{
    match tokenizer.current {
        None | Some(b'\n') => {
            let name = block_name(held_marker(tokenizer.flags.leaf));
            or_error!(tokenizer.exit(name));
            State::Ok
        }
        Some(_) => {
            let name = chunk_name(held_marker(tokenizer.flags.leaf));
            or_error!(tokenizer.enter(name));
            State::Retry(StateName::RawFlow(RawState::ContentChunk))
        }
    }
}

/// In a line.
///
/// ```markdown
///   | ~~~js
/// > | a
///     ^
///   | ~~~
/// ```
#[tactic(auto, using(crate::proofs::FenceMeaning::fence_rule))]
pub fn content_chunk(tokenizer: &mut Tokenizer) -> State
    requires { IsAt FenceNeeds (StateName.RawFlow RawState.ContentChunk) (world tokenizer.old) }
    ensures { IsFenceState RawState.ContentChunk (world tokenizer.old) result tokenizer.new }
{
    match tokenizer.current {
        None | Some(b'\n') => {
            let name = chunk_name(held_marker(tokenizer.flags.leaf));
            or_error!(tokenizer.exit(name));
            State::Retry(StateName::RawFlow(RawState::BeforeContentChunk))
        }
        Some(_) => {
            tokenizer.consume();
            State::Next(StateName::RawFlow(RawState::ContentChunk))
        }
    }
}

/// After a closing fence: the block ends.
///
/// ```markdown
///   | ~~~js
///   | a
/// > | ~~~
///        ^
/// ```
#[tactic(auto, using(crate::proofs::FenceMeaning::fence_rule))]
pub fn after(tokenizer: &mut Tokenizer) -> State
    requires { IsAt FenceNeeds (StateName.RawFlow RawState.After) (world tokenizer.old) }
    ensures { IsFenceState RawState.After (world tokenizer.old) result tokenizer.new }
{
    let name = block_name(held_marker(tokenizer.flags.leaf));
    or_error!(tokenizer.exit(name));
    tokenizer.flags.leaf = HeldLeaf::None;
    State::Ok
}

/// What a state of fenced code or math only takes and counts.
pub fn takes_at_once(state: RawState) -> Option<Stay>
    ensures { IfSome result (λ stay. TakesEach stay (StateName.RawFlow state) (fence_transition state)) }
{
    match state {
        RawState::SequenceOpen | RawState::SequenceClose => Some(Stay::Markers),
        RawState::ContentChunk => Some(Stay::Line),
        _ => None,
    }
}

/// Calls a state of fenced code or math.
#[tactic(auto, using(crate::proofs::FenceMeaning::fence_rule))]
pub fn call(tokenizer: &mut Tokenizer, state: RawState) -> State
    requires { IsAt FenceNeeds (StateName.RawFlow state) (world tokenizer.old) }
    ensures { IsFenceState state (world tokenizer.old) result tokenizer.new }
{
    match state {
        RawState::Start => start(tokenizer),
        RawState::BeforeSequenceOpen => before_sequence_open(tokenizer),
        RawState::SequenceOpen => sequence_open(tokenizer),
        RawState::InfoBefore => info_before(tokenizer),
        RawState::Info => info(tokenizer),
        RawState::MetaBefore => meta_before(tokenizer),
        RawState::Meta => meta(tokenizer),
        RawState::AtNonLazyBreak => at_non_lazy_break(tokenizer),
        RawState::CloseStart => close_start(tokenizer),
        RawState::BeforeSequenceClose => before_sequence_close(tokenizer),
        RawState::SequenceClose => sequence_close(tokenizer),
        RawState::SequenceCloseAfter => sequence_close_after(tokenizer),
        RawState::ContentBefore => content_before(tokenizer),
        RawState::ContentStart => content_start(tokenizer),
        RawState::BeforeContentChunk => before_content_chunk(tokenizer),
        RawState::ContentChunk => content_chunk(tokenizer),
        RawState::After => after(tokenizer),
    }
}
