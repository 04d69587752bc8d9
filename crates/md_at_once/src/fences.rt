// Further lines of fenced code and math that are taken in one call.
//
// A line that closes no fence goes from state to state up to its end. Here these states are called one after the other,
// what is left of the line is taken at once between them, and the line ends. A line that closes nothing by its first
// byte, and loses no indent, is content as a whole: its events are added at once, and where its end can be read no
// attempt begins. Each function is a run of the states (`IsFlowRun`), so the pages of the states can be read without
// this one.

ghost use Rattle.std.specs.Prelude.{◌≡◌, OnOk, is_err, true};
ghost use Rattle.md_literal.specs.Fence.{FenceNeeds, block_name, chunk_name, cleared, held_indent, held_marker};
ghost use Rattle.md_engine.specs.Full.{Grown, IsFullList};
ghost use Rattle.md_engine.specs.Place.{IsPlaced};
ghost use Rattle.md_engine.specs.World.{world};
ghost use Rattle.md_engine.specs.declared.state.Name.{Name as StateName};
ghost use Rattle.md_engine.specs.declared.state.State.{State};
ghost use Rattle.md_engine.specs.declared.state.document.State.{State as DocumentState};
ghost use Rattle.md_engine.specs.declared.state.raw_flow.State.{State as RawState};
ghost use Rattle.md_at_once.specs.AtOnce.{IsFlowRun, IsNoClose, IsRunInLine, IsShort, unclosed};
ghost use Rattle.md_at_once.specs.WholeLines.{IsWhole, chunk_event, line_event, settled, whole_added, whole_tried};
ghost use Rattle.md_events.specs.Spaces.{calmed};
ghost use Rattle.md_events.specs.Transition.{IsAt, NeedsNothing};

use crate::line_ends::{end, line_end};
use md_engine::class::is_white;
use md_engine::event::{Event, Kind, Point};
use md_engine::message::Message;
use md_engine::or_error;
use md_engine::state::flow::State as FlowState;
use md_engine::state::raw_flow::State as RawState;
use md_engine::state::{Name as StateName, State};
use md_engine::tokenizer::{Frame, HeldLeaf, Tokenizer, Whitespace};
use md_events::space_or_tab::{is_space_or_tab, look_after_white};
use md_flow::document;
use md_leaves::blank_line;
use md_leaves::further::FURTHER;
use md_literal::fence_parts::{block_name, chunk_name, held_indent, held_marker};
use md_literal::raw_flow;

/// Whether what is left of a line is next.
#[inline(always)]
fn is_chunk(state: State) -> bool
    ensures { result ≡ true → state ≡ State.Retry (StateName.RawFlow RawState.ContentChunk) }
{
    match state {
        State::Retry(StateName::RawFlow(RawState::ContentChunk)) => true,
        _ => false,
    }
}

/// Whether the point before what is left of a line is next.
#[inline(always)]
fn is_rest(state: State) -> bool
    ensures { result ≡ true → state ≡ State.Retry (StateName.RawFlow RawState.BeforeContentChunk) }
{
    match state {
        State::Retry(StateName::RawFlow(RawState::BeforeContentChunk)) => true,
        _ => false,
    }
}

/// Whether a line that is no closing fence is next.
#[inline(always)]
fn is_start(state: State) -> bool
    ensures { result ≡ true → state ≡ State.Retry (StateName.RawFlow RawState.ContentStart) }
{
    match state {
        State::Retry(StateName::RawFlow(RawState::ContentStart)) => true,
        _ => false,
    }
}

/// Whether a further line is next.
#[inline(always)]
fn is_further(state: State) -> bool
    ensures { result ≡ true → state ≡ State.Retry (StateName.RawFlow RawState.AtNonLazyBreak) }
{
    match state {
        State::Retry(StateName::RawFlow(RawState::AtNonLazyBreak)) => true,
        _ => false,
    }
}

/// In a line: the rest of it is taken at once.
#[inline(always)]
fn chunk(tokenizer: &mut Tokenizer) -> State
    requires { IsAt FenceNeeds (StateName.RawFlow RawState.ContentChunk) (world tokenizer.old) }
    ensures { IsRunInLine (StateName.RawFlow RawState.ContentChunk) (world tokenizer.old) result tokenizer.new }
{
    if blank_line::ends_line(tokenizer.current) {
        return raw_flow::content_chunk(tokenizer);
    }
    tokenizer.see_line();
    if tokenizer.see_or_wait(false) {
        return State::Next(StateName::RawFlow(RawState::ContentChunk));
    }
    raw_flow::content_chunk(tokenizer)
}

/// In a line: the rest of it is taken at once, and the line is done.
#[inline(always)]
fn chunk_done(tokenizer: &mut Tokenizer) -> State
    requires { IsAt FenceNeeds (StateName.RawFlow RawState.ContentChunk) (world tokenizer.old) }
    ensures { IsRunInLine (StateName.RawFlow RawState.ContentChunk) (world tokenizer.old) result tokenizer.new }
{
    let to = chunk(tokenizer);
    if is_rest(to) {
        return raw_flow::before_content_chunk(tokenizer);
    }
    to
}

/// Before what is left of a line: it is taken at once.
#[inline(always)]
fn rest(tokenizer: &mut Tokenizer) -> State
    requires { IsAt FenceNeeds (StateName.RawFlow RawState.BeforeContentChunk) (world tokenizer.old) }
    ensures { IsRunInLine (StateName.RawFlow RawState.BeforeContentChunk) (world tokenizer.old) result tokenizer.new }
{
    let to = raw_flow::before_content_chunk(tokenizer);
    if is_chunk(to) {
        return chunk_done(tokenizer);
    }
    to
}

/// Before a line that is no closing fence: it is taken at once.
#[inline(always)]
fn taken(tokenizer: &mut Tokenizer) -> State
    requires { IsAt FenceNeeds (StateName.RawFlow RawState.ContentStart) (world tokenizer.old) }
    ensures { IsRunInLine (StateName.RawFlow RawState.ContentStart) (world tokenizer.old) result tokenizer.new }
{
    let to = raw_flow::content_start(tokenizer);
    if is_rest(to) {
        return rest(tokenizer);
    }
    to
}

/// Before a line that is no closing fence: it is taken at once, and ends.
#[inline(never)]
fn line(tokenizer: &mut Tokenizer) -> State
    requires { IsAt FenceNeeds (StateName.RawFlow RawState.ContentStart) (world tokenizer.old) }
    ensures { IsFlowRun (StateName.RawFlow RawState.ContentStart) (world tokenizer.old) result tokenizer.new }
{
    let to = taken(tokenizer);
    end(tokenizer, to)
}

/// Whether whitespace is here, and something else than the marker first after it.
#[inline(always)]
fn closes_none(tokenizer: &mut Tokenizer) -> bool
    ensures none { result ≡ true → IsNoClose (world tokenizer.old) }
    ensures same { world tokenizer.new ≡ world tokenizer.old }
{
    if !is_space_or_tab(tokenizer.current) {
        return false;
    }
    let marker = held_marker(tokenizer.flags.leaf);
    match look_after_white(tokenizer) {
        None => false,
        Some(byte) => byte != marker && !is_white(marker),
    }
}

/// Keeps nothing of a closing fence that was tried.
#[inline(always)]
fn calm(tokenizer: &mut Tokenizer)
    ensures { world tokenizer.new ≡
        record (world tokenizer.old) { scratch = calmed (cleared (world tokenizer.old).scratch) } }
{
    tokenizer.scratch.marker = 0;
    tokenizer.scratch.size = 0;
    tokenizer.scratch.size_c = 0;
    tokenizer.scratch.whitespace = Whitespace {
        min: 0,
        max: 0,
        size: 0,
    };
}

/// Begins a further line that closes nothing.
#[inline(always)]
fn begin_unclosed(tokenizer: &mut Tokenizer) -> Result<(), Message>
    ensures world { OnOk result (world tokenizer.new ≡ unclosed (world tokenizer.old)) }
    ensures full { is_err result ≡ true → IsFullList Grown.Events tokenizer.new }
{
    let name = block_name(held_marker(tokenizer.flags.leaf));
    tokenizer.enter_link(name, FURTHER)?;
    calm(tokenizer);
    Ok(())
}

/// Before a further line that closes nothing: it is taken at once, and ends.
#[inline(always)]
fn untried(tokenizer: &mut Tokenizer) -> State
    requires at { IsAt FenceNeeds (StateName.RawFlow RawState.AtNonLazyBreak) (world tokenizer.old) }
    requires none { IsNoClose (world tokenizer.old) }
    ensures { IsFlowRun (StateName.RawFlow RawState.AtNonLazyBreak) (world tokenizer.old) result tokenizer.new }
{
    or_error!(begin_unclosed(tokenizer));
    line(tokenizer)
}

/// Before a further line: one that closes no fence by its first byte is taken at once, and ends, and else a fence is
/// tried.
#[inline(always)]
fn tried(tokenizer: &mut Tokenizer) -> State
    requires { IsAt FenceNeeds (StateName.RawFlow RawState.AtNonLazyBreak) (world tokenizer.old) }
    ensures { IsFlowRun (StateName.RawFlow RawState.AtNonLazyBreak) (world tokenizer.old) result tokenizer.new }
{
    let to = raw_flow::at_non_lazy_break(tokenizer);
    if is_start(to) {
        return line(tokenizer);
    }
    to
}

/// Before a further line: one that closes no fence by what is first after whitespace is taken at once, and ends.
#[inline(always)]
fn further(tokenizer: &mut Tokenizer) -> State
    requires { IsAt FenceNeeds (StateName.RawFlow RawState.AtNonLazyBreak) (world tokenizer.old) }
    ensures { IsFlowRun (StateName.RawFlow RawState.AtNonLazyBreak) (world tokenizer.old) result tokenizer.new }
{
    if closes_none(tokenizer) {
        untried(tokenizer)
    } else {
        tried(tokenizer)
    }
}

/// Whether a further line of fenced code or math is content as a whole, by what is first on it.
#[inline(always)]
fn is_whole(tokenizer: &mut Tokenizer) -> bool
    ensures whole { result ≡ true → IsWhole (world tokenizer.old) }
    ensures same { world tokenizer.new ≡ world tokenizer.old }
{
    let leaf = tokenizer.flags.leaf;
    if !raw_flow::is_open(leaf) || blank_line::ends_line(tokenizer.current) {
        return false;
    }
    if is_space_or_tab(tokenizer.current) {
        held_indent(leaf) == 0 && closes_none(tokenizer)
    } else {
        tokenizer.current != Some(held_marker(leaf))
    }
}

/// Before a line that is content as a whole: it is not blank, and nothing is kept of a closing fence.
#[inline(always)]
fn settle(tokenizer: &mut Tokenizer)
    ensures { world tokenizer.new ≡ settled (world tokenizer.old) }
{
    tokenizer.flags.blank = false;
    if is_space_or_tab(tokenizer.current) {
        calm(tokenizer);
    }
}

/// The first two events of a line that is content as a whole.
#[inline(always)]
fn opening(leaf: HeldLeaf, point: Point) -> (Event, Event)
    ensures { result ≡ (line_event leaf point, chunk_event leaf point) }
{
    let marker = held_marker(leaf);
    let first = Event {
        kind: Kind::Enter,
        name: block_name(marker),
        point,
        link: Some(FURTHER),
    };
    let second = Event {
        kind: Kind::Enter,
        name: chunk_name(marker),
        point,
        link: None,
    };
    (first, second)
}

/// Begins an attempt at a line, and the line, at a point before that where the tokenizer is.
#[inline(never)]
#[tactic(auto, unfolding(md_engine::specs::Full::IsFullList))]
fn whole_tried(tokenizer: &mut Tokenizer, from: Point) -> Result<(), Message>
    requires { IsPlaced (world tokenizer.old).setting.bytes from }
    ensures world { OnOk result (world tokenizer.new ≡ whole_tried from (world tokenizer.old)) }
    ensures full { is_err result ≡ true → IsShort tokenizer.new }
{
    if tokenizer.frames.reserve(1).is_err() {
        return Err(Message);
    }
    if tokenizer.events.reserve(2).is_err() {
        return Err(Message);
    }
    let frame = Frame {
        ok: State::Next(StateName::Flow(FlowState::After)),
        nok: State::Next(StateName::Flow(FlowState::Start)),
        is_check: false,
        events_len: tokenizer.events.len(),
        point: from,
    };
    let (first, second) = opening(tokenizer.flags.leaf, from);
    tokenizer.frames.push_reserved(frame);
    tokenizer.events.push_reserved(first);
    tokenizer.events.push_reserved(second);
    Ok(())
}

/// Adds a line from a point up to where the tokenizer is.
#[inline(always)]
fn whole_added(tokenizer: &mut Tokenizer, from: Point) -> Result<(), Message>
    requires { IsPlaced (world tokenizer.old).setting.bytes from }
    ensures world { OnOk result (world tokenizer.new ≡ whole_added from (world tokenizer.old)) }
    ensures full { is_err result ≡ true → IsShort tokenizer.new }
{
    let (first, second) = opening(tokenizer.flags.leaf, from);
    let third = Event {
        kind: Kind::Exit,
        name: second.name,
        point: tokenizer.point,
        link: None,
    };
    let fourth = Event {
        kind: Kind::Exit,
        name: first.name,
        point: tokenizer.point,
        link: None,
    };
    if tokenizer.events.reserve(4).is_err() {
        return Err(Message);
    }
    tokenizer.events.push_reserved(first);
    tokenizer.events.push_reserved(second);
    tokenizer.events.push_reserved(third);
    tokenizer.events.push_reserved(fourth);
    Ok(())
}

/// A further line that is content as a whole: it is taken at once, and ends. An attempt begins only where the line may
/// continue after what may be read; then the point stays where that ends, so that nothing is seen twice.
#[inline(never)]
fn whole(tokenizer: &mut Tokenizer) -> State
    requires at { IsAt NeedsNothing (StateName.Document DocumentState.FlowInside) (world tokenizer.old) }
    requires whole { IsWhole (world tokenizer.old) }
    ensures { IsFlowRun (StateName.Document DocumentState.FlowInside) (world tokenizer.old) result tokenizer.new }
{
    settle(tokenizer);
    let from = tokenizer.point;
    tokenizer.see_line();
    if tokenizer.see_or_wait(false) {
        or_error!(whole_tried(tokenizer, from));
        return State::Next(StateName::RawFlow(RawState::ContentChunk));
    }
    or_error!(whole_added(tokenizer, from));
    line_end(tokenizer)
}

/// In a leaf that is open: a further line of a fence that is not content as a whole is taken state by state.
#[inline(always)]
fn by_states(tokenizer: &mut Tokenizer) -> State
    requires { IsAt NeedsNothing (StateName.Document DocumentState.FlowInside) (world tokenizer.old) }
    ensures { IsFlowRun (StateName.Document DocumentState.FlowInside) (world tokenizer.old) result tokenizer.new }
{
    let to = document::flow_inside(tokenizer);
    if is_further(to) {
        return further(tokenizer);
    }
    to
}

/// After all containers of a line, where a leaf is open: a further line of a fence is taken at once.
#[inline(always)]
pub fn inside(tokenizer: &mut Tokenizer) -> State
    requires { IsAt NeedsNothing (StateName.Document DocumentState.FlowInside) (world tokenizer.old) }
    ensures { IsFlowRun (StateName.Document DocumentState.FlowInside) (world tokenizer.old) result tokenizer.new }
{
    if is_whole(tokenizer) {
        whole(tokenizer)
    } else {
        by_states(tokenizer)
    }
}
