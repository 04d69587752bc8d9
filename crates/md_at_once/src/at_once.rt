// Lines, prefixes and leaves that take several states in one call.
//
// The states of the document, of flow and of constructs are called one after another. Where one look shows what several
// of them do (a prefix is taken as a whole, no container opens with a byte, a line is content), these functions do the
// same in one call; each has in its contract that it is a run of those states (`IsFlowRun`). A line of content is taken
// as a whole and ends in the same call; where its end can be read no attempt begins. The next line begins in it too.
// The pages of the states can be read without them.

ghost use Rattle.std.specs.Prelude.{OnOk, Some, false, is_err, length, true, ◌≡◌, ◌≤◌};
ghost use Rattle.std.specs.List.{All};
ghost use Rattle.md_engine.specs.Place.{IsPlaced};
ghost use Rattle.md_engine.specs.Scheme.{valid};
ghost use Rattle.md_engine.specs.World.{looks, world};
ghost use Rattle.md_engine.specs.declared.state.Name.{Name as StateName};
ghost use Rattle.md_engine.specs.declared.state.State.{State};
ghost use Rattle.md_engine.specs.declared.state.document.State.{State as DocumentState};
ghost use Rattle.md_at_once.specs.AtOnce.{EndsAtOnce, IsNoLabel, OpensNone, SeesAhead, IsVisible};
ghost use Rattle.md_at_once.specs.AtOnce.{IsFlowRun, IsRunInLine, IsShort, line_tried};
ghost use Rattle.md_registry.specs.AtOnce.{ContinuesAtOnce, asking_next, openers_passed};
ghost use Rattle.md_registry.specs.Flow.{existing_after_transition};
ghost use Rattle.md_registry.specs.LineFlags.{next_container};
ghost use Rattle.md_containers.specs.PlainBullet.{IsPlainBullet};
ghost use Rattle.md_registry.specs.Registry.{opener_front, openers};
ghost use Rattle.md_registry.specs.Flow.{leaf_end};
ghost use Rattle.md_registry.specs.States.{flow_table_scheme, is_flow_own};
ghost use Rattle.md_events.specs.Transition.{IsAt, NeedsNothing};
ghost use Rattle.md_engine.specs.declared.state.flow.State.{State as FlowState};
ghost use Rattle.md_engine.specs.declared.state.heading_atx.State.{State as HeadingState};
ghost use Rattle.md_engine.specs.declared.state.list_item.State.{State as ItemState};

use crate::line_ends::{end, leaf_end, line_end};
use crate::{fences, html_lines};
use md_containers::plain_item;
use md_content::content;
use md_engine::class::is_white;
use md_engine::event::Point;
use md_engine::message::Message;
use md_engine::or_error;
use md_engine::state::content::State as ContentState;
use md_engine::state::document::State as DocumentState;
use md_engine::state::flow::State as FlowState;
use md_engine::state::gfm_table::State as TableState;
use md_engine::state::heading_atx::State as HeadingState;
use md_engine::state::list_item::State as ItemState;
use md_engine::state::space_or_tab::State as WhiteState;
use md_engine::state::{Name as StateName, State};
use md_engine::tokenizer::{Container, Frame, Tokenizer};
use md_events::space_or_tab;
use md_flow::{constructs, document, flow};
use md_leaves::{blank_line, heading_atx};
use md_registry::choices;
use md_tables::row::{Row, place_of};
use md_tables::{gfm_table, row_words};

/// Whether the next container continues, with a prefix that can be taken at once.
fn continues_at_once(tokenizer: &mut Tokenizer) -> bool
    ensures proceeds { result ≡ true → ContinuesAtOnce (world tokenizer.old) }
    ensures same { world tokenizer.new ≡ world tokenizer.old }
{
    match document::next_container(tokenizer) {
        None => false,
        Some(container) => choices::has_plain_prefix(container, tokenizer),
    }
}

/// The next container is asked, if there is one.
fn ask_next(tokenizer: &mut Tokenizer)
    ensures { world tokenizer.new ≡ asking_next (world tokenizer.old) }
{
    match document::next_container(tokenizer) {
        None => {}
        Some(container) => document::ask(tokenizer, container),
    }
}

/// The container that was asked continues, and is held as it is after its prefix: as it was, unless it changes there.
#[inline(always)]
fn was_continued(tokenizer: &mut Tokenizer, changes: bool)
    requires current { (world tokenizer.old).current ≡ looks (world tokenizer.old) }
    requires kept { changes ≡ false →
        next_container (world tokenizer.old).flags ≡ Some (world tokenizer.old).flags.asked }
    ensures { world tokenizer.new ≡ (existing_after_transition (world tokenizer.old)).world }
{
    if changes {
        document::container_existing_after(tokenizer);
    } else {
        tokenizer.flags.continued += 1;
    }
}

/// Whether the further lines of a container begin with an indent, which is read by this state.
#[inline(always)]
fn reads_indent(state: StateName) -> bool
    ensures { result ≡ true → state ≡ StateName.ListItem ItemState.ContStart }
{
    match state {
        StateName::ListItem(ItemState::ContStart) => true,
        _ => false,
    }
}

/// Whether something else than whitespace is here, which does not end the line.
#[inline(always)]
fn is_visible(current: Option<u8>) -> bool
    ensures { result ≡ true → IsVisible current }
{
    match current {
        None => false,
        Some(byte) => !(is_white(byte) || byte == b'\n'),
    }
}

/// Whether the further lines of the next container begin with an indent, and none is here, on a line that is not blank.
#[inline(always)]
fn has_no_indent(tokenizer: &Tokenizer) -> bool
    ensures { result ≡ true → EndsAtOnce (world tokenizer.now) }
{
    match document::next_container(tokenizer) {
        None => false,
        Some(container) => {
            reads_indent(choices::continues_with(container.kind))
                && is_visible(tokenizer.current)
                && tokenizer.scratch.whitespace.max == 0
        }
    }
}

/// At the same place: goes at once over prefixes of containers that continue, as the states do one after another. Where
/// one ends for want of an indent, the first container that may open is next.
#[inline(always)]
pub fn containers_existing(tokenizer: &mut Tokenizer) -> State
    requires { IsAt NeedsNothing (StateName.Document DocumentState.ContainerExistingBefore) (world tokenizer.old) }
    ensures run { IsFlowRun (StateName.Document DocumentState.ContainerExistingBefore)
        (world tokenizer.old) result tokenizer.new }
    ensures opens { (name : StateName) → result ≡ State.Next name → SeesAhead (world tokenizer.new) }
{
    while continues_at_once(tokenizer) {
        ask_next(tokenizer);
        let changes = tokenizer.flags.asked.starts_blank;
        or_error!(choices::take_plain_prefix(tokenizer));
        was_continued(tokenizer, changes);
    }
    if has_no_indent(tokenizer) {
        ask_next(tokenizer);
        return State::Next(StateName::Document(choices::first_opener()));
    }
    document::container_existing_before(tokenizer)
}

/// Passes all containers that may open, where none does by what is here, as the states do one after another.
#[inline(always)]
pub fn pass_openers(tokenizer: &mut Tokenizer)
    ensures { world tokenizer.new ≡ openers_passed (world tokenizer.old) }
{
    document::ask(tokenizer, Container::new(choices::last_opener()));
    document::begin_line(tokenizer);
}

/// Before the first container that may open, where one opens with a prefix that can be taken at once: it opens, as by
/// the states that try one kind after another.
pub fn opens_at_once(tokenizer: &mut Tokenizer) -> State
    requires at { IsAt NeedsNothing (StateName.Document (opener_front openers)) (world tokenizer.old) }
    requires plain { IsPlainBullet (world tokenizer.old) }
    ensures { IsFlowRun (StateName.Document (opener_front openers)) (world tokenizer.old) result tokenizer.new }
{
    document::ask(tokenizer, Container::new(choices::plain_opener()));
    or_error!(plain_item::take_plain_bullet(tokenizer));
    document::container_new_after(tokenizer)
}

/// Begins an attempt at a line of content that has begun before, at this point, after so many events.
#[inline(never)]
#[tactic(auto, unfolding(md_engine::specs::Full::IsFullList))]
fn content_tried(tokenizer: &mut Tokenizer, from: Point, many: usize) -> Result<(), Message>
    requires placed { IsPlaced (world tokenizer.old).setting.bytes from }
    requires many { many ≤ length (world tokenizer.old).events }
    requires outer { All (λ frame. frame.events_len ≤ many) (world tokenizer.old).frames }
    ensures world { OnOk result (world tokenizer.new ≡ line_tried many from (world tokenizer.old)) }
    ensures full { is_err result ≡ true → IsShort tokenizer.new }
{
    if tokenizer.frames.reserve(1).is_err() {
        return Err(Message);
    }
    let frame = Frame {
        ok: State::Next(StateName::Flow(FlowState::After)),
        nok: State::Nok,
        is_check: false,
        events_len: many,
        point: from,
    };
    tokenizer.frames.push_reserved(frame);
    Ok(())
}

/// Before content: its line begins, is taken at once, and ends. An attempt begins only where the line may continue after
/// what may be read; then the point stays where that ends, so that nothing is seen twice.
#[inline(always)]
fn content_begins(tokenizer: &mut Tokenizer) -> State
    requires { IsAt NeedsNothing (StateName.Flow FlowState.BeforeContent) (world tokenizer.old) }
    ensures { IsFlowRun (StateName.Flow FlowState.BeforeContent) (world tokenizer.old) result tokenizer.new }
{
    if blank_line::ends_line(tokenizer.current) {
        return flow::before_content(tokenizer);
    }
    let from = tokenizer.point;
    let many = tokenizer.events.len();
    if let State::Error = content::chunk_start(tokenizer) {
        return State::Error;
    }
    tokenizer.see_line();
    if tokenizer.see_or_wait(false) {
        or_error!(content_tried(tokenizer, from, many));
        return State::Next(StateName::Content(ContentState::ChunkInside));
    }
    if let State::Error = content::chunk_inside(tokenizer) {
        return State::Error;
    }
    line_end(tokenizer)
}

/// At the start of an ATX heading: its line is taken in the same call where one space is after its opening sequence.
#[inline(always)]
pub fn heading_begins(tokenizer: &mut Tokenizer) -> State
    requires { IsAt NeedsNothing (StateName.HeadingAtx HeadingState.Start) (world tokenizer.old) }
    ensures { IsRunInLine (StateName.HeadingAtx HeadingState.Start) (world tokenizer.old) result tokenizer.new }
{
    match heading_atx::start(tokenizer) {
        State::Retry(StateName::HeadingAtx(HeadingState::Before)) => heading_atx::opening(
            tokenizer,
        ),
        state => state,
    }
}

/// Whether a blank line is tried next.
#[inline(always)]
fn may_be_blank(state: State) -> bool
    ensures { result ≡ true → state ≡ State.Retry (StateName.Flow FlowState.BlankLineBefore) }
{
    match state {
        State::Retry(StateName::Flow(FlowState::BlankLineBefore)) => true,
        _ => false,
    }
}

/// Whether an ATX heading is tried next.
#[inline(always)]
fn is_heading(state: State) -> bool
    ensures { result ≡ true → state ≡ State.Retry (StateName.HeadingAtx HeadingState.Start) }
{
    match state {
        State::Retry(StateName::HeadingAtx(HeadingState::Start)) => true,
        _ => false,
    }
}

/// At the start of the rest of a line: content begins at once where one look shows so, and a heading is taken with its
/// line.
#[inline(always)]
fn rest_begins(tokenizer: &mut Tokenizer) -> State
    requires { IsAt NeedsNothing (StateName.Flow FlowState.Start) (world tokenizer.old) }
    ensures { IsFlowRun (StateName.Flow FlowState.Start) (world tokenizer.old) result tokenizer.new }
{
    if choices::content_alone(tokenizer.flags.leaf, tokenizer.current) {
        return content_begins(tokenizer);
    }
    let state = flow::start(tokenizer);
    if may_be_blank(state) {
        return flow::blank_line_before(tokenizer);
    }
    if is_heading(state) {
        let to = heading_begins(tokenizer);
        return end(tokenizer, to);
    }
    state
}

/// Whether a bracket is here, and something else than a caret after it.
#[inline(always)]
fn is_no_label(tokenizer: &Tokenizer) -> bool
    ensures { result ≡ true → IsNoLabel (world tokenizer.now) }
{
    let next = tokenizer.point.index + 1;
    tokenizer.current == Some(b'[') && next < tokenizer.limit && tokenizer.bytes[next] != b'^'
}

/// Whether no container opens, by what is here or by the byte after it.
#[inline(always)]
fn opens_none(tokenizer: &Tokenizer) -> bool
    ensures { result ≡ true → OpensNone (world tokenizer.now) }
{
    choices::opens_none(tokenizer.current) || is_no_label(tokenizer)
}

/// Before the first container that may open: where none may by what is here, the leaf of the line is next; and one
/// opens at once whose prefix can be taken so.
#[inline(always)]
fn containers_new(tokenizer: &mut Tokenizer) -> State
    requires { IsAt NeedsNothing (StateName.Document (opener_front openers)) (world tokenizer.old) }
    ensures { IsFlowRun (StateName.Document (opener_front openers)) (world tokenizer.old) result tokenizer.new }
{
    if opens_none(tokenizer) {
        pass_openers(tokenizer);
        if choices::continues_inside(tokenizer.flags.leaf) {
            fences::inside(tokenizer)
        } else {
            rest_begins(tokenizer)
        }
    } else if choices::opens_plainly(tokenizer) {
        opens_at_once(tokenizer)
    } else {
        document::before_opener(tokenizer, choices::first_opener())
    }
}

/// After all containers of a line: where nothing is left of it, it ends at once, and else may be blank.
#[inline(always)]
fn after_containers(tokenizer: &mut Tokenizer) -> State
    requires { IsAt NeedsNothing (StateName.Document DocumentState.ContainersAfter) (world tokenizer.old) }
    ensures { IsFlowRun (StateName.Document DocumentState.ContainersAfter) (world tokenizer.old) result tokenizer.new }
{
    document::containers_after(tokenizer);
    if choices::continues_inside(tokenizer.flags.leaf) {
        fences::inside(tokenizer)
    } else if blank_line::ends_line(tokenizer.current) {
        flow::blank_line_after(tokenizer);
        document::flow_end(tokenizer)
    } else {
        rest_begins(tokenizer)
    }
}

/// At the begin of a line, or after a prefix: continues after the containers that continue.
#[inline(always)]
fn containers(tokenizer: &mut Tokenizer) -> State
    requires { IsAt NeedsNothing (StateName.Document DocumentState.ContainerExistingBefore) (world tokenizer.old) }
    ensures { IsFlowRun (StateName.Document DocumentState.ContainerExistingBefore)
        (world tokenizer.old) result tokenizer.new }
{
    match containers_existing(tokenizer) {
        State::Next(StateName::Document(DocumentState::ContainerNewBefore)) => {
            containers_new(tokenizer)
        }
        State::Retry(StateName::Document(DocumentState::ContainerNewBefore)) => {
            containers_new(tokenizer)
        }
        State::Retry(StateName::Document(DocumentState::ContainersAfter)) => {
            after_containers(tokenizer)
        }
        state => state,
    }
}

/// Whether a state waits for the begin of a line.
#[inline(always)]
fn awaits_line(state: State) -> bool
    ensures { result ≡ true → state ≡ State.Next (StateName.Document DocumentState.ContainerExistingBefore) }
{
    match state {
        State::Next(StateName::Document(DocumentState::ContainerExistingBefore)) => true,
        _ => false,
    }
}

/// At the begin of a line: continues at once with the lines after it, each of which ends where the next may be read.
#[inline(always)]
fn lines(tokenizer: &mut Tokenizer) -> State
    requires current { (world tokenizer.old).current ≡ looks (world tokenizer.old) }
    requires valid { valid flow_table_scheme (world tokenizer.old)
        (State.Next (StateName.Document DocumentState.ContainerExistingBefore)) }
    ensures { IsFlowRun (StateName.Document DocumentState.ContainerExistingBefore)
        (world tokenizer.old) result tokenizer.new }
{
    loop {
        let to = containers(tokenizer);
        if !awaits_line(to) {
            return to;
        }
        if tokenizer.see_or_wait(false) {
            return to;
        }
    }
}

/// Calls a state of the containers of a line; prefixes are taken at once, and so is what refuses the byte after them.
#[inline(always)]
pub fn call_document(tokenizer: &mut Tokenizer, state: DocumentState) -> State
    requires current { (world tokenizer.old).current ≡ looks (world tokenizer.old) }
    requires valid { valid flow_table_scheme (world tokenizer.old) (State.Next (StateName.Document state)) }
    ensures { IsFlowRun (StateName.Document state) (world tokenizer.old) result tokenizer.new }
{
    match state {
        DocumentState::ContainerExistingBefore => lines(tokenizer),
        DocumentState::ContainerNewBefore => containers_new(tokenizer),
        _ => document::call(tokenizer, state),
    }
}

/// Calls a state of flow; leaves that refuse the byte that is here are passed at once.
#[inline(always)]
pub fn call_flow(tokenizer: &mut Tokenizer, state: FlowState) -> State
    requires current { (world tokenizer.old).current ≡ looks (world tokenizer.old) }
    requires valid { valid flow_table_scheme (world tokenizer.old) (State.Next (StateName.Flow state)) }
    ensures { IsFlowRun (StateName.Flow state) (world tokenizer.old) result tokenizer.new }
{
    match state {
        FlowState::Start => rest_begins(tokenizer),
        FlowState::LeafAfter => leaf_end(tokenizer),
        FlowState::After => line_end(tokenizer),
        FlowState::BeforeContent => content_begins(tokenizer),
        _ => flow::call(tokenizer, state),
    }
}

/// Calls a state of whitespace; all of it is taken at once.
#[inline(always)]
pub fn call_white(tokenizer: &mut Tokenizer, state: WhiteState) -> State
    requires current { (world tokenizer.old).current ≡ looks (world tokenizer.old) }
    requires valid { valid flow_table_scheme (world tokenizer.old) (State.Next (StateName.SpaceOrTab state)) }
    ensures { IsRunInLine (StateName.SpaceOrTab state) (world tokenizer.old) result tokenizer.new }
{
    space_or_tab::call_at_once(tokenizer, state)
}

/// Calls a state of a heading; its text is taken at once.
#[inline(always)]
fn call_heading(tokenizer: &mut Tokenizer, state: HeadingState) -> State
    requires current { (world tokenizer.old).current ≡ looks (world tokenizer.old) }
    requires valid { valid flow_table_scheme (world tokenizer.old) (State.Next (StateName.HeadingAtx state)) }
    ensures { IsRunInLine (StateName.HeadingAtx state) (world tokenizer.old) result tokenizer.new }
{
    match state {
        HeadingState::AtBreak => heading_atx::text(tokenizer),
        HeadingState::SequenceOpen => heading_atx::opens(tokenizer),
        _ => heading_atx::call(tokenizer, state),
    }
}

/// Calls a state of a table, or takes parts of a row of its body at once.
#[inline(always)]
fn call_in_table(tokenizer: &mut Tokenizer, state: TableState) -> State
    requires current { (world tokenizer.old).current ≡ looks (world tokenizer.old) }
    requires valid { valid flow_table_scheme (world tokenizer.old) (State.Next (StateName.GfmTable state)) }
    ensures { IsRunInLine (StateName.GfmTable state) (world tokenizer.old) result tokenizer.new }
{
    match place_of(Row::Body, state) {
        Some(place) => row_words::call(tokenizer, Row::Body, place),
        None => gfm_table::call(tokenizer, state),
    }
}

/// Calls a state of a table, and those that follow it, up to one that may stay or is of no table.
#[inline(always)]
fn call_table(tokenizer: &mut Tokenizer, first: TableState) -> State
    requires current { (world tokenizer.old).current ≡ looks (world tokenizer.old) }
    requires valid { valid flow_table_scheme (world tokenizer.old) (State.Next (StateName.GfmTable first)) }
    ensures { IsRunInLine (StateName.GfmTable first) (world tokenizer.old) result tokenizer.new }
{
    let mut state = first;
    loop {
        let to = call_in_table(tokenizer, state);
        if let State::Error = to {
            return to;
        }
        let Some(next) = gfm_table::next(tokenizer, to) else {
            return to;
        };
        state = next;
    }
}

/// Calls a state of a construct, which may take several states in one call.
#[inline(always)]
fn call_construct(tokenizer: &mut Tokenizer, name: StateName) -> State
    requires current { (world tokenizer.old).current ≡ looks (world tokenizer.old) }
    requires valid { valid flow_table_scheme (world tokenizer.old) (State.Next name) }
    requires construct { is_flow_own name ≡ false }
    ensures { IsFlowRun name (world tokenizer.old) result tokenizer.new }
{
    match name {
        StateName::HeadingAtx(state) => call_heading(tokenizer, state),
        StateName::GfmTable(state) => call_table(tokenizer, state),
        StateName::HtmlFlow(state) => html_lines::call(tokenizer, state),
        _ => constructs::call(tokenizer, name),
    }
}

/// Calls a state of a construct; where the leaf of a line accepts it, the line ends in the same call.
#[inline(always)]
pub fn call_at_once(tokenizer: &mut Tokenizer, name: StateName) -> State
    requires current { (world tokenizer.old).current ≡ looks (world tokenizer.old) }
    requires valid { valid flow_table_scheme (world tokenizer.old) (State.Next name) }
    requires construct { is_flow_own name ≡ false }
    ensures { IsFlowRun name (world tokenizer.old) result tokenizer.new }
{
    let to = call_construct(tokenizer, name);
    end(tokenizer, to)
}
