// Flow: the leaf blocks of a document or a container (CommonMark 4).
//
//     flow ::= blank_line | code_indented | raw_flow | html_flow | heading_atx | heading_setext
//            | thematic_break | gfm_table | content
//
// The first byte of the rest of a line, after the prefixes of its containers, chooses the leaves that are tried
// (`choices::row`); after whitespace all are tried, in this order. Each state before a leaf tries that one, and passes
// it without an attempt where it may not begin by what is first after whitespace. A line of an open leaf of several
// lines is read before (`document::flow_inside`). The line then ends in the document.

ghost use Rattle.std.specs.Prelude.{◌≡◌, ◌≢◌, List, false, true, ℕ};
ghost use Rattle.md_engine.specs.declared.configuration.ParseOptions.{ParseOptions};
ghost use Rattle.md_meaning.specs.Rest.{is_white};
ghost use Rattle.md_registry.specs.Registry.{IsOutsideEnd, IsOutsideRow};
ghost use Rattle.md_engine.specs.Full.{IsFull, OnError};
ghost use Rattle.md_engine.specs.World.{world};
ghost use Rattle.md_engine.specs.declared.state.Name.{Name as StateName};
ghost use Rattle.md_engine.specs.declared.state.State.{State};
ghost use Rattle.md_engine.specs.declared.state.flow.State.{State as FlowState};
ghost use Rattle.md_registry.specs.FlowRule.{FlowMeans, IsFlowState, IsSureFlowState};
ghost use Rattle.md_registry.specs.Flow.{after_transition};
ghost use Rattle.md_events.specs.Transition.{IsAt, NeedsNothing};
ghost use Rattle.md_registry.specs.Flow.{leaf_transition, trial_code};
ghost use Rattle.md_registry.specs.Registry.{tried_at};
ghost use Rattle.md_flow.specs.Calls.{TriedLine};

use md_engine::class::is_white;
use md_engine::or_error;
use md_engine::state::blank_line::State as BlankState;
use md_engine::state::content::State as ContentState;
use md_engine::state::document::State as DocumentState;
use md_engine::state::flow::State as FlowState;
use md_engine::state::{Name as StateName, State};
use md_engine::tokenizer::{HeldLeaf, Tokenizer};
use md_events::space_or_tab::look_after_white;
use md_leaves::blank_line;
use md_registry::choices::{self, FirstLeaf};

/// At the start of the rest of a line: its first byte chooses what is tried (`choices::row`); a virtual space is a
/// space. What takes the line is what the line definition says (`line`).
///
/// ```markdown
/// > | a
///     ^
/// ```
#[tactic(auto, using(md_registry::proofs::FlowSteps::flow_rule, crate::proofs::LineRule::Calls::tried_line))]
pub fn start(tokenizer: &mut Tokenizer) -> State
    requires { IsAt NeedsNothing (StateName.Flow FlowState.Start) (world tokenizer.old) }
    ensures state { IsFlowState FlowState.Start (world tokenizer.old) result tokenizer.new }
    ensures line { result ≢ State.Error → TriedLine (world tokenizer.old) result (world tokenizer.new) }
    ensures outside { (options : ParseOptions) (column byte : ℕ) (bytes : List ℕ) → is_white byte ≡ false →
        IsOutsideRow options column byte bytes }
    ensures ended { (options : ParseOptions) (column : ℕ) → IsOutsideEnd options column }
{
    match tokenizer.current {
        None => State::Retry(StateName::Flow(FlowState::BlankLineBefore)),
        Some(byte) => {
            if is_white(byte) || byte == b'\n' {
                return State::Retry(StateName::Flow(FlowState::BlankLineBefore));
            }
            let first = choices::row(byte);
            try_start(tokenizer, first)
        }
    }
}

/// Before a blank line.
///
/// ```markdown
/// > |
///     ^
/// ```
#[tactic(auto, using(md_registry::proofs::FlowSteps::flow_rule))]
pub fn blank_line_before(tokenizer: &mut Tokenizer) -> State
    requires { IsAt NeedsNothing (StateName.Flow FlowState.BlankLineBefore) (world tokenizer.old) }
    ensures { IsFlowState FlowState.BlankLineBefore (world tokenizer.old) result tokenizer.new }
{
    if blank_line::ends_line(tokenizer.current) {
        return State::Retry(StateName::Flow(FlowState::BlankLineAfter));
    }
    if !blank_line::may_begin(look_after_white(tokenizer)) {
        return State::Retry(StateName::Flow(choices::first_trial()));
    }
    or_error!(tokenizer.attempt(
        State::Next(StateName::Flow(FlowState::BlankLineAfter)),
        State::Next(StateName::Flow(choices::first_trial()))
    ));
    State::Retry(StateName::BlankLine(BlankState::Start))
}

/// Before indented code: where no whitespace is none begins.
///
/// ```markdown
/// > |     a
///     ^
/// ```
#[tactic(auto, using(md_registry::proofs::FlowSteps::flow_rule))]
pub fn before_code_indented(tokenizer: &mut Tokenizer) -> State
    requires { IsAt NeedsNothing (StateName.Flow FlowState.BeforeCodeIndented) (world tokenizer.old) }
    ensures { IsFlowState FlowState.BeforeCodeIndented (world tokenizer.old) result tokenizer.new }
{
    try_leaf(tokenizer, FlowState::BeforeCodeIndented)
}

/// Before fenced code or math.
///
/// ```markdown
/// > | ~~~js
///     ^
///   | a
///   | ~~~
/// ```
#[tactic(auto, using(md_registry::proofs::FlowSteps::flow_rule))]
pub fn before_raw(tokenizer: &mut Tokenizer) -> State
    requires { IsAt NeedsNothing (StateName.Flow FlowState.BeforeRaw) (world tokenizer.old) }
    ensures { IsFlowState FlowState.BeforeRaw (world tokenizer.old) result tokenizer.new }
{
    try_leaf(tokenizer, FlowState::BeforeRaw)
}

/// Before HTML.
///
/// ```markdown
/// > | <div>
///     ^
/// ```
#[tactic(auto, using(md_registry::proofs::FlowSteps::flow_rule))]
pub fn before_html(tokenizer: &mut Tokenizer) -> State
    requires { IsAt NeedsNothing (StateName.Flow FlowState.BeforeHtml) (world tokenizer.old) }
    ensures { IsFlowState FlowState.BeforeHtml (world tokenizer.old) result tokenizer.new }
{
    try_leaf(tokenizer, FlowState::BeforeHtml)
}

/// Before an ATX heading.
///
/// ```markdown
/// > | # a
///     ^
/// ```
#[tactic(auto, using(md_registry::proofs::FlowSteps::flow_rule))]
pub fn before_heading_atx(tokenizer: &mut Tokenizer) -> State
    requires { IsAt NeedsNothing (StateName.Flow FlowState.BeforeHeadingAtx) (world tokenizer.old) }
    ensures { IsFlowState FlowState.BeforeHeadingAtx (world tokenizer.old) result tokenizer.new }
{
    try_leaf(tokenizer, FlowState::BeforeHeadingAtx)
}

/// Before the underline of a setext heading.
///
/// ```markdown
///   | a
/// > | =
///     ^
/// ```
#[tactic(auto, using(md_registry::proofs::FlowSteps::flow_rule))]
pub fn before_heading_setext(tokenizer: &mut Tokenizer) -> State
    requires { IsAt NeedsNothing (StateName.Flow FlowState.BeforeHeadingSetext) (world tokenizer.old) }
    ensures { IsFlowState FlowState.BeforeHeadingSetext (world tokenizer.old) result tokenizer.new }
{
    try_leaf(tokenizer, FlowState::BeforeHeadingSetext)
}

/// Before a thematic break.
///
/// ```markdown
/// > | ***
///     ^
/// ```
#[tactic(auto, using(md_registry::proofs::FlowSteps::flow_rule))]
pub fn before_thematic_break(tokenizer: &mut Tokenizer) -> State
    requires { IsAt NeedsNothing (StateName.Flow FlowState.BeforeThematicBreak) (world tokenizer.old) }
    ensures { IsFlowState FlowState.BeforeThematicBreak (world tokenizer.old) result tokenizer.new }
{
    try_leaf(tokenizer, FlowState::BeforeThematicBreak)
}

/// Before a line of a table: a delimiter row after text, or a row of the body.
///
/// ```markdown
///   | | a |
/// > | | - |
///     ^
/// > | | b |
///     ^
/// ```
#[tactic(auto, using(md_registry::proofs::FlowSteps::flow_rule))]
pub fn before_gfm_table(tokenizer: &mut Tokenizer) -> State
    requires { IsAt NeedsNothing (StateName.Flow FlowState.BeforeGfmTable) (world tokenizer.old) }
    ensures { IsFlowState FlowState.BeforeGfmTable (world tokenizer.old) result tokenizer.new }
{
    try_leaf(tokenizer, FlowState::BeforeGfmTable)
}

/// Tries the leaf at a state of flow: where it may not begin, the next one follows at once.
#[inline(always)]
fn try_leaf(tokenizer: &mut Tokenizer, state: FlowState) -> State
    ensures to { result ≢ State.Error → result ≡ (leaf_transition (tried_at state) (world tokenizer.old)).to }
    ensures world { result ≢ State.Error →
        world tokenizer.new ≡ (leaf_transition (tried_at state) (world tokenizer.old)).world }
    ensures full { OnError result (IsFull tokenizer.new) }
{
    let Some(start) = choices::leaf_start(state) else {
        return State::Nok;
    };
    let next = choices::next_leaf(state);
    if !choices::leaf_may_begin(tokenizer, state) {
        return State::Retry(StateName::Flow(next));
    }
    let end = choices::leaf_end(state);
    try_start(tokenizer, FirstLeaf { start, end, next })
}

/// Tries a leaf by its first state: flow continues after its line, or before the next leaf where it refuses.
#[inline(always)]
fn try_start(tokenizer: &mut Tokenizer, first: FirstLeaf) -> State
    ensures to { result ≢ State.Error →
        result ≡
        (trial_code first.start (StateName.Flow first.end) (StateName.Flow first.next) (world tokenizer.old) true).to }
    ensures world { result ≢ State.Error →
        world tokenizer.new ≡
        (trial_code first.start (StateName.Flow first.end) (StateName.Flow first.next) (world tokenizer.old) true).world }
    ensures full { OnError result (IsFull tokenizer.new) }
{
    or_error!(tokenizer.attempt(
        State::Next(StateName::Flow(first.end)),
        State::Next(StateName::Flow(first.next))
    ));
    State::Retry(first.start)
}

/// Before content.
///
/// ```markdown
/// > | a
///     ^
/// ```
#[tactic(auto, using(md_registry::proofs::FlowSteps::flow_rule))]
pub fn before_content(tokenizer: &mut Tokenizer) -> State
    requires { IsAt NeedsNothing (StateName.Flow FlowState.BeforeContent) (world tokenizer.old) }
    ensures { IsFlowState FlowState.BeforeContent (world tokenizer.old) result tokenizer.new }
{
    or_error!(tokenizer.attempt(State::Next(StateName::Flow(FlowState::After)), State::Nok));
    State::Retry(StateName::Content(ContentState::ChunkStart))
}

/// After a blank line, at its ending or the end of the text.
///
/// ```markdown
/// > |
///     ^
/// ```
#[tactic(auto, using(md_registry::proofs::FlowSteps::flow_rule))]
pub fn blank_line_after(tokenizer: &mut Tokenizer) -> State
    requires { IsAt NeedsNothing (StateName.Flow FlowState.BlankLineAfter) (world tokenizer.old) }
    ensures { IsSureFlowState FlowState.BlankLineAfter (world tokenizer.old) result tokenizer.new }
{
    tokenizer.flags.blank = true;
    leaf_after(tokenizer)
}

/// After a leaf on one line, at its ending or the end of the text: no leaf is open.
///
/// ```markdown
/// > | ***
///        ^
/// ```
#[tactic(auto, using(md_registry::proofs::FlowSteps::flow_rule))]
pub fn leaf_after(tokenizer: &mut Tokenizer) -> State
    requires { IsAt NeedsNothing (StateName.Flow FlowState.LeafAfter) (world tokenizer.old) }
    ensures { IsSureFlowState FlowState.LeafAfter (world tokenizer.old) result tokenizer.new }
{
    tokenizer.flags.leaf = HeldLeaf::None;
    State::Retry(StateName::Document(DocumentState::FlowEnd))
}

/// After a line of text, at its ending or the end of the text.
///
/// ```markdown
/// > | a
///      ^
/// ```
#[tactic(auto, using(md_registry::proofs::FlowSteps::flow_rule))]
pub fn after(_tokenizer: &mut Tokenizer) -> State
    requires { IsAt NeedsNothing (StateName.Flow FlowState.After) (world _tokenizer.old) }
    ensures to { result ≡ (after_transition (world _tokenizer.old)).to }
    ensures world { world _tokenizer.new ≡ (after_transition (world _tokenizer.old)).world }
    ensures rule { FlowMeans FlowState.After (world _tokenizer.old) result (world _tokenizer.new) }
{
    State::Retry(StateName::Document(DocumentState::FlowEnd))
}

/// Calls a state of flow.
#[tactic(auto, using(md_registry::proofs::FlowSteps::flow_rule))]
pub fn call(tokenizer: &mut Tokenizer, state: FlowState) -> State
    requires { IsAt NeedsNothing (StateName.Flow state) (world tokenizer.old) }
    ensures { IsFlowState state (world tokenizer.old) result tokenizer.new }
{
    match state {
        FlowState::Start => start(tokenizer),
        FlowState::BlankLineBefore => blank_line_before(tokenizer),
        FlowState::BeforeCodeIndented => before_code_indented(tokenizer),
        FlowState::BeforeRaw => before_raw(tokenizer),
        FlowState::BeforeHtml => before_html(tokenizer),
        FlowState::BeforeHeadingAtx => before_heading_atx(tokenizer),
        FlowState::BeforeHeadingSetext => before_heading_setext(tokenizer),
        FlowState::BeforeThematicBreak => before_thematic_break(tokenizer),
        FlowState::BeforeGfmTable => before_gfm_table(tokenizer),
        FlowState::BeforeContent => before_content(tokenizer),
        FlowState::BlankLineAfter => blank_line_after(tokenizer),
        FlowState::LeafAfter => leaf_after(tokenizer),
        FlowState::After => after(tokenizer),
    }
}
