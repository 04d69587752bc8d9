// Lines of HTML that are taken in one call.
//
// The states of HTML are called one after the other, up to one that refuses, or that may stay: the table takes what
// such a one takes. What is left of a line is taken at once, and the line ends. Each function is a run of the states
// (`IsFlowRun`), so the pages of the states can be read without this one.

ghost use Rattle.std.specs.Prelude.{◌≡◌, IfSome, None, true};
ghost use Rattle.md_engine.specs.Scheme.{valid};
ghost use Rattle.md_engine.specs.World.{looks, world};
ghost use Rattle.md_engine.specs.declared.state.Name.{Name as StateName};
ghost use Rattle.md_engine.specs.declared.state.State.{State};
ghost use Rattle.md_engine.specs.declared.state.html_flow.State.{State as HtmlState};
ghost use Rattle.md_at_once.specs.AtOnce.{IsFlowRun, IsRunInLine};
ghost use Rattle.md_literal.specs.Html.{HtmlNeeds};
ghost use Rattle.md_registry.specs.States.{flow_table_scheme};
ghost use Rattle.md_events.specs.Transition.{IsAt};
ghost use Rattle.md_tables.specs.GfmTable.{AnswersWith};

use crate::line_ends::end;
use md_engine::state::html_flow::State as HtmlState;
use md_engine::state::{Name as StateName, State};
use md_engine::tokenizer::Tokenizer;
use md_leaves::blank_line;
use md_literal::html_flow;

/// The state of HTML of this name, if it is one.
#[inline(always)]
fn html_state(name: StateName) -> Option<HtmlState>
    ensures { IfSome result (λ state. name ≡ StateName.HtmlFlow state) }
{
    match name {
        StateName::HtmlFlow(state) => Some(state),
        _ => None,
    }
}

/// Whether a further line that may be blank is next.
#[inline(always)]
fn is_open(state: State) -> bool
    ensures { result ≡ true → state ≡ State.Retry (StateName.HtmlFlow HtmlState.BlankLineBefore) }
{
    match state {
        State::Retry(StateName::HtmlFlow(HtmlState::BlankLineBefore)) => true,
        _ => false,
    }
}

/// Whether the rest of a line is next.
#[inline(always)]
fn is_rest(state: State) -> bool
    ensures { result ≡ true → state ≡ State.Retry (StateName.HtmlFlow HtmlState.ContinuationClose) }
{
    match state {
        State::Retry(StateName::HtmlFlow(HtmlState::ContinuationClose)) => true,
        _ => false,
    }
}

/// Whether the end of a line is next.
#[inline(always)]
fn is_over(state: State) -> bool
    ensures { result ≡ true → state ≡ State.Retry (StateName.HtmlFlow HtmlState.ContinuationAfter) }
{
    match state {
        State::Retry(StateName::HtmlFlow(HtmlState::ContinuationAfter)) => true,
        _ => false,
    }
}

/// In a line of the last two kinds, or after an end: the rest of the line is taken at once.
#[inline(always)]
fn rest(tokenizer: &mut Tokenizer) -> State
    requires { IsAt HtmlNeeds (StateName.HtmlFlow HtmlState.ContinuationClose) (world tokenizer.old) }
    ensures { IsRunInLine (StateName.HtmlFlow HtmlState.ContinuationClose) (world tokenizer.old) result tokenizer.new }
{
    if blank_line::ends_line(tokenizer.current) {
        return html_flow::continuation_close(tokenizer);
    }
    tokenizer.see_line();
    if tokenizer.see_or_wait(false) {
        return State::Next(StateName::HtmlFlow(HtmlState::ContinuationClose));
    }
    html_flow::continuation_close(tokenizer)
}

/// The same, and the line is done.
#[inline(always)]
fn rest_done(tokenizer: &mut Tokenizer) -> State
    requires { IsAt HtmlNeeds (StateName.HtmlFlow HtmlState.ContinuationClose) (world tokenizer.old) }
    ensures { IsRunInLine (StateName.HtmlFlow HtmlState.ContinuationClose) (world tokenizer.old) result tokenizer.new }
{
    let to = rest(tokenizer);
    if is_over(to) {
        return html_flow::continuation_after(tokenizer);
    }
    to
}

/// In a further line that may be blank: where no whitespace is here, the line is taken at once.
#[inline(always)]
fn further_inside(tokenizer: &mut Tokenizer) -> State
    requires { IsAt HtmlNeeds (StateName.HtmlFlow HtmlState.BlankLineBefore) (world tokenizer.old) }
    ensures { IsRunInLine (StateName.HtmlFlow HtmlState.BlankLineBefore) (world tokenizer.old) result tokenizer.new }
{
    let to = html_flow::blank_line_before(tokenizer);
    if is_rest(to) {
        return rest_done(tokenizer);
    }
    to
}

/// Before a further line: one of the last two kinds is taken at once, where no whitespace is here.
#[inline(always)]
fn further(tokenizer: &mut Tokenizer) -> State
    requires { IsAt HtmlNeeds (StateName.HtmlFlow HtmlState.ContinuationStart) (world tokenizer.old) }
    ensures { IsRunInLine (StateName.HtmlFlow HtmlState.ContinuationStart) (world tokenizer.old) result tokenizer.new }
{
    let to = html_flow::continuation_start(tokenizer);
    if is_open(to) {
        return further_inside(tokenizer);
    }
    to
}

/// Calls a state of HTML; the rest of a line is taken at once, and so is a further line.
#[inline(always)]
fn call_state(tokenizer: &mut Tokenizer, state: HtmlState) -> State
    requires current { (world tokenizer.old).current ≡ looks (world tokenizer.old) }
    requires valid { valid flow_table_scheme (world tokenizer.old) (State.Next (StateName.HtmlFlow state)) }
    ensures { IsRunInLine (StateName.HtmlFlow state) (world tokenizer.old) result tokenizer.new }
{
    match state {
        HtmlState::ContinuationClose => rest_done(tokenizer),
        HtmlState::ContinuationStart => further(tokenizer),
        _ => html_flow::call(tokenizer, state),
    }
}

/// Whether much may be taken at once where this state continues.
#[inline(always)]
fn may_stay(state: HtmlState) -> bool {
    matches!(
        state,
        HtmlState::CompleteAttributeValueQuoted | HtmlState::Continuation
    )
}

/// The state of HTML that is called at once after this answer, if there is one: where it stays at what is here, or has
/// taken something and more is after it, which is seen then.
#[inline(always)]
fn next(tokenizer: &mut Tokenizer, to: State) -> Option<HtmlState>
    ensures none { result ≡ None → world tokenizer.new ≡ world tokenizer.old }
    ensures some { IfSome result
        (λ next. AnswersWith to (StateName.HtmlFlow next) (world tokenizer.old) (world tokenizer.new)) }
    ensures error { to ≡ State.Error → tokenizer.new ≡ tokenizer.old }
{
    match to {
        State::Retry(name) => html_state(name),
        State::Next(name) => {
            let Some(next) = html_state(name) else {
                return None;
            };
            if may_stay(next) {
                return None;
            }
            if tokenizer.see_or_wait(false) {
                return None;
            }
            Some(next)
        }
        _ => None,
    }
}

/// Calls a state of HTML, and those that follow it, up to one that may stay or is of no HTML; a line that it accepts
/// ends.
#[inline(never)]
pub fn call(tokenizer: &mut Tokenizer, first: HtmlState) -> State
    requires current { (world tokenizer.old).current ≡ looks (world tokenizer.old) }
    requires valid { valid flow_table_scheme (world tokenizer.old) (State.Next (StateName.HtmlFlow first)) }
    ensures { IsFlowRun (StateName.HtmlFlow first) (world tokenizer.old) result tokenizer.new }
{
    let mut state = first;
    loop {
        let to = call_state(tokenizer, state);
        let Some(next) = next(tokenizer, to) else {
            return end(tokenizer, to);
        };
        state = next;
    }
}
