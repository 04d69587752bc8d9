// Tables of states, and the loop that feeds them.
//
// A table says which function each state name represents. `push` reads a part of the text and answers the state that
// waits for more; `flush` reads the end, and runs the resolvers that were registered.
ghost use Rattle.std.specs.Prelude.{Bool, ◌≡◌, ◌≢◌, ◌<◌, ◌≤◌, [], length, IfOk, IfNone, IfSome, OnOk, false, true};
ghost use Rattle.std.specs.Option.{option_map};
ghost use Rattle.md_engine.specs.Found.{found_in};
ghost use Rattle.md_engine.specs.Going.{SeesOn};
ghost use Rattle.md_engine.specs.Run.{Flushes, IsEnd, IsStopped, Leaves, Resolution, ResolvedIf, Runs};
ghost use Rattle.md_engine.specs.Run.{IsWaiting, RunsFrom, RunsHere, Step, plain};
ghost use Rattle.md_engine.specs.Scheme.{Scheme, valid, work};
ghost use Rattle.md_engine.specs.Staying.{StaysOn};
ghost use Rattle.md_engine.specs.World.{looks, reads_to, world};
ghost use Rattle.md_engine.specs.declared.state.State.{State};

use crate::message::Message;
use crate::resolve::Name as ResolveName;
use crate::state::{Name as StateName, State};
use crate::stay::Stay;
use crate::subtokenize::Subresult;
use crate::tokenizer::Tokenizer;

/// The states of one level: of documents, of flow, or of content.
pub trait Table {
    /// What a call of each state may do.
    ghost step: { Step };

    /// What each state needs, and how far it is from taking what is here.
    ghost scheme: { Scheme };

    /// What each resolver may do.
    ghost resolves: { Resolution };

    /// Calls the state of this name, at what is at the point, and maybe some that follow it, one after another.
    fn call(tokenizer: &mut Tokenizer, name: StateName) -> State
        requires current { (world tokenizer.old).current ≡ looks (world tokenizer.old) }
        requires valid { valid scheme (world tokenizer.old) (State.Next name) }
        ensures runs { result ≢ State.Error →
            RunsHere step name (world tokenizer.old) result (world tokenizer.new) }
        ensures valid { result ≢ State.Error → valid scheme (world tokenizer.new) (plain result) }
        ensures falls { result ≢ State.Error →
            work scheme (world tokenizer.new) (plain result) < work scheme (world tokenizer.old) (State.Next name) }
        ensures setting { result ≢ State.Error → (world tokenizer.new).setting ≡ (world tokenizer.old).setting }
        ensures sees { result ≢ State.Error → SeesOn result (world tokenizer.old) (world tokenizer.new) };

    /// What the state of this name only takes and counts, to stay where it is: much is taken at once.
    fn takes_at_once(name: StateName) -> Option<Stay>
        ensures { IfSome result (λ stay. StaysOn step scheme name stay) };

    /// Runs the resolver of this name, when no attempt is left. After an `Err` the parse has failed.
    fn resolve(tokenizer: &mut Tokenizer, name: ResolveName) -> Result<Option<Subresult>, Message>
        requires { (world tokenizer.old).frames ≡ [] }
        ensures frames { OnOk result ((world tokenizer.new).frames ≡ []) }
        ensures resolves { IfOk result
            (λ found. resolves name (world tokenizer.old) (option_map found_in found) (world tokenizer.new)) };
}

/// Leaves the innermost attempt, if there is one.
pub fn leave(tokenizer: &mut Tokenizer, state: State) -> Option<State>
    requires { IsEnd state }
    ensures leaves { IfSome result (λ next. Leaves state (world tokenizer.old) next (world tokenizer.new)) }
    ensures setting { (world tokenizer.new).setting ≡ (world tokenizer.old).setting }
    ensures none { IfNone result ((world tokenizer.old).frames ≡ []) }
    ensures same { IfNone result (world tokenizer.new ≡ world tokenizer.old) }
{
    let Some(frame) = tokenizer.innermost() else {
        return None;
    };
    match state {
        State::Ok => {
            if frame.is_check {
                tokenizer.restore(frame);
            }
            Some(frame.ok)
        }
        _ => {
            tokenizer.restore(frame);
            Some(frame.nok)
        }
    }
}

/// Takes what a state that has taken something continues to take, where it stays.
fn stay<T: Table>(tokenizer: &mut Tokenizer, state: State)
    requires { valid T.scheme (world tokenizer.old) (plain state) }
    ensures runs { (is_end : Bool) → Runs T.step is_end state (world tokenizer.old) state (world tokenizer.new) }
    ensures valid { valid T.scheme (world tokenizer.new) (plain state) }
    ensures falls { work T.scheme (world tokenizer.new) (plain state) ≤
        work T.scheme (world tokenizer.old) (plain state) }
    ensures setting { (world tokenizer.new).setting ≡ (world tokenizer.old).setting }
{
    let State::Next(name) = state else {
        return;
    };
    let Some(stay) = T::takes_at_once(name) else {
        return;
    };
    match stay {
        Stay::Line => tokenizer.see_line(),
        Stay::Word => tokenizer.see_word(),
        Stay::Plain => tokenizer.see_plain(),
        Stay::White => tokenizer.see_white(),
        _ => tokenizer.see_each(stay),
    }
}

/// Calls the state of this name, and then each that stays at what is here, which is seen already.
#[inline(always)]
fn call_here<T: Table>(tokenizer: &mut Tokenizer, first: StateName) -> State
    requires current { (world tokenizer.old).current ≡ looks (world tokenizer.old) }
    requires valid { valid T.scheme (world tokenizer.old) (State.Next first) }
    ensures runs { result ≢ State.Error →
        RunsHere T.step first (world tokenizer.old) result (world tokenizer.new) }
    ensures valid { result ≢ State.Error → valid T.scheme (world tokenizer.new) (plain result) }
    ensures falls { result ≢ State.Error →
        work T.scheme (world tokenizer.new) (plain result) < work T.scheme (world tokenizer.old) (State.Next first) }
    ensures setting { result ≢ State.Error → (world tokenizer.new).setting ≡ (world tokenizer.old).setting }
{
    let mut name = first;
    loop {
        match T::call(tokenizer, name) {
            State::Retry(next) => name = next,
            state => return state,
        }
    }
}

/// Calls states one after another, from that of this name, which sees what is here, until one ends or waits.
#[inline(always)]
fn call_on<T: Table>(tokenizer: &mut Tokenizer, first: StateName, is_end: bool) -> State
    requires current { (world tokenizer.old).current ≡ looks (world tokenizer.old) }
    requires valid { valid T.scheme (world tokenizer.old) (State.Next first) }
    ensures runs { result ≢ State.Error →
        RunsFrom T.step is_end first (world tokenizer.old) result (world tokenizer.new) }
    ensures waits { IsWaiting is_end result (world tokenizer.new) }
    ensures valid { result ≢ State.Error → valid T.scheme (world tokenizer.new) (plain result) }
    ensures falls { result ≢ State.Error →
        work T.scheme (world tokenizer.new) (plain result) < work T.scheme (world tokenizer.old) (State.Next first) }
    ensures setting { result ≢ State.Error → (world tokenizer.new).setting ≡ (world tokenizer.old).setting }
{
    let mut name = first;
    loop {
        let state = call_here::<T>(tokenizer, name);
        let State::Next(next) = state else {
            return state;
        };
        stay::<T>(tokenizer, state);
        if tokenizer.see_or_wait(is_end) {
            return state;
        }
        name = next;
    }
}

/// Goes from state to state until one waits for more of the text, or the last has ended.
fn run<T: Table>(tokenizer: &mut Tokenizer, start: State, is_end: bool) -> State
    requires { valid T.scheme (world tokenizer.old) (plain start) }
    ensures runs { result ≢ State.Error → Runs T.step is_end start (world tokenizer.old) result (world tokenizer.new) }
    ensures stops { IsStopped is_end result (world tokenizer.new) }
    ensures valid { result ≢ State.Error → valid T.scheme (world tokenizer.new) (plain result) }
    ensures setting { result ≢ State.Error → (world tokenizer.new).setting ≡ (world tokenizer.old).setting }
{
    let mut state = start;
    loop {
        state = match state {
            State::Error => return State::Error,
            State::Ok | State::Nok => match leave(tokenizer, state) {
                None => return state,
                Some(next) => next,
            },
            State::Next(name) | State::Retry(name) => {
                if tokenizer.see_or_wait(is_end) {
                    return state;
                }
                match call_on::<T>(tokenizer, name, is_end) {
                    State::Error => return State::Error,
                    State::Next(waiting) => return State::Next(waiting),
                    next => next,
                }
            }
        };
    }
}

/// Feeds the text up to the index `to`, and answers the state that waits for more.
///
/// A tokenizer that has answered `State::Error` is only dropped.
pub fn push<T: Table>(tokenizer: &mut Tokenizer, to: usize, state: State) -> State
    requires within { to ≤ length (world tokenizer.old).setting.bytes }
    requires valid { valid T.scheme (reads_to (world tokenizer.old) to) (plain state) }
    ensures runs { result ≢ State.Error →
        Runs T.step false state (reads_to (world tokenizer.old) to) result (world tokenizer.new) }
    ensures stops { IsStopped false result (world tokenizer.new) }
    ensures valid { result ≢ State.Error → valid T.scheme (world tokenizer.new) (plain result) }
    ensures setting { result ≢ State.Error →
        (world tokenizer.new).setting ≡ (reads_to (world tokenizer.old) to).setting }
{
    tokenizer.read_to(to);
    run::<T>(tokenizer, state, false)
}

/// Feeds the end of the text, and then, if `resolve`, runs the resolvers that were registered, in their order.
///
/// A tokenizer after an `Err` is only dropped.
pub fn flush<T: Table>(
    tokenizer: &mut Tokenizer,
    state: State,
    resolve: bool,
) -> Result<Subresult, Message>
    requires { valid T.scheme (world tokenizer.old) (plain state) }
    ensures { IfOk result
        (λ found. Flushes T.step T.resolves state (world tokenizer.old) resolve (found_in found)
        (world tokenizer.new)) }
{
    match run::<T>(tokenizer, state, true) {
        State::Error => Err(Message),
        _ => resolve_all::<T>(tokenizer, resolve),
    }
}

/// Runs the resolvers that were registered, if asked.
fn resolve_all<T: Table>(tokenizer: &mut Tokenizer, resolve: bool) -> Result<Subresult, Message>
    requires { (world tokenizer.old).frames ≡ [] }
    ensures { IfOk result
        (λ found. ResolvedIf T.resolves resolve (world tokenizer.old) (found_in found) (world tokenizer.new)) }
{
    let alloc = tokenizer.alloc;
    let mut found = Subresult {
        done: false,
        gfm_footnote_definitions: Vec::new(alloc),
        definitions: Vec::new(alloc),
    };
    if resolve {
        let names = tokenizer.take_resolvers();
        for name in &names {
            let more = T::resolve(tokenizer, *name)?;
            found.append(more)?;
        }
    }
    Ok(found)
}
