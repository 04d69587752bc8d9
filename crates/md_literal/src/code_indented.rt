// Indented code (CommonMark 4.4), a line at a time.
//
//     code_indented ::= code_line *( line_ending *( blank_line line_ending ) code_line )
//     code_line     ::= 4( space | column of a tab ) *space_or_tab text
//     blank_line    ::= *space_or_tab
//
// Each line of code is a `CodeIndented` of its own, around the `SpaceOrTab` of its four columns and a `CodeFlowChunk`
// over the rest. A further one continues the code of a line before, and says so in its link: a resolver makes one block
// of them. A blank line is bare, as it is not known yet whether code continues after it: a `SpaceOrTab` of at most four
// columns, and a chunk over what whitespace is left, which `scratch.seen` notes until it begins.

ghost use Rattle.std.specs.Prelude.{◌≡◌, IfSome};
ghost use Rattle.md_literal.specs.CodeRule.{IsCodeState, IsSureCodeState};
ghost use Rattle.md_engine.specs.World.{world};
ghost use Rattle.md_engine.specs.declared.state.Name.{Name as StateName};
ghost use Rattle.md_engine.specs.declared.state.State.{State};
ghost use Rattle.md_engine.specs.declared.state.code_indented.State.{State as CodeState};
ghost use Rattle.md_literal.specs.Code.{code_transition};
ghost use Rattle.md_literal.specs.Code.{may_open};
ghost use Rattle.md_events.specs.Stays.{TakesEach};
ghost use Rattle.md_events.specs.Transition.{IsAt, NeedsNothing};

use md_engine::event::Name;
use md_engine::message::Message;
use md_engine::or_error;
use md_engine::state::code_indented::State as CodeState;
use md_engine::state::{Name as StateName, State};
use md_engine::stay::Stay;
use md_engine::tokenizer::{HeldLeaf, Tokenizer};
use md_events::space_or_tab::{is_space_or_tab, space_or_tab_min_max};
use md_leaves::further::FURTHER;

/// Code is indented by so many columns.
const INDENT: usize = 4;

/// Whether code may begin where this leaf is open: text is not interrupted, and any other leaf has ended before.
fn may_open(leaf: HeldLeaf) -> bool
    ensures { result ≡ may_open leaf }
{
    !matches!(leaf, HeldLeaf::Text(_) | HeldLeaf::LazyText(_))
}

/// Before the first line of code.
///
/// ```markdown
/// > |     aaa
///     ^
/// ```
#[tactic(auto, using(crate::proofs::CodeMeaning::code_rule))]
pub fn start(tokenizer: &mut Tokenizer) -> State
    requires { IsAt NeedsNothing (StateName.CodeIndented CodeState.Start) (world tokenizer.old) }
    ensures { IsCodeState CodeState.Start (world tokenizer.old) result tokenizer.new }
{
    if tokenizer.options.constructs.code_indented
        && may_open(tokenizer.flags.leaf)
        && is_space_or_tab(tokenizer.current)
    {
        or_error!(tokenizer.enter(Name::CodeIndented));
        space_or_tab_min_max(
            tokenizer,
            INDENT,
            INDENT,
            State::Next(StateName::CodeIndented(CodeState::AtBreak)),
            State::Nok,
        )
    } else {
        State::Nok
    }
}

/// Where a chunk begins: after the four columns of a line of code, or where it is noted that a blank line has one.
///
/// ```markdown
/// > |     aaa
///         ^
/// ```
#[tactic(auto, using(crate::proofs::CodeMeaning::code_rule))]
pub fn at_break(tokenizer: &mut Tokenizer) -> State
    requires { IsAt NeedsNothing (StateName.CodeIndented CodeState.AtBreak) (world tokenizer.old) }
    ensures { IsCodeState CodeState.AtBreak (world tokenizer.old) result tokenizer.new }
{
    or_error!(tokenizer.enter(Name::CodeFlowChunk));
    if tokenizer.scratch.seen {
        tokenizer.scratch.seen = false;
        State::Retry(StateName::CodeIndented(CodeState::FurtherInside))
    } else {
        State::Retry(StateName::CodeIndented(CodeState::InsideBlank))
    }
}

/// In a chunk of which nothing but whitespace was read yet: a blank line is no line of code.
///
/// ```markdown
/// > |       aaa
///         ^^
/// ```
#[tactic(auto, using(crate::proofs::CodeMeaning::code_rule))]
pub fn inside_blank(tokenizer: &mut Tokenizer) -> State
    requires { IsAt NeedsNothing (StateName.CodeIndented CodeState.InsideBlank) (world tokenizer.old) }
    ensures { IsSureCodeState CodeState.InsideBlank (world tokenizer.old) result tokenizer.new }
{
    match tokenizer.current {
        None | Some(b'\n') => State::Nok,
        Some(b'\t' | b' ') => {
            tokenizer.consume();
            State::Next(StateName::CodeIndented(CodeState::InsideBlank))
        }
        Some(_) => State::Retry(StateName::CodeIndented(CodeState::Inside)),
    }
}

/// In a chunk with text.
///
/// ```markdown
/// > |     aaa
///         ^^^
/// ```
#[tactic(auto, using(crate::proofs::CodeMeaning::code_rule))]
pub fn inside(tokenizer: &mut Tokenizer) -> State
    requires { IsAt NeedsNothing (StateName.CodeIndented CodeState.Inside) (world tokenizer.old) }
    ensures { IsCodeState CodeState.Inside (world tokenizer.old) result tokenizer.new }
{
    match tokenizer.current {
        None | Some(b'\n') => {
            or_error!(tokenizer.exit(Name::CodeFlowChunk));
            State::Retry(StateName::CodeIndented(CodeState::After))
        }
        Some(_) => {
            tokenizer.consume();
            State::Next(StateName::CodeIndented(CodeState::Inside))
        }
    }
}

/// After a line of code.
///
/// ```markdown
/// > |     aaa
///            ^
/// ```
#[tactic(auto, using(crate::proofs::CodeMeaning::code_rule))]
pub fn after(tokenizer: &mut Tokenizer) -> State
    requires { IsAt NeedsNothing (StateName.CodeIndented CodeState.After) (world tokenizer.old) }
    ensures { IsCodeState CodeState.After (world tokenizer.old) result tokenizer.new }
{
    or_error!(tokenizer.exit(Name::CodeIndented));
    tokenizer.flags.leaf = HeldLeaf::Code;
    State::Ok
}

/// Before a line that may continue open code: another line of code, or a blank one.
///
/// ```markdown
///   |     aaa
/// > |     bbb
///     ^
/// ```
#[tactic(auto, using(crate::proofs::CodeMeaning::code_rule))]
pub fn further_start(tokenizer: &mut Tokenizer) -> State
    requires { IsAt NeedsNothing (StateName.CodeIndented CodeState.FurtherStart) (world tokenizer.old) }
    ensures { IsCodeState CodeState.FurtherStart (world tokenizer.old) result tokenizer.new }
{
    or_error!(tokenizer.attempt(
        State::Ok,
        State::Next(StateName::CodeIndented(CodeState::FurtherBegin))
    ));
    State::Retry(StateName::CodeIndented(CodeState::FurtherLine))
}

/// Before a further line of code.
///
/// ```markdown
///   |     aaa
/// > |     bbb
///     ^
/// ```
#[tactic(auto, using(crate::proofs::CodeMeaning::code_rule))]
pub fn further_line(tokenizer: &mut Tokenizer) -> State
    requires { IsAt NeedsNothing (StateName.CodeIndented CodeState.FurtherLine) (world tokenizer.old) }
    ensures { IsCodeState CodeState.FurtherLine (world tokenizer.old) result tokenizer.new }
{
    if is_space_or_tab(tokenizer.current) {
        or_error!(tokenizer.enter_link(Name::CodeIndented, FURTHER));
        space_or_tab_min_max(
            tokenizer,
            INDENT,
            INDENT,
            State::Next(StateName::CodeIndented(CodeState::AtBreak)),
            State::Nok,
        )
    } else {
        State::Nok
    }
}

/// Before a line that is no line of code.
///
/// ```markdown
///   |     aaa
/// > |   bbb
///     ^
/// ```
#[tactic(auto, using(crate::proofs::CodeMeaning::code_rule))]
pub fn further_begin(tokenizer: &mut Tokenizer) -> State
    requires { IsAt NeedsNothing (StateName.CodeIndented CodeState.FurtherBegin) (world tokenizer.old) }
    ensures { IsCodeState CodeState.FurtherBegin (world tokenizer.old) result tokenizer.new }
{
    if is_space_or_tab(tokenizer.current) {
        space_or_tab_min_max(
            tokenizer,
            0,
            INDENT,
            State::Next(StateName::CodeIndented(CodeState::FurtherAfter)),
            State::Nok,
        )
    } else {
        State::Retry(StateName::CodeIndented(CodeState::FurtherAfter))
    }
}

/// After its first columns: it continues the code if it is blank, and is a blank line still. This state takes no
/// memory: it notes that a chunk begins over what whitespace is left, and that begins at the break.
///
/// ```markdown
///   |     aaa
/// > |   bbb
///       ^
/// ```
#[tactic(auto, using(crate::proofs::CodeMeaning::code_rule))]
pub fn further_after(tokenizer: &mut Tokenizer) -> State
    requires { IsAt NeedsNothing (StateName.CodeIndented CodeState.FurtherAfter) (world tokenizer.old) }
    ensures { IsSureCodeState CodeState.FurtherAfter (world tokenizer.old) result tokenizer.new }
{
    match tokenizer.current {
        None | Some(b'\n') => {
            tokenizer.flags.blank = true;
            State::Ok
        }
        Some(b'\t' | b' ') => {
            tokenizer.scratch.seen = true;
            State::Retry(StateName::CodeIndented(CodeState::AtBreak))
        }
        Some(_) => State::Nok,
    }
}

/// In what whitespace is left of a blank line.
///
/// ```markdown
///   |     aaa
/// > |       |
///         ^^
/// ```
#[tactic(auto, using(crate::proofs::CodeMeaning::code_rule))]
pub fn further_inside(tokenizer: &mut Tokenizer) -> State
    requires { IsAt NeedsNothing (StateName.CodeIndented CodeState.FurtherInside) (world tokenizer.old) }
    ensures { IsCodeState CodeState.FurtherInside (world tokenizer.old) result tokenizer.new }
{
    match tokenizer.current {
        None | Some(b'\n') => {
            or_error!(tokenizer.exit(Name::CodeFlowChunk));
            tokenizer.flags.blank = true;
            State::Ok
        }
        Some(b'\t' | b' ') => {
            tokenizer.consume();
            State::Next(StateName::CodeIndented(CodeState::FurtherInside))
        }
        Some(_) => State::Nok,
    }
}

/// What a state of code only takes.
pub fn takes_at_once(state: CodeState) -> Option<Stay>
    ensures { IfSome result (λ stay. TakesEach stay (StateName.CodeIndented state) (code_transition state)) }
{
    match state {
        CodeState::InsideBlank => Some(Stay::Byte(b' ')),
        CodeState::Inside => Some(Stay::Line),
        CodeState::FurtherInside => Some(Stay::Byte(b' ')),
        _ => None,
    }
}

/// Calls a state of code.
#[tactic(auto, using(crate::proofs::CodeMeaning::code_rule))]
pub fn call(tokenizer: &mut Tokenizer, state: CodeState) -> State
    requires { IsAt NeedsNothing (StateName.CodeIndented state) (world tokenizer.old) }
    ensures { IsCodeState state (world tokenizer.old) result tokenizer.new }
{
    match state {
        CodeState::Start => start(tokenizer),
        CodeState::AtBreak => at_break(tokenizer),
        CodeState::InsideBlank => inside_blank(tokenizer),
        CodeState::Inside => inside(tokenizer),
        CodeState::After => after(tokenizer),
        CodeState::FurtherStart => further_start(tokenizer),
        CodeState::FurtherLine => further_line(tokenizer),
        CodeState::FurtherBegin => further_begin(tokenizer),
        CodeState::FurtherAfter => further_after(tokenizer),
        CodeState::FurtherInside => further_inside(tokenizer),
    }
}
