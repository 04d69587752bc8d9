// Delimiter rows of tables (GFM 4.10).
//
//     delimiter_row ::= small_indent [ '|' ] delimiter *( '|' delimiter ) [ '|' ] *space_or_tab
//     delimiter     ::= *space_or_tab [ ':' ] 1*'-' [ ':' ] *space_or_tab
//
// A row has a colon or a pipe, and as many cells as the head: how many that is, is in the scratch (`columns_wanted`)
// when it begins. It is a `GfmTable` of its own around `GfmTableDelimiterRow`, and in that `GfmTableCellDivider`,
// `SpaceOrTab`, `GfmTableDelimiterMarker` and `GfmTableDelimiterFiller`; it is linked to the line before, which is the
// head. After it a table is open. Resolvers join the lines of one, and make cells of these.

ghost use Rattle.std.specs.Prelude.{◌≡◌, ◌≢◌, ◌<◌, IfSome, length};
ghost use Rattle.md_engine.specs.Full.{IsFull, OnError};
ghost use Rattle.md_engine.specs.World.{world};
ghost use Rattle.md_engine.specs.declared.state.Name.{Name as StateName};
ghost use Rattle.md_engine.specs.declared.state.State.{State};
ghost use Rattle.md_engine.specs.declared.state.gfm_table.State.{State as TableState};
ghost use Rattle.md_events.specs.Spaces.{sees_white};
ghost use Rattle.md_events.specs.Stays.{TakesEach};
ghost use Rattle.md_events.specs.Transition.{IsAt};
ghost use Rattle.md_tables.specs.Delimiter.{DelimiterNeeds};
ghost use Rattle.md_tables.specs.Delimiter.{delimiter_transition};
ghost use Rattle.md_tables.specs.Delimiter.{marked};
ghost use Rattle.md_tables.specs.Delimiter.{uncounted, white_on};
ghost use Rattle.md_tables.specs.GfmTableRule.{IsSureTableState, IsTableState};

use md_engine::event::Name;
use md_engine::or_error;
use md_engine::state::gfm_table::State as TableState;
use md_engine::state::{Name as StateName, State};
use md_engine::stay::Stay;
use md_engine::tokenizer::{HeldLeaf, Scratch, Tokenizer};
use md_events::space_or_tab::{is_space_or_tab, small_indent, space_or_tab_min_max};
use md_leaves::further::FURTHER;

/// Without what a delimiter row keeps.
fn uncounted(scratch: Scratch) -> Scratch
    ensures { result ≡ uncounted scratch }
{
    Scratch {
        size: 0,
        columns_wanted: 0,
        seen: false,
        ..scratch
    }
}

/// Goes on after whitespace, if some is here, and at most so much of it.
#[inline(always)]
fn following_white(tokenizer: &mut Tokenizer, max: usize, next: TableState) -> State
    ensures to { result ≢ State.Error →
        result ≡ (white_on (world tokenizer.old) max next (sees_white tokenizer.old.current)).to }
    ensures world { result ≢ State.Error →
        world tokenizer.new ≡ (white_on (world tokenizer.old) max next (sees_white tokenizer.old.current)).world }
    ensures full { OnError result (IsFull tokenizer.new) }
{
    let following = StateName::GfmTable(next);
    if is_space_or_tab(tokenizer.current) {
        space_or_tab_min_max(tokenizer, 0, max, State::Next(following), State::Nok)
    } else {
        State::Retry(following)
    }
}

/// Takes a pipe or a colon, as a part of this name, and continues.
#[inline(always)]
fn take_mark(tokenizer: &mut Tokenizer, name: Name, next: TableState) -> State
    requires { (world tokenizer.old).point.index < length (world tokenizer.old).setting.bytes }
    ensures to { result ≢ State.Error → result ≡ (marked (world tokenizer.old) name next).to }
    ensures world { result ≢ State.Error → world tokenizer.new ≡ (marked (world tokenizer.old) name next).world }
    ensures full { OnError result (IsFull tokenizer.new) }
{
    tokenizer.scratch.seen = true;
    or_error!(tokenizer.enter(name));
    tokenizer.consume();
    or_error!(tokenizer.exit(name));
    State::Next(StateName::GfmTable(next))
}

/// Before a delimiter row.
///
/// ```markdown
///   | | a |
/// > | | - |
///     ^
/// ```
#[inline(always)]
#[tactic(auto, using(crate::proofs::GfmTableMeaning::table_rule))]
pub fn head_delimiter_start(tokenizer: &mut Tokenizer) -> State
    requires { IsAt DelimiterNeeds (StateName.GfmTable TableState.HeadDelimiterStart) (world tokenizer.old) }
    ensures { IsTableState TableState.HeadDelimiterStart (world tokenizer.old) result tokenizer.new }
{
    or_error!(tokenizer.enter_link(Name::GfmTable, FURTHER));
    or_error!(tokenizer.enter(Name::GfmTableDelimiterRow));
    let max = small_indent(tokenizer);
    following_white(tokenizer, max, TableState::HeadDelimiterBefore)
}

/// Before the first cell, or at a pipe.
///
/// ```markdown
///   | | a |
/// > | | - |
///     ^   ^
/// ```
#[inline(always)]
#[tactic(auto, using(crate::proofs::GfmTableMeaning::table_rule))]
pub fn head_delimiter_before(tokenizer: &mut Tokenizer) -> State
    requires { IsAt DelimiterNeeds (StateName.GfmTable TableState.HeadDelimiterBefore) (world tokenizer.old) }
    ensures { IsTableState TableState.HeadDelimiterBefore (world tokenizer.old) result tokenizer.new }
{
    match tokenizer.current {
        Some(b'-' | b':') => {
            State::Retry(StateName::GfmTable(TableState::HeadDelimiterValueBefore))
        }
        Some(b'|') => take_mark(
            tokenizer,
            Name::GfmTableCellDivider,
            TableState::HeadDelimiterCellBefore,
        ),
        _ => head_delimiter_nok(tokenizer),
    }
}

/// After a pipe.
///
/// ```markdown
///   | | a |
/// > | | - |
///      ^
/// ```
#[inline(always)]
#[tactic(auto, using(crate::proofs::GfmTableMeaning::table_rule))]
pub fn head_delimiter_cell_before(tokenizer: &mut Tokenizer) -> State
    requires { IsAt DelimiterNeeds (StateName.GfmTable TableState.HeadDelimiterCellBefore) (world tokenizer.old) }
    ensures { IsTableState TableState.HeadDelimiterCellBefore (world tokenizer.old) result tokenizer.new }
{
    following_white(tokenizer, usize::MAX, TableState::HeadDelimiterValueBefore)
}

/// Before a cell, or at the end of the row after a pipe.
///
/// ```markdown
///   | | a |
/// > | | - |
///       ^
/// ```
#[inline(always)]
#[tactic(auto, using(crate::proofs::GfmTableMeaning::table_rule))]
pub fn head_delimiter_value_before(tokenizer: &mut Tokenizer) -> State
    requires { IsAt DelimiterNeeds (StateName.GfmTable TableState.HeadDelimiterValueBefore) (world tokenizer.old) }
    ensures { IsTableState TableState.HeadDelimiterValueBefore (world tokenizer.old) result tokenizer.new }
{
    match tokenizer.current {
        None | Some(b'\n') => State::Retry(StateName::GfmTable(TableState::HeadDelimiterCellAfter)),
        Some(b':') => take_mark(
            tokenizer,
            Name::GfmTableDelimiterMarker,
            TableState::HeadDelimiterLeftAlignmentAfter,
        ),
        Some(b'-') => State::Retry(StateName::GfmTable(
            TableState::HeadDelimiterLeftAlignmentAfter,
        )),
        _ => head_delimiter_nok(tokenizer),
    }
}

/// Before the dashes of a cell, which counts with the first of them.
///
/// ```markdown
///   | | a  |
/// > | | :- |
///        ^
/// ```
#[inline(always)]
#[tactic(auto, using(crate::proofs::GfmTableMeaning::table_rule))]
pub fn head_delimiter_left_alignment_after(tokenizer: &mut Tokenizer) -> State
    requires { IsAt DelimiterNeeds (StateName.GfmTable TableState.HeadDelimiterLeftAlignmentAfter)
        (world tokenizer.old) }
    ensures { IsTableState TableState.HeadDelimiterLeftAlignmentAfter (world tokenizer.old) result tokenizer.new }
{
    if tokenizer.current == Some(b'-') {
        or_error!(tokenizer.enter(Name::GfmTableDelimiterFiller));
        tokenizer.consume();
        tokenizer.scratch.size += 1;
        State::Next(StateName::GfmTable(TableState::HeadDelimiterFiller))
    } else {
        head_delimiter_nok(tokenizer)
    }
}

/// In the dashes of a cell.
///
/// ```markdown
///   | | a |
/// > | | - |
///       ^
/// ```
#[inline(always)]
#[tactic(auto, using(crate::proofs::GfmTableMeaning::table_rule))]
pub fn head_delimiter_filler(tokenizer: &mut Tokenizer) -> State
    requires { IsAt DelimiterNeeds (StateName.GfmTable TableState.HeadDelimiterFiller) (world tokenizer.old) }
    ensures { IsTableState TableState.HeadDelimiterFiller (world tokenizer.old) result tokenizer.new }
{
    match tokenizer.current {
        Some(b'-') => {
            tokenizer.consume();
            State::Next(StateName::GfmTable(TableState::HeadDelimiterFiller))
        }
        Some(b':') => {
            or_error!(tokenizer.exit(Name::GfmTableDelimiterFiller));
            take_mark(
                tokenizer,
                Name::GfmTableDelimiterMarker,
                TableState::HeadDelimiterRightAlignmentAfter,
            )
        }
        _ => {
            or_error!(tokenizer.exit(Name::GfmTableDelimiterFiller));
            State::Retry(StateName::GfmTable(TableState::HeadDelimiterRightAlignmentAfter))
        }
    }
}

/// After a cell.
///
/// ```markdown
///   | |  a |
/// > | | -: |
///         ^
/// ```
#[inline(always)]
#[tactic(auto, using(crate::proofs::GfmTableMeaning::table_rule))]
pub fn head_delimiter_right_alignment_after(tokenizer: &mut Tokenizer) -> State
    requires { IsAt DelimiterNeeds (StateName.GfmTable TableState.HeadDelimiterRightAlignmentAfter)
        (world tokenizer.old) }
    ensures { IsTableState TableState.HeadDelimiterRightAlignmentAfter (world tokenizer.old) result tokenizer.new }
{
    following_white(tokenizer, usize::MAX, TableState::HeadDelimiterCellAfter)
}

/// After a cell and the whitespace that follows it.
///
/// ```markdown
///   | |  a |
/// > | | -: |
///          ^
/// ```
#[inline(always)]
#[tactic(auto, using(crate::proofs::GfmTableMeaning::table_rule))]
pub fn head_delimiter_cell_after(tokenizer: &mut Tokenizer) -> State
    requires { IsAt DelimiterNeeds (StateName.GfmTable TableState.HeadDelimiterCellAfter) (world tokenizer.old) }
    ensures { IsTableState TableState.HeadDelimiterCellAfter (world tokenizer.old) result tokenizer.new }
{
    let scratch = tokenizer.scratch;
    match tokenizer.current {
        None | Some(b'\n') if scratch.seen && scratch.size == scratch.columns_wanted => {
            or_error!(tokenizer.exit(Name::GfmTableDelimiterRow));
            or_error!(tokenizer.exit(Name::GfmTable));
            tokenizer.scratch = uncounted(scratch);
            tokenizer.flags.leaf = HeldLeaf::Table;
            State::Ok
        }
        Some(b'|') => take_mark(
            tokenizer,
            Name::GfmTableCellDivider,
            TableState::HeadDelimiterCellBefore,
        ),
        _ => head_delimiter_nok(tokenizer),
    }
}

/// Where a row can't continue: refuses, at rest. The other states call it where they refuse.
///
/// ```markdown
///   | | a |
/// > | | x |
///       ^
/// ```
#[tactic(auto, using(crate::proofs::GfmTableMeaning::table_rule))]
pub fn head_delimiter_nok(tokenizer: &mut Tokenizer) -> State
    requires { IsAt DelimiterNeeds (StateName.GfmTable TableState.HeadDelimiterNok) (world tokenizer.old) }
    ensures { IsSureTableState TableState.HeadDelimiterNok (world tokenizer.old) result tokenizer.new }
{
    tokenizer.scratch = uncounted(tokenizer.scratch);
    State::Nok
}

/// What a state of a delimiter row only takes.
pub fn takes_at_once(state: TableState) -> Option<Stay>
    ensures { IfSome result (λ stay. TakesEach stay (StateName.GfmTable state) (delimiter_transition state)) }
{
    match state {
        TableState::HeadDelimiterFiller => Some(Stay::Byte(b'-')),
        _ => None,
    }
}
