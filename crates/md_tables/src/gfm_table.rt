// Tables (GFM 4.10), a line at a time.
//
//     gfm_table ::= head_row eol delimiter_row *( eol body_row )
//
// The head is the last line of a text: that it is one shows with the delimiter row after it, which has as many cells.
// So a line that meets text is tried as a delimiter row, and one that meets a table as a row of the body. The head
// itself is read again, once all lines are known.

ghost use Rattle.std.specs.Prelude.{◌≡◌, IfSome, None};
ghost use Rattle.md_engine.specs.World.{world};
ghost use Rattle.md_engine.specs.declared.state.Name.{Name as StateName};
ghost use Rattle.md_engine.specs.declared.state.State.{State};
ghost use Rattle.md_engine.specs.declared.state.gfm_table.State.{State as TableState};
ghost use Rattle.md_events.specs.Stays.{TakesEach};
ghost use Rattle.md_events.specs.Transition.{IsAt};
ghost use Rattle.md_events.specs.Look.{may_with};
ghost use Rattle.md_tables.specs.GfmTable.{AnswersWith, TableNeeds, may_begin, may_head};
ghost use Rattle.md_tables.specs.GfmTable.{table_transition};
ghost use Rattle.md_tables.specs.GfmTableRule.{IsSureTableState, IsTableState};
ghost use Rattle.md_tables.specs.declared.row.Place.{Place};
ghost use Rattle.md_tables.specs.declared.row.Row.{Row};

use crate::delimiter;
pub use crate::delimiter::{
    head_delimiter_before, head_delimiter_cell_after, head_delimiter_cell_before,
    head_delimiter_filler, head_delimiter_left_alignment_after, head_delimiter_nok,
    head_delimiter_right_alignment_after, head_delimiter_start, head_delimiter_value_before,
};
use crate::row::{self, Place, Row};
use md_engine::configuration::ParseOptions;
use md_engine::state::gfm_table::State as TableState;
use md_engine::state::{Name as StateName, State};
use md_engine::stay::Stay;
use md_engine::tokenizer::{HeldLeaf, OpenText, Tokenizer};
use md_events::space_or_tab::look_after_white;
use md_scan::columns::is_small;

/// Whether the last line of this text may be the head of a table.
fn may_head(options: &ParseOptions, text: OpenText) -> bool
    ensures { result ≡ may_head options.now text }
{
    options.constructs.gfm_table && 0 < text.columns && is_small(options, text.indent)
}

/// Whether a line of a table may begin where the line meets this leaf, by what is first after its indent, if that is
/// known.
pub fn may_begin(leaf: HeldLeaf, first: Option<u8>) -> bool
    ensures { result ≡ may_with (may_begin leaf) first }
{
    let Some(byte) = first else {
        return true;
    };
    match leaf {
        HeldLeaf::Text(text) => 0 < text.columns && matches!(byte, b'-' | b':' | b'|'),
        HeldLeaf::Table => true,
        _ => false,
    }
}

/// Before a line of a table, after its head: one look refuses what begins none.
///
/// ```markdown
///   | | a |
/// > | | - |
///     ^
/// > | | b |
///     ^
/// ```
#[tactic(auto, using(crate::proofs::GfmTableMeaning::table_rule))]
pub fn start(tokenizer: &mut Tokenizer) -> State
    requires { IsAt TableNeeds (StateName.GfmTable TableState.Start) (world tokenizer.old) }
    ensures { IsSureTableState TableState.Start (world tokenizer.old) result tokenizer.new }
{
    let first = look_after_white(tokenizer);
    if !may_begin(tokenizer.flags.leaf, first) {
        return State::Nok;
    }
    match tokenizer.flags.leaf {
        HeldLeaf::Text(text) => {
            if may_head(tokenizer.options, text) {
                tokenizer.scratch.columns_wanted = text.columns;
                State::Retry(StateName::GfmTable(TableState::HeadDelimiterStart))
            } else {
                State::Nok
            }
        }
        HeldLeaf::Table => State::Retry(StateName::GfmTable(TableState::BodyRowStart)),
        _ => State::Nok,
    }
}

/// Before the head, which is read again once it is known to be one.
///
/// ```markdown
/// > | | a |
///     ^
///   | | - |
/// ```
#[tactic(auto, using(crate::proofs::GfmTableMeaning::table_rule))]
pub fn head_row_before(tokenizer: &mut Tokenizer) -> State
    requires { IsAt TableNeeds (StateName.GfmTable TableState.HeadRowBefore) (world tokenizer.old) }
    ensures { IsTableState TableState.HeadRowBefore (world tokenizer.old) result tokenizer.new }
{
    row::start(tokenizer, Row::Head)
}

/// After the indent of the head: continues with its first part.
///
/// ```markdown
/// > | | a |
///     ^
///   | | - |
/// ```
#[tactic(auto, using(crate::proofs::GfmTableMeaning::table_rule))]
pub fn head_row_start(tokenizer: &mut Tokenizer) -> State
    requires { IsAt TableNeeds (StateName.GfmTable TableState.HeadRowStart) (world tokenizer.old) }
    ensures { IsSureTableState TableState.HeadRowStart (world tokenizer.old) result tokenizer.new }
{
    State::Retry(StateName::GfmTable(TableState::HeadRowBreak))
}

/// Between two parts of the head, or at its end.
///
/// ```markdown
/// > | | a |
///     ^ ^ ^
///   | | - |
/// ```
#[tactic(auto, using(crate::proofs::GfmTableMeaning::table_rule))]
pub fn head_row_break(tokenizer: &mut Tokenizer) -> State
    requires { IsAt TableNeeds (StateName.GfmTable TableState.HeadRowBreak) (world tokenizer.old) }
    ensures { IsTableState TableState.HeadRowBreak (world tokenizer.old) result tokenizer.new }
{
    row::at_break(tokenizer, Row::Head)
}

/// In a word of the head.
///
/// ```markdown
/// > | | ab |
///       ^^
///   | | -- |
/// ```
#[tactic(auto, using(crate::proofs::GfmTableMeaning::table_rule))]
pub fn head_row_data(tokenizer: &mut Tokenizer) -> State
    requires { IsAt TableNeeds (StateName.GfmTable TableState.HeadRowData) (world tokenizer.old) }
    ensures { IsTableState TableState.HeadRowData (world tokenizer.old) result tokenizer.new }
{
    row::data(tokenizer, Row::Head)
}

/// After `\` in a word of the head.
///
/// ```markdown
/// > | | a\|b |
///         ^
///   | | ---- |
/// ```
#[tactic(auto, using(crate::proofs::GfmTableMeaning::table_rule))]
pub fn head_row_escape(tokenizer: &mut Tokenizer) -> State
    requires { IsAt TableNeeds (StateName.GfmTable TableState.HeadRowEscape) (world tokenizer.old) }
    ensures { IsSureTableState TableState.HeadRowEscape (world tokenizer.old) result tokenizer.new }
{
    row::escape(tokenizer, Row::Head)
}

/// After a pipe of the head.
///
/// ```markdown
/// > | | a |
///      ^   ^
///   | | - |
/// ```
#[tactic(auto, using(crate::proofs::GfmTableMeaning::table_rule))]
pub fn head_row_cell_before(tokenizer: &mut Tokenizer) -> State
    requires { IsAt TableNeeds (StateName.GfmTable TableState.HeadRowCellBefore) (world tokenizer.old) }
    ensures { IsTableState TableState.HeadRowCellBefore (world tokenizer.old) result tokenizer.new }
{
    row::cell_before(tokenizer, Row::Head)
}

/// Before a row of the body.
///
/// ```markdown
///   | | a |
///   | | - |
/// > | | b |
///     ^
/// ```
#[tactic(auto, using(crate::proofs::GfmTableMeaning::table_rule))]
pub fn body_row_start(tokenizer: &mut Tokenizer) -> State
    requires { IsAt TableNeeds (StateName.GfmTable TableState.BodyRowStart) (world tokenizer.old) }
    ensures { IsTableState TableState.BodyRowStart (world tokenizer.old) result tokenizer.new }
{
    row::start(tokenizer, Row::Body)
}

/// Between two parts of a row of the body, or at its end.
///
/// ```markdown
///   | | a |
///   | | - |
/// > | | b |
///     ^ ^ ^
/// ```
#[tactic(auto, using(crate::proofs::GfmTableMeaning::table_rule))]
pub fn body_row_break(tokenizer: &mut Tokenizer) -> State
    requires { IsAt TableNeeds (StateName.GfmTable TableState.BodyRowBreak) (world tokenizer.old) }
    ensures { IsTableState TableState.BodyRowBreak (world tokenizer.old) result tokenizer.new }
{
    row::at_break(tokenizer, Row::Body)
}

/// In a word of the body.
///
/// ```markdown
///   | | a  |
///   | | -- |
/// > | | bc |
///       ^^
/// ```
#[tactic(auto, using(crate::proofs::GfmTableMeaning::table_rule))]
pub fn body_row_data(tokenizer: &mut Tokenizer) -> State
    requires { IsAt TableNeeds (StateName.GfmTable TableState.BodyRowData) (world tokenizer.old) }
    ensures { IsTableState TableState.BodyRowData (world tokenizer.old) result tokenizer.new }
{
    row::data(tokenizer, Row::Body)
}

/// After `\` in a word of the body.
///
/// ```markdown
///   | | a    |
///   | | ---- |
/// > | | b\|c |
///         ^
/// ```
#[tactic(auto, using(crate::proofs::GfmTableMeaning::table_rule))]
pub fn body_row_escape(tokenizer: &mut Tokenizer) -> State
    requires { IsAt TableNeeds (StateName.GfmTable TableState.BodyRowEscape) (world tokenizer.old) }
    ensures { IsSureTableState TableState.BodyRowEscape (world tokenizer.old) result tokenizer.new }
{
    row::escape(tokenizer, Row::Body)
}

/// After a pipe of the body.
///
/// ```markdown
///   | | a |
///   | | - |
/// > | | b |
///      ^   ^
/// ```
#[tactic(auto, using(crate::proofs::GfmTableMeaning::table_rule))]
pub fn body_row_cell_before(tokenizer: &mut Tokenizer) -> State
    requires { IsAt TableNeeds (StateName.GfmTable TableState.BodyRowCellBefore) (world tokenizer.old) }
    ensures { IsTableState TableState.BodyRowCellBefore (world tokenizer.old) result tokenizer.new }
{
    row::cell_before(tokenizer, Row::Body)
}

/// What a state of a table only takes.
pub fn takes_at_once(state: TableState) -> Option<Stay>
    ensures { IfSome result (λ stay. TakesEach stay (StateName.GfmTable state) (table_transition state)) }
{
    match state {
        TableState::HeadRowData => row::takes_at_once(Row::Head, Place::Data),
        TableState::BodyRowData => row::takes_at_once(Row::Body, Place::Data),
        TableState::HeadDelimiterFiller => delimiter::takes_at_once(state),
        _ => None,
    }
}

/// Calls a state of a table.
#[inline(always)]
#[tactic(auto, using(crate::proofs::GfmTableMeaning::table_rule))]
pub fn call(tokenizer: &mut Tokenizer, state: TableState) -> State
    requires { IsAt TableNeeds (StateName.GfmTable state) (world tokenizer.old) }
    ensures { IsTableState state (world tokenizer.old) result tokenizer.new }
{
    match state {
        TableState::Start => start(tokenizer),
        TableState::HeadRowBefore => head_row_before(tokenizer),
        TableState::HeadRowStart => head_row_start(tokenizer),
        TableState::HeadRowBreak => head_row_break(tokenizer),
        TableState::HeadRowData => head_row_data(tokenizer),
        TableState::HeadRowEscape => head_row_escape(tokenizer),
        TableState::HeadRowCellBefore => head_row_cell_before(tokenizer),
        TableState::HeadDelimiterStart => head_delimiter_start(tokenizer),
        TableState::HeadDelimiterBefore => head_delimiter_before(tokenizer),
        TableState::HeadDelimiterCellBefore => head_delimiter_cell_before(tokenizer),
        TableState::HeadDelimiterValueBefore => head_delimiter_value_before(tokenizer),
        TableState::HeadDelimiterLeftAlignmentAfter => head_delimiter_left_alignment_after(
            tokenizer,
        ),
        TableState::HeadDelimiterFiller => head_delimiter_filler(tokenizer),
        TableState::HeadDelimiterRightAlignmentAfter => head_delimiter_right_alignment_after(
            tokenizer,
        ),
        TableState::HeadDelimiterCellAfter => head_delimiter_cell_after(tokenizer),
        TableState::HeadDelimiterNok => head_delimiter_nok(tokenizer),
        TableState::BodyRowStart => body_row_start(tokenizer),
        TableState::BodyRowBreak => body_row_break(tokenizer),
        TableState::BodyRowData => body_row_data(tokenizer),
        TableState::BodyRowEscape => body_row_escape(tokenizer),
        TableState::BodyRowCellBefore => body_row_cell_before(tokenizer),
    }
}

/// The state of a table that has this name, if it is one.
#[inline(always)]
fn table_state(name: StateName) -> Option<TableState>
    ensures { IfSome result (λ state. name ≡ StateName.GfmTable state) }
{
    match name {
        StateName::GfmTable(state) => Some(state),
        _ => None,
    }
}

/// Whether much may be taken at once where this state of a table continues.
#[inline(always)]
fn may_stay(state: TableState) -> bool {
    matches!(
        state,
        TableState::HeadDelimiterFiller | TableState::BodyRowData
    )
}

/// The state of a table that is called at once after this answer, if there is one: where it stays at what is here, or
/// has taken something and more is after it, which is seen then.
#[inline(always)]
pub fn next(tokenizer: &mut Tokenizer, to: State) -> Option<TableState>
    ensures none { result ≡ None → world tokenizer.new ≡ world tokenizer.old }
    ensures some { IfSome result
        (λ next. AnswersWith to (StateName.GfmTable next) (world tokenizer.old) (world tokenizer.new)) }
{
    match to {
        State::Retry(name) => table_state(name),
        State::Next(name) => {
            let Some(next) = table_state(name) else {
                return None;
            };
            if may_stay(next) {
                return None;
            }
            if tokenizer.see_or_wait(false) {
                return None;
            }
            Some(next)
        }
        _ => None,
    }
}
