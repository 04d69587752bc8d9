// Rows of a table (GFM 4.10): the head, which is a line of text that is read again, and those of the body.
//
//     row  ::= *space_or_tab [ '|' ] cell *( '|' cell ) [ '|' ] *space_or_tab
//     cell ::= *space_or_tab *text *space_or_tab
//     text ::= pair | any but '|'
//     pair ::= '\' ( '\' | '|' )
//
// Any line is a row, of any indent. It adds `GfmTableRow` around `GfmTableCellDivider`, `SpaceOrTab`, and one linked
// `Data` for each word; a resolver makes cells of them. A row of the body is a `GfmTable` of its own, linked to the
// line before, as each further line of a leaf of several lines is.

ghost use Rattle.std.specs.Prelude.{◌≡◌, ◌≢◌, IfSome, OnOk, is_err, true};
ghost use Rattle.md_engine.specs.Full.{Grown, IsFull, IsFullList, OnError};
ghost use Rattle.md_engine.specs.World.{world};
ghost use Rattle.md_engine.specs.declared.state.Name.{Name as StateName};
ghost use Rattle.md_engine.specs.declared.state.State.{State};
ghost use Rattle.md_events.specs.Spaces.{sees_white};
ghost use Rattle.md_events.specs.Stays.{TakesEach};
ghost use Rattle.md_events.specs.Transition.{IsAt, NeedsNothing};
ghost use Rattle.md_tables.specs.Row.{begun, after_part};
ghost use Rattle.md_tables.specs.Row.{place_of, row_transition, state_at};
ghost use Rattle.md_tables.specs.RowRule.{IsRowState, IsSureRowState};

use md_engine::event::{Content, Link, Name};
use md_engine::message::Message;
use md_engine::or_error;
use md_engine::state::gfm_table::State as TableState;
use md_engine::state::{Name as StateName, State};
use md_engine::stay::Stay;
use md_engine::tokenizer::Tokenizer;
use md_events::space_or_tab::{is_space_or_tab, space_or_tab};
use md_leaves::further::FURTHER;

/// What is text of a cell is read later.
pub(crate) const TEXT_LINK: Link = Link {
    previous: false,
    next: false,
    content: Content::Text,
};

/// Which row is read.
#[derive(Clone, Copy)]
pub enum Row {
    Head,
    Body,
}

/// Where in a row a state is.
#[derive(Clone, Copy)]
pub enum Place {
    /// Before it.
    Start,
    /// Between its parts, where no whitespace is.
    Break,
    /// In a word.
    Data,
    /// In a word, after `\`.
    Escape,
    /// After a pipe.
    CellBefore,
}

/// The state at a place of a row.
pub fn state_at(row: Row, place: Place) -> TableState
    ensures { result ≡ state_at row place }
{
    match row {
        Row::Head => match place {
            Place::Start => TableState::HeadRowBefore,
            Place::Break => TableState::HeadRowBreak,
            Place::Data => TableState::HeadRowData,
            Place::Escape => TableState::HeadRowEscape,
            Place::CellBefore => TableState::HeadRowCellBefore,
        },
        Row::Body => match place {
            Place::Start => TableState::BodyRowStart,
            Place::Break => TableState::BodyRowBreak,
            Place::Data => TableState::BodyRowData,
            Place::Escape => TableState::BodyRowEscape,
            Place::CellBefore => TableState::BodyRowCellBefore,
        },
    }
}

/// The place at which a state of a row is, if it is one.
#[inline(always)]
pub fn place_of(row: Row, state: TableState) -> Option<Place>
    ensures { result ≡ place_of row state }
{
    match (row, state) {
        (Row::Head, TableState::HeadRowBefore) => Some(Place::Start),
        (Row::Head, TableState::HeadRowBreak) => Some(Place::Break),
        (Row::Head, TableState::HeadRowData) => Some(Place::Data),
        (Row::Head, TableState::HeadRowEscape) => Some(Place::Escape),
        (Row::Head, TableState::HeadRowCellBefore) => Some(Place::CellBefore),
        (Row::Body, TableState::BodyRowStart) => Some(Place::Start),
        (Row::Body, TableState::BodyRowBreak) => Some(Place::Break),
        (Row::Body, TableState::BodyRowData) => Some(Place::Data),
        (Row::Body, TableState::BodyRowEscape) => Some(Place::Escape),
        (Row::Body, TableState::BodyRowCellBefore) => Some(Place::CellBefore),
        _ => None,
    }
}

/// The name of that state.
pub(crate) fn name_at(row: Row, place: Place) -> StateName
    ensures { result ≡ StateName.GfmTable (state_at row place) }
{
    StateName::GfmTable(state_at(row, place))
}

/// Goes on after a part of the row: after whitespace, if some is here.
pub(crate) fn after_part(tokenizer: &mut Tokenizer, row: Row) -> State
    ensures to { result ≢ State.Error →
        result ≡ (after_part row (world tokenizer.old) (sees_white tokenizer.old.current)).to }
    ensures world { result ≢ State.Error →
        world tokenizer.new ≡ (after_part row (world tokenizer.old) (sees_white tokenizer.old.current)).world }
    ensures full { OnError result (IsFull tokenizer.new) }
{
    let next = name_at(row, Place::Break);
    if is_space_or_tab(tokenizer.current) {
        space_or_tab(tokenizer, State::Next(next), State::Nok)
    } else {
        State::Retry(next)
    }
}

/// Begins the row.
#[inline(always)]
pub(crate) fn begin_row(tokenizer: &mut Tokenizer, row: Row) -> Result<(), Message>
    ensures world { OnOk result (world tokenizer.new ≡ begun row (world tokenizer.old)) }
    ensures full { is_err result ≡ true → IsFullList Grown.Events tokenizer.new }
{
    if matches!(row, Row::Body) {
        tokenizer.enter_link(Name::GfmTable, FURTHER)?;
    }
    tokenizer.enter(Name::GfmTableRow)
}

/// Before a row.
///
/// ```markdown
///   | | a |
///   | | - |
/// > | | b |
///     ^
/// ```
#[tactic(auto, using(crate::proofs::RowMeaning::row_rule))]
pub fn start(tokenizer: &mut Tokenizer, row: Row) -> State
    requires { IsAt NeedsNothing (StateName.GfmTable (state_at row Place.Start)) (world tokenizer.old) }
    ensures { IsRowState row Place.Start (world tokenizer.old) result tokenizer.new }
{
    or_error!(begin_row(tokenizer, row));
    after_part(tokenizer, row)
}

/// Between two parts of a row, or at its end.
///
/// ```markdown
///   | | a |
///   | | - |
/// > | | b |
///     ^ ^ ^
/// ```
#[inline(always)]
#[tactic(auto, using(crate::proofs::RowMeaning::row_rule))]
pub fn at_break(tokenizer: &mut Tokenizer, row: Row) -> State
    requires { IsAt NeedsNothing (StateName.GfmTable (state_at row Place.Break)) (world tokenizer.old) }
    ensures { IsRowState row Place.Break (world tokenizer.old) result tokenizer.new }
{
    match tokenizer.current {
        None | Some(b'\n') => {
            or_error!(tokenizer.exit(Name::GfmTableRow));
            if matches!(row, Row::Body) {
                or_error!(tokenizer.exit(Name::GfmTable));
            }
            State::Ok
        }
        Some(b' ' | b'\t') => State::Nok,
        Some(b'|') => {
            or_error!(tokenizer.enter(Name::GfmTableCellDivider));
            tokenizer.consume();
            or_error!(tokenizer.exit(Name::GfmTableCellDivider));
            State::Next(name_at(row, Place::CellBefore))
        }
        Some(_) => {
            or_error!(tokenizer.enter_link(Name::Data, TEXT_LINK));
            State::Retry(name_at(row, Place::Data))
        }
    }
}

/// In a word of a cell.
///
/// ```markdown
///   | | a  |
///   | | -- |
/// > | | bc |
///       ^^
/// ```
#[inline(always)]
#[tactic(auto, using(crate::proofs::RowMeaning::row_rule))]
pub fn data(tokenizer: &mut Tokenizer, row: Row) -> State
    requires { IsAt NeedsNothing (StateName.GfmTable (state_at row Place.Data)) (world tokenizer.old) }
    ensures { IsRowState row Place.Data (world tokenizer.old) result tokenizer.new }
{
    match tokenizer.current {
        None | Some(b'\n' | b' ' | b'\t' | b'|') => {
            or_error!(tokenizer.exit(Name::Data));
            after_part(tokenizer, row)
        }
        Some(byte) => {
            let place = if byte == b'\\' {
                Place::Escape
            } else {
                Place::Data
            };
            tokenizer.consume();
            State::Next(name_at(row, place))
        }
    }
}

/// After `\` in a word of a cell.
///
/// ```markdown
///   | | a    |
///   | | ---- |
/// > | | b\|c |
///         ^
/// ```
#[inline(always)]
#[tactic(auto, using(crate::proofs::RowMeaning::row_rule))]
pub fn escape(tokenizer: &mut Tokenizer, row: Row) -> State
    requires { IsAt NeedsNothing (StateName.GfmTable (state_at row Place.Escape)) (world tokenizer.old) }
    ensures { IsSureRowState row Place.Escape (world tokenizer.old) result tokenizer.new }
{
    let next = name_at(row, Place::Data);
    match tokenizer.current {
        Some(b'\\' | b'|') => {
            tokenizer.consume();
            State::Next(next)
        }
        _ => State::Retry(next),
    }
}

/// After a pipe.
///
/// ```markdown
///   | | a |
///   | | - |
/// > | | b |
///      ^   ^
/// ```
#[tactic(auto, using(crate::proofs::RowMeaning::row_rule))]
pub fn cell_before(tokenizer: &mut Tokenizer, row: Row) -> State
    requires { IsAt NeedsNothing (StateName.GfmTable (state_at row Place.CellBefore)) (world tokenizer.old) }
    ensures { IsRowState row Place.CellBefore (world tokenizer.old) result tokenizer.new }
{
    after_part(tokenizer, row)
}

/// What a state of a row only takes.
pub fn takes_at_once(row: Row, place: Place) -> Option<Stay>
    ensures { IfSome result
        (λ stay. TakesEach stay (StateName.GfmTable (state_at row place)) (row_transition row place)) }
{
    match place {
        Place::Data => Some(Stay::Plain),
        _ => None,
    }
}
