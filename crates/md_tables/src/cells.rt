// The cells of a row, in one walk over its events.
//
// The states of a row show its pipes, its whitespace and its words. A cell begins with the pipe before it, and the
// first one where no pipe is there with what is first; the last pipe of a row ends its last cell. The words of a cell
// are one text, with the whitespace between them. In a delimiter row the colons and dashes of a cell are its value.

ghost use Rattle.std.specs.Prelude.{◌≡◌, ◌++◌, ◌∷◌, [], None, OnOk};
ghost use Rattle.md_events.specs.Events.Nested.{enter, exit};
ghost use Rattle.md_tables.specs.Cells.{begins_divider, begins_inner, begins_row, cell_name, ends_divider};
ghost use Rattle.md_tables.specs.Cells.{ends_inner, ends_row, is_continued, has_white, inner_name, is_inner, is_last};
ghost use Rattle.md_tables.specs.Cells.{divider_step, ends_with, front_step, gap_step, inner_step, inside_step};
ghost use Rattle.md_tables.specs.Cells.{last_step, outside_step, piece_step, row_ends, step, within_step};

use crate::giving::{give, give_first, give_last};
use md_engine::event::{Event, Kind, Name, Point};
use md_engine::message::Message;

/// What the cells of a row hold.
#[derive(Clone, Copy)]
pub enum RowKind {
    /// Text.
    Text,
    /// Dashes and colons.
    Delimiter,
}

/// Where the walk is.
#[derive(Clone, Copy)]
pub enum Stage {
    Outside,
    /// In a row, before its first cell.
    Front(RowKind),
    /// In a cell, and not in what it holds.
    Within(RowKind),
    /// In what a cell holds.
    Inner(RowKind),
    /// Between two words of a text.
    Gap,
    /// In the pipe that ends a row.
    Last(RowKind),
    /// After it.
    Following,
}

/// Which row begins here, if one does.
#[inline(always)]
pub(crate) fn begins_row(event: &Event) -> Option<RowKind>
    ensures { result ≡ begins_row event.now }
{
    match (event.kind, event.name) {
        (Kind::Enter, Name::GfmTableRow) => Some(RowKind::Text),
        (Kind::Enter, Name::GfmTableDelimiterRow) => Some(RowKind::Delimiter),
        _ => None,
    }
}

/// Whether a row ends here.
#[inline(always)]
fn ends_row(event: &Event) -> bool
    ensures { result ≡ ends_row event.now }
{
    matches!(event.kind, Kind::Exit)
        && matches!(event.name, Name::GfmTableRow | Name::GfmTableDelimiterRow)
}

/// Whether a pipe begins here.
#[inline(always)]
fn begins_divider(event: &Event) -> bool
    ensures { result ≡ begins_divider event.now }
{
    matches!(event.kind, Kind::Enter) && matches!(event.name, Name::GfmTableCellDivider)
}

/// Whether a pipe ends here.
#[inline(always)]
fn ends_divider(event: &Event) -> bool
    ensures { result ≡ ends_divider event.now }
{
    matches!(event.kind, Kind::Exit) && matches!(event.name, Name::GfmTableCellDivider)
}

/// Whether these events are of what the cells of a row hold.
#[inline(always)]
pub(crate) fn is_inner(kind: RowKind, name: Name) -> bool
    ensures { result ≡ is_inner kind name }
{
    match kind {
        RowKind::Text => matches!(name, Name::Data),
        RowKind::Delimiter => {
            matches!(
                name,
                Name::GfmTableDelimiterMarker | Name::GfmTableDelimiterFiller
            )
        }
    }
}

/// Whether a piece of what a cell holds begins here.
#[inline(always)]
fn begins_inner(kind: RowKind, event: &Event) -> bool
    ensures { result ≡ begins_inner kind event.now }
{
    matches!(event.kind, Kind::Enter) && is_inner(kind, event.name)
}

/// Whether such a piece ends here.
#[inline(always)]
pub(crate) fn ends_inner(kind: RowKind, event: &Event) -> bool
    ensures { result ≡ ends_inner kind event.now }
{
    matches!(event.kind, Kind::Exit) && is_inner(kind, event.name)
}

/// Whether whitespace is here.
#[inline(always)]
fn has_white(events: &[Event]) -> bool
    ensures { result ≡ has_white events.now }
{
    events.len() >= 2
        && matches!(events[0].name, Name::SpaceOrTab)
        && matches!(events[1].name, Name::SpaceOrTab)
}

/// Whether a row ends here, maybe after whitespace.
#[inline(always)]
pub(crate) fn row_ends(events: &[Event]) -> bool
    ensures { result ≡ row_ends events.now }
{
    let at = if has_white(events) { 2 } else { 0 };
    at < events.len() && ends_row(&events[at])
}

/// Whether the pipe that has begun before these events is the last of its row.
fn is_last(events: &[Event]) -> bool
    ensures { result ≡ is_last events.now }
{
    !events.is_empty() && ends_divider(&events[0]) && row_ends(&events[1..])
}

/// Whether what a cell holds continues after a piece of it.
#[inline(always)]
pub(crate) fn is_continued(kind: RowKind, events: &[Event]) -> bool
    ensures { result ≡ is_continued kind events.now }
{
    match kind {
        RowKind::Text => {
            has_white(events) && events.len() > 2 && begins_inner(RowKind::Text, &events[2])
        }
        RowKind::Delimiter => !events.is_empty() && begins_inner(RowKind::Delimiter, &events[0]),
    }
}

/// The name of a cell.
pub(crate) fn cell_name(kind: RowKind) -> Name
    ensures { result ≡ cell_name kind }
{
    match kind {
        RowKind::Text => Name::GfmTableCell,
        RowKind::Delimiter => Name::GfmTableDelimiterCell,
    }
}

/// The name of what it holds.
pub(crate) fn inner_name(kind: RowKind) -> Name
    ensures { result ≡ inner_name kind }
{
    match kind {
        RowKind::Text => Name::GfmTableCellText,
        RowKind::Delimiter => Name::GfmTableDelimiterCellValue,
    }
}

/// An event without a link. The point is copied by its fields: as a whole it would be copied twice.
#[inline(always)]
pub(crate) fn plain(kind: Kind, name: Name, point: Point) -> Event
    ensures { result ≡ record { kind = kind; name = name; point = point; link = None } }
{
    Event {
        kind,
        name,
        link: None,
        point: Point {
            line: point.line,
            column: point.column,
            index: point.index,
            vs: point.vs,
        },
    }
}

/// A walk over the events: what is given for those so far, and where it is.
#[derive(Drop)]
pub(crate) struct Walk {
    pub(crate) given: Vec<Event>,
    pub(crate) stage: Stage,
}

impl Walk {
    /// Passes an event as it is.
    pub(crate) fn pass(&mut self, event: &Event, stage: Stage) -> Result<(), Message>
        ensures given { OnOk result (self.new.given.items ≡ self.old.given.items ++ event.now ∷ []) }
        ensures stage { self.new.stage ≡ stage }
    {
        self.stage = stage;
        give(&mut self.given, event)
    }

    /// Begins a cell.
    fn enter_cell(&mut self, kind: RowKind, point: Point) -> Result<(), Message>
        ensures given { OnOk result
            (self.new.given.items ≡ self.old.given.items ++ enter (cell_name kind) point ∷ []) }
        ensures stage { self.new.stage ≡ self.old.stage }
    {
        give(&mut self.given, &plain(Kind::Enter, cell_name(kind), point))
    }

    /// Ends a cell.
    fn exit_cell(&mut self, kind: RowKind, point: Point) -> Result<(), Message>
        ensures given { OnOk result
            (self.new.given.items ≡ self.old.given.items ++ exit (cell_name kind) point ∷ []) }
        ensures stage { self.new.stage ≡ self.old.stage }
    {
        give(&mut self.given, &plain(Kind::Exit, cell_name(kind), point))
    }

    /// Begins what a cell holds, with this event.
    fn enter_inner(&mut self, kind: RowKind, event: &Event) -> Result<(), Message>
        ensures given { OnOk result
            (self.new.given.items ≡ self.old.given.items ++ enter (inner_name kind) event.now.point ∷ event.now ∷ []) }
        ensures stage { OnOk result (self.new.stage ≡ Stage.Inner kind) }
    {
        give_first(&mut self.given, inner_name(kind), event)?;
        self.stage = Stage::Inner(kind);
        Ok(())
    }

    /// Ends it, after this event.
    fn exit_inner(&mut self, kind: RowKind, event: &Event) -> Result<(), Message>
        ensures given { OnOk result
            (self.new.given.items ≡ self.old.given.items ++ event.now ∷ exit (inner_name kind) event.now.point ∷ []) }
        ensures stage { OnOk result (self.new.stage ≡ Stage.Within kind) }
    {
        give_last(&mut self.given, event, inner_name(kind))?;
        self.stage = Stage::Within(kind);
        Ok(())
    }

    /// Goes on before the first cell of a row.
    fn front(&mut self, kind: RowKind, event: &Event) -> Result<(), Message>
        ensures given { OnOk result
            (self.new.given.items ≡ self.old.given.items ++ (front_step kind event.now).given) }
        ensures stage { OnOk result (self.new.stage ≡ (front_step kind event.now).stage) }
    {
        if begins_divider(event) {
            self.enter_cell(kind, event.point)?;
            return self.pass(event, Stage::Within(kind));
        }
        if begins_inner(kind, event) {
            self.enter_cell(kind, event.point)?;
            return self.enter_inner(kind, event);
        }
        self.pass(event, Stage::Front(kind))
    }

    /// Goes on at a pipe in a cell.
    fn divide(&mut self, kind: RowKind, event: &Event, is_last: bool) -> Result<(), Message>
        ensures given { OnOk result
            (self.new.given.items ≡ self.old.given.items ++ (divider_step kind event.now is_last).given) }
        ensures stage { OnOk result (self.new.stage ≡ (divider_step kind event.now is_last).stage) }
    {
        if is_last {
            return self.pass(event, Stage::Last(kind));
        }
        self.exit_cell(kind, event.point)?;
        self.enter_cell(kind, event.point)?;
        self.pass(event, Stage::Within(kind))
    }

    /// Goes on in a cell.
    fn within(&mut self, kind: RowKind, event: &Event, following: &[Event]) -> Result<(), Message>
        ensures given { OnOk result
            (self.new.given.items ≡ self.old.given.items ++ (within_step kind event.now following.now).given) }
        ensures stage { OnOk result (self.new.stage ≡ (within_step kind event.now following.now).stage) }
    {
        if begins_divider(event) {
            return self.divide(kind, event, is_last(following));
        }
        if begins_inner(kind, event) {
            return self.enter_inner(kind, event);
        }
        self.pass(event, Stage::Within(kind))
    }

    /// Goes on after a piece of what a cell holds, by whether that continues.
    fn piece(&mut self, kind: RowKind, event: &Event, is_continued: bool) -> Result<(), Message>
        ensures given { OnOk result
            (self.new.given.items ≡ self.old.given.items ++ (piece_step kind event.now is_continued).given) }
        ensures stage { OnOk result (self.new.stage ≡ (piece_step kind event.now is_continued).stage) }
    {
        if !is_continued {
            return self.exit_inner(kind, event);
        }
        match kind {
            RowKind::Text => {
                self.stage = Stage::Gap;
                Ok(())
            }
            RowKind::Delimiter => self.pass(event, Stage::Inner(kind)),
        }
    }

    /// Goes on in what a cell holds.
    fn inner(&mut self, kind: RowKind, event: &Event, following: &[Event]) -> Result<(), Message>
        ensures given { OnOk result
            (self.new.given.items ≡ self.old.given.items ++ (inner_step kind event.now following.now).given) }
        ensures stage { OnOk result (self.new.stage ≡ (inner_step kind event.now following.now).stage) }
    {
        if ends_inner(kind, event) {
            self.piece(kind, event, is_continued(kind, following))
        } else {
            self.pass(event, Stage::Inner(kind))
        }
    }

    /// Goes on between two words, of which nothing is given.
    fn gap(&mut self, event: &Event)
        ensures given { self.new.given.items ≡ self.old.given.items }
        ensures stage { self.new.stage ≡ (gap_step event.now).stage }
    {
        self.stage = if begins_inner(RowKind::Text, event) {
            Stage::Inner(RowKind::Text)
        } else {
            Stage::Gap
        };
    }

    /// Goes on in the last pipe of a row.
    fn last(&mut self, kind: RowKind, event: &Event) -> Result<(), Message>
        ensures given { OnOk result
            (self.new.given.items ≡ self.old.given.items ++ (last_step kind event.now).given) }
        ensures stage { OnOk result (self.new.stage ≡ (last_step kind event.now).stage) }
    {
        if ends_divider(event) {
            self.pass(event, Stage::Following)?;
            self.exit_cell(kind, event.point)
        } else {
            self.pass(event, Stage::Last(kind))
        }
    }

    /// Goes on outside of rows.
    fn outside(&mut self, event: &Event) -> Result<(), Message>
        ensures given { OnOk result
            (self.new.given.items ≡ self.old.given.items ++ (outside_step event.now (begins_row event.now)).given) }
        ensures stage { OnOk result (self.new.stage ≡ (outside_step event.now (begins_row event.now)).stage) }
    {
        match begins_row(event) {
            Some(kind) => self.pass(event, Stage::Front(kind)),
            None => self.pass(event, Stage::Outside),
        }
    }

    /// Goes on in a row, or outside.
    fn inside(&mut self, event: &Event, following: &[Event]) -> Result<(), Message>
        ensures given { OnOk result
            (self.new.given.items ≡
            self.old.given.items ++ (inside_step self.old.stage event.now following.now).given) }
        ensures stage { OnOk result (self.new.stage ≡ (inside_step self.old.stage event.now following.now).stage) }
    {
        match self.stage {
            Stage::Outside => self.outside(event),
            Stage::Front(kind) => self.front(kind, event),
            Stage::Within(kind) => self.within(kind, event, following),
            Stage::Inner(kind) => self.inner(kind, event, following),
            Stage::Gap => {
                self.gap(event);
                Ok(())
            }
            Stage::Last(kind) => self.last(kind, event),
            Stage::Following => self.pass(event, Stage::Following),
        }
    }

    /// Goes on at the end of a row.
    fn end_row(&mut self, event: &Event) -> Result<(), Message>
        ensures given { OnOk result
            (self.new.given.items ≡ self.old.given.items ++ ends_with self.old.stage event.now) }
        ensures stage { OnOk result (self.new.stage ≡ Stage.Outside) }
    {
        if let Stage::Within(kind) = self.stage {
            self.exit_cell(kind, event.point)?;
        }
        self.pass(event, Stage::Outside)
    }

    /// Goes on with an event, before these.
    pub(crate) fn step(&mut self, event: &Event, following: &[Event]) -> Result<(), Message>
        ensures given { OnOk result
            (self.new.given.items ≡ self.old.given.items ++ (step self.old.stage event.now following.now).given) }
        ensures stage { OnOk result (self.new.stage ≡ (step self.old.stage event.now following.now).stage) }
    {
        if ends_row(event) {
            self.end_row(event)
        } else {
            self.inside(event, following)
        }
    }
}
