// Tables with their heads, bodies and cells, in one walk over the events.
//
//     GfmTable
//       GfmTableHead         from the begin of the table
//         GfmTableRow
//         GfmTableDelimiterRow
//       GfmTableBody         if there are rows after the head, to the end of the table
//         GfmTableRow ..
//
// The walk looks at each event as it passes it, and in a row at up to four after it. Outside of tables the events up to
// the next table are copied at once.

ghost use Rattle.std.specs.Prelude.{◌≡◌, ℕ, ◌≤◌, ◌<◌, ◌++◌, [], IfOk, List, OnOk, drop, false, length, true};
ghost use Rattle.std.specs.List.{prefix_len};
ghost use Rattle.md_events.specs.Parts.{ArePlaced};
ghost use Rattle.md_engine.specs.declared.event.Kind.{Kind};
ghost use Rattle.md_tables.specs.declared.tables.Bound.{Bound};
ghost use Rattle.md_tables.specs.Proceeds.{in_all, in_table};
ghost use Rattle.md_tables.specs.Tabled.{following, bound_by, bound_of, given, in_front, next, passes, tabled};
ghost use Rattle.md_tables.specs.Tabled.{with_cells};

use crate::cells;
use crate::cells::{Stage, plain};
use crate::giving::give;
use md_engine::event::{Event, Kind, Name};
use md_engine::message::Message;
use md_events::moving::append;
use md_events::walks::{Test, passing};

/// What an event is to the head and the body of a table.
#[derive(Clone, Copy)]
pub enum Bound {
    BeginsTable,
    EndsTable,
    /// A row of the head or the body begins.
    BeginsRow,
    /// The delimiter row ends.
    EndsDelimiter,
    Other,
}

/// Where the walk is.
#[derive(Clone, Copy)]
pub enum Section {
    /// In no table.
    Outside,
    Head,
    /// After the head, and before the first row of the body.
    Between,
    Body,
}

/// What an event is to the head and the body of a table.
#[inline(always)]
fn bound_of(event: &Event) -> Bound
    ensures { result ≡ bound_of event.now }
{
    match (event.name, event.kind) {
        (Name::GfmTable, Kind::Enter) => Bound::BeginsTable,
        (Name::GfmTable, Kind::Exit) => Bound::EndsTable,
        (Name::GfmTableRow, Kind::Enter) => Bound::BeginsRow,
        (Name::GfmTableDelimiterRow, Kind::Exit) => Bound::EndsDelimiter,
        _ => Bound::Other,
    }
}

/// Whether events of this name may be something to the head or the body of a table.
#[inline(always)]
fn may_bound(name: Name) -> bool
    ensures { result ≡ false → (kind : Kind) → bound_by kind name ≡ Bound.Other }
{
    matches!(
        name,
        Name::GfmTable | Name::GfmTableRow | Name::GfmTableDelimiterRow
    )
}

/// The section of a table after an event.
fn next(section: Section, bound: Bound) -> Section
    ensures { result ≡ next section bound }
{
    match (section, bound) {
        (_, Bound::Other) => section,
        (Section::Outside, Bound::BeginsTable) => Section::Head,
        (_, Bound::EndsTable) => Section::Outside,
        (Section::Head, Bound::EndsDelimiter) => Section::Between,
        (Section::Between, Bound::BeginsRow) => Section::Body,
        _ => section,
    }
}

/// Whether this is in a table.
fn in_table(section: Section) -> bool
    ensures { result ≡ in_table section }
{
    !matches!(section, Section::Outside)
}

/// Whether an event passes a section as it is.
#[inline(always)]
fn passes(section: Section, event: &Event) -> bool
    ensures { result ≡ passes section event.now }
{
    matches!(section, Section::Outside) && !matches!(bound_of(event), Bound::BeginsTable)
}

/// Whether an event passes a section as it is.
#[derive(Drop)]
struct PassesIn {
    section: Section,
}

impl Test for PassesIn {
    ghost passes = { λ test. passes test.section };

    fn passes(&self, event: &Event) -> bool {
        passes(self.section, event)
    }
}

/// How many events are before the first that does not pass a section as it is.
fn until_other(section: Section, events: &[Event]) -> usize
    ensures value { result ≡ prefix_len (passes section) events.now }
    ensures within { result ≤ length events.now }
{
    passing(&PassesIn { section }, events)
}

/// A walk over the events: what is given for those so far, and where it is.
#[derive(Drop)]
pub(crate) struct Walk {
    pub(crate) section: Section,
    pub(crate) rows: cells::Walk,
}

impl Walk {
    /// Goes on with events that pass as they are.
    fn copy(&mut self, events: &[Event]) -> Result<(), Message>
        ensures given { OnOk result (self.new.rows.given.items ≡ self.old.rows.given.items ++ events.now) }
        ensures section { self.new.section ≡ self.old.section }
        ensures stage { self.new.rows.stage ≡ self.old.rows.stage }
    {
        append(&mut self.rows.given, events)
    }

    /// Begins or ends the body before an event.
    fn put_in_front(&mut self, bound: Bound, event: &Event) -> Result<(), Message>
        ensures given { OnOk result
            (self.new.rows.given.items ≡ self.old.rows.given.items ++ in_front self.old.section bound event.now.point) }
        ensures section { self.new.section ≡ self.old.section }
        ensures stage { self.new.rows.stage ≡ self.old.rows.stage }
    {
        match (self.section, bound) {
            (_, Bound::Other) => Ok(()),
            (Section::Between, Bound::BeginsRow) => give(
                &mut self.rows.given,
                &plain(Kind::Enter, Name::GfmTableBody, event.point),
            ),
            (Section::Body, Bound::EndsTable) => give(
                &mut self.rows.given,
                &plain(Kind::Exit, Name::GfmTableBody, event.point),
            ),
            _ => Ok(()),
        }
    }

    /// Begins or ends the head after an event.
    fn put_after(&mut self, bound: Bound, event: &Event) -> Result<(), Message>
        ensures given { OnOk result
            (self.new.rows.given.items ≡ self.old.rows.given.items
            ++ following self.old.section bound event.now.point) }
        ensures section { self.new.section ≡ self.old.section }
        ensures stage { self.new.rows.stage ≡ self.old.rows.stage }
    {
        match (self.section, bound) {
            (_, Bound::Other) => Ok(()),
            (Section::Outside, Bound::BeginsTable) => give(
                &mut self.rows.given,
                &plain(Kind::Enter, Name::GfmTableHead, event.point),
            ),
            (Section::Head, Bound::EndsDelimiter) => give(
                &mut self.rows.given,
                &plain(Kind::Exit, Name::GfmTableHead, event.point),
            ),
            _ => Ok(()),
        }
    }

    /// Gives an event itself: in a table, with the cells of its row.
    #[inline(always)]
    fn put(&mut self, event: &Event, following: &[Event]) -> Result<(), Message>
        ensures given { OnOk result
            (self.new.rows.given.items ≡
            self.old.rows.given.items
            ++ (with_cells self.old.section self.old.rows.stage event.now following.now).given) }
        ensures section { self.new.section ≡ self.old.section }
        ensures stage { OnOk result
            (self.new.rows.stage ≡ (with_cells self.old.section self.old.rows.stage event.now following.now).stage) }
    {
        match self.section {
            Section::Outside => self.rows.pass(event, Stage::Outside),
            _ => self.rows.step(event, following),
        }
    }

    /// Goes on with an event, before these.
    fn step(&mut self, event: &Event, following: &[Event]) -> Result<(), Message>
        ensures given { OnOk result
            (self.new.rows.given.items ≡
            self.old.rows.given.items ++ given self.old.section self.old.rows.stage event.now following.now) }
        ensures section { OnOk result (self.new.section ≡ next self.old.section (bound_of event.now)) }
        ensures stage { OnOk result
            (self.new.rows.stage ≡ (with_cells self.old.section self.old.rows.stage event.now following.now).stage) }
    {
        if !may_bound(event.name) {
            return self.put(event, following);
        }
        let bound = bound_of(event);
        self.put_in_front(bound, event)?;
        self.put(event, following)?;
        self.put_after(bound, event)?;
        self.section = next(self.section, bound);
        Ok(())
    }

    /// Goes on up to after the begin of the next table, and says how many events that are.
    fn outside(&mut self, events: &[Event]) -> Result<usize, Message>
        requires { 0 < length events.now }
        ensures some { IfOk result (λ many. 0 < many) }
        ensures within { IfOk result (λ many. many ≤ length events.now) }
        ensures in_all { IfOk result (λ many. in_all self.new (drop many events.now) ≡ in_all self.old events.now) }
    {
        let many = until_other(self.section, events);
        self.copy(&events[..many])?;
        if many == events.len() {
            return Ok(many);
        }
        self.step(&events[many], &events[many + 1..])?;
        Ok(many + 1)
    }

    /// Goes on in a table with some events, and says how many.
    fn inside(&mut self, events: &[Event]) -> Result<usize, Message>
        requires some { 0 < length events.now }
        requires section { in_table self.old.section ≡ true }
        ensures some { IfOk result (λ many. 0 < many) }
        ensures within { IfOk result (λ many. many ≤ length events.now) }
        ensures in_all { IfOk result (λ many. in_all self.new (drop many events.now) ≡ in_all self.old events.now) }
    {
        let many = self.parts(events)?;
        if many == events.len() {
            return Ok(many);
        }
        self.step(&events[many], &events[many + 1..])?;
        Ok(many + 1)
    }
}

/// The events with the heads, bodies and cells of their tables, written into `spare`, which is empty.
#[inline(never)]
pub fn put_tables(events: &[Event], spare: Vec<Event>) -> Result<Vec<Event>, Message>
    requires { spare.items ≡ [] }
    ensures events { IfOk result (λ all. all.items ≡ tabled events.now) }
    ensures placed { IfOk result
        (λ all. (text : List ℕ) → ArePlaced text events.now → ArePlaced text all.items) }
{
    let mut walk = Walk {
        section: Section::Outside,
        rows: cells::Walk {
            given: spare,
            stage: Stage::Outside,
        },
    };
    let mut at = 0;
    while at < events.len() {
        let left = &events[at..];
        let many = if in_table(walk.section) {
            walk.inside(left)?
        } else {
            walk.outside(left)?
        };
        at += many;
    }
    let Walk { rows, .. } = walk;
    Ok(rows.given)
}
