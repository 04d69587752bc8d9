// Parts of a table that are passed at once: their begin, and their end right after it.

ghost use Rattle.std.specs.Prelude.{◌≡◌, ◌≤◌, ◌+◌, ◌∷◌, IfOk, drop, length, true};
ghost use Rattle.md_tables.specs.Proceeds.{IsWithin, begins_body, ends_head, ends_text_row, in_all, in_table};
ghost use Rattle.md_tables.specs.Proceeds.{is_between, is_ending, is_pair};
ghost use Rattle.md_tables.specs.Cells.{is_divider, is_inner, is_white};
ghost use Rattle.md_tables.specs.declared.cells.Stage.TheVariants.{Following, Front, Inner, Outside, Within};

use crate::cells::{
    RowKind, Stage, begins_row, cell_name, ends_inner, inner_name, is_continued, is_inner, row_ends,
};
use crate::giving::{
    give, give_between, give_first, give_last, give_two, give_two_first, give_two_last, give_whole,
};
use crate::tables::{Section, Walk};
use md_engine::event::{Event, Kind, Name};
use md_engine::message::Message;

/// Whether these are whitespace.
#[inline(always)]
fn is_white_pair(begin: &Event, end: &Event) -> bool
    ensures { result ≡ is_pair is_white begin.now end.now }
{
    matches!(begin.kind, Kind::Enter)
        && matches!(begin.name, Name::SpaceOrTab)
        && matches!(end.kind, Kind::Exit)
        && matches!(end.name, Name::SpaceOrTab)
}

/// Whether these are a pipe.
#[inline(always)]
fn is_pipe(begin: &Event, end: &Event) -> bool
    ensures { result ≡ is_pair is_divider begin.now end.now }
{
    matches!(begin.kind, Kind::Enter)
        && matches!(begin.name, Name::GfmTableCellDivider)
        && matches!(end.kind, Kind::Exit)
        && matches!(end.name, Name::GfmTableCellDivider)
}

/// Whether these are a piece of what the cells of a row hold.
#[inline(always)]
fn is_piece(kind: RowKind, begin: &Event, end: &Event) -> bool
    ensures { result ≡ is_pair (is_inner kind) begin.now end.now }
{
    matches!(begin.kind, Kind::Enter)
        && is_inner(kind, begin.name)
        && matches!(end.kind, Kind::Exit)
        && is_inner(kind, end.name)
}

/// Whether these are a line ending.
#[inline(always)]
fn is_ending(begin: &Event, end: &Event) -> bool
    ensures { result ≡ is_pair is_ending begin.now end.now }
{
    matches!(begin.kind, Kind::Enter)
        && matches!(begin.name, Name::LineEnding)
        && matches!(end.kind, Kind::Exit)
        && matches!(end.name, Name::LineEnding)
}

/// Whether a row of text ends here.
#[inline(always)]
fn ends_text_row(event: &Event) -> bool
    ensures { result ≡ ends_text_row event.now }
{
    matches!(event.kind, Kind::Exit) && matches!(event.name, Name::GfmTableRow)
}

/// Whether the head of a table ends here, with its delimiter row.
#[inline(always)]
fn ends_head(section: Section, event: &Event) -> bool
    ensures { result ≡ ends_head section event.now }
{
    matches!(section, Section::Head)
        && matches!(event.kind, Kind::Exit)
        && matches!(event.name, Name::GfmTableDelimiterRow)
}

/// Whether the body of a table begins here, with its first row.
#[inline(always)]
fn begins_body(section: Section, event: &Event) -> bool
    ensures { result ≡ begins_body section event.now }
{
    matches!(section, Section::Between)
        && matches!(event.kind, Kind::Enter)
        && matches!(event.name, Name::GfmTableRow)
}

/// Whether this is between the head and the body of a table.
#[inline(always)]
fn is_between(section: Section) -> bool
    ensures { result ≡ is_between section }
{
    matches!(section, Section::Between)
}

impl Walk {
    /// Goes on in a cell, before what it holds, with a piece of that: the whole of it, or its begin. Says how many
    /// events that are, and whether the walk stays there.
    #[inline(always)]
    fn piece_within(
        &mut self,
        kind: RowKind,
        begin: &Event,
        end: &Event,
        following: &[Event],
    ) -> Result<(usize, bool), Message>
        requires section { in_table self.old.section ≡ true }
        requires stage { self.old.rows.stage ≡ Within kind }
        requires piece { is_pair (is_inner kind) begin.now end.now ≡ true }
        ensures section { self.new.section ≡ self.old.section }
        ensures stays { IfOk result (λ part. part.1 ≡ true → IsWithin kind part.0 self.new.rows.stage) }
        ensures within { IfOk result (λ part. part.0 ≤ 2) }
        ensures in_all { IfOk result (λ part.
            in_all self.new (drop part.0 (begin.now ∷ end.now ∷ following.now))
            ≡ in_all self.old (begin.now ∷ end.now ∷ following.now)) }
    {
        let name = inner_name(kind);
        if is_continued(kind, following) {
            give_first(&mut self.rows.given, name, begin)?;
            self.rows.stage = Stage::Inner(kind);
            return Ok((1, false));
        }
        give_whole(&mut self.rows.given, name, begin, end)?;
        Ok((2, true))
    }

    /// Goes on in a cell at a pipe, which ends the cell, and begins the next one if it is not the last of its row: then
    /// the end of the row is passed too. Says how many events that are, and whether the walk stays there.
    #[inline(always)]
    fn pipe_within(
        &mut self,
        kind: RowKind,
        begin: &Event,
        end: &Event,
        following: &[Event],
    ) -> Result<(usize, bool), Message>
        requires section { in_table self.old.section ≡ true }
        requires stage { self.old.rows.stage ≡ Within kind }
        requires pipe { is_pair is_divider begin.now end.now ≡ true }
        ensures section { in_table self.new.section ≡ true }
        ensures stays { IfOk result (λ part. part.1 ≡ true → IsWithin kind part.0 self.new.rows.stage) }
        ensures within { IfOk result (λ part. part.0 ≤ 2 + length following.now) }
        ensures in_all { IfOk result (λ part.
            in_all self.new (drop part.0 (begin.now ∷ end.now ∷ following.now))
            ≡ in_all self.old (begin.now ∷ end.now ∷ following.now)) }
    {
        let name = cell_name(kind);
        if row_ends(following) {
            give_two_last(&mut self.rows.given, begin, end, name)?;
            self.rows.stage = Stage::Following;
            let many = self.part_after(following)?;
            return Ok((2 + many, false));
        }
        give_between(&mut self.rows.given, name, begin, end)?;
        Ok((2, true))
    }

    /// Goes on in a cell, before what it holds or after that. Says with how many events, and whether the walk stays
    /// there.
    #[inline(always)]
    fn part_within(&mut self, kind: RowKind, events: &[Event]) -> Result<(usize, bool), Message>
        requires section { in_table self.old.section ≡ true }
        requires stage { self.old.rows.stage ≡ Within kind }
        ensures section { in_table self.new.section ≡ true }
        ensures stays { IfOk result (λ part. part.1 ≡ true → IsWithin kind part.0 self.new.rows.stage) }
        ensures within { IfOk result (λ part. part.0 ≤ length events.now) }
        ensures in_all { IfOk result
            (λ part. in_all self.new (drop part.0 events.now) ≡ in_all self.old events.now) }
    {
        let [begin, end, following @ ..] = events else {
            return Ok((0, false));
        };
        if is_white_pair(begin, end) {
            give_two(&mut self.rows.given, begin, end)?;
            return Ok((2, true));
        }
        if is_piece(kind, begin, end) {
            return self.piece_within(kind, begin, end, following);
        }
        if is_pipe(begin, end) {
            return self.pipe_within(kind, begin, end, following);
        }
        Ok((0, false))
    }

    /// Goes on in a cell, and in those after it, as long as it stays before what they hold or after that. Says with how
    /// many events.
    #[inline(always)]
    fn parts_within(&mut self, kind: RowKind, events: &[Event]) -> Result<usize, Message>
        requires section { in_table self.old.section ≡ true }
        requires stage { self.old.rows.stage ≡ Within kind }
        ensures section { in_table self.new.section ≡ true }
        ensures within { IfOk result (λ many. many ≤ length events.now) }
        ensures in_all { IfOk result (λ many. in_all self.new (drop many events.now) ≡ in_all self.old events.now) }
    {
        let mut at = 0;
        loop {
            let (many, stays) = self.part_within(kind, &events[at..])?;
            at += many;
            if !stays {
                return Ok(at);
            }
        }
    }

    /// Goes on in what a cell holds at the end of a piece of it: up to the next piece, or after all of it.
    #[inline(always)]
    fn part_inner(&mut self, kind: RowKind, events: &[Event]) -> Result<usize, Message>
        requires section { in_table self.old.section ≡ true }
        requires stage { self.old.rows.stage ≡ Inner kind }
        ensures section { self.new.section ≡ self.old.section }
        ensures within { IfOk result (λ many. many ≤ length events.now) }
        ensures in_all { IfOk result (λ many. in_all self.new (drop many events.now) ≡ in_all self.old events.now) }
    {
        let [end, following @ ..] = events else {
            return Ok(0);
        };
        if !ends_inner(kind, end) {
            return Ok(0);
        }
        if !is_continued(kind, following) {
            give_last(&mut self.rows.given, end, inner_name(kind))?;
            self.rows.stage = Stage::Within(kind);
            return Ok(1);
        }
        match kind {
            RowKind::Text => Ok(4),
            RowKind::Delimiter => {
                give_two(&mut self.rows.given, end, &following[0])?;
                Ok(2)
            }
        }
    }

    /// Goes on before the first cell of a row with its pipe.
    #[inline(always)]
    fn part_front(&mut self, kind: RowKind, events: &[Event]) -> Result<usize, Message>
        requires section { in_table self.old.section ≡ true }
        requires stage { self.old.rows.stage ≡ Front kind }
        ensures section { self.new.section ≡ self.old.section }
        ensures within { IfOk result (λ many. many ≤ length events.now) }
        ensures in_all { IfOk result (λ many. in_all self.new (drop many events.now) ≡ in_all self.old events.now) }
    {
        let [begin, end, ..] = events else {
            return Ok(0);
        };
        if !is_pipe(begin, end) {
            return Ok(0);
        }
        give_two_first(&mut self.rows.given, cell_name(kind), begin, end)?;
        self.rows.stage = Stage::Within(kind);
        Ok(2)
    }

    /// Goes on between two rows with the ending of a line, or with the begin of a row, which may begin the body, and
    /// the pipe of its first cell.
    #[inline(always)]
    fn part_outside(&mut self, events: &[Event]) -> Result<usize, Message>
        requires section { in_table self.old.section ≡ true }
        requires stage { self.old.rows.stage ≡ Outside }
        ensures section { in_table self.new.section ≡ true }
        ensures within { IfOk result (λ many. many ≤ length events.now) }
        ensures in_all { IfOk result (λ many. in_all self.new (drop many events.now) ≡ in_all self.old events.now) }
    {
        let [begin, end, ..] = events else {
            return Ok(0);
        };
        if is_ending(begin, end) {
            give_two(&mut self.rows.given, begin, end)?;
            return Ok(2);
        }
        if begins_body(self.section, begin) {
            give_first(&mut self.rows.given, Name::GfmTableBody, begin)?;
            self.rows.stage = Stage::Front(RowKind::Text);
            self.section = Section::Body;
            let many = self.part_front(RowKind::Text, &events[1..])?;
            return Ok(1 + many);
        }
        if is_between(self.section) {
            return Ok(0);
        }
        let Some(kind) = begins_row(begin) else {
            return Ok(0);
        };
        give(&mut self.rows.given, begin)?;
        self.rows.stage = Stage::Front(kind);
        let many = self.part_front(kind, &events[1..])?;
        Ok(1 + many)
    }

    /// Goes on after the last pipe of a row with the end of the row, which may end the head.
    #[inline(always)]
    fn part_after(&mut self, events: &[Event]) -> Result<usize, Message>
        requires section { in_table self.old.section ≡ true }
        requires stage { self.old.rows.stage ≡ Following }
        ensures section { in_table self.new.section ≡ true }
        ensures within { IfOk result (λ many. many ≤ length events.now) }
        ensures in_all { IfOk result (λ many. in_all self.new (drop many events.now) ≡ in_all self.old events.now) }
    {
        let [end, ..] = events else {
            return Ok(0);
        };
        if ends_text_row(end) {
            give(&mut self.rows.given, end)?;
            self.rows.stage = Stage::Outside;
            return Ok(1);
        }
        if !ends_head(self.section, end) {
            return Ok(0);
        }
        give_last(&mut self.rows.given, end, Name::GfmTableHead)?;
        self.rows.stage = Stage::Outside;
        self.section = Section::Between;
        Ok(1)
    }

    /// Goes on with a part, if one is here, and says how many events it has.
    #[inline(always)]
    fn part(&mut self, events: &[Event]) -> Result<usize, Message>
        requires { in_table self.old.section ≡ true }
        ensures section { in_table self.new.section ≡ true }
        ensures within { IfOk result (λ many. many ≤ length events.now) }
        ensures in_all { IfOk result (λ many. in_all self.new (drop many events.now) ≡ in_all self.old events.now) }
    {
        match self.rows.stage {
            Stage::Within(RowKind::Text) => self.parts_within(RowKind::Text, events),
            Stage::Within(RowKind::Delimiter) => self.parts_within(RowKind::Delimiter, events),
            Stage::Inner(RowKind::Text) => self.part_inner(RowKind::Text, events),
            Stage::Inner(RowKind::Delimiter) => self.part_inner(RowKind::Delimiter, events),
            Stage::Front(kind) => self.part_front(kind, events),
            Stage::Outside => self.part_outside(events),
            Stage::Following => self.part_after(events),
            _ => Ok(0),
        }
    }

    /// Goes on with the parts that are here, and says how many events they have.
    pub(crate) fn parts(&mut self, events: &[Event]) -> Result<usize, Message>
        requires { in_table self.old.section ≡ true }
        ensures within { IfOk result (λ many. many ≤ length events.now) }
        ensures in_all { IfOk result (λ many. in_all self.new (drop many events.now) ≡ in_all self.old events.now) }
    {
        let mut at = 0;
        while at < events.len() {
            let many = self.part(&events[at..])?;
            if many == 0 {
                return Ok(at);
            }
            at += many;
        }
        Ok(at)
    }
}
