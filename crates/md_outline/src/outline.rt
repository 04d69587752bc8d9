// The outline of a text: its blocks and their lines, from the first to the last.

ghost use Rattle.std.specs.Prelude.{◌≡◌, ◌||◌, [], true, Option, option_map, IfOk, OnOk};
ghost use Rattle.std.specs.Str.{IsUtf8};
ghost use Rattle.md_events.specs.Events.Spelled as spelled;
ghost use Rattle.md_outline.specs.Outlined.{Outlines};
ghost use Rattle.md_outline.specs.DefinitionState.{part_word};
ghost use Rattle.md_outline.specs.LinedState.{shown_spaces};
ghost use Rattle.md_outline.specs.OutlinePart.{OutlinesPart};
ghost use Rattle.md_outline.specs.OutlineSteps.{IsCutAt, IsCutBy, cell_begun, counted_at, delimiter_ended, fence_begun};
ghost use Rattle.md_outline.specs.OutlineSteps.{head_marked, is_titled, label_ended, leaf_ended, marker_begun};
ghost use Rattle.md_outline.specs.OutlineSteps.{line_ended, parted_at, state_by, state_enter, state_exit, state_of};
ghost use Rattle.md_outline.specs.OutlineSteps.{text_begun, title_recorded, recorded_at, recorded_leaf};
ghost use Rattle.md_outline.specs.OutlineSteps.{recorded_marker};
ghost use Rattle.md_outline.specs.Roles.{shown_as};
ghost use Rattle.md_outline.specs.declared.outline.TextSpan.{TextSpan};
ghost use Rattle.md_outline.specs.declared.outline.role.Note.TheVariants as note;
ghost use Rattle.md_outline.specs.declared.outline.role.Purpose.{Purpose};
ghost use Rattle.md_outline.specs.declared.outline.role.Role.TheVariants as role;

mod alert;
mod definition;
mod footnote;
mod heading;
mod lined;
mod lines;
mod paragraph;
mod part;
mod role;
mod table;

use crate::outline::alert::{give_kind, kind_at, may_begin};
use crate::outline::definition::{fill_destination, part_of, push_part_end, push_part_piece};
use crate::outline::footnote::{fill_label, push_container};
use crate::outline::lined::{
    Lined, close_head, fill_line, form_of, mark_head, push_begun, push_line, push_part, spaces_at,
};
use crate::outline::lines::{first_of, next, part, push, push_lines};
use crate::outline::paragraph::{push_block, push_piece};
use crate::outline::part::part_end;
use crate::outline::role::{Leaf, Note, Purpose, Role, push_leaf, role_of};
use crate::outline::table::{count_column, fill_cell, push_cell, push_delimiter, push_row};
use md_engine::event::{Event, Kind, Name, Point};
use md_engine::message::Message;
use md_engine::parse_state::ParseState;
pub use md_meaning::alert::AlertKind;
pub use md_meaning::outline::{OutlineLine, Word};
use std::alloc::Global;

/// A text that is read.
#[derive(Clone, Copy)]
struct TextSpan {
    /// Where it begins, or continues after the last container prefix in it.
    from: usize,
    /// Whether there is a prefix in it: what is before that is shown.
    is_parted: bool,
}

/// What was read of the events so far.
#[derive(Drop)]
struct Reading<'a> {
    bytes: &'a [u8],
    /// How many containers are open.
    depth: usize,
    leaf: Option<Leaf<'a>>,
    text: Option<TextSpan>,
    /// The virtual spaces before it.
    spaces: usize,
    /// The leaf block of several lines that is open.
    lined: Option<Lined>,
    /// The line of a list that has begun, as long as its marker is not known.
    untold: Option<usize>,
    lines: Vec<OutlineLine<'a>>,
}

/// The first byte after a point: a tab that is cut belongs to what is in front.
fn byte_at(point: Point) -> Result<usize, Message>
    ensures { IfOk result (λ n. n ≡ spelled.byte_at point) }
{
    if point.vs == 0 {
        Ok(point.index)
    } else {
        next(point.index)
    }
}

impl<'a> Reading<'a> {
    /// Tells an open leaf of a text.
    fn note(&mut self, note: Note, text: &'a [u8])
        ensures bytes { self.new.bytes ≡ self.old.bytes }
        ensures read { IsUtf8 text.now → state_of self.new ≡ recorded_leaf note text.now (state_of self.old) }
    {
        if let Some(leaf) = self.leaf {
            self.leaf = Some(leaf.noted(note, text));
        }
    }

    /// Tells a list that has begun the marker of its first item.
    fn mark(&mut self, text: &[u8])
        ensures bytes { self.new.bytes ≡ self.old.bytes }
        ensures read { state_of self.new ≡ recorded_marker text.now (state_of self.old) }
    {
        let Some(place) = self.untold else {
            return;
        };
        self.untold = None;
        if place < self.lines.len() {
            self.lines[place].word = Word::List(first_of(text));
        }
    }

    /// Whether a heading is open whose lines are shown as they come.
    fn is_titled(&self) -> bool
        ensures { result ≡ is_titled self.now.lined }
    {
        match self.lined {
            Some(lined) => lined.form.is_heading(),
            None => false,
        }
    }

    /// The word that shows the lines of the part of a definition that is read, if one is open.
    fn part_word(&self) -> Option<Word>
        ensures { result ≡ part_word self.now.lined }
    {
        match self.lined {
            Some(lined) => part_of(lined.form, lined.is_fenced),
            None => None,
        }
    }

    /// The virtual spaces that a line of the leaf block of several lines is shown with.
    fn shown_spaces(&self) -> usize
        ensures { result ≡ shown_spaces self.now.lined self.now.spaces }
    {
        match self.lined {
            Some(lined) => lined.form.spaces(self.spaces),
            None => self.spaces,
        }
    }

    /// Whether the begin of its block is shown before a text.
    fn is_begun(&self, span: TextSpan) -> bool
        ensures { result ≡ is_titled self.now.lined || span.is_parted }
    {
        self.is_titled() || span.is_parted
    }

    /// Reads the text of a heading: its last lines, or all of it.
    fn title(&mut self, text: &'a [u8]) -> Result<(), Message>
        ensures bytes { self.new.bytes ≡ self.old.bytes }
        ensures read { OnOk result (IsUtf8 text.now →
            state_of self.new ≡ title_recorded (is_titled (state_of self.old).lined) text.now (state_of self.old)) }
    {
        if self.is_titled() {
            push_lines(&mut self.lines, next(self.depth)?, Word::Line, text)
        } else {
            self.note(Note::Title, text);
            Ok(())
        }
    }

    /// Reads a run of markers.
    #[inline(always)]
    fn end_markers(&mut self, text: &'a [u8]) -> Result<(), Message>
        ensures bytes { self.new.bytes ≡ self.old.bytes }
        ensures read { OnOk result (IsUtf8 text.now → state_of self.new ≡
            head_marked (state_of self.old).lined text.now (recorded_leaf note.Markers text.now (state_of self.old))) }
    {
        self.note(Note::Markers, text);
        self.mark_lined(text);
        Ok(())
    }

    /// Reads the label of a definition: its last lines, or all of it.
    fn end_label(&mut self, is_parted: bool, text: &'a [u8]) -> Result<(), Message>
        ensures bytes { self.new.bytes ≡ self.old.bytes }
        ensures read { OnOk result (IsUtf8 text.now →
            state_of self.new ≡ label_ended is_parted text.now (state_of self.old)) }
    {
        if let Some(lined) = self.lined {
            self.lined = Some(Lined {
                is_fenced: true,
                ..lined
            });
        }
        push_part_end(&mut self.lines, self.depth, Word::Label, is_parted, text)?;
        push(&mut self.lines, next(self.depth)?, Word::Destination, "")
    }

    /// Counts a cell of a table, which is a column more if it is one of the head: one before the delimiter row.
    fn count_cell(&mut self) -> Result<(), Message>
        ensures bytes { self.new.bytes ≡ self.old.bytes }
        ensures read { OnOk result (state_of self.new ≡ counted_at (state_of self.old).lined (state_of self.old)) }
    {
        match self.lined {
            Some(lined) if !lined.is_fenced => count_column(&mut self.lines, lined.place),
            _ => Ok(()),
        }
    }

    /// Reads the begin of a cell.
    fn begin_cell(&mut self) -> Result<(), Message>
        ensures bytes { self.new.bytes ≡ self.old.bytes }
        ensures read { OnOk result (state_of self.new ≡ cell_begun (state_of self.old)) }
    {
        self.count_cell()?;
        push_cell(&mut self.lines, self.depth)
    }

    /// Reads the delimiter row of a table.
    fn end_delimiter(&mut self, text: &'a [u8]) -> Result<(), Message>
        ensures bytes { self.new.bytes ≡ self.old.bytes }
        ensures read { OnOk result
            (IsUtf8 text.now → state_of self.new ≡ delimiter_ended text.now (state_of self.old)) }
    {
        if let Some(lined) = self.lined {
            self.lined = Some(Lined {
                is_fenced: true,
                ..lined
            });
        }
        push_delimiter(&mut self.lines, self.depth, text)
    }

    /// Tells a leaf block of several lines the markers of its first fence, or of its underline.
    fn mark_lined(&mut self, text: &[u8])
        ensures bytes { self.new.bytes ≡ self.old.bytes }
        ensures read { state_of self.new ≡ head_marked (state_of self.old).lined text.now (state_of self.old) }
    {
        let Some(lined) = self.lined else {
            return;
        };
        if lined.is_fenced {
            return;
        }
        self.lined = Some(Lined {
            is_fenced: true,
            ..lined
        });
        mark_head(&mut self.lines, lined.place, first_of(text));
    }

    /// Reads the begin of a fence, which may close a leaf block.
    fn begin_fence(&mut self)
        ensures bytes { self.new.bytes ≡ self.old.bytes }
        ensures read { state_of self.new ≡ fence_begun (state_of self.old).lined (state_of self.old) }
    {
        let Some(lined) = self.lined else {
            return;
        };
        if lined.is_fenced {
            close_head(&mut self.lines, lined.place);
        }
    }

    /// Reads a line ending, which may open a line of a leaf block.
    #[inline(always)]
    fn end_line(&mut self, end: usize) -> Result<(), Message>
        ensures bytes { self.new.bytes ≡ self.old.bytes }
        ensures read { OnOk result (state_of self.new ≡
            line_ended self.old.bytes.now end (state_of self.old).lined self.old.text (state_of self.old)) }
    {
        match (self.lined, self.text) {
            (Some(lined), None) if lined.form.has_own_lines() && end < self.bytes.len() => {
                push_line(&mut self.lines, self.depth)
            }
            _ => Ok(()),
        }
    }

    /// Adds the leaf that ends here, if one is open.
    fn end_leaf(&mut self) -> Result<(), Message>
        ensures bytes { self.new.bytes ≡ self.old.bytes }
        ensures read { OnOk result (state_of self.new ≡ leaf_ended (state_of self.old).leaf (state_of self.old)) }
    {
        let Some(leaf) = self.leaf else {
            return Ok(());
        };
        self.leaf = None;
        push_leaf(&mut self.lines, self.depth, leaf)
    }

    /// Reads the begin of a text.
    #[inline(always)]
    fn begin_text(&mut self, point: Point) -> Result<(), Message>
        ensures bytes { self.new.bytes ≡ self.old.bytes }
        ensures read { OnOk result (state_of self.new ≡ text_begun point (state_of self.old)) }
    {
        self.spaces = spaces_at(point);
        self.text = Some(TextSpan {
            from: byte_at(point)?,
            is_parted: false,
        });
        Ok(())
    }

    /// Reads the text that ends here, if one is read.
    #[inline(always)]
    fn end_text(&mut self, name: Name, end: usize) -> Result<(), Message>
        ensures bytes { self.new.bytes ≡ self.old.bytes }
        ensures read { OnOk result ((purpose : Purpose) → shown_as (spelled.role name) ≡ role.Text purpose →
            IsCutAt self.old.bytes.now self.old.text end →
            state_of self.new ≡ recorded_at self.old.bytes.now purpose end self.old.text (state_of self.old)) }
    {
        let Some(span) = self.text else {
            return Ok(());
        };
        self.text = None;
        let text = part(self.bytes, span.from, end);
        let Role::Text(purpose) = role_of(name) else {
            return Ok(());
        };
        match purpose {
            Purpose::Block => push_block(&mut self.lines, self.depth, span.is_parted, text),
            Purpose::Title => self.title(text),
            Purpose::Markers => self.end_markers(text),
            Purpose::Part(word) => push_part(&mut self.lines, self.depth, word, text),
            Purpose::Line => {
                let spaces = self.shown_spaces();
                fill_line(&mut self.lines, self.depth, spaces, text)
            }
            Purpose::Label => self.end_label(span.is_parted, text),
            Purpose::Destination => fill_destination(&mut self.lines, self.depth, text),
            Purpose::DefinitionTitle => {
                push_part_end(
                    &mut self.lines,
                    self.depth,
                    Word::Title,
                    span.is_parted,
                    text,
                )
            }
            Purpose::Cell => fill_cell(&mut self.lines, self.depth, text),
            Purpose::Delimiter => self.end_delimiter(text),
            Purpose::Marker => {
                self.mark(text);
                Ok(())
            }
            Purpose::Digits => Ok(()),
            Purpose::FootnoteLabel => fill_label(&mut self.lines, self.depth, text),
        }
    }

    /// Shows what is before a prefix in the text that is read, if one is.
    #[inline(never)]
    fn show_piece(&mut self, end: usize) -> Result<(), Message>
        ensures bytes { self.new.bytes ≡ self.old.bytes }
        ensures read { OnOk result (IsCutAt self.old.bytes.now self.old.text end →
            state_of self.new ≡ parted_at self.old.bytes.now end self.old.text (state_of self.old)) }
    {
        let Some(span) = self.text else {
            return Ok(());
        };
        let text = part(self.bytes, span.from, end);
        self.text = Some(TextSpan {
            from: span.from,
            is_parted: true,
        });
        match self.part_word() {
            Some(word) => push_part_piece(&mut self.lines, self.depth, word, span.is_parted, text),
            None => {
                let is_shown = self.is_begun(span);
                push_piece(&mut self.lines, self.depth, is_shown, text)
            }
        }
    }

    /// Reads the begin of a prefix. Where no text is read, or another prefix ends there, nothing before it is shown.
    #[inline(always)]
    fn part_text(&mut self, end: usize) -> Result<(), Message>
        ensures bytes { self.new.bytes ≡ self.old.bytes }
        ensures read { OnOk result (IsCutAt self.old.bytes.now self.old.text end →
            state_of self.new ≡ parted_at self.old.bytes.now end self.old.text (state_of self.old)) }
    {
        let Some(span) = self.text else {
            return Ok(());
        };
        if span.is_parted && end <= span.from {
            return Ok(());
        }
        self.show_piece(end)
    }

    /// Reads on after a prefix.
    fn proceed(&mut self, place: usize)
        ensures bytes { self.new.bytes ≡ self.old.bytes }
        ensures read { state_of self.new ≡
            record (state_of self.old) {
              text = option_map (λ (t : TextSpan). record t { from = place }) self.old.text;
            } }
    {
        if let Some(TextSpan { is_parted, .. }) = self.text {
            self.text = Some(TextSpan {
                from: place,
                is_parted,
            });
        }
    }

    /// Reads the begin of a marker of a quote.
    #[inline(always)]
    fn begin_marker(&mut self, index: usize)
        ensures bytes { self.new.bytes ≡ self.old.bytes }
        ensures read { state_of self.new ≡ marker_begun self.old.bytes.now index
            self.old.text (state_of self.old).leaf self.old.lined (state_of self.old) }
    {
        if may_begin(self.bytes, index) {
            self.begin_kind(index);
        }
    }

    /// Reads the begin of a marker of a quote. It may give the quote its kind as long as nothing in the quote is shown:
    /// then the line of the quote is the last.
    #[inline(never)]
    fn begin_kind(&mut self, index: usize)
        ensures bytes { self.new.bytes ≡ self.old.bytes }
        ensures read { state_of self.new ≡ marker_begun self.old.bytes.now index
            self.old.text (state_of self.old).leaf self.old.lined (state_of self.old) }
    {
        if let (None, None, None) = (self.text, self.leaf, self.lined) {
            if let Some(kind) = kind_at(self.bytes, index) {
                give_kind(&mut self.lines, self.depth, kind);
            }
        }
    }

    /// Reads an event that begins a part.
    #[inline(always)]
    fn enter(&mut self, name: Name, point: Point) -> Result<(), Message>
        ensures bytes { self.new.bytes ≡ self.old.bytes }
        ensures read { OnOk result (
            IsCutBy (shown_as (spelled.role name)) self.old.bytes.now self.old.text point.index →
            state_of self.new ≡
            state_enter self.old.bytes.now (shown_as (spelled.role name)) point (state_of self.old)) }
    {
        match role_of(name) {
            Role::Container(word) => {
                push_container(&mut self.lines, self.depth, word)?;
                self.depth = next(self.depth)?;
            }
            Role::List => {
                self.untold = Some(self.lines.len());
                push(&mut self.lines, self.depth, Word::List(0), "")?;
                self.depth = next(self.depth)?;
            }
            Role::Prefix => self.part_text(point.index)?,
            Role::Leaf(leaf) => self.leaf = Some(leaf),
            Role::Lined(word) => {
                self.leaf = None;
                self.lined = Some(Lined {
                    place: self.lines.len(),
                    is_fenced: false,
                    form: form_of(word),
                });
                push_begun(&mut self.lines, self.depth, word)?;
            }
            Role::Fence => self.begin_fence(),
            Role::Title => push(&mut self.lines, next(self.depth)?, Word::Title, "")?,
            Role::Row => push_row(&mut self.lines, self.depth)?,
            Role::Cell => self.begin_cell()?,
            Role::Text(_) => self.begin_text(point)?,
            Role::QuoteMarker => self.begin_marker(point.index),
            Role::Ending | Role::Quiet => {}
        }
        Ok(())
    }

    /// Reads an event that ends a part.
    #[inline(always)]
    fn exit(&mut self, name: Name, point: Point) -> Result<(), Message>
        ensures bytes { self.new.bytes ≡ self.old.bytes }
        ensures read { OnOk result (
            IsCutBy (shown_as (spelled.role name)) self.old.bytes.now self.old.text point.index →
            state_of self.new ≡
            state_exit self.old.bytes.now (shown_as (spelled.role name)) point (state_of self.old)) }
    {
        match role_of(name) {
            Role::Container(_) | Role::List => {
                self.depth = self.depth.saturating_sub(1);
                Ok(())
            }
            Role::Prefix => {
                self.proceed(byte_at(point)?);
                Ok(())
            }
            Role::Leaf(_) => self.end_leaf(),
            Role::Lined(_) => {
                self.lined = None;
                Ok(())
            }
            Role::Ending => self.end_line(point.index),
            Role::Text(_) => self.end_text(name, point.index),
            Role::Fence | Role::Title | Role::Row | Role::Cell | Role::QuoteMarker | Role::Quiet =>
                Ok(()),
        }
    }

    /// Reads the next event: those of the most frequent roles first.
    #[inline(always)]
    fn read(&mut self, event: &Event) -> Result<(), Message>
        ensures bytes { self.new.bytes ≡ self.old.bytes }
        ensures read { OnOk result (
            IsCutBy (shown_as (spelled.role event.now.name)) self.old.bytes.now self.old.text event.now.point.index →
            state_of self.new ≡ state_by self.old.bytes.now event.now.kind (shown_as (spelled.role event.now.name))
            event.now.point (state_of self.old)) }
    {
        match role_of(event.name) {
            Role::Quiet => {}
            Role::Ending => {
                if let Kind::Exit = event.kind {
                    self.end_line(event.point.index)?;
                }
            }
            Role::Text(_) => match event.kind {
                Kind::Enter => self.begin_text(event.point)?,
                Kind::Exit => self.end_text(event.name, event.point.index)?,
            },
            Role::Prefix => match event.kind {
                Kind::Enter => self.part_text(event.point.index)?,
                Kind::Exit => self.proceed(byte_at(event.point)?),
            },
            Role::QuoteMarker => {
                if let Kind::Enter = event.kind {
                    self.begin_marker(event.point.index);
                }
            }
            _ => match event.kind {
                Kind::Enter => self.enter(event.name, event.point)?,
                Kind::Exit => self.exit(event.name, event.point)?,
            },
        }
        Ok(())
    }
}

/// A line has at least so many events, in all but short texts.
const EVENTS_A_LINE: usize = 4;

/// For how many lines more there is room: a short text has fewer events a line.
const SPARE_LINES: usize = 8;

/// An empty list with room for the lines of so many events. It rarely grows, so the C library rarely copies it.
fn with_room<'a>(alloc: Global, events: usize) -> Result<Vec<OutlineLine<'a>>, Message>
    ensures { IfOk result (λ lines. lines.items ≡ []) }
{
    let most = SPARE_LINES + events / EVENTS_A_LINE;
    match Vec::with_capacity(alloc, events.min(most)) {
        Ok(lines) => Ok(lines),
        Err(_) => Err(Message),
    }
}

/// The outline of what `parse` has read: the lines of the tree that the events spell out.
///
/// An `Err` says that memory ran out; then nothing is handed out.
#[inline(never)]
pub fn outline<'a>(
    alloc: Global,
    events: &[Event],
    state: &ParseState<'a>,
) -> Result<Vec<OutlineLine<'a>>, Message>
    ensures { IfOk result (λ lines. Outlines events.now state.now.bytes.now lines.items) }
{
    let mut reading = Reading {
        bytes: state.bytes,
        depth: 0,
        leaf: None,
        text: None,
        spaces: 0,
        lined: None,
        untold: None,
        lines: with_room(alloc, events.len())?,
    };
    for event in events {
        reading.read(event)?;
    }
    Ok(reading.lines)
}

/// The outline of the first blocks of a text.
#[derive(Drop)]
pub struct OutlinePart<'a> {
    /// The lines of the outline of these blocks, from the first to the last.
    pub lines: Vec<OutlineLine<'a>>,
    /// How many events these blocks are: the outline continues with those after them.
    pub events: usize,
}

/// The outline of the first blocks of what `parse` has read, so that not all lines of a long text have to be in memory
/// at once.
///
/// The lines of this part and then the outline of the events after it, `&events[part.events..]`, are the outline of
/// all. It is of some thousand events or more: as many as its last block needs, and all if there are fewer. So a loop
/// over the parts ends, and only of no events a part is of none.
///
/// An `Err` says that memory ran out; then nothing is handed out.
pub fn outline_part<'a>(
    alloc: Global,
    events: &[Event],
    state: &ParseState<'a>,
) -> Result<OutlinePart<'a>, Message>
    ensures { IfOk result
        (λ part. OutlinesPart events.now state.now.bytes.now part.lines.items part.events) }
{
    let end = part_end(events);
    let lines = outline(alloc, &events[..end], state)?;
    Ok(OutlinePart { lines, events: end })
}
