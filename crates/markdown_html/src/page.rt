// The HTML of events, in one walk from the first to the last: all of a text at once, or some at a time.
//
// The list nests: a part has an enter and an exit, and what is between them is in the part. So tags are written where
// parts begin and end, and only little has to be known of what is open. The exit of a piece is right after its enter, and
// its bytes lie between them: so it is written where it is entered.
//
// A footnote definition is written apart, and where the page ends those that are shown become its last section.

ghost use Rattle.std.specs.Prelude.{◌≤◌, length};

use crate::ahead::{Alert, alert_at, atx_heading, list_start, read_columns, setext_heading};
use crate::footnotes::{begin_section, end_section, push_note};
use crate::inside::{Around, Inside, Piece};
use crate::known::Known;
use crate::lists::Lists;
use crate::media::MediaWalk;
use crate::survey::Target;
use crate::table::Table;
use crate::tags::{Shown, Sort, is_media, sort_of};
use crate::targets::most_repeated;
use crate::writer::Writer;
use md_engine::event::{Event, Kind, Name, Point};
use md_engine::message::Message;
use md_events::slice::{Position, Slice, between};
use std::alloc::Global;
use std::mem;

/// A footnote definition that is open.
#[derive(Drop)]
struct OpenNote {
    /// How many begin before it.
    place: usize,
    /// What was written until it began.
    around: Vec<u8>,
}

/// What is written of a text, and what has to be known of the parts that are open.
#[derive(Drop)]
pub(crate) struct Page {
    alloc: Global,
    out: Writer,
    /// The line ending of what the text does not have.
    ending: &'static str,
    /// Whether a line that the text does not have ends with a line feed.
    ends_by_feed: bool,
    /// Where the part of a text begins that was entered last.
    start: Point,
    /// What becomes of the texts and line endings that come next.
    shown: Shown,
    /// The name of the tag of the last heading.
    heading: &'static str,
    /// How many headings have begun.
    headings: usize,
    table: Table,
    /// How many bytes of definitions may be written in the parts that follow.
    left: usize,
    lists: Lists,
    media: MediaWalk,
    inside: Inside,
    /// The footnote definitions that are open.
    open: Vec<OpenNote>,
    /// What is written of each that has begun.
    bodies: Vec<Vec<u8>>,
}

/// For how many bytes a page has room at once: as many as the text has, and some for tags.
fn room_for(bytes: &[u8]) -> usize {
    bytes.len().saturating_add(bytes.len() / 4)
}

/// The events from one of them on.
#[inline(always)]
fn ahead_of<'a>(known: &Known<'a, '_>, at: usize) -> &'a [Event] {
    known.events.get(at..).unwrap_or(&[])
}

/// The bytes of a piece, without a tab of which a container has taken columns, as indices: of its first byte, and of the
/// one after it.
#[inline(always)]
fn places(start: Point, end: Point) -> (usize, usize) {
    let from = if start.vs > 0 {
        start.index.saturating_add(1)
    } else {
        start.index
    };
    (from, end.index)
}

impl Page {
    /// A page of a text on which nothing is written.
    pub(crate) fn new(alloc: Global, bytes: &[u8], ending: &'static str) -> Page {
        Page {
            alloc,
            out: Writer::with_room(alloc, room_for(bytes)),
            ending,
            ends_by_feed: ending == "\n",
            start: Point {
                line: 1,
                column: 1,
                index: 0,
                vs: 0,
            },
            shown: Shown::Nothing,
            heading: "h1",
            headings: 0,
            table: Table::new(Vec::new(alloc), most_repeated(bytes)),
            left: most_repeated(bytes),
            lists: Lists::new(alloc),
            media: MediaWalk::new(alloc),
            inside: Inside::new(alloc),
            open: Vec::new(alloc),
            bodies: Vec::new(alloc),
        }
    }

    /// Writes those of the events from one index to another, after what is written. It is called in one place, where it is
    /// in line.
    #[inline(always)]
    pub(crate) fn write(&mut self, known: &Known, from: usize, to: usize) {
        let list = known.events.get(..to).unwrap_or(&[]);
        let mut at = from;
        while at < list.len() {
            let event = &list[at];
            match (sort_of(event.name), event.kind) {
                (Sort::Quiet, _) => at += 1,
                (Sort::Mark, _) => at += 2,
                (Sort::Piece, _) => {
                    let exit = self.text_to(event, list, at + 1);
                    if let Some(end) = list.get(exit) {
                        self.write_piece(known, event, end.point);
                    }
                    at = exit + 1;
                }
                (Sort::Block, Kind::Enter) => {
                    self.enter_block(known, event.name, at);
                    at += 1;
                }
                (Sort::Block, Kind::Exit) => {
                    self.exit_block(event.name);
                    at += 1;
                }
                (Sort::Phrase, Kind::Enter) => {
                    self.enter_phrase(known, event, at);
                    at += 1;
                }
                (Sort::Phrase, Kind::Exit) => {
                    self.exit_phrase(known, event);
                    at += 1;
                }
            }
        }
    }

    /// What is written. An `Err` says that memory ran out before all of it was.
    pub(crate) fn html(self) -> Result<Vec<u8>, Message> {
        let is_refused = self.inside.is_refused();
        let (html, is_cut) = self.out.finish();
        if is_cut || is_refused {
            Err(Message)
        } else {
            Ok(html)
        }
    }

    /// Begins what an inline layer has found in a text, with the event at this index.
    fn enter_phrase(&mut self, known: &Known, event: &Event, at: usize) {
        self.start = event.point;
        let around = self.around();
        if is_media(event.name) {
            let target = self.media_target(known, ahead_of(known, at));
            self.inside
                .enter_media(known, &mut self.out, event.name, target, around);
        } else {
            self.inside.enter(&mut self.out, event, around);
        }
    }

    /// Where the link or image leads that begins with these events.
    fn media_target(&mut self, known: &Known, ahead: &[Event]) -> Option<Target> {
        match self.media.enter(known, ahead, &mut self.left) {
            Ok(target) => target,
            Err(Message) => {
                self.out.refuse(true);
                None
            }
        }
    }

    /// Ends it.
    fn exit_phrase(&mut self, known: &Known, event: &Event) {
        if is_media(event.name) {
            self.media.exit();
        }
        let (from, to) = places(self.start, event.point);
        let piece = Piece { from, to };
        let around = self.around();
        self.inside.exit(known, &mut self.out, event, piece, around);
    }

    /// The index of the event with which a text ends that begins with a piece, of which this is the exit: lines of text that
    /// are beside one another are written at once.
    #[inline(always)]
    fn text_to(&self, enter: &Event, list: &[Event], exit: usize) -> usize
        requires { exit ≤ length list.now }
        ensures { (exit ≤ result) × (result ≤ length list.now) }
    {
        if enter.name != Name::Data || !self.inside.is_plain() {
            return exit;
        }
        let mut end = exit;
        while list.len() - end > 4 {
            if list[end + 1].name != Name::LineEnding || list[end + 3].name != Name::Data {
                break;
            }
            end += 4;
        }
        end
    }

    /// Writes the piece that begins with this event and ends at a point.
    fn write_piece(&mut self, known: &Known, enter: &Event, end: Point) {
        let start = enter.point;
        match enter.name {
            Name::CodeFlowChunk | Name::MathFlowChunk => self.push_line(known, start, end),
            Name::HtmlFlowData => self.push_html(known, start, end),
            Name::LineEnding => self.end_line(known, start, end),
            _ => {
                let (from, to) = places(start, end);
                let around = self.around();
                if self.inside.is_shown(around) {
                    self.out.push_escaped_within(known.bytes, from, to);
                }
            }
        }
    }

    /// Begins a block or a part of one, with the event at this index.
    fn enter_block(&mut self, known: &Known, name: Name, at: usize) {
        match name {
            Name::Paragraph => {
                self.shown = Shown::Text;
                if !self.lists.is_tight() {
                    self.push_on_line("<p>");
                }
            }
            Name::HeadingAtx => self.begin_heading(
                known,
                atx_heading(known.bytes, ahead_of(known, at)),
            ),
            Name::HeadingSetext => self.begin_heading(
                known,
                setext_heading(known.bytes, ahead_of(known, at)),
            ),
            Name::HeadingAtxText | Name::HeadingSetextText => self.shown = Shown::Text,
            Name::ThematicBreak => {
                self.begin_line();
                self.push_ended("<hr />\n");
            }
            Name::CodeIndented | Name::CodeFenced | Name::MathFlow | Name::HtmlFlow => {
                self.enter_literal(name);
            }
            Name::CodeFencedFenceInfo => {
                self.shown = Shown::Text;
                self.out.push(" class=\"language-");
            }
            Name::BlockQuote => {
                self.begin_line();
                let kind = alert_at(known.bytes, ahead_of(known, at));
                self.begin_quote(kind);
            }
            Name::ListUnordered => {
                self.begin_line();
                self.push_ended("<ul>\n");
                self.lists.begin_list(&mut self.out, ahead_of(known, at));
            }
            Name::ListOrdered => {
                self.push_on_line("<ol");
                self.lists.begin_list(&mut self.out, ahead_of(known, at));
                self.end_list_tag(known, ahead_of(known, at));
            }
            Name::ListItem => self.push_on_line("<li>"),
            Name::GfmFootnoteDefinition => self.begin_note(),
            _ => self.enter_table(known, name, at),
        }
    }

    /// Ends a block or a part of one.
    fn exit_block(&mut self, name: Name) {
        match name {
            Name::Paragraph => {
                self.shown = Shown::Nothing;
                if !self.lists.is_tight() {
                    self.push_ended("</p>\n");
                }
            }
            Name::HeadingAtx | Name::HeadingSetext => {
                self.out.push("</");
                self.out.push(self.heading);
                self.push_ended(">\n");
            }
            Name::HeadingAtxText | Name::HeadingSetextText => self.shown = Shown::Nothing,
            Name::CodeFencedFence | Name::MathFlowFence => self.exit_fence(name),
            Name::CodeIndented | Name::CodeFenced | Name::MathFlow | Name::HtmlFlow => {
                self.exit_literal(name);
            }
            Name::CodeFencedFenceInfo => {
                self.shown = Shown::Nothing;
                self.out.push("\"");
            }
            Name::BlockQuote => {
                let is_alert = self.lists.end_quote();
                self.push_ended(if is_alert {
                    "</div>\n"
                } else {
                    "</blockquote>\n"
                });
            }
            Name::ListUnordered => {
                self.push_ended("</ul>\n");
                self.lists.end_list();
            }
            Name::ListOrdered => {
                self.push_ended("</ol>\n");
                self.lists.end_list();
            }
            Name::ListItem => self.push_ended("</li>\n"),
            Name::GfmFootnoteDefinition => self.end_note(),
            _ => self.exit_table(name),
        }
    }

    /// Begins code, math or HTML. Indented code and HTML begin with their first line.
    fn enter_literal(&mut self, name: Name) {
        self.begin_line();
        match name {
            Name::CodeIndented => {
                self.shown = Shown::Line;
                self.out.push("<pre><code>");
            }
            Name::CodeFenced => self.out.push("<pre><code"),
            Name::MathFlow => self
                .out
                .push("<pre><code class=\"language-math math-display\">"),
            _ => self.shown = Shown::Line,
        }
    }

    /// Ends a fence. The ending after the first fence begins the first line. The last fence is no line.
    fn exit_fence(&mut self, name: Name) {
        // After the first fence of code the tag of the block is still open.
        if name == Name::CodeFencedFence && self.shown == Shown::Nothing {
            self.out.push(">");
        }
        self.shown = Shown::Lines;
    }

    /// Ends code, math or HTML. The ending of the last line is outside of the block.
    fn exit_literal(&mut self, name: Name) {
        if self.shown == Shown::Line {
            self.out.push(self.ending);
        }
        self.shown = Shown::Nothing;
        if name != Name::HtmlFlow {
            self.push_ended("</code></pre>\n");
        }
    }

    fn around(&self) -> Around {
        Around {
            is_text: self.shown == Shown::Text,
            is_cell: self.table.is_cell,
        }
    }

    /// Writes a text that ends with a line feed, by the line ending of what the text does not have.
    #[inline(always)]
    fn push_ended(&mut self, text: &str) {
        if self.ends_by_feed {
            self.out.push(text);
        } else {
            self.out.push(text.strip_suffix('\n').unwrap_or(text));
            self.out.push(self.ending);
        }
    }

    /// Writes a text on a new line.
    #[inline(always)]
    fn push_on_line(&mut self, text: &str) {
        self.begin_line();
        self.out.push(text);
    }

    /// Goes to a new line of the page, where the last one is not empty.
    #[inline(always)]
    fn begin_line(&mut self) {
        if !self.out.is_line_start() {
            self.out.push(self.ending);
        }
    }

    /// Ends the tag of an ordered list.
    fn end_list_tag(&mut self, known: &Known, ahead: &[Event]) {
        let start = list_start(known.bytes, ahead);
        if start != 1 {
            self.out.push(" start=\"");
            self.out.push_number(start);
            self.out.push("\"");
        }
        self.push_ended(">\n");
    }

    /// Begins a quote. One that is an alert is as on GitHub, with a title.
    fn begin_quote(&mut self, kind: Option<Alert>) {
        self.lists.begin_quote(&mut self.out, kind.is_some());
        match kind {
            Some(alert) => {
                self.out.push("<div class=\"markdown-alert markdown-alert-");
                self.out.push(alert.class);
                self.push_ended("\">\n");
                self.out.push("<p class=\"markdown-alert-title\">");
                self.out.push(alert.title);
                self.push_ended("</p>\n");
            }
            None => self.push_ended("<blockquote>\n"),
        }
    }

    /// Begins a footnote definition, which is written apart.
    fn begin_note(&mut self) {
        self.lists.begin(&mut self.out);
        let place = self.bodies.len();
        let around = self.out.take();
        let opened = self.open.push(OpenNote { place, around });
        self.out.refuse(opened.is_err());
        let kept = self.bodies.push(Vec::new(self.alloc));
        self.out.refuse(kept.is_err());
    }

    fn end_note(&mut self) {
        self.lists.end();
        if let Some(note) = self.open.pop() {
            let body = self.out.replace(note.around);
            if let Some(kept) = self.bodies.get_mut(note.place) {
                let _empty = mem::replace(kept, body);
            }
        }
    }

    fn begin_heading(&mut self, known: &Known, tag: &'static str) {
        self.heading = tag;
        self.push_on_line("<");
        self.out.push(tag);
        self.push_heading_id(known);
        self.out.push(">");
    }

    /// Writes the `id` of the heading that begins, if it has one.
    fn push_heading_id(&mut self, known: &Known) {
        let place = self.headings;
        self.headings = place.saturating_add(1);
        if let Some(id) = known.whole.ids.get(place) {
            if !id.is_empty() {
                self.out.push(" id=\"");
                self.out.push_escaped(id.as_bytes());
                self.out.push("\"");
            }
        }
    }

    /// Begins a table or a part of one.
    fn enter_table(&mut self, known: &Known, name: Name, at: usize) {
        match name {
            Name::GfmTable => {
                self.begin_line();
                self.push_ended("<table>\n");
                let read = read_columns(&mut self.table.columns, ahead_of(known, at));
                self.out.refuse(read.is_err());
            }
            Name::GfmTableHead => {
                self.push_ended("<thead>\n");
                self.table.is_head = true;
            }
            Name::GfmTableBody => {
                self.push_ended("<tbody>\n");
                self.table.is_head = false;
            }
            Name::GfmTableRow => {
                self.push_ended("<tr>\n");
                self.table.column = 0;
            }
            Name::GfmTableCell => self.table.begin_cell(&mut self.out),
            Name::GfmTableCellText if self.table.is_shown() => self.shown = Shown::Text,
            _ => {}
        }
    }

    /// Ends a table or a part of one.
    fn exit_table(&mut self, name: Name) {
        match name {
            Name::GfmTable => self.push_ended("</table>\n"),
            Name::GfmTableHead => self.push_ended("</thead>\n"),
            Name::GfmTableBody => self.push_ended("</tbody>\n"),
            Name::GfmTableRow => {
                self.table.fill_row(&mut self.out, self.ending);
                self.push_ended("</tr>\n");
            }
            Name::GfmTableCell => self.table.end_cell(&mut self.out, self.ending),
            Name::GfmTableCellText => self.shown = Shown::Nothing,
            _ => {}
        }
    }

    /// Writes what a container has left of a tab before a line, as spaces, and says where the bytes of the line are.
    fn begin_piece(&mut self, known: &Known, start: Point, end: Point) -> (usize, usize) {
        if start.vs > 0 {
            let piece = Slice::from_position(known.bytes, Position { start, end });
            for _ in 0..piece.before {
                self.out.push(" ");
            }
        }
        places(start, end)
    }

    /// Writes a line of code or math.
    fn push_line(&mut self, known: &Known, start: Point, end: Point) {
        let (from, to) = self.begin_piece(known, start, end);
        self.out.push_escaped_within(known.bytes, from, to);
    }

    /// Writes a line of HTML.
    fn push_html(&mut self, known: &Known, start: Point, end: Point) {
        let (from, to) = self.begin_piece(known, start, end);
        if known.whole.options.allow_dangerous_html {
            self.out.push_shown(between(known.bytes, from, to));
        } else {
            self.out.push_escaped_within(known.bytes, from, to);
        }
    }

    /// Goes to the next line of what is shown. After the ending that the text ends with no line begins.
    fn end_line(&mut self, known: &Known, start: Point, end: Point) {
        match self.shown {
            Shown::Nothing => {}
            Shown::Text => {
                let (from, to) = places(start, end);
                let ending = between(known.bytes, from, to);
                let around = self.around();
                self.inside.end_line(known, &mut self.out, ending, around);
            }
            Shown::Line | Shown::Lines => {
                if self.shown == Shown::Line {
                    let (from, to) = places(start, end);
                    self.out.push_ending(between(known.bytes, from, to));
                }
                let is_last = end.index >= known.bytes.len();
                self.shown = if is_last { Shown::Lines } else { Shown::Line };
            }
        }
    }

    /// Writes the section of the footnotes that are shown.
    pub(crate) fn write_notes(&mut self, known: &Known) {
        let notes = &known.whole.notes;
        if notes.shown.is_empty() {
            return;
        }
        self.begin_line();
        begin_section(known, &mut self.out);
        for note in &notes.shown {
            let body = self.take_body(*note);
            push_note(known, &mut self.out, *note, &body);
        }
        end_section(known, &mut self.out);
    }

    /// What is written of a footnote.
    fn take_body(&mut self, note: usize) -> Vec<u8> {
        let empty = Vec::new(self.alloc);
        match self.bodies.get_mut(note) {
            Some(body) => mem::replace(body, empty),
            None => empty,
        }
    }
}
