// What is within a text: emphasis, links, images, code and all else of CommonMark 6, calls of footnotes, and checks of
// tasks.
//
// The text of an image is an attribute, so it is plain: no tags are in it (CommonMark 6.4).

use crate::address::{is_safe, push_address};
use crate::footnotes::push_call;
use crate::known::Known;
use crate::spelled::{plain_string, push_string};
use crate::survey::{Span, Target};
use crate::tags::{begin_phrase, end_phrase};
use crate::texts::without_padding;
use crate::writer::Writer;
use md_engine::event::{Event, Name};
use md_events::slice::between;
use std::alloc::Global;

/// What is known of the parts of a text that are open.
#[derive(Drop)]
pub(crate) struct Inside {
    /// The code that is open, or a string.
    scratch: Writer,
    /// Where the code that is open is in the text, if it is one piece of it: then it is not in `scratch`.
    code: Option<Piece>,
    /// How many calls have begun.
    calls: usize,
    /// How many links are open, from the one on that is written.
    links: usize,
    /// How many images are open, from the one on that is written.
    images: usize,
    /// The title of the outermost of them.
    title: Span,
    /// Whether what is here is not shown: where a link leads, and the label of a call.
    is_hidden: bool,
    is_code: bool,
    /// Whether the check that is open is one of a task that is done.
    is_checked: bool,
    /// Where the last reference to a character begins.
    reference: usize,
}

/// A part of the text.
#[derive(Clone, Copy)]
pub(crate) struct Piece {
    /// The index of its first byte.
    pub(crate) from: usize,
    /// The index after its last byte.
    pub(crate) to: usize,
}

impl Piece {
    /// Its bytes.
    fn bytes<'a>(&self, known: &Known<'a, '_>) -> &'a [u8] {
        between(known.bytes, self.from, self.to)
    }
}

/// Where a text is.
#[derive(Clone, Copy)]
pub(crate) struct Around {
    /// Whether it is shown.
    pub(crate) is_text: bool,
    /// Whether it is in a cell of a table.
    pub(crate) is_cell: bool,
}

impl Inside {
    pub(crate) fn new(alloc: Global) -> Inside {
        Inside {
            scratch: Writer::new(alloc),
            code: None,
            calls: 0,
            links: 0,
            images: 0,
            title: Span::EMPTY,
            is_hidden: false,
            is_code: false,
            is_checked: false,
            reference: 0,
        }
    }

    pub(crate) fn is_refused(&self) -> bool {
        self.scratch.is_refused()
    }

    /// Whether text and line endings are written as they are in the text, or not at all.
    pub(crate) fn is_plain(&self) -> bool {
        self.images == 0 && !self.is_code
    }

    /// Whether text is written that is here.
    pub(crate) fn is_shown(&self, around: Around) -> bool {
        around.is_text && !self.is_hidden
    }

    /// Whether tags are.
    fn is_tagged(&self, around: Around) -> bool {
        around.is_text && !self.is_hidden && self.images == 0
    }

    /// Begins a link, an image or a call of a footnote. A link or an image leads to this target.
    pub(crate) fn enter_media(
        &mut self,
        known: &Known,
        out: &mut Writer,
        name: Name,
        target: Option<Target>,
        around: Around,
    ) {
        match name {
            Name::Link => self.begin_link(known, out, target, around),
            Name::Image => self.begin_image(known, out, target, around),
            _ => self.begin_call(known, out, around),
        }
    }

    /// Begins another part.
    pub(crate) fn enter(&mut self, out: &mut Writer, event: &Event, around: Around) {
        match event.name {
            Name::Resource | Name::Reference => self.is_hidden = true,
            Name::CodeText | Name::MathText => {
                self.is_code = true;
                self.code = None;
                self.scratch.clear();
            }
            Name::CharacterReference => self.reference = event.point.index,
            Name::GfmTaskListItemValueChecked => self.is_checked = true,
            _ if self.is_tagged(around) => out.push(begin_phrase(event.name)),
            _ => {}
        }
    }

    /// Ends a part; `piece` is what is from the last enter to here.
    pub(crate) fn exit(
        &mut self,
        known: &Known,
        out: &mut Writer,
        event: &Event,
        piece: Piece,
        around: Around,
    ) {
        match event.name {
            Name::Link => self.end_link(out, around),
            Name::Image => self.end_image(known, out),
            Name::Resource | Name::Reference | Name::GfmFootnoteCall => self.is_hidden = false,
            Name::CodeTextData | Name::MathTextData => self.push_code(known, piece, around),
            Name::CodeText => self.end_code(known, out, "<code>", around),
            Name::MathText => self.end_code(
                known,
                out,
                "<code class=\"language-math math-inline\">",
                around,
            ),
            _ if self.is_shown(around) => self.exit_shown(known, out, event, piece, around),
            _ => {}
        }
    }

    /// Ends a part where text is written.
    fn exit_shown(
        &mut self,
        known: &Known,
        out: &mut Writer,
        event: &Event,
        piece: Piece,
        around: Around,
    ) {
        match event.name {
            Name::CharacterEscapeValue => {
                out.push_escaped_within(known.bytes, piece.from, piece.to);
            }
            Name::CharacterReference => self.push_character(known, out, event.point.index),
            Name::HtmlTextData => self.push_html(known, out, piece, around),
            Name::GfmTaskListItemCheck => self.push_check(out),
            Name::AutolinkProtocol | Name::GfmAutolinkLiteralProtocol => {
                self.push_autolink(known, out, "", piece, around);
            }
            Name::AutolinkEmail | Name::GfmAutolinkLiteralEmail => {
                self.push_autolink(known, out, "mailto:", piece, around);
            }
            Name::GfmAutolinkLiteralMailto | Name::GfmAutolinkLiteralXmpp => {
                self.push_autolink(known, out, "", piece, around);
            }
            Name::GfmAutolinkLiteralWww => {
                self.push_autolink(known, out, "http://", piece, around);
            }
            _ if self.images == 0 => out.push(end_phrase(event.name)),
            _ => {}
        }
    }

    /// Ends a line with this ending. In code and in the text of an image it is a space.
    pub(crate) fn end_line(
        &mut self,
        known: &Known,
        out: &mut Writer,
        ending: &[u8],
        around: Around,
    ) {
        if self.is_code {
            self.gather_code(known);
            self.scratch.push(" ");
        } else if self.is_shown(around) {
            if self.images > 0 {
                out.push(" ");
            } else {
                out.push_ending(ending);
            }
        }
    }

    fn begin_link(
        &mut self,
        known: &Known,
        out: &mut Writer,
        target: Option<Target>,
        around: Around,
    ) {
        if !self.is_tagged(around) {
            return;
        }
        if self.links > 0 {
            self.links = self.links.saturating_add(1);
        } else if let Some(target) = target {
            self.links = 1;
            out.push("<a href=\"");
            self.push_destination(known, out, target.destination, false);
            out.push("\"");
            self.push_title(known, out, target.title);
            out.push(">");
        }
    }

    fn end_link(&mut self, out: &mut Writer, around: Around) {
        if self.is_tagged(around) && self.links > 0 {
            self.links = self.links.saturating_sub(1);
            if self.links == 0 {
                out.push("</a>");
            }
        }
    }

    fn begin_image(
        &mut self,
        known: &Known,
        out: &mut Writer,
        target: Option<Target>,
        around: Around,
    ) {
        if self.images > 0 {
            self.images = self.images.saturating_add(1);
        } else if self.is_shown(around) {
            if let Some(target) = target {
                self.images = 1;
                self.title = target.title;
                out.push("<img src=\"");
                self.push_destination(known, out, target.destination, true);
                out.push("\" alt=\"");
            }
        }
    }

    fn end_image(&mut self, known: &Known, out: &mut Writer) {
        if self.images > 0 {
            self.images = self.images.saturating_sub(1);
            if self.images == 0 {
                out.push("\"");
                let title = self.title;
                self.push_title(known, out, title);
                out.push(" />");
            }
        }
    }

    fn begin_call(&mut self, known: &Known, out: &mut Writer, around: Around) {
        let place = self.calls;
        self.calls = place.saturating_add(1);
        if self.is_tagged(around) {
            if let Some(call) = known.whole.notes.calls.get(place) {
                if call.number > 0 {
                    push_call(known, out, *call);
                }
            }
        }
        self.is_hidden = true;
    }

    /// What a string is.
    fn read<'a>(&'a mut self, known: &'a Known, string: Span) -> &'a [u8] {
        let events = known.string(string);
        if let Some(piece) = plain_string(known.bytes, events) {
            return piece;
        }
        self.scratch.clear();
        push_string(&mut self.scratch, known.bytes, events);
        self.scratch.bytes()
    }

    fn push_destination(&mut self, known: &Known, out: &mut Writer, string: Span, is_image: bool) {
        let address = self.read(known, string);
        if known.whole.options.allow_dangerous_protocol || is_safe(address, is_image) {
            push_address(out, address);
        }
    }

    /// Writes a title, unless it is empty.
    fn push_title(&mut self, known: &Known, out: &mut Writer, string: Span) {
        if string.is_empty() {
            return;
        }
        out.push(" title=\"");
        out.push_escaped(self.read(known, string));
        out.push("\"");
    }

    /// Adds bytes. In a cell a `|` has a backslash before it, which is not of the code.
    fn push_source(&mut self, bytes: &[u8], around: Around) {
        if around.is_cell {
            self.scratch.push_unbarred(bytes);
        } else {
            self.scratch.push_bytes(bytes);
        }
    }

    /// Adds a piece to the code that is open.
    fn push_code(&mut self, known: &Known, piece: Piece, around: Around) {
        if !around.is_cell && self.code.is_none() && self.scratch.bytes().is_empty() {
            self.code = Some(piece);
        } else {
            self.gather_code(known);
            self.push_source(piece.bytes(known), around);
        }
    }

    /// Has the code that is open in `scratch`.
    fn gather_code(&mut self, known: &Known) {
        if let Some(piece) = self.code.take() {
            self.scratch.push_bytes(piece.bytes(known));
        }
    }

    #[inline(always)]
    fn end_code(&mut self, known: &Known, out: &mut Writer, tag: &str, around: Around) {
        self.is_code = false;
        let is_tagged = self.is_tagged(around);
        if is_tagged {
            out.push(tag);
        }
        if self.is_shown(around) {
            match self.code {
                Some(piece) => {
                    let code = without_padding(piece.bytes(known));
                    let padding = piece
                        .to
                        .saturating_sub(piece.from)
                        .saturating_sub(code.len())
                        / 2;
                    let from = piece.from.saturating_add(padding);
                    out.push_escaped_within(known.bytes, from, piece.to.saturating_sub(padding));
                }
                None => out.push_escaped(without_padding(self.scratch.bytes())),
            }
        }
        if is_tagged {
            out.push("</code>");
        }
    }

    /// Writes the character that the reference is that ends here.
    fn push_character(&mut self, known: &Known, out: &mut Writer, end: usize) {
        self.scratch.clear();
        self.scratch
            .push_reference(between(known.bytes, self.reference, end));
        out.push_escaped(self.scratch.bytes());
    }

    fn push_html(&mut self, known: &Known, out: &mut Writer, piece: Piece, around: Around) {
        self.scratch.clear();
        self.push_source(piece.bytes(known), around);
        let html = self.scratch.bytes();
        if known.whole.options.allow_dangerous_html && self.images == 0 {
            out.push_shown(html);
        } else {
            out.push_escaped(html);
        }
    }

    /// Writes an address that is a link, with a protocol before it.
    fn push_autolink(
        &mut self,
        known: &Known,
        out: &mut Writer,
        protocol: &str,
        piece: Piece,
        around: Around,
    ) {
        self.scratch.clear();
        self.push_source(piece.bytes(known), around);
        let address = self.scratch.bytes();
        let is_allowed = known.whole.options.allow_dangerous_protocol || !protocol.is_empty();
        if self.images > 0 {
            out.push_escaped(address);
            return;
        }
        out.push("<a href=\"");
        if is_allowed || is_safe(address, false) {
            out.push(protocol);
            push_address(out, address);
        }
        out.push("\">");
        out.push_escaped(address);
        out.push("</a>");
    }

    /// Writes the check of a task (GFM 5.3).
    fn push_check(&mut self, out: &mut Writer) {
        if self.images == 0 {
            out.push("<input type=\"checkbox\" disabled=\"\" ");
            out.push(if self.is_checked {
                "checked=\"\" />"
            } else {
                "/>"
            });
        }
        self.is_checked = false;
    }
}
