// The references of a text, each with its place.
//
// References that a definition answers are links, images and calls of footnotes among the events. Others are text, and
// their brackets are bytes of `Data`: these match like parentheses, since the layer has taken code spans, tags, escapes
// and all that is a link. A pair that is text is a reference if a definition of its label, and of no other, would make
// it one (CommonMark 6.3, and footnotes as on GitHub):
//
//     reference ::= label | label '[' ']' | '[' text ']' label
//
// In a cell of a table `\|` is a `|` (GFM 4.10), also in a label.

use crate::reports::layer::is_inline_part;
use crate::reports::position::{Place, Position};
use markdown_blocks::event::{Event, Kind, Name, Point};
use markdown_blocks::label::normal_form;
use markdown_blocks::message::Message;
use md_inlines::target::label_len;
use std::alloc::{AllocError, Global};

/// How a reference is written.
#[derive(Clone, Copy, PartialEq, Eq)]
pub(crate) enum Form {
    /// `[^a]`
    Footnote,
    /// `[a][b]` or `[a][]`
    Whole,
    /// `[a]`
    Shortcut,
}

/// A reference, whether or not a definition answers it.
#[derive(Drop)]
pub(crate) struct Reference {
    pub(crate) form: Form,
    /// The label in its normal form (CommonMark 6.3), of a footnote without the `^`.
    pub(crate) label: String,
    /// Where it is text: the label with its brackets. A reference that is a link, an image or a call has none.
    pub(crate) position: Option<Position>,
}

/// What a range of bytes is in a text part.
#[derive(Clone, Copy)]
struct Range {
    start: usize,
    end: usize,
}

/// A bracket that is text.
#[derive(Clone, Copy)]
struct Bracket {
    /// The byte of the text part.
    at: usize,
    /// Where it is in the source.
    place: Place,
}

/// A `[` that is text and that no `]` has closed.
#[derive(Clone, Copy)]
struct Opener {
    at: usize,
    /// Whether it begins an image.
    is_image: bool,
    /// Whether a link is after it.
    has_link: bool,
}

/// A pair of brackets that are text.
#[derive(Clone, Copy)]
struct Pair {
    opener: Opener,
    close: usize,
}

/// What follows the label of a link, an image or a call.
#[derive(Clone, Copy)]
enum Target {
    Nothing,
    Resource,
    Full(Range),
}

/// What is known of a text after some of its events.
#[derive(Drop)]
struct Walk<'a> {
    alloc: Global,
    bytes: &'a [u8],
    has_footnotes: bool,
    found: Vec<Reference>,
    /// Whether an inline part is open, and the one that is open or was the last one: its lines, without the prefixes of
    /// containers, and a line feed for each ending.
    is_inside: bool,
    is_cell: bool,
    text: Vec<u8>,
    /// All brackets in it that are text.
    brackets: Vec<Bracket>,
    open: Vec<Opener>,
    pairs: Vec<Pair>,
    /// Where the piece begins that is open.
    entered: Option<Point>,
    /// Where the texts of labels begin that are open, and the one that has ended last.
    labels: Vec<usize>,
    own: Range,
    target: Target,
    /// Whether what is read is a part of the target of a link.
    is_target: bool,
    /// Where the label of a reference begins.
    label_start: usize,
}

/// The references in a text, in its order but for those that are text: these come at the end of their part. An `Err`
/// says that memory ran out.
pub(crate) fn references(
    alloc: Global,
    events: &[Event],
    bytes: &[u8],
    has_footnotes: bool,
) -> Result<Vec<Reference>, Message> {
    let mut walk = Walk {
        alloc,
        bytes,
        has_footnotes,
        found: Vec::new(alloc),
        is_inside: false,
        is_cell: false,
        text: Vec::new(alloc),
        brackets: Vec::new(alloc),
        open: Vec::new(alloc),
        pairs: Vec::new(alloc),
        entered: None,
        labels: Vec::new(alloc),
        own: Range { start: 0, end: 0 },
        target: Target::Nothing,
        is_target: false,
        label_start: 0,
    };
    for event in events {
        match event.kind {
            Kind::Enter => walk.enter(event)?,
            Kind::Exit => walk.exit(event)?,
        }
    }
    Ok(walk.found)
}

impl<'a> Walk<'a> {
    fn enter(&mut self, event: &Event) -> Result<(), AllocError> {
        self.entered = Some(event.point);
        match event.name {
            Name::LabelText => self.labels.push(self.text.len())?,
            Name::ReferenceString => self.label_start = self.text.len(),
            Name::Resource => {
                self.target = Target::Resource;
                self.is_target = true;
            }
            Name::Link => self.bar(),
            name if is_inline_part(name) => self.begin(name),
            _ => {}
        }
        Ok(())
    }

    /// Begins an inline part.
    fn begin(&mut self, name: Name) {
        self.is_inside = true;
        self.is_cell = name == Name::GfmTableCellText;
        self.text.clear();
        self.brackets.clear();
        self.open.clear();
        self.pairs.clear();
    }

    /// Notes that a link is after the brackets that are open.
    fn bar(&mut self) {
        if let Some(opener) = self.open.last_mut() {
            opener.has_link = true;
        }
    }

    fn exit(&mut self, event: &Event) -> Result<(), Message> {
        if let Some(start) = self.entered.take() {
            if self.is_inside {
                self.push_piece(event.name, start, event.point)?;
            }
        }
        match event.name {
            Name::LabelText => self.end_label(),
            Name::Label => self.target = Target::Nothing,
            Name::Resource => self.is_target = false,
            Name::ReferenceString => {
                self.target = Target::Full(Range {
                    start: self.label_start,
                    end: self.text.len(),
                });
            }
            Name::Link | Name::Image => self.push_link()?,
            Name::GfmFootnoteCall => self.push_found(Form::Footnote, self.own)?,
            name if is_inline_part(name) => self.end_part()?,
            _ => {}
        }
        Ok(())
    }

    fn end_label(&mut self) {
        self.own = Range {
            start: self.labels.pop().unwrap_or(0),
            end: self.text.len(),
        };
    }

    /// Appends a piece of an inline part.
    fn push_piece(&mut self, name: Name, start: Point, end: Point) -> Result<(), AllocError> {
        let bytes = self.bytes;
        let piece = bytes.get(start.index..end.index).unwrap_or(&[]);
        match name {
            Name::Data if !self.is_target => {
                self.push_brackets(piece, Place::of(start))?;
                self.push_text(piece)
            }
            Name::LineEnding => self.push_text(b"\n"),
            Name::SpaceOrTab | Name::BlockQuoteMarker => Ok(()),
            _ => self.push_text(piece),
        }
    }

    fn push_text(&mut self, piece: &[u8]) -> Result<(), AllocError> {
        self.text.extend_from_slice(piece)
    }

    /// Notes the brackets of a piece that is text, before it is appended.
    fn push_brackets(&mut self, piece: &[u8], start: Place) -> Result<(), AllocError> {
        let mut place = start;
        let mut before = b' ';
        for (at, byte) in piece.iter().enumerate() {
            if *byte == b'[' || *byte == b']' {
                let is_call = self.has_footnotes && piece.get(at.saturating_add(1)) == Some(&b'^');
                let at = self.text.len().saturating_add(at);
                self.push_bracket(Bracket { at, place }, *byte, before == b'!' && !is_call)?;
            }
            before = *byte;
            place = place.past(*byte);
        }
        Ok(())
    }

    /// Notes a bracket, which may begin an image.
    fn push_bracket(
        &mut self,
        bracket: Bracket,
        byte: u8,
        is_image: bool,
    ) -> Result<(), AllocError> {
        self.brackets.push(bracket)?;
        if byte == b'[' {
            self.open.push(Opener {
                at: bracket.at,
                is_image,
                has_link: false,
            })?;
            return Ok(());
        }
        self.close(bracket.at)
    }

    /// Ends the last bracket that is open.
    fn close(&mut self, close: usize) -> Result<(), AllocError> {
        let Some(opener) = self.open.pop() else {
            return Ok(());
        };
        if opener.has_link {
            self.bar();
        }
        self.pairs.push(Pair { opener, close })?;
        Ok(())
    }

    /// Appends the reference of a link or an image, if it is no inline one.
    fn push_link(&mut self) -> Result<(), Message> {
        let target = self.target;
        self.target = Target::Nothing;
        match target {
            Target::Resource => Ok(()),
            Target::Full(label) => self.push_found(Form::Whole, label),
            Target::Nothing => self.push_found(Form::Whole, self.own),
        }
    }

    /// Appends the references of a part that are text.
    fn end_part(&mut self) -> Result<(), Message> {
        self.is_inside = false;
        let mut taken = None;
        let mut at = 0;
        for _ in 0..self.pairs.len() {
            if let Some(pair) = self.pairs.get(at).copied() {
                taken = self.end_pair(pair, taken)?;
            }
            at = at.saturating_add(1);
        }
        Ok(())
    }

    /// Appends the reference that a pair is. `taken` is the begin of the label that the pair before it has, and the
    /// result that of its own.
    fn end_pair(&mut self, pair: Pair, taken: Option<usize>) -> Result<Option<usize>, Message> {
        let opener = pair.opener;
        let own = Range {
            start: opener.at.saturating_add(1),
            end: pair.close,
        };
        let footnote = self.footnote_in(own);
        if let Some(label) = footnote {
            self.push_text_form(Form::Footnote, opener.at, label)?;
        }
        if opener.has_link && !opener.is_image {
            return Ok(None);
        }
        let next = pair.close.saturating_add(1);
        if let Some(label) = self.label_at(next) {
            return self.end_full(next, label);
        }
        if footnote.is_some() {
            return Ok(None);
        }
        if taken != Some(opener.at)
            && self.label_at(opener.at).is_some_and(|it| it.end == own.end)
        {
            let form = self.form_before(next);
            self.push_text_form(form, opener.at, own)?;
        }
        Ok(None)
    }

    /// Appends a full reference, if its label is text and no footnote. Returns where that begins.
    fn end_full(&mut self, at: usize, label: Range) -> Result<Option<usize>, Message> {
        if self.footnote_in(label).is_some() {
            return Ok(None);
        }
        self.push_text_form(Form::Whole, at, label)?;
        Ok(Some(at))
    }

    /// How a reference is written whose label ends before this byte.
    fn form_before(&self, next: usize) -> Form {
        let following = self.text.get(next..).unwrap_or(&[]);
        if following.starts_with(b"[]") {
            Form::Whole
        } else {
            Form::Shortcut
        }
    }

    /// The label whose `[` is at this byte, if there is one.
    fn label_at(&self, at: usize) -> Option<Range> {
        let rest = self.text.get(at..).unwrap_or(&[]);
        let (first, inside) = rest.split_first()?;
        if *first != b'[' {
            return None;
        }
        let len = label_len(inside)?;
        let start = at.saturating_add(1);
        Some(Range {
            start,
            end: start.saturating_add(len),
        })
    }

    /// The label of the footnote that the text between two brackets calls.
    fn footnote_in(&self, inside: Range) -> Option<Range> {
        let label = Range {
            start: inside.start.saturating_add(1),
            end: inside.end,
        };
        let text = self.text.get(inside.start..).unwrap_or(&[]);
        let (first, rest) = text.split_first()?;
        if !self.has_footnotes || *first != b'^' {
            return None;
        }
        let len = label_len(rest)?;
        let name = rest.get(..len).unwrap_or(&[]);
        if label.start.saturating_add(len) != label.end || name.iter().any(is_gap) {
            return None;
        }
        Some(label)
    }

    /// Appends a reference whose label has its brackets in the text, the first of them at this byte.
    fn push_text_form(&mut self, form: Form, at: usize, label: Range) -> Result<(), Message> {
        let (Some(start), Some(last)) = (self.place_of(at), self.place_of(label.end)) else {
            return Ok(());
        };
        let end = last.past(b']');
        let text = self.text.get(label.start..label.end).unwrap_or(&[]);
        let label = label_form(self.alloc, text, self.is_cell)?;
        push_reference(&mut self.found, form, label, Some(Position { start, end }))
    }

    /// Where the bracket at this byte is in the source, if it is text.
    fn place_of(&self, at: usize) -> Option<Place> {
        let index = self.brackets.partition_point(|bracket| bracket.at < at);
        let bracket = self.brackets.get(index)?;
        if bracket.at == at {
            Some(bracket.place)
        } else {
            None
        }
    }

    /// Appends a reference that is no text.
    fn push_found(&mut self, form: Form, label: Range) -> Result<(), Message> {
        let text = self.text.get(label.start..label.end).unwrap_or(&[]);
        let label = label_form(self.alloc, text, false)?;
        push_reference(&mut self.found, form, label, None)
    }
}

fn push_reference(
    found: &mut Vec<Reference>,
    form: Form,
    label: String,
    position: Option<Position>,
) -> Result<(), Message> {
    let reference = Reference {
        form,
        label,
        position,
    };
    match found.push(reference) {
        Ok(()) => Ok(()),
        Err(_) => Err(Message),
    }
}

fn is_gap(byte: &u8) -> bool {
    matches!(*byte, b' ' | b'\t' | b'\n')
}

/// The normal form of a label, in a cell without the backslashes before `|`.
fn label_form(alloc: Global, label: &[u8], is_cell: bool) -> Result<String, Message> {
    let mut line = Vec::new(alloc);
    push_line(&mut line, label, is_cell)?;
    normal_form(alloc, &[str::from_utf8(line.as_slice()).unwrap_or("")])
}

/// Appends the lines of a label as one.
fn push_line(line: &mut Vec<u8>, label: &[u8], is_cell: bool) -> Result<(), AllocError> {
    for (at, byte) in label.iter().enumerate() {
        match *byte {
            b'\n' => line.push(b' ')?,
            b'\\' if is_cell && label.get(at.saturating_add(1)) == Some(&b'|') => {}
            byte => line.push(byte)?,
        }
    }
    Ok(())
}
