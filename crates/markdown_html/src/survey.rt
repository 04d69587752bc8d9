// What is listed of events: where the labels and strings of links are, where definitions lead, and which footnotes are
// called.
//
// Where a link leads is after its text, and a definition or a footnote may be anywhere. So a page lists the events of a
// link where it begins, and those of definitions before it is written.

use crate::memory::push;
use md_engine::event::{Event, Kind, Name};
use std::alloc::{AllocError, Global};

/// Some of the events, from one index to another, and how many bytes of the text they are over.
#[derive(Clone, Copy)]
pub(crate) struct Span {
    pub(crate) from: usize,
    pub(crate) to: usize,
    /// The first byte; how many there are, once the span has ended.
    start: usize,
    pub(crate) len: usize,
    /// Whether they are among the definitions that are known ahead, and not among the events of the part.
    pub(crate) is_ahead: bool,
}

/// Where a link leads.
#[derive(Clone, Copy)]
pub(crate) struct Target {
    pub(crate) destination: Span,
    /// It is empty where there is none.
    pub(crate) title: Span,
}

/// A link, an image or a call of a footnote.
#[derive(Clone, Copy)]
pub(crate) struct Media {
    /// Its text.
    pub(crate) text: Span,
    /// The label after its text. It is empty where there is none.
    pub(crate) reference: Span,
    /// Whether `target` is that of a resource after its text.
    pub(crate) has_resource: bool,
    pub(crate) target: Target,
}

/// Where a footnote is called.
#[derive(Clone, Copy, PartialEq, Eq)]
pub(crate) enum Place {
    /// In none.
    Page,
    /// In the footnote that begins after so many others.
    Note(usize),
    /// Where nothing is shown of it.
    Hidden,
}

/// A call of a footnote.
#[derive(Clone, Copy)]
pub(crate) struct Found {
    /// The events of its label.
    pub(crate) label: Span,
    pub(crate) place: Place,
}

/// What the events list, each in the order of the text.
#[derive(Drop)]
pub(crate) struct Survey {
    pub(crate) media: Vec<Media>,
    /// Where definitions lead.
    pub(crate) definitions: Vec<Target>,
    pub(crate) calls: Vec<Found>,
}

impl Span {
    pub(crate) const EMPTY: Span = Span {
        from: 0,
        to: 0,
        start: 0,
        len: 0,
        is_ahead: false,
    };

    /// Begins at the enter with this index.
    fn begin(&mut self, event: &Event, at: usize) {
        self.from = at.saturating_add(1);
        self.to = self.from;
        self.start = event.point.index;
    }

    fn end(&mut self, event: &Event, at: usize) {
        self.to = at;
        self.len = event.point.index.saturating_sub(self.start);
    }

    /// Begins or ends at an event.
    fn turn(&mut self, event: &Event, at: usize) {
        if event.kind == Kind::Enter {
            self.begin(event, at);
        } else {
            self.end(event, at);
        }
    }

    /// Its events, among all.
    pub(crate) fn events<'a>(&self, events: &'a [Event]) -> &'a [Event] {
        events.get(self.from..self.to).unwrap_or(&[])
    }

    pub(crate) fn is_empty(&self) -> bool {
        self.from >= self.to
    }
}

impl Target {
    pub(crate) const NONE: Target = Target {
        destination: Span::EMPTY,
        title: Span::EMPTY,
    };

    /// The same, found among the definitions that are known ahead.
    pub(crate) fn ahead(mut self) -> Target {
        self.destination.is_ahead = true;
        self.title.is_ahead = true;
        self
    }

    /// Notes an event with this index.
    fn note(&mut self, event: &Event, at: usize) {
        match event.name {
            Name::ResourceDestinationString | Name::DefinitionDestinationString => {
                self.destination.turn(event, at);
            }
            Name::ResourceTitleString | Name::DefinitionTitleString => self.title.turn(event, at),
            _ => {}
        }
    }
}

impl Media {
    /// One of which nothing is noted.
    const NONE: Media = Media {
        text: Span::EMPTY,
        reference: Span::EMPTY,
        has_resource: false,
        target: Target::NONE,
    };

    /// Notes an event with this index, which is in no other link, image or call within.
    fn note(&mut self, event: &Event, at: usize) {
        match event.name {
            Name::LabelText => self.text.turn(event, at),
            Name::ReferenceString => self.reference.turn(event, at),
            Name::Resource => self.has_resource = true,
            _ => self.target.note(event, at),
        }
    }
}

/// The cells of the table that is open.
#[derive(Clone, Copy)]
struct Cells {
    /// How many columns it has, if it is known.
    columns: usize,
    /// How many cells the row has before this one.
    column: usize,
}

impl Cells {
    const NONE: Cells = Cells {
        columns: usize::MAX,
        column: 0,
    };

    fn enter(&mut self, name: Name) {
        match name {
            Name::GfmTableDelimiterRow => self.columns = 0,
            Name::GfmTableDelimiterCell => self.columns = self.columns.saturating_add(1),
            Name::GfmTableRow => self.column = 0,
            _ => {}
        }
    }

    fn exit(&mut self, name: Name) {
        match name {
            Name::GfmTableCell => self.column = self.column.saturating_add(1),
            Name::GfmTable => *self = Cells::NONE,
            _ => {}
        }
    }

    /// Whether what is here is not shown, since it is after the last column (GFM 4.10).
    fn is_hidden(&self) -> bool {
        self.column >= self.columns
    }
}

/// What is known after some of the events.
#[derive(Drop)]
pub(crate) struct SurveyWalk {
    pub(crate) found: Survey,
    /// The links, images and calls that are open, the innermost last, each by how many begin before it.
    open: Vec<usize>,
    /// How many of them are images.
    images: usize,
    /// The definition that is open.
    definition: Target,
    /// The footnotes that are open, each by how many begin before it.
    notes: Vec<usize>,
    /// How many footnotes have begun.
    begun: usize,
    cells: Cells,
}

impl SurveyWalk {
    /// A walk that has begun with no event.
    pub(crate) fn new(alloc: Global) -> SurveyWalk {
        SurveyWalk {
            found: Survey {
                media: Vec::new(alloc),
                definitions: Vec::new(alloc),
                calls: Vec::new(alloc),
            },
            open: Vec::new(alloc),
            images: 0,
            definition: Target::NONE,
            notes: Vec::new(alloc),
            begun: 0,
            cells: Cells::NONE,
        }
    }

    /// Begins anew.
    pub(crate) fn clear(&mut self) {
        self.found.media.clear();
        self.found.definitions.clear();
        self.found.calls.clear();
        self.open.clear();
        self.images = 0;
        self.definition = Target::NONE;
        self.notes.clear();
        self.begun = 0;
        self.cells = Cells::NONE;
    }

    /// Whether no link, image or call is open.
    pub(crate) fn is_outside(&self) -> bool {
        self.open.is_empty()
    }

    /// Reads an event, which has this index.
    pub(crate) fn read(&mut self, event: &Event, at: usize) -> Result<(), AllocError> {
        match event.kind {
            Kind::Enter => self.enter(event, at),
            Kind::Exit => self.exit(event, at),
        }
    }

    fn enter(&mut self, event: &Event, at: usize) -> Result<(), AllocError> {
        match event.name {
            Name::Link | Name::GfmFootnoteCall => self.open_media(),
            Name::Image => {
                self.images = self.images.saturating_add(1);
                self.open_media()
            }
            Name::Definition => {
                self.definition = Target::NONE;
                Ok(())
            }
            Name::GfmFootnoteDefinition => {
                self.notes.push(self.begun)?;
                self.begun = self.begun.saturating_add(1);
                Ok(())
            }
            name => {
                self.cells.enter(name);
                self.note(event, at);
                Ok(())
            }
        }
    }

    fn exit(&mut self, event: &Event, at: usize) -> Result<(), AllocError> {
        match event.name {
            Name::Link => {
                let _link = self.open.pop();
                Ok(())
            }
            Name::Image => {
                self.images = self.images.saturating_sub(1);
                let _image = self.open.pop();
                Ok(())
            }
            Name::GfmFootnoteCall => self.end_call(),
            Name::Definition => push(&mut self.found.definitions, self.definition),
            Name::GfmFootnoteDefinition => {
                let _ended = self.notes.pop();
                Ok(())
            }
            name => {
                self.cells.exit(name);
                self.note(event, at);
                Ok(())
            }
        }
    }

    /// Notes an event of what is open. No link, image or call is in a definition.
    fn note(&mut self, event: &Event, at: usize) {
        let SurveyWalk {
            found,
            open,
            definition,
            ..
        } = self;
        let Some(place) = open.last() else {
            definition.note(event, at);
            return;
        };
        if let Some(media) = found.media.get_mut(*place) {
            media.note(event, at);
        }
    }

    fn open_media(&mut self) -> Result<(), AllocError> {
        push(&mut self.open, self.found.media.len())?;
        push(&mut self.found.media, Media::NONE)
    }

    fn end_call(&mut self) -> Result<(), AllocError> {
        let place = self.place();
        let Some(call) = self.open.pop() else {
            return Ok(());
        };
        match self.found.media.get(call) {
            Some(media) => {
                let label = media.text;
                push(&mut self.found.calls, Found { label, place })
            }
            None => Ok(()),
        }
    }

    /// Where a call is that ends here.
    fn place(&self) -> Place {
        if self.images > 0 || self.cells.is_hidden() {
            return Place::Hidden;
        }
        match self.notes.last() {
            Some(note) => Place::Note(*note),
            None => Place::Page,
        }
    }
}
