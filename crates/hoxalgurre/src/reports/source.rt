// The labels of links, images and calls, from the pieces of the inline part that they are in.

use markdown_blocks::event::Name;
use markdown_blocks::label::normal_form;
use markdown_blocks::message::Message;
use std::alloc::{AllocError, Global};

/// How many bytes are in the two texts of a part.
#[derive(Clone, Copy)]
struct Mark {
    source: usize,
    meaning: usize,
}

/// What the label is of a reference, in both texts.
#[derive(Clone, Copy)]
struct Extent {
    start: Mark,
    end: Mark,
}

/// What follows the label of a link, an image or a call.
#[derive(Clone, Copy)]
pub(crate) enum Target {
    Nothing,
    Resource,
    Collapsed,
    Full,
}

/// An inline part, as far as it is read.
#[derive(Drop)]
pub(crate) struct Source {
    alloc: Global,
    is_open: bool,
    /// Its lines without the prefixes of containers, with a space for each ending.
    source: Vec<u8>,
    /// The same, with what escapes and character references mean.
    meaning: String,
    /// Where the texts of labels begin that are open.
    open: Vec<Mark>,
    /// The text of the label that has ended last, and the label of the last full reference.
    own: Extent,
    full: Extent,
    pub(crate) target: Target,
}

const FIRST: Mark = Mark {
    source: 0,
    meaning: 0,
};

const NONE: Extent = Extent {
    start: FIRST,
    end: FIRST,
};

impl Source {
    pub(crate) fn new(alloc: Global) -> Source {
        Source {
            alloc,
            is_open: false,
            source: Vec::new(alloc),
            meaning: String::new(alloc),
            open: Vec::new(alloc),
            own: NONE,
            full: NONE,
            target: Target::Nothing,
        }
    }

    /// Begins an inline part.
    pub(crate) fn begin(&mut self) {
        self.is_open = true;
        self.source.clear();
        self.meaning.clear();
        self.open.clear();
    }

    /// Ends the part.
    pub(crate) fn end(&mut self) {
        self.is_open = false;
    }

    fn mark(&self) -> Mark {
        Mark {
            source: self.source.len(),
            meaning: self.meaning.len(),
        }
    }

    /// Notes that a part of a link begins.
    pub(crate) fn enter(&mut self, name: Name) -> Result<(), AllocError> {
        match name {
            Name::LabelText => {
                let mark = self.mark();
                self.open.push(mark)?;
            }
            Name::Resource => self.target = Target::Resource,
            Name::Reference => self.target = Target::Collapsed,
            Name::ReferenceString => self.full.start = self.mark(),
            _ => {}
        }
        Ok(())
    }

    /// Notes that a part of a link ends.
    pub(crate) fn exit(&mut self, name: Name) {
        match name {
            Name::LabelText => {
                self.own = Extent {
                    start: self.open.pop().unwrap_or(FIRST),
                    end: self.mark(),
                };
            }
            Name::Label => self.target = Target::Nothing,
            Name::ReferenceString => {
                self.full.end = self.mark();
                self.target = Target::Full;
            }
            _ => {}
        }
    }

    /// Appends a piece.
    pub(crate) fn push(&mut self, name: Name, piece: &[u8]) -> Result<(), AllocError> {
        if !self.is_open {
            return Ok(());
        }
        match name {
            Name::SpaceOrTab | Name::BlockQuoteMarker => Ok(()),
            Name::LineEnding => self.push_ending(),
            name if is_mark(name) => self.source.extend_from_slice(piece),
            _ => self.push_both(piece),
        }
    }

    fn push_ending(&mut self) -> Result<(), AllocError> {
        self.source.extend_from_slice(b" ")?;
        self.meaning.push_str("\n")
    }

    fn push_both(&mut self, piece: &[u8]) -> Result<(), AllocError> {
        self.source.extend_from_slice(piece)?;
        self.meaning.push_str(str::from_utf8(piece).unwrap_or(""))
    }

    /// Appends what the character reference means whose pieces were the last.
    pub(crate) fn push_meant(&mut self, meant: &str) -> Result<(), AllocError> {
        if self.is_open {
            self.meaning.push_str(meant)
        } else {
            Ok(())
        }
    }

    /// Appends the label that is the text between two brackets, with what it means.
    pub(crate) fn push_own(&self, to: &mut String) -> Result<(), AllocError> {
        let Extent { start, end } = self.own;
        let bytes = self.meaning.as_bytes();
        let label = bytes.get(start.meaning..end.meaning).unwrap_or(&[]);
        to.push_str(str::from_utf8(label).unwrap_or(""))
    }

    /// The normal form of the label that is the text between two brackets.
    pub(crate) fn own_form(&self) -> Result<String, Message> {
        self.form(self.own)
    }

    /// The normal form of the label of the last full reference.
    pub(crate) fn full_form(&self) -> Result<String, Message> {
        self.form(self.full)
    }

    fn form(&self, label: Extent) -> Result<String, Message> {
        let bytes = self.source.as_slice();
        let text = bytes.get(label.start.source..label.end.source);
        normal_form(
            self.alloc,
            &[str::from_utf8(text.unwrap_or(&[])).unwrap_or("")],
        )
    }
}

/// Whether a piece means nothing alone: the mark of an escape, and what a character reference has.
fn is_mark(name: Name) -> bool {
    matches!(
        name,
        Name::CharacterEscapeMarker
            | Name::CharacterReferenceMarker
            | Name::CharacterReferenceMarkerNumeric
            | Name::CharacterReferenceMarkerHexadecimal
            | Name::CharacterReferenceMarkerSemi
            | Name::CharacterReferenceValue
    )
}
