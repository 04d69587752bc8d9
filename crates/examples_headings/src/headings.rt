// The headings of a text: depths from its outline, places from its events.

use markdown_blocks::event::{Event, Kind, Name};
use markdown_blocks::outline::{OutlineLine, Word};
use std::alloc::{AllocError, Global};
use std::str;

/// A heading of the text.
#[derive(Clone, Copy)]
pub(crate) struct Heading {
    /// From 1 to 6.
    pub(crate) depth: u8,
    /// The byte that it begins at, with its indent.
    pub(crate) start: usize,
    /// The byte that its text begins at. Where it has none, both are the same.
    text: usize,
    /// The byte after its text.
    text_end: usize,
}

impl Heading {
    /// A heading without text.
    fn new(depth: u8, start: usize) -> Self {
        Heading {
            depth,
            start,
            text: start,
            text_end: start,
        }
    }

    /// Its text as it is in the source: not a copy, and with the endings between its lines.
    pub(crate) fn text<'a>(&self, bytes: &'a [u8]) -> &'a str {
        let text = bytes.get(self.text..self.text_end).unwrap_or(&[]);
        str::from_utf8(text).unwrap_or("")
    }
}

/// How deep a heading is, and how many blocks are around it.
fn heading_word(line: &OutlineLine) -> Option<(u8, usize)> {
    match line.word {
        Word::Heading(depth) => Some((depth, line.depth)),
        _ => None,
    }
}

/// The headings outside of containers, in the order of the text. An `Err` says that memory ran out.
pub(crate) fn headings(
    alloc: Global,
    events: &[Event],
    lines: &[OutlineLine],
) -> Result<Vec<Heading>, AllocError> {
    let mut found = Vec::new(alloc);
    let mut words = lines.iter().filter_map(heading_word);
    let mut heading = Heading::new(1, 0);
    let mut around = 0;
    for event in events {
        let index = event.point.index;
        match (event.kind, event.name) {
            (Kind::Enter, Name::HeadingAtx | Name::HeadingSetext) => {
                let (depth, blocks) = words.next().unwrap_or((1, 0));
                heading = Heading::new(depth, index);
                around = blocks;
            }
            (Kind::Enter, Name::HeadingAtxText | Name::HeadingSetextText) => heading.text = index,
            (Kind::Exit, Name::HeadingAtxText | Name::HeadingSetextText) => heading.text_end =
                index,
            (Kind::Exit, Name::HeadingAtx | Name::HeadingSetext) if around == 0 => {
                found.push(heading)?;
            }
            _ => {}
        }
    }
    Ok(found)
}
