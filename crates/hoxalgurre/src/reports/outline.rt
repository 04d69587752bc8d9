// The outline of a text, with the place of each block.
//
// Its words and its texts are those of the program `blocks`, and its code prints them.

use crate::reports::parts::OfParts;
use crate::reports::position::{Columns, Place, Position, push_position};
use markdown_blocks::event::{Event, Kind, Name};
use markdown_blocks::message::Message;
use markdown_blocks::names::is_block;
use markdown_blocks::outline::{OutlineLine, Word, outline};
use markdown_blocks::parser::{ParseState, Part};
use md_program::print::{push_front, push_head, push_line};
use serde::Serialize;
use std::alloc::{AllocError, Global};

/// A block, or a row of a table.
#[derive(Drop, Serialize)]
pub(crate) struct Block<'a> {
    /// Its words, as `heading 1`.
    block: String,
    /// How many blocks and rows are around it.
    depth: usize,
    position: Position,
    /// Its lines of text, and other texts in it.
    texts: Vec<Text<'a>>,
}

/// A text of a block.
#[derive(Drop, Serialize)]
pub(crate) struct Text<'a> {
    /// What it is: `line`, or the word before its `|`, as `info`.
    kind: String,
    /// The columns of a cut tab before it.
    virtual_spaces: usize,
    text: &'a str,
}

/// The lines of the blocks of a text, as far as it is read.
#[derive(Drop)]
pub(crate) struct OutlineText {
    pub(crate) alloc: Global,
    pub(crate) text: String,
}

impl<'a> OfParts<'a> for OutlineText {
    fn take(&mut self, part: &mut Part, state: &ParseState<'a>) -> Result<(), Message> {
        let lines = outline(self.alloc, &part.events, state)?;
        let positions = positions(self.alloc, &part.events)?;
        push_outline(&mut self.text, &positions, &lines)?;
        Ok(())
    }
}

/// The blocks of a text and its labels, as far as it is read.
#[derive(Drop)]
pub(crate) struct OutlineBlocks<'a> {
    pub(crate) alloc: Global,
    pub(crate) blocks: Vec<Block<'a>>,
    pub(crate) definitions: Vec<String>,
    pub(crate) footnotes: Vec<String>,
}

impl<'a> OfParts<'a> for OutlineBlocks<'a> {
    fn take(&mut self, part: &mut Part, state: &ParseState<'a>) -> Result<(), Message> {
        let lines = outline(self.alloc, &part.events, state)?;
        let positions = positions(self.alloc, &part.events)?;
        let mut blocks = blocks(self.alloc, &positions, &lines)?;
        self.blocks.append(&mut blocks)?;
        self.definitions.append(&mut part.definitions)?;
        self.footnotes.append(&mut part.gfm_footnote_definitions)?;
        Ok(())
    }
}

/// Sets the columns of blocks.
pub(crate) fn set_block_columns(columns: &Columns, blocks: &mut [Block]) {
    for block in blocks.iter_mut() {
        columns.set_both(&mut block.position);
    }
}

/// Whether the outline has a line for a part of this name.
fn has_line(name: Name) -> bool {
    is_block(name) || name == Name::GfmTableRow
}

/// Where each block and row is, in the order in which they begin.
pub(crate) fn positions(alloc: Global, events: &[Event]) -> Result<Vec<Position>, AllocError> {
    let mut positions: Vec<Position> = Vec::new(alloc);
    let mut open: Vec<usize> = Vec::new(alloc);
    for event in events.iter().filter(|event| has_line(event.name)) {
        let here = Place::of(event.point);
        match event.kind {
            Kind::Enter => {
                open.push(positions.len())?;
                positions.push(Position {
                    start: here,
                    end: here,
                })?;
            }
            Kind::Exit => {
                if let Some(position) = open.pop().and_then(|at| positions.get_mut(at)) {
                    position.end = here;
                }
            }
        }
    }
    Ok(positions)
}

/// Whether a line of the outline is a text of a block above it, and not a block or a row.
pub(crate) fn is_text(word: Word) -> bool {
    matches!(
        word,
        Word::Line
            | Word::Info
            | Word::Meta
            | Word::Label
            | Word::Destination
            | Word::Title
            | Word::Delimiter
            | Word::Cell
    )
}

/// The blocks of an outline, each with its place and its texts.
fn blocks<'a>(
    alloc: Global,
    positions: &[Position],
    lines: &[OutlineLine<'a>],
) -> Result<Vec<Block<'a>>, AllocError> {
    let mut places = positions.iter();
    let mut blocks: Vec<Block<'a>> = Vec::new(alloc);
    for line in lines {
        if is_text(line.word) {
            // The delimiter row of a table is after its first row, every other text after its block.
            let above = blocks
                .iter_mut()
                .rev()
                .find(|block| block.depth < line.depth);
            if let Some(block) = above {
                block.texts.push(Text {
                    kind: kind(alloc, line.word)?,
                    virtual_spaces: line.spaces,
                    text: line.text,
                })?;
            }
        } else if let Some(position) = places.next() {
            blocks.push(Block {
                block: head(alloc, line.word)?,
                depth: line.depth,
                position: *position,
                texts: Vec::new(alloc),
            })?;
        }
    }
    Ok(blocks)
}

/// What is printed for a word.
fn head(alloc: Global, word: Word) -> Result<String, AllocError> {
    let mut head = String::new(alloc);
    push_head(&mut head, word)?;
    Ok(head)
}

/// What a text is.
fn kind(alloc: Global, word: Word) -> Result<String, AllocError> {
    let head = head(alloc, word)?;
    let kind = head.as_str().strip_suffix(" | ").unwrap_or("line");
    String::from_str(alloc, kind)
}

/// Appends the lines of an outline as `blocks` prints them; that of a block with its place.
fn push_outline(
    text: &mut String,
    positions: &[Position],
    lines: &[OutlineLine],
) -> Result<(), AllocError> {
    let mut places = positions.iter();
    for line in lines {
        if is_text(line.word) {
            push_line(text, line)?;
        } else if let Some(position) = places.next() {
            push_front(text, line.depth, line.word)?;
            text.push_str(" (")?;
            push_position(text, position)?;
            text.push_str(")\n")?;
        }
    }
    Ok(())
}
