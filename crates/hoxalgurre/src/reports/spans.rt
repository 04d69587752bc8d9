// The inline content of blocks, for the outline.

use crate::reports::nodes::{Node, NodeKind, is_block_node, is_image};
use crate::reports::outline::{is_text, positions};
use crate::reports::parts::OfParts;
use crate::reports::position::{Columns, Position, push_position};
use crate::reports::tree::type_of;
use markdown_blocks::event::Event;
use markdown_blocks::message::Message;
use markdown_blocks::outline::{OutlineLine, outline};
use markdown_blocks::parser::{ParseState, Part};
use md_program::print::{push_front, push_line};
use serde::Serialize;
use std::alloc::{AllocError, Global};

/// A node in a block.
#[derive(Drop, Serialize)]
pub(crate) struct Span<'n> {
    /// Its name in the tree, as `emphasis`.
    inline: &'static str,
    /// Which block it is in, by its place in the list of blocks.
    block: usize,
    /// How many blocks, rows and nodes are around it.
    depth: usize,
    position: Position,
    /// What it says or where it leads to, if that is a text.
    text: Option<&'n str>,
}

/// The text that is shown of a node: a value, a destination or a label.
fn text_of(node: &Node) -> Option<&str> {
    let words = &node.words;
    match node.kind {
        NodeKind::Text | NodeKind::InlineCode | NodeKind::InlineMath => Some(words.value.as_str()),
        NodeKind::InlineHtml => Some(words.value.as_str()),
        NodeKind::Link | NodeKind::Autolink | NodeKind::Image => Some(words.url.as_str()),
        NodeKind::LinkReference(_) | NodeKind::ImageReference(_) => Some(words.label.as_str()),
        NodeKind::FootnoteReference => Some(words.label.as_str()),
        _ => None,
    }
}

/// The nodes that are in blocks, but for those in images, in the order of the text. An `Err` says that memory ran out.
pub(crate) fn spans<'n>(alloc: Global, nodes: &'n [Node]) -> Result<Vec<Span<'n>>, AllocError> {
    let mut found = Vec::new(alloc);
    let mut blocks: usize = 0;
    let mut next = 1;
    for (at, node) in nodes.iter().enumerate() {
        if at < next {
            continue;
        }
        if is_block_node(node.kind) {
            blocks = blocks.saturating_add(1);
            continue;
        }
        if is_image(node.kind) {
            next = node.end;
        }
        found.push(Span {
            inline: type_of(node.kind),
            block: blocks.saturating_sub(1),
            depth: node.depth.saturating_sub(1),
            position: node.position,
            text: text_of(node),
        })?;
    }
    Ok(found)
}

/// Sets the columns of spans.
pub(crate) fn set_span_columns(columns: &Columns, spans: &mut [Span]) {
    for span in spans.iter_mut() {
        columns.set_both(&mut span.position);
    }
}

/// The lines of an outline, those of a block before its inline content.
#[derive(Drop)]
pub(crate) struct OutlineSpans<'n> {
    pub(crate) alloc: Global,
    pub(crate) text: String,
    pub(crate) spans: &'n [Span<'n>],
    /// How many blocks have begun, and how many spans are shown.
    pub(crate) blocks: usize,
    pub(crate) shown: usize,
}

impl<'a, 'n> OfParts<'a> for OutlineSpans<'n> {
    fn take(&mut self, part: &mut Part, state: &ParseState<'a>) -> Result<(), Message> {
        let lines = outline(self.alloc, &part.events, state)?;
        self.push_lines(&part.events, &lines)
    }
}

impl<'n> OutlineSpans<'n> {
    fn push_lines(&mut self, events: &[Event], lines: &[OutlineLine]) -> Result<(), Message> {
        let positions = positions(self.alloc, events)?;
        let mut places = positions.iter();
        for line in lines {
            if is_text(line.word) {
                push_line(&mut self.text, line)?;
            } else if let Some(position) = places.next() {
                self.push_block(line, position)?;
            }
        }
        self.push_spans()
    }

    /// Appends the line of a block, after the inline content of the block before.
    fn push_block(&mut self, line: &OutlineLine, position: &Position) -> Result<(), Message> {
        self.push_spans()?;
        self.blocks = self.blocks.saturating_add(1);
        push_front(&mut self.text, line.depth, line.word)?;
        self.text.push_str(" (")?;
        push_position(&mut self.text, position)?;
        self.text.push_str(")\n")?;
        Ok(())
    }

    /// Appends the inline content of the blocks that have begun.
    fn push_spans(&mut self) -> Result<(), Message> {
        let rest = self.spans.get(self.shown..).unwrap_or(&[]);
        let blocks = self.blocks;
        let count = rest.iter().take_while(|span| span.block < blocks).count();
        self.shown = self.shown.saturating_add(count);
        for span in rest.iter().take(count) {
            push_span(self.alloc, &mut self.text, span)?;
        }
        Ok(())
    }
}

/// Appends a line for a node, as `  text (1:1 0..1) "a"`.
fn push_span(alloc: Global, to: &mut String, span: &Span) -> Result<(), Message> {
    for _ in 0..span.depth {
        to.push_str("  ")?;
    }
    to.push_str(span.inline)?;
    to.push_str(" (")?;
    push_position(to, &span.position)?;
    to.push(')')?;
    if let Some(text) = span.text {
        push_quoted(alloc, to, text)?;
    }
    to.push('\n')?;
    Ok(())
}

/// Appends a text as JSON, so that it is on the line.
fn push_quoted(alloc: Global, to: &mut String, text: &str) -> Result<(), Message> {
    let Ok(json) = serde_json::to_string(alloc, &text) else {
        return Err(Message);
    };
    to.push(' ')?;
    to.push_str(json.as_str())?;
    Ok(())
}
