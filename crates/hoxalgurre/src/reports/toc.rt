// A table of contents in Markdown: a nested list of links to the headings outside of containers.

use crate::reports::anchors::Anchor;
use crate::reports::nodes::Node;
use crate::reports::position::{Columns, Position};
use serde::Serialize;
use std::alloc::{AllocError, Global};

/// An item of the table.
#[derive(Drop, Serialize)]
pub(crate) struct Entry<'a> {
    /// The depth of the heading, from 1 to 6, and how many entries the item is in.
    depth: u8,
    level: usize,
    text: &'a str,
    anchor: &'a str,
    /// The heading.
    position: Position,
}

/// The items of the table, in the order of the text. Headings without text have none. An `Err` says that memory ran
/// out.
pub(crate) fn entries<'a>(
    alloc: Global,
    nodes: &[Node],
    anchors: &'a [Anchor],
) -> Result<Vec<Entry<'a>>, AllocError> {
    let mut found = Vec::new(alloc);
    let mut open: Vec<u8> = Vec::new(alloc);
    for anchor in anchors {
        if let Some(node) = nodes.get(anchor.node).filter(|node| node.depth == 1) {
            if !anchor.text.is_empty() {
                let level = begin_section(&mut open, anchor.depth)?;
                push_entry(&mut found, level, anchor, node.position)?;
            }
        }
    }
    Ok(found)
}

/// Begins a section of this depth, and ends those that are not deeper outside of it. Returns how many it is in.
fn begin_section(open: &mut Vec<u8>, depth: u8) -> Result<usize, AllocError> {
    for _ in 0..6 {
        if open.last().is_some_and(|outer| *outer >= depth) {
            let _ended = open.pop();
        }
    }
    let level = open.len();
    open.push(depth)?;
    Ok(level)
}

fn push_entry<'a>(
    found: &mut Vec<Entry<'a>>,
    level: usize,
    anchor: &'a Anchor,
    position: Position,
) -> Result<(), AllocError> {
    found.push(Entry {
        depth: anchor.depth,
        level,
        text: anchor.text.as_str(),
        anchor: anchor.anchor.as_str(),
        position,
    })?;
    Ok(())
}

/// Sets the columns of entries.
pub(crate) fn set_entry_columns(columns: &Columns, entries: &mut [Entry]) {
    for entry in entries.iter_mut() {
        columns.set_both(&mut entry.position);
    }
}

/// Appends the table as Markdown.
pub(crate) fn push_entries(text: &mut String, entries: &[Entry]) -> Result<(), AllocError> {
    for entry in entries {
        for _ in 0..entry.level {
            text.push_str("  ")?;
        }
        text.push_str("- [")?;
        push_escaped(text, entry.text)?;
        write!(text, "](#{})", entry.anchor)?;
        text.push_str("\n")?;
    }
    Ok(())
}

/// Appends text so that Markdown means it: on one line, with a backslash before each byte that may mark something.
fn push_escaped(text: &mut String, plain: &str) -> Result<(), AllocError> {
    for found in plain.chars() {
        if found == '\n' {
            text.push(' ')?;
        } else {
            if is_mark(found) {
                text.push('\\')?;
            }
            text.push(found)?;
        }
    }
    Ok(())
}

fn is_mark(found: char) -> bool {
    matches!(
        found,
        '\\' | '`' | '*' | '_' | '[' | ']' | '<' | '&' | '~' | '$'
    )
}
