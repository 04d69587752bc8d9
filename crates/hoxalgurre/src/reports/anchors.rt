// The anchors of headings, as on GitHub.
//
// The text of a heading in lower case, where each space is a `-` and only letters, marks, decimal digits, `-` and what
// connects words, as `_`, are kept. Where a heading before it has the same, `-1` follows, then `-2`, and so on. Images,
// raw HTML and calls of footnotes have no text. Headings in containers count too.

use crate::reports::nodes::{Node, NodeKind, is_image};
use markdown_blocks::message::Message;
use std::alloc::{AllocError, Global};
use std::collections::BTreeMap;
use ucd_category::{GeneralCategory, GeneralCategoryGroup};

/// The anchor of a heading.
#[derive(Drop)]
pub(crate) struct Anchor {
    /// Which node the heading is, its depth from 1 to 6, and its text.
    pub(crate) node: usize,
    pub(crate) depth: u8,
    pub(crate) text: String,
    pub(crate) anchor: String,
}

/// The anchors of all headings, in the order of the text. An `Err` says that memory ran out.
pub(crate) fn anchors(alloc: Global, nodes: &[Node]) -> Result<Vec<Anchor>, Message> {
    let mut found = Vec::new(alloc);
    let mut counts = BTreeMap::new(alloc);
    for (at, node) in nodes.iter().enumerate() {
        if let NodeKind::Heading(depth) = node.kind {
            push_anchor(alloc, &mut found, &mut counts, nodes, at, depth)?;
        }
    }
    Ok(found)
}

fn push_anchor(
    alloc: Global,
    found: &mut Vec<Anchor>,
    counts: &mut BTreeMap<String, usize>,
    nodes: &[Node],
    at: usize,
    depth: u8,
) -> Result<(), AllocError> {
    let mut text = String::new(alloc);
    push_text(&mut text, nodes, at, false)?;
    let mut anchor = slug(alloc, text.as_str())?;
    number(&mut anchor, counts)?;
    found.push(Anchor {
        node: at,
        depth,
        text,
        anchor,
    })?;
    Ok(())
}

/// Appends to an anchor how many have been the same, if any.
fn number(anchor: &mut String, counts: &mut BTreeMap<String, usize>) -> Result<(), AllocError> {
    let count = counts.get(anchor.as_str()).copied().unwrap_or(0);
    let _before = counts.insert(anchor.clone()?, count.saturating_add(1))?;
    if count > 0 {
        write!(anchor, "-{count}")?;
    }
    Ok(())
}

/// The anchor of a text, without a number.
fn slug(alloc: Global, text: &str) -> Result<String, AllocError> {
    let lower = text.to_lowercase(alloc)?;
    let mut slug = String::new(alloc);
    for found in lower.as_str().chars() {
        if found == ' ' {
            slug.push('-')?;
        } else if found == '-' || is_word(found) {
            slug.push(found)?;
        }
    }
    Ok(slug)
}

/// Whether a character is a letter, a mark, a decimal digit or punctuation that connects words.
fn is_word(found: char) -> bool {
    let category = GeneralCategory::for_char(found);
    GeneralCategoryGroup::Letter.contains(category)
        || GeneralCategoryGroup::Mark.contains(category)
        || matches!(
            category,
            GeneralCategory::DecimalNumber | GeneralCategory::ConnectorPunctuation
        )
}

fn has_text(kind: NodeKind) -> bool {
    match kind {
        NodeKind::Text | NodeKind::InlineCode | NodeKind::InlineMath => true,
        _ => false,
    }
}

/// Appends the text in a node, that of images too if asked.
pub(crate) fn push_text(
    to: &mut String,
    nodes: &[Node],
    at: usize,
    has_images: bool,
) -> Result<(), AllocError> {
    let end = nodes.get(at).map_or(at, |node| node.end);
    let inside = nodes.get(at.saturating_add(1)..end).unwrap_or(&[]);
    let mut hidden = 0;
    for (before, node) in inside.iter().enumerate() {
        if before.saturating_add(at) >= hidden && has_text(node.kind) {
            to.push_str(node.words.value.as_str())?;
        }
        if is_image(node.kind) && !has_images {
            hidden = node.end.saturating_sub(1).max(hidden);
        }
    }
    Ok(())
}

/// The bytes that a fragment of an address names: `%` and two hexadecimal digits are one.
pub(crate) fn push_decoded(to: &mut Vec<u8>, fragment: &[u8]) -> Result<(), AllocError> {
    let mut skipped = 0;
    for (at, byte) in fragment.iter().enumerate() {
        if at < skipped {
            continue;
        }
        match fragment.get(at..) {
            Some([b'%', high, low, ..]) if high.is_ascii_hexdigit() && low.is_ascii_hexdigit() => {
                skipped = at.saturating_add(3);
                to.push(byte_of(*high, *low))?;
            }
            _ => to.push(*byte)?,
        }
    }
    Ok(())
}

/// The byte that two hexadecimal digits are.
fn byte_of(high: u8, low: u8) -> u8 {
    let value = digit_of(high).saturating_mul(16);
    u8::try_from(value.saturating_add(digit_of(low))).unwrap_or(0)
}

fn digit_of(digit: u8) -> u32 {
    char::from(digit).to_digit(16).unwrap_or(0)
}
