// The links, images and autolinks of a text, and where each leads to.
//
// A link to `#anchor` is a finding if no heading of the text has that anchor. `#` and `#top` are the top of a page.

use crate::reports::anchors::{Anchor, push_decoded};
use crate::reports::nodes::{Node, NodeKind};
use crate::reports::position::{Columns, Position, push_position};
use markdown_blocks::message::Message;
use serde::Serialize;
use std::alloc::{AllocError, Global};
use std::collections::{BTreeMap, BTreeSet};

/// A link.
#[derive(Drop, Serialize)]
pub(crate) struct LinkRecord<'a> {
    /// `link`, `image` or `autolink`.
    kind: &'static str,
    position: Position,
    /// Where it leads to, as escapes and character references mean it.
    destination: &'a str,
    title: Option<&'a str>,
    /// Of `#anchor`, whether a heading has that anchor.
    has_heading: Option<bool>,
}

/// What links need to know of a text.
#[derive(Drop)]
struct Known<'a> {
    /// Of each normal form of a label, the definition that is the first with it.
    definitions: BTreeMap<&'a str, &'a Node>,
    anchors: BTreeSet<&'a str>,
}

/// All links of a text, in its order. An `Err` says that memory ran out.
pub(crate) fn links<'a>(
    alloc: Global,
    nodes: &'a [Node],
    anchors: &'a [Anchor],
) -> Result<Vec<LinkRecord<'a>>, Message> {
    let known = Known {
        definitions: definitions(alloc, nodes)?,
        anchors: names(alloc, anchors)?,
    };
    let mut found = Vec::new(alloc);
    for node in nodes {
        if let Some(kind) = word_of(node.kind) {
            push_link(alloc, &mut found, &known, kind, node)?;
        }
    }
    Ok(found)
}

fn definitions<'a>(
    alloc: Global,
    nodes: &'a [Node],
) -> Result<BTreeMap<&'a str, &'a Node>, AllocError> {
    let mut found: BTreeMap<&'a str, &'a Node> = BTreeMap::new(alloc);
    for node in nodes.iter().rev() {
        if let NodeKind::Definition = node.kind {
            let _later = found.insert(node.words.identifier.as_str(), node)?;
        }
    }
    Ok(found)
}

fn names<'a>(alloc: Global, anchors: &'a [Anchor]) -> Result<BTreeSet<&'a str>, AllocError> {
    let mut found: BTreeSet<&'a str> = BTreeSet::new(alloc);
    for anchor in anchors {
        let _is_new = found.insert(anchor.anchor.as_str())?;
    }
    Ok(found)
}

/// What kind of link a node is, if it is one.
fn word_of(kind: NodeKind) -> Option<&'static str> {
    match kind {
        NodeKind::Link | NodeKind::LinkReference(_) => Some("link"),
        NodeKind::Image | NodeKind::ImageReference(_) => Some("image"),
        NodeKind::Autolink => Some("autolink"),
        _ => None,
    }
}

/// The node that says where a link leads to: itself, or the definition that answers it.
fn leading<'a>(known: &Known<'a>, node: &'a Node) -> &'a Node {
    match node.kind {
        NodeKind::LinkReference(_) | NodeKind::ImageReference(_) => {
            let form = node.words.identifier.as_str();
            known.definitions.get(form).copied().unwrap_or(node)
        }
        _ => node,
    }
}

fn push_link<'a>(
    alloc: Global,
    found: &mut Vec<LinkRecord<'a>>,
    known: &Known<'a>,
    kind: &'static str,
    node: &'a Node,
) -> Result<(), AllocError> {
    let target = leading(known, node);
    let destination = target.words.url.as_str();
    found.push(LinkRecord {
        kind,
        position: node.position,
        destination,
        title: target.words.title.as_ref().map(|title| title.as_str()),
        has_heading: has_heading(alloc, known, destination)?,
    })?;
    Ok(())
}

/// Of a destination within the text, whether a heading has its anchor.
fn has_heading(
    alloc: Global,
    known: &Known<'_>,
    destination: &str,
) -> Result<Option<bool>, AllocError> {
    let Some((b'#', fragment)) = destination.as_bytes().split_first() else {
        return Ok(None);
    };
    if fragment.is_empty() || fragment.eq_ignore_ascii_case(b"top") {
        return Ok(None);
    }
    let mut decoded = Vec::new(alloc);
    push_decoded(&mut decoded, fragment)?;
    let is_plain = known
        .anchors
        .contains(str::from_utf8(fragment).unwrap_or(""));
    let meant = str::from_utf8(decoded.as_slice()).unwrap_or("");
    Ok(Some(is_plain || known.anchors.contains(meant)))
}

/// Sets the columns of links.
pub(crate) fn set_link_columns(columns: &Columns, links: &mut [LinkRecord]) {
    for link in links.iter_mut() {
        columns.set_both(&mut link.position);
    }
}

/// How many links lead to no heading.
pub(crate) fn count_broken(links: &[LinkRecord]) -> usize {
    links
        .iter()
        .filter(|link| link.has_heading == Some(false))
        .count()
}

/// Appends a line for each link, as `1:1 0..9 link #a, no such heading`.
pub(crate) fn push_links(text: &mut String, links: &[LinkRecord]) -> Result<(), AllocError> {
    for link in links {
        push_position(text, &link.position)?;
        write!(text, " {} ", link.kind)?;
        push_on_line(text, link.destination)?;
        text.push_str(match link.has_heading {
            Some(false) => ", no such heading\n",
            _ => "\n",
        })?;
    }
    Ok(())
}

/// Appends a destination, with `%0A` and `%0D` for line endings.
fn push_on_line(text: &mut String, destination: &str) -> Result<(), AllocError> {
    for found in destination.chars() {
        match found {
            '\n' => text.push_str("%0A")?,
            '\r' => text.push_str("%0D")?,
            found => text.push(found)?,
        }
    }
    Ok(())
}
