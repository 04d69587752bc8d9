// The syntax tree of a text as JSON, in the form of mdast.
//
// Nodes are written one after the other, each before those in it; the ends of those that are open are in a list.

use crate::reports::anchors::push_text;
use crate::reports::nodes::{Column, LabelForm, Node, NodeKind, Words, is_image};
use markdown_blocks::message::Message;
use serde::Serialize;
use std::alloc::{AllocError, Global};

/// Appends a tree. An `Err` says that memory ran out.
pub(crate) fn push_tree(alloc: Global, to: &mut String, nodes: &[Node]) -> Result<(), Message> {
    let mut open: Vec<usize> = Vec::new(alloc);
    let mut next = 0;
    for (at, node) in nodes.iter().enumerate() {
        if at < next {
            continue;
        }
        close_until(to, &mut open, at)?;
        push_node(alloc, to, nodes, at, node)?;
        if has_children(node.kind) {
            begin_children(to, &mut open, node.end)?;
        } else {
            to.push('}')?;
            next = node.end;
        }
    }
    close_until(to, &mut open, usize::MAX)?;
    Ok(())
}

/// Begins the list of what is in a node, which has ended at this place of the list of nodes.
fn begin_children(to: &mut String, open: &mut Vec<usize>, end: usize) -> Result<(), AllocError> {
    to.push_str(",\"children\":[")?;
    open.push(end)?;
    Ok(())
}

/// Ends the nodes that have ended before this place of the list.
fn close_until(to: &mut String, open: &mut Vec<usize>, at: usize) -> Result<(), AllocError> {
    for _ in 0..open.len() {
        if open.last().is_some_and(|end| *end <= at) {
            let _ended = open.pop();
            to.push_str("]}")?;
        }
    }
    Ok(())
}

fn has_children(kind: NodeKind) -> bool {
    match kind {
        NodeKind::Root | NodeKind::Paragraph | NodeKind::Heading(_) => true,
        NodeKind::Blockquote | NodeKind::List(_) | NodeKind::ListItem(_) => true,
        NodeKind::FootnoteDefinition => true,
        NodeKind::Table | NodeKind::TableRow | NodeKind::TableCell => true,
        NodeKind::Emphasis | NodeKind::Strong | NodeKind::Delete => true,
        NodeKind::Link | NodeKind::Autolink | NodeKind::LinkReference(_) => true,
        _ => false,
    }
}

/// Appends the begin of a node: all but what is in it.
fn push_node(
    alloc: Global,
    to: &mut String,
    nodes: &[Node],
    at: usize,
    node: &Node,
) -> Result<(), Message> {
    if to.as_bytes().last() == Some(&b'}') {
        to.push(',')?;
    }
    to.push_str("{\"type\":\"")?;
    to.push_str(type_of(node.kind))?;
    to.push('"')?;
    push_numbers(to, node)?;
    push_words(alloc, to, node)?;
    if is_image(node.kind) {
        push_alt(alloc, to, nodes, at)?;
    }
    push_json(alloc, to, "position", &node.position)
}

/// The name of a node in mdast.
pub(crate) fn type_of(kind: NodeKind) -> &'static str {
    match kind {
        NodeKind::Root => "root",
        NodeKind::Paragraph => "paragraph",
        NodeKind::Heading(_) => "heading",
        NodeKind::ThematicBreak => "thematicBreak",
        NodeKind::Blockquote => "blockquote",
        NodeKind::List(_) => "list",
        NodeKind::ListItem(_) => "listItem",
        NodeKind::HtmlBlock | NodeKind::InlineHtml => "html",
        NodeKind::Code => "code",
        NodeKind::Math => "math",
        NodeKind::Yaml => "yaml",
        NodeKind::Toml => "toml",
        NodeKind::Definition => "definition",
        NodeKind::FootnoteDefinition => "footnoteDefinition",
        NodeKind::Table => "table",
        NodeKind::TableRow => "tableRow",
        NodeKind::TableCell => "tableCell",
        kind => inline_type(kind),
    }
}

fn inline_type(kind: NodeKind) -> &'static str {
    match kind {
        NodeKind::Emphasis => "emphasis",
        NodeKind::Strong => "strong",
        NodeKind::Delete => "delete",
        NodeKind::InlineCode => "inlineCode",
        NodeKind::InlineMath => "inlineMath",
        NodeKind::Break => "break",
        NodeKind::Link | NodeKind::Autolink => "link",
        NodeKind::Image => "image",
        NodeKind::LinkReference(_) => "linkReference",
        NodeKind::ImageReference(_) => "imageReference",
        NodeKind::FootnoteReference => "footnoteReference",
        _ => "text",
    }
}

/// Appends what is no text of a node.
fn push_numbers(to: &mut String, node: &Node) -> Result<(), AllocError> {
    match node.kind {
        NodeKind::Heading(depth) => write!(to, ",\"depth\":{depth}"),
        NodeKind::List(start) => {
            push_start(to, start)?;
            push_spread(to, node.is_spread)
        }
        NodeKind::ListItem(check) => {
            push_spread(to, node.is_spread)?;
            to.push_str(match check {
                Some(true) => ",\"checked\":true",
                Some(false) => ",\"checked\":false",
                None => ",\"checked\":null",
            })
        }
        NodeKind::Table => push_columns(to, &node.columns),
        NodeKind::LinkReference(form) | NodeKind::ImageReference(form) => {
            to.push_str(",\"referenceType\":")?;
            to.push_str(form_of(form))
        }
        _ => Ok(()),
    }
}

fn push_start(to: &mut String, start: Option<u32>) -> Result<(), AllocError> {
    match start {
        Some(start) => write!(to, ",\"ordered\":true,\"start\":{start}"),
        None => to.push_str(",\"ordered\":false,\"start\":null"),
    }
}

fn push_spread(to: &mut String, is_spread: bool) -> Result<(), AllocError> {
    to.push_str(if is_spread {
        ",\"spread\":true"
    } else {
        ",\"spread\":false"
    })
}

fn form_of(form: LabelForm) -> &'static str {
    match form {
        LabelForm::Full => "\"full\"",
        LabelForm::Collapsed => "\"collapsed\"",
        LabelForm::Shortcut => "\"shortcut\"",
    }
}

fn push_columns(to: &mut String, columns: &[Column]) -> Result<(), AllocError> {
    to.push_str(",\"align\":[")?;
    let mut separator = "";
    for column in columns {
        to.push_str(separator)?;
        to.push_str(alignment(*column))?;
        separator = ",";
    }
    to.push(']')
}

fn alignment(column: Column) -> &'static str {
    if column.is_left {
        if column.is_right {
            "\"center\""
        } else {
            "\"left\""
        }
    } else if column.is_right {
        "\"right\""
    } else {
        "null"
    }
}

/// Whether a node has a value.
fn has_value(kind: NodeKind) -> bool {
    match kind {
        NodeKind::Text | NodeKind::InlineCode | NodeKind::InlineMath => true,
        NodeKind::HtmlBlock | NodeKind::InlineHtml => true,
        NodeKind::Yaml | NodeKind::Toml => true,
        _ => false,
    }
}

/// Whether a node has a label.
fn has_label(kind: NodeKind) -> bool {
    match kind {
        NodeKind::LinkReference(_) | NodeKind::ImageReference(_) => true,
        NodeKind::FootnoteDefinition | NodeKind::FootnoteReference => true,
        NodeKind::Definition => true,
        _ => false,
    }
}

/// Whether a node has a destination.
fn has_url(kind: NodeKind) -> bool {
    match kind {
        NodeKind::Link | NodeKind::Autolink | NodeKind::Image | NodeKind::Definition => true,
        _ => false,
    }
}

/// Appends the texts of a node.
fn push_words(alloc: Global, to: &mut String, node: &Node) -> Result<(), Message> {
    let words = &node.words;
    if has_label(node.kind) {
        push_json(alloc, to, "identifier", &words.identifier)?;
        push_json(alloc, to, "label", &words.label)?;
    }
    if has_url(node.kind) {
        push_json(alloc, to, "title", &words.title)?;
        push_json(alloc, to, "url", &words.url)?;
    }
    if has_value(node.kind) {
        push_json(alloc, to, "value", &words.value)?;
    }
    match node.kind {
        NodeKind::Code => push_code(alloc, to, words),
        NodeKind::Math => push_math(alloc, to, words),
        _ => Ok(()),
    }
}

fn push_code(alloc: Global, to: &mut String, words: &Words) -> Result<(), Message> {
    push_json(alloc, to, "lang", &words.lang)?;
    push_math(alloc, to, words)
}

fn push_math(alloc: Global, to: &mut String, words: &Words) -> Result<(), Message> {
    push_json(alloc, to, "meta", &words.meta)?;
    push_json(alloc, to, "value", &words.value)
}

/// Appends the text of an image.
fn push_alt(alloc: Global, to: &mut String, nodes: &[Node], at: usize) -> Result<(), Message> {
    let mut alt = String::new(alloc);
    push_text(&mut alt, nodes, at, true)?;
    push_json(alloc, to, "alt", &alt)
}

/// Appends a field.
fn push_json<T: Serialize>(
    alloc: Global,
    to: &mut String,
    key: &str,
    value: &T,
) -> Result<(), Message> {
    write!(to, ",\"{key}\":")?;
    let Ok(json) = serde_json::to_string(alloc, value) else {
        return Err(Message);
    };
    to.push_str(json.as_str())?;
    Ok(())
}
