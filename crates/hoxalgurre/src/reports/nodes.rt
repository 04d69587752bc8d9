// The syntax tree of a text, in the form of mdast: a list of nodes, each before those in it.

use crate::reports::position::{Columns, Position};
use std::alloc::Global;

/// How a reference is written that a definition answers.
#[derive(Clone, Copy)]
pub(crate) enum LabelForm {
    Full,
    Collapsed,
    Shortcut,
}

/// What a node is.
#[derive(Clone, Copy)]
pub(crate) enum NodeKind {
    Root,
    Paragraph,
    /// A heading of this depth.
    Heading(u8),
    ThematicBreak,
    Blockquote,
    /// A list, with the number of its first item if it is ordered.
    List(Option<u32>),
    /// An item, with its check if it is a task.
    ListItem(Option<bool>),
    HtmlBlock,
    Code,
    Math,
    Yaml,
    Toml,
    Definition,
    FootnoteDefinition,
    Table,
    TableRow,
    TableCell,
    Text,
    Emphasis,
    Strong,
    Delete,
    InlineCode,
    InlineMath,
    InlineHtml,
    Break,
    Link,
    Autolink,
    Image,
    LinkReference(LabelForm),
    ImageReference(LabelForm),
    FootnoteReference,
}

/// How a column of a table is aligned, as its delimiters say.
#[derive(Clone, Copy)]
pub(crate) struct Column {
    pub(crate) is_left: bool,
    pub(crate) is_right: bool,
    /// Whether its hyphens have been read.
    pub(crate) is_filled: bool,
}

/// The texts of a node. Which of them it has follows from its kind.
#[derive(Drop)]
pub(crate) struct Words {
    /// What a node without others in it holds.
    pub(crate) value: String,
    /// A label, and its normal form.
    pub(crate) label: String,
    pub(crate) identifier: String,
    pub(crate) url: String,
    pub(crate) title: Option<String>,
    /// The language of code, and what follows it.
    pub(crate) lang: Option<String>,
    pub(crate) meta: Option<String>,
}

/// A node of the tree.
#[derive(Drop)]
pub(crate) struct Node {
    pub(crate) kind: NodeKind,
    /// How many nodes are around it.
    pub(crate) depth: usize,
    pub(crate) position: Position,
    /// The place in the list after the last node in it.
    pub(crate) end: usize,
    pub(crate) words: Words,
    /// Of a list or an item, whether a blank line parts two nodes directly in it.
    pub(crate) is_spread: bool,
    /// Whether a node in it has ended, and the last line of that node, or of all of it.
    pub(crate) has_inner: bool,
    pub(crate) last_line: usize,
    /// Of a table.
    pub(crate) columns: Vec<Column>,
}

impl Words {
    fn new(alloc: Global) -> Words {
        Words {
            value: String::new(alloc),
            label: String::new(alloc),
            identifier: String::new(alloc),
            url: String::new(alloc),
            title: None,
            lang: None,
            meta: None,
        }
    }
}

impl Node {
    /// A node without texts.
    pub(crate) fn new(alloc: Global, kind: NodeKind, depth: usize, position: Position) -> Node {
        Node {
            kind,
            depth,
            position,
            end: 0,
            words: Words::new(alloc),
            is_spread: false,
            has_inner: false,
            last_line: position.start.line,
            columns: Vec::new(alloc),
        }
    }
}

/// Sets the columns of nodes.
pub(crate) fn set_node_columns(columns: &Columns, nodes: &mut [Node]) {
    for node in nodes.iter_mut() {
        columns.set_both(&mut node.position);
    }
}

/// Whether a node is a block or a row of a table.
pub(crate) fn is_block_node(kind: NodeKind) -> bool {
    is_container_node(kind) || is_leaf_node(kind)
}

fn is_container_node(kind: NodeKind) -> bool {
    match kind {
        NodeKind::Blockquote | NodeKind::List(_) | NodeKind::ListItem(_) => true,
        NodeKind::FootnoteDefinition | NodeKind::Table | NodeKind::TableRow => true,
        _ => false,
    }
}

fn is_leaf_node(kind: NodeKind) -> bool {
    match kind {
        NodeKind::Paragraph | NodeKind::Heading(_) | NodeKind::ThematicBreak => true,
        NodeKind::HtmlBlock | NodeKind::Code | NodeKind::Math => true,
        NodeKind::Yaml | NodeKind::Toml | NodeKind::Definition => true,
        _ => false,
    }
}

/// Whether a node is an image, whose text is that of the nodes in it.
pub(crate) fn is_image(kind: NodeKind) -> bool {
    match kind {
        NodeKind::Image | NodeKind::ImageReference(_) => true,
        _ => false,
    }
}
