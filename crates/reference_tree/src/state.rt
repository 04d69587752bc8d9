// What is open between two lines: containers, and at most one leaf in the innermost (CommonMark, appendix).

use crate::blocks::Blocks;
use crate::html::HtmlKind;
use crate::rest::Rest;
use crate::tree::{Block, Line};
use md_meaning::alert::AlertKind;

/// An open container.
#[derive(Clone, Copy)]
pub enum Container<'a> {
    /// With its kind, if it is an alert.
    Quote(Option<AlertKind>),
    Item {
        /// The digits before the marker; none for a bullet.
        digits: &'a [u8],
        marker: u8,
        /// In columns.
        width: usize,
        /// Whether its first line was blank and no other came yet.
        starts_blank: bool,
    },
    /// With its label.
    Footnote(&'a [u8]),
}

/// A line of an open paragraph: the columns of its indent, and the text after it.
#[derive(Clone, Copy)]
pub struct ParagraphLine<'a> {
    pub indent: usize,
    pub text: &'a [u8],
}

/// An opening fence.
#[derive(Clone, Copy)]
pub struct Opening<'a> {
    pub marker: u8,
    /// How many of them.
    pub size: usize,
    /// The columns before them.
    pub indent: usize,
    pub info: Option<&'a [u8]>,
    pub meta: Option<&'a [u8]>,
}

/// The open leaf.
#[derive(Drop)]
pub enum Leaf<'a> {
    None,
    Paragraph(Vec<ParagraphLine<'a>>),
    Code(Vec<Line<'a>>),
    /// Fenced code, or math.
    Fence(Opening<'a>, Vec<Line<'a>>),
    Html(HtmlKind, Vec<Line<'a>>),
    /// The delimiter row, and the cells of each row, the head first.
    Table(&'a [u8], Vec<Vec<&'a [u8]>>),
}

/// The finished blocks of a container, and the leaf after them.
#[derive(Drop)]
pub struct Innermost<'a> {
    pub here: Blocks<'a>,
    pub leaf: Leaf<'a>,
}

/// An open container after the finished blocks of its parent.
#[derive(Drop)]
pub struct Frame<'a> {
    pub before: Blocks<'a>,
    pub container: Container<'a>,
}

/// The open containers, outermost first, and what is in the innermost.
#[derive(Drop)]
pub struct Path<'a> {
    pub frames: Vec<Frame<'a>>,
    pub spot: Innermost<'a>,
}

/// What a leaf has become with a line: it is open, or finished.
#[derive(Drop)]
pub enum LeafResult<'a> {
    Opened(Leaf<'a>),
    Finished(Block<'a>),
}

/// What a line that may start a leaf is against.
#[derive(Clone, Copy, PartialEq, Eq)]
pub enum ParagraphContext {
    /// No open paragraph.
    NoText,
    /// An open paragraph in the line's own containers.
    Text,
    /// An open paragraph that the line is lazy for.
    LazyText,
}

/// A container that continued or opened, and the rest of the line in it.
#[derive(Clone, Copy)]
pub struct Taken<'a> {
    pub container: Container<'a>,
    pub rest: Rest<'a>,
}
