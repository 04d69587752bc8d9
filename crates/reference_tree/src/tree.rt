// The blocks of a tree: what a text means, with slices of it.

use md_meaning::alert::AlertKind;
use md_meaning::outline::Word;

/// A line of code, HTML or math: columns left of a cut tab, and then bytes.
#[derive(Clone, Copy)]
pub struct Line<'a> {
    pub spaces: usize,
    pub text: &'a [u8],
}

/// A block. Texts are as written, without markers and container prefixes, and without their line endings.
#[derive(Drop)]
pub enum Block<'a> {
    /// The byte of the fences, and the lines.
    Frontmatter(u8, Vec<&'a [u8]>),
    /// The kind, if it is an alert, and the blocks.
    Quote(Option<AlertKind>, Vec<Block<'a>>),
    /// The byte of the markers, and the items.
    ListOf(u8, Vec<Block<'a>>),
    /// The marker byte, the digits before it (none for a bullet), and the blocks.
    Item(u8, &'a [u8], Vec<Block<'a>>),
    /// The label, and the blocks.
    Footnote(&'a [u8], Vec<Block<'a>>),
    /// The depth, and the lines.
    Heading(u8, Vec<&'a [u8]>),
    /// One of which nothing is known but the word that shows it.
    Bare(Word),
    Code(Vec<Line<'a>>),
    Html(Vec<Line<'a>>),
    /// The byte of the fences, info, meta, the lines, and whether there is a closing fence.
    Fence(u8, Option<&'a [u8]>, Option<&'a [u8]>, Vec<Line<'a>>, bool),
    /// Meta, the lines, and whether there is a closing fence.
    Math(Option<&'a [u8]>, Vec<Line<'a>>, bool),
    /// The lines of the label, the destination, and the lines of the title.
    Definition(Vec<&'a [u8]>, &'a [u8], Option<Vec<&'a [u8]>>),
    Paragraph(Vec<&'a [u8]>),
    /// The delimiter row without outer whitespace, and the cells of each row, the head first.
    Table(&'a [u8], Vec<Vec<&'a [u8]>>),
}
