// The lines of an outline: what a block tree looks like, read from its first line to its last.

use crate::alert::AlertKind;

/// What a line of the outline represents: a block, which has no text of its own, or a part of one with its text.
#[derive(Clone, Copy, Debug, PartialEq, Eq)]
pub enum Word {
    /// Frontmatter, and the byte of its fences: `-` or `+`.
    Frontmatter(u8),
    /// A heading, and its depth from 1 to 6.
    Heading(u8),
    /// A thematic break.
    Break,
    /// Indented code.
    Code,
    /// Fenced code: the byte of its fences, and whether it has a closing fence.
    Fence { marker: u8, closed: bool },
    /// Math, and whether it has a closing fence.
    Math { closed: bool },
    /// HTML.
    Html,
    /// A link reference definition.
    Definition,
    /// A paragraph.
    Paragraph,
    /// A table, and the number of columns of its delimiter row.
    Table(usize),
    /// A row of a table.
    Row,
    /// A block quote.
    Quote,
    /// A block quote with a kind.
    Alert(AlertKind),
    /// A list, and the byte of its markers: `*`, `+`, `-`, `.` or `)`.
    List(u8),
    /// An item of a list.
    Item,
    /// A footnote definition.
    Footnote,
    /// A line of the block above, with text.
    Line,
    /// The first word after an opening fence, with text.
    Info,
    /// What follows that word, with text.
    Meta,
    /// A line of the label of a definition or a footnote, with text.
    Label,
    /// The destination of a definition, with text.
    Destination,
    /// A line of the title of a definition, with text.
    Title,
    /// The delimiter row of a table, with text.
    Delimiter,
    /// A cell of a row, with text.
    Cell,
}

/// A line of the outline.
#[derive(Clone, Copy, Debug, PartialEq, Eq)]
pub struct OutlineLine<'a> {
    /// How many blocks and rows are around it: 0 at the root.
    pub depth: usize,
    pub word: Word,
    /// The virtual spaces before the text: columns of a tab of which a prefix took the others.
    pub spaces: usize,
    /// The text, a slice of the source; empty where the word has none.
    pub text: &'a str,
}
