// The leaf that is open between two lines.

/// A kind of HTML block, by how it begins, in the order of the standard.
#[derive(Clone, Copy)]
pub enum HtmlKind {
    /// `pre`, `script`, `style` or `textarea`.
    Raw,
    /// A comment.
    Comment,
    /// An instruction.
    Instruction,
    /// A declaration.
    Declaration,
    /// CDATA.
    Cdata,
    /// A name of the standard's long list.
    Basic,
    /// Any other complete tag.
    Complete,
}

/// How far the definitions at the front of a text have come after some lines (CommonMark 4.7). An underline asks
/// whether anything is left after them, so this is kept of an open text, and no line of it is read again.
#[derive(Clone, Copy)]
pub enum Progress {
    /// The lines are whole definitions.
    Fresh,
    /// In a label: its bytes so far, and whether one of them is neither a space nor a tab.
    InLabel(usize, bool),
    /// After the `:`: a destination is next.
    BeforeDestination,
    /// The lines are whole definitions, and a title of the last may follow on the next line.
    Untitled,
    /// In a title: the mark that opened it, and the one that closes it.
    InTitle(u8, u8),
    /// Something is left after the definitions, whatever follows.
    Left,
}

/// What is kept of an open text from line to line.
#[derive(Clone, Copy)]
pub struct OpenText {
    /// How far the definitions at its front have come.
    pub progress: Progress,
    /// How many cells its last line has as the head of a table (GFM 4.10); 0 where that line is no head.
    pub columns: usize,
    /// How many columns of whitespace are before its last line.
    pub indent: usize,
}

/// The leaf block that is open: what the next line continues, or ends. Of a leaf of several lines this holds what is
/// kept of it from line to line.
#[derive(Clone, Copy)]
pub enum HeldLeaf {
    /// None: the last one has ended.
    None,
    /// Lines of text, which are read once it ends.
    Text(OpenText),
    /// The same, as a lazy line meets it: not all containers continued. Between two lines none is held so.
    LazyText(OpenText),
    /// Indented code.
    Code,
    /// Fenced code or math: the byte of its marker, how many of it, and the columns before them.
    Fence {
        marker: u8,
        size: usize,
        indent: usize,
    },
    /// HTML of a kind.
    Html {
        kind: HtmlKind,
    },
    /// A table.
    Table,
}
