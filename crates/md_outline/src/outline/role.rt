// How an outline meets blocks: what the events of a name mean to it, and what it knows and shows of a leaf block.

ghost use Rattle.std.specs.Prelude.{◌≡◌, ◌++◌, OnOk};
ghost use Rattle.std.specs.Str.{IsUtf8};
ghost use Rattle.md_meaning.specs.Outline.{entries_of};
ghost use Rattle.md_events.specs.Events.Spelled as spelled;
ghost use Rattle.md_outline.specs.Roles.{leaf_entries, leaf_of, noted, shown_as};

use crate::outline::heading::{Heading, push_heading};
use crate::outline::lines::{push, text_of};
use md_engine::event::Name;
use md_engine::message::Message;
use md_events::names::bare_word;
use md_meaning::outline::{OutlineLine, Word};

/// What a text shows the leaf block that it is in.
#[derive(Clone, Copy)]
pub enum Note {
    /// A run of markers.
    Markers,
    /// The text of a heading.
    Title,
}

/// What a text is read as.
#[derive(Clone, Copy)]
pub enum Purpose {
    /// A block of its own, shown with its lines as they come.
    Block,
    /// The text of a heading.
    Title,
    /// A run of markers of a heading or of a fence.
    Markers,
    /// What the first fence of a leaf block says, shown with this word.
    Part(Word),
    /// The text of a line of a leaf block.
    Line,
    /// The label of a definition.
    Label,
    /// The destination of a definition.
    Destination,
    /// The title of a definition.
    DefinitionTitle,
    /// The text of a cell of a table.
    Cell,
    /// The delimiter row of a table.
    Delimiter,
    /// The marker of an item, which a list is shown with.
    Marker,
    /// The digits of an item, which are not shown.
    Digits,
    /// The label of a footnote definition.
    FootnoteLabel,
}

/// A leaf block that is open, with what it was said.
#[derive(Clone, Copy)]
pub enum Leaf<'a> {
    /// One of which nothing is known but its word.
    Bare(Word),
    Heading(Heading<'a>),
}

/// What the events of a name mean to an outline.
#[derive(Clone, Copy)]
pub enum Role<'a> {
    /// A container, with the word that shows it.
    Container(Word),
    /// A list, whose word has the marker of its first item.
    List,
    /// The prefix of a container, which belongs to no text.
    Prefix,
    /// A leaf block, as it begins.
    Leaf(Leaf<'a>),
    /// A leaf block of several lines, with the word that shows it as it begins.
    Lined(Word),
    /// A fence of one.
    Fence,
    /// The title of a definition, also an empty one.
    Title,
    /// A row of a table.
    Row,
    /// A cell of one, also an empty one.
    Cell,
    /// A line ending, which may open a line of one.
    Ending,
    /// A marker of a quote, which may give it a kind.
    QuoteMarker,
    Text(Purpose),
    Quiet,
}

/// What the events of this name mean.
#[inline(always)]
pub fn role_of<'a>(name: Name) -> Role<'a>
    ensures { result ≡ shown_as (spelled.role name) }
{
    match name {
        Name::BlockQuote => Role::Container(Word::Quote),
        Name::BlockQuoteMarker => Role::QuoteMarker,
        Name::BlockQuotePrefix => Role::Prefix,
        Name::ListOrdered | Name::ListUnordered => Role::List,
        Name::ListItem => Role::Container(Word::Item),
        Name::ListItemValue => Role::Text(Purpose::Digits),
        Name::ListItemMarker => Role::Text(Purpose::Marker),
        Name::GfmFootnoteDefinition => Role::Container(Word::Footnote),
        Name::GfmFootnoteDefinitionLabelString => Role::Text(Purpose::FootnoteLabel),
        Name::HeadingAtx => Role::Leaf(Leaf::Heading(Heading {
            markers: None,
            text: None,
        })),
        Name::Paragraph => Role::Text(Purpose::Block),
        Name::FrontmatterSequence
        | Name::HeadingAtxSequence
        | Name::HeadingSetextUnderlineSequence
        | Name::CodeFencedFenceSequence
        | Name::MathFlowFenceSequence => Role::Text(Purpose::Markers),
        Name::HeadingAtxText | Name::HeadingSetextText => Role::Text(Purpose::Title),
        Name::HeadingSetext => Role::Lined(Word::Heading(0)),
        Name::Definition => Role::Lined(Word::Definition),
        Name::DefinitionLabelString => Role::Text(Purpose::Label),
        Name::DefinitionDestinationString => Role::Text(Purpose::Destination),
        Name::DefinitionTitle => Role::Title,
        Name::DefinitionTitleString => Role::Text(Purpose::DefinitionTitle),
        Name::GfmTable => Role::Lined(Word::Table(0)),
        Name::GfmTableRow => Role::Row,
        Name::GfmTableCell => Role::Cell,
        Name::GfmTableCellText => Role::Text(Purpose::Cell),
        Name::GfmTableDelimiterRow => Role::Text(Purpose::Delimiter),
        Name::CodeIndented => Role::Lined(Word::Code),
        Name::CodeFenced => Role::Lined(Word::Fence {
            marker: 0,
            closed: false,
        }),
        Name::MathFlow => Role::Lined(Word::Math { closed: false }),
        Name::HtmlFlow => Role::Lined(Word::Html),
        Name::Frontmatter => Role::Lined(Word::Frontmatter(0)),
        Name::FrontmatterFence | Name::CodeFencedFence | Name::MathFlowFence => Role::Fence,
        Name::CodeFencedFenceInfo => Role::Text(Purpose::Part(Word::Info)),
        Name::CodeFencedFenceMeta | Name::MathFlowFenceMeta => {
            Role::Text(Purpose::Part(Word::Meta))
        }
        Name::FrontmatterChunk | Name::CodeFlowChunk | Name::MathFlowChunk | Name::HtmlFlowData =>
            Role::Text(Purpose::Line),
        Name::LineEnding => Role::Ending,
        // The most frequent names that mean nothing here have an arm, so they are not looked up.
        Name::SpaceOrTab
        | Name::BlankLineEnding
        | Name::Data
        | Name::ListItemPrefix
        | Name::DefinitionLabel
        | Name::DefinitionLabelMarker
        | Name::DefinitionMarker
        | Name::DefinitionDestination
        | Name::DefinitionDestinationRaw
        | Name::DefinitionTitleMarker
        | Name::GfmTableHead
        | Name::GfmTableBody
        | Name::GfmTableCellDivider
        | Name::GfmTableDelimiterCell
        | Name::GfmTableDelimiterCellValue
        | Name::GfmTableDelimiterMarker
        | Name::GfmTableDelimiterFiller => Role::Quiet,
        _ => match bare_word(name) {
            Some(word) => Role::Leaf(Leaf::Bare(word)),
            None => Role::Quiet,
        },
    }
}

impl<'a> Leaf<'a> {
    /// The leaf after a text that shows it this.
    pub fn noted(self, note: Note, text: &'a [u8]) -> Leaf<'a>
        ensures { IsUtf8 text.now → leaf_of result ≡ noted note text.now (leaf_of self.entry) }
    {
        match (self, note) {
            (Leaf::Heading(heading), Note::Markers) => Leaf::Heading(heading.marked(text)),
            (Leaf::Heading(heading), Note::Title) => Leaf::Heading(heading.titled(text_of(text))),
            (Leaf::Bare(word), _) => Leaf::Bare(word),
        }
    }
}

/// Adds a leaf block.
pub fn push_leaf<'a>(
    lines: &mut Vec<OutlineLine<'a>>,
    depth: usize,
    leaf: Leaf<'a>,
) -> Result<(), Message>
    ensures { OnOk result
        (entries_of lines.new.items ≡ entries_of lines.old.items ++ leaf_entries depth (leaf_of leaf.entry)) }
{
    match leaf {
        Leaf::Bare(word) => push(lines, depth, word, ""),
        Leaf::Heading(heading) => push_heading(lines, depth, heading),
    }
}
