// What the events of a name are for, on the page and where it is looked ahead, and what is written around phrases.

use md_engine::event::Name;
use md_events::names::is_block;

/// What becomes of texts and line endings.
#[derive(Clone, Copy, PartialEq, Eq)]
pub(crate) enum Shown {
    /// They are not written, as between blocks and in what a reader of the page does not see.
    Nothing,
    /// They are written, and what an inline layer has found in them.
    Text,
    /// Each line is written as it is, with an ending; none has begun yet.
    Lines,
    /// The same, where a line has begun whose ending is not written yet.
    Line,
}

/// What a page has to do at the events of a name.
#[derive(Clone, Copy)]
pub(crate) enum Sort {
    /// Nothing: a prefix, or what is not shown.
    Quiet,
    /// Nothing: a marker or whitespace, whose exit is after its enter.
    Mark,
    /// A piece of text, of code, of HTML or an ending: it is written where it ends.
    Piece,
    /// A block, or a part of one.
    Block,
    /// What an inline layer has found in a text.
    Phrase,
}

/// What a page has to do at the events of this name. Most events are quiet or of pieces.
#[inline(always)]
pub(crate) fn sort_of(name: Name) -> Sort {
    match name {
        Name::Data | Name::LineEnding => Sort::Piece,
        Name::CodeFlowChunk | Name::MathFlowChunk | Name::HtmlFlowData => Sort::Piece,
        Name::BlockQuote | Name::ListOrdered | Name::ListUnordered | Name::ListItem => Sort::Block,
        Name::GfmFootnoteDefinition => Sort::Block,
        Name::Paragraph | Name::HeadingAtx | Name::HeadingSetext => Sort::Block,
        Name::HeadingAtxText | Name::HeadingSetextText | Name::ThematicBreak => Sort::Block,
        Name::CodeIndented | Name::CodeFenced | Name::MathFlow | Name::HtmlFlow => Sort::Block,
        Name::CodeFencedFence | Name::CodeFencedFenceInfo | Name::MathFlowFence => Sort::Block,
        Name::GfmTable | Name::GfmTableHead | Name::GfmTableBody => Sort::Block,
        Name::GfmTableRow | Name::GfmTableCell | Name::GfmTableCellText => Sort::Block,
        Name::Link | Name::Image | Name::GfmFootnoteCall => Sort::Phrase,
        Name::Resource | Name::Reference => Sort::Phrase,
        Name::Emphasis | Name::Strong | Name::GfmStrikethrough => Sort::Phrase,
        Name::CodeText | Name::CodeTextData | Name::MathText | Name::MathTextData => Sort::Phrase,
        Name::HtmlTextData => Sort::Phrase,
        Name::AutolinkProtocol | Name::AutolinkEmail => Sort::Phrase,
        Name::GfmAutolinkLiteralEmail | Name::GfmAutolinkLiteralMailto => Sort::Phrase,
        Name::GfmAutolinkLiteralProtocol | Name::GfmAutolinkLiteralWww => Sort::Phrase,
        Name::GfmAutolinkLiteralXmpp => Sort::Phrase,
        Name::CharacterEscapeValue | Name::CharacterReference => Sort::Phrase,
        Name::HardBreakEscape | Name::HardBreakTrailing => Sort::Phrase,
        Name::GfmTaskListItemCheck | Name::GfmTaskListItemValueChecked => Sort::Phrase,
        Name::SpaceOrTab | Name::BlankLineEnding | Name::BlockQuoteMarker => Sort::Mark,
        Name::ListItemValue | Name::ListItemMarker => Sort::Mark,
        Name::HeadingAtxSequence | Name::CodeFencedFenceSequence => Sort::Mark,
        Name::LabelMarker | Name::LabelImageMarker | Name::ReferenceMarker => Sort::Mark,
        Name::ResourceMarker | Name::EmphasisSequence | Name::StrongSequence => Sort::Mark,
        Name::CodeTextSequence | Name::AutolinkMarker | Name::GfmTableCellDivider => Sort::Mark,
        _ => Sort::Quiet,
    }
}

/// Whether events of this name are of a link, an image or a call.
#[inline(always)]
pub(crate) fn is_media(name: Name) -> bool {
    matches!(name, Name::Link | Name::Image | Name::GfmFootnoteCall)
}

/// Whether a survey lists events of this name, or what is in them.
#[inline(always)]
pub(crate) fn is_surveyed(name: Name) -> bool {
    match name {
        Name::Link | Name::Image | Name::GfmFootnoteCall => true,
        Name::LabelText | Name::ReferenceString | Name::Resource => true,
        Name::ResourceDestinationString | Name::ResourceTitleString => true,
        Name::Definition | Name::DefinitionDestinationString | Name::DefinitionTitleString => true,
        Name::GfmFootnoteDefinition | Name::GfmTable | Name::GfmTableRow | Name::GfmTableCell => {
            true
        }
        Name::GfmTableDelimiterRow | Name::GfmTableDelimiterCell => true,
        _ => false,
    }
}

/// Whether a survey of a link, an image or a call lists events of this name.
#[inline(always)]
pub(crate) fn is_of_media(name: Name) -> bool {
    is_media(name)
        || matches!(name, Name::LabelText)
        || matches!(name, Name::Resource)
        || matches!(name, Name::ResourceDestinationString)
        || matches!(name, Name::ResourceTitleString)
        || matches!(name, Name::ReferenceString)
}

// Names that are no neighbours are asked for apart: so a question is a test of a bit, where one match is a jump by a
// table.

/// Whether events of this name are of a list, or of the ending of a blank line.
#[inline(always)]
pub(crate) fn is_list_or_blank(name: Name) -> bool {
    matches!(name, Name::ListOrdered | Name::ListUnordered) || matches!(name, Name::BlankLineEnding)
}

/// Whether events of this name say which lists are loose.
#[inline(always)]
pub(crate) fn is_of_lists(name: Name) -> bool {
    is_block(name)
        || matches!(name, Name::BlockQuotePrefix | Name::ListItemPrefix)
        || matches!(name, Name::GfmFootnoteDefinitionPrefix)
        || matches!(name, Name::BlankLineEnding)
}

/// What is written where a part of a text begins, as far as that depends on the name alone.
pub(crate) fn begin_phrase(name: Name) -> &'static str {
    match name {
        Name::Emphasis => "<em>",
        Name::Strong => "<strong>",
        Name::GfmStrikethrough => "<del>",
        _ => "",
    }
}

/// The same where it ends.
pub(crate) fn end_phrase(name: Name) -> &'static str {
    match name {
        Name::Emphasis => "</em>",
        Name::Strong => "</strong>",
        Name::GfmStrikethrough => "</del>",
        Name::HardBreakEscape | Name::HardBreakTrailing => "<br />",
        _ => "",
    }
}
