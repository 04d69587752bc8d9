// What the names of events denote: blocks, containers, text parts, and prefixes of containers; and how names are
// spelled.

ghost use Rattle.std.specs.Prelude.{◌≡◌};
ghost use Rattle.md_events.specs.Events.Blocks.{bare_word, has_other_parts, is_block, is_container};
ghost use Rattle.md_events.specs.Events.Blocks.{is_heading_or_bare, is_literal};
ghost use Rattle.md_events.specs.Events.Names.{name_text};
ghost use Rattle.md_events.specs.Events.Prefix.{is_prefix};
ghost use Rattle.md_events.specs.Events.Spelled.{role};
ghost use Rattle.md_events.specs.Events.Tiles.{is_part};

use md_engine::event::Name;
use md_meaning::outline::Word;

// Names that are no neighbours are asked for apart: so a question is a test of a bit, where one match is a jump by a
// table.

/// Whether these events are of indented or fenced code, math or HTML.
#[inline(always)]
fn is_literal(name: Name) -> bool
    ensures { result ≡ is_literal (role name) }
{
    matches!(name, Name::CodeIndented | Name::CodeFenced)
        || matches!(name, Name::MathFlow)
        || matches!(name, Name::HtmlFlow)
}

/// The word that shows a leaf block of which nothing else is known, where these events are of one.
#[inline(always)]
pub fn bare_word(name: Name) -> Option<Word>
    ensures { result ≡ bare_word (role name) }
{
    match name {
        Name::ThematicBreak => Some(Word::Break),
        _ => None,
    }
}

/// Whether these events are of a heading, or of a leaf block of which nothing is known but its word.
#[inline(always)]
fn is_heading_or_bare(name: Name) -> bool
    ensures { result ≡ is_heading_or_bare (role name) }
{
    matches!(name, Name::HeadingAtx)
        || matches!(name, Name::HeadingSetext)
        || bare_word(name).is_some()
}

/// Whether these events are of frontmatter, a definition or a table.
#[inline(always)]
fn has_other_parts(name: Name) -> bool
    ensures { result ≡ has_other_parts (role name) }
{
    matches!(name, Name::Frontmatter)
        || matches!(name, Name::Definition)
        || matches!(name, Name::GfmTable)
}

/// Whether these events are of a container (CommonMark 5): a block quote, a list item or a footnote definition, which
/// hold blocks, or a list, which holds items.
#[inline(always)]
pub fn is_container(name: Name) -> bool
    ensures { result ≡ is_container (role name) }
{
    matches!(name, Name::BlockQuote)
        || matches!(
            name,
            Name::ListOrdered | Name::ListUnordered | Name::ListItem
        )
        || matches!(name, Name::GfmFootnoteDefinition)
}

/// Whether these events are of a block: of a container, a leaf block or a paragraph.
#[inline(always)]
pub fn is_block(name: Name) -> bool
    ensures { result ≡ is_block (role name) }
{
    matches!(name, Name::Paragraph)
        || is_container(name)
        || is_literal(name)
        || is_heading_or_bare(name)
        || has_other_parts(name)
}

/// Whether these events are of a text part, which an inline layer reads: the text of a paragraph, a heading or a cell,
/// a label, a destination, a title, or what follows the opening sequence of fenced code or math.
#[inline(always)]
pub fn is_text_part(name: Name) -> bool
    ensures { result ≡ is_part name }
{
    match name {
        Name::Paragraph
        | Name::HeadingAtxText
        | Name::HeadingSetextText
        | Name::GfmTableCellText
        | Name::DefinitionLabelString
        | Name::DefinitionDestinationString
        | Name::DefinitionTitleString
        | Name::GfmFootnoteDefinitionLabelString
        | Name::CodeFencedFenceInfo
        | Name::CodeFencedFenceMeta
        | Name::MathFlowFenceMeta => true,
        _ => false,
    }
}

/// Whether this belongs to a container prefix, which may lie between two lines of a part.
pub fn is_prefix(name: Name) -> bool
    ensures { result ≡ is_prefix name }
{
    matches!(name, Name::BlockQuotePrefix | Name::BlockQuoteMarker)
        || matches!(name, Name::SpaceOrTab)
}

/// A name, as it is spelled in the library.
pub fn text_of(name: Name) -> &'static str
    ensures { result.now ≡ name_text name }
{
    match name {
        Name::Frontmatter => "Frontmatter",
        Name::FrontmatterFence => "FrontmatterFence",
        Name::FrontmatterSequence => "FrontmatterSequence",
        Name::FrontmatterChunk => "FrontmatterChunk",
        Name::BlockQuote => "BlockQuote",
        Name::BlockQuotePrefix => "BlockQuotePrefix",
        Name::BlockQuoteMarker => "BlockQuoteMarker",
        Name::ListOrdered => "ListOrdered",
        Name::ListUnordered => "ListUnordered",
        Name::ListItem => "ListItem",
        Name::ListItemPrefix => "ListItemPrefix",
        Name::ListItemValue => "ListItemValue",
        Name::ListItemMarker => "ListItemMarker",
        Name::GfmFootnoteDefinition => "GfmFootnoteDefinition",
        Name::GfmFootnoteDefinitionPrefix => "GfmFootnoteDefinitionPrefix",
        Name::GfmFootnoteDefinitionLabel => "GfmFootnoteDefinitionLabel",
        Name::GfmFootnoteDefinitionLabelMarker => "GfmFootnoteDefinitionLabelMarker",
        Name::GfmFootnoteDefinitionMarker => "GfmFootnoteDefinitionMarker",
        Name::GfmFootnoteDefinitionLabelString => "GfmFootnoteDefinitionLabelString",
        Name::HeadingAtx => "HeadingAtx",
        Name::HeadingAtxSequence => "HeadingAtxSequence",
        Name::HeadingAtxText => "HeadingAtxText",
        Name::HeadingSetext => "HeadingSetext",
        Name::HeadingSetextText => "HeadingSetextText",
        Name::HeadingSetextUnderline => "HeadingSetextUnderline",
        Name::HeadingSetextUnderlineSequence => "HeadingSetextUnderlineSequence",
        Name::ThematicBreak => "ThematicBreak",
        Name::ThematicBreakSequence => "ThematicBreakSequence",
        Name::CodeIndented => "CodeIndented",
        Name::CodeFenced => "CodeFenced",
        Name::CodeFencedFence => "CodeFencedFence",
        Name::CodeFencedFenceSequence => "CodeFencedFenceSequence",
        Name::CodeFencedFenceInfo => "CodeFencedFenceInfo",
        Name::CodeFencedFenceMeta => "CodeFencedFenceMeta",
        Name::CodeFlowChunk => "CodeFlowChunk",
        Name::MathFlow => "MathFlow",
        Name::MathFlowFence => "MathFlowFence",
        Name::MathFlowFenceSequence => "MathFlowFenceSequence",
        Name::MathFlowFenceMeta => "MathFlowFenceMeta",
        Name::MathFlowChunk => "MathFlowChunk",
        Name::HtmlFlow => "HtmlFlow",
        Name::HtmlFlowData => "HtmlFlowData",
        Name::Definition => "Definition",
        Name::DefinitionLabel => "DefinitionLabel",
        Name::DefinitionLabelMarker => "DefinitionLabelMarker",
        Name::DefinitionLabelString => "DefinitionLabelString",
        Name::DefinitionMarker => "DefinitionMarker",
        Name::DefinitionDestination => "DefinitionDestination",
        Name::DefinitionDestinationLiteral => "DefinitionDestinationLiteral",
        Name::DefinitionDestinationLiteralMarker => "DefinitionDestinationLiteralMarker",
        Name::DefinitionDestinationRaw => "DefinitionDestinationRaw",
        Name::DefinitionDestinationString => "DefinitionDestinationString",
        Name::DefinitionTitle => "DefinitionTitle",
        Name::DefinitionTitleMarker => "DefinitionTitleMarker",
        Name::DefinitionTitleString => "DefinitionTitleString",
        Name::Paragraph => "Paragraph",
        Name::GfmTable => "GfmTable",
        Name::GfmTableHead => "GfmTableHead",
        Name::GfmTableBody => "GfmTableBody",
        Name::GfmTableRow => "GfmTableRow",
        Name::GfmTableCell => "GfmTableCell",
        Name::GfmTableCellDivider => "GfmTableCellDivider",
        Name::GfmTableCellText => "GfmTableCellText",
        Name::GfmTableDelimiterRow => "GfmTableDelimiterRow",
        Name::GfmTableDelimiterCell => "GfmTableDelimiterCell",
        Name::GfmTableDelimiterCellValue => "GfmTableDelimiterCellValue",
        Name::GfmTableDelimiterMarker => "GfmTableDelimiterMarker",
        Name::GfmTableDelimiterFiller => "GfmTableDelimiterFiller",
        Name::ByteOrderMark => "ByteOrderMark",
        Name::SpaceOrTab => "SpaceOrTab",
        Name::LineEnding => "LineEnding",
        Name::BlankLineEnding => "BlankLineEnding",
        Name::Content => "Content",
        Name::Data => "Data",
        Name::Link => "Link",
        Name::LabelMarker => "LabelMarker",
        Name::LabelText => "LabelText",
        Name::Image => "Image",
        Name::Label => "Label",
        Name::LabelLink => "LabelLink",
        Name::LabelImage => "LabelImage",
        Name::LabelImageMarker => "LabelImageMarker",
        Name::LabelEnd => "LabelEnd",
        Name::GfmFootnoteCall => "GfmFootnoteCall",
        Name::GfmFootnoteCallLabel => "GfmFootnoteCallLabel",
        Name::GfmFootnoteCallMarker => "GfmFootnoteCallMarker",
        Name::Resource => "Resource",
        Name::ResourceMarker => "ResourceMarker",
        Name::ResourceDestination => "ResourceDestination",
        Name::ResourceDestinationLiteral => "ResourceDestinationLiteral",
        Name::ResourceDestinationLiteralMarker => "ResourceDestinationLiteralMarker",
        Name::ResourceDestinationRaw => "ResourceDestinationRaw",
        Name::ResourceDestinationString => "ResourceDestinationString",
        Name::ResourceTitle => "ResourceTitle",
        Name::ResourceTitleMarker => "ResourceTitleMarker",
        Name::ResourceTitleString => "ResourceTitleString",
        Name::Reference => "Reference",
        Name::ReferenceMarker => "ReferenceMarker",
        Name::ReferenceString => "ReferenceString",
        Name::Emphasis => "Emphasis",
        Name::EmphasisSequence => "EmphasisSequence",
        Name::EmphasisText => "EmphasisText",
        Name::Strong => "Strong",
        Name::StrongSequence => "StrongSequence",
        Name::StrongText => "StrongText",
        Name::GfmStrikethrough => "GfmStrikethrough",
        Name::GfmStrikethroughSequence => "GfmStrikethroughSequence",
        Name::GfmStrikethroughText => "GfmStrikethroughText",
        Name::CodeText => "CodeText",
        Name::CodeTextSequence => "CodeTextSequence",
        Name::CodeTextData => "CodeTextData",
        Name::MathText => "MathText",
        Name::MathTextSequence => "MathTextSequence",
        Name::MathTextData => "MathTextData",
        Name::HtmlText => "HtmlText",
        Name::HtmlTextData => "HtmlTextData",
        Name::Autolink => "Autolink",
        Name::AutolinkMarker => "AutolinkMarker",
        Name::AutolinkProtocol => "AutolinkProtocol",
        Name::AutolinkEmail => "AutolinkEmail",
        Name::GfmAutolinkLiteralEmail => "GfmAutolinkLiteralEmail",
        Name::GfmAutolinkLiteralMailto => "GfmAutolinkLiteralMailto",
        Name::GfmAutolinkLiteralProtocol => "GfmAutolinkLiteralProtocol",
        Name::GfmAutolinkLiteralWww => "GfmAutolinkLiteralWww",
        Name::GfmAutolinkLiteralXmpp => "GfmAutolinkLiteralXmpp",
        Name::CharacterEscape => "CharacterEscape",
        Name::CharacterEscapeMarker => "CharacterEscapeMarker",
        Name::CharacterEscapeValue => "CharacterEscapeValue",
        Name::CharacterReference => "CharacterReference",
        Name::CharacterReferenceMarker => "CharacterReferenceMarker",
        Name::CharacterReferenceMarkerNumeric => "CharacterReferenceMarkerNumeric",
        Name::CharacterReferenceMarkerHexadecimal => "CharacterReferenceMarkerHexadecimal",
        Name::CharacterReferenceValue => "CharacterReferenceValue",
        Name::CharacterReferenceMarkerSemi => "CharacterReferenceMarkerSemi",
        Name::HardBreakEscape => "HardBreakEscape",
        Name::HardBreakTrailing => "HardBreakTrailing",
        Name::GfmTaskListItemCheck => "GfmTaskListItemCheck",
        Name::GfmTaskListItemMarker => "GfmTaskListItemMarker",
        Name::GfmTaskListItemValueChecked => "GfmTaskListItemValueChecked",
        Name::GfmTaskListItemValueUnchecked => "GfmTaskListItemValueUnchecked",
    }
}
