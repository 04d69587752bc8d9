// What names of events are in the tree: which nodes they begin, and what becomes of the texts in them.

use crate::reports::nodes::NodeKind;
use markdown_blocks::event::Name;

/// What becomes of text.
#[derive(Clone, Copy)]
pub(crate) enum Sink {
    Nowhere,
    /// It is a node of text.
    Phrasing,
    /// It is the value of a node in a paragraph.
    Value,
    /// It is the value of a block, line by line.
    Lines,
    Url,
    Title,
    Label,
    Lang,
    Meta,
}

/// The node that a part of this name is, if it is one.
pub(crate) fn kind_of(name: Name) -> Option<NodeKind> {
    match block_kind(name) {
        Some(kind) => Some(kind),
        None => inline_kind(name),
    }
}

fn block_kind(name: Name) -> Option<NodeKind> {
    match name {
        Name::Paragraph => Some(NodeKind::Paragraph),
        Name::HeadingAtx | Name::HeadingSetext => Some(NodeKind::Heading(0)),
        Name::ThematicBreak => Some(NodeKind::ThematicBreak),
        Name::BlockQuote => Some(NodeKind::Blockquote),
        Name::ListOrdered => Some(NodeKind::List(Some(0))),
        Name::ListUnordered => Some(NodeKind::List(None)),
        Name::ListItem => Some(NodeKind::ListItem(None)),
        Name::HtmlFlow => Some(NodeKind::HtmlBlock),
        Name::CodeIndented | Name::CodeFenced => Some(NodeKind::Code),
        Name::MathFlow => Some(NodeKind::Math),
        Name::Frontmatter => Some(NodeKind::Yaml),
        Name::Definition => Some(NodeKind::Definition),
        Name::GfmFootnoteDefinition => Some(NodeKind::FootnoteDefinition),
        Name::GfmTable => Some(NodeKind::Table),
        Name::GfmTableRow => Some(NodeKind::TableRow),
        Name::GfmTableCell => Some(NodeKind::TableCell),
        _ => None,
    }
}

fn inline_kind(name: Name) -> Option<NodeKind> {
    match name {
        Name::Emphasis => Some(NodeKind::Emphasis),
        Name::Strong => Some(NodeKind::Strong),
        Name::GfmStrikethrough => Some(NodeKind::Delete),
        Name::CodeText => Some(NodeKind::InlineCode),
        Name::MathText => Some(NodeKind::InlineMath),
        Name::HtmlText => Some(NodeKind::InlineHtml),
        Name::HardBreakEscape | Name::HardBreakTrailing => Some(NodeKind::Break),
        Name::Link => Some(NodeKind::Link),
        Name::Image => Some(NodeKind::Image),
        Name::GfmFootnoteCall => Some(NodeKind::FootnoteReference),
        Name::Autolink => Some(NodeKind::Autolink),
        name if is_literal(name) => Some(NodeKind::Autolink),
        _ => None,
    }
}

/// Whether these events are of an address without angle brackets.
fn is_literal(name: Name) -> bool {
    matches!(
        name,
        Name::GfmAutolinkLiteralEmail
            | Name::GfmAutolinkLiteralMailto
            | Name::GfmAutolinkLiteralProtocol
            | Name::GfmAutolinkLiteralWww
            | Name::GfmAutolinkLiteralXmpp
    )
}

/// Whether a piece of this name is an address.
pub(crate) fn is_address(name: Name) -> bool {
    is_literal(name) || matches!(name, Name::AutolinkProtocol | Name::AutolinkEmail)
}

/// What an address of this name leads to has before it.
pub(crate) fn scheme_of(name: Name) -> &'static str {
    match name {
        Name::AutolinkEmail | Name::GfmAutolinkLiteralEmail => "mailto:",
        Name::GfmAutolinkLiteralWww => "http://",
        _ => "",
    }
}

/// Whether a piece of this name means what it says.
pub(crate) fn is_text_piece(name: Name) -> bool {
    matches!(
        name,
        Name::Data
            | Name::CharacterEscapeValue
            | Name::CodeTextData
            | Name::MathTextData
            | Name::HtmlTextData
    )
}

/// Whether a piece of this name is a line of a block, or a part of one.
pub(crate) fn is_line_piece(name: Name) -> bool {
    matches!(
        name,
        Name::CodeFlowChunk | Name::MathFlowChunk | Name::HtmlFlowData | Name::FrontmatterChunk
    )
}

/// Whether a part of this name is text between others.
pub(crate) fn is_text(name: Name) -> bool {
    matches!(
        name,
        Name::Data | Name::CharacterEscape | Name::CharacterReference | Name::LineEnding
    )
}

/// What becomes of the text in a part of this name, if not the same as of that around it.
pub(crate) fn sink_of(name: Name) -> Option<Sink> {
    match name {
        Name::Paragraph | Name::HeadingAtxText | Name::HeadingSetextText => Some(Sink::Phrasing),
        Name::GfmTableCellText => Some(Sink::Phrasing),
        Name::CodeText | Name::MathText | Name::HtmlText => Some(Sink::Value),
        Name::CodeIndented | Name::CodeFenced | Name::MathFlow => Some(Sink::Lines),
        Name::HtmlFlow | Name::Frontmatter => Some(Sink::Lines),
        name => words_sink(name),
    }
}

fn words_sink(name: Name) -> Option<Sink> {
    match name {
        Name::Resource | Name::Reference => Some(Sink::Nowhere),
        Name::ResourceDestinationString | Name::DefinitionDestinationString => Some(Sink::Url),
        Name::ResourceTitle | Name::DefinitionTitle => Some(Sink::Title),
        Name::ReferenceString | Name::DefinitionLabelString => Some(Sink::Label),
        Name::GfmFootnoteDefinitionLabelString | Name::GfmFootnoteCall => Some(Sink::Label),
        Name::CodeFencedFenceInfo => Some(Sink::Lang),
        Name::CodeFencedFenceMeta | Name::MathFlowFenceMeta => Some(Sink::Meta),
        _ => None,
    }
}
