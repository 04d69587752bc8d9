// Events, and the points of the text that they are at.
//
// The result of a parse is a list of events: an `Enter` and an `Exit` of each part, in the order of the text. Enters
// and exits match by name like brackets.

use std::mem::size_of;

/// A place in the text.
#[derive(Clone, Copy, Debug, PartialEq, Eq)]
pub struct Point {
    /// 1 plus the number of line endings before the place.
    pub line: usize,
    /// 1 plus the number of columns before the place on its line: a tab reaches to the next multiple of 4, and every
    /// other byte is one column.
    pub column: usize,
    /// The byte, counted from 0.
    pub index: usize,
    /// How many columns of the tab at `index` lie before the place; 0 where no tab is cut.
    pub vs: usize,
}

/// Whether a part begins or ends.
#[derive(Clone, Copy, Debug, PartialEq, Eq)]
pub enum Kind {
    Enter,
    Exit,
}

/// What a linked part holds, to be read later.
#[derive(Clone, Copy, Debug, PartialEq, Eq)]
pub enum Content {
    /// Leaf blocks.
    Flow,
    /// Definitions and a paragraph.
    Content,
    /// Text without media, as an info string or a label.
    String,
    /// Text, as of a paragraph, a heading or a cell.
    Text,
}

/// What a part that is read later is linked by.
///
/// Parts are read as one where nothing but container prefixes is between them. So a link says only what whoever adds
/// the part knows of its neighbours, and not where they are.
#[derive(Clone, Copy, Debug, PartialEq, Eq)]
pub struct Link {
    /// Whether a part before this one is known to be read as one with it.
    pub previous: bool,
    /// Whether a part after this one is known to be read as one with it.
    pub next: bool,
    pub content: Content,
}

/// The begin or the end of a part.
///
/// Fields lie in memory in the order in which they are here. The small ones are together, so that little room is lost
/// between.
#[derive(Clone, Copy, Debug, PartialEq, Eq)]
pub struct Event {
    pub kind: Kind,
    pub name: Name,
    /// On the enter of a part that is read later.
    pub link: Option<Link>,
    pub point: Point,
}

/// Most of what a parse takes of memory is events.
const _: () = prove!(size_of::<Event>() <= 40);

/// Names of parts, by construct. From `Link` on they are of inline layers: no block and no line has them.
#[derive(Clone, Copy, Debug, PartialEq, Eq)]
pub enum Name {
    // Frontmatter.
    Frontmatter,
    FrontmatterFence,
    FrontmatterSequence,
    FrontmatterChunk,
    // Block quote.
    BlockQuote,
    BlockQuotePrefix,
    BlockQuoteMarker,
    // Lists and their items.
    ListOrdered,
    ListUnordered,
    ListItem,
    ListItemPrefix,
    ListItemValue,
    ListItemMarker,
    // Footnote definition.
    GfmFootnoteDefinition,
    GfmFootnoteDefinitionPrefix,
    GfmFootnoteDefinitionLabel,
    GfmFootnoteDefinitionLabelMarker,
    GfmFootnoteDefinitionMarker,
    GfmFootnoteDefinitionLabelString,
    // Headings.
    HeadingAtx,
    HeadingAtxSequence,
    HeadingAtxText,
    HeadingSetext,
    HeadingSetextText,
    HeadingSetextUnderline,
    HeadingSetextUnderlineSequence,
    // Thematic break.
    ThematicBreak,
    ThematicBreakSequence,
    // Code, indented and fenced.
    CodeIndented,
    CodeFenced,
    CodeFencedFence,
    CodeFencedFenceSequence,
    CodeFencedFenceInfo,
    CodeFencedFenceMeta,
    CodeFlowChunk,
    // Math.
    MathFlow,
    MathFlowFence,
    MathFlowFenceSequence,
    MathFlowFenceMeta,
    MathFlowChunk,
    // HTML.
    HtmlFlow,
    HtmlFlowData,
    // Definition.
    Definition,
    DefinitionLabel,
    DefinitionLabelMarker,
    DefinitionLabelString,
    DefinitionMarker,
    DefinitionDestination,
    DefinitionDestinationLiteral,
    DefinitionDestinationLiteralMarker,
    DefinitionDestinationRaw,
    DefinitionDestinationString,
    DefinitionTitle,
    DefinitionTitleMarker,
    DefinitionTitleString,
    // Paragraph.
    Paragraph,
    // Table.
    GfmTable,
    GfmTableHead,
    GfmTableBody,
    GfmTableRow,
    GfmTableCell,
    GfmTableCellDivider,
    GfmTableCellText,
    GfmTableDelimiterRow,
    GfmTableDelimiterCell,
    GfmTableDelimiterCellValue,
    GfmTableDelimiterMarker,
    GfmTableDelimiterFiller,
    // Between these.
    ByteOrderMark,
    SpaceOrTab,
    LineEnding,
    BlankLineEnding,
    // What is read later, until it is.
    Content,
    Data,
    // What an inline layer alone gives. A link, its brackets, and the text between them.
    Link,
    LabelMarker,
    LabelText,
    // An image, and what else the label of a link, of an image and of a call has.
    Image,
    Label,
    LabelLink,
    LabelImage,
    LabelImageMarker,
    LabelEnd,
    // The call of a footnote.
    GfmFootnoteCall,
    GfmFootnoteCallLabel,
    GfmFootnoteCallMarker,
    // Where a link leads, in parentheses after its label.
    Resource,
    ResourceMarker,
    ResourceDestination,
    ResourceDestinationLiteral,
    ResourceDestinationLiteralMarker,
    ResourceDestinationRaw,
    ResourceDestinationString,
    ResourceTitle,
    ResourceTitleMarker,
    ResourceTitleString,
    // The label of a definition after its label.
    Reference,
    ReferenceMarker,
    ReferenceString,
    // Emphasis, strong emphasis and strikethrough.
    Emphasis,
    EmphasisSequence,
    EmphasisText,
    Strong,
    StrongSequence,
    StrongText,
    GfmStrikethrough,
    GfmStrikethroughSequence,
    GfmStrikethroughText,
    // Code, math and HTML in a text.
    CodeText,
    CodeTextSequence,
    CodeTextData,
    MathText,
    MathTextSequence,
    MathTextData,
    HtmlText,
    HtmlTextData,
    // Autolinks, in angle brackets and without them.
    Autolink,
    AutolinkMarker,
    AutolinkProtocol,
    AutolinkEmail,
    GfmAutolinkLiteralEmail,
    GfmAutolinkLiteralMailto,
    GfmAutolinkLiteralProtocol,
    GfmAutolinkLiteralWww,
    GfmAutolinkLiteralXmpp,
    // Escapes, and references to characters.
    CharacterEscape,
    CharacterEscapeMarker,
    CharacterEscapeValue,
    CharacterReference,
    CharacterReferenceMarker,
    CharacterReferenceMarkerNumeric,
    CharacterReferenceMarkerHexadecimal,
    CharacterReferenceValue,
    CharacterReferenceMarkerSemi,
    // Hard line breaks.
    HardBreakEscape,
    HardBreakTrailing,
    // The check of a task item.
    GfmTaskListItemCheck,
    GfmTaskListItemMarker,
    GfmTaskListItemValueChecked,
    GfmTaskListItemValueUnchecked,
}
