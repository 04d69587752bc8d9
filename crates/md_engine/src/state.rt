// States of the tokenizer.
//
// A construct is a small machine: each of its states looks at the byte that is current, adds events, and answers which
// state comes next. The names are here for all constructs, so that a tokenizer can hold one, in an attempt or while it
// waits for more of the text.

pub mod blank_line;
pub mod block_quote;
pub mod bom;
pub mod code_indented;
pub mod content;
pub mod definition;
pub mod destination;
pub mod document;
pub mod flow;
pub mod frontmatter;
pub mod gfm_footnote_definition;
pub mod gfm_table;
pub mod heading_atx;
pub mod heading_setext;
pub mod html_flow;
pub mod label;
pub mod list_item;
pub mod non_lazy_continuation;
pub mod paragraph;
pub mod raw_flow;
pub mod space_or_tab;
pub mod space_or_tab_eol;
pub mod thematic_break;
pub mod title;

/// What a state answers.
#[derive(Clone, Copy)]
pub enum State {
    /// Memory ran out: the parse has failed.
    Error,
    /// What was tried is here.
    Ok,
    /// What was tried is not here.
    Nok,
    /// The byte was taken: go to this state with the next one.
    Next(Name),
    /// The byte was not taken: go to this state with the same one.
    Retry(Name),
}

/// Names of states, by construct: each construct has its own.
#[derive(Clone, Copy)]
pub enum Name {
    /// Of a blank line.
    BlankLine(blank_line::State),
    /// Of a block quote.
    BlockQuote(block_quote::State),
    /// Of indented code.
    CodeIndented(code_indented::State),
    /// Of content.
    Content(content::State),
    /// Of a definition.
    Definition(definition::State),
    /// Of the document.
    Document(document::State),
    /// Of flow.
    Flow(flow::State),
    /// Of frontmatter.
    Frontmatter(frontmatter::State),
    /// Of a footnote definition.
    GfmFootnoteDefinition(gfm_footnote_definition::State),
    /// Of a table.
    GfmTable(gfm_table::State),
    /// Of an ATX heading.
    HeadingAtx(heading_atx::State),
    /// Of a setext heading.
    HeadingSetext(heading_setext::State),
    /// Of HTML.
    HtmlFlow(html_flow::State),
    /// Of a list item.
    ListItem(list_item::State),
    /// Of a paragraph.
    Paragraph(paragraph::State),
    /// Of a byte order mark.
    Bom(bom::State),
    /// Of the check that a further line is not lazy.
    NonLazyContinuation(non_lazy_continuation::State),
    /// Of fenced code and math.
    RawFlow(raw_flow::State),
    /// Of a thematic break.
    ThematicBreak(thematic_break::State),
    /// Of whitespace.
    SpaceOrTab(space_or_tab::State),
    /// Of whitespace with at most one line ending.
    SpaceOrTabEol(space_or_tab_eol::State),
    /// Of a destination.
    Destination(destination::State),
    /// Of a label.
    Label(label::State),
    /// Of a title.
    Title(title::State),
}
