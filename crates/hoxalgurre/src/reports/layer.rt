// A text with its inline content, as the layer of `markdown_inlines` reads it.

ghost use Rattle.markdown_blocks.specs.Parsed.{IsSmall, IsWithoutMdx};

use markdown_blocks::configuration::ParseOptions;
use markdown_blocks::event::{Event, Name};
use markdown_blocks::message::Message;
use markdown_blocks::parser::{ParseState, parse_with};
use markdown_inlines::Inlines;
use std::alloc::Global;

/// The layer whose inline constructs go with these blocks.
pub(crate) fn layer_of(options: &ParseOptions) -> Inlines {
    if options.constructs.math_flow {
        Inlines::ALL
    } else if options.constructs.gfm_table {
        Inlines::GFM
    } else {
        Inlines::COMMONMARK
    }
}

/// The events of a text, with those of its inline content. An `Err` says that memory ran out.
pub(crate) fn parse_inlines<'a>(
    alloc: Global,
    text: &'a str,
    options: &'a ParseOptions,
) -> Result<(Vec<Event>, ParseState<'a>), Message>
    requires size { IsSmall text.now }
    requires built { IsWithoutMdx options.now }
{
    let layer = layer_of(options);
    parse_with(alloc, &layer, text, options)
}

/// Whether the text in a part of this name is read for all inline constructs.
pub(crate) fn is_inline_part(name: Name) -> bool {
    matches!(
        name,
        Name::Paragraph | Name::HeadingAtxText | Name::HeadingSetextText | Name::GfmTableCellText
    )
}
