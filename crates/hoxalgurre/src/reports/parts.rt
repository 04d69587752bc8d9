// A text that is read part by part, so that the events of a few blocks at a time are in memory.
ghost use Rattle.markdown_blocks.specs.Parsed.{IsSmall, IsWithoutMdx};

use markdown_blocks::configuration::ParseOptions;
use markdown_blocks::message::Message;
use markdown_blocks::parser::{ParseState, Part, Parts};
use std::alloc::Global;

/// What the parts of a text are for.
pub(crate) trait OfParts<'a> {
    /// Takes the next part, whose text parts are not read. The state has the bytes and the options of the text, and no
    /// labels: these are in the parts.
    ///
    /// An `Err` says that memory ran out.
    fn take(&mut self, part: &mut Part, state: &ParseState<'a>) -> Result<(), Message>;
}

/// Reads a text, and hands out its parts. An `Err` says that memory ran out.
pub(crate) fn hand_out<'a, T: OfParts<'a>>(
    alloc: Global,
    text: &'a str,
    options: &'a ParseOptions,
    to: &mut T,
) -> Result<(), Message>
    requires size { IsSmall text.now }
    requires built { IsWithoutMdx options.now }
{
    let state = ParseState {
        options,
        bytes: text.as_bytes(),
        definitions: Vec::new(alloc),
        gfm_footnote_definitions: Vec::new(alloc),
    };
    let mut parts = Parts::new(alloc, text, options);
    while let Some(next) = parts.next_blocks()? {
        let mut part = next;
        to.take(&mut part, &state)?;
        parts.reuse(part);
    }
    Ok(())
}
