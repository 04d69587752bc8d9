// The parser as a body of the programs that print or try outlines.
ghost use Rattle.printing.specs.Built.{Outlines, built_from};

use markdown_blocks::outline::outline;
use markdown_blocks::parser::parse;
use md_engine::configuration::{Constructs, ParseOptions};
use md_engine::event::Event;
use md_engine::message::Message;
use md_program::body::{Body, Outlined};
use std::alloc::Global;

/// The parser of blocks. It has all constructs but those of MDX, which it turns off.
pub struct Blocks;

impl Body for Blocks {
    ghost use Rattle.markdown_blocks.specs.Parsed.{IsWithoutMdx};

    ghost accepts = { IsWithoutMdx };

    ghost outlines = { Outlines };

    ghost built = { built_from };

    fn built(options: ParseOptions) -> ParseOptions {
        ParseOptions {
            constructs: Constructs {
                mdx_esm: false,
                mdx_expression_flow: false,
                mdx_expression_text: false,
                mdx_jsx_flow: false,
                mdx_jsx_text: false,
                ..options.constructs
            },
        }
    }

    fn outlined<'a>(
        alloc: Global,
        text: &'a str,
        options: &'a ParseOptions,
    ) -> Result<Outlined<'a>, Message> {
        let (events, state) = parse(alloc, text, options)?;
        let lines = outline(alloc, &events, &state)?;
        Ok(Outlined {
            lines,
            definitions: state.definitions,
            footnotes: state.gfm_footnote_definitions,
        })
    }

    fn events(
        alloc: Global,
        text: &str,
        options: &ParseOptions,
    ) -> Result<Option<Vec<Event>>, Message> {
        let (events, _state) = parse(alloc, text, options)?;
        Ok(Some(events))
    }
}
