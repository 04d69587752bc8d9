// The parser with the layer of `examples_layer`, as a body whose events mark references.
ghost use Rattle.markdown_blocks.specs.Parsed.{IsWithoutMdx};
ghost use Rattle.printing.specs.Built.{built_from};

use examples_layer::References;
use markdown_blocks::parser::parse_with;
use md_engine::configuration::ParseOptions;
use md_engine::event::Event;
use md_engine::message::Message;
use md_program::body::{Body, Outlined};
use printing::blocks::Blocks;
use std::alloc::Global;

/// The parser of blocks, which reads text parts by the layer `references`.
pub struct Referenced;

impl Body for Referenced {
    ghost accepts = { IsWithoutMdx };

    // Of what is outlined nothing is promised: its rows show the events.
    ghost outlines = { λ text options listing. Unit {0} };

    ghost built = { built_from };

    fn built(options: ParseOptions) -> ParseOptions {
        Blocks::built(options)
    }

    fn outlined<'a>(
        alloc: Global,
        text: &'a str,
        options: &'a ParseOptions,
    ) -> Result<Outlined<'a>, Message> {
        Blocks::outlined(alloc, text, options)
    }

    fn events(
        alloc: Global,
        text: &str,
        options: &ParseOptions,
    ) -> Result<Option<Vec<Event>>, Message> {
        let (events, _state) = parse_with(alloc, &References, text, options)?;
        Ok(Some(events))
    }
}
