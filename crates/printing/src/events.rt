// The events of the parser, as a program prints them.
ghost use Rattle.printing.specs.Events.{PrintsEvents};

use crate::blocks::Blocks;
use crate::print::print;
use markdown_blocks::parser::parse;
use md_engine::configuration::ParseOptions;
use md_engine::message::Message;
use md_program::body::Body;
use md_program::printing::{Printing, bytes_of};
use std::alloc::Global;

/// Prints the events of a text.
pub struct Events;

impl Printing for Events {
    ghost prints = { PrintsEvents };

    fn output(alloc: Global, text: &str, options: ParseOptions) -> Result<Vec<u8>, Message> {
        let options = Blocks::built(options);
        let (events, _state) = parse(alloc, text, &options)?;
        let text = print(alloc, &events)?;
        bytes_of(alloc, text.as_str())
    }
}
