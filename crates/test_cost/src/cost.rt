// What a parse takes, in numbers that are the same on each machine.

ghost use Rattle.markdown_blocks.specs.Parsed.{IsSmall, IsWithoutMdx};
ghost use Rattle.md_program.specs.Sets as sets;

use examples_layer::References;
use markdown_blocks::event::Event;
use markdown_blocks::message::Message;
use markdown_blocks::outline::outline;
use markdown_blocks::parser::{ParseState, parse, parse_with};
use markdown_inlines::Inlines;
use md_engine::configuration::ParseOptions;
use md_program::body::Body;
use md_program::printing::{Printing, bytes_of};
use printing::blocks::Blocks;
use std::alloc::Global;
use std::mem::size_of;

/// How a text begins whose parts the layer `References` reads.
const REFERENCES: &str = "[references]: /\n";

/// How a text begins whose blocks and parts are read with the constructs of GitHub, the parts by the layer `Inlines`:
/// two blank lines, the second with a tab. The parts of any other text are read as lines.
const INLINES: &str = "\n\t\n";

/// The events of a text, and what else is known of it.
fn read<'a>(
    alloc: Global,
    text: &'a str,
    options: &'a ParseOptions,
) -> Result<(Vec<Event>, ParseState<'a>), Message>
    requires size { IsSmall text.now }
    requires built { IsWithoutMdx options.now }
{
    if text.starts_with(REFERENCES) {
        parse_with(alloc, &References, text, options)
    } else if text.starts_with(INLINES) {
        parse_with(alloc, &Inlines::GFM, text, options)
    } else {
        parse(alloc, text, options)
    }
}

/// The options that a text is read with, where it has none of its own.
fn options_of(text: &str, options: ParseOptions) -> ParseOptions
    requires { sets.IsWithoutMdx options }
    ensures { sets.IsWithoutMdx result }
{
    if text.starts_with(INLINES) {
        ParseOptions::GFM
    } else {
        options
    }
}

/// How many lines the outline of a text has. Where the layer `Inlines` reads it none is made, so that what a run takes
/// is that of its events.
fn line_count(
    alloc: Global,
    text: &str,
    events: &[Event],
    state: &ParseState,
) -> Result<usize, Message> {
    if text.starts_with(INLINES) {
        return Ok(0);
    }
    Ok(outline(alloc, events, state)?.len())
}

/// Prints how many events a text has, for how many their list has room, how many bytes one takes, and how many lines
/// the outline has.
pub struct Cost;

impl Printing for Cost {
    ghost prints = { λ text options output. Unit {0} };

    fn output(alloc: Global, text: &str, options: ParseOptions) -> Result<Vec<u8>, Message> {
        let options = Blocks::built(options_of(text, options));
        let (events, state) = read(alloc, text, &options)?;
        let lines = line_count(alloc, text, &events, &state)?;
        let mut numbers = String::new(alloc);
        write!(
            numbers,
            "events {}\nroom {}\nsize {}\nlines {}\n",
            events.len(),
            events.capacity(),
            size_of::<Event>(),
            lines
        )?;
        bytes_of(alloc, &numbers)
    }
}
