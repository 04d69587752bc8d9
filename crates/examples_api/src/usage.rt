// How to use the library: the lines of the headings and paragraphs of a text, and a line for each break.
ghost use Rattle.markdown_blocks.specs.Parsed.{IsSmall};

use markdown_blocks::configuration::{Constructs, ParseOptions};
use markdown_blocks::message::Message;
use markdown_blocks::outline::{Word, outline};
use markdown_blocks::parser::parse;
use std::alloc::Global;

/// Block quotes, list items, ATX headings and thematic breaks, and no other construct.
const BUILT: ParseOptions = ParseOptions {
    constructs: Constructs {
        block_quote: true,
        heading_atx: true,
        list_item: true,
        thematic_break: true,
        ..Constructs::NONE
    },
};

/// The lines of all headings and paragraphs, in containers and outside, and a line `---` for each break.
pub fn plain_text(alloc: Global, text: &str) -> Result<String, Message>
    requires { IsSmall text.now }
{
    let (events, state) = parse(alloc, text, &BUILT)?;
    let mut plain = String::new(alloc);
    for line in outline(alloc, &events, &state)?.iter() {
        let part = match line.word {
            Word::Line => line.text,
            Word::Break => "---",
            _ => continue,
        };
        if plain.push_str(part).is_err() || plain.push_str("\n").is_err() {
            return Err(Message);
        }
    }
    Ok(plain)
}
