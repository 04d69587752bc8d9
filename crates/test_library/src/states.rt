// The states that take no memory: they succeed while every request is refused.

ghost use Rattle.std.specs.Prelude.{◌≡◌};
ghost use Rattle.markdown_blocks.specs.Parsed.{IsSmall};
ghost use Rattle.md_engine.specs.World.{looks, world};

use crate::{AFTER, BEFORE, mark};
use markdown_blocks::configuration::ParseOptions;
use markdown_blocks::construct::{
    blank_line, code_indented, html_flow, partial_non_lazy_continuation,
};
use markdown_blocks::event::{Name, Point};
use markdown_blocks::message::Message;
use markdown_blocks::state::State;
use markdown_blocks::tokenizer::Tokenizer;
use std::alloc::Global;

/// The first point of a text.
const FIRST_POINT: Point = Point {
    line: 1,
    column: 1,
    index: 0,
    vs: 0,
};

/// A line for what a state answers.
fn line_of(state: State) -> &'static str {
    match state {
        State::Ok => "ok\n",
        State::Nok => "not ok\n",
        State::Next(_) => "next\n",
        State::Retry(_) => "retry\n",
        State::Error => "error\n",
    }
}

/// A tokenizer that sees the first byte of a text.
fn seeing<'a>(alloc: Global, text: &'static [u8], options: &'a ParseOptions) -> Tokenizer<'a>
    requires { IsSmall text.now }
    ensures { (world result).current ≡ looks (world result) }
{
    let mut tokenizer = Tokenizer::new(alloc, FIRST_POINT, text, options);
    tokenizer.limit = text.len();
    tokenizer.current = tokenizer.look();
    tokenizer
}

/// What five states answer, and then whether an event was added: a blank line ends here; the line is not lazy; at the
/// `>` of a tag; in a line of HTML; in a blank line of code, where a chunk begins and where the line ends. The event
/// finds no memory where none is given.
pub fn states(alloc: Global, options: &ParseOptions) -> Result<String, Message> {
    let mut blank = seeing(alloc, b"", options);
    let mut lazy = seeing(alloc, b"a", options);
    let mut tag = seeing(alloc, b">", options);
    let mut line = seeing(alloc, b"a", options);
    let mut chunk = seeing(alloc, b" ", options);
    let mut ending = seeing(alloc, b"\n", options);
    let mut event = seeing(alloc, b"a", options);
    let _before = mark(alloc, BEFORE)?;
    let answers = [
        blank_line::after(&mut blank),
        partial_non_lazy_continuation::after(&mut lazy),
        html_flow::complete_end(&mut tag),
        html_flow::continuation_close(&mut line),
        code_indented::further_after(&mut chunk),
        code_indented::further_after(&mut ending),
    ];
    let added = event.enter(Name::Data);
    let _after = mark(alloc, AFTER)?;
    let mut lines = String::new(alloc);
    for state in answers {
        lines.push_str(line_of(state))?;
    }
    lines.push_str(if added.is_ok() {
        "event\n"
    } else {
        "no event\n"
    })?;
    Ok(lines)
}
