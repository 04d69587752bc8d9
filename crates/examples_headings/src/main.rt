// The program `examples_headings`: it reads a Markdown text from its standard input and prints an outline of its
// headings.
//
// A line for each heading: its depth, the bytes of its section, and its text as it is. A section reaches from its
// heading to the next one that is not deeper, or to the end of the text. Headings in block quotes, items and footnote
// definitions divide those and not the text, so they are left out.
#![tactic(auto)]

ghost use Rattle.markdown_blocks.specs.Parsed.{IsSmall};

mod headings;

use crate::headings::{Heading, headings};
use markdown_blocks::configuration::ParseOptions;
use markdown_blocks::event::Event;
use markdown_blocks::message::Message;
use markdown_blocks::outline::{OutlineLine, outline};
use markdown_blocks::parser::parse;
use std::alloc::{AllocError, Global};
use std::io::{self, Write};
use std::process::ExitCode;

/// The most bytes that a text may have.
const MOST: usize = usize::MAX / 8;

/// The outline of the headings of a text, with every construct on. An `Err` says that memory ran out.
fn listed(alloc: Global, text: &str) -> Result<String, Message>
    requires { IsSmall text.now }
{
    let (events, state) = parse(alloc, text, &ParseOptions::ALL)?;
    let lines = outline(alloc, &events, &state)?;
    match sections(alloc, &events, &lines, state.bytes) {
        Ok(lines) => Ok(lines),
        Err(_) => Err(Message),
    }
}

/// A line for each heading. Each look for the end of a section passes that section alone, and sections of one depth do
/// not overlap, so all looks together pass each heading six times at most.
fn sections(
    alloc: Global,
    events: &[Event],
    lines: &[OutlineLine],
    bytes: &[u8],
) -> Result<String, AllocError> {
    let found = headings(alloc, events, lines)?;
    let mut lines = String::new(alloc);
    for (at, heading) in found.iter().enumerate() {
        let Heading { depth, start, .. } = *heading;
        let end = found
            .iter()
            .skip(at + 1)
            .find(|other| other.depth <= depth)
            .map_or(bytes.len(), |other| other.start);
        writeln!(lines, "{depth} {start}..{end} {}", heading.text(bytes))?;
    }
    Ok(lines)
}

fn main(rt: HostRuntime) -> ExitCode {
    let Ok(text) = io::read_to_string(rt.alloc(), rt.stdin()) else {
        return ExitCode::FAILURE;
    };
    if text.len() > MOST {
        return ExitCode::FAILURE;
    }
    match listed(rt.alloc(), text.as_str()) {
        Ok(lines) if rt.stdout().write_all(lines.as_bytes()).is_ok() => ExitCode::SUCCESS,
        _ => ExitCode::FAILURE,
    }
}
