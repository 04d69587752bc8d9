// The program `examples_references`: it reads a Markdown text from its standard input and prints the references that
// the layer `References` marks in it; then those of the same text in a block quote, and in a list item.
//
// A line for each reference has the text of its label, in which a space represents each line ending. A container
// changes no reference, so the three lists are the same, but for a text with tabs or one that is for the front of a
// document.
#![tactic(auto)]

ghost use Rattle.markdown_blocks.specs.Parsed.{IsWithoutMdx};

use examples_layer::References;
use markdown_blocks::configuration::ParseOptions;
use markdown_blocks::event::{Event, Kind, Name};
use markdown_blocks::message::Message;
use markdown_blocks::parser::parse_with;
use markdown_blocks::wrap::{item, quote};
use md_program::body::{Body, MOST};
use md_program::printing::{Printing, bytes_of};
use md_program::run::run;
use md_program::system::{Uninterrupted, arguments};
use printing::blocks::Blocks;
use std::alloc::{AllocError, Global};
use std::process::ExitCode;
use std::str;

const NAME: &str = "examples_references";

/// Prints the references of a text, of the text in a quote, and of the text in an item.
struct Marked;

impl Printing for Marked {
    // Of what is printed nothing is promised: the contract of `parse_with` is what the program shows.
    ghost prints = { λ text options output. Unit {0} };

    fn output(alloc: Global, text: &str, options: ParseOptions) -> Result<Vec<u8>, Message> {
        let options = Blocks::built(options);
        let mut lines = String::new(alloc);
        push_references(alloc, &mut lines, "text\n", text, &options)?;
        push_references(
            alloc,
            &mut lines,
            "quote\n",
            &quote(alloc, text, &options)?,
            &options,
        )?;
        push_references(
            alloc,
            &mut lines,
            "item\n",
            &item(alloc, text, &options)?,
            &options,
        )?;
        bytes_of(alloc, &lines)
    }
}

/// Appends `head` and a line for each reference of a text. An `Err` says that memory ran out, as it also does of a text
/// that a prefix before each line has made too long.
fn push_references(
    alloc: Global,
    lines: &mut String,
    head: &str,
    text: &str,
    options: &ParseOptions,
) -> Result<(), Message>
    requires { IsWithoutMdx options.now }
{
    if text.len() > MOST {
        return Err(Message);
    }
    let (events, state) = parse_with(alloc, &References, text, options)?;
    if lines.push_str(head).is_err() || push_labels(lines, &events, state.bytes).is_err() {
        return Err(Message);
    }
    Ok(())
}

/// Appends a line for each label among events: what `Data` is over, and a space for each line ending.
fn push_labels(lines: &mut String, events: &[Event], bytes: &[u8]) -> Result<(), AllocError> {
    let mut is_label = false;
    let mut start = 0;
    for event in events {
        let index = event.point.index;
        match (event.name, event.kind) {
            (Name::LabelText, Kind::Enter) => is_label = true,
            (Name::LabelText, Kind::Exit) => {
                is_label = false;
                lines.push_str("\n")?;
            }
            (Name::Data, Kind::Enter) => start = index,
            (Name::Data, Kind::Exit) if is_label => {
                let data = bytes.get(start..index).unwrap_or(&[]);
                lines.push_str(str::from_utf8(data).unwrap_or(""))?;
            }
            (Name::LineEnding, Kind::Exit) if is_label => lines.push_str(" ")?,
            _ => {}
        }
    }
    Ok(())
}

fn main(rt: HostRuntime) -> ExitCode {
    let mut errors = Uninterrupted {
        stream: rt.stderr(),
    };
    match arguments(&rt) {
        Ok(args) => ExitCode::from(run::<Marked, _, _, _>(
            rt.alloc(),
            NAME,
            &args,
            &mut Uninterrupted { stream: rt.stdin() },
            &mut Uninterrupted {
                stream: rt.stdout(),
            },
            &mut errors,
        )),
        Err(failure) => ExitCode::from(failure.report(NAME, &mut errors)),
    }
}
