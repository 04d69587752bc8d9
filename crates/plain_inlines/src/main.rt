// Prints the inline content of the text on standard input, as the inline definition gives it: a forest, as an outline.
//
// The text extends to the first empty line; the line ending before that is not of it, nor is one at the end of the
// input. It is the text of a part as the definition has it: without prefixes of containers and without indents. Lines
// after the empty one say, by their first byte, what the text is in:
//
// - `=` and a label: a link reference definition has this label;
// - `^` and a label: a footnote definition has it;
// - `-`: the text is that of the first paragraph of a list item;
// - `~`: one tilde is no mark of strikethrough, and `$`: one dollar is none of math.
//
// Other lines say nothing. The argument names a set as that of `blocks` does: `commonmark`, which is also meant without
// one, `gfm`, and `all` or `alerts`, which are one set here.
//
// What is printed is a line for each part and each piece of the forest, after two spaces for each part around it: its
// name, and of a piece ` | ` and the bytes that it is over. Where these have a line ending, what follows is on a line
// of its own, after `| `.
#![tactic(auto)]

mod given;
mod printed;

ghost use Rattle.std.specs.Prelude.{◌≡◌, IfOk, codes, map, string_bytes};
ghost use Rattle.md_program.specs.Ends.{Runs};
ghost use Rattle.md_scan.specs.Definitions.{texts};
ghost use Rattle.md_inlines.specs.Content as inlines;
ghost use Rattle.plain_inlines.specs.Given.{with_labels};
ghost use Rattle.plain_inlines.specs.PrintedForest.{PrintsInlines, content_of, shown};
ghost use Rattle.reference_inlines.specs.Nodes.{nodes};

use crate::given::{further_in, inline_options, is_marked, labels_of, text_in};
use crate::printed::print;
use md_engine::configuration::ParseOptions;
use md_engine::message::Message;
use md_inlines::InlineOptions;
use md_program::printing::{Printing, bytes_of};
use md_program::system::{Uninterrupted, arguments};
use reference_inlines::content::content;
use reference_inlines::labels::{Defined, lines};
use reference_inlines::node::Node;
use std::alloc::Global;
use std::io::{Read, Write};
use std::process::ExitCode;

/// The program's name, as its lines on the standard error say it.
const NAME: &str = "plain_inlines";

/// Prints the inline content of a text.
pub struct Inlines;

/// The inline content of a text, in a document with these labels.
///
/// An `Err` says that memory ran out.
fn nodes_of(
    alloc: Global,
    options: &InlineOptions,
    definitions: &[String],
    footnotes: &[String],
    first: bool,
    text: &[u8],
) -> Result<Vec<Node>, Message>
    ensures { IfOk result (λ made. made.items ≡ nodes (inlines.content options.now
        (with_labels (map string_bytes definitions.now) (map string_bytes footnotes.now)) first text.now)) }
{
    let labels = Defined {
        definitions,
        footnotes,
    };
    content(alloc, options, labels, first, text)
}

/// What is printed of a text that is in what these lines say.
///
/// An `Err` says that memory ran out.
fn print_content(
    alloc: Global,
    options: &InlineOptions,
    more: &[&[u8]],
    text: &[u8],
) -> Result<String, Message>
    ensures { IfOk result (λ made. string_bytes made ≡
        shown text.now (content_of options.now (texts more.now) text.now)) }
{
    let definitions = labels_of(alloc, b'=', more)?;
    let footnotes = labels_of(alloc, b'^', more)?;
    let first = is_marked(b'-', more);
    let nodes = nodes_of(alloc, options, &definitions, &footnotes, first, text)?;
    print(alloc, text, &nodes)
}

impl Printing for Inlines {
    ghost prints = { PrintsInlines };

    fn output(alloc: Global, text: &str, options: ParseOptions) -> Result<Vec<u8>, Message> {
        let input = text.as_bytes();
        let more = lines(alloc, further_in(input))?;
        let options = inline_options(options, &more);
        let printed = print_content(alloc, &options, &more, text_in(input))?;
        bytes_of(alloc, &printed)
    }
}

/// Runs the program: `md_program::run::run` with the inline definition.
pub fn run<R: Read, W: Write, E: Write>(
    alloc: Global,
    args: &[String],
    input: &mut R,
    output: &mut W,
    errors: &mut E,
) -> u8
    ensures { Runs (codes "plain_inlines") PrintsInlines
        (map string_bytes args.now)
        (R.remaining input.old) (R.remaining input.new)
        (W.contents output.old) (W.contents output.new)
        (E.contents errors.old) (E.contents errors.new) result }
{
    md_program::run::run::<Inlines, R, W, E>(alloc, NAME, args, input, output, errors)
}

fn main(rt: HostRuntime) -> ExitCode {
    let mut errors = Uninterrupted {
        stream: rt.stderr(),
    };
    ExitCode::from(match arguments(&rt) {
        Ok(args) => run(
            rt.alloc(),
            args.as_slice(),
            &mut Uninterrupted { stream: rt.stdin() },
            &mut Uninterrupted {
                stream: rt.stdout(),
            },
            &mut errors,
        ),
        Err(failure) => failure.report(NAME, &mut errors),
    })
}
