// Prints the outline of the text on standard input, as the plain program of the line definition reads it.
#![tactic(auto)]

ghost use Rattle.std.specs.Prelude.{codes, map, string_bytes};
ghost use Rattle.md_program.specs.Ends.{Runs};
ghost use Rattle.md_program.specs.Printed.{PrintsOutline};

use md_program::body::Body;
use md_program::printing::OutlineOf;
use md_program::system::{Uninterrupted, arguments};
use reference_tree::plain::Plain;
use std::alloc::Global;
use std::io::{Read, Write};
use std::process::ExitCode;

/// The program's name, as its lines on the standard error say it.
const NAME: &str = "plain_blocks";

/// Runs the program: `md_program::run::run` with the line definition.
pub fn run<R: Read, W: Write, E: Write>(
    alloc: Global,
    args: &[String],
    input: &mut R,
    output: &mut W,
    errors: &mut E,
) -> u8
    ensures { Runs (codes "plain_blocks") (PrintsOutline ⟦<Plain as Body>⟧.outlines ⟦<Plain as Body>⟧.built)
        (map string_bytes args.now)
        (R.remaining input.old) (R.remaining input.new)
        (W.contents output.old) (W.contents output.new)
        (E.contents errors.old) (E.contents errors.new) result }
{
    md_program::run::run::<OutlineOf<Plain>, R, W, E>(alloc, NAME, args, input, output, errors)
}

fn main(rt: HostRuntime) -> ExitCode {
    let mut errors = Uninterrupted {
        stream: rt.stderr(),
    };
    ExitCode::from(match arguments(&rt) {
        Ok(args) => run(
            rt.alloc(),
            args.as_slice(),
            &mut Uninterrupted { stream: rt.stdin() },
            &mut Uninterrupted {
                stream: rt.stdout(),
            },
            &mut errors,
        ),
        Err(failure) => failure.report(NAME, &mut errors),
    })
}
