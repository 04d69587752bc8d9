// A run of the program `blocks`.
ghost use Rattle.std.specs.Prelude.{codes, map, string_bytes};
ghost use Rattle.md_program.specs.Ends.{Runs};
ghost use Rattle.md_program.specs.Printed.{PrintsOutline};
ghost use Rattle.printing.specs.Built.{Outlines, built_from};

use crate::printed::PartByPart;
use std::alloc::Global;
use std::io::{Read, Write};

/// The program's name, as its lines on the standard error say it.
pub const NAME: &str = "blocks";

/// Reads `input` whole and writes its outline to `output`; answers the status that the program ends with.
///
/// `args` leaves out the program's name. Where the status is not 0, one line on `errors` says why: an unknown argument
/// or no text (2), want of memory (3), or a read or a write that failed (4).
pub fn run<R: Read, W: Write, E: Write>(
    alloc: Global,
    args: &[String],
    input: &mut R,
    output: &mut W,
    errors: &mut E,
) -> u8
    ensures { Runs (codes "blocks") (PrintsOutline Outlines built_from) (map string_bytes args.now)
        (R.remaining input.old) (R.remaining input.new)
        (W.contents output.old) (W.contents output.new)
        (E.contents errors.old) (E.contents errors.new) result }
{
    md_program::run::run::<PartByPart, R, W, E>(alloc, NAME, args, input, output, errors)
}
