// A run of the program `events`.
ghost use Rattle.std.specs.Prelude.{codes, map, string_bytes};
ghost use Rattle.md_program.specs.Ends.{Runs};
ghost use Rattle.printing.specs.Events.{PrintsEvents};

use crate::events::Events;
use std::alloc::Global;
use std::io::{Read, Write};

/// The program's name, as its lines on the standard error say it.
pub const NAME: &str = "events";

/// Reads `input` whole and writes its events to `output`; answers the status that the program ends with.
///
/// `args` leaves out the program's name. Where the status is not 0, one line on `errors` says why: an unknown argument
/// or no text (2), want of memory (3), or a read or a write that failed (4).
pub fn run<R: Read, W: Write, E: Write>(
    alloc: Global,
    args: &[String],
    input: &mut R,
    output: &mut W,
    errors: &mut E,
) -> u8
    ensures { Runs (codes "events") PrintsEvents (map string_bytes args.now)
        (R.remaining input.old) (R.remaining input.new)
        (W.contents output.old) (W.contents output.new)
        (E.contents errors.old) (E.contents errors.new) result }
{
    md_program::run::run::<Events, R, W, E>(alloc, NAME, args, input, output, errors)
}
