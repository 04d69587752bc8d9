// A run of a program: its arguments, its input and its output.
ghost use Rattle.std.specs.Prelude.{None, Some, MatchResult, map, string_bytes};
ghost use Rattle.md_program.specs.Ends.{Prints, Ran, Runs, Shows, Stops};
ghost use Rattle.md_program.specs.Sets.{set_asked_for};

use crate::failure::Failure;
use crate::printing::Printing;
use crate::set::{asked_for, options};
use crate::streams::{read_whole, write_whole};
use std::alloc::Global;
use std::io::{Read, Write};

/// Reads `input` whole and writes to `output` what is printed of it; answers the status that the program ends with.
///
/// `name` is the program's name, and `args` leaves it out. Where the status is not 0, one line on `errors` says why.
/// The whole output is made before its first byte is written, so only after a failed write a beginning of it may be in
/// `output`. Any `Err` of a read is a failed read. Any `Err` of a write or a flush is a failed write, and so is a write
/// that takes nothing. A failed write to `errors` changes nothing.
pub fn run<P: Printing, R: Read, W: Write, E: Write>(
    alloc: Global,
    name: &str,
    args: &[String],
    input: &mut R,
    output: &mut W,
    errors: &mut E,
) -> u8
    ensures { Runs name.now P.prints (map string_bytes args.now)
        (R.remaining input.old) (R.remaining input.new)
        (W.contents output.old) (W.contents output.new)
        (E.contents errors.old) (E.contents errors.new) result }
{
    match attempt::<P, R, W>(alloc, args, input, output) {
        Ok(()) => 0,
        Err(failure) => failure.report(name, errors),
    }
}

fn attempt<P: Printing, R: Read, W: Write>(
    alloc: Global,
    args: &[String],
    input: &mut R,
    output: &mut W,
) -> Result<(), Failure>
    ensures { let ran = Ran (Shows P.prints (R.remaining input.old)) (set_asked_for (map string_bytes args.now))
        (R.remaining input.old) (R.remaining input.new)
        (W.contents output.old) (W.contents output.new)
        in MatchResult result (λ _. ran None) (λ failure. ran (Some failure)) }
{
    let bytes = whole_output::<P, R>(alloc, args, input)?;
    write_whole(output, bytes.as_slice())
}

// All that is to be written.
fn whole_output<P: Printing, R: Read>(
    alloc: Global,
    args: &[String],
    input: &mut R,
) -> Result<Vec<u8>, Failure>
    ensures { MatchResult result
        (λ bytes. Prints (Shows P.prints (R.remaining input.old))
        (set_asked_for (map string_bytes args.now)) bytes.items)
        (Stops (set_asked_for (map string_bytes args.now)) (R.remaining input.old) (R.remaining input.new)) }
{
    let Some(set) = asked_for(args) else {
        return Err(Failure::UnknownArgument);
    };
    let bytes = read_whole(alloc, input)?;
    let Ok(text) = str::from_utf8(bytes.as_slice()) else {
        return Err(Failure::NotUtf8);
    };
    let output = P::output(alloc, text, options(set))?;
    Ok(output)
}
