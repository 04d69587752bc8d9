// Reading an input whole, and writing an output whole.
ghost use Rattle.std.specs.Prelude.{◌≡◌, MatchResult};
ghost use Rattle.std.specs.Io.KnownBytes.{Appends};
ghost use Rattle.md_program.specs.declared.failure.Failure.TheVariants.{WriteFailed};
ghost use Rattle.md_program.specs.Ends.{AppendsBeginning, FailsRead, Gives};

use crate::body::MOST;
use crate::failure::Failure;
use std::alloc::Global;
use std::io::{Read, Write};

// The bytes of one read.
const CHUNK: usize = 8192;

// Room for so many bytes is asked for at once: a list of this size grows in its place, and a smaller one is copied.
pub(crate) const ROOM: usize = 1 << 18;

// All that the input has left. It reads until a read gives nothing or more than the size was read.
pub(crate) fn read_whole<R: Read>(alloc: Global, input: &mut R) -> Result<Vec<u8>, Failure>
    ensures { MatchResult result
        (λ bytes. Gives (R.remaining input.old) bytes.items)
        (λ failure. FailsRead (R.remaining input.old) failure) }
{
    let mut bytes = Vec::new(alloc);
    bytes.reserve(ROOM)?;
    let mut chunk = [0u8; CHUNK];
    loop {
        let count = match input.read(&mut chunk) {
            Ok(count) => count,
            Err(_) => return Err(Failure::ReadFailed),
        };
        if count == 0 {
            return Ok(bytes);
        }
        bytes.extend_from_slice(&chunk[..count])?;
        if bytes.len() > MOST {
            return Err(Failure::TooLong);
        }
    }
}

// Writes all of `bytes`, and flushes. After a failure a beginning of them may have been written.
pub(crate) fn write_whole<W: Write>(output: &mut W, bytes: &[u8]) -> Result<(), Failure>
    ensures { MatchResult result
        (λ _. Appends (W.contents output.old) (W.contents output.new) bytes.now)
        (λ failure. (failure ≡ WriteFailed)
        × AppendsBeginning (W.contents output.old) (W.contents output.new) bytes.now) }
{
    let mut rest = bytes;
    while !rest.is_empty() {
        match output.write(rest) {
            Ok(0) | Err(_) => return Err(Failure::WriteFailed),
            Ok(count) => rest = &rest[count..],
        }
    }
    match output.flush() {
        Ok(()) => Ok(()),
        Err(_) => Err(Failure::WriteFailed),
    }
}
