// What the program is given by the system: its arguments and its streams.
ghost use Rattle.std.specs.Prelude.{◌≡◌, ◌≢◌, ◌⊎◌, IfErr};
ghost use Rattle.std.specs.Io.{ReadsAtMost, WritesAtMost};
ghost use Rattle.std.specs.Io.KnownBytes.{Keeps, ReadConsumes, WriteAppends};
ghost use Rattle.std.specs.IoError.{error_kind};
ghost use Rattle.md_program.specs.declared.failure.Failure.TheVariants.{OutOfMemory, UnknownArgument};

use crate::failure::Failure;
use std::env::Env;
use std::io::{ErrorKind, Read, Write};
use std::{env, io};

/// The arguments after the program's name.
///
/// Where they cannot be read, it answers want of memory for want of memory, and else that an argument is unknown.
/// `collect` would ask for less where a request is refused, so each is pushed: no refused request continues.
pub fn arguments<S: Env + AllocGlobal>(system: &S) -> Result<Vec<String>, Failure>
    ensures { IfErr result (λ failure. (failure ≡ UnknownArgument) ⊎ (failure ≡ OutOfMemory)) }
{
    match env::args(system) {
        Ok(mut args) => {
            args.next();
            let mut words = Vec::new(system.alloc());
            for word in args {
                if words.push(word).is_err() {
                    return Err(Failure::OutOfMemory);
                }
            }
            Ok(words)
        }
        Err(error) if error.kind() == ErrorKind::OutOfMemory => Err(Failure::OutOfMemory),
        Err(_) => Err(Failure::UnknownArgument),
    }
}

/// A stream whose reads and writes are tried again where a signal interrupts them.
///
/// `run` takes any `Err` as a failure, so the programs hand it their streams as these.
#[derive(Drop)]
pub struct Uninterrupted<S> {
    pub stream: S,
}

/// Why a stream is given up whose calls were all interrupted, some 2^64 of them.
fn given_up() -> io::Error
    ensures { error_kind result ≢ ErrorKind.Interrupted }
{
    io::Error::from(ErrorKind::TimedOut)
}

impl<R: Read> Read for Uninterrupted<R> {
    ghost remaining = { λ s. R.remaining s.stream };

    fn read(&mut self, buf: &mut [u8]) -> io::Result<usize>
        ensures bound { ReadsAtMost result buf.new }
        ensures bytes { ReadConsumes (R.remaining self.old.stream) (R.remaining self.new.stream) result buf.new }
        ensures retried { IfErr result (λ e. error_kind e ≢ ErrorKind.Interrupted) }
    {
        for _turn in 0..u64::MAX {
            match self.stream.read(buf) {
                Ok(count) => return Ok(count),
                Err(error) if error.kind() == ErrorKind::Interrupted => {}
                Err(error) => return Err(error),
            }
        }
        Err(given_up())
    }
}

impl<W: Write> Write for Uninterrupted<W> {
    ghost contents = { λ s. W.contents s.stream };

    fn write(&mut self, buf: &[u8]) -> io::Result<usize>
        ensures bound { WritesAtMost result buf.now }
        ensures bytes { WriteAppends (W.contents self.old.stream) (W.contents self.new.stream) result buf.now }
        ensures retried { IfErr result (λ e. error_kind e ≢ ErrorKind.Interrupted) }
    {
        for _turn in 0..u64::MAX {
            match self.stream.write(buf) {
                Ok(count) => return Ok(count),
                Err(error) if error.kind() == ErrorKind::Interrupted => {}
                Err(error) => return Err(error),
            }
        }
        Err(given_up())
    }

    fn flush(&mut self) -> io::Result<()>
        ensures bytes { Keeps (W.contents self.old.stream) (W.contents self.new.stream) }
        ensures retried { IfErr result (λ e. error_kind e ≢ ErrorKind.Interrupted) }
    {
        for _turn in 0..u64::MAX {
            match self.stream.flush() {
                Ok(()) => return Ok(()),
                Err(error) if error.kind() == ErrorKind::Interrupted => {}
                Err(error) => return Err(error),
            }
        }
        Err(given_up())
    }
}
