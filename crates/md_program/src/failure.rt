// Why the program ends without its output, and what it says then.
ghost use Rattle.std.specs.Prelude.{◌≡◌};
ghost use Rattle.md_program.specs.declared.failure.Failure.TheVariants.{OutOfMemory};
ghost use Rattle.md_program.specs.Ends.{AppendsBeginning, failed_status, message, reason};

use crate::streams::write_whole;
use md_engine::message::Message;
use std::alloc::AllocError;
use std::io::Write;

/// Why the program ends without its whole output.
#[derive(Clone, Copy, Debug, PartialEq, Eq)]
pub enum Failure {
    /// An argument that names no set, a second one, or arguments that cannot be read.
    UnknownArgument,
    /// The input is not UTF-8.
    NotUtf8,
    /// The input has more than `usize::MAX / 8` bytes.
    TooLong,
    /// Want of memory.
    OutOfMemory,
    /// A read of the input failed.
    ReadFailed,
    /// A write to the output failed, or took nothing, or a flush failed.
    WriteFailed,
}

impl Failure {
    /// The status that the program ends with.
    pub fn status(self) -> u8
        ensures { result ≡ failed_status self }
    {
        match self {
            Failure::UnknownArgument | Failure::NotUtf8 | Failure::TooLong => 2,
            Failure::OutOfMemory => 3,
            Failure::ReadFailed | Failure::WriteFailed => 4,
        }
    }

    /// What the line on the standard error says after the program's name, with its line feed.
    pub fn reason(self) -> &'static str
        ensures { result.now ≡ reason self }
    {
        match self {
            Failure::UnknownArgument => ": unknown argument\n",
            Failure::NotUtf8 => ": not UTF-8\n",
            Failure::TooLong => ": too long\n",
            Failure::OutOfMemory => ": out of memory\n",
            Failure::ReadFailed => ": read failed\n",
            Failure::WriteFailed => ": write failed\n",
        }
    }

    /// Writes the line of the program `name` to `errors` and answers the status. A write there may fail, which changes
    /// nothing.
    pub fn report<E: Write>(self, name: &str, errors: &mut E) -> u8
        ensures status { result ≡ failed_status self }
        ensures recorded { AppendsBeginning (E.contents errors.old) (E.contents errors.new) (message name.now self) }
    {
        let _ = self.write_message(name, errors);
        self.status()
    }

    // Writes the line. After a failure a beginning of it may have been written.
    fn write_message<E: Write>(self, name: &str, errors: &mut E) -> Result<(), Failure>
        ensures { AppendsBeginning (E.contents errors.old) (E.contents errors.new) (message name.now self) }
    {
        write_whole(errors, name.as_bytes())?;
        write_whole(errors, self.reason().as_bytes())
    }
}

impl From<AllocError> for Failure {
    ghost from_gives = { λ _ failure. failure ≡ OutOfMemory };

    fn from(_error: AllocError) -> Failure {
        Failure::OutOfMemory
    }
}

impl From<Message> for Failure {
    ghost from_gives = { λ _ failure. failure ≡ OutOfMemory };

    fn from(_message: Message) -> Failure {
        Failure::OutOfMemory
    }
}
