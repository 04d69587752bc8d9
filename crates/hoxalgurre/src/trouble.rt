// What may go wrong, and the status that the program ends with.

use std::alloc::AllocError;
use std::io::{Error, ErrorKind};

/// Why there is no report, or none that is whole.
#[derive(Clone, Copy, Debug, PartialEq, Eq)]
pub(crate) enum Trouble {
    /// The name of a file, or another argument, is not UTF-8.
    BadArguments,
    /// The text is not UTF-8.
    NotUtf8,
    /// The text begins with a byte order mark of UTF-16.
    Utf16,
    /// The text has more than `MAX_LEN` bytes.
    TooLong,
    /// Want of memory.
    OutOfMemory,
    /// There is no such file.
    NotFound,
    /// The file is a directory.
    IsDirectory,
    /// A read failed.
    ReadFailed,
    /// A write failed.
    WriteFailed,
    /// Nobody reads what is written.
    ClosedPipe,
}

impl Trouble {
    /// Why the arguments cannot be read.
    pub(crate) fn of_arguments(error: &Error) -> Trouble {
        match error.kind() {
            ErrorKind::OutOfMemory => Trouble::OutOfMemory,
            _ => Trouble::BadArguments,
        }
    }

    /// Why a file cannot be read.
    pub(crate) fn of_read(error: &Error) -> Trouble {
        match error.kind() {
            ErrorKind::OutOfMemory => Trouble::OutOfMemory,
            ErrorKind::NotFound => Trouble::NotFound,
            ErrorKind::IsADirectory => Trouble::IsDirectory,
            _ => Trouble::ReadFailed,
        }
    }

    /// What the line on the standard error says.
    pub(crate) fn reason(self) -> &'static str {
        match self {
            Trouble::BadArguments => "a file name or another argument is not UTF-8",
            Trouble::NotUtf8 => "not UTF-8",
            Trouble::Utf16 => "UTF-16, not UTF-8",
            Trouble::TooLong => "too long",
            Trouble::OutOfMemory => "out of memory",
            Trouble::NotFound => "no such file",
            Trouble::IsDirectory => "is a directory",
            Trouble::ReadFailed => "read failed",
            Trouble::WriteFailed => "write failed",
            Trouble::ClosedPipe => "closed pipe",
        }
    }

    /// The status. That of a closed pipe says that nothing is wrong.
    pub(crate) fn status(self) -> u8 {
        match self {
            Trouble::ClosedPipe => 0,
            Trouble::BadArguments | Trouble::NotUtf8 | Trouble::Utf16 | Trouble::TooLong => 2,
            Trouble::OutOfMemory => 3,
            Trouble::NotFound | Trouble::IsDirectory | Trouble::ReadFailed | Trouble::WriteFailed =>
                4,
        }
    }
}

impl From<AllocError> for Trouble {
    fn from(_refused: AllocError) -> Trouble {
        Trouble::OutOfMemory
    }
}

/// Of a write: `of_read` is for reads.
impl From<Error> for Trouble {
    fn from(error: Error) -> Trouble {
        match error.kind() {
            ErrorKind::OutOfMemory => Trouble::OutOfMemory,
            ErrorKind::BrokenPipe => Trouble::ClosedPipe,
            _ => Trouble::WriteFailed,
        }
    }
}
