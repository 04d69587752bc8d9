// The one refusal.

use std::alloc::{AllocError, AllocFailed};
use std::error::Error;
use std::fmt::{self, Display, Formatter, Write};

/// Want of memory: the only thing that a parse can refuse with. It is made without memory.
#[derive(Clone, Copy, Debug, PartialEq, Eq)]
pub struct Message;

/// So that `?` hands on what an allocation refused.
impl From<AllocError> for Message {
    fn from(_refused: AllocError) -> Message {
        Message
    }
}

/// So that `?` hands on that a value could not be stored, as `Vec::push` answers it. The value is dropped.
impl<T: Drop> From<AllocFailed<T>> for Message {
    fn from(_refused: AllocFailed<T>) -> Message {
        Message
    }
}

impl Display for Message {
    fn fmt<W: Write>(&self, f: &mut Formatter<W>) -> Result<(), fmt::Error> {
        f.write_str("out of memory")
    }
}

impl Error for Message {}
