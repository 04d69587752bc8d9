// The structs that C sees, as `include/hoxalgurre.h` declares them, and the refusals that a call answers by a status.

use markdown_blocks::message::Message;
use std::ptr;

/// The begin or the end of a part.
#[repr(C)]
#[derive(Clone, Copy)]
pub struct HoxalgurreEvent {
    /// The number of its name: the place among the variants of `Name`, from 0.
    pub name: u16,
    /// 0 where the part begins, 1 where it ends.
    pub is_exit: u8,
    /// From 1.
    pub line: usize,
    /// From 1, with tabs that reach to the next multiple of 4.
    pub column: usize,
    /// The byte, from 0.
    pub index: usize,
    /// The columns of the tab at `index` before the point; 0 where no tab is cut.
    pub vs: usize,
}

/// Bytes of the list of bytes of a document.
#[repr(C)]
#[derive(Clone, Copy)]
pub struct HoxalgurreSpan {
    pub at: usize,
    pub len: usize,
}

/// A line of the outline.
#[repr(C)]
#[derive(Clone, Copy)]
pub struct HoxalgurreLine {
    /// The number of its word: the place among the variants of `Word`, from 0.
    pub word: u16,
    /// The byte of the fences or markers, or 0.
    pub marker: u8,
    /// 1 where there is a closing fence, or 0.
    pub is_closed: u8,
    /// The depth of a heading, the columns of a table, the kind of an alert, or 0.
    pub value: usize,
    /// How many blocks are around it.
    pub depth: usize,
    /// The columns of a cut tab before the text.
    pub spaces: usize,
    pub text: HoxalgurreSpan,
}

/// What was wanted of a text. Each list is a block of the heap that C frees, or null where it is empty.
#[repr(C)]
#[derive(Drop)]
pub struct HoxalgurreDocument {
    pub events: *mut HoxalgurreEvent,
    pub event_count: usize,
    pub definitions: *mut HoxalgurreSpan,
    pub definition_count: usize,
    pub footnotes: *mut HoxalgurreSpan,
    pub footnote_count: usize,
    pub lines: *mut HoxalgurreLine,
    pub line_count: usize,
    pub bytes: *mut u8,
    pub byte_count: usize,
    pub html: *mut u8,
    pub html_len: usize,
    /// How many bytes of a text are UTF-8 that is not; else 0.
    pub valid_len: usize,
}

impl HoxalgurreDocument {
    /// A document that has nothing, of a text of which so many bytes are UTF-8.
    pub(crate) fn empty(valid_len: usize) -> HoxalgurreDocument {
        HoxalgurreDocument {
            events: ptr::null_mut(),
            event_count: 0,
            definitions: ptr::null_mut(),
            definition_count: 0,
            footnotes: ptr::null_mut(),
            footnote_count: 0,
            lines: ptr::null_mut(),
            line_count: 0,
            bytes: ptr::null_mut(),
            byte_count: 0,
            html: ptr::null_mut(),
            html_len: 0,
            valid_len,
        }
    }
}

/// How much of a text was read in parts.
#[repr(C)]
#[derive(Clone, Copy)]
pub struct HoxalgurrePlace {
    /// The bytes.
    pub index: usize,
    /// The line endings.
    pub lines: usize,
}

/// Why a call does not do what it is asked for.
#[derive(Clone, Copy, Debug, PartialEq, Eq)]
pub(crate) enum Refusal {
    /// So many bytes are UTF-8, and the next is not.
    NotUtf8(usize),
    TooLong,
    NoMemory,
    UnknownFlag,
}

impl Refusal {
    /// The number that C sees.
    pub(crate) fn status(self) -> u32 {
        match self {
            Refusal::NotUtf8(_) => 1,
            Refusal::TooLong => 2,
            Refusal::NoMemory => 3,
            Refusal::UnknownFlag => 4,
        }
    }

    /// The same where so many bytes come before.
    pub(crate) fn after(self, before: usize) -> Refusal {
        match self {
            Refusal::NotUtf8(len) => Refusal::NotUtf8(before.saturating_add(len)),
            other => other,
        }
    }

    /// How many bytes are UTF-8 of a text that is not; else 0.
    pub(crate) fn valid_len(self) -> usize {
        match self {
            Refusal::NotUtf8(len) => len,
            _ => 0,
        }
    }
}

impl From<Message> for Refusal {
    fn from(_message: Message) -> Refusal {
        Refusal::NoMemory
    }
}
