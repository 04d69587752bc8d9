// Where HTML is written. It is kept as bytes, so that pieces of a text need not be looked at.
//
// A request for memory that is refused is kept in mind, and little is written after it. So whoever writes need not ask
// after each piece, but once at the end.
//
// Most pieces are short: so 16 bytes are written at once of each, and what is too much is written over.

use crate::texts::{self, Append};
use md_events::slice::between;
use std::alloc::{AllocError, Global};
use std::simd::prelude::*;
use std::{mem, str};

/// For how many bytes more than a piece has room is made where none is left.
const STEP: usize = 1024;

/// What is written.
#[derive(Drop)]
pub(crate) struct Writer {
    alloc: Global,
    /// The bytes that are written, and after them bytes that will be written over.
    bytes: Vec<u8>,
    /// How many are written.
    len: usize,
    /// Whether a request for memory was refused.
    is_refused: bool,
}

impl Append for Writer {
    fn append(&mut self, bytes: &[u8]) -> Result<(), AllocError> {
        self.push_bytes(bytes);
        if self.is_refused {
            Err(AllocError)
        } else {
            Ok(())
        }
    }
}

impl Writer {
    /// Nothing is written.
    pub(crate) fn new(alloc: Global) -> Writer {
        Writer {
            alloc,
            bytes: Vec::new(alloc),
            len: 0,
            is_refused: false,
        }
    }

    /// The same, with room for so many bytes.
    pub(crate) fn with_room(alloc: Global, room: usize) -> Writer {
        let (bytes, is_refused) = match Vec::with_capacity(alloc, room.saturating_add(STEP)) {
            Ok(bytes) => (bytes, false),
            Err(_) => (Vec::new(alloc), true),
        };
        Writer {
            alloc,
            bytes,
            len: 0,
            is_refused,
        }
    }

    /// What is written, and whether a request for memory was refused before all of it was.
    pub(crate) fn finish(mut self) -> (Vec<u8>, bool) {
        let bytes = self.take();
        (bytes, self.is_refused)
    }

    pub(crate) fn as_str(&self) -> &str {
        str::from_utf8(self.bytes()).unwrap_or("")
    }

    pub(crate) fn bytes(&self) -> &[u8] {
        self.bytes.get(..self.len).unwrap_or(&[])
    }

    pub(crate) fn is_refused(&self) -> bool {
        self.is_refused
    }

    /// Keeps in mind that a request for memory was refused, if it was.
    pub(crate) fn refuse(&mut self, is_refused: bool) {
        self.is_refused = self.is_refused || is_refused;
    }

    pub(crate) fn clear(&mut self) {
        self.len = 0;
    }

    /// Begins to write after these bytes, and returns what is written until then.
    pub(crate) fn replace(&mut self, bytes: Vec<u8>) -> Vec<u8> {
        let len = mem::replace(&mut self.len, bytes.len());
        let mut written = mem::replace(&mut self.bytes, bytes);
        written.truncate(len);
        written
    }

    /// The same, after none.
    pub(crate) fn take(&mut self) -> Vec<u8> {
        let empty = Vec::new(self.alloc);
        self.replace(empty)
    }

    /// Makes room for so many bytes.
    fn make_room(&mut self, many: usize) {
        if !self.is_refused {
            let wanted = self.len.saturating_add(many).saturating_add(STEP);
            self.is_refused = self.bytes.resize(wanted, 0).is_err();
        }
    }

    /// Writes bytes, if there is room for them.
    #[inline(always)]
    fn push_in_room(&mut self, bytes: &[u8]) -> bool {
        let at = self.len;
        let many = bytes.len();
        let room = self.bytes.len();
        if many > room || at > room - many {
            return false;
        }
        self.bytes[at..at + many].copy_from_slice(bytes);
        self.len = at + many;
        true
    }

    /// Writes bytes where there is no room for them.
    fn push_far(&mut self, bytes: &[u8]) {
        self.make_room(bytes.len());
        let _is_written = self.push_in_room(bytes);
    }

    /// Writes the first ones of 16 bytes, if there is room for all of them.
    #[inline(always)]
    fn push_first(&mut self, lanes: u8x16, many: usize) -> bool {
        let at = self.len;
        let room = self.bytes.len();
        if room < 16 || at > room - 16 {
            return false;
        }
        lanes.copy_to_slice(&mut self.bytes[at..]);
        self.len = at.saturating_add(many);
        true
    }

    /// Writes a text as it is.
    #[inline(always)]
    pub(crate) fn push(&mut self, text: &str) {
        self.push_bytes(text.as_bytes());
    }

    pub(crate) fn push_number(&mut self, number: usize) {
        let mut digits = String::new(self.alloc);
        self.refuse(write!(digits, "{number}").is_err());
        self.push(digits.as_str());
    }

    /// Writes a part of the text as it is.
    #[inline(always)]
    pub(crate) fn push_bytes(&mut self, bytes: &[u8]) {
        if !self.push_in_room(bytes) {
            self.push_far(bytes);
        }
    }

    /// Writes the ending of a line as it is. Most are one byte.
    #[inline(always)]
    pub(crate) fn push_ending(&mut self, ending: &[u8]) {
        match ending {
            b"\n" => self.push("\n"),
            _ => self.push_bytes(ending),
        }
    }

    /// Writes a part of the text, so that a browser shows it as it is.
    pub(crate) fn push_escaped(&mut self, bytes: &[u8]) {
        if bytes.len() < 16 && texts::is_plain(bytes) {
            self.push_bytes(bytes);
        } else {
            self.push_escaped_within(bytes, 0, bytes.len());
        }
    }

    /// The same of the bytes of a text from one index to another.
    #[inline(always)]
    pub(crate) fn push_escaped_within(&mut self, text: &[u8], from: usize, to: usize) {
        let many = self.push_plain(text, from, to);
        if from.saturating_add(many) < to {
            self.push_left(text, from.saturating_add(many), to);
        }
    }

    /// Writes what is left.
    fn push_left(&mut self, text: &[u8], from: usize, to: usize) {
        let mut left = between(text, from, to);
        while left.len() >= 16 {
            let lanes = u8x16::from_slice(left);
            let many = texts::plain_len(lanes, 16);
            if !self.push_first(lanes, many) {
                self.make_room(16);
                let _is_written = self.push_first(lanes, many);
            }
            left = match left.get(many..) {
                Some([byte, rest @ ..]) if many < 16 => {
                    self.push_byte(byte);
                    rest
                }
                _ => &left[16..],
            };
        }
        while let [byte, rest @ ..] = left {
            let many = self.push_plain(text, to.saturating_sub(left.len()), to);
            if many > 0 && many <= left.len() {
                left = &left[many..];
            } else {
                self.push_byte(byte);
                left = rest;
            }
        }
    }

    /// Writes the first bytes of a part of the text that are written as they are, of 16. Says how many it writes: none
    /// where no 16 bytes are there to be looked at.
    #[inline(always)]
    fn push_plain(&mut self, text: &[u8], from: usize, to: usize) -> usize {
        let ahead = text.get(from..).unwrap_or(&[]);
        if ahead.len() < 16 {
            return 0;
        }
        let lanes = u8x16::from_slice(ahead);
        let many = texts::plain_len(lanes, to.saturating_sub(from));
        if self.push_first(lanes, many) {
            many
        } else {
            0
        }
    }

    /// Writes a byte, so that a browser shows it as it is.
    fn push_byte(&mut self, byte: &u8) {
        match texts::escaped(*byte) {
            Some(text) => self.push(text),
            None => self.push_bytes(&[*byte]),
        }
    }

    /// Writes a part of the text as it is, but for zero characters.
    pub(crate) fn push_shown(&mut self, bytes: &[u8]) {
        let pushed = texts::push_shown(self, bytes);
        self.refuse(pushed.is_err());
    }

    /// Writes bytes without the backslash before each `|`.
    pub(crate) fn push_unbarred(&mut self, bytes: &[u8]) {
        let pushed = texts::push_unbarred(self, bytes);
        self.refuse(pushed.is_err());
    }

    /// Writes what a character reference means.
    pub(crate) fn push_reference(&mut self, reference: &[u8]) {
        let pushed = texts::push_reference(self, reference);
        self.refuse(pushed.is_err());
    }

    /// Whether the last byte ends a line, or there is none.
    pub(crate) fn is_line_start(&self) -> bool {
        match self.len.checked_sub(1) {
            Some(last) => matches!(self.bytes.get(last), Some(b'\n') | Some(b'\r')),
            None => true,
        }
    }
}
