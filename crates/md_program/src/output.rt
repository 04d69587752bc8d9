// What text is put after: a string, or a page of bytes.
//
// A string calls the C library for each piece that is put after it, which takes more than a short piece. On a page
// there are places after the bytes that are written: a piece is copied to where they are.

ghost use Rattle.std.specs.Prelude.{◌≡◌, ◌≤◌, ◌+◌, ◌++◌, ℕ, IfOk, List, OnOk, [], encode_utf8, length, string_bytes};
ghost use Rattle.std.specs.Fmt.{decimal};

use std::alloc::{AllocError, Global};

/// What text is put after.
pub trait Output {
    /// The bytes that are there.
    ghost bytes: { Self → List ℕ };

    /// Puts a piece after them.
    fn put(&mut self, piece: &str) -> Result<(), AllocError>
        ensures { OnOk result (bytes self.new ≡ bytes self.old ++ piece.now) };

    /// Puts a character after them.
    fn put_char(&mut self, ch: char) -> Result<(), AllocError>
        ensures { OnOk result (bytes self.new ≡ bytes self.old ++ encode_utf8 ch) };

    /// Puts the digits of a number after them.
    fn put_number(&mut self, number: usize) -> Result<(), AllocError>
        ensures { OnOk result (bytes self.new ≡ bytes self.old ++ decimal number) };
}

impl Output for String {
    ghost bytes = { string_bytes };

    fn put(&mut self, piece: &str) -> Result<(), AllocError> {
        self.push_str(piece)
    }

    fn put_char(&mut self, ch: char) -> Result<(), AllocError> {
        self.push(ch)
    }

    fn put_number(&mut self, number: usize) -> Result<(), AllocError> {
        write!(self, "{number}")
    }
}

/// There are places for so many bytes at once. The C library fills more than twice as many by an instruction that goes
/// byte by byte.
const STEP: usize = 1 << 10;

/// A page of bytes.
#[derive(Drop)]
pub struct Page {
    alloc: Global,
    /// What is written, and then places that mean nothing yet.
    bytes: Vec<u8>,
    /// How many bytes are written.
    written: usize,
    ghost within: { written ≤ length bytes.items },
}

impl Page {
    ghost use Rattle.md_program.specs.Page.{written_on};

    /// An empty page with room for so many bytes.
    pub fn with_capacity(alloc: Global, capacity: usize) -> Result<Page, AllocError>
        ensures { IfOk result (λ page. written_on page ≡ []) }
    {
        Ok(Page {
            alloc,
            bytes: Vec::with_capacity(alloc, capacity)?,
            written: 0,
        })
    }

    /// The bytes that are written.
    pub fn finish(self) -> Vec<u8>
        ensures { result.items ≡ written_on self }
    {
        let Page {
            mut bytes,
            written,
            ..
        } = self;
        bytes.truncate(written);
        bytes
    }

    /// Writes a piece for which there is no room, and makes places for more.
    #[inline(never)]
    fn put_growing(&mut self, piece: &[u8]) -> Result<(), AllocError>
        ensures { OnOk result (written_on self.new ≡ written_on self.old ++ piece.now) }
    {
        self.bytes.truncate(self.written);
        self.bytes.extend_from_slice(piece)?;
        self.written = self.bytes.len();
        self.bytes.resize(self.written.saturating_add(STEP), 0)
    }

    /// Writes a piece where there is room.
    #[inline(always)]
    fn write(&mut self, piece: &[u8])
        requires { self.old.written + length piece.now ≤ length self.old.bytes.items }
        ensures { written_on self.new ≡ written_on self.old ++ piece.now }
    {
        self.bytes[self.written..self.written + piece.len()].copy_from_slice(piece);
        self.written += piece.len();
    }
}

impl Output for Page {
    ghost use Rattle.md_program.specs.Page.{written_on};

    ghost bytes = { written_on };

    #[inline(always)]
    fn put(&mut self, piece: &str) -> Result<(), AllocError> {
        if self.bytes.len() - self.written < piece.len() {
            return self.put_growing(piece.as_bytes());
        }
        self.write(piece.as_bytes());
        Ok(())
    }

    fn put_char(&mut self, ch: char) -> Result<(), AllocError> {
        let mut bytes = [0; 4];
        self.put(ch.encode_utf8(&mut bytes))
    }

    #[inline(never)]
    fn put_number(&mut self, number: usize) -> Result<(), AllocError> {
        let mut digits = String::new(self.alloc);
        write!(digits, "{number}")?;
        self.put(&digits)
    }
}
