// Inputs and outputs that fail.
ghost use Rattle.std.specs.Prelude.{◌≤◌};

use std::io;
use std::io::{ErrorKind, Read, Write};

/// An input that gives at most `step` bytes a call, and fails after `calls` calls.
#[derive(Drop)]
pub struct Source<'a> {
    pub rest: &'a [u8],
    pub step: usize,
    pub calls: usize,
}

impl Read for Source<'_> {
    fn read(&mut self, buf: &mut [u8]) -> io::Result<usize> {
        if self.calls == 0 {
            return Err(io::Error::from(ErrorKind::Other));
        }
        self.calls -= 1;
        let count = self.rest.len().min(buf.len()).min(self.step);
        let (taken, rest) = self.rest.split_at(count);
        buf[..count].copy_from_slice(taken);
        self.rest = rest;
        Ok(count)
    }
}

/// So many bytes an output takes in all.
const ROOM: usize = 256;

/// An output that takes at most `step` bytes a call, fails after `calls` calls, and may fail to flush.
#[derive(Drop)]
pub struct Sink {
    held: [u8; ROOM],
    len: usize,
    step: usize,
    calls: usize,
    flushes: bool,
    ghost within: { len ≤ 256 },
}

impl Sink {
    pub fn new(step: usize, calls: usize, flushes: bool) -> Sink {
        Sink {
            held: [0; ROOM],
            len: 0,
            step,
            calls,
            flushes,
        }
    }

    /// What it has taken.
    pub fn bytes(&self) -> &[u8] {
        &self.held[..self.len]
    }
}

impl Write for Sink {
    fn write(&mut self, buf: &[u8]) -> io::Result<usize> {
        if self.calls == 0 {
            return Err(io::Error::from(ErrorKind::Other));
        }
        self.calls -= 1;
        let count = buf.len().min(ROOM - self.len).min(self.step);
        let end = self.len + count;
        self.held[self.len..end].copy_from_slice(&buf[..count]);
        self.len = end;
        Ok(count)
    }

    fn flush(&mut self) -> io::Result<()> {
        if self.flushes {
            Ok(())
        } else {
            Err(io::Error::from(ErrorKind::Other))
        }
    }
}
