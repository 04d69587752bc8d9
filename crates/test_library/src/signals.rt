// Runs of which signals interrupt calls on the streams.

use crate::streams::{Sink, Source};
use md_program::system::Uninterrupted;
use std::alloc::Global;
use std::io;
use std::io::{ErrorKind, Read, Write};

/// How many calls are interrupted before each that is not.
const SIGNALS: usize = 3;

/// A stream whose calls signals interrupt.
#[derive(Drop)]
struct Interrupted<S> {
    stream: S,
    left: usize,
}

impl<S> Interrupted<S> {
    fn of(stream: S) -> Uninterrupted<Interrupted<S>> {
        Uninterrupted {
            stream: Interrupted {
                stream,
                left: SIGNALS,
            },
        }
    }

    /// Whether a signal interrupts this call.
    fn is_interrupted(&mut self) -> bool {
        if self.left == 0 {
            self.left = SIGNALS;
            return false;
        }
        self.left -= 1;
        true
    }
}

impl<R: Read> Read for Interrupted<R> {
    fn read(&mut self, buf: &mut [u8]) -> io::Result<usize> {
        if self.is_interrupted() {
            return Err(io::Error::from(ErrorKind::Interrupted));
        }
        self.stream.read(buf)
    }
}

impl<W: Write> Write for Interrupted<W> {
    fn write(&mut self, buf: &[u8]) -> io::Result<usize> {
        if self.is_interrupted() {
            return Err(io::Error::from(ErrorKind::Interrupted));
        }
        self.stream.write(buf)
    }

    fn flush(&mut self) -> io::Result<()> {
        if self.is_interrupted() {
            return Err(io::Error::from(ErrorKind::Interrupted));
        }
        self.stream.flush()
    }
}

/// The status of a run of `blocks`, its output and its standard error.
fn ran(alloc: Global, text: &[u8]) -> (u8, Sink, Sink) {
    let mut input = Interrupted::of(Source {
        rest: text,
        step: 1,
        calls: usize::MAX,
    });
    let mut output = Interrupted::of(Sink::new(1, usize::MAX, true));
    let mut errors = Interrupted::of(Sink::new(1, usize::MAX, true));
    let status = printing::run_blocks::run(alloc, &[], &mut input, &mut output, &mut errors);
    (status, output.stream.stream, errors.stream.stream)
}

/// Whether a run that is given its memory ends so: one that is refused memory ends with status 3.
fn ends(alloc: Global, text: &[u8], status: u8, held: &[u8], said: &[u8]) -> bool {
    let (ended, output, errors) = ran(alloc, text);
    if ended == 3 {
        let (ended, output, errors) = ran(alloc, text);
        return ended == status && output.bytes() == held && errors.bytes() == said;
    }
    ended == status && output.bytes() == held && errors.bytes() == said
}

#[test]
fn signals_change_nothing(rt: HostRuntime) {
    let outline = b"paragraph\n  | a\n\ndefinitions 0\nfootnotes 0\n";
    assert!(rt; ends(rt.alloc(), b"a", 0, outline, b""));
    assert!(rt; ends(rt.alloc(), b"\xff", 2, b"", b"blocks: not UTF-8\n"));
}
