// Runs of the programs, over inputs and outputs that fail.

use crate::streams::{Sink, Source};
use std::alloc::{AllocError, Global};
use std::process::Abort;

/// A program.
#[derive(Clone, Copy)]
enum Program {
    Blocks,
    Events,
}

/// What a program is run on: its arguments, each after a space; its input, `step` bytes a call, which fails after
/// `reads` calls; and how its outputs take what it writes, `takes` bytes a call, of which the first fails after
/// `writes` calls.
#[derive(Clone, Copy)]
struct Given<'a> {
    words: &'a str,
    text: &'a [u8],
    step: usize,
    reads: usize,
    takes: usize,
    writes: usize,
    flushes: bool,
    /// After so many calls a write to the standard error fails.
    messages: usize,
    /// Whether the standard error can be flushed.
    flushes_messages: bool,
}

impl<'a> Given<'a> {
    fn of(text: &'a [u8]) -> Given<'a> {
        Given {
            words: "",
            text,
            step: usize::MAX,
            reads: usize::MAX,
            takes: usize::MAX,
            writes: usize::MAX,
            flushes: true,
            messages: usize::MAX,
            flushes_messages: true,
        }
    }
}

/// The status of a run, its output, and its line on the standard error.
#[derive(Clone, Copy)]
struct Ended<'a>(u8, &'a [u8], &'a [u8]);

/// Runs a program: its status, output and standard error.
fn ran(program: Program, alloc: Global, given: Given) -> Result<(u8, Sink, Sink), AllocError> {
    let mut args = Vec::new(alloc);
    for word in given.words.split(' ').skip(1) {
        args.push(String::from_str(alloc, word)?)?;
    }
    let mut input = Source {
        rest: given.text,
        step: given.step,
        calls: given.reads,
    };
    let mut output = Sink::new(given.takes, given.writes, given.flushes);
    let mut errors = Sink::new(given.takes, given.messages, given.flushes_messages);
    let status = match program {
        Program::Blocks => {
            printing::run_blocks::run(alloc, args.as_slice(), &mut input, &mut output, &mut errors)
        }
        Program::Events => {
            printing::run_events::run(alloc, args.as_slice(), &mut input, &mut output, &mut errors)
        }
    };
    Ok((status, output, errors))
}

/// The line of a run that is refused memory.
fn refusal(program: Program) -> &'static [u8] {
    match program {
        Program::Blocks => b"blocks: out of memory\n",
        Program::Events => b"events: out of memory\n",
    }
}

/// Whether a run ends so. One that is refused memory says so and writes nothing, and the next is given it.
fn ends(program: Program, alloc: Global, given: Given, want: Ended) -> bool {
    let Ok((status, output, errors)) = ran(program, alloc, given) else {
        return ran_so(program, alloc, given, want);
    };
    if status != 3 {
        return is_so(want, status, &output, &errors);
    }
    is_so(Ended(3, b"", refusal(program)), status, &output, &errors)
        && ran_so(program, alloc, given, want)
}

/// Whether a run that is given its memory ends so.
fn ran_so(program: Program, alloc: Global, given: Given, want: Ended) -> bool {
    match ran(program, alloc, given) {
        Ok((status, output, errors)) => is_so(want, status, &output, &errors),
        Err(_) => false,
    }
}

fn is_so(want: Ended, status: u8, output: &Sink, errors: &Sink) -> bool {
    let Ended(ended, held, said) = want;
    status == ended && output.bytes() == held && errors.bytes() == said
}

const TEXT: &[u8] = b"a\n\n***";

const OUTLINE: &[u8] = b"paragraph\n  | a\nbreak\n\ndefinitions 0\nfootnotes 0\n";

/// What is printed of the text `a`.
const LETTER: &[u8] = b"paragraph\n  | a\n\ndefinitions 0\nfootnotes 0\n";

/// What is printed of a text without blocks.
const NOTHING: &[u8] = b"\ndefinitions 0\nfootnotes 0\n";

const HEADING: &[u8] = b"##\n";

const EVENTS: &[u8] = b"+ HeadingAtx 1 1 0 0
  + HeadingAtxSequence 1 1 0 0
  - HeadingAtxSequence 1 3 2 0
- HeadingAtx 1 3 2 0
+ LineEnding 1 3 2 0
- LineEnding 2 1 3 0
";

/// Ends a test where a run of `blocks` does not end so.
fn check(rt: &impl Abort, alloc: Global, given: Given, want: Ended) {
    assert!(rt;
        ends(Program::Blocks, alloc, given, want),
        "{} on {:?}",
        given.words,
        given.text
    );
}

/// The same of a run of `events`.
fn check_events(rt: &impl Abort, alloc: Global, given: Given, want: Ended) {
    assert!(rt;
        ends(Program::Events, alloc, given, want),
        "{:?}",
        given.text
    );
}

#[test]
fn prints_the_outline(rt: HostRuntime) {
    let mut given = Given::of(TEXT);
    check(&rt, rt.alloc(), given, Ended(0, OUTLINE, b""));
    given.step = 1;
    given.takes = 1;
    check(&rt, rt.alloc(), given, Ended(0, OUTLINE, b""));
}

#[test]
fn prints_the_events(rt: HostRuntime) {
    check_events(&rt, rt.alloc(), Given::of(HEADING), Ended(0, EVENTS, b""));
}

const ALERT: &[u8] = b">[!Tip]";

const ALERT_OUTLINE: &[u8] = b"alert tip\n\ndefinitions 0\nfootnotes 0\n";

const ALERT_EVENTS: &[u8] = b"+ BlockQuote 1 1 0 0
  + BlockQuotePrefix 1 1 0 0
    + BlockQuoteMarker 1 1 0 0
    - BlockQuoteMarker 1 2 1 0
    + BlockQuoteMarker 1 2 1 0
    - BlockQuoteMarker 1 8 7 0
  - BlockQuotePrefix 1 8 7 0
- BlockQuote 1 8 7 0
";

/// What is printed of the same text where no alert is asked for.
const QUOTE_OUTLINE: &[u8] = b"quote\n  paragraph\n    | [!Tip]\n\ndefinitions 0\nfootnotes 0\n";

#[test]
fn alerts_are_asked_for(rt: HostRuntime) {
    let mut given = Given::of(ALERT);
    given.words = " alerts";
    check(&rt, rt.alloc(), given, Ended(0, ALERT_OUTLINE, b""));
    check_events(&rt, rt.alloc(), given, Ended(0, ALERT_EVENTS, b""));
    for words in ["", " gfm", " all"] {
        given.words = words;
        check(&rt, rt.alloc(), given, Ended(0, QUOTE_OUTLINE, b""));
    }
}

/// Tries a run of which the first read fails, one of which the second does, and so on, and one of which the last does
/// that is made of an input with so many reads. None of these prints anything; the run after these meets no failed read
/// and prints this.
fn check_reads(rt: &impl Abort, alloc: Global, given: Given, count: usize, printed: &[u8]) {
    let mut given = given;
    for reads in 0..count {
        given.reads = reads;
        check(rt, alloc, given, Ended(4, b"", b"blocks: read failed\n"));
    }
    given.reads = count;
    check(rt, alloc, given, Ended(0, printed, b""));
}

/// A paragraph of one character of two bytes.
const ACCENT: &[u8] = b"\xc3\xa9";

const ACCENT_OUTLINE: &[u8] = b"paragraph\n  | \xc3\xa9\n\ndefinitions 0\nfootnotes 0\n";

/// So many bytes the program asks for in one read.
const BUFFER: usize = 8192;

// The last read is the one that gives nothing. The second of the accent is in the middle of the character.
#[test]
fn a_failed_read_leaves_no_output(rt: HostRuntime) {
    let alloc = rt.alloc();
    let mut given = Given::of(TEXT);
    check_reads(&rt, alloc, given, 2, OUTLINE);
    given.step = 1;
    check_reads(&rt, alloc, given, TEXT.len() + 1, OUTLINE);
    given.text = ACCENT;
    check_reads(&rt, alloc, given, 3, ACCENT_OUTLINE);
    let mut given = Given::of(HEADING);
    given.reads = 1;
    check_events(&rt, alloc, given, Ended(4, b"", b"events: read failed\n"));
}

// Blank lines that fill the buffer of a read, with a character after them, of which the buffer may have half.
#[test]
fn a_failed_read_at_the_size_of_a_buffer_leaves_no_output(rt: HostRuntime) {
    let alloc = rt.alloc();
    let mut text = [b'\n'; BUFFER + 2];
    check_reads(&rt, alloc, Given::of(&text[..BUFFER - 1]), 2, NOTHING);
    check_reads(&rt, alloc, Given::of(&text[..BUFFER]), 2, NOTHING);
    check_reads(&rt, alloc, Given::of(&text[..BUFFER + 1]), 3, NOTHING);
    text[BUFFER - 1] = 0xc3;
    text[BUFFER] = 0xa9;
    check_reads(
        &rt,
        alloc,
        Given::of(&text[..BUFFER + 1]),
        3,
        ACCENT_OUTLINE,
    );
}

#[test]
fn an_input_that_is_not_text_leaves_no_output(rt: HostRuntime) {
    let given = Given::of(b"\xff");
    check(
        &rt,
        rt.alloc(),
        given,
        Ended(2, b"", b"blocks: not UTF-8\n"),
    );
    check_events(
        &rt,
        rt.alloc(),
        given,
        Ended(2, b"", b"events: not UTF-8\n"),
    );
}

// Each write takes a byte, and a run of which no write fails has as many writes as bytes.
#[test]
fn a_failed_write_leaves_a_beginning(rt: HostRuntime) {
    let alloc = rt.alloc();
    let mut given = Given::of(b"a");
    given.takes = 1;
    assert!(rt; LETTER.len() == 43 && LETTER.starts_with(b"paragraph\n  | a\n"));
    for writes in 0..LETTER.len() {
        given.writes = writes;
        let want = Ended(4, &LETTER[..writes], b"blocks: write failed\n");
        check(&rt, alloc, given, want);
    }
    given.writes = LETTER.len();
    check(&rt, alloc, given, Ended(0, LETTER, b""));
    given.text = HEADING;
    given.writes = 21;
    let want = Ended(4, b"+ HeadingAtx 1 1 0 0\n", b"events: write failed\n");
    check_events(&rt, alloc, given, want);
}

// Neither does the message find a place.
#[test]
fn a_write_that_takes_nothing_has_failed(rt: HostRuntime) {
    let mut given = Given::of(b"a");
    given.takes = 0;
    check(&rt, rt.alloc(), given, Ended(4, b"", b""));
}

#[test]
fn a_failed_flush_is_a_failed_write(rt: HostRuntime) {
    let mut given = Given::of(TEXT);
    given.flushes = false;
    check(
        &rt,
        rt.alloc(),
        given,
        Ended(4, OUTLINE, b"blocks: write failed\n"),
    );
}

// Of the message a beginning may be written. The name is flushed before the rest.
#[test]
fn a_failed_write_of_the_message_changes_nothing(rt: HostRuntime) {
    let mut given = Given::of(b"\xff");
    given.takes = 1;
    given.flushes_messages = false;
    check(&rt, rt.alloc(), given, Ended(2, b"", b"blocks"));
    given.messages = 0;
    check(&rt, rt.alloc(), given, Ended(2, b"", b""));
    given.messages = 2;
    check(&rt, rt.alloc(), given, Ended(2, b"", b"bl"));
    given.reads = 0;
    check(&rt, rt.alloc(), given, Ended(4, b"", b"bl"));
}

#[test]
fn arguments_come_first(rt: HostRuntime) {
    let mut given = Given::of(TEXT);
    given.reads = 0;
    for words in [" commonmark", " gfm", " all", " alerts"] {
        given.words = words;
        check(
            &rt,
            rt.alloc(),
            given,
            Ended(4, b"", b"blocks: read failed\n"),
        );
    }
    for words in [" foo", " GFM", " ", " alert", " gfm gfm", " foo gfm"] {
        given.words = words;
        check(
            &rt,
            rt.alloc(),
            given,
            Ended(2, b"", b"blocks: unknown argument\n"),
        );
    }
}
