// The examples of `docs/api.md`: a function for each public call of the library. The program prints what they answer.
#![tactic(auto)]

ghost use Rattle.markdown_blocks.specs.Parsed.{IsSmall, IsWithoutMdx};

mod usage;

use markdown_blocks::configuration::{Constructs, ParseOptions};
use markdown_blocks::event::{Event, Kind, Name};
use markdown_blocks::label::normal_form;
use markdown_blocks::message::Message;
use markdown_blocks::names::{bare_word, is_block, is_container, is_prefix, is_text_part, text_of};
use markdown_blocks::outline::{outline, outline_part};
use markdown_blocks::parser::{MAX_LEN, Parts, parse, parse_with};
use markdown_blocks::plain::Plain;
use markdown_blocks::slice::{Position, Slice};
use markdown_blocks::wrap::{item, quote};
use std::alloc::Global;
use std::process::ExitCode;
use std::str;

/// CommonMark with tables, and no other extension.
const WITH_TABLES: ParseOptions = ParseOptions {
    constructs: Constructs {
        gfm_table: true,
        ..Constructs::COMMONMARK
    },
};

/// The options that a word names, chosen at run time.
fn options_of(word: &str) -> &'static ParseOptions
    ensures { IsWithoutMdx result.now }
{
    match word {
        "gfm" => &ParseOptions::GFM,
        "tables" => &WITH_TABLES,
        _ => &ParseOptions::COMMONMARK,
    }
}

/// The names of the blocks of a text, by `{:?}`.
fn block_names(alloc: Global, text: &str, word: &str) -> Result<String, Message>
    requires { IsSmall text.now }
{
    let (events, _state) = parse(alloc, text, options_of(word))?;
    let mut names = String::new(alloc);
    for event in events.iter() {
        if event.kind == Kind::Enter && is_block(event.name) {
            write!(names, "{:?} ", event.name)?;
        }
    }
    Ok(names)
}

/// The lines of a text that a block begins on, from 1.
fn first_lines(alloc: Global, text: &str) -> Result<Vec<usize>, Message>
    requires { IsSmall text.now }
{
    let (events, _state) = parse(alloc, text, &ParseOptions::GFM)?;
    let mut lines = Vec::new(alloc);
    for event in events.iter() {
        if event.kind == Kind::Enter && is_block(event.name) {
            lines.push(event.point.line)?;
        }
    }
    Ok(lines)
}

/// How many labels a text defines, where it is short enough.
fn label_count(alloc: Global, text: &str) -> Result<Option<usize>, Message> {
    if text.len() > MAX_LEN {
        return Ok(None);
    }
    let (_events, state) = parse_with(alloc, &Plain, text, &ParseOptions::GFM)?;
    Ok(Some(state.definitions.len() + state.gfm_footnote_definitions.len()))
}

/// The labels of the definitions of a text, part by part.
fn labels_by_parts(alloc: Global, text: &str) -> Result<String, Message>
    requires { IsSmall text.now }
{
    let mut labels = String::new(alloc);
    let mut parts = Parts::new(alloc, text, &ParseOptions::GFM);
    while let Some(part) = parts.next()? {
        for label in part.definitions.iter() {
            write!(labels, "{label} ")?;
        }
        parts.reuse(part);
    }
    Ok(labels)
}

/// The lines of an outline, each as deep as its block.
fn outlined(alloc: Global, text: &str) -> Result<String, Message>
    requires { IsSmall text.now }
{
    let (events, state) = parse(alloc, text, &ParseOptions::ALL)?;
    let mut lines = String::new(alloc);
    for line in outline(alloc, &events, &state)?.iter() {
        write!(lines, "{}:{:?}:{} ", line.depth, line.word, line.text)?;
    }
    Ok(lines)
}

/// The words of an outline, part by part.
fn outline_words(alloc: Global, text: &str) -> Result<String, Message>
    requires { IsSmall text.now }
{
    let (events, state) = parse(alloc, text, &ParseOptions::ALL)?;
    let mut words = String::new(alloc);
    let mut rest = events.as_slice();
    while !rest.is_empty() {
        let part = outline_part(alloc, rest, &state)?;
        for line in part.lines.iter() {
            write!(words, "{:?} ", line.word)?;
        }
        rest = rest.split_at(part.events).1;
    }
    Ok(words)
}

/// A text in a list item in a quote; `None` where it gets too long.
fn wrapped(alloc: Global, text: &str, options: &ParseOptions) -> Result<Option<String>, Message>
    requires { IsSmall text.now }
{
    let inner = item(alloc, text, options)?;
    if inner.len() > MAX_LEN {
        return Ok(None);
    }
    Ok(Some(quote(alloc, inner.as_str(), options)?))
}

/// The first line of code of a text, with the columns of a cut tab before it as spaces.
fn first_code(alloc: Global, events: &[Event], bytes: &[u8]) -> Result<String, Message> {
    let mut line = String::new(alloc);
    let mut points = events
        .iter()
        .filter(|event| event.name == Name::CodeFlowChunk)
        .map(|event| event.point);
    if let (Some(start), Some(end)) = (points.next(), points.next()) {
        let slice = Slice::from_position(bytes, Position { start, end });
        for _ in 0..slice.before {
            line.push_str(" ")?;
        }
        line.push_str(str::from_utf8(slice.bytes).unwrap_or(""))?;
    }
    Ok(line)
}

/// The same, of a text.
fn code_of(alloc: Global, text: &str) -> Result<String, Message>
    requires { IsSmall text.now }
{
    let (events, state) = parse(alloc, text, &ParseOptions::GFM)?;
    first_code(alloc, &events, state.bytes)
}

/// Whether two labels are the same (CommonMark 6.3).
fn same_label(alloc: Global, left: &str, right: &str) -> Result<bool, Message> {
    let left = normal_form(alloc, &[left])?;
    let right = normal_form(alloc, &[right])?;
    Ok(left == right)
}

/// All examples, a line for each.
fn report(alloc: Global) -> Result<String, Message> {
    let mut lines = String::new(alloc);
    writeln!(
        lines,
        "{}",
        block_names(alloc, "a|b\n-|-\n\n[^f]: g", "tables")?
    )?;
    writeln!(
        lines,
        "{}",
        block_names(alloc, "a|b\n-|-\n\n[^f]: g", "gfm")?
    )?;
    writeln!(lines, "{:?}", first_lines(alloc, "# a\n\nb\n")?)?;
    writeln!(lines, "{:?}", label_count(alloc, "[a]: b\n\n[^c]: d")?)?;
    writeln!(
        lines,
        "{}",
        labels_by_parts(alloc, "[A]: b\n\nc\n\n[d]: e")?
    )?;
    writeln!(lines, "{}", outlined(alloc, "> # a\n")?)?;
    writeln!(lines, "{}", outline_words(alloc, "> # a\n")?)?;
    if let Some(text) = wrapped(alloc, "a\nb", &ParseOptions::GFM)? {
        writeln!(lines, "{text:?}")?;
    }
    writeln!(lines, "{:?}", code_of(alloc, ">\t\ta")?)?;
    writeln!(lines, "{}", same_label(alloc, "Straße  1", "STRASSE 1")?)?;
    let cell = Name::GfmTableCellText;
    writeln!(lines, "{} {}", is_container(cell), is_text_part(cell))?;
    writeln!(lines, "{}", is_prefix(Name::BlockQuoteMarker))?;
    let word = bare_word(Name::ThematicBreak);
    writeln!(lines, "{} {:?}", text_of(cell), word)?;
    writeln!(lines, "{}", Message)?;
    write!(
        lines,
        "{}",
        usage::plain_text(alloc, "# a #\n  b\nc\n\n* * *\n\n> d\ne\n\n- f\n\n  g")?
    )?;
    Ok(lines)
}

fn main(rt: HostRuntime) -> ExitCode {
    match report(rt.alloc()) {
        Ok(lines) if rt.print(&lines).is_ok() => ExitCode::SUCCESS,
        _ => ExitCode::FAILURE,
    }
}
