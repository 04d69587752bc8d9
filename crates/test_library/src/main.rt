// The program `test_library`: it makes one call of the library between two requests for memory of known sizes, so that
// a test can refuse the requests of that call alone (`scripts/refuse_memory.sh`). Its argument names the call:
//
//     parse, parse_with, inlines, parts, blocks, outline, outline_part
//                                   it prints the outline of the text; `inlines` is `parse_with` with that layer, and
//                                   `blocks` is `Parts` whose text parts are not read
//     into                          the same of events that are handed over, with that layer
//     html, html_of                 it prints the HTML of the text; `html_of` writes it as events are handed over
//     quote, item, footnote         it prints the text in that container
//     run                           it prints what `printing::run_blocks::run` prints of its standard input
//     states                        the states that take no memory, of those that can be called on their own;
//                                   it prints what they answer
//
// A call that is refused memory has status 3 and prints nothing.
//
// Tests of the library and of the programs that no row can have: runs over inputs and outputs that fail or that signals
// interrupt, arguments of a system, texts and outlines by parts, the plain program on many containers, what the layer of
// references marks, what a layer learns of a text part, which delimiter runs are matched, what is found in the text of
// a part, what the inline layer reads of documents, and the HTML of texts. A crate with tests is proved twice, so they
// are here and not beside what they test.
#![tactic(auto)]

ghost use Rattle.std.specs.Prelude.{◌≡◌, ◌++◌};
ghost use Rattle.markdown_blocks.specs.Parsed.{IsSmall, IsWithoutMdx};

#[cfg(test)]
mod attention;
#[cfg(test)]
mod content;
#[cfg(test)]
mod deep;
#[cfg(test)]
mod layer;
#[cfg(test)]
mod marks;
#[cfg(test)]
mod page_rows;
#[cfg(test)]
mod pages;
#[cfg(test)]
mod parts;
#[cfg(test)]
mod places;
#[cfg(test)]
mod read_parts;
#[cfg(test)]
mod runs;
#[cfg(test)]
mod signals;
mod states;
#[cfg(test)]
mod streams;
#[cfg(test)]
mod system;

use examples_layer::References;
use markdown_blocks::configuration::ParseOptions;
use markdown_blocks::event::Event;
use markdown_blocks::message::Message;
use markdown_blocks::outline::{outline, outline_part};
use markdown_blocks::parser::{Ahead, ParseState, Parts, Sink, parse, parse_into, parse_with};
use markdown_blocks::seam::Inline;
use markdown_blocks::wrap::{footnote, item, quote};
use markdown_html::{HtmlOptions, html, html_with_least};
use markdown_inlines::Inlines;
use md_program::body::{Body, MOST, Outlined};
use md_program::print::print;
use md_program::system::arguments;
use printing::blocks::Blocks;
use printing::run_blocks::run;
use states::states;
use std::alloc::{AllocError, Global};
use std::io::{Read, Write};
use std::process::ExitCode;

/// A text with a definition in a quote, a table in an item, headings of both kinds, a footnote definition, and a
/// reference over two lines.
const TEXT: &str =
    "> [a\n> b]: c\n\n- x | y\n  --|--\n  1 | 2\n\n# h\n\ni\n=\n\n[^f]: g\n\n[A\nB] j";

/// A text with each inline construct of GitHub, in an item, a cell and a title.
const MARKED: &str =
    "- [x] *a **b*** ~~c~~ `d` <ab:c> <a@b.c> <b c> \\* &amp; www.a.co a@b.co  \n  [e *f*](<g> 'h\\*') ![i](j)\\\n  \
    [k][l] [^m] [n\n\no|\\|p\n-|-\n\n[L]: q 'r&lt;'\n\n[^m]: s";

/// A text of several parts: its byte order mark, two that end after a paragraph, and a last one.
const PARTED: &str = "\u{feff}[k]: l\n\nm\n\n> n\n\no\n\n[^f]: g\n\np";

/// A text of several parts, in which references are before their definitions, and lists are loose and tight.
const LINKED: &str =
    "\u{feff}[a] ![b *c*][d]\n\n> - e\n>\n>   [f](g \"h\")\n\n# i\n\n- j\n- k\n\nl\n\n[A]: m 'n&amp;'\n\n[d]: <o>";

/// The size of the request before a call.
pub const BEFORE: usize = 42_421;

/// The size of the request after it.
pub const AFTER: usize = 42_423;

/// Asks for so many bytes. It is not inlined, so that no compiler leaves it out.
#[inline(never)]
pub fn mark(alloc: Global, size: usize) -> Result<Vec<u8>, AllocError> {
    Vec::with_capacity(alloc, size)
}

/// What is printed of a parse.
fn printed<'a>(alloc: Global, events: &[Event], state: ParseState<'a>) -> Result<String, Message> {
    let lines = outline(alloc, events, &state)?;
    let outlined = Outlined {
        lines,
        definitions: state.definitions,
        footnotes: state.gfm_footnote_definitions,
    };
    print(alloc, &outlined)
}

/// Parses the text and prints its outline; only the parse is between the marks.
fn parsed(alloc: Global, text: &str, options: &ParseOptions) -> Result<String, Message>
    requires size { IsSmall text.now }
    requires built { IsWithoutMdx options.now }
{
    let _before = mark(alloc, BEFORE)?;
    let parsed = parse(alloc, text, options);
    let _after = mark(alloc, AFTER)?;
    let (events, state) = parsed?;
    printed(alloc, &events, state)
}

/// The same with an inline layer.
fn parsed_with(
    alloc: Global,
    layer: &impl Inline,
    text: &str,
    options: &ParseOptions,
) -> Result<String, Message>
    requires size { IsSmall text.now }
    requires built { IsWithoutMdx options.now }
{
    let _before = mark(alloc, BEFORE)?;
    let parsed = parse_with(alloc, layer, text, options);
    let _after = mark(alloc, AFTER)?;
    let (events, state) = parsed?;
    printed(alloc, &events, state)
}

/// More parts than the text has.
const MOST_PARTS: usize = 100;

/// The events and the labels of the parts of a text, each of which ends as soon as it may, one after the other. Their
/// text parts are read if that is wanted.
fn joined<'a>(
    alloc: Global,
    text: &'a str,
    options: &'a ParseOptions,
    wants_lines: bool,
) -> Result<(Vec<Event>, ParseState<'a>), Message>
    requires size { IsSmall text.now }
    requires built { IsWithoutMdx options.now }
{
    let mut events = Vec::new(alloc);
    let mut definitions = Vec::new(alloc);
    let mut footnotes = Vec::new(alloc);
    let mut parts = Parts::with_least(alloc, text, options, 1);
    for _part in 0..MOST_PARTS {
        let next = if wants_lines {
            parts.next()?
        } else {
            parts.next_blocks()?
        };
        let Some(mut part) = next else {
            break;
        };
        if events.append(&mut part.events).is_err()
            || definitions.append(&mut part.definitions).is_err()
            || footnotes
                .append(&mut part.gfm_footnote_definitions)
                .is_err()
        {
            return Err(Message);
        }
        parts.reuse(part);
    }
    let state = ParseState {
        options,
        bytes: text.as_bytes(),
        definitions,
        gfm_footnote_definitions: footnotes,
    };
    Ok((events, state))
}

/// The same part by part.
fn parsed_by_parts(
    alloc: Global,
    text: &str,
    options: &ParseOptions,
    wants_lines: bool,
) -> Result<String, Message>
    requires size { IsSmall text.now }
    requires built { IsWithoutMdx options.now }
{
    let _before = mark(alloc, BEFORE)?;
    let parsed = joined(alloc, text, options, wants_lines);
    let _after = mark(alloc, AFTER)?;
    let (events, state) = parsed?;
    printed(alloc, &events, state)
}

/// All events of a text that are handed over.
#[derive(Drop)]
struct Taken {
    events: Vec<Event>,
}

impl Sink for Taken {
    ghost takes = { λ old events new. new.events.items ≡ old.events.items ++ events };

    fn wants_definitions(&self) -> bool {
        true
    }

    fn take(
        &mut self,
        _ahead: &Ahead,
        list: &[Event],
        from: usize,
        to: usize,
    ) -> Result<(), Message> {
        if self.events.extend_from_slice(&list[from..to]).is_err() {
            return Err(Message);
        }
        Ok(())
    }
}

/// The same of a text whose events are handed over, and whose blocks are read in parts that end as soon as they may.
fn parsed_into(alloc: Global, text: &str, options: &ParseOptions) -> Result<String, Message>
    requires size { IsSmall text.now }
    requires built { IsWithoutMdx options.now }
{
    let mut taken = Taken {
        events: Vec::new(alloc),
    };
    let _before = mark(alloc, BEFORE)?;
    let parsed = parse_into(alloc, &Inlines::GFM, text, options, 1, &mut taken);
    let _after = mark(alloc, AFTER)?;
    printed(alloc, &taken.events, parsed?)
}

/// The same, with only the outline between the marks.
fn outlined(alloc: Global, text: &str, options: &ParseOptions) -> Result<String, Message>
    requires size { IsSmall text.now }
    requires built { IsWithoutMdx options.now }
{
    let (events, state) = parse(alloc, text, options)?;
    let _before = mark(alloc, BEFORE)?;
    let lines = outline(alloc, &events, &state);
    let _after = mark(alloc, AFTER)?;
    let lines = lines?;
    let outlined = Outlined {
        lines,
        definitions: state.definitions,
        footnotes: state.gfm_footnote_definitions,
    };
    print(alloc, &outlined)
}

/// The same, with only the first part of the outline between the marks, which is all of it.
fn outlined_part(alloc: Global, text: &str, options: &ParseOptions) -> Result<String, Message>
    requires size { IsSmall text.now }
    requires built { IsWithoutMdx options.now }
{
    let (events, state) = parse(alloc, text, options)?;
    let _before = mark(alloc, BEFORE)?;
    let part = outline_part(alloc, &events, &state);
    let _after = mark(alloc, AFTER)?;
    let part = part?;
    let outlined = Outlined {
        lines: part.lines,
        definitions: state.definitions,
        footnotes: state.gfm_footnote_definitions,
    };
    print(alloc, &outlined)
}

/// The HTML of the text; only what makes it of its events is between the marks.
fn written(alloc: Global, text: &str, options: &ParseOptions) -> Result<String, Message>
    requires size { IsSmall text.now }
    requires built { IsWithoutMdx options.now }
{
    let (events, state) = parse_with(alloc, &Inlines::GFM, text, options)?;
    let _before = mark(alloc, BEFORE)?;
    let page = html(alloc, &events, &state, &HtmlOptions::SAFE);
    let _after = mark(alloc, AFTER)?;
    page
}

/// The HTML of a text that is written as its events are handed over, and whose blocks are read in parts that end as soon
/// as they may.
fn written_by_parts(alloc: Global, text: &str, options: &ParseOptions) -> Result<String, Message>
    requires size { IsSmall text.now }
    requires built { IsWithoutMdx options.now }
{
    let safe = &HtmlOptions::SAFE;
    let _before = mark(alloc, BEFORE)?;
    let page = html_with_least(alloc, &Inlines::GFM, text, options, safe, 1);
    let _after = mark(alloc, AFTER)?;
    Ok(String::from_utf8(page?).unwrap_or(String::new(alloc)))
}

/// The text in a quote.
fn in_quote(alloc: Global, text: &str, options: &ParseOptions) -> Result<String, Message>
    requires { IsSmall text.now }
{
    let _before = mark(alloc, BEFORE)?;
    let wrapped = quote(alloc, text, options);
    let _after = mark(alloc, AFTER)?;
    wrapped
}

/// The text in an item.
fn in_item(alloc: Global, text: &str, options: &ParseOptions) -> Result<String, Message>
    requires { IsSmall text.now }
{
    let _before = mark(alloc, BEFORE)?;
    let wrapped = item(alloc, text, options);
    let _after = mark(alloc, AFTER)?;
    wrapped
}

/// The text in a footnote definition.
fn in_footnote(alloc: Global, text: &str, options: &ParseOptions) -> Result<String, Message>
    requires { IsSmall text.now }
{
    let _before = mark(alloc, BEFORE)?;
    let wrapped = footnote(alloc, text, options);
    let _after = mark(alloc, AFTER)?;
    wrapped
}

/// What is printed of a call, or nothing of a word that is none.
fn answer(alloc: Global, word: &str) -> Result<String, Message> {
    let text = match word {
        "parts" | "blocks" => PARTED,
        "into" | "html_of" => LINKED,
        "inlines" | "html" => MARKED,
        _ => TEXT,
    };
    if text.len() > MOST {
        return Err(Message);
    }
    let options = Blocks::built(ParseOptions::GFM);
    match word {
        "parse" => parsed(alloc, text, &options),
        "parse_with" => parsed_with(alloc, &References, text, &options),
        "inlines" => parsed_with(alloc, &Inlines::GFM, text, &options),
        "parts" => parsed_by_parts(alloc, text, &options, true),
        "blocks" => parsed_by_parts(alloc, text, &options, false),
        "into" => parsed_into(alloc, text, &options),
        "html" => written(alloc, text, &options),
        "html_of" => written_by_parts(alloc, text, &options),
        "outline" => outlined(alloc, text, &options),
        "outline_part" => outlined_part(alloc, text, &options),
        "quote" => in_quote(alloc, text, &options),
        "item" => in_item(alloc, text, &options),
        "footnote" => in_footnote(alloc, text, &options),
        "states" => states(alloc, &options),
        _ => Ok(String::new(alloc)),
    }
}

/// The status of a run of `blocks` with the set `gfm`.
fn ran<R: Read, W: Write, E: Write>(
    alloc: Global,
    input: &mut R,
    output: &mut W,
    errors: &mut E,
) -> Result<u8, AllocError> {
    let mut args = Vec::new(alloc);
    args.push(String::from_str(alloc, "gfm")?)?;
    let _before = mark(alloc, BEFORE)?;
    let status = run(alloc, args.as_slice(), input, output, errors);
    let _after = mark(alloc, AFTER)?;
    Ok(status)
}

/// The status of want of memory.
const REFUSED: u8 = 3;

fn main(rt: HostRuntime) -> ExitCode {
    let Ok(args) = arguments(&rt) else {
        return ExitCode::from(REFUSED);
    };
    let word = args.first().map_or("parse", |word| word.as_str());
    if word == "run" {
        let ran = ran(
            rt.alloc(),
            &mut rt.stdin(),
            &mut rt.stdout(),
            &mut rt.stderr(),
        );
        return ExitCode::from(ran.unwrap_or(REFUSED));
    }
    match answer(rt.alloc(), word) {
        Ok(text) if rt.print(&text).is_ok() => ExitCode::SUCCESS,
        _ => ExitCode::from(REFUSED),
    }
}
