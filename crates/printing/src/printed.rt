// What the program `blocks` prints of a text.
//
// The text is read part by part: of each part the outline is put after the output, and its labels after those of the
// parts before it. Then the list of its events is lent to the next part. So no more events and lines of the outline are
// in memory than those of one part. The output is whole before any of it is written, so that where memory runs out
// nothing is.
ghost use Rattle.std.specs.Prelude.{◌≡◌, ◌++◌, IfOk, OnOk, map, string_bytes};
ghost use Rattle.std.specs.List.{flat_map};
ghost use Rattle.md_events.specs.Events.Spelled.{spelled};
ghost use Rattle.md_meaning.specs.Label.{labels};
ghost use Rattle.md_meaning.specs.Meaning.{tree};
ghost use Rattle.md_meaning.specs.Outline.{outline};
ghost use Rattle.md_outline.specs.Outlined.{IsOutlined};
ghost use Rattle.md_program.specs.Page.{written_on};
ghost use Rattle.md_program.specs.Printed.{PrintsOutline, printed_line};
ghost use Rattle.markdown_blocks.specs.Parsed.{IsSmall, IsWithoutMdx};
ghost use Rattle.printing.specs.Built.{Outlines, built_from};

use crate::blocks::Blocks;
use markdown_blocks::outline::{outline, outline_part};
use markdown_blocks::parser::{ParseState, Part, Parts};
use md_engine::configuration::ParseOptions;
use md_engine::event::Event;
use md_engine::message::Message;
use md_program::body::Body;
use md_program::output::Page;
use md_program::print::{push_end, push_lines, with_room};
use md_program::printing::Printing;
use std::alloc::Global;

/// Prints the outline of a text, which is read part by part.
pub struct PartByPart;

impl Printing for PartByPart {
    ghost prints = { PrintsOutline Outlines built_from };

    fn output(alloc: Global, text: &str, options: ParseOptions) -> Result<Vec<u8>, Message> {
        let options = Blocks::built(options);
        let mut output = with_room(alloc, text)?;
        let found = push_parts(alloc, text, &options, &mut output)?;
        push_end(
            &mut output,
            found.definitions.as_slice(),
            found.footnotes.as_slice(),
        )?;
        Ok(output.finish())
    }
}

/// The labels of a text or of its first parts, in their normal forms and in the order of the text, repeats kept.
#[derive(Drop)]
struct Found {
    /// Those of the link reference definitions.
    definitions: Vec<String>,
    /// Those of the footnote definitions.
    footnotes: Vec<String>,
}

/// A state with no labels: of a state an outline needs the bytes of the text alone.
fn text_state<'a>(alloc: Global, text: &'a str, options: &'a ParseOptions) -> ParseState<'a>
    ensures { result.bytes.now ≡ text.now }
{
    ParseState {
        options,
        bytes: text.as_bytes(),
        definitions: Vec::new(alloc),
        gfm_footnote_definitions: Vec::new(alloc),
    }
}

/// Puts the outline of a text after the output, and returns its labels.
fn push_parts(
    alloc: Global,
    text: &str,
    options: &ParseOptions,
    output: &mut Page,
) -> Result<Found, Message>
    requires small { IsSmall text.now }
    requires built { IsWithoutMdx options.now }
    ensures lines { IfOk result
        (λ found.
        written_on output.new ≡
        written_on output.old ++ flat_map printed_line (outline 0 (tree options.now text.now))) }
    ensures definitions { IfOk result
        (λ found.
        map string_bytes found.definitions.items ≡ (labels (tree options.now text.now)).definitions) }
    ensures footnotes { IfOk result
        (λ found.
        map string_bytes found.footnotes.items ≡ (labels (tree options.now text.now)).footnotes) }
{
    let state = text_state(alloc, text, options);
    let mut found = Found {
        definitions: Vec::new(alloc),
        footnotes: Vec::new(alloc),
    };
    let mut parts = Parts::new(alloc, text, options);
    while let Some(next) = parts.next_blocks()? {
        let mut part = next;
        push_part(alloc, &mut part, &state, &mut found, output)?;
        parts.reuse(part);
    }
    Ok(found)
}

/// Puts the outline of a part after the output, and moves its labels after those that were found.
fn push_part(
    alloc: Global,
    part: &mut Part,
    state: &ParseState,
    found: &mut Found,
    output: &mut Page,
) -> Result<(), Message>
    requires { IsOutlined part.old.events.items state.now.bytes.now }
    ensures lines { OnOk result
        (written_on output.new ≡
        written_on output.old
        ++ flat_map printed_line (outline 0 (spelled part.old.events.items state.now.bytes.now))) }
    ensures definitions { OnOk result
        (found.new.definitions.items ≡ found.old.definitions.items ++ part.old.definitions.items) }
    ensures footnotes { OnOk result
        (found.new.footnotes.items ≡ found.old.footnotes.items ++ part.old.gfm_footnote_definitions.items) }
{
    push_outline(alloc, &part.events, state, output)?;
    found.definitions.append(&mut part.definitions)?;
    found.footnotes.append(&mut part.gfm_footnote_definitions)?;
    Ok(())
}

/// The outline of so many events, at most, is made at once, since its lines take little memory.
const AT_ONCE: usize = 1 << 17;

/// Puts the outline of the events after the output.
fn push_outline(
    alloc: Global,
    events: &[Event],
    state: &ParseState,
    output: &mut Page,
) -> Result<(), Message>
    requires { IsOutlined events.now state.now.bytes.now }
    ensures { OnOk result (written_on output.new ≡
        written_on output.old ++ flat_map printed_line (outline 0 (spelled events.now state.now.bytes.now))) }
{
    if events.len() <= AT_ONCE {
        let lines = outline(alloc, events, state)?;
        push_lines(output, lines.as_slice())?;
        return Ok(());
    }
    let mut rest = events;
    while !rest.is_empty() {
        let part = outline_part(alloc, rest, state)?;
        push_lines(output, part.lines.as_slice())?;
        rest = rest.split_at(part.events).1;
    }
    Ok(())
}
