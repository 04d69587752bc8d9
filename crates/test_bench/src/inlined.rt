// The parser with the inline layer, as a body, and inline constructs in one another, many of them.
ghost use Rattle.markdown_blocks.specs.Parsed.{IsWithoutMdx};
ghost use Rattle.printing.specs.Built.{built_from};

use markdown_blocks::parser::parse_with;
use markdown_inlines::Inlines;
use md_engine::configuration::{Constructs, ParseOptions};
use md_engine::event::Event;
use md_engine::message::Message;
use md_program::body::{Body, MOST, Outlined};
use printing::blocks::Blocks;
use std::alloc::Global;
use test_rows::case::CaseError;
use test_rows::runner::events::try_events;
use test_rows::runner::report::Report;
use test_rows::runner::texts::repeated;

/// The parser of blocks, which reads text parts by `Inlines`.
pub struct Inlined;

impl Body for Inlined {
    ghost accepts = { IsWithoutMdx };

    // Of what is outlined nothing is promised: what it adds is in the events.
    ghost outlines = { λ text options listing. Unit {0} };

    ghost built = { built_from };

    fn built(options: ParseOptions) -> ParseOptions {
        Blocks::built(options)
    }

    fn outlined<'a>(
        alloc: Global,
        text: &'a str,
        options: &'a ParseOptions,
    ) -> Result<Outlined<'a>, Message> {
        Blocks::outlined(alloc, text, options)
    }

    fn events(
        alloc: Global,
        text: &str,
        options: &ParseOptions,
    ) -> Result<Option<Vec<Event>>, Message> {
        let (events, _state) = parse_with(alloc, &Inlines::ALL, text, options)?;
        Ok(Some(events))
    }
}

/// What is in itself: what is before a code span and after it, for how many levels it is once, how many events it has,
/// and how many all have that are around and inside.
struct Nested {
    before: &'static str,
    after: &'static str,
    levels: usize,
    events: usize,
    others: usize,
}

/// A paragraph has two events and a code span eight.
const NESTED: [Nested; 3] = [
    // Brackets that are text: a piece on each side.
    Nested {
        before: "[",
        after: "]",
        levels: 1,
        events: 0,
        others: 14,
    },
    // CommonMark 6.2: the emphasis, its text, and four pieces.
    Nested {
        before: "*a ",
        after: " a*",
        levels: 2,
        events: 12,
        others: 10,
    },
    // CommonMark 6.4: eight parts, and seven pieces.
    Nested {
        before: "![",
        after: "](b)",
        levels: 4,
        events: 30,
        others: 10,
    },
];

/// Tries inline constructs in one another: how many events they have, and whether these nest and tile the text.
pub fn try_inline_levels(
    alloc: Global,
    levels: usize,
    report: &mut Report,
) -> Result<(), CaseError> {
    for nested in &NESTED {
        let levels = levels.checked_div(nested.levels).unwrap_or(0);
        let text = text_of(alloc, nested, levels)?;
        let events = levels
            .wrapping_mul(nested.events)
            .wrapping_add(nested.others);
        let wanted = format!(in alloc; "{events} events")?;
        let got = counted(alloc, text.as_str())?;
        report.add(
            "inline levels",
            nested.before,
            wanted.as_str(),
            got.as_str(),
        )?;
        try_events::<Inlined>(alloc, text.as_str(), &Constructs::ALL, report)?;
    }
    Ok(())
}

/// A code span in so many of these.
fn text_of(alloc: Global, nested: &Nested, levels: usize) -> Result<String, CaseError> {
    let mut text = repeated(alloc, nested.before, levels)?;
    text.push_str("`c`")?;
    text.push_str(repeated(alloc, nested.after, levels)?.as_str())?;
    Ok(text)
}

/// How many events a text has.
fn counted(alloc: Global, text: &str) -> Result<String, CaseError> {
    if text.len() > MOST {
        return Err(CaseError::Form);
    }
    let options = Blocks::built(ParseOptions::ALL);
    let Ok(Some(events)) = Inlined::events(alloc, text, &options) else {
        return Err(CaseError::Memory);
    };
    Ok(format!(in alloc; "{} events", events.len())?)
}
