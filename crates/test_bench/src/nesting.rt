// Inline content in containers: of each text of the rows of which the laws of nesting speak, the parts of its quote, of
// its item and of its footnote definition have the content that those of the text have, with places left out.

use crate::inlined::Inlined;
use md_engine::configuration::Constructs;
use md_engine::event::{Event, Kind};
use md_events::names::{is_prefix, is_text_part, text_of};
use md_program::body::{Body, MOST};
use std::alloc::{AllocError, Global};
use test_rows::case::{Case, CaseError};
use test_rows::runner::report::Report;
use test_rows::runner::rows::options_of;
use test_rows::runner::wraps::{footnoted, itemised, quoted};

/// The text part that a footnote definition has before those of its text.
const LABEL: &str =
    "+GfmFootnoteDefinitionLabelString\n+Data\n|x\n-Data\n-GfmFootnoteDefinitionLabelString\n";

/// Tries it on the texts of all rows.
pub fn try_nesting(alloc: Global, report: &mut Report) -> Result<(), CaseError> {
    for rows in test_rows::all() {
        for row in rows.split("\n\n") {
            let case = Case::read(alloc, row)?;
            let constructs = Constructs {
                alerts: false,
                frontmatter: false,
                ..case.constructs
            };
            if is_plain(case.text.as_str()) {
                try_text(alloc, case.text.as_str(), &constructs, report)?;
            }
        }
    }
    Ok(())
}

/// Whether the laws speak of a text.
fn is_plain(text: &str) -> bool {
    !text.is_empty() && !text.starts_with('\u{feff}') && !text.contains('\t')
}

/// Whether the list law and the footnote law speak of a plain text.
fn begins_with_text(text: &str) -> bool {
    !text.starts_with(' ') && !text.starts_with('\n') && !text.starts_with('\r')
}

/// Whether a text may call the footnote `x`.
fn calls_footnote(text: &str) -> bool {
    text.contains("[^x") || text.contains("[^X")
}

/// Tries it on one text. The first paragraph of an item may have a check where that of the text has none.
fn try_text(
    alloc: Global,
    text: &str,
    constructs: &Constructs,
    report: &mut Report,
) -> Result<(), CaseError> {
    let wanted = content_of(alloc, text, constructs)?;
    if constructs.block_quote {
        let quote = quoted(alloc, text)?;
        let got = content_of(alloc, quote.as_str(), constructs)?;
        report.add("content in a quote", text, wanted.as_str(), got.as_str())?;
    }
    if constructs.list_item && begins_with_text(text) && !text.starts_with('[') {
        let item = itemised(alloc, text)?;
        let got = content_of(alloc, item.as_str(), constructs)?;
        report.add("content in an item", text, wanted.as_str(), got.as_str())?;
    }
    if constructs.gfm_footnote_definition && begins_with_text(text) && !calls_footnote(text) {
        let footnote = footnoted(alloc, text)?;
        let got = content_of(alloc, footnote.as_str(), constructs)?;
        let wanted = format!(in alloc; "{LABEL}{wanted}")?;
        report.add("content in a footnote", text, wanted.as_str(), got.as_str())?;
    }
    Ok(())
}

/// The content of the text parts of a text, a line for each event and for the bytes of each piece. A text beyond the
/// size is refused as no row.
fn content_of(alloc: Global, text: &str, constructs: &Constructs) -> Result<String, CaseError> {
    if text.len() > MOST {
        return Err(CaseError::Form);
    }
    let options = Inlined::built(options_of(constructs));
    let Ok(Some(events)) = Inlined::events(alloc, text, &options) else {
        return Err(CaseError::Memory);
    };
    Ok(listed(alloc, text, &events)?)
}

/// These events of a text as far as they are in text parts, but for prefixes and whitespace that is left out.
fn listed(alloc: Global, text: &str, events: &[Event]) -> Result<String, AllocError> {
    let mut list = String::new(alloc);
    let mut is_inside = false;
    let mut begin = None;
    for event in events {
        if is_text_part(event.name) {
            is_inside = matches!(event.kind, Kind::Enter);
        } else if !is_inside || is_prefix(event.name) {
            continue;
        }
        let name = text_of(event.name);
        match (event.kind, begin) {
            (Kind::Enter, _) => {
                begin = Some(event.point.index);
                write!(list, "+{name}\n")?;
            }
            (Kind::Exit, Some(from)) => {
                begin = None;
                let bytes = text.get(from..event.point.index).unwrap_or("");
                write!(list, "|{bytes}\n-{name}\n")?;
            }
            (Kind::Exit, None) => write!(list, "-{name}\n")?,
        }
    }
    Ok(list)
}
