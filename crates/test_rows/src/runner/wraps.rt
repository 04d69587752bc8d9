// Puts texts into the containers that the laws of nesting are tried with, and tries that itself.

use crate::case::{CaseError, unquoted};
use crate::runner::report::Report;
use md_engine::configuration::{Constructs, ParseOptions};
use md_program::body::MOST;
use md_wrap::wrap;
use std::alloc::Global;

/// The options change no byte.
const OPTIONS: ParseOptions = ParseOptions {
    constructs: Constructs::NONE,
};

/// A text in a block quote. One beyond the size is refused as no row.
pub fn quoted(alloc: Global, text: &str) -> Result<String, CaseError> {
    if text.len() > MOST {
        return Err(CaseError::Form);
    }
    wrap::quote(alloc, text, &OPTIONS).or(Err(CaseError::Memory))
}

/// A text in a list item. One beyond the size is refused as no row.
pub fn itemised(alloc: Global, text: &str) -> Result<String, CaseError> {
    if text.len() > MOST {
        return Err(CaseError::Form);
    }
    wrap::item(alloc, text, &OPTIONS).or(Err(CaseError::Memory))
}

/// A text in a footnote definition. One beyond the size is refused as no row.
pub fn footnoted(alloc: Global, text: &str) -> Result<String, CaseError> {
    if text.len() > MOST {
        return Err(CaseError::Form);
    }
    wrap::footnote(alloc, text, &OPTIONS).or(Err(CaseError::Memory))
}

/// The four lines of a row: a text, and what it is as a quote, as an item and as a footnote definition.
fn lines_of(alloc: Global, row: &str) -> Result<Vec<String>, CaseError> {
    let mut lines = Vec::new(alloc);
    for line in row.lines() {
        if lines.push(unquoted(alloc, line)?).is_err() {
            return Err(CaseError::Memory);
        }
    }
    Ok(lines)
}

/// Adds to a report what a text is in a container.
fn add_wrap(
    title: &str,
    text: &str,
    wanted: &str,
    got: String,
    report: &mut Report,
) -> Result<(), CaseError> {
    report.add(title, text, wanted, got.as_str())?;
    Ok(())
}

/// Tries one row of a table of wraps.
fn try_wrap(alloc: Global, lines: &[String], report: &mut Report) -> Result<(), CaseError> {
    let [text, quote, item, footnote] = lines else {
        return Err(CaseError::Form);
    };
    let text = text.as_str();
    add_wrap(
        "a quote",
        text,
        quote.as_str(),
        quoted(alloc, text)?,
        report,
    )?;
    add_wrap(
        "an item",
        text,
        item.as_str(),
        itemised(alloc, text)?,
        report,
    )?;
    add_wrap(
        "a footnote",
        text,
        footnote.as_str(),
        footnoted(alloc, text)?,
        report,
    )
}

/// Tries this on a table of wraps.
pub fn try_wraps(alloc: Global, rows: &str, report: &mut Report) -> Result<(), CaseError> {
    for row in rows.split("\n\n") {
        let lines = lines_of(alloc, row)?;
        try_wrap(alloc, lines.as_slice(), report)?;
    }
    Ok(())
}
