// Tries the laws of nesting: a text that is quoted, or indented as an item or as a footnote definition, has the same
// outline one container deeper, and the same labels, after that of the footnote. Its events nest and tile, too. Where
// alerts are on and the first line of a text is the marker of one, its quote is an alert of the lines after.

use crate::case::CaseError;
use crate::runner::events::try_events;
use crate::runner::report::Report;
use crate::runner::rows::printed;
use crate::runner::wraps::{footnoted, itemised, quoted};
use md_engine::configuration::Constructs;
use md_program::body::Body;
use std::alloc::{AllocError, Global};

/// Whether the laws speak of a text: it is not empty and has neither a tab nor a byte order mark at its start.
fn is_plain(text: &str) -> bool {
    !text.is_empty() && !text.starts_with('\u{feff}') && !text.contains('\t')
}

/// Whether the list law and the footnote law speak of a plain text: its first line is not empty and does not begin with
/// a space.
fn begins_with_text(text: &str) -> bool {
    !text.starts_with(' ') && !text.starts_with('\n') && !text.starts_with('\r')
}

/// The markers of alerts, each with what is printed of a quote that begins with it.
const ALERTS: [(&str, &str); 5] = [
    ("[!note]", "alert note\n"),
    ("[!tip]", "alert tip\n"),
    ("[!important]", "alert important\n"),
    ("[!warning]", "alert warning\n"),
    ("[!caution]", "alert caution\n"),
];

/// The first line of a text, without its ending.
fn first_line(text: &str) -> &str {
    text.split(['\n', '\r']).next().unwrap_or("")
}

/// The lines of a text after the first one.
fn after_first_line(text: &str) -> &str {
    let rest = text.get(first_line(text).len()..).unwrap_or("");
    match rest.strip_prefix("\r\n") {
        Some(lines) => lines,
        None => rest.get(1..).unwrap_or(""),
    }
}

/// What is printed of an alert, if the first line of a plain text is its marker, after a small indent.
fn alert_of(text: &str, constructs: &Constructs) -> Option<&'static str> {
    let line = first_line(text);
    let rest = line.trim_start_matches(' ');
    let indent = line.len().saturating_sub(rest.len());
    if !constructs.alerts || indent > 3 && constructs.code_indented {
        return None;
    }
    for (marker, head) in &ALERTS {
        if marker.eq_ignore_ascii_case(rest.trim_end_matches(' ')) {
            return Some(head);
        }
    }
    None
}

/// What is printed for a text, with the outline below the lines `heads`.
fn below(alloc: Global, output: &str, heads: &str, indent: &str) -> Result<String, AllocError> {
    let (outline, labels) = output.split_once("\ndefinitions ").unwrap_or((output, ""));
    let mut deeper = String::from_str(alloc, heads)?;
    for line in outline.lines() {
        write!(deeper, "{indent}{line}\n")?;
    }
    write!(deeper, "\ndefinitions {labels}")?;
    Ok(deeper)
}

/// What is printed, with the label `x` before those of the other footnote definitions.
fn with_footnote(alloc: Global, output: &str) -> Result<String, AllocError> {
    let (front, footnotes) = output.split_once("\nfootnotes ").unwrap_or((output, ""));
    let (count, labels) = footnotes.split_once('\n').unwrap_or((footnotes, ""));
    let others: u64 = count.parse().unwrap_or(0);
    let all = others.saturating_add(1);
    format!(in alloc; "{front}\nfootnotes {all}\n= x\n{labels}")
}

/// Tries whether a text in a container gives this. Its events are tried too.
fn try_nested<B: Body>(
    alloc: Global,
    law: &str,
    nested: &str,
    wanted: &str,
    constructs: &Constructs,
    report: &mut Report,
) -> Result<(), CaseError> {
    let got = printed::<B>(alloc, nested, constructs)?;
    report.add(law, nested, wanted, got.as_str())?;
    try_events::<B>(alloc, nested, constructs, report)
}

/// Tries whether a text in a quote gives this outline below this head.
fn try_quote<B: Body>(
    alloc: Global,
    text: &str,
    head: &str,
    output: &str,
    constructs: &Constructs,
    report: &mut Report,
) -> Result<(), CaseError> {
    let quote = quoted(alloc, text)?;
    let wanted = below(alloc, output, head, "  ")?;
    let wanted = wanted.as_str();
    try_nested::<B>(
        alloc,
        "the quote law",
        quote.as_str(),
        wanted,
        constructs,
        report,
    )
}

/// Tries the alert law: below this head is the outline of the lines after the marker, where the laws speak of them.
fn try_alert<B: Body>(
    alloc: Global,
    text: &str,
    head: &str,
    constructs: &Constructs,
    report: &mut Report,
) -> Result<(), CaseError> {
    let rest = after_first_line(text);
    let output = printed::<B>(alloc, rest, constructs)?;
    if rest.starts_with('\u{feff}') || output.as_str().starts_with("frontmatter ") {
        return Ok(());
    }
    try_quote::<B>(alloc, text, head, output.as_str(), constructs, report)
}

/// Tries the list law on a text with this outline.
fn try_item<B: Body>(
    alloc: Global,
    text: &str,
    output: &str,
    constructs: &Constructs,
    report: &mut Report,
) -> Result<(), CaseError> {
    let item = itemised(alloc, text)?;
    let wanted = below(alloc, output, "list +\n  item\n", "    ")?;
    let wanted = wanted.as_str();
    try_nested::<B>(
        alloc,
        "the list law",
        item.as_str(),
        wanted,
        constructs,
        report,
    )
}

/// Tries the footnote law on a text with this outline.
fn try_footnote<B: Body>(
    alloc: Global,
    text: &str,
    output: &str,
    constructs: &Constructs,
    report: &mut Report,
) -> Result<(), CaseError> {
    let footnote = footnoted(alloc, text)?;
    let deeper = below(alloc, output, "footnote\n  label | x\n", "  ")?;
    let wanted = with_footnote(alloc, deeper.as_str())?;
    let wanted = wanted.as_str();
    try_nested::<B>(
        alloc,
        "the footnote law",
        footnote.as_str(),
        wanted,
        constructs,
        report,
    )
}

/// Tries the laws on a plain text with this outline, of each container that is on.
fn try_containers<B: Body>(
    alloc: Global,
    text: &str,
    output: &str,
    constructs: &Constructs,
    report: &mut Report,
) -> Result<(), CaseError> {
    if constructs.block_quote {
        match alert_of(text, constructs) {
            None => try_quote::<B>(alloc, text, "quote\n", output, constructs, report)?,
            Some(head) => try_alert::<B>(alloc, text, head, constructs, report)?,
        }
    }
    if !begins_with_text(text) {
        return Ok(());
    }
    if constructs.list_item {
        try_item::<B>(alloc, text, output, constructs, report)?;
    }
    if constructs.gfm_footnote_definition {
        try_footnote::<B>(alloc, text, output, constructs, report)?;
    }
    Ok(())
}

/// Tries the laws on a text with constructs that the body has, as far as they speak of it: not of frontmatter either.
/// The events of the text in its container are tried with each.
pub fn try_laws<B: Body>(
    alloc: Global,
    text: &str,
    constructs: &Constructs,
    report: &mut Report,
) -> Result<(), CaseError> {
    if !is_plain(text) {
        return Ok(());
    }
    let output = printed::<B>(alloc, text, constructs)?;
    if output.as_str().starts_with("frontmatter ") {
        return Ok(());
    }
    try_containers::<B>(alloc, text, output.as_str(), constructs, report)
}
