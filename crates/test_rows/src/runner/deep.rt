// Tries a body on containers in one another, many of them (CommonMark 5.1 and 5.2).

use crate::case::CaseError;
use crate::runner::events::try_events;
use crate::runner::report::Report;
use crate::runner::rows::{options_of, printed};
use crate::runner::texts::repeated;
use md_engine::configuration::Constructs;
use md_program::body::{Body, MOST};
use std::alloc::{AllocError, Global};

/// Tries a body that has quotes and items on 1,000 quotes in one another, and on 200 lists.
pub fn try_depths<B: Body>(alloc: Global, report: &mut Report) -> Result<(), CaseError> {
    try_depth::<B>(alloc, report, ">", 1000, &["quote\n"])?;
    try_depth::<B>(alloc, report, "- ", 200, &["list -\n", "item\n"])
}

/// Tries the marker of a container so many times before an `a`.
fn try_depth<B: Body>(
    alloc: Global,
    report: &mut Report,
    marker: &str,
    times: usize,
    words: &[&str],
) -> Result<(), CaseError> {
    let text = nested(alloc, marker, times)?;
    let mut wanted = String::new(alloc);
    let mut indent = String::new(alloc);
    for _ in 0..times {
        for word in words {
            write!(wanted, "{indent}{word}")?;
            indent.push_str("  ")?;
        }
    }
    write!(
        wanted,
        "{indent}paragraph\n  {indent}| a\n\ndefinitions 0\nfootnotes 0\n"
    )?;
    let got = printed::<B>(alloc, text.as_str(), &Constructs::ALL)?;
    report.add("deep nesting", text.as_str(), wanted.as_str(), got.as_str())?;
    try_events::<B>(alloc, text.as_str(), &Constructs::ALL, report)
}

/// Markers that open containers, with how many words of the outline are one in another for each, and how many lines it
/// has.
const MARKERS: [(&str, usize, usize); 3] = [(">", 1, 1), ("- ", 2, 2), ("> - 1. [^a]: ", 6, 7)];

/// Tries a body on markers of containers so many times before an `a`. An outline of such a depth is not printed, since
/// its indents have more bytes than there is memory: its lines and the depth of the last are counted.
pub fn try_levels<B: Body>(
    alloc: Global,
    levels: usize,
    report: &mut Report,
) -> Result<(), CaseError> {
    for (marker, depth, lines) in &MARKERS {
        let text = nested(alloc, marker, levels)?;
        let lines = levels.wrapping_mul(*lines).wrapping_add(2);
        let depth = levels.wrapping_mul(*depth).wrapping_add(1);
        try_level::<B>(alloc, marker, text.as_str(), lines, depth, report)?;
    }
    Ok(())
}

/// Tries a body on such a text, whose outline has so many lines, and the last of them this depth.
fn try_level<B: Body>(
    alloc: Global,
    marker: &str,
    text: &str,
    lines: usize,
    depth: usize,
    report: &mut Report,
) -> Result<(), CaseError> {
    let wanted = shown(alloc, lines, depth)?;
    let got = counted::<B>(alloc, text)?;
    report.add("levels", marker, wanted.as_str(), got.as_str())?;
    try_events::<B>(alloc, text, &Constructs::ALL, report)
}

/// Markers so many times before an `a`.
fn nested(alloc: Global, marker: &str, times: usize) -> Result<String, AllocError> {
    let mut text = repeated(alloc, marker, times)?;
    text.push('a')?;
    Ok(text)
}

/// How many lines the outline of a text has, and how deep the last is.
fn counted<B: Body>(alloc: Global, text: &str) -> Result<String, CaseError> {
    if text.len() > MOST {
        return Err(CaseError::Form);
    }
    let options = B::built(options_of(&Constructs::ALL));
    let Ok(outlined) = B::outlined(alloc, text, &options) else {
        return Err(CaseError::Memory);
    };
    let depth = match outlined.lines.last() {
        Some(line) => line.depth,
        None => 0,
    };
    Ok(shown(alloc, outlined.lines.len(), depth)?)
}

/// So many lines and such a depth, in words.
fn shown(alloc: Global, lines: usize, depth: usize) -> Result<String, AllocError> {
    format!(in alloc; "{lines} lines, the last of depth {depth}")
}
