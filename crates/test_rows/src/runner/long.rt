// Tries a body on texts that are too long for a row.

use crate::case::CaseError;
use crate::runner::report::Report;
use crate::runner::rows::printed;
use crate::runner::texts::repeated;
use md_engine::configuration::Constructs;
use md_program::body::Body;
use std::alloc::Global;

/// A text with many times an `a` in its middle, and what its outline begins with.
struct Long {
    open: &'static str,
    times: usize,
    close: &'static str,
    begin: &'static str,
}

/// Labels of 999 bytes, which are labels, and of 1,000, which are not (CommonMark 4.7).
const LABELS: [Long; 6] = [
    Long {
        open: "[",
        times: 999,
        close: "]: b",
        begin: "definition\n  label | a",
    },
    Long {
        open: "[",
        times: 1000,
        close: "]: b",
        begin: "paragraph\n  | [a",
    },
    Long {
        open: "[",
        times: 998,
        close: " \n]: b",
        begin: "definition\n  label | a",
    },
    Long {
        open: "[",
        times: 998,
        close: "  \n]: b",
        begin: "paragraph\n  | [a",
    },
    Long {
        open: "[^",
        times: 999,
        close: "]: b",
        begin: "footnote\n  label | a",
    },
    Long {
        open: "[^",
        times: 1000,
        close: "]: b",
        begin: "paragraph\n  | [^a",
    },
];

/// Tries a body that has definitions and footnotes on long labels.
pub fn try_labels<B: Body>(alloc: Global, report: &mut Report) -> Result<(), CaseError> {
    for long in &LABELS {
        let middle = repeated(alloc, "a", long.times)?;
        let text = format!(in alloc; "{}{}{}", long.open, middle, long.close)?;
        let got = printed::<B>(alloc, text.as_str(), &Constructs::ALL)?;
        let front = if got.as_str().starts_with(long.begin) {
            long.begin
        } else {
            got.as_str()
        };
        report.add("a long label", text.as_str(), long.begin, front)?;
    }
    Ok(())
}
