// Looks for texts that break the laws of nesting, or whose events do not tile: begins of the rows' texts, all short
// texts, and random longer ones.

use crate::case::{Case, CaseError};
use crate::runner::events::try_events;
use crate::runner::laws::try_laws;
use crate::runner::report::Report;
use crate::runner::rows::built_of;
use crate::runner::sets::{FEW, without_some};
use crate::runner::texts::{numbered, random};
use md_engine::configuration::Constructs;
use md_program::body::Body;
use rand_pcg::Pcg32;
use std::alloc::Global;

/// Letters of short texts: most of them begin something.
const LETTERS: [&str; 20] = [
    "a", " ", "\n", ">", "-", "+", "*", "#", "=", "`", "~", "<", "|", ":", "[", "]", "1", ".",
    "\\", "^",
];

/// Pieces of random texts.
const PIECES: [&str; 44] = [
    "a",
    "b",
    " ",
    "  ",
    "    ",
    "\n",
    "\n",
    "\n",
    "\n\n",
    "\r",
    "\r\n",
    "> ",
    ">",
    "- ",
    "-",
    "+ ",
    "* ",
    "1. ",
    "12) ",
    "# ",
    " #",
    "=\n",
    "---\n",
    "***\n",
    "```",
    "~~~",
    "$$",
    "<!--",
    "-->",
    "<div>",
    "<x>\n",
    "[a]: ",
    "[^a]: ",
    "]",
    "'",
    "|",
    "-|-\n",
    ":-\n",
    "\\",
    "(",
    "[!NOTE]",
    "[!note]\n",
    "> [!Tip]\n",
    "> [!CAUTION] \n> ",
];

/// The most pieces of a random text.
const MOST_PIECES: u32 = 24;

/// Tries the laws on all texts of so many of the letters, with all constructs of the body.
pub fn try_short<B: Body>(
    alloc: Global,
    length: usize,
    report: &mut Report,
) -> Result<(), CaseError> {
    let constructs = built_of::<B>(&Constructs::ALERTS);
    let mut count: usize = 1;
    for _ in 0..length {
        count = count.wrapping_mul(LETTERS.len());
    }
    for number in 0..count {
        let text = numbered(alloc, &LETTERS, length, number)?;
        try_laws::<B>(alloc, text.as_str(), &constructs, report)?;
    }
    Ok(())
}

/// Tries the texts of rows, each cut at each of its characters: the events under the four sets, and the laws with all
/// constructs of the body, with alerts and without.
pub fn try_begins<B: Body>(
    alloc: Global,
    rows: &str,
    report: &mut Report,
) -> Result<(), CaseError> {
    for row in rows.split("\n\n") {
        let case = Case::read(alloc, row)?;
        let mut begin = String::new(alloc);
        try_begin::<B>(alloc, "", report)?;
        for c in case.text.as_str().chars() {
            begin.push(c)?;
            try_begin::<B>(alloc, begin.as_str(), report)?;
        }
    }
    Ok(())
}

/// Tries one begin of a text so.
fn try_begin<B: Body>(alloc: Global, text: &str, report: &mut Report) -> Result<(), CaseError> {
    try_events::<B>(alloc, text, &Constructs::COMMONMARK, report)?;
    try_events::<B>(alloc, text, &Constructs::GFM, report)?;
    try_events::<B>(alloc, text, &Constructs::ALL, report)?;
    try_events::<B>(alloc, text, &Constructs::ALERTS, report)?;
    try_laws::<B>(alloc, text, &built_of::<B>(&Constructs::ALL), report)?;
    try_laws::<B>(alloc, text, &built_of::<B>(&Constructs::ALERTS), report)
}

/// Tries the laws on so many random texts, each with random constructs of the body.
pub fn try_random<B: Body>(
    alloc: Global,
    seed: u64,
    count: u64,
    report: &mut Report,
) -> Result<(), CaseError> {
    let mut source = Pcg32::new(seed, 0);
    for _ in 0..count {
        let text = random(alloc, &mut source, &PIECES, MOST_PIECES)?;
        let constructs = built_of::<B>(&without_some(&mut source, FEW));
        try_laws::<B>(alloc, text.as_str(), &constructs, report)?;
    }
    Ok(())
}
