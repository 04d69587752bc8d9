// Tries whether two bodies give the same where constructs meet: on all texts of a few letters and fragments that belong
// to as many constructs as they can, and on long random texts of the fragments. What a task is, by its arguments:
//
//     letters MOST         all texts of at most so many letters
//     fragments MOST       all texts of at most so many fragments
//     random SEED COUNT    so many random texts of fragments, each with a random set of constructs
//     alerts SEED COUNT    so many random texts of the fragments that alerts are made of, with all constructs
//     flags SEED COUNT     so many random texts of all fragments, each with any set of the constructs; the events of
//                          the first body nest and tile it too

use crate::case::CaseError;
use crate::constructs::FRAGMENTS;
use crate::runner::agree::{try_letters, try_text};
use crate::runner::events::try_events;
use crate::runner::report::Report;
use crate::runner::rows::built_of;
use crate::runner::sets::{FEW, HALF, without_some};
use crate::runner::texts::random;
use md_engine::configuration::Constructs;
use md_program::body::Body;
use rand_pcg::Pcg32;
use std::alloc::Global;

/// Twelve letters.
const LETTERS: [&str; 12] = [
    // Text, in whatever is open: a paragraph, a cell, a label's destination, code, frontmatter.
    "a",
    // An item, an underline, a delimiter row.
    "-",
    // Frontmatter as the first line, further down a break, an underline or a delimiter row.
    "---",
    // Frontmatter as the first line, which `---` does not close, and text further down.
    "+++",
    // A cell.
    "|",
    // A quote, also between the lines of what is in one.
    ">",
    // A footnote definition.
    "[^a]:",
    // A label: the word after it is its destination, and an ending may be between both.
    "[a]:",
    // A fence, which takes all of the others as text, and which ends with its container.
    "```",
    // Four columns or fewer: indented code, what a container asks for, or white space, and a container may cut it.
    "\t",
    // Endings: two in this order, and one in the other.
    "\n", "\r",
];

/// Fragments of alerts: markers, whole and in parts, and what they are in, after and before.
const ALERTS: [&str; 40] = [
    "> [!NOTE]\n",
    "> [!tip]\n> ",
    ">[!Important]",
    "> > [!WARNING]\n",
    "[!cAUTION]\n",
    "[!NOTE]",
    "[!Tip]",
    "[!",
    "tIP",
    "note]",
    "]",
    "[",
    "\n> ",
    "\n>",
    "\n>> ",
    "> ",
    ">",
    ">\t",
    "\t",
    " ",
    "  ",
    "    ",
    "\n",
    "\n\n",
    "\r",
    "\r\n",
    "\n  ",
    "\n    ",
    "a",
    "a\n",
    "- ",
    "1. ",
    "[^a]: ",
    "# ",
    "=\n",
    "---\n",
    "```\n",
    "|-\n",
    "[a]: b\n",
    "<div>\n",
];

/// The most fragments of a random text.
const MOST_FRAGMENTS: u32 = 24;

/// Texts on which two bodies are tried.
#[derive(Clone, Copy)]
pub enum Nasty {
    Letters { most: usize },
    Fragments { most: usize },
    Random { seed: u64, count: u64 },
    Alerts { seed: u64, count: u64 },
    Flags { seed: u64, count: u64 },
}

impl Nasty {
    /// The letters where no argument says how many.
    pub const LETTERS: Nasty = Nasty::Letters { most: 5 };

    /// The fragments where no argument says how many.
    pub const FRAGMENTS: Nasty = Nasty::Fragments { most: 3 };

    /// The random texts where no argument says how many.
    pub const RANDOM: Nasty = Nasty::Random {
        seed: 1,
        count: 50_000,
    };

    /// The random texts with alerts where no argument says how many.
    pub const ALERTS: Nasty = Nasty::Alerts {
        seed: 1,
        count: 50_000,
    };

    /// What these arguments name, or `None` where they name nothing.
    pub fn asked_for(args: &[String]) -> Option<Nasty> {
        match args {
            [word, most] => Nasty::of_most(word.as_str(), most.as_str().parse().ok()?),
            [word, seed, count] => {
                let seed = seed.as_str().parse().ok()?;
                Nasty::of_random(word.as_str(), seed, count.as_str().parse().ok()?)
            }
            _ => None,
        }
    }

    /// Texts of at most so many of something.
    fn of_most(word: &str, most: usize) -> Option<Nasty> {
        match word {
            "letters" => Some(Nasty::Letters { most }),
            "fragments" => Some(Nasty::Fragments { most }),
            _ => None,
        }
    }

    /// So many random texts.
    fn of_random(word: &str, seed: u64, count: u64) -> Option<Nasty> {
        match word {
            "random" => Some(Nasty::Random { seed, count }),
            "alerts" => Some(Nasty::Alerts { seed, count }),
            "flags" => Some(Nasty::Flags { seed, count }),
            _ => None,
        }
    }

    /// Tries two bodies on these texts.
    pub fn perform<A: Body, B: Body>(
        self,
        alloc: Global,
        report: &mut Report,
    ) -> Result<(), CaseError> {
        match self {
            Nasty::Letters { most } => {
                try_letters::<A, B>(alloc, &LETTERS, most, &Constructs::ALL, report)
            }
            Nasty::Fragments { most } => {
                try_letters::<A, B>(alloc, &FRAGMENTS, most, &Constructs::ALERTS, report)
            }
            Nasty::Random { seed, count } => try_long::<A, B>(alloc, seed, count, report),
            Nasty::Alerts { seed, count } => try_alerts::<A, B>(alloc, seed, count, report),
            Nasty::Flags { seed, count } => try_flags::<A, B>(alloc, seed, count, report),
        }
    }
}

/// Tries two bodies on so many random texts of fragments, in turn with about half of the constructs and with most of
/// them.
fn try_long<A: Body, B: Body>(
    alloc: Global,
    seed: u64,
    count: u64,
    report: &mut Report,
) -> Result<(), CaseError> {
    let mut source = Pcg32::new(seed, 0);
    for number in 0..count {
        let text = random(alloc, &mut source, &FRAGMENTS, MOST_FRAGMENTS)?;
        let bits = if number % 2 == 0 { HALF } else { FEW };
        let constructs = built_of::<A>(&without_some(&mut source, bits));
        try_text::<A, B>(alloc, text.as_str(), &constructs, report)?;
    }
    Ok(())
}

/// Tries two bodies on so many random texts of fragments of alerts, with all constructs of the first.
fn try_alerts<A: Body, B: Body>(
    alloc: Global,
    seed: u64,
    count: u64,
    report: &mut Report,
) -> Result<(), CaseError> {
    let constructs = built_of::<A>(&Constructs::ALERTS);
    let mut source = Pcg32::new(seed, 0);
    for _ in 0..count {
        let text = random(alloc, &mut source, &ALERTS, MOST_FRAGMENTS)?;
        try_text::<A, B>(alloc, text.as_str(), &constructs, report)?;
    }
    Ok(())
}

/// Tries two bodies on so many random texts, in turn of all fragments and of those of alerts, each with any set of the
/// constructs of the first, and whether its events nest and tile the text.
fn try_flags<A: Body, B: Body>(
    alloc: Global,
    seed: u64,
    count: u64,
    report: &mut Report,
) -> Result<(), CaseError> {
    let mut source = Pcg32::new(seed, 0);
    for number in 0..count {
        let text = if number % 2 == 0 {
            random(alloc, &mut source, &FRAGMENTS, MOST_FRAGMENTS)?
        } else {
            random(alloc, &mut source, &ALERTS, MOST_FRAGMENTS)?
        };
        let constructs = built_of::<A>(&without_some(&mut source, HALF));
        try_text::<A, B>(alloc, text.as_str(), &constructs, report)?;
        try_events::<A>(alloc, text.as_str(), &constructs, report)?;
    }
    Ok(())
}
