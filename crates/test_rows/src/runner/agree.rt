// Tries whether two bodies give the same: on a text, and on all short texts.

use crate::case::CaseError;
use crate::runner::report::Report;
use crate::runner::rows::{built_of, printed};
use crate::runner::texts::numbered;
use md_engine::configuration::Constructs;
use md_program::body::Body;
use std::alloc::Global;

/// The most letters of a text where no argument says it.
pub const MOST: usize = 6;

/// Letters, so that texts of them are tried.
struct Alphabet {
    letters: &'static [&'static str],
    /// How many fewer of them than of others a text has, since there are many.
    fewer: usize,
    /// Whether alerts are on.
    alerts: bool,
}

/// All alphabets.
const ALPHABETS: [Alphabet; 14] = [
    // Letters that begin quotes, headings and breaks, or lines.
    Alphabet {
        letters: &["a", ">", "#", "*", " ", "\n"],
        fewer: 0,
        alerts: false,
    },
    // Letters that begin items, quotes and breaks, or lines.
    Alphabet {
        letters: &["a", "-", "1", ".", ">", " ", "\n"],
        fewer: 0,
        alerts: false,
    },
    // Letters that indent code and items, and cut tabs, those that begin what code is in, and lines.
    Alphabet {
        letters: &["a", "    ", "  ", "\t", ">", "-", "\n"],
        fewer: 0,
        alerts: false,
    },
    // Letters that begin and end fences, those that begin what they are in, and lines.
    Alphabet {
        letters: &["a", "```", "~~~", ">", "-", " ", "\n"],
        fewer: 0,
        alerts: false,
    },
    // Letters of which fences of several sizes are made, in quotes too, with whitespace that a fence may cut.
    Alphabet {
        letters: &["```", "`", "a", ">", "\t", "\n"],
        fewer: 0,
        alerts: false,
    },
    // Letters that begin and end math, alone and in quotes.
    Alphabet {
        letters: &["a", "$$", "$", ">", " ", "\n"],
        fewer: 0,
        alerts: false,
    },
    // Letters of which underlines, items and breaks are made, text that they may be after, quotes, and lines.
    Alphabet {
        letters: &["a", "=", "-", ">", " ", "\n"],
        fewer: 0,
        alerts: false,
    },
    // Letters of which definitions and underlines are made, quotes, and lines.
    Alphabet {
        letters: &["[", "]", ":", "a", "=", "\n", ">"],
        fewer: 0,
        alerts: false,
    },
    // Letters of which rows and delimiter rows are made, quotes, and lines.
    Alphabet {
        letters: &["a", "|", "-", ":", ">", " ", "\n"],
        fewer: 0,
        alerts: false,
    },
    // Letters of which alerts are made, in quotes, in items and beside text.
    Alphabet {
        letters: &[">", " ", "\n", "[!NOTE]", "[!tip]", "a", "- ", "\t"],
        fewer: 1,
        alerts: true,
    },
    // Parts of the marker of an alert, quotes, whitespace, and lines.
    Alphabet {
        letters: &[">", "[!", "Ti", "p", "]", " ", "\t", "\n"],
        fewer: 1,
        alerts: true,
    },
    // Letters of which tags and comments are made, and lines.
    Alphabet {
        letters: &["<", "/", "a", "!", "-", ">", " ", "\n"],
        fewer: 1,
        alerts: false,
    },
    // Letters that are after a label: marks of destinations and titles, whitespace, and lines.
    Alphabet {
        letters: &["[a]:", "\"", "\\", "(", ")", "<", ">", " ", "\n"],
        fewer: 1,
        alerts: false,
    },
    // Begins and ends of the kinds of HTML and parts of a tag, quotes, and lines.
    Alphabet {
        letters: &[
            "<pre>",
            "</pre>",
            "<!--",
            "-->",
            "<?",
            "?>",
            "<![CDATA[",
            "]]>",
            "<div",
            "<a ",
            "b=\"",
            "> ",
            "\n",
        ],
        fewer: 2,
        alerts: false,
    },
];

/// Tries two bodies on all texts of at most so many letters of each alphabet, with all constructs of the first: alerts
/// are on with the letters that are for them.
pub fn try_agree<A: Body, B: Body>(
    alloc: Global,
    most: usize,
    report: &mut Report,
) -> Result<(), CaseError> {
    for alphabet in &ALPHABETS {
        let set = if alphabet.alerts {
            &Constructs::ALERTS
        } else {
            &Constructs::ALL
        };
        let most = most.saturating_sub(alphabet.fewer);
        try_letters::<A, B>(alloc, alphabet.letters, most, set, report)?;
    }
    Ok(())
}

/// Tries two bodies on all texts of at most so many of these letters, with the constructs of a set that the first has.
pub fn try_letters<A: Body, B: Body>(
    alloc: Global,
    letters: &[&str],
    most: usize,
    set: &Constructs,
    report: &mut Report,
) -> Result<(), CaseError> {
    let constructs = built_of::<A>(set);
    let mut count: usize = 1;
    for length in 0..=most {
        for number in 0..count {
            let text = numbered(alloc, letters, length, number)?;
            try_text::<A, B>(alloc, text.as_str(), &constructs, report)?;
        }
        count = count.wrapping_mul(letters.len());
    }
    Ok(())
}

/// Tries whether two bodies print the same for a text.
pub fn try_text<A: Body, B: Body>(
    alloc: Global,
    text: &str,
    constructs: &Constructs,
    report: &mut Report,
) -> Result<(), CaseError> {
    let got = printed::<A>(alloc, text, constructs)?;
    let wanted = printed::<B>(alloc, text, constructs)?;
    report.add("two bodies", text, wanted.as_str(), got.as_str())?;
    Ok(())
}
