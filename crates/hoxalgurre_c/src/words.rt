// The words of the outline by their numbers, which C sees: the places among the variants of `Word`.

use crate::shapes::{HoxalgurreLine, HoxalgurreSpan};
use markdown_blocks::outline::{OutlineLine, Word};

/// What is said of a word: its number, its byte, whether it is closed, and its value.
#[derive(Clone, Copy)]
struct Said {
    word: u16,
    marker: u8,
    is_closed: bool,
    value: usize,
}

/// A word of which nothing else is said.
fn bare(word: u16) -> Said {
    Said {
        word,
        marker: 0,
        is_closed: false,
        value: 0,
    }
}

/// A word with a byte.
fn marked(word: u16, marker: u8) -> Said {
    Said {
        marker,
        ..bare(word)
    }
}

/// A word with a value.
fn valued(word: u16, value: usize) -> Said {
    Said {
        value,
        ..bare(word)
    }
}

/// What C sees of a word of a text.
fn said_of_text(word: Word) -> Said {
    match word {
        Word::Info => bare(17),
        Word::Meta => bare(18),
        Word::Label => bare(19),
        Word::Destination => bare(20),
        Word::Title => bare(21),
        Word::Delimiter => bare(22),
        Word::Cell => bare(23),
        _ => bare(16),
    }
}

/// What C sees of a word.
fn said_of(word: Word) -> Said {
    match word {
        Word::Frontmatter(marker) => marked(0, marker),
        Word::Heading(depth) => valued(1, depth as usize),
        Word::Break => bare(2),
        Word::Code => bare(3),
        Word::Fence { marker, closed } => Said {
            is_closed: closed,
            ..marked(4, marker)
        },
        Word::Math { closed } => Said {
            is_closed: closed,
            ..bare(5)
        },
        Word::Html => bare(6),
        Word::Definition => bare(7),
        Word::Paragraph => bare(8),
        Word::Table(columns) => valued(9, columns),
        Word::Row => bare(10),
        Word::Quote => bare(11),
        Word::Alert(kind) => valued(12, kind as usize),
        Word::List(marker) => marked(13, marker),
        Word::Item => bare(14),
        Word::Footnote => bare(15),
        text => said_of_text(text),
    }
}

/// A line of the outline as C sees it, with its text.
pub(crate) fn shown_line(line: &OutlineLine, text: HoxalgurreSpan) -> HoxalgurreLine {
    let Said {
        word,
        marker,
        is_closed,
        value,
    } = said_of(line.word);
    HoxalgurreLine {
        word,
        marker,
        is_closed: if is_closed { 1 } else { 0 },
        value,
        depth: line.depth,
        spaces: line.spaces,
        text,
    }
}
