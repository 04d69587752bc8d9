// States of a block quote.

/// Names of the states of a block quote.
#[derive(Clone, Copy)]
pub enum State {
    Start,
    OpenStart,
    OpenBefore,
    OpenAfter,
    AlertTry,
    AlertStart,
    AlertBefore,
    AlertMark,
    AlertLetter,
    AlertName,
    PrefixEnd,
    ContStart,
    ContBefore,
    ContAfter,
}
