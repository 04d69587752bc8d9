// States of whitespace with at most one line ending.

/// Names of the states of whitespace with at most one line ending.
#[derive(Clone, Copy)]
pub enum State {
    Start,
    AfterFirst,
    AfterEol,
    AtEol,
    AfterMore,
}
