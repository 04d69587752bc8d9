// States of a thematic break.

/// Names of the states of a thematic break.
#[derive(Clone, Copy)]
pub enum State {
    Start,
    Before,
    AtBreak,
    Sequence,
    OneRun,
    OneRunAfter,
}
