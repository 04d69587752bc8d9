// States of a destination.

/// Names of the states of a destination.
#[derive(Clone, Copy)]
pub enum State {
    Start,
    EnclosedBefore,
    Enclosed,
    EnclosedEscape,
    Raw,
    RawEscape,
}
