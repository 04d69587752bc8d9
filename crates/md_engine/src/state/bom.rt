// States of a byte order mark.

/// Names of the states of a byte order mark.
#[derive(Clone, Copy)]
pub enum State {
    Start,
    Inside,
}
