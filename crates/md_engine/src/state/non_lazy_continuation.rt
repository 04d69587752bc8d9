// States of the check that a further line is not lazy.

/// Names of the states of the check that a further line is not lazy.
#[derive(Clone, Copy)]
pub enum State {
    Start,
    After,
}
