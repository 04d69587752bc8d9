// States of a blank line.

/// Names of the states of a blank line.
#[derive(Clone, Copy)]
pub enum State {
    Start,
    After,
}
