// States of whitespace.

/// Names of the states of whitespace.
#[derive(Clone, Copy)]
pub enum State {
    Start,
    Inside,
    After,
}
