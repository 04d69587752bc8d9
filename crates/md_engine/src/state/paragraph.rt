// States of a paragraph.

/// Names of the states of a paragraph.
#[derive(Clone, Copy)]
pub enum State {
    Start,
    LineStart,
    Inside,
}
