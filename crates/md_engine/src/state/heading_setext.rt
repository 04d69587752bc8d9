// States of a setext heading.

/// Names of the states of a setext heading.
#[derive(Clone, Copy)]
pub enum State {
    Start,
    Before,
    Inside,
    After,
}
