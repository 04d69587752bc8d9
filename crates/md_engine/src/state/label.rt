// States of a label.

/// Names of the states of a label.
#[derive(Clone, Copy)]
pub enum State {
    Start,
    AtBreak,
    EolAfter,
    Inside,
    Escape,
    Nok,
}
