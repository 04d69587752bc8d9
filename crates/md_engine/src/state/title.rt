// States of a title.

/// Names of the states of a title.
#[derive(Clone, Copy)]
pub enum State {
    Start,
    Begin,
    AfterEol,
    AtBreak,
    Inside,
    Escape,
    Nok,
}
