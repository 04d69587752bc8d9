// States of an ATX heading.

/// Names of the states of an ATX heading.
#[derive(Clone, Copy)]
pub enum State {
    Start,
    Before,
    SequenceOpen,
    AtBreak,
    SequenceFurther,
    Data,
}
