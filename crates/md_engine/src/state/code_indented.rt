// States of indented code.

/// Names of the states of indented code.
#[derive(Clone, Copy)]
pub enum State {
    Start,
    AtBreak,
    InsideBlank,
    Inside,
    After,
    FurtherStart,
    FurtherLine,
    FurtherBegin,
    FurtherAfter,
    FurtherInside,
}
