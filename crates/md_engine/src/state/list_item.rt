// States of a list item.

/// Names of the states of a list item.
#[derive(Clone, Copy)]
pub enum State {
    Start,
    Before,
    BeforeUnordered,
    BeforeOrdered,
    Value,
    Marker,
    MarkerAfter,
    MarkerAfterFilled,
    Whitespace,
    WhitespaceAfter,
    PrefixOther,
    After,
    ContStart,
    ContBlank,
    ContFilled,
}
