// States of a footnote definition.

/// Names of the states of a footnote definition.
#[derive(Clone, Copy)]
pub enum State {
    Start,
    LabelBefore,
    LabelAtMarker,
    LabelInside,
    LabelEscape,
    LabelAfter,
    MarkerAfter,
    WhitespaceAfter,
}
