// States of a definition.

/// Names of the states of a definition.
#[derive(Clone, Copy)]
pub enum State {
    Start,
    Before,
    LabelAfter,
    LabelNok,
    MarkerAfter,
    DestinationBefore,
    DestinationAfter,
    DestinationMissing,
    After,
    AfterWhitespace,
    TitleBefore,
    TitleBeforeMarker,
    TitleAfter,
    TitleAfterOptionalWhitespace,
}
