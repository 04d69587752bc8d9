// States of fenced code and math.

/// Names of the states of fenced code and math.
#[derive(Clone, Copy)]
pub enum State {
    Start,
    BeforeSequenceOpen,
    SequenceOpen,
    InfoBefore,
    Info,
    MetaBefore,
    Meta,
    AtNonLazyBreak,
    CloseStart,
    BeforeSequenceClose,
    SequenceClose,
    SequenceCloseAfter,
    ContentBefore,
    ContentStart,
    BeforeContentChunk,
    ContentChunk,
    After,
}
