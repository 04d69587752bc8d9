// States of flow.

/// Names of the states of flow.
#[derive(Clone, Copy)]
pub enum State {
    Start,
    BlankLineBefore,
    BeforeCodeIndented,
    BeforeRaw,
    BeforeHtml,
    BeforeHeadingAtx,
    BeforeHeadingSetext,
    BeforeThematicBreak,
    BeforeGfmTable,
    BeforeContent,
    BlankLineAfter,
    LeafAfter,
    After,
}
