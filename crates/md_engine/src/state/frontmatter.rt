// States of frontmatter.

/// Names of the states of frontmatter.
#[derive(Clone, Copy)]
pub enum State {
    Start,
    OpenSequence,
    OpenAfter,
    CloseStart,
    CloseSequence,
    CloseAfter,
    ContentStart,
    ContentInside,
    ContentEnd,
    After,
}
