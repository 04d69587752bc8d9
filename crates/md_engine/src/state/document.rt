// States of the document.

/// Names of the states of the document.
#[derive(Clone, Copy)]
pub enum State {
    Start,
    BeforeFrontmatter,
    ContainerExistingBefore,
    ContainerExistingAfter,
    ContainerNewBefore,
    ContainerNewBeforeNotBlockQuote,
    ContainerNewBeforeNotList,
    ContainerNewBeforeNotFootnoteDefinition,
    ContainerNewAfter,
    ContainersAfter,
    FlowInside,
    FlowEnd,
}
