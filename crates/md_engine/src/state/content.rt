// States of content.

/// Names of the states of content.
#[derive(Clone, Copy)]
pub enum State {
    ChunkStart,
    ChunkInside,
    DefinitionBefore,
    DefinitionAfter,
}
