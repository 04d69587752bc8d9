// What shows a line of a leaf that continues.

use md_engine::event::{Content, Link};

/// The link of the begin of a line that continues the leaf of the line before.
pub const FURTHER: Link = Link {
    previous: true,
    next: false,
    content: Content::Flow,
};
