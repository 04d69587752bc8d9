// Containers: block quotes, list items and footnote definitions; and frontmatter, which is before all of them.
#![tactic(auto)]

pub mod block_quote;
pub mod frontmatter;
pub mod gfm_footnote_definition;
mod interrupts;
pub mod list_item;
pub mod plain_item;
mod room;
