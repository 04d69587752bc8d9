// The constructs, one module each.

pub mod content;
pub mod definition;
pub mod document;
pub mod flow;
pub mod gfm_table;
pub mod heading_atx;
pub mod heading_setext;
pub mod list_item;
pub mod paragraph;

pub use md_containers::{block_quote, frontmatter, gfm_footnote_definition};
pub use md_leaves::{blank_line, partial_bom, partial_non_lazy_continuation, thematic_break};
pub use md_literal::{code_indented, html_flow, raw_flow};
