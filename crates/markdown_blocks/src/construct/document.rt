// The document: its states and its table.

pub use md_flow::document::{
    DocumentTable, before_frontmatter, before_opener, call, container_existing_after,
    container_existing_before, container_new_after, container_new_before,
    container_new_before_not_block_quote, container_new_before_not_footnote_definition,
    container_new_before_not_list, containers_after, flow_end, flow_inside, start,
};
