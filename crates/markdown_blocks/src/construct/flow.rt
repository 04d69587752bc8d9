// Flow: its states and its table.

pub use md_at_once::table::FlowTable;
pub use md_flow::flow::{
    after, before_code_indented, before_content, before_gfm_table, before_heading_atx,
    before_heading_setext, before_html, before_raw, before_thematic_break, blank_line_after,
    blank_line_before, call, leaf_after, start,
};
