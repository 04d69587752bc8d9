// Tables: their states and their resolver.

pub use md_resolve::gfm_table::resolve;
pub use md_tables::gfm_table::{
    body_row_break, body_row_cell_before, body_row_data, body_row_escape, body_row_start, call,
    head_delimiter_before, head_delimiter_cell_after, head_delimiter_cell_before,
    head_delimiter_filler, head_delimiter_left_alignment_after, head_delimiter_nok,
    head_delimiter_right_alignment_after, head_delimiter_start, head_delimiter_value_before,
    head_row_before, head_row_break, head_row_cell_before, head_row_data, head_row_escape,
    head_row_start, may_begin, next, start, takes_at_once,
};
