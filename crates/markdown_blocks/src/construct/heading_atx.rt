// ATX headings: their states and their resolver.

pub use md_leaves::heading_atx::{
    at_break, before, call, data, may_begin, opening, opens, sequence_further, sequence_open,
    start, takes_at_once, text,
};
pub use md_resolve::heading_atx::resolve;
