// Setext headings: their states and their resolver.

pub use md_leaves::heading_setext::{
    after, before, call, inside, is_whole, may_begin, may_turn, start, takes_at_once, turns_nothing,
};
pub use md_resolve::heading_setext::resolve;
