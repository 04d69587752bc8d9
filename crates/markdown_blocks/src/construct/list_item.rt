// List items: their states and the resolver that puts lists around them.

pub use md_containers::list_item::{
    after, before, before_ordered, before_unordered, call, cont_blank, cont_filled, cont_start,
    marker, marker_after, marker_after_filled, may_begin, prefix_other, start, takes_at_once,
    value, whitespace, whitespace_after,
};
pub use md_resolve::list_item::resolve;
