// Small leaf blocks.
#![tactic(auto)]

pub mod blank_line;
pub mod further;
pub mod heading_atx;
pub mod heading_setext;
mod heading_text;
mod leaf_start;
pub mod partial_bom;
pub mod partial_non_lazy_continuation;
pub mod spans;
pub mod thematic_break;
