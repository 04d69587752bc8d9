// Resolvers: walks over the finished events that set right what one state alone cannot see.
#![tactic(auto)]

pub mod gfm_table;
pub mod heading_atx;
pub mod heading_setext;
mod heading_text;
mod items;
pub mod list_item;
pub mod pass;
mod underlines;
