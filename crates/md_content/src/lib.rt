// Content: lines that no other block takes, and what they hold.
#![tactic(auto)]

pub mod content;
pub mod definitions;
pub mod footnote_labels;
mod labels;
mod lines;
pub mod paragraph;
mod whole_definitions;
