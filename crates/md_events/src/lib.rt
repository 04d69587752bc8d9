// The seam between the engine and the constructs: whitespace, slices, the inline layer and the labels that it looks up,
// and what a list of events means (`specs/Events`).
#![tactic(auto)]

pub mod inline;
pub mod labels;
pub mod moving;
pub mod names;
pub mod parts;
pub mod plain;
pub mod rewriting;
pub mod slice;
pub mod space_or_tab;
pub mod subtokenize;
pub mod walks;
