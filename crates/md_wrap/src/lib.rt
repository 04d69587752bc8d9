// Whole texts in a container.
#![tactic(auto)]

pub mod wrap;
