// The outline of the tree that a list of events spells out.
#![tactic(auto)]

pub mod outline;
