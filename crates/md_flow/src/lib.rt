// The document and flow: the states that read the lines of a text, one call after another.
#![tactic(auto)]

pub mod constructs;
pub mod document;
pub mod flow;
pub mod resolve;
