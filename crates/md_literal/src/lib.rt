// Leaf blocks whose lines are text as it is, each read a line at a time: indented code, fenced code, math and HTML.
#![tactic(auto)]

pub mod code_indented;
pub mod fence_parts;
pub mod html_flow;
pub mod raw_flow;
