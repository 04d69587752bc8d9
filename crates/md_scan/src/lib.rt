// What the parser reads by plain functions over bytes: whitespace, columns, the text of a heading, labels and their
// normal form, parts of definitions.
#![tactic(auto)]

pub mod ahead;
pub mod bytes;
pub mod columns;
pub mod definition;
pub mod heading;
pub mod label;
pub mod lines;
pub mod memory;
pub mod table;
