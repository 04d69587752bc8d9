// What the programs share that print what a text means: their arguments, statuses and messages, how they read and
// write, and the printed form of an outline.
#![tactic(auto)]

pub mod body;
pub mod failure;
pub mod output;
pub mod print;
pub mod printing;
pub mod run;
pub mod set;
mod streams;
pub mod system;
