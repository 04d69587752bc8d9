// What programs print of a text by the parser: its outline (`blocks`) and its events (`events`).
#![tactic(auto)]

pub mod blocks;
pub mod events;
pub mod print;
pub mod printed;
pub mod run_blocks;
pub mod run_events;
