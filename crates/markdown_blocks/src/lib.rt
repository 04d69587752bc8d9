// A parser of Markdown blocks.
#![tactic(auto)]

mod blocks;
pub mod construct;
mod definitions;
pub mod engine;
pub mod label;
pub mod parser;
mod part_places;
mod parts;
mod place;
pub mod plain;
pub mod seam;
mod sink;
mod text_parts;

pub use md_engine::{configuration, event, message, state, subtokenize, table, tokenizer};
pub use md_events::{inline, names, slice};
pub use md_flow::resolve;
pub use md_outline::outline;
pub use md_wrap::wrap;
