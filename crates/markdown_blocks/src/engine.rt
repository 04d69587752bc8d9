// What a state is written with: the tokenizer and its primitives, events, and the table that calls states.

pub use md_engine::{configuration, event, message, state, subtokenize, table, tokenizer};
