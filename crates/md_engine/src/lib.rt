// The engine of the parser: events, states, and a tokenizer that goes from state to state.
#![tactic(auto)]

pub mod class;
pub mod configuration;
pub mod event;
pub mod known_continuing;
pub mod known_run;
pub mod message;
pub mod parse_state;
pub mod resolve;
pub mod state;
pub mod stay;
pub mod subtokenize;
pub mod table;
pub mod tokenizer;
