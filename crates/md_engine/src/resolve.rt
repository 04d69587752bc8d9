// Resolvers: walks over the finished events that set right what one state alone cannot see.

pub mod name;

pub use crate::resolve::name::Name;
