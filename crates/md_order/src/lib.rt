// What the resolvers of items, headings and tables make of events, one after the other; lists around items may be set
// first of all, or after headings and tables.
#![tactic(auto)]

pub mod wanted;
