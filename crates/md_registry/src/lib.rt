// Which constructs there are, in the order in which they are tried, and what the states of the document and of flow do
// by that.
#![tactic(auto)]

pub mod choices;
