// The events of each line of a leaf, of the front, of definitions and of texts are those of the exact list.
#![tactic(auto)]
