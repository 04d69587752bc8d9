// The lines and the pieces of the exact list, and small texts with their exact lists, which a check computes.
#![tactic(auto)]
