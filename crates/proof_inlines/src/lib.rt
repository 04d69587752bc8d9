// Any forest over a text part gives events that keep the promise of every inline layer, and the inline definition gives
// each text a forest over all of it.
#![tactic(auto)]
