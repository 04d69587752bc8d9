// The values and laws of leaf blocks, a folder for each.
#![tactic(auto)]
