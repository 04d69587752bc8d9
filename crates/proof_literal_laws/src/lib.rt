// The values and laws of leaves whose lines are literal text: fences, indented code, HTML.
#![tactic(auto)]
