// The values and laws of containers: quotes, items and footnote definitions.
#![tactic(auto)]
