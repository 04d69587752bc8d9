// The values and laws of content: definitions, labels, paragraphs.
#![tactic(auto)]
