// The lines of a text as rows and groups, the events of each, and what each line does to what is open.
#![tactic(auto)]
