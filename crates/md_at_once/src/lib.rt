// Several states in one call: what the machine of `md_flow` does call by call, taken at once, and the table that does
// so.
//
// `at_once` has prefixes, content and headings, `fences` and `html_lines` the further lines of fences and of HTML, and
// `line_ends` how a line ends in the same call. Each function promises a run of the states that it replaces
// (`IsFlowRun`), so the states of `md_flow` can be read without this crate. `table` has the table that the parser runs.
#![tactic(auto)]

mod at_once;
mod fences;
mod html_lines;
mod line_ends;
pub mod table;
