// The line definition: which block tree a text means, and which labels it defines (`specs/`), with what is proved of it
// alone (`proofs/`), the words of an outline, and the names of HTML.
#![tactic(auto)]

pub mod alert;
pub mod html_names;
pub mod outline;
