// The parts of a definition, as states: whitespace with at most one line ending, labels, destinations and titles; and
// the definition that they make. And what is kept of an open text from line to line: how far definitions at its front
// have come, and its last line as the head of a table.
#![tactic(auto)]

pub mod definition;
pub mod destination;
pub mod head;
pub mod label;
pub mod open_text;
pub mod plain_destination;
pub mod progress;
pub mod space_or_tab_eol;
pub mod title;
