// What the program `hoxalgurre` prints of a text.
//
// `report` (`report_on`) reads a text and makes one of seven reports. The others make what it needs: `outline` the
// blocks with their places, `spans` what is in them, `events` the records of events, `html` a page, `headings` the
// sections of a text, `toc` a table of contents, `labels` what is wrong with labels, from the references that
// `references` finds, `links` the links, and `tree` the syntax tree. `parts` reads a text part by part, `layer` with its
// inline content. `builder` makes the tree that `nodes` has, by the names of events (`names`), `source` the labels in it;
// `anchors` are those of its headings. `position` has the places of all reports.

mod anchors;
mod builder;
mod events;
mod headings;
mod html;
mod labels;
mod layer;
mod links;
mod names;
mod nodes;
mod outline;
mod parts;
pub mod position;
mod references;
pub mod report;
mod source;
mod spans;
mod toc;
mod tree;
