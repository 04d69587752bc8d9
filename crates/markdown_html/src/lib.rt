// The HTML of a text, made from its events: blocks and what an inline layer finds in them.
//
// `document` lists what is known only further on, where definitions lead and which footnotes are called (`survey`,
// `notes`), and has `page` walk the events once and write: those of the whole text, or of one part after the other. What
// a link or a list shows further on is looked up where it begins: `media` and `targets` say where links lead, `loose`
// which lists are loose, `ahead` the rest. `tags` says what is written around the parts of a text, `inside` writes what
// is in a text, `table` cells, `footnotes` calls and their section, `address` addresses, `spelled` strings. `writer` is
// where all of them write, and `texts` what pieces of a text mean.
#![tactic(auto)]

mod address;
mod ahead;
mod document;
mod footnotes;
mod inside;
mod known;
mod lists;
mod loose;
mod media;
mod memory;
mod notes;
mod options;
mod page;
mod spelled;
mod survey;
mod table;
mod tags;
mod targets;
pub mod texts;
mod writer;

pub use crate::document::{html, html_bytes, html_of, html_with_ids, html_with_least};
pub use crate::options::{HtmlOptions, LineEnding};
