// The inline layer (`layer::Inlines`), which is handed to `parse_with`, and its reader: what the text of a part means, in
// one pass over it.
//
// The reader lists what it finds in a text as spans, in preorder: the order of the text, the outer before the inner.
// Where something is found only at its end, places for its spans are kept where it may begin, and are filled later.
#![tactic(auto)]

pub mod atom;
pub mod attention;
mod brackets;
pub mod content;
mod emails;
mod ends;
pub mod labels;
pub mod laws;
pub mod layer;
mod plain;
mod slices;
pub mod span;
pub mod strings;
pub mod target;
mod tokens;

pub use crate::layer::Inlines;
