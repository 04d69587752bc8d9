// Inline events: what a layer finds in a text part, as the events of the part.
//
// A layer reads the text of a part (`text`), without the prefixes and the indents of its lines, and finds parts in
// parts, down to pieces over bytes: a forest, which it lists as tokens (`token`). `writer` makes their events, chunk by
// chunk. What is not read, as an indent, has pieces of its own in them (`specs/Woven.antt`). The events of any forest
// over the text keep the promise of every layer.
#![tactic(auto)]

mod cursor;
mod events;
mod sides;
pub mod text;
pub mod token;
pub mod writer;
