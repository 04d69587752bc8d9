// What a layer finds in a text part, from left to right.

use md_engine::event::Name;

/// A step through the content of a text part.
#[derive(Clone, Copy, Debug, PartialEq, Eq)]
pub enum Token {
    /// A part begins.
    Enters(Name),
    /// The innermost part that is open ends; this is its name.
    Leaves(Name),
    /// A piece over so many bytes of the text. One over no byte is nothing: a place that a reader keeps free.
    Over(Name, usize),
}
