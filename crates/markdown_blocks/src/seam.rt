// Where an inline layer meets the parser: what it implements, what it is given, and the layer that reads nothing.

pub use crate::plain::Plain;
pub use md_events::inline::{Chunk, Inline, PartKind, PartPlace, TextPart};
pub use md_events::labels::Labels;
pub use md_events::{names, slice};
