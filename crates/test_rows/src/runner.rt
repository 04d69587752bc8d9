// Tries bodies of the parser: on the rows of `test_rows`, on long and deep texts, on the laws of nesting, against each
// other, and whether their events nest and tile.

pub mod agree;
pub mod deep;
pub mod event_rows;
pub mod events;
pub mod laws;
pub mod long;
pub mod nasty;
pub mod report;
pub mod rows;
pub mod search;
pub mod sets;
pub mod task;
pub mod texts;
pub mod without;
pub mod wraps;
