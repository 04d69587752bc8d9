// Lists with room for what they will have, and pieces of a list, of which there may be less than is asked for.

ghost use Rattle.std.specs.Prelude.{◌≡◌, [], IfOk, take, drop};

use md_engine::message::Message;
use std::alloc::Global;

/// So many items at the front of a list, or all of it.
pub(crate) fn front<T>(items: &[T], len: usize) -> &[T]
    ensures { result.now ≡ take len items.now }
{
    if len < items.len() {
        items.split_at(len).0
    } else {
        items
    }
}

/// What is after so many items of a list.
pub(crate) fn after<T>(items: &[T], len: usize) -> &[T]
    ensures { result.now ≡ drop len items.now }
{
    if len < items.len() {
        items.split_at(len).1
    } else {
        items.split_at(items.len()).1
    }
}

/// An empty list with room for so many items.
///
/// An `Err` says that memory ran out.
pub(crate) fn with_room<T: Drop>(alloc: Global, room: usize) -> Result<Vec<T>, Message>
    ensures { IfOk result (λ made. made.items ≡ []) }
{
    match Vec::with_capacity(alloc, room) {
        Ok(made) => Ok(made),
        Err(_) => Err(Message),
    }
}
