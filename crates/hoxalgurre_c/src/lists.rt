// Lists that grow, and that are handed over to C.

use crate::shapes::Refusal;
use std::alloc::Global;
use std::{mem, ptr};

/// An empty list with room for so many.
pub(crate) fn with_room<T>(alloc: Global, room: usize) -> Result<Vec<T>, Refusal> {
    match Vec::with_capacity(alloc, room) {
        Ok(list) => Ok(list),
        Err(_) => Err(Refusal::NoMemory),
    }
}

/// Adds a value.
pub(crate) fn push<T: Copy>(list: &mut Vec<T>, value: T) -> Result<(), Refusal> {
    match list.push(value) {
        Ok(()) => Ok(()),
        Err(_) => Err(Refusal::NoMemory),
    }
}

/// Adds bytes.
pub(crate) fn extend(list: &mut Vec<u8>, bytes: &[u8]) -> Result<(), Refusal> {
    match list.extend_from_slice(bytes) {
        Ok(()) => Ok(()),
        Err(_) => Err(Refusal::NoMemory),
    }
}

/// Hands a list over: the block that C frees, and how many values it has. Of an empty list there is no block, and the
/// address is null.
pub(crate) fn handed<T: Drop>(list: Vec<T>) -> (*mut T, usize) {
    if list.is_empty() {
        return (ptr::null_mut(), 0);
    }
    let count = list.len();
    let mut list = list;
    let at = list.as_mut_ptr();
    mem::forget(list);
    (at, count)
}
