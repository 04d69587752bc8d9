// Lists that grow.

use std::alloc::AllocError;

/// Adds a value.
pub(crate) fn push<T: Copy>(list: &mut Vec<T>, value: T) -> Result<(), AllocError> {
    match list.push(value) {
        Ok(()) => Ok(()),
        Err(_) => Err(AllocError),
    }
}
