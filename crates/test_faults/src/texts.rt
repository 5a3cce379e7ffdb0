//! Copies of the texts of files that tests make.
use std::alloc::{AllocError, Allocator};

/// A copy of the bytes of a file, if there is one.
pub fn copied<A: Allocator + Copy>(
    alloc: A,
    text: Option<&[u8]>,
) -> Result<Option<Vec<u8, A>>, AllocError> {
    match text {
        Some(text) => Ok(Some(text.to_vec(alloc)?)),
        None => Ok(None),
    }
}
