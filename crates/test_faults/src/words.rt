//! Words for tests.
use std::alloc::{AllocError, Allocator};

/// The words that are between single spaces; two spaces in a row have an empty word between them.
pub fn words_of<A: Allocator + Copy>(alloc: A, text: &[u8]) -> Result<Vec<&[u8], A>, AllocError> {
    let mut words = Vec::new(alloc);
    for word in text.split(|byte| *byte == b' ') {
        words.push(word)?;
    }
    Ok(words)
}
