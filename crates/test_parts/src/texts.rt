//! Bytes of some length.
use std::alloc::{AllocError, Global};

/// `len` bytes, each different from the byte 251 positions before.
pub fn bytes_of(alloc: Global, len: usize) -> Result<Vec<u8>, AllocError> {
    let mut bytes = Vec::with_capacity(alloc, len)?;
    for place in 0..len {
        bytes.push((place % 251) as u8)?;
    }
    Ok(bytes)
}

/// These bytes, repeated `count` times.
pub fn repeated(alloc: Global, part: &[u8], count: usize) -> Result<Vec<u8>, AllocError> {
    let mut bytes = Vec::new(alloc);
    for _ in 0..count {
        bytes.extend_from_slice(part)?;
    }
    Ok(bytes)
}
