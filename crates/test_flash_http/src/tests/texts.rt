//! Texts with a repeated part.
use std::alloc::{AllocError, Global};

/// A part repeated `count` times, between a text before it and a text after it.
pub fn repeated(
    alloc: Global,
    begin: &str,
    part: &str,
    count: usize,
    end: &str,
) -> Result<String, AllocError> {
    let mut text = String::from_str(alloc, begin)?;
    for _ in 0..count {
        text.push_str(part)?;
    }
    text.push_str(end)?;
    Ok(text)
}
