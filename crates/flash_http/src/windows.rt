//! The result of the search for the next head of a stream.

/// The limit of a head in bytes, including the empty lines before it.
pub const MAX_HEAD_BYTES: usize = 8192;

/// The result of the search in the bytes received so far.
#[derive(Clone, Copy, Debug, PartialEq, Eq)]
pub enum Window {
    /// No head is complete yet.
    Wait,
    /// The head has `len` bytes, including the empty line at its end, after `skip` bytes of empty
    /// lines.
    Head { skip: usize, len: usize },
    /// The first `MAX_HEAD_BYTES` bytes contain no whole head. The response is 431, and the
    /// connection closes.
    TooLarge,
}
