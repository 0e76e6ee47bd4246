//! A part of a file in an order.
use iol_core::numbers::FileId;

/// The greatest L, 2^62. L is the height of the last evicted entry. If it would exceed this, L is subtracted from every
/// height and becomes 0, so that no height overflows; the order of the entries does not change.
pub const MAX_LOW: u64 = 0x4000_0000_0000_0000;

/// A part of a file: where it begins, its size in bytes, the cost of reading it again, and its height in the order.
#[derive(Clone, Copy, Debug, PartialEq, Eq)]
pub struct Entry {
    pub file: FileId,
    pub at: u32,
    pub size: u32,
    pub cost: u32,
    pub height: u64,
}

/// The key of an index: file and place, or height, file and place.
#[derive(Clone, Copy)]
pub(crate) enum By {
    Place,
    Height,
}

/// The rank of an entry in an index: height, file and place. In the index by file and place each height is 0.
#[derive(Clone, Copy)]
pub struct Rank {
    pub(crate) height: u64,
    pub(crate) file: FileId,
    pub(crate) at: u32,
}
