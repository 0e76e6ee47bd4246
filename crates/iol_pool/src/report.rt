//! Page counts of a pool.
use iol_core::numbers::PoolId;

/// The pages of a pool.
#[derive(Clone, Copy, Debug, PartialEq, Eq)]
pub struct PoolReport {
    pub pool: PoolId,

    /// All pages.
    pub pages: u32,

    /// The pages that may be used for new bytes.
    pub free: u32,

    /// The empty pages that are never used again: their generation is the last.
    pub retired: u32,
}
