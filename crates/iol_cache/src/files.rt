//! One file of the cache, and a part of one.
use iol_core::numbers::{FileId, PoolId};
use iol_extent::extents::Extents;

/// A file: the pool of its bytes, and its extents in memory.
#[derive(Drop)]
pub(crate) struct CachedFile {
    pub(crate) pool: PoolId,
    pub(crate) extents: Extents,
}

/// A part of a file: its bytes `from..to`.
#[derive(Clone, Copy)]
pub(crate) struct FilePart {
    pub(crate) file: FileId,
    pub(crate) from: u32,
    pub(crate) to: u32,
}
