//! The files by slot: their names and pools, and the cache of their extents in memory.
ghost use Rattle.std.specs.Prelude.{IfOk};

use crate::file_table::FileTable;
use iol_cache::Cache;
use iol_core::numbers::{FileId, PoolId};
use std::alloc::{AllocError, Global};

/// The files in slots from 1, with their extents in memory.
#[derive(Drop)]
pub(crate) struct Files {
    pub(crate) table: FileTable,
    pub(crate) cache: Cache,
}

impl Files {
    ghost use Rattle.iol_kernel.specs.FileNames.{AddsNamed, HasNone, MayName};

    /// No files, over `pages` pages.
    pub(crate) fn new(alloc: Global, pages: usize) -> Result<Files, AllocError>
        ensures { IfOk result (λ f. HasNone pages f) }
    {
        let cache = Cache::new(alloc, pages)?;
        Ok(Files {
            table: FileTable::new(alloc),
            cache,
        })
    }

    /// Adds a file of an open pool in the next slot, under a name that no other file has.
    pub(crate) fn add(
        &mut self,
        alloc: Global,
        name: &[u8],
        pool: PoolId,
    ) -> Result<FileId, AllocError>
        requires { MayName name.now self.old }
        ensures { AddsNamed name.now pool self.old result self.new }
    {
        let mut copy = Vec::with_capacity(alloc, name.len())?;
        copy.extend_from_slice(name)?;
        self.table.reserve()?;
        let file = self.cache.add_file(alloc, pool)?;
        self.table.add(copy, pool);
        Ok(file)
    }
}
