//! The cache of files.
ghost use Rattle.std.specs.Prelude.{◌≡◌, ℕ, ◌<◌, ◌≤◌, length, IfOk};
ghost use Rattle.iol_extent.specs.Prelude.{last_end};
ghost use Rattle.iol_cache.specs.CacheState.{AddsOrders, dirty_in_all, extents_in, extents_in_all};
ghost use Rattle.iol_cache.specs.Sound.{AddsFile, HasNoFile};

use crate::files::CachedFile;
use crate::marks::CleanHolds;
use iol_core::limits::{MAX_FILE_BYTES, MAX_FILES};
use iol_core::numbers::{FileId, PoolId};
use iol_evict::order::Order;
use iol_extent::extents::Extents;
use std::alloc::{AllocError, Global};

/// The extents of all files, and for each pool the order in which clean extents of its files are evicted.
#[derive(Drop)]
pub struct Cache {
    // By file number, from 1.
    pub(crate) files: Vec<CachedFile>,
    // By pool number, from 1.
    pub(crate) orders: Vec<Order>,
    pub(crate) marks: CleanHolds,
}

/// The number of extents in memory, and of those that are dirty.
#[derive(Clone, Copy, Debug, PartialEq, Eq)]
pub struct CacheReport {
    pub extents: usize,
    pub dirty: usize,
}

// Appends empty orders up to a total of `count`. If memory runs out, appends none.
fn add_orders(orders: &mut Vec<Order>, alloc: Global, count: usize) -> Result<(), AllocError>
    ensures { AddsOrders count orders.old.items orders.new.items result }
{
    if count <= orders.len() {
        return Ok(());
    }
    orders.reserve(count - orders.len())?;
    while orders.len() < count {
        orders.push_reserved(Order::new(alloc));
    }
    Ok(())
}

impl Cache {
    ghost use Rattle.iol_cache.specs.Cache.{cached_of};

    /// A cache without files, over an arena of `pages` pages.
    pub fn new(alloc: Global, pages: usize) -> Result<Cache, AllocError>
        ensures { IfOk result (λ c. HasNoFile pages (cached_of c)) }
    {
        Ok(Cache {
            files: Vec::new(alloc),
            orders: Vec::new(alloc),
            marks: CleanHolds::new(alloc, pages)?,
        })
    }

    /// Adds a file of an open pool and returns its number, the next one. No byte of it is in memory.
    pub fn add_file(&mut self, alloc: Global, pool: PoolId) -> Result<FileId, AllocError>
        requires { length (cached_of self.old).files < MAX_FILES }
        ensures { AddsFile pool (cached_of self.old) (cached_of self.new) result }
    {
        self.files.reserve(1)?;
        add_orders(&mut self.orders, alloc, pool.number() as usize)?;
        self.files.push_reserved(CachedFile {
            pool,
            extents: Extents::new(alloc),
        });
        Ok(FileId::new(self.files.len() as u32))
    }

    /// Counts the extents of all files.
    pub fn report(&self) -> CacheReport
        requires few { length (cached_of self.now).files ≤ MAX_FILES }
        requires short { (f : ℕ) →
            last_end (extents_in (cached_of self.now).files f) ≤ MAX_FILE_BYTES }
        ensures extents { result.extents ≡ extents_in_all (cached_of self.now).files }
        ensures dirty { result.dirty ≡ dirty_in_all (cached_of self.now).files }
    {
        let mut extents = 0;
        let mut dirty = 0;
        for file in &self.files {
            extents += file.extents.count();
            dirty += file.extents.count_dirty();
        }
        CacheReport { extents, dirty }
    }
}
