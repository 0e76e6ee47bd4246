//! Pages of a pool that are free or would become free.
ghost use Rattle.std.specs.Prelude.{◌≡◌, ◌↔◌, ◌<◌, ◌≤◌, [], ◌∷◌, length, slice_index, true, IsTrue};
ghost use Rattle.iol_core.specs.Prelude.{is_numbered};
ghost use Rattle.iol_arena.specs.Prelude.{chunk_count, page_count};
ghost use Rattle.iol_hold.specs.Reclaimable.{is_reclaimable, is_spared, reclaimable_in, reclaimable_pages};

use crate::store::Store;
use iol_core::limits::CHUNK_PAGES;
use iol_core::numbers::{ChunkNo, PoolId};

const CHUNK: u32 = CHUNK_PAGES as u32;

// The entry of a table at an index, and 0 past its end.
fn entry_or_none(table: &[u64], place: u32) -> u64
    ensures { result ≡ slice_index table.now place }
{
    let place = place as usize;
    if place < table.len() {
        return table[place];
    }
    0
}

impl Store {
    // Whether the buffer that begins at a page has only the holds that `spared` counts.
    fn is_spared(&self, first: Option<u32>, spared: &[u64]) -> bool
        ensures { result ≡ is_spared self.now spared.now first }
    {
        match first {
            None => true,
            Some(first) => entry_or_none(&self.counts, first) <= entry_or_none(spared, first),
        }
    }

    // Whether a page is free, or would become free with the holds that `spared` counts.
    fn is_reclaimable(&self, page: u32, spared: &[u64]) -> bool
        requires { page < page_count self.now.arena }
        ensures { result ≡ is_reclaimable self.now spared.now page }
    {
        !self.arena.is_last(page) && self.is_spared(self.arena.first_on(page), spared)
    }

    // The number of such pages of a chunk.
    fn reclaimable_in(&self, chunk: ChunkNo, spared: &[u64]) -> u32
        requires { chunk < chunk_count self.now.arena }
        ensures { result ≡ length (reclaimable_in self.now spared.now (chunk ∷ [])) }
    {
        // Shows the number of pages.
        let _pages = self.arena.page_count();
        let mut count = 0;
        for i in 0..CHUNK {
            if self.is_reclaimable(chunk.number() * CHUNK + i, spared) {
                count += 1;
            }
        }
        count
    }

    /// Whether at least `pages` pages of a pool may be used, or would become free with the holds
    /// that `spared` counts for each buffer, by the buffer's first page. It reads pages in order,
    /// and stops at the first chunk that completes the number.
    pub fn can_free(&self, p: PoolId, pages: u32, spared: &[u64]) -> bool
        requires { is_numbered self.now.pools p ≡ true }
        ensures { IsTrue result ↔ (pages ≤ length (reclaimable_pages self.now spared.now p)) }
    {
        let chunks = self.pools.chunks(p).as_slice();
        let mut left = pages;
        for chunk in chunks {
            let here = self.reclaimable_in(*chunk, spared);
            if left <= here {
                return true;
            }
            left -= here;
        }
        left == 0
    }
}
