//! The store: pages, pools, and the number of holds on each buffer.
ghost use Rattle.std.specs.Prelude.{◌≡◌, ◌<◌, ◌^◌, length, slice_range};
ghost use Rattle.std.specs.Ptr.{as_ptr};
ghost use Rattle.iol_arena.specs.Prelude.{HasRange, IsLive, SharesNoPage, address_of, bytes_of, live_pages};
ghost use Rattle.iol_hold.specs.StoreAndPools.{MakesStore};
ghost use Rattle.iol_hold.specs.Moves.{SharesHold};
ghost use Rattle.iol_hold.specs.Releases.{FreesBuffer, ReleasesHold, Reclaims};
ghost use Rattle.iol_hold.specs.StoreState.{SetsCount, count_of};

use crate::holds::Hold;
use iol_arena::arena::Arena;
use iol_core::configuration::Config;
use iol_core::limits::CHUNK_PAGES;
use iol_core::numbers::{BufId, PoolId};
use iol_core::refusals::Refusal;
use iol_pool::pools::Pools;
use std::alloc::Global;
use std::marker::Model;

/// Pages, pools, and the number of holds on each buffer.
#[derive(Drop)]
pub struct Store {
    pub(crate) arena: Arena,
    pub(crate) pools: Pools,

    // By the first page of a buffer.
    pub(crate) counts: Vec<u64>,
}

impl Model for Store {
    ghost use Rattle.iol_hold.specs.StoreState.{Stored};

    ghost Value = { Stored };

    ghost use Rattle.iol_hold.specs.View.{stored, IsSoundInside};

    ghost view = { stored };

    ghost invariant = { IsSoundInside };
}

impl Store {
    /// A store of free pages without pools. Returns `BadRange` exactly if the configuration is out
    /// of its ranges, and `Memory`.
    pub fn new(alloc: Global, config: Config) -> Result<Store, Refusal>
        ensures { MakesStore config result }
    {
        let arena = Arena::new(alloc, config)?;
        let pages = config.chunks as usize * CHUNK_PAGES;
        let counts = vec![in alloc; 0u64; pages]?;
        Ok(Store {
            arena,
            pools: Pools::new(alloc),
            counts,
        })
    }

    // The number of holds on a live buffer.
    fn count_at(&self, buf: BufId) -> u64
        requires { 0 < count_of self.now buf }
        ensures { result ≡ count_of self.now buf }
    {
        self.counts[buf.page as usize]
    }

    fn set_count(&mut self, buf: BufId, count: u64)
        requires live { 0 < count_of self.old buf }
        requires some { 0 < count }
        ensures { SetsCount self.old self.new buf.page count }
    {
        self.counts[buf.page as usize] = count;
    }

    /// The number of holds on a live buffer.
    pub fn count(&self, buf: BufId) -> u64
        requires { 0 < count_of self.now buf }
        ensures { result ≡ count_of self.now buf }
    {
        self.count_at(buf)
    }

    /// A further hold on the same buffer, which must have fewer than 2^63.
    pub fn share(&mut self, hold: &Hold) -> Hold
        requires live { 0 < count_of self.old hold.now.buf }
        requires few { count_of self.old hold.now.buf < 2 ^ 63 }
        ensures { SharesHold self.old self.new hold.now result }
    {
        let buf = hold.buf();
        let count = self.count_at(buf);
        self.set_count(buf, count + 1);
        Hold::new(hold.pool(), buf)
    }

    // Frees a buffer that has one hold.
    fn free(&mut self, buf: BufId)
        requires { count_of self.old buf ≡ 1 }
        ensures { FreesBuffer self.old self.new buf }
    {
        self.arena.free(buf);
    }

    // Returns the chunks of a closed pool, if all their pages are empty.
    fn reclaim(&mut self, pool: PoolId)
        ensures { Reclaims self.old self.new pool }
    {
        self.pools.reclaim(&mut self.arena, pool);
    }

    /// Releases a hold. With the last hold the buffer's pages are free at once, and the chunks of a
    /// closed pool are returned if all their pages are empty.
    pub fn release(&mut self, hold: Hold)
        requires { 0 < count_of self.old hold.buf }
        ensures { ReleasesHold self.old self.new hold }
    {
        let buf = hold.buf();
        let count = self.count_at(buf);
        if count > 1 {
            self.set_count(buf, count - 1);
        } else {
            self.free(buf);
            self.reclaim(hold.pool());
        }
    }

    /// The number of bytes of a live buffer.
    pub fn len(&self, hold: &Hold) -> u32
        requires { IsLive self.now.arena hold.now.buf }
        ensures { result ≡ length (bytes_of self.now.arena hold.now.buf) }
    {
        self.arena.len(hold.buf())
    }

    /// The bytes `from..to` of a live buffer, in place.
    pub fn bytes(&self, hold: &Hold, from: u32, to: u32) -> &[u8]
        requires { HasRange self.now.arena hold.now.buf from to }
        ensures value { result.now ≡ slice_range (bytes_of self.now.arena hold.now.buf) from to }
        ensures place { as_ptr result ≡ address_of self.now.arena hold.now.buf from }
    {
        self.arena.bytes(hold.buf(), from, to)
    }

    /// The number of live buffers. No two of them share a page.
    pub fn buffer_count(&self) -> u32
        ensures count { result ≡ length (live_pages self.now.arena) }
        ensures alone { SharesNoPage self.now.arena }
    {
        self.arena.buffer_count()
    }
}
