//! Aggregates made of the bytes of others, by reference.
ghost use Rattle.std.specs.Prelude.{◌+◌, ◌-◌, ◌<◌, ◌≤◌, ◌^◌};
ghost use Rattle.iol_hold.specs.Prelude.{Covers, IsCountable, places, byte_len, bufs_of};
ghost use Rattle.iol_agg.specs.Pours.{AddsRange, SharesPlaces, SharesRange, SharesReplaced, bufs_around};

use super::pour::pour;
use crate::aggregates::Agg;
use iol_hold::Store;
use std::alloc::{AllocError, Global};

impl Agg {
    /// A second aggregate of the same bytes. It shares their buffers and copies no byte. Fails only if there is no memory for its
    /// list of slices, and then changes nothing.
    pub fn dup(&self, alloc: Global, store: &mut Store) -> Result<Agg, AllocError>
        requires covered { Covers store.old (bufs_of self.now) }
        requires countable { IsCountable store.old (bufs_of self.now) }
        ensures { SharesPlaces store.old store.new (places self.now) (bufs_of self.now) result }
    {
        self.cut(alloc, store, 0, self.len)
    }

    /// Makes an aggregate of the bytes `from..to`. It shares their buffers and copies no byte. Fails only if there is no memory
    /// for its list of slices, and then changes nothing.
    pub fn cut(
        &self,
        alloc: Global,
        store: &mut Store,
        from: u32,
        to: u32,
    ) -> Result<Agg, AllocError>
        requires ordered { from ≤ to }
        requires within { to ≤ byte_len self.now }
        requires covered { Covers store.old (bufs_of self.now) }
        requires countable { IsCountable store.old (bufs_of self.now) }
        ensures { SharesRange store.old store.new self.now from to result }
    {
        let room = self.slices.len().min((to - from) as usize);
        let mut slices = Vec::with_capacity(alloc, room)?;
        pour(&self.slices, &mut slices, store, from, to);
        Ok(Agg {
            slices,
            len: to - from,
        })
    }

    /// Adds the bytes `from..to` of another aggregate. It shares their buffers and copies no byte. Fails only if there is no memory
    /// for the list of slices, and then changes nothing.
    pub fn add_range(
        &mut self,
        store: &mut Store,
        other: &Agg,
        from: u32,
        to: u32,
    ) -> Result<(), AllocError>
        requires ordered { from ≤ to }
        requires within { to ≤ byte_len other.now }
        requires small { byte_len self.old + (to - from) < 2 ^ 32 }
        requires covered { Covers store.old (bufs_of other.now) }
        requires countable { IsCountable store.old (bufs_of other.now) }
        ensures { AddsRange store.old store.new self.old self.new other.now from to result }
    {
        let room = other.slices.len().min((to - from) as usize);
        self.slices.reserve(room)?;
        pour(&other.slices, &mut self.slices, store, from, to);
        self.len += to - from;
        Ok(())
    }

    /// Makes an aggregate of these bytes with the bytes `from..to` replaced by those of another. It shares the buffers of both and
    /// copies no byte. Fails if it would have 2^32 bytes or more, or if there is no memory for its list of slices. An error
    /// changes nothing.
    pub fn replace(
        &self,
        alloc: Global,
        store: &mut Store,
        from: u32,
        to: u32,
        other: &Agg,
    ) -> Result<Agg, AllocError>
        requires ordered { from ≤ to }
        requires within { to ≤ byte_len self.now }
        requires covered { Covers store.old (bufs_of self.now) }
        requires other_covered { Covers store.old (bufs_of other.now) }
        requires countable { IsCountable store.old (bufs_around self.now other.now) }
        ensures { SharesReplaced store.old store.new self.now other.now from to result }
    {
        let Some(len) = (from + (self.len - to)).checked_add(other.len) else {
            return Err(AllocError);
        };
        let before = self.slices.len().min(from as usize);
        let after = self.slices.len().min((self.len - to) as usize);
        let mut slices = Vec::with_capacity(alloc, before + other.slices.len() + after)?;
        pour(&self.slices, &mut slices, store, 0, from);
        pour(&other.slices, &mut slices, store, 0, other.len);
        pour(&self.slices, &mut slices, store, to, self.len);
        Ok(Agg { slices, len })
    }
}
