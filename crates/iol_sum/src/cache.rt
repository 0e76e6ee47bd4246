//! A cache of the sums of slices.
ghost use Rattle.std.specs.Prelude.{◌≡◌, ◌<◌, [], IfOk, IfSome};
ghost use Rattle.iol_core.specs.Text as text;
ghost use Rattle.iol_arena.specs.Prelude.{State};
ghost use Rattle.iol_hold.specs.Prelude.{slice_bytes, text_of, IsReadable, AllReadable};
ghost use Rattle.iol_sum.specs.Pieces.{IsSumOf};
ghost use Rattle.iol_sum.specs.Sums.{key_of, sum_kept, IsRight, Uses, UsesEach};

use crate::bytes::sum_of;
use crate::keys::Key;
use crate::pieces::combine;
use iol_hold::{Slice, Store};
use lru::LruCache;
use std::alloc::{AllocError, Global};
use std::marker::Model;
use std::num::NonZeroUsize;

/// The folded sums of the most recently used slices, by their keys.
#[derive(Drop)]
pub struct SumCache {
    sums: LruCache<Key, u16>,
}

impl Model for SumCache {
    ghost use Rattle.iol_sum.specs.Sums.{Sums};

    ghost Value = { Sums };

    ghost view = { λ c. record { entries = c.sums.entries; limit = c.sums.cap } };
}

impl SumCache {
    /// An empty cache with room for `sums` sums.
    pub fn new(alloc: Global, sums: u32) -> Result<SumCache, AllocError>
        requires { 0 < sums }
        ensures entries { IfOk result (λ c. c.entries ≡ []) }
        ensures limit { IfOk result (λ c. c.limit ≡ sums) }
        ensures right { IfOk result (λ c. (s : State) → IsRight s c) }
    {
        let limit = NonZeroUsize::new(sums as usize).unwrap();
        Ok(SumCache {
            sums: LruCache::new(alloc, limit)?,
        })
    }

    /// The folded sum of the slice's bytes.
    ///
    /// Its key becomes the most recently used. If the key is new and the cache is full, the least
    /// recently used key is removed. If memory runs out, the sum is returned all the same, and the
    /// cache is unchanged.
    pub fn sum(&mut self, store: &Store, slice: &Slice) -> u16
        requires readable { IsReadable store.now slice.now }
        requires right { IsRight store.now.arena self.old }
        ensures value { IsSumOf (slice_bytes store.now slice.now) result }
        ensures uses { Uses self.old (key_of slice.now) result self.new }
        ensures right { IsRight store.now.arena self.new }
    {
        let key = Key::of(slice);
        if let Some(sum) = self.sums.get(&key).copied() {
            return sum;
        }
        let sum = sum_of(slice.bytes(store));
        let _remembered = self.sums.put(key, sum);
        sum
    }

    /// The remembered sum of the slice's bytes, if there is one. The order of the keys is
    /// unchanged.
    pub fn remembered(&self, store: &Store, slice: &Slice) -> Option<u16>
        requires readable { IsReadable store.now slice.now }
        requires right { IsRight store.now.arena self.now }
        ensures kept { result ≡ sum_kept self.now (key_of slice.now) }
        ensures value { IfSome result (IsSumOf (slice_bytes store.now slice.now)) }
    {
        // Only the clauses use the store: the remembered sums are right for it.
        let _store = store;
        self.sums.peek(&Key::of(slice)).copied()
    }

    /// The folded sum of the bytes of the slices, concatenated. Each slice's sum is used in turn,
    /// as by [`sum`](SumCache::sum).
    pub fn sum_all(&mut self, store: &Store, slices: &[Slice]) -> u16
        requires readable { AllReadable store.now slices.now }
        requires right { IsRight store.now.arena self.old }
        ensures value { IsSumOf (text.bytes_of (text_of store.now slices.now)) result }
        ensures uses { UsesEach store.now self.old slices.now self.new }
        ensures right { IsRight store.now.arena self.new }
    {
        let mut sum = 0;
        let mut at_odd = false;
        for slice in slices {
            sum = combine(sum, at_odd, self.sum(store, slice));
            if slice.len % 2 == 1 {
                at_odd = !at_odd;
            }
        }
        sum
    }
}
