//! Aggregates.
ghost use Rattle.std.specs.Prelude.{◌≡◌, ◌<◌, ◌≤◌, ◌^◌, ◌↔◌, [], length, false, IsTrue, IfOk};
ghost use Rattle.std.specs.List.{All};
ghost use Rattle.std.specs.Vec.{vec_capacity};
ghost use Rattle.iol_core.specs.Text as text;
ghost use Rattle.iol_pool.specs.Prelude.{pool_in};
ghost use Rattle.iol_hold.specs.Prelude.{Covers, Releases, byte_len, text_of, bufs_of, AllReadable, IsFilled};
ghost use Rattle.iol_agg.specs.Parts.{located_parts, parts_of, whole_texts};
ghost use Rattle.iol_agg.specs.Wholes.{AreWhole, FillsAgg, MayAddWhole};

use crate::parts::{LocatedParts, Parts};
use iol_core::limits::PAGE_BYTES;
use iol_core::numbers::PoolId;
use iol_core::refusals::Refusal;
use iol_hold::{Holds, Slice, Store};
use std::alloc::{AllocError, Global};
use std::marker::Model;

mod join;
mod pour;
mod share;

/// Bytes that do not change, as a list of slices.
#[derive(Drop)]
pub struct Agg {
    slices: Vec<Slice>,
    len: u32,
}

impl Model for Agg {
    ghost use Rattle.std.specs.Prelude.{List, ◌≡◌};
    ghost use Rattle.iol_hold.specs.Prelude.{byte_len};
    ghost use Rattle.iol_hold.specs.declared.slices.Slice.{Slice};

    ghost Value = { List Slice };

    ghost view = { λ a. a.slices.items };

    ghost invariant = { λ a. a.len ≡ byte_len a.slices.items };
}

impl Agg {
    /// An aggregate of no bytes.
    pub fn new(alloc: Global) -> Agg
        ensures { result ≡ [] }
    {
        Agg {
            slices: Vec::new(alloc),
            len: 0,
        }
    }

    /// The bytes of slices, one after another.
    pub fn from_slices(slices: Vec<Slice>) -> Agg
        requires { byte_len slices.items < 2 ^ 32 }
        ensures { result ≡ slices.items }
    {
        let mut len = 0;
        for slice in &slices {
            len += slice.len;
        }
        Agg { slices, len }
    }

    /// Makes an aggregate of these bytes by copying them into new buffers on the lowest free pages of an open pool.
    /// Zero bytes take no page. Returns `NoRoom` only if the pool has fewer free pages than the bytes need, which is
    /// always so for more than `MAX_AGGREGATE_BYTES`, and `Memory`. An error changes nothing.
    pub fn fill(
        alloc: Global,
        store: &mut Store,
        pool: PoolId,
        bytes: &[u8],
    ) -> Result<Agg, Refusal>
        requires open { (pool_in store.old.pools pool).closed ≡ false }
        ensures { FillsAgg store.old store.new pool bytes.now result }
    {
        let slices = Vec::with_capacity(alloc, bytes.len().div_ceil(PAGE_BYTES))?;
        let holds = store.fill(alloc, pool, bytes)?;
        Ok(Agg::of_holds(slices, store, holds))
    }

    /// The bytes of whole buffers, one after another, as slices in a list that has room for them. The holds become the
    /// aggregate's. It takes no memory.
    pub fn of_holds(slices: Vec<Slice>, store: &Store, holds: Holds) -> Agg
        requires none { slices.items ≡ [] }
        requires filled { All (IsFilled store.now) holds }
        requires room { length holds ≤ vec_capacity slices }
        requires small { length (whole_texts store.now holds) < 2 ^ 32 }
        ensures { AreWhole store.now result holds }
    {
        let mut slices = slices;
        add_whole(&mut slices, store, holds);
        Agg::from_slices(slices)
    }

    /// The number of bytes.
    pub fn len(&self) -> u32
        ensures { result ≡ byte_len self.now }
    {
        self.len
    }

    /// Whether there is no byte.
    pub fn is_empty(&self) -> bool
        ensures { IsTrue result ↔ (byte_len self.now ≡ 0) }
    {
        self.len == 0
    }

    /// The slices, in order.
    pub fn slices(&self) -> &[Slice]
        ensures { result.now ≡ self.now }
    {
        self.slices.as_slice()
    }

    /// The bytes in place, slice by slice. No byte is copied.
    pub fn parts<'a>(&'a self, store: &'a Store) -> Parts<'a>
        requires { AllReadable store.now self.now }
        ensures { result ≡ parts_of store.now self.now }
    {
        Parts::new(store, self.slices.as_slice())
    }

    /// The same bytes. The contract says at which addresses they are.
    pub fn located_parts<'a>(&'a self, store: &'a Store) -> LocatedParts<'a>
        requires { AllReadable store.now self.now }
        ensures { result ≡ located_parts store.now self.now }
    {
        LocatedParts::new(store, self.slices.as_slice())
    }

    /// A copy of the bytes.
    pub fn to_vec(&self, alloc: Global, store: &Store) -> Result<Vec<u8>, AllocError>
        requires { AllReadable store.now self.now }
        ensures { IfOk result (λ bytes. bytes.items ≡ text.bytes_of (text_of store.now self.now)) }
    {
        let mut bytes = Vec::with_capacity(alloc, self.len as usize)?;
        for part in self.parts(store) {
            bytes.extend_from_slice(part)?;
        }
        Ok(bytes)
    }

    /// Releases all holds.
    pub fn release(self, store: &mut Store)
        requires { Covers store.old (bufs_of self) }
        ensures { Releases store.old store.new self [] }
    {
        let mut slices = self.slices;
        while let Some(slice) = slices.pop() {
            slice.release(store);
        }
    }
}

// Adds one slice for each whole buffer.
fn add_whole(slices: &mut Vec<Slice>, store: &Store, holds: Holds)
    requires { MayAddWhole store.now slices.old holds }
    ensures { AreWhole store.now slices.new.items holds }
{
    let mut left = holds;
    while let Some(hold) = left.take_first() {
        slices.push_reserved(Slice::whole(store, hold));
    }
}
