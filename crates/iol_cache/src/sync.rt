//! Writing back of dirty extents.
ghost use Rattle.std.specs.Prelude.{◌≡◌, ◌^◌, true};
ghost use Rattle.iol_core.specs.Prelude.{is_numbered};
ghost use Rattle.iol_cache.specs.Cache.{cached_of};
ghost use Rattle.iol_cache.specs.SharedBytes.{CountsBelow};
ghost use Rattle.iol_cache.specs.Sound.{IsSound};
ghost use Rattle.iol_cache.specs.WriteBack.{MayReclaim, MaySync, MayWriteBack, Reclaims, WritesAll, WritesBack, WritesFirst, WritesOne};

use crate::cache::Cache;
use crate::marks::CleanHolds;
use crate::rank::enter_one;
use iol_back::backing::{Backing, StoreFault};
use iol_core::numbers::FileId;
use iol_core::refusals::Refusal;
use iol_evict::order::Order;
use iol_extent::extents::Extents;
use iol_hold::{Slice, Store};

/// The result of `flush_one`.
#[derive(Clone, Copy, Debug, PartialEq, Eq)]
pub enum Flushed {
    /// No extent is dirty.
    Nothing,
    /// The first dirty extent was written. It is of this file.
    Wrote { file: FileId },
}

// Writes slices back to a file from byte `at`, one write per slice, up to the first that fails.
fn write_back<B: Backing>(
    store: &Store,
    backing: &mut B,
    file: FileId,
    at: u32,
    slices: &[Slice],
) -> Result<(), StoreFault>
    requires { MayWriteBack store.now at slices.now }
    ensures { WritesBack file at store.now slices.now (B.disk backing.old) (B.disk backing.new)
        result }
{
    let mut to = at;
    for slice in slices {
        match backing.write_at(file, to, slice.bytes(store)) {
            Ok(()) => {}
            Err(fault) => return Err(fault),
        }
        to += slice.len;
    }
    Ok(())
}

// Makes the first dirty extent clean, which begins at byte `at`: marks its pages, and inserts its
// entry into the order, in the room kept for it.
fn reclaim(order: &mut Order, marks: &mut CleanHolds, extents: &mut Extents, file: FileId, at: u32)
    requires { MayReclaim file at extents.old order.old marks.old }
    ensures { Reclaims file at extents.old extents.new order.old order.new marks.old marks.new }
{
    order.give_back();
    enter_one(order, marks, extents, file, at);
    extents.clean(at);
}

impl Cache {
    // Writes the first dirty extent of a file back and makes it clean. Returns false if no extent
    // is dirty.
    fn store_first<B: Backing>(
        &mut self,
        store: &Store,
        backing: &mut B,
        file: FileId,
    ) -> Result<bool, Refusal>
        requires { MaySync store.now file (cached_of self.old) }
        ensures { WritesFirst store.now file (cached_of self.old) (cached_of self.new)
            (B.disk backing.old) (B.disk backing.new) result }
    {
        let place = file.number() as usize - 1;
        let pool = self.files[place].pool;
        let Some((at, agg)) = self.files[place].extents.first_dirty() else {
            return Ok(false);
        };
        if let Err(_fault) = write_back(store, backing, file, at, agg.slices()) {
            return Err(Refusal::Fault { file });
        }
        reclaim(
            &mut self.orders[pool.number() as usize - 1],
            &mut self.marks,
            &mut self.files[place].extents,
            file,
            at,
        );
        Ok(true)
    }

    /// Writes all dirty extents of a file back, in the order of offsets, up to the first write that
    /// fails. The written extents become clean. Needs no memory.
    ///
    /// Returns `Fault` if the store fails. The extent whose write failed and those after it stay
    /// dirty.
    pub fn sync<B: Backing>(
        &mut self,
        store: &Store,
        backing: &mut B,
        file: FileId,
    ) -> Result<(), Refusal>
        requires sound { IsSound store.now (cached_of self.old) }
        requires file { is_numbered (cached_of self.old).files file ≡ true }
        requires few { CountsBelow store.now (2 ^ 61) }
        ensures { WritesAll file store.now self.old self.new (B.disk backing.old)
            (B.disk backing.new) result }
    {
        let mut more = true;
        while more {
            more = match self.store_first(store, backing, file) {
                Ok(more) => more,
                Err(refusal) => return Err(refusal),
            };
        }
        Ok(())
    }

    /// Writes the dirty extent with the least file and offset back and makes it clean. Needs no
    /// memory.
    ///
    /// Returns `Fault` of the extent's file if the store fails. Then no extent has become clean.
    pub fn flush_one<B: Backing>(
        &mut self,
        store: &Store,
        backing: &mut B,
    ) -> Result<Flushed, Refusal>
        requires sound { IsSound store.now (cached_of self.old) }
        requires few { CountsBelow store.now (2 ^ 61) }
        ensures { WritesOne store.now self.old self.new (B.disk backing.old) (B.disk backing.new)
            result }
    {
        for i in 0..self.files.len() {
            let file = FileId::new(i as u32 + 1);
            let wrote = match self.store_first(store, backing, file) {
                Ok(wrote) => wrote,
                Err(refusal) => return Err(refusal),
            };
            if wrote {
                return Ok(Flushed::Wrote { file });
            }
        }
        Ok(Flushed::Nothing)
    }
}
