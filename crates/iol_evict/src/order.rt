//! The order in which parts of files are evicted.
ghost use Rattle.std.specs.Prelude.{◌≡◌, ◌≢◌, ◌+◌, ◌-◌, ◌*◌, ◌/◌, ◌^◌, ◌<◌, ◌≤◌, [], All, None, OnOk};
ghost use Rattle.iol_evict.specs.Order.{KeepsRoom, Ranking, worth, entry_at, entry_or, entered, hit_at, left_at, evicted_at, with_one_kept, with_one_given_back};
ghost use Rattle.iol_evict.specs.Victims.{AreUsedBelow, FindsFirst, KeepsUsedBelow};

use crate::entries::Entries;
use crate::entry::{Entry, MAX_LOW, Rank};
use crate::users::InUse;
use iol_core::numbers::FileId;
use std::alloc::{AllocError, Global};
use std::marker::Model;

/// Parts of files, in the order in which they are evicted.
///
/// A contract sees L, the entries in the order of file and place, the room (the number of entries that can enter without
/// allocating), and the number of places kept in addition to it. Only `reserve` needs memory. Only `least` and `evict` go
/// through entries: `least` through those in use at the front, and `evict` through all once L exceeds 2^62.
#[derive(Drop)]
pub struct Order {
    entries: Entries,
    low: u64,
    // The number of kept places, a part of the room of the entries.
    kept: usize,
}

impl Model for Order {
    ghost use Rattle.std.specs.Prelude.{◌-◌, ◌≤◌};
    ghost use Rattle.iol_evict.specs.Order.{Ranking};
    ghost use Rattle.iol_evict.specs.declared.entry.TheConstants.{MAX_LOW};

    ghost Value = { Ranking };

    ghost view = { λ o. record {
      low = o.low;
      entries = o.entries.entries;
      room = o.entries.room - o.kept;
      kept = o.kept;
    } };

    ghost invariant = { λ o. record {
      low : o.low ≤ MAX_LOW;
      kept : o.kept ≤ o.entries.room;
    } };
}

// The height above L of a new entry.
fn worth_of(size: u32, cost: u32) -> u64
    requires { 0 < size }
    ensures worth { result ≡ worth size cost }
    ensures small { result < 2 ^ 56 }
{
    cost as u64 * 0x100_0000 / size as u64
}

impl Order {
    /// An order without entries and room. L is 0.
    pub fn new(alloc: Global) -> Order
        ensures { result ≡ record { low = 0; entries = []; room = 0; kept = 0 } }
    {
        Order {
            entries: Entries::new(alloc),
            low: 0,
            kept: 0,
        }
    }

    /// Reserves room for `count` more entries, in addition to the kept places. Needs no memory if there is as much room
    /// already. An error leaves the room unchanged.
    pub fn reserve(&mut self, count: usize) -> Result<(), AllocError>
        ensures room { OnOk result (count ≤ self.new.room) }
        ensures same { self.new ≡ record self.old { room = self.new.room } }
        ensures keeps { KeepsRoom count self.old.room self.new.room result }
    {
        if count <= self.entries.room() - self.kept {
            return Ok(());
        }
        let Some(places) = count.checked_add(self.kept) else {
            return Err(AllocError);
        };
        self.entries.reserve(places)?;
        Ok(())
    }

    /// Keeps a place of the room for a later entry, until it is given back.
    pub fn keep(&mut self)
        requires { 0 < self.old.room }
        ensures { self.new ≡ with_one_kept self.old }
    {
        // The kept places are a part of the room, which is counted in a usize.
        let _places = self.entries.room();
        self.kept += 1;
    }

    /// Gives a kept place back.
    pub fn give_back(&mut self)
        requires { 0 < self.old.kept }
        ensures { self.new ≡ with_one_given_back self.old }
    {
        self.kept -= 1;
    }

    /// Inserts the part of a file that begins at `at`, in reserved room.
    pub fn enter(&mut self, file: FileId, at: u32, size: u32, cost: u32)
        requires room { 0 < self.old.room }
        requires absent { entry_at self.old.entries file at ≡ None }
        requires sized { 0 < size }
        ensures { self.new ≡ entered self.old file at size cost }
    {
        let height = self.low + worth_of(size, cost);
        let entry = Entry {
            file,
            at,
            size,
            cost,
            height,
        };
        self.entries.insert(entry);
    }

    /// Counts a use of an entry: it gets the height with which it would enter now.
    pub fn hit(&mut self, file: FileId, at: u32)
        requires { entry_at self.old.entries file at ≢ None }
        ensures { self.new ≡ hit_at self.old file at }
    {
        let entry = self.entries.get(file, at);
        let height = self.low + worth_of(entry.size, entry.cost);
        self.entries.set_height(file, at, height);
    }

    /// Removes an entry for another reason than eviction: L does not change.
    pub fn leave(&mut self, file: FileId, at: u32)
        requires { entry_at self.old.entries file at ≢ None }
        ensures { self.new ≡ left_at self.old file at }
    {
        let _entry = self.entries.remove(file, at);
    }

    /// Evicts an entry: removes it, and sets L to its height. If that exceeds 2^62, it is subtracted from every height, and L
    /// is 0. `passed` is the rank where `least` may begin its search: it becomes the least rank if heights change.
    pub fn evict(&mut self, file: FileId, at: u32, passed: &mut Rank)
        requires { entry_at self.old.entries file at ≢ None }
        ensures evicted { self.new ≡ evicted_at self.old file at }
        ensures below { KeepsUsedBelow passed.old passed.new self.old.entries self.new.entries }
    {
        let entry = self.entries.remove(file, at);
        if entry.height <= MAX_LOW {
            self.low = entry.height;
            return;
        }
        self.entries.lower(entry.height);
        self.low = 0;
        *passed = Rank::least();
    }

    /// The file and place of the entry to evict next: the least by height, file and place of those that are not in use, or of
    /// all entries if each is in use. The search begins at `passed`, below which each entry has to be in use, and stores in
    /// `passed` where the next search may begin.
    pub fn least<U: InUse>(&self, users: &U, passed: &mut Rank) -> Option<(FileId, u32)>
        requires ask { All (λ e. U.can_ask users.now e.file e.at) self.now.entries }
        requires below { AreUsedBelow (U.in_use users.now) passed.old self.now.entries }
        ensures { FindsFirst (U.in_use users.now) passed.new self.now.entries result }
    {
        self.entries.least(users, passed)
    }

    /// L, the height of the last evicted entry.
    pub fn low(&self) -> u64
        ensures low { result ≡ self.now.low }
        ensures most { result ≤ MAX_LOW }
    {
        self.low
    }

    /// The height of an entry.
    pub fn height(&self, file: FileId, at: u32) -> u64
        requires { entry_at self.now.entries file at ≢ None }
        ensures { result ≡ (entry_or self.now.entries file at).height }
    {
        self.entries.get(file, at).height
    }
}
