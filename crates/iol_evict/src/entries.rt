//! Entries, found by place and by height.
ghost use Rattle.std.specs.Prelude.{◌≡◌, ◌≢◌, ◌+◌, ◌-◌, ◌<◌, ◌≤◌, [], All, None, map};
ghost use Rattle.std.specs.VecDeque.{deque_len, deque_capacity};
ghost use Rattle.slab.specs.Slab.{get, HasRoomFor};
ghost use Rattle.iol_evict.specs.Indexes.{entry_of, IsIndexed, ReservesEntries, ReservesKeys};
ghost use Rattle.iol_evict.specs.Order.{MayPut, Reserves, Table, entry_at, entry_or, lowered_by, with_entry, with_height_at, without_entry};
ghost use Rattle.iol_evict.specs.Victims.{AreUsedBelow, FindsFirst};

use crate::entry::{By, Entry, Rank};
use crate::index::{find_key, insert_key, read_entry, remove_key, write_height};
use crate::lower::{insert_all, lower_each};
use crate::rank::rank_of;
use crate::users::InUse;
use crate::victim::first_idle;
use iol_core::numbers::FileId;
use slab::Slab;
use std::alloc::{AllocError, Global};
use std::collections::VecDeque;
use std::marker::Model;

/// Entries in a slab, with an index of its keys by file and place, and one by height, file and place.
///
/// Inserting or removing a key moves only the keys on its shorter side, so removing one near the front costs little.
#[derive(Drop)]
pub(crate) struct Entries {
    slab: Slab<Entry>,
    by_place: VecDeque<usize>,
    by_height: VecDeque<usize>,
    room: usize,
}

impl Model for Entries {
    ghost use Rattle.std.specs.Prelude.{◌≡◌, ◌+◌, ◌≤◌, map};
    ghost use Rattle.std.specs.VecDeque.{deque_len, deque_capacity};
    ghost use Rattle.slab.specs.Slab.{HasRoomFor};
    ghost use Rattle.iol_evict.specs.Order.{Table};
    ghost use Rattle.iol_evict.specs.Indexes.{entry_of, IsIndexed};

    ghost Value = { Table };

    ghost view = { λ e.
        record { entries = map (entry_of e.slab) e.by_place.items; room = e.room } };

    ghost invariant = { λ e. record {
      indexed : IsIndexed e.slab e.by_place.items e.by_height.items;
      slab_room : HasRoomFor e.slab e.room;
      lens : deque_len e.by_place ≡ deque_len e.by_height;
      place_room : deque_len e.by_place + e.room ≤ deque_capacity e.by_place;
      height_room : deque_len e.by_height + e.room ≤ deque_capacity e.by_height;
    } };
}

// The rank of a place in the index by file and place.
fn place_of(file: FileId, at: u32) -> Rank
    ensures { result ≡ record { height = 0; file = file; at = at } }
{
    Rank {
        height: 0,
        file,
        at,
    }
}

// Reserves room for `count` more, in each.
fn reserve_each(
    slab: &mut Slab<Entry>,
    by_place: &mut VecDeque<usize>,
    by_height: &mut VecDeque<usize>,
    count: usize,
) -> Result<(), AllocError>
    ensures slab { ReservesEntries count slab.old slab.new result }
    ensures places { ReservesKeys count by_place.old by_place.new result }
    ensures heights { ReservesKeys count by_height.old by_height.new result }
{
    slab.reserve(count)?;
    by_place.reserve(count)?;
    by_height.reserve(count)?;
    Ok(())
}

impl Entries {
    /// A table without entries.
    pub(crate) fn new(alloc: Global) -> Entries
        ensures { result ≡ record { entries = []; room = 0 } }
    {
        Entries {
            slab: Slab::new(alloc),
            by_place: VecDeque::new(alloc),
            by_height: VecDeque::new(alloc),
            room: 0,
        }
    }

    /// Reserves room for `count` more entries.
    pub(crate) fn reserve(&mut self, count: usize) -> Result<(), AllocError>
        ensures { Reserves count self.old self.new result }
    {
        if count <= self.room {
            return Ok(());
        }
        reserve_each(
            &mut self.slab,
            &mut self.by_place,
            &mut self.by_height,
            count,
        )?;
        self.room = count;
        Ok(())
    }

    /// The number of entries that can be inserted without allocating.
    pub(crate) fn room(&self) -> usize
        ensures { result ≡ self.now.room }
    {
        self.room
    }

    /// The entry at a place.
    pub(crate) fn get(&self, file: FileId, at: u32) -> Entry
        requires { entry_at self.now.entries file at ≢ None }
        ensures entry { result ≡ entry_or self.now.entries file at }
        ensures sized { 0 < result.size }
    {
        let key = find_key(&self.slab, &self.by_place, By::Place, &place_of(file, at));
        read_entry(&self.slab, key)
    }

    /// Inserts an entry, in reserved room.
    pub(crate) fn insert(&mut self, entry: Entry)
        requires { MayPut self.old entry }
        ensures { self.new ≡ with_entry self.old entry }
    {
        let key = self.slab.insert_reserved(entry);
        insert_key(&self.slab, &mut self.by_place, By::Place, key);
        insert_key(&self.slab, &mut self.by_height, By::Height, key);
        self.room -= 1;
    }

    /// Removes the entry at a place.
    pub(crate) fn remove(&mut self, file: FileId, at: u32) -> Entry
        requires { entry_at self.old.entries file at ≢ None }
        ensures entry { result ≡ entry_or self.old.entries file at }
        ensures rest { self.new ≡ without_entry self.old file at }
    {
        let key = remove_key(
            &self.slab,
            &mut self.by_place,
            By::Place,
            &place_of(file, at),
        );
        let entry = read_entry(&self.slab, key);
        remove_key(
            &self.slab,
            &mut self.by_height,
            By::Height,
            &rank_of(By::Height, &entry),
        );
        self.slab.remove(key);
        self.room += 1;
        entry
    }

    /// Sets the height of the entry at a place. If it has that height already, no key moves.
    pub(crate) fn set_height(&mut self, file: FileId, at: u32, height: u64)
        requires { entry_at self.old.entries file at ≢ None }
        ensures { self.new ≡ with_height_at self.old file at height }
    {
        let key = find_key(&self.slab, &self.by_place, By::Place, &place_of(file, at));
        let entry = read_entry(&self.slab, key);
        if entry.height == height {
            return;
        }
        remove_key(
            &self.slab,
            &mut self.by_height,
            By::Height,
            &rank_of(By::Height, &entry),
        );
        write_height(&mut self.slab, key, height);
        insert_key(&self.slab, &mut self.by_height, By::Height, key);
    }

    /// Subtracts `low` from every height; one below it becomes 0. Sorts all keys by height again, so callers should do this
    /// rarely.
    pub(crate) fn lower(&mut self, low: u64)
        ensures { self.new ≡ record self.old { entries = map (lowered_by low) self.old.entries } }
    {
        lower_each(&mut self.slab, &self.by_place, low);
        self.by_height.clear();
        insert_all(&self.slab, &self.by_place, &mut self.by_height);
    }

    /// The place of the entry to evict next. All entries below `passed` are in use.
    pub(crate) fn least<U: InUse>(&self, users: &U, passed: &mut Rank) -> Option<(FileId, u32)>
        requires ask { All (λ e. U.can_ask users.now e.file e.at) self.now.entries }
        requires below { AreUsedBelow (U.in_use users.now) passed.old self.now.entries }
        ensures { FindsFirst (U.in_use users.now) passed.new self.now.entries result }
    {
        first_idle(&self.slab, &self.by_height, users, passed)
    }
}
