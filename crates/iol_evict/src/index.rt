//! Sorted lists of a slab's keys.
ghost use Rattle.std.specs.Prelude.{◌≡◌, ◌+◌, ◌-◌, ◌/◌, ◌<◌};
ghost use Rattle.slab.specs.Slab.{ContainsKey};
ghost use Rattle.iol_evict.specs.Indexes.{AddsKey, Finds, HasRank, IsIndex, IsPlace, MayAdd, SetsHeight, TakesKey, entry_of};

use crate::entry::{By, Entry, Rank};
use crate::rank::{comes_before, rank_of};
use slab::Slab;
use std::collections::VecDeque;

/// The entry at a key.
pub(crate) fn read_entry(entries: &Slab<Entry>, key: usize) -> Entry
    requires { ContainsKey entries.now key }
    ensures { result ≡ entry_of entries.now key }
{
    entries[key]
}

/// Sets the height of the entry at a key.
pub(crate) fn write_height(slab: &mut Slab<Entry>, key: usize, height: u64)
    requires { ContainsKey slab.old key }
    ensures { SetsHeight slab.old slab.new key height }
{
    slab[key].height = height;
}

/// The number of keys before a rank.
pub(crate) fn position(entries: &Slab<Entry>, keys: &VecDeque<usize>, by: By, rank: &Rank) -> usize
    requires { IsIndex by entries.now keys.now.items }
    ensures { IsPlace by entries.now keys.now.items rank.now result }
{
    let mut low = 0;
    let mut high = keys.len();
    while low < high {
        let middle = low + (high - low) / 2;
        let entry = read_entry(entries, keys[middle]);
        if comes_before(&rank_of(by, &entry), rank) {
            low = middle + 1;
        } else {
            high = middle;
        }
    }
    low
}

/// The key whose entry has this rank.
pub(crate) fn find_key(entries: &Slab<Entry>, keys: &VecDeque<usize>, by: By, rank: &Rank) -> usize
    requires index { IsIndex by entries.now keys.now.items }
    requires there { HasRank by entries.now keys.now.items rank.now }
    ensures { Finds by entries.now keys.now.items rank.now result }
{
    keys[position(entries, keys, by, rank)]
}

/// Inserts a key in its place, in reserved room.
pub(crate) fn insert_key(entries: &Slab<Entry>, keys: &mut VecDeque<usize>, by: By, key: usize)
    requires index { IsIndex by entries.now keys.old.items }
    requires may { MayAdd entries.now key keys.old }
    ensures { AddsKey by entries.now key keys.old keys.new }
{
    let entry = read_entry(entries, key);
    let place = position(entries, keys, by, &rank_of(by, &entry));
    let _inserted = keys.insert(place, key);
}

/// Removes the key whose entry has this rank.
pub(crate) fn remove_key(
    entries: &Slab<Entry>,
    keys: &mut VecDeque<usize>,
    by: By,
    rank: &Rank,
) -> usize
    requires index { IsIndex by entries.now keys.old.items }
    requires there { HasRank by entries.now keys.old.items rank.now }
    ensures { TakesKey by entries.now rank.now result keys.old keys.new }
{
    let place = position(entries, keys, by, rank);
    let key = keys[place];
    let _taken = keys.remove(place);
    key
}
