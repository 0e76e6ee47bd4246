//! Subtracting the same number from every height.
ghost use Rattle.std.specs.Prelude.{◌<◌, length};
ghost use Rattle.iol_evict.specs.declared.entry.By.TheVariants.{Place};
ghost use Rattle.iol_evict.specs.Indexes.{HasRoomAlone, IsIndex, Lowers, SortsAll};

use crate::entry::{By, Entry};
use crate::index::{insert_key, read_entry, write_height};
use slab::Slab;
use std::collections::VecDeque;

/// Subtracts `low` from the height of each entry; a height below it becomes 0.
pub(crate) fn lower_each(slab: &mut Slab<Entry>, keys: &VecDeque<usize>, low: u64)
    requires { IsIndex Place slab.old keys.now.items }
    ensures { Lowers low keys.now.items (length keys.now.items) slab.old slab.new }
{
    for i in 0..keys.len() {
        let key = keys[i];
        let entry = read_entry(slab, key);
        write_height(slab, key, entry.height.saturating_sub(low));
    }
}

/// Inserts all keys into an empty index by height, in reserved room.
pub(crate) fn insert_all(
    slab: &Slab<Entry>,
    keys: &VecDeque<usize>,
    by_height: &mut VecDeque<usize>,
)
    requires index { IsIndex Place slab.now keys.now.items }
    requires empty { HasRoomAlone (length keys.now.items) by_height.old }
    ensures { SortsAll slab.now keys.now.items by_height.old by_height.new }
{
    for i in 0..keys.len() {
        insert_key(slab, by_height, By::Height, keys[i]);
    }
}
