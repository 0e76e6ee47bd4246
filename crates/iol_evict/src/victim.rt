//! Finding the entry to evict next.
ghost use Rattle.std.specs.Prelude.{◌<◌};
ghost use Rattle.iol_evict.specs.Victims.{FindsIdle, KeysUsedBelow, MaySearch};

use crate::entry::{By, Entry, Rank};
use crate::index::{position, read_entry};
use crate::rank::rank_of;
use crate::users::InUse;
use iol_core::numbers::FileId;
use slab::Slab;
use std::collections::VecDeque;

/// The place of the first entry that is not in use, or else of the first entry. All entries below `passed` are in use: the
/// search begins there, and moves `passed` to the entry where it ends.
pub(crate) fn first_idle<U: InUse>(
    slab: &Slab<Entry>,
    keys: &VecDeque<usize>,
    users: &U,
    passed: &mut Rank,
) -> Option<(FileId, u32)>
    requires { MaySearch (U.can_ask users.now) (U.in_use users.now) passed.old slab.now
        keys.now.items }
    ensures first { FindsIdle (U.in_use users.now) slab.now keys.now.items result }
    ensures below { KeysUsedBelow (U.in_use users.now) passed.new slab.now keys.now.items }
{
    let from = position(slab, keys, By::Height, passed);
    for i in from..keys.len() {
        let entry = read_entry(slab, keys[i]);
        *passed = rank_of(By::Height, &entry);
        if !users.is_in_use(entry.file, entry.at) {
            return Some((entry.file, entry.at));
        }
    }
    if keys.is_empty() {
        return None;
    }
    let first = read_entry(slab, keys[0]);
    Some((first.file, first.at))
}
