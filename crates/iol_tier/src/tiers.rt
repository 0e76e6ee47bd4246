//! A tiered vector of keys.
ghost use Rattle.std.specs.Prelude.{◌≡◌, ◌+◌, ◌-◌, ◌*◌, ◌<◌, ◌≤◌, ◌^◌, [], length, slice_index_or};
ghost use Rattle.iol_tier.specs.Tiers.{AreEnough, Inserts, IsMost, Removes, Reserves};

use crate::block::Block;
use crate::ends::{add_blocks, open_end, widen_blocks};
use crate::places::{BLOCK, key_at, put_left, put_right, take_left, take_right};
use std::alloc::{AllocError, Global};
use std::collections::VecDeque;
use std::marker::Model;

// The greatest number of keys.
const MOST: usize = 0x0040_0000_0000_0000;

/// Keys in order.
#[derive(Drop)]
pub struct TieredVec {
    blocks: VecDeque<Block>,

    // The number of free places before the first key.
    skip: usize,
    len: usize,
    room: usize,
}

impl Model for TieredVec {
    ghost use Rattle.std.specs.Prelude.{◌+◌, ◌*◌, ◌≤◌, length, min};
    ghost use Rattle.iol_tier.specs.Tiers.{Tiered};
    ghost use Rattle.iol_tier.specs.Blocks.{AreLaid, AreWide, joined};

    ghost Value = { Tiered };

    ghost view = { λ t. record { keys = joined t.blocks.items; room = t.room } };

    ghost invariant = { λ t. record {
      laid : AreLaid t.blocks.items t.skip t.len;
      room : t.len + t.room ≤ length t.blocks.items * 128;
      wide : AreWide t.blocks.items (min 128 (t.len + t.room));
    } };
}

// The number of blocks that `keys` keys need: one more than they fill, so that there is an empty block for either end.
fn blocks_for(keys: usize) -> usize
    requires { keys ≤ 2 ^ 54 }
    ensures { AreEnough result keys }
{
    if keys <= BLOCK { 1 } else { keys / BLOCK + 2 }
}

// The number of keys that `blocks` blocks can take, at least the `keys` that are requested.
fn most_in(blocks: usize, keys: usize) -> usize
    requires { AreEnough blocks keys }
    ensures { IsMost blocks keys result }
{
    if keys <= BLOCK {
        keys
    } else {
        (blocks - 1) * BLOCK
    }
}

impl TieredVec {
    /// A list without keys.
    pub fn new(alloc: Global) -> TieredVec
        ensures { result ≡ record { keys = []; room = 0 } }
    {
        TieredVec {
            blocks: VecDeque::new(alloc),
            skip: 0,
            len: 0,
            room: 0,
        }
    }

    /// Reserves room for `count` more keys. Never fails if there is as much room already. An error leaves the room unchanged.
    pub fn reserve(&mut self, count: usize) -> Result<(), AllocError>
        ensures { Reserves count self.old self.new result }
    {
        if count <= self.room {
            return Ok(());
        }
        if MOST.saturating_sub(self.len) < count {
            return Err(AllocError);
        }
        let total = self.len + count;
        let alloc = *self.blocks.allocator();
        add_blocks(&mut self.blocks, alloc, blocks_for(total), total.min(BLOCK))?;
        widen_blocks(&mut self.blocks, total.min(BLOCK))?;
        self.room = most_in(self.blocks.len(), total) - self.len;
        Ok(())
    }

    /// The number of keys.
    pub fn len(&self) -> usize
        ensures { result ≡ length self.now.keys }
    {
        self.len
    }

    /// The key at a place.
    pub fn at(&self, place: usize) -> usize
        requires { place < length self.now.keys }
        ensures { result ≡ slice_index_or self.now.keys place result }
    {
        key_at(&self.blocks, self.skip, place)
    }

    /// Inserts a key, in reserved room.
    pub fn insert(&mut self, place: usize, key: usize)
        requires place { place ≤ length self.old.keys }
        requires room { 0 < self.old.room }
        ensures { Inserts place key self.old self.new }
    {
        let (skip, left) = open_end(
            &mut self.blocks,
            self.skip,
            self.len,
            place < self.len - place,
        );
        if left {
            put_left(&mut self.blocks, skip, place, key);
            self.skip = skip - 1;
        } else {
            put_right(&mut self.blocks, skip, self.len, place, key);
            self.skip = skip;
        }
        self.len += 1;
        self.room -= 1;
    }

    /// Removes and returns a key.
    pub fn remove(&mut self, place: usize) -> usize
        requires { place < length self.old.keys }
        ensures { Removes place result self.old self.new }
    {
        let key = if place < self.len - place {
            self.skip += 1;
            take_left(&mut self.blocks, self.skip - 1, place)
        } else {
            take_right(&mut self.blocks, self.skip, self.len, place)
        };
        self.len -= 1;
        self.room += 1;
        key
    }
}
