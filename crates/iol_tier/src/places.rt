//! Inserting keys into blocks, and removing them.
ghost use Rattle.std.specs.Prelude.{◌≡◌, ◌+◌, ◌-◌, ◌*◌, ◌<◌, ◌≤◌, ◌^◌, length, slice_index_or};
ghost use Rattle.iol_tier.specs.Blocks.{AreLaid, ComesIn, GoesOut, MayComeIn, MayGoOut, joined};

use crate::block::Block;
use crate::borders::{shift_left, shift_right};
use std::collections::VecDeque;

/// The number of places of a block.
pub(crate) const BLOCK: usize = 128;

// The number of places before the first of a block, not counting the first `skip`.
fn begin_of(skip: usize, block: usize) -> usize
    requires { block ≤ 2 ^ 48 }
    ensures { result ≡ block * 128 - skip }
{
    (block * BLOCK).saturating_sub(skip)
}

/// The key at a place.
pub(crate) fn key_at(blocks: &VecDeque<Block>, skip: usize, place: usize) -> usize
    requires laid { AreLaid blocks.now.items skip (length (joined blocks.now.items)) }
    requires within { place < length (joined blocks.now.items) }
    ensures { result ≡ slice_index_or (joined blocks.now.items) place result }
{
    let block = (skip + place) / BLOCK;
    blocks[block].at(place - begin_of(skip, block))
}

/// Inserts a key. A place is free before the first key.
pub(crate) fn put_left(blocks: &mut VecDeque<Block>, skip: usize, place: usize, key: usize)
    requires may { MayComeIn blocks.old.items skip (length (joined blocks.old.items)) place }
    requires free { 0 < skip }
    ensures { ComesIn (skip - 1) place key blocks.old.items blocks.new.items }
{
    let skip = skip - 1;
    let block = (skip + place) / BLOCK;
    shift_left(blocks, skip / BLOCK, block);
    blocks[block].insert(place - begin_of(skip, block), key);
}

/// Inserts a key. A place is free after the last key.
pub(crate) fn put_right(
    blocks: &mut VecDeque<Block>,
    skip: usize,
    len: usize,
    place: usize,
    key: usize,
)
    requires may { MayComeIn blocks.old.items skip len place }
    requires free { skip + len < length blocks.old.items * 128 }
    ensures { ComesIn skip place key blocks.old.items blocks.new.items }
{
    let block = (skip + place) / BLOCK;
    shift_right(blocks, (skip + len) / BLOCK, block);
    blocks[block].insert(place - begin_of(skip, block), key);
}

/// Removes a key. Its place becomes free before the first key.
pub(crate) fn take_left(blocks: &mut VecDeque<Block>, skip: usize, place: usize) -> usize
    requires { MayGoOut blocks.old.items skip (length (joined blocks.old.items)) place }
    ensures key { result ≡ slice_index_or (joined blocks.old.items) place result }
    ensures becomes { GoesOut (skip + 1) place blocks.old.items blocks.new.items }
{
    let block = (skip + place) / BLOCK;
    let key = blocks[block].remove(place - begin_of(skip, block));
    shift_right(blocks, block, skip / BLOCK);
    key
}

/// Removes a key. Its place becomes free after the last key.
pub(crate) fn take_right(
    blocks: &mut VecDeque<Block>,
    skip: usize,
    len: usize,
    place: usize,
) -> usize
    requires { MayGoOut blocks.old.items skip len place }
    ensures key { result ≡ slice_index_or (joined blocks.old.items) place result }
    ensures becomes { GoesOut skip place blocks.old.items blocks.new.items }
{
    let block = (skip + place) / BLOCK;
    let key = blocks[block].remove(place - begin_of(skip, block));
    shift_left(blocks, block, (skip + len - 1) / BLOCK);
    key
}
