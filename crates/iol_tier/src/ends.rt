//! Empty blocks at the ends.
ghost use Rattle.std.specs.Prelude.{◌+◌, ◌-◌, ◌*◌, ◌<◌, ◌≤◌, length, OnOk};
ghost use Rattle.iol_tier.specs.Blocks.{AddsBlocks, AreLaid, AreWide, Becomes, OpensEnd, Widens, joined};

use crate::block::Block;
use crate::places::BLOCK;
use std::alloc::{AllocError, Global};
use std::collections::VecDeque;

// Moves the last block, which is empty, to the front.
fn turn_right(blocks: &mut VecDeque<Block>, skip: usize)
    requires laid { AreLaid blocks.old.items skip (length (joined blocks.old.items)) }
    requires empty { skip + length (joined blocks.old.items) + 128 ≤ length blocks.old.items * 128 }
    ensures { Becomes (joined blocks.old.items) (skip + 128) blocks.old.items blocks.new.items }
{
    if let Some(block) = blocks.pop_back() {
        blocks.push_front_reserved(block);
    }
}

// Moves the first block, which is empty, to the end.
fn turn_left(blocks: &mut VecDeque<Block>, skip: usize)
    requires laid { AreLaid blocks.old.items skip (length (joined blocks.old.items)) }
    requires empty { 128 ≤ skip }
    ensures { Becomes (joined blocks.old.items) (skip - 128) blocks.old.items blocks.new.items }
{
    if let Some(block) = blocks.pop_front() {
        blocks.push_back_reserved(block);
    }
}

/// If a key is to be inserted from the left (or the right) and no place is free there, moves an empty block from the other end
/// there. Returns the number of places before the first key, and whether the key is to be inserted from the left.
pub(crate) fn open_end(
    blocks: &mut VecDeque<Block>,
    skip: usize,
    len: usize,
    left: bool,
) -> (usize, bool)
    requires laid { AreLaid blocks.old.items skip len }
    requires room { len < length blocks.old.items * 128 }
    ensures { OpensEnd len blocks.old.items blocks.new.items result.0 result.1 }
{
    let places = blocks.len() * BLOCK;
    if left && skip == 0 && len + BLOCK <= places {
        turn_right(blocks, skip);
        return (BLOCK, true);
    }
    if !left && skip + len == places && BLOCK <= skip {
        turn_left(blocks, skip);
        return (skip - BLOCK, false);
    }
    (skip, if left { skip > 0 } else { skip + len == places })
}

/// Appends empty blocks of this width up to a total of `count` blocks.
pub(crate) fn add_blocks(
    blocks: &mut VecDeque<Block>,
    alloc: Global,
    count: usize,
    width: usize,
) -> Result<(), AllocError>
    ensures adds { AddsBlocks count width blocks.old.items blocks.new.items }
    ensures count { OnOk result (count ≤ length blocks.new.items) }
{
    while blocks.len() < count {
        blocks.reserve(1)?;
        let mut block = Block::new(alloc);
        block.widen(width)?;
        blocks.push_back_reserved(block);
    }
    Ok(())
}

/// Enlarges each block to this width.
pub(crate) fn widen_blocks(blocks: &mut VecDeque<Block>, width: usize) -> Result<(), AllocError>
    ensures widens { Widens blocks.old.items blocks.new.items }
    ensures wide { OnOk result (AreWide blocks.new.items width) }
{
    for at in 0..blocks.len() {
        blocks[at].widen(width)?;
    }
    Ok(())
}
