//! Moving keys across the borders between blocks.
ghost use Rattle.std.specs.Prelude.{◌+◌, ◌-◌, ◌<◌, length};
ghost use Rattle.iol_tier.specs.Blocks.{CanCross, CanShiftLeft, CanShiftRight, MovesPlace};

use crate::block::Block;
use std::collections::VecDeque;

// The first key of the block after this one becomes its last.
fn pull(blocks: &mut VecDeque<Block>, at: usize)
    requires within { at + 1 < length blocks.old.items }
    requires can { CanCross at (at + 1) blocks.old.items }
    ensures { MovesPlace at (at + 1) blocks.old.items blocks.new.items }
{
    let key = blocks[at + 1].pop_front();
    blocks[at].push_back(key);
}

// The last key of this block becomes the first of the next.
fn push(blocks: &mut VecDeque<Block>, at: usize)
    requires within { at + 1 < length blocks.old.items }
    requires can { CanCross (at + 1) at blocks.old.items }
    ensures { MovesPlace (at + 1) at blocks.old.items blocks.new.items }
{
    let key = blocks[at].pop_back();
    blocks[at + 1].push_front(key);
}

/// Moves the free place in block `from` to block `to` after it.
pub(crate) fn shift_left(blocks: &mut VecDeque<Block>, from: usize, to: usize)
    requires { CanShiftLeft from to blocks.old.items }
    ensures { MovesPlace from to blocks.old.items blocks.new.items }
{
    for at in from..to {
        pull(blocks, at);
    }
}

/// Moves the free place in block `from` to block `to` before it.
pub(crate) fn shift_right(blocks: &mut VecDeque<Block>, from: usize, to: usize)
    requires { CanShiftRight from to blocks.old.items }
    ensures { MovesPlace from to blocks.old.items blocks.new.items }
{
    let mut at = from;
    while to < at {
        at -= 1;
        push(blocks, at);
    }
}
