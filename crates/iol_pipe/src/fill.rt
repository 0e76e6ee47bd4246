//! New bytes at the end of a queue, in buffers of their own.
ghost use Rattle.std.specs.Prelude.{◌≡◌, ◌+◌, ◌≤◌, length, false, IsOk, IfOk, IfErr, OnErr};
ghost use Rattle.std.specs.List.{All};
ghost use Rattle.std.specs.VecDeque.{deque_len, deque_capacity};
ghost use Rattle.iol_core.specs.Prelude.{WantOfRoom};
ghost use Rattle.iol_pool.specs.Prelude.{pool_in};
ghost use Rattle.iol_hold.specs.Prelude.{ReportsRoom, has_room, IsFilled};
ghost use Rattle.iol_pipe.specs.NewBytes.{AddsFitting, AddsWhole};
ghost use Rattle.iol_pipe.specs.Queue.{fitting};

use crate::Pipe;
use iol_core::limits::{MAX_QUEUE_BYTES, PAGE_BYTES};
use iol_core::numbers::PoolId;
use iol_core::refusals::Refusal;
use iol_hold::{Holds, Slice, Store};
use std::alloc::Global;
use std::collections::VecDeque;

impl Pipe {
    /// Takes in new bytes of an open pool, as many as fit, and returns their number. They are
    /// stored in new buffers on the lowest free pages of the pool. If no byte fits, or the list is
    /// empty, it takes no page.
    pub fn fill(
        &mut self,
        alloc: Global,
        store: &mut Store,
        pool: PoolId,
        bytes: &[u8],
    ) -> Result<u32, Refusal>
        requires { (pool_in store.old.pools pool).closed ≡ false }
        ensures adds { IfOk result (AddsFitting store.old store.new self.old self.new pool
            bytes.now) }
        ensures room { ReportsRoom (has_room store.old pool (fitting self.old (length bytes.now)))
            result }
        ensures late { IfErr result (WantOfRoom pool) }
        ensures none { fitting self.old (length bytes.now) ≡ 0 → IsOk result }
        ensures err { OnErr result ((self.new ≡ self.old) × (store.new ≡ store.old)) }
    {
        let room = MAX_QUEUE_BYTES - self.len as usize;
        let taken = bytes.len().min(room);
        if taken == 0 {
            return Ok(0);
        }
        self.queue.reserve(taken.div_ceil(PAGE_BYTES))?;
        let holds = store.fill(alloc, pool, &bytes[..taken])?;
        add_whole(&mut self.queue, store, holds);
        self.len += taken as u32;
        Ok(taken as u32)
    }
}

// Adds one slice per buffer: the whole buffer.
pub(crate) fn add_whole(queue: &mut VecDeque<Slice>, store: &Store, holds: Holds)
    requires filled { All (IsFilled store.now) holds }
    requires room { deque_len queue.old + length holds ≤ deque_capacity queue.old }
    ensures { AddsWhole store.now queue.old.items queue.new.items holds }
{
    let mut left = holds;
    while let Some(hold) = left.take_first() {
        queue.push_back_reserved(Slice::whole(store, hold));
    }
}
