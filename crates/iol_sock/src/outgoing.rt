//! Bytes to be sent, and segments of them.
ghost use Rattle.std.specs.Prelude.{◌≡◌, ◌+◌, ◌≤◌, ◌++◌, false, Some, IfErr, OnOk};
ghost use Rattle.std.specs.Vec.{vec_len, vec_capacity};
ghost use Rattle.iol_core.specs.Prelude.{first, bytes_of};
ghost use Rattle.iol_hold.specs.Prelude.{Covers, IsCountable, byte_len, text_of, bufs_of, AllReadable};
ghost use Rattle.iol_pool.specs.Prelude.{pool_in};
ghost use Rattle.iol_sock.specs.Calls.{QueuesNew, QueuesShared, Segments};
ghost use Rattle.iol_sock.specs.Refusals.{queue_refusals, IsPassed};
ghost use Rattle.iol_sock.specs.SentBytes.{MaySend, Sends};

use crate::connections::Connection;
use iol_agg::Agg;
use iol_core::limits::MAX_QUEUE_BYTES;
use iol_core::lists::Bytes;
use iol_core::numbers::PoolId;
use iol_core::refusals::Refusal;
use iol_hold::Store;
use iol_pipe::Pipe;
use iol_sum::{SumCache, checksum};
use std::alloc::{AllocError, Global};

/// Bytes that are sent at once, with the Internet checksum of these bytes only.
#[derive(Debug, Drop)]
pub struct Segment {
    pub bytes: Bytes,
    pub checksum: u16,
}

impl Connection {
    /// Whether `n` bytes may be queued, or the first refusal: `BrokenPipe` if the peer is gone,
    /// `WouldBlock` if `n` is not 0 and no byte fits.
    pub fn may_queue(&self, n: usize) -> Result<(), Refusal>
        ensures passed { OnOk result (IsPassed (queue_refusals self.now n)) }
        ensures refused { IfErr result (λ x. first (queue_refusals self.now n) ≡ Some x) }
    {
        if self.is_gone() {
            return Err(Refusal::BrokenPipe);
        }
        if n > 0 && self.unsent() as usize == MAX_QUEUE_BYTES {
            return Err(Refusal::WouldBlock);
        }
        Ok(())
    }

    /// Queues bytes to be sent, as many as fit, and returns their number. They are shared with the
    /// aggregate, which is unchanged.
    ///
    /// Errors: `BrokenPipe` if the peer is gone, `WouldBlock` if bytes are offered and none fits,
    /// then `Memory`. An empty aggregate needs no memory.
    pub fn queue(&mut self, store: &mut Store, from: &Agg) -> Result<u32, Refusal>
        requires covered { Covers store.old (bufs_of from.now) }
        requires countable { IsCountable store.old (bufs_of from.now) }
        ensures { QueuesShared store.old store.new self.old self.new from.now result }
    {
        self.may_queue(from.len() as usize)?;
        Ok(self.outgoing.push(store, from)?)
    }

    /// Queues new bytes of an open pool to be sent, as many as fit, and returns their number. They
    /// are stored in new buffers on the lowest free pages of the pool.
    ///
    /// Errors: those of [`queue`](Connection::queue), with `NoRoom` before `Memory`.
    pub fn write(
        &mut self,
        alloc: Global,
        store: &mut Store,
        pool: PoolId,
        bytes: &[u8],
    ) -> Result<u32, Refusal>
        requires { (pool_in store.old.pools pool).closed ≡ false }
        ensures { QueuesNew store.old store.new self.old self.new pool bytes.now result }
    {
        self.may_queue(bytes.len())?;
        self.outgoing.fill(alloc, store, pool, bytes)
    }

    /// Sends the first `max` bytes, or all if there are fewer. It combines their checksum from the
    /// sums of their slices, each of which is used as by [`SumCache::sum`].
    ///
    /// Errors: `BadRange` if `max` is 0, `WouldBlock` if nothing is to be sent, then `Memory`.
    pub fn segment(
        &mut self,
        alloc: Global,
        store: &mut Store,
        sums: &mut SumCache,
        max: u32,
    ) -> Result<Segment, Refusal>
        requires { MaySend store.old self.old.outgoing sums.old }
        ensures { Segments store.old store.new self.old self.new max sums.old sums.new result }
    {
        if max == 0 {
            return Err(Refusal::BadRange);
        }
        if self.unsent() == 0 {
            return Err(Refusal::WouldBlock);
        }
        Ok(send(&mut self.outgoing, alloc, store, sums, max)?)
    }
}

// Takes the first bytes off a queue, `max` or all, and returns them with the checksum of these
// bytes only.
fn send(
    queue: &mut Pipe,
    alloc: Global,
    store: &mut Store,
    sums: &mut SumCache,
    max: u32,
) -> Result<Segment, AllocError>
    requires { MaySend store.old queue.old sums.old }
    ensures { Sends store.old store.new queue.old queue.new max sums.old sums.new result }
{
    let len = queue.len().min(max);
    let mut bytes = Vec::with_capacity(alloc, len as usize)?;
    let sent = queue.take(alloc, store, max)?;
    copy_all(&mut bytes, store, &sent);
    let sum = sums.sum_all(store, sent.slices());
    sent.release(store);
    Ok(Segment {
        bytes: Bytes::from_vec(bytes),
        checksum: checksum(sum),
    })
}

// Adds the bytes of an aggregate to a list that has room for them.
fn copy_all(bytes: &mut Vec<u8>, store: &Store, from: &Agg)
    requires room { vec_len bytes.old + byte_len from.now ≤ vec_capacity bytes.old }
    requires readable { AllReadable store.now from.now }
    ensures { bytes.new.items ≡ bytes.old.items ++ bytes_of (text_of store.now from.now) }
{
    for part in from.parts(store) {
        let Ok(()) = bytes.extend_from_slice(part) else {
            unreachable!();
        };
    }
}
