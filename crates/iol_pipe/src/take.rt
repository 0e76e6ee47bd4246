//! The first bytes of a queue, taken or released without a test of access.
ghost use Rattle.std.specs.Prelude.{◌≡◌, length, drop, min, slice_index_or, ◌↔◌, ◌<◌, ◌≤◌, IsSome, IfSome, IsOk, IfOk, OnErr};
ghost use Rattle.iol_hold.specs.Prelude.{Covers, IsCountable, Releases, places, byte_len, bufs_of};
ghost use Rattle.iol_pipe.specs.Queue.{CutsFirst};

use crate::Pipe;
use iol_agg::Agg;
use iol_hold::{Slice, Store};
use std::alloc::{AllocError, Global};
use std::collections::VecDeque;

impl Pipe {
    /// Takes off the first `n` bytes, or all if there are fewer. It cuts the slice that holds the
    /// last of them there. If `n` is 0 or no byte is queued, it needs no memory.
    pub fn take(&mut self, alloc: Global, store: &mut Store, n: u32) -> Result<Agg, AllocError>
        requires covered { Covers store.old (bufs_of self.old) }
        requires countable { IsCountable store.old (bufs_of self.old) }
        ensures cuts { IfOk result (λ a. CutsFirst store.old store.new self.old a self.new n) }
        ensures none { min n (byte_len self.old) ≡ 0 → IsOk result }
        ensures err { OnErr result ((self.new ≡ self.old) × (store.new ≡ store.old)) }
    {
        Ok(self.take_off(alloc, store, n, None)?)
    }

    /// The slice with this index, counted from 0 in the order of the bytes, if there is one.
    pub fn slice(&self, i: usize) -> Option<&Slice>
        ensures there { IsSome result ↔ (i < length self.now) }
        ensures item { IfSome result (λ x. x.now ≡ slice_index_or self.now i x.now) }
    {
        self.queue.get(i)
    }

    /// Releases the first `n` bytes, or all if there are fewer. It allocates no memory.
    pub fn skip(&mut self, store: &mut Store, n: u32)
        requires { Covers store.old (bufs_of self.old) }
        ensures rest { places self.new ≡ drop n (places self.old) }
        ensures few { length self.new ≤ length self.old }
        ensures releases { Releases store.old store.new self.old self.new }
    {
        let skipped = self.len.min(n);
        skip_bytes(&mut self.queue, store, n);
        self.len -= skipped;
    }
}

// Releases the first n bytes, or all if there are fewer. It cuts the slice that holds the last of
// them there.
fn skip_bytes(queue: &mut VecDeque<Slice>, store: &mut Store, n: u32)
    requires { Covers store.old (bufs_of queue.old.items) }
    ensures rest { places queue.new.items ≡ drop n (places queue.old.items) }
    ensures few { length queue.new.items ≤ length queue.old.items }
    ensures releases { Releases store.old store.new queue.old.items queue.new.items }
{
    let mut left = n;
    while left > 0 {
        let Some(first) = queue.pop_front() else {
            return;
        };
        let len = first.len;
        if len > left {
            queue.push_front_reserved(first.cut(left, len));
            return;
        }
        left -= len;
        first.release(store);
    }
}
