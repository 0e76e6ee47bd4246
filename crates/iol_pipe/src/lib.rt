//! Pipes: queues of at most 65,536 bytes, as slices.
//!
//! A pipe holds a reference to the buffer of each of its slices. Pushed slices are shared, and
//! slices that are taken off move: no byte is copied.
//!
//! The contract. Bytes in: `push` (`shares`: the longest prefix that fits), `fill` (`adds`: new
//! bytes on the lowest free pages of a pool; `room`, `late`), `fill_from` (`read`, `reported`: the
//! bytes of one read, in place). Bytes off: `front` (`gives`: the longest prefix of at most n bytes
//! whose pools all name the domain), `take` (`cuts`: the first n bytes), `skip` and `clear`
//! (`releases`). A refused call changes nothing (`err`). Queries: `len`, `is_empty`, `first_pool`,
//! `slice`. The definitions are in `specs/Queue`, `specs/NewBytes`, `specs/Arrivals` and in
//! iol_hold.
//!
//! The number of slices is part of the contract, since each slice costs a reference, a write and a
//! remembered sum. `push` adds the slices of the aggregate, of which only the last may be cut
//! (`parts`); `fill` and `fill_from` add at most one slice per page (`few` of `AddsBytes`); `front`
//! and `take` give the first slices whole, and of the last one at most a part (`cut`). They and
//! `skip` leave no more slices than before (`left`, `few`).
//!
//! ```
//! let taken = pipe.push(&mut store, &agg)?;
//! let read = pipe.front(alloc, &mut store, taken, reader)?;
//! ```
#![tactic(auto)]

ghost use Rattle.std.specs.Prelude.{◌≡◌, ◌+◌, ◌≤◌, ◌↔◌, min, [], length, IsTrue, IsOk, IfOk, OnErr};
ghost use Rattle.std.specs.VecDeque.{deque_len, deque_capacity};
ghost use Rattle.iol_hold.specs.Prelude.{Covers, IsCountable, Releases, byte_len, bufs_of};
ghost use Rattle.iol_agg.specs.Prelude.{AreShareable};
ghost use Rattle.iol_pipe.specs.NewBytes.{SharesFitting, SharesPrefix};
ghost use Rattle.iol_pipe.specs.Queue.{GivesFirst, IsEmptyFor, MayTakeFirst, TakesFirst, TakesOff, TakesSlice, first_pool, fitting, names_given};

mod arrive;
mod copy;
mod fill;
mod take;

pub use arrive::Arrived;
use iol_agg::Agg;
use iol_core::limits::MAX_QUEUE_BYTES;
use iol_core::numbers::{DomainId, PoolId};
use iol_hold::{Slice, Store};
use std::alloc::{AllocError, Global};
use std::collections::VecDeque;
use std::marker::Model;

/// A queue of at most `MAX_QUEUE_BYTES` bytes.
#[derive(Drop)]
pub struct Pipe {
    queue: VecDeque<Slice>,
    len: u32,
}

impl Model for Pipe {
    ghost use Rattle.std.specs.Prelude.{List};
    ghost use Rattle.iol_hold.specs.declared.slices.Slice.{Slice};
    ghost use Rattle.iol_pipe.specs.Queue.{IsBounded};

    ghost Value = { List Slice };

    ghost view = { λ p. p.queue.items };

    ghost invariant = { λ p. IsBounded p.queue.items p.len };
}

impl Pipe {
    /// A pipe with no bytes.
    pub fn new(alloc: Global) -> Pipe
        ensures { result ≡ [] }
    {
        Pipe {
            queue: VecDeque::new(alloc),
            len: 0,
        }
    }

    /// The number of queued bytes.
    pub fn len(&self) -> u32
        ensures len { result ≡ byte_len self.now }
        ensures most { result ≤ MAX_QUEUE_BYTES }
    {
        self.len
    }

    /// Whether no byte is queued.
    pub fn is_empty(&self) -> bool
        ensures { IsTrue result ↔ (byte_len self.now ≡ 0) }
    {
        self.len == 0
    }

    /// The pool of the first byte, if there is one.
    pub fn first_pool(&self) -> Option<PoolId>
        ensures { result ≡ first_pool self.now }
    {
        let first = self.queue.front()?;
        Some(first.hold.pool())
    }

    /// Takes in the longest prefix that fits, and returns its length in bytes. If no byte fits, it
    /// needs no memory.
    pub fn push(&mut self, store: &mut Store, from: &Agg) -> Result<u32, AllocError>
        requires covered { Covers store.old (bufs_of from.now) }
        requires countable { IsCountable store.old (bufs_of from.now) }
        ensures shares { IfOk result (SharesFitting store.old store.new self.old self.new from.now) }
        ensures none { fitting self.old (byte_len from.now) ≡ 0 → IsOk result }
        ensures err { OnErr result ((self.new ≡ self.old) × (store.new ≡ store.old)) }
    {
        let room = MAX_QUEUE_BYTES as u32 - self.len;
        let taken = from.len().min(room);
        let slices = from.slices();
        self.queue.reserve(slices.len().min(taken as usize))?;
        add_prefix(&mut self.queue, store, slices, taken);
        self.len += taken;
        Ok(taken)
    }

    /// Takes off the longest prefix of at most `n` bytes whose pools all name the domain. If `n` is
    /// 0 or no byte is queued, it needs no memory.
    pub fn front(
        &mut self,
        alloc: Global,
        store: &mut Store,
        n: u32,
        d: DomainId,
    ) -> Result<Agg, AllocError>
        requires covered { Covers store.old (bufs_of self.old) }
        requires countable { IsCountable store.old (bufs_of self.old) }
        ensures gives { IfOk result (λ a. GivesFirst store.old store.new self.old a self.new n d) }
        ensures none { min n (byte_len self.old) ≡ 0 → IsOk result }
        ensures err { OnErr result ((self.new ≡ self.old) × (store.new ≡ store.old)) }
    {
        Ok(self.take_off(alloc, store, n, Some(d))?)
    }

    // Takes off the longest prefix of at most `n` bytes whose pools all name the domain, if one is
    // given.
    fn take_off(
        &mut self,
        alloc: Global,
        store: &mut Store,
        n: u32,
        d: Option<DomainId>,
    ) -> Result<Agg, AllocError>
        requires { AreShareable store.old (bufs_of self.old) }
        ensures { TakesOff store.old store.new self.old self.new n d result }
    {
        let room = self.queue.len().min(n as usize);
        let mut slices = Vec::with_capacity(alloc, room)?;
        take_prefix(&mut self.queue, store, &mut slices, n, &d);
        let given = Agg::from_slices(slices);
        self.len -= given.len();
        Ok(given)
    }

    /// Releases all references: the queue is empty afterwards.
    pub fn clear(&mut self, store: &mut Store)
        requires { Covers store.old (bufs_of self.old) }
        ensures empty { self.new ≡ [] }
        ensures releases { Releases store.old store.new self.old [] }
    {
        release_all(&mut self.queue, store);
        self.len = 0;
    }
}

// Releases all references.
fn release_all(queue: &mut VecDeque<Slice>, store: &mut Store)
    requires { Covers store.old (bufs_of queue.old.items) }
    ensures empty { queue.new.items ≡ [] }
    ensures releases { Releases store.old store.new queue.old.items [] }
{
    while let Some(slice) = queue.pop_back() {
        slice.release(store);
    }
}

// Adds the first n bytes of the slices, and references their buffers again.
fn add_prefix(queue: &mut VecDeque<Slice>, store: &mut Store, slices: &[Slice], n: u32)
    requires room { deque_len queue.old + min (length slices.now) n ≤ deque_capacity queue.old }
    requires shared { AreShareable store.old (bufs_of slices.now) }
    ensures { SharesPrefix store.old store.new queue.old.items queue.new.items slices.now n }
{
    let mut left = n;
    for slice in slices {
        if left == 0 {
            return;
        }
        let part = slice.share(store).cut(0, slice.len.min(left));
        left -= part.len;
        queue.push_back_reserved(part);
    }
}

// Whether the pool names the domain, if one is given.
fn names(store: &Store, pool: PoolId, d: &Option<DomainId>) -> bool
    ensures { result ≡ names_given store.now.pools d.now pool }
{
    match d {
        Some(d) => store.pools().names(pool, *d),
        None => true,
    }
}

// Moves the first bytes, at most n, for as long as their pools name the domain, if one is given.
fn take_prefix(
    queue: &mut VecDeque<Slice>,
    store: &mut Store,
    out: &mut Vec<Slice>,
    n: u32,
    d: &Option<DomainId>,
)
    requires room { IsEmptyFor out.old (min (length queue.old.items) n) }
    requires shared { AreShareable store.old (bufs_of queue.old.items) }
    ensures { TakesFirst store.old store.new queue.old.items out.new.items queue.new.items n d.now }
{
    let mut left = n;
    while left > 0 {
        let Some(first) = queue.front() else {
            return;
        };
        if !names(store, first.hold.pool(), d) {
            return;
        }
        let slice = take_first(queue, store, left);
        left -= slice.len;
        out.push_reserved(slice);
    }
}

// Takes off the first slice. If it is longer than `most`, takes off only its first `most` bytes,
// and references its buffer again.
fn take_first(queue: &mut VecDeque<Slice>, store: &mut Store, most: u32) -> Slice
    requires { MayTakeFirst store.old queue.old.items most }
    ensures { TakesSlice store.old store.new queue.old.items queue.new.items most result }
{
    let Some(first) = queue.pop_front() else {
        unreachable!();
    };
    if first.len <= most {
        return first;
    }
    let len = first.len;
    queue.push_front_reserved(first.share(store).cut(most, len));
    first.cut(0, most)
}
