//! Pipes: bounded queues, each in a slot, with a read end and a write end.
ghost use Rattle.std.specs.Prelude.{◌≡◌, ◌<◌, ◌≤◌, ◌^◌, true, [], OnOk, false};
ghost use Rattle.iol_core.specs.Prelude.{lowest, placed, taken};
ghost use Rattle.iol_hold.specs.Prelude.{Covers, byte_len, bufs_of, AllReadable};
ghost use Rattle.iol_pipe.specs.Prelude.{first_pool};
ghost use Rattle.iol_pool.specs.Prelude.{pool_in};
ghost use Rattle.iol_kernel.specs.ClosedEnds.{without_reader, without_writer, Becomes, ClosesEnd};
ghost use Rattle.iol_kernel.specs.HoldCounts.{MayShare};
ghost use Rattle.iol_kernel.specs.KernelState.{queue_at};
ghost use Rattle.iol_kernel.specs.Queues.{CopiesFront, FillsIn, GivesFrontIn, IsTakenFrom, PushesIn, SkipsIn, empty_pipe};

use iol_agg::Agg;
use iol_core::limits::MAX_QUEUE_BYTES;
use iol_core::numbers::{DomainId, PipeId, PoolId};
use iol_core::refusals::Refusal;
use iol_desc::places::Places;
use iol_hold::Store;
use std::alloc::{AllocError, Global};
use std::marker::Model;

/// A pipe and which of its ends are open.
#[derive(Drop)]
pub(crate) struct Pipe {
    queue: iol_pipe::Pipe,
    reading: bool,
    writing: bool,
}

impl Model for Pipe {
    ghost use Rattle.std.specs.Prelude.{List};
    ghost use Rattle.iol_hold.specs.declared.slices.Slice.{Slice};
    ghost use Rattle.iol_kernel.specs.Views as views;

    ghost Value = { views.Pipe (List Slice) };

    ghost view = { λ p. record { queue = p.queue; reading = p.reading; writing = p.writing } };
}

impl Pipe {
    /// Closes the read end and releases the queued bytes. Returns whether the write end is open.
    fn close_reader(&mut self, store: &mut Store) -> bool
        requires { Covers store.old (bufs_of self.old.queue) }
        ensures stays { result ≡ self.old.writing }
        ensures becomes { Becomes store.old store.new self.old self.new (without_reader self.old) }
    {
        self.queue.clear(store);
        self.reading = false;
        self.writing
    }

    /// Closes the write end, and releases the queued bytes if the read end is closed. Returns
    /// whether the read end is open.
    #[tactic(auto, using(crate::proofs::Queues::ClosedEnds::same_rules))]
    fn close_writer(&mut self, store: &mut Store) -> bool
        requires { Covers store.old (bufs_of self.old.queue) }
        ensures stays { result ≡ self.old.reading }
        ensures becomes { Becomes store.old store.new self.old self.new (without_writer self.old) }
    {
        self.writing = false;
        if self.reading {
            return true;
        }
        self.queue.clear(store);
        false
    }
}

/// The live pipes. A new one takes the lowest free slot.
#[derive(Drop)]
pub(crate) struct Pipes {
    places: Places<Pipe>,
}

impl Model for Pipes {
    ghost use Rattle.std.specs.Prelude.{List};
    ghost use Rattle.iol_hold.specs.declared.slices.Slice.{Slice};
    ghost use Rattle.iol_desc.specs.Tables as tables;
    ghost use Rattle.iol_kernel.specs.Views as views;

    ghost Value = { tables.Slots (views.Pipe (List Slice)) };

    ghost view = { λ p. p.places };
}

impl Pipes {
    /// An empty table.
    pub(crate) fn new(alloc: Global) -> Pipes
        ensures { result.places ≡ [] }
    {
        Pipes {
            places: Places::new(alloc),
        }
    }

    /// The number of live pipes.
    pub(crate) fn count(&self) -> usize
        ensures { result ≡ taken self.now.places }
    {
        self.places.count()
    }

    /// The number of the next new pipe.
    pub(crate) fn next(&self) -> PipeId
        requires { taken self.now.places < 2 ^ 32 }
        ensures { result ≡ lowest self.now.places }
    {
        PipeId::new(self.places.lowest() as u32)
    }

    /// Reserves memory for one more pipe.
    pub(crate) fn reserve(&mut self) -> Result<(), AllocError>
        ensures same { self.new.places ≡ self.old.places }
        ensures room { OnOk result (0 < self.new.room) }
    {
        self.places.reserve(1)
    }

    /// Adds an empty pipe whose ends are open, in reserved memory.
    pub(crate) fn add(&mut self, alloc: Global)
        requires { 0 < self.old.room }
        ensures { self.new.places ≡ placed self.old.places (lowest self.old.places) empty_pipe }
    {
        self.places.put(Pipe {
            queue: iol_pipe::Pipe::new(alloc),
            reading: true,
            writing: true,
        });
    }

    /// The number of bytes queued in a pipe.
    pub(crate) fn len(&self, p: PipeId) -> u32
        ensures len { result ≡ byte_len (queue_at self.now.places p).queue }
        ensures most { result ≤ MAX_QUEUE_BYTES }
    {
        match self.places.get(p.number() as usize) {
            Some(pipe) => pipe.queue.len(),
            None => 0,
        }
    }

    /// The pool of the first byte queued in a pipe.
    pub(crate) fn first_pool(&self, p: PipeId) -> Option<PoolId>
        ensures { result ≡ first_pool (queue_at self.now.places p).queue }
    {
        self.places.get(p.number() as usize)?.queue.first_pool()
    }

    /// Whether a pipe's read end is open.
    pub(crate) fn is_reading(&self, p: PipeId) -> bool
        ensures { result ≡ (queue_at self.now.places p).reading }
    {
        match self.places.get(p.number() as usize) {
            Some(pipe) => pipe.reading,
            None => false,
        }
    }

    /// Whether a pipe's write end is open.
    pub(crate) fn is_writing(&self, p: PipeId) -> bool
        ensures { result ≡ (queue_at self.now.places p).writing }
    {
        match self.places.get(p.number() as usize) {
            Some(pipe) => pipe.writing,
            None => false,
        }
    }

    /// Adds the longest prefix that fits to a pipe's queue. Returns its length in bytes.
    #[tactic(auto, using(crate::proofs::Queues::EndCounts::there_rules))]
    pub(crate) fn push(
        &mut self,
        store: &mut Store,
        p: PipeId,
        from: &Agg,
    ) -> Result<u32, AllocError>
        requires shared { MayShare store.old from.now }
        requires writing { (queue_at self.old.places p).writing ≡ true }
        ensures { PushesIn store.old store.new self.old.places self.new.places p from.now result }
    {
        let pipe = self.places.value_mut(p.number() as usize);
        pipe.queue.push(store, from)
    }

    /// Adds as many new bytes of an open pool to a pipe's queue as fit, and returns their number.
    /// They are placed in new buffers on the lowest free pages of the pool.
    #[tactic(auto, using(crate::proofs::Queues::EndCounts::there_rules))]
    pub(crate) fn fill(
        &mut self,
        alloc: Global,
        store: &mut Store,
        p: PipeId,
        pool: PoolId,
        bytes: &[u8],
    ) -> Result<u32, Refusal>
        requires open { (pool_in store.old.pools pool).closed ≡ false }
        requires writing { (queue_at self.old.places p).writing ≡ true }
        ensures { FillsIn store.old store.new self.old.places self.new.places p pool bytes.now
            result }
    {
        let pipe = self.places.value_mut(p.number() as usize);
        Ok(pipe.queue.fill(alloc, store, pool, bytes)?)
    }

    /// Takes off the longest prefix of a pipe's first `n` bytes whose pools all name the domain.
    #[tactic(auto, using(crate::proofs::Queues::EndCounts::there_rules))]
    pub(crate) fn front(
        &mut self,
        alloc: Global,
        store: &mut Store,
        p: PipeId,
        n: u32,
        d: DomainId,
    ) -> Result<Agg, AllocError>
        requires shared { MayShare store.old (queue_at self.old.places p).queue }
        requires reading { (queue_at self.old.places p).reading ≡ true }
        ensures { GivesFrontIn store.old store.new self.old.places self.new.places p n d result }
    {
        let pipe = self.places.value_mut(p.number() as usize);
        pipe.queue.front(alloc, store, n, d)
    }

    /// Copies the longest prefix of a pipe's queue whose pools all name the domain, at most
    /// `into.len()` bytes, and returns its length. The queue is unchanged.
    pub(crate) fn copy_front(&self, store: &Store, p: PipeId, d: DomainId, into: &mut [u8]) -> u32
        requires readable { AllReadable store.now (queue_at self.now.places p).queue }
        requires reading { (queue_at self.now.places p).reading ≡ true }
        ensures { CopiesFront store.now self.now.places p d into.old into.new result }
    {
        let Some(pipe) = self.places.get(p.number() as usize) else {
            unreachable!()
        };
        pipe.queue.copy_front(store, d, into)
    }

    /// Releases the first `n` bytes of a pipe's queue, or all if there are fewer.
    #[tactic(auto, using(crate::proofs::Queues::EndCounts::there_rules))]
    pub(crate) fn skip(&mut self, store: &mut Store, p: PipeId, n: u32)
        requires { IsTakenFrom store.old self.old.places p }
        ensures { SkipsIn store.old store.new self.old.places self.new.places p n }
    {
        self.places
            .value_mut(p.number() as usize)
            .queue
            .skip(store, n);
    }

    /// Closes the read end of a pipe, and removes the pipe if its write end is closed.
    #[tactic(auto, using(crate::proofs::Queues::EndCounts::there_rules))]
    pub(crate) fn close_reader(&mut self, store: &mut Store, p: PipeId)
        requires { IsTakenFrom store.old self.old.places p }
        ensures { ClosesEnd store.old store.new self.old.places self.new.places p without_reader }
    {
        let place = p.number() as usize;
        let stays = self.places.value_mut(place).close_reader(store);
        if !stays {
            self.places.free(place);
        }
    }

    /// Closes the write end of a pipe, and removes the pipe if its read end is closed.
    #[tactic(auto, using(crate::proofs::Queues::EndCounts::there_rules))]
    pub(crate) fn close_writer(&mut self, store: &mut Store, p: PipeId)
        requires covered { Covers store.old (bufs_of (queue_at self.old.places p).queue) }
        requires writing { (queue_at self.old.places p).writing ≡ true }
        ensures { ClosesEnd store.old store.new self.old.places self.new.places p without_writer }
    {
        let place = p.number() as usize;
        let stays = self.places.value_mut(place).close_writer(store);
        if !stays {
            self.places.free(place);
        }
    }
}
