//! A domain of a system, and its calls.
ghost use Rattle.std.specs.Prelude.{◌≡◌, IfOk};
ghost use Rattle.iol_core.specs.declared.events.Call.TheVariants as call;
ghost use Rattle.iol_core.specs.declared.events.Event.TheVariants as event;
ghost use Rattle.iol_core.specs.declared.events.Reply.TheVariants as reply;
ghost use Rattle.iol_system.specs.BorrowedMemory.{ReadsTo, ShowsTo};
ghost use Rattle.iol_system.specs.Promises.{Promises};
ghost use Rattle.iol_api.specs.Typed as spec;
ghost use Rattle.iol_api.specs.Typed.{Answers, AnswersIfHeld};

use crate::replies;
use iol_back::backing::Backing;
use iol_core::descriptors::Mode;
use iol_core::events::{Call, Event, Reply};
use iol_core::lists::{Bytes, Domains};
use iol_core::numbers::{AggId, DomainId, Fd, FileId, PoolId};
use iol_core::refusals::Refusal;
use iol_system::system::System;
use std::alloc::{AllocError, Global};

/// A handle of a domain, with one method for each call. It borrows the system until it is dropped.
#[derive(Drop)]
pub struct Domain<'a, B: Backing> {
    alloc: Global,
    system: &'a mut System<B>,
    by: DomainId,
}

impl<'a, B: Backing> Domain<'a, B> {
    /// A handle of the domain of this number. If the domain is not live, each call returns
    /// `NoDomain`.
    pub fn new(alloc: Global, system: &'a mut System<B>, by: DomainId) -> Domain<'a, B>
        ensures same_reference { result.system.ghost_name ≡ system.entry.ghost_name }
        ensures system { result.system.now ≡ system.old }
        ensures by { result.by ≡ by }
    {
        Domain { alloc, system, by }
    }

    // Executes one call.
    fn call(&mut self, call: Call) -> Reply
        ensures same_reference { self.new.system.ghost_name ≡ self.old.system.ghost_name }
        ensures by { self.new.by ≡ self.old.by }
        ensures call { Promises self.old.system.now (event.Call self.old.by call) result
            self.new.system.now }
    {
        let by = self.by;
        self.system.step(Event::Call { by, call })
    }

    /// Creates a domain that has no aggregate and no open descriptor. Returns its number: the next
    /// one.
    pub fn domain_new(&mut self) -> Result<DomainId, Refusal>
        ensures { Answers reply.Domain self.old call.DomainNew result self.new }
    {
        replies::domain(self.call(Call::DomainNew))
    }

    /// Ends this domain. Drops its aggregates and closes its descriptors.
    pub fn exit(&mut self) -> Result<(), Refusal>
        ensures { Answers spec.done self.old call.Exit result self.new }
    {
        replies::done(self.call(Call::Exit))
    }

    /// Creates a pool of 1 to 256 chunks of 64 KiB, which 1 to 16 live domains may read. Returns
    /// its number: the next one.
    pub fn pool_create(&mut self, chunks: u32, domains: &[DomainId]) -> Result<PoolId, Refusal>
        ensures { AnswersIfHeld reply.Pool self.old (call.PoolCreate chunks domains.now) result self.new }
    {
        let domains = held_domains(self.alloc, domains)?;
        self.create_pool(chunks, domains)
    }

    /// Closes a pool: no byte is placed in it any more, and the bytes in it stay readable.
    pub fn pool_close(&mut self, pool: PoolId) -> Result<(), Refusal>
        ensures { Answers spec.done self.old (call.PoolClose pool) result self.new }
    {
        replies::done(self.call(Call::PoolClose { pool }))
    }

    /// Adds a live domain to the readers of a pool, at most 16. This domain must be one of them.
    pub fn pool_admit(&mut self, pool: PoolId, domain: DomainId) -> Result<(), Refusal>
        ensures { Answers spec.done self.old (call.PoolAdmit pool domain) result self.new }
    {
        replies::done(self.call(Call::PoolAdmit { pool, domain }))
    }

    /// Makes a pool this domain's default pool, in which the bytes that it creates are placed.
    pub fn set_pool(&mut self, pool: PoolId) -> Result<(), Refusal>
        ensures { Answers spec.done self.old (call.SetPool pool) result self.new }
    {
        replies::done(self.call(Call::SetPool { pool }))
    }

    /// Makes an aggregate of these bytes, at most 2^24, in the default pool.
    pub fn agg_make(&mut self, bytes: &[u8]) -> Result<AggId, Refusal>
        ensures { Answers reply.Agg self.old (call.AggMake bytes.now) result self.new }
    {
        replies::agg(self.system.make_agg(self.by, bytes))
    }

    /// Makes a second aggregate of the same bytes. No byte is copied.
    pub fn agg_dup(&mut self, agg: AggId) -> Result<AggId, Refusal>
        ensures { Answers reply.Agg self.old (call.AggDup agg) result self.new }
    {
        replies::agg(self.call(Call::AggDup { agg }))
    }

    /// Makes an aggregate of the bytes from `from` up to, not including, `to`. No byte is copied.
    pub fn agg_cut(&mut self, agg: AggId, from: u32, to: u32) -> Result<AggId, Refusal>
        ensures { Answers reply.Agg self.old (call.AggCut agg from to) result self.new }
    {
        replies::agg(self.call(Call::AggCut { agg, from, to }))
    }

    /// Splits an aggregate at byte `at` and consumes it. No byte is copied.
    pub fn agg_split(&mut self, agg: AggId, at: u32) -> Result<(AggId, AggId), Refusal>
        ensures { Answers spec.aggs self.old (call.AggSplit agg at) result self.new }
    {
        replies::aggs(self.call(Call::AggSplit { agg, at }))
    }

    /// Joins two aggregates into one of at most 2^24 bytes and consumes both. No byte is copied.
    pub fn agg_join(&mut self, first: AggId, second: AggId) -> Result<AggId, Refusal>
        ensures { Answers reply.Agg self.old (call.AggJoin first second) result self.new }
    {
        replies::agg(self.call(Call::AggJoin { first, second }))
    }

    /// Makes an aggregate of the bytes of `agg`, with those from `from` up to `to` replaced by the
    /// bytes of `with`. No byte is copied.
    pub fn agg_replace(
        &mut self,
        agg: AggId,
        from: u32,
        to: u32,
        with: AggId,
    ) -> Result<AggId, Refusal>
        ensures { Answers reply.Agg self.old (call.AggReplace agg from to with) result self.new }
    {
        replies::agg(self.call(Call::AggReplace {
            agg,
            from,
            to,
            with,
        }))
    }

    /// Drops an aggregate.
    pub fn agg_drop(&mut self, agg: AggId) -> Result<(), Refusal>
        ensures { Answers spec.done self.old (call.AggDrop agg) result self.new }
    {
        replies::done(self.call(Call::AggDrop { agg }))
    }

    /// Moves an aggregate to a domain that may read all of its bytes. Returns the receiver's
    /// number.
    pub fn agg_give(&mut self, agg: AggId, to: DomainId) -> Result<AggId, Refusal>
        ensures { Answers reply.Agg self.old (call.AggGive agg to) result self.new }
    {
        replies::agg(self.call(Call::AggGive { agg, to }))
    }

    /// Returns a copy of an aggregate's bytes.
    pub fn show(&mut self, agg: AggId) -> Result<Bytes, Refusal>
        ensures { Answers reply.Bytes self.old (call.Show agg) result self.new }
    {
        replies::bytes(self.call(Call::Show { agg }))
    }

    /// Shows an aggregate in borrowed memory, and returns the number of its bytes. If `out` has room
    /// for all of them they are at its front, and the rest of it is unchanged; otherwise all of it
    /// is. No memory is requested.
    pub fn show_into(&self, agg: AggId, out: &mut [u8]) -> Result<u32, Refusal>
        ensures { ShowsTo self.now.by agg out.old out.new self.now.system.now result }
    {
        self.system.show_into(self.by, agg, out)
    }

    /// Gives the next slot of the store a name of 1 to 255 bytes, and a pool for its bytes.
    pub fn file_new(&mut self, name: &[u8], pool: PoolId) -> Result<FileId, Refusal>
        ensures { AnswersIfHeld reply.File self.old (call.FileNew name.now pool) result self.new }
    {
        let name = held(self.alloc, name)?;
        self.new_file(name, pool)
    }

    /// Opens the file of this name at position 0. Returns the lowest free descriptor.
    pub fn open_file(&mut self, name: &[u8], mode: Mode) -> Result<Fd, Refusal>
        ensures { AnswersIfHeld reply.Fd self.old (call.OpenFile name.now mode) result self.new }
    {
        let name = held(self.alloc, name)?;
        self.open_named(name, mode)
    }

    /// Creates a pipe, which holds at most 65,536 bytes. Returns its read end and its write end.
    pub fn pipe(&mut self) -> Result<(Fd, Fd), Refusal>
        ensures { Answers spec.fds self.old call.Pipe result self.new }
    {
        replies::fds(self.call(Call::Pipe))
    }

    /// Moves a descriptor to a domain. Returns the receiver's lowest free descriptor.
    pub fn give_fd(&mut self, fd: Fd, to: DomainId) -> Result<Fd, Refusal>
        ensures { Answers reply.Fd self.old (call.GiveFd fd to) result self.new }
    {
        replies::fd(self.call(Call::GiveFd { fd, to }))
    }

    /// Closes a descriptor.
    pub fn close(&mut self, fd: Fd) -> Result<(), Refusal>
        ensures { Answers spec.done self.old (call.Close fd) result self.new }
    {
        replies::done(self.call(Call::Close { fd }))
    }

    /// Sets the position of a descriptor on a file, at most the file's length.
    pub fn seek(&mut self, fd: Fd, at: u32) -> Result<(), Refusal>
        ensures { Answers spec.done self.old (call.Seek fd at) result self.new }
    {
        replies::done(self.call(Call::Seek { fd, at }))
    }

    /// Returns the length of a file in bytes.
    pub fn length(&mut self, fd: Fd) -> Result<u32, Refusal>
        ensures { Answers reply.Count self.old (call.Length fd) result self.new }
    {
        replies::count(self.call(Call::Length { fd }))
    }

    /// Reads at most `count` bytes and copies none that are in memory.
    pub fn iol_read(&mut self, fd: Fd, count: u32) -> Result<AggId, Refusal>
        ensures { Answers reply.Agg self.old (call.IolRead fd count) result self.new }
    {
        replies::agg(self.call(Call::IolRead { fd, count }))
    }

    /// Writes the bytes of an aggregate, which remains. A queue takes as many as fit and copies
    /// none. A file takes all, and copies those whose pool is not the file's. Returns the number
    /// of bytes taken.
    pub fn iol_write(&mut self, fd: Fd, agg: AggId) -> Result<u32, Refusal>
        ensures { Answers reply.Count self.old (call.IolWrite fd agg) result self.new }
    {
        replies::count(self.call(Call::IolWrite { fd, agg }))
    }

    /// Writes all dirty extents of a file to the store.
    pub fn fsync(&mut self, fd: Fd) -> Result<(), Refusal>
        ensures { Answers spec.done self.old (call.Fsync fd) result self.new }
    {
        replies::done(self.call(Call::Fsync { fd }))
    }

    /// Reads at most `count` bytes by copying them.
    pub fn read(&mut self, fd: Fd, count: u32) -> Result<Bytes, Refusal>
        ensures { Answers reply.Bytes self.old (call.Read fd count) result self.new }
    {
        replies::bytes(self.call(Call::Read { fd, count }))
    }

    /// Reads by copying into borrowed memory, at most `out.len()` bytes and fewer than 2^32, and
    /// returns their number. They are at the front of `out`. The rest of it is unchanged; after a
    /// refusal all of it is.
    pub fn read_into(&mut self, fd: Fd, out: &mut [u8]) -> Result<u32, Refusal>
        ensures same_reference { self.new.system.ghost_name ≡ self.old.system.ghost_name }
        ensures by { self.new.by ≡ self.old.by }
        ensures reads { ReadsTo self.old.by fd out.old out.new self.old.system.now result
            self.new.system.now }
    {
        self.system.read_into(self.by, fd, out)
    }

    /// Writes these bytes by copying them: to a queue as many as fit, to a file all. Returns the
    /// number of bytes taken.
    pub fn write(&mut self, fd: Fd, bytes: &[u8]) -> Result<u32, Refusal>
        ensures { Answers reply.Count self.old (call.Write fd bytes.now) result self.new }
    {
        replies::count(self.system.write_bytes(self.by, fd, bytes))
    }

    /// Accepts the waiting connection of the lowest number whose pool this domain may read.
    /// Returns the lowest free descriptor.
    pub fn accept(&mut self) -> Result<Fd, Refusal>
        ensures { Answers reply.Fd self.old call.Accept result self.new }
    {
        replies::fd(self.call(Call::Accept))
    }

    // [`Domain::pool_create`] of an owned list.
    fn create_pool(&mut self, chunks: u32, domains: Domains) -> Result<PoolId, Refusal>
        ensures { Answers reply.Pool self.old (call.PoolCreate chunks domains) result self.new }
    {
        replies::pool(self.call(Call::PoolCreate { chunks, domains }))
    }

    // [`Domain::file_new`] of an owned name.
    fn new_file(&mut self, name: Bytes, pool: PoolId) -> Result<FileId, Refusal>
        ensures { Answers reply.File self.old (call.FileNew name pool) result self.new }
    {
        replies::file(self.call(Call::FileNew { name, pool }))
    }

    // [`Domain::open_file`] of an owned name.
    fn open_named(&mut self, name: Bytes, mode: Mode) -> Result<Fd, Refusal>
        ensures { Answers reply.Fd self.old (call.OpenFile name mode) result self.new }
    {
        replies::fd(self.call(Call::OpenFile { name, mode }))
    }
}

/// A copy of bytes for an event that carries them.
pub(crate) fn held(alloc: Global, bytes: &[u8]) -> Result<Bytes, AllocError>
    ensures { IfOk result (λ b. b ≡ bytes.now) }
{
    Ok(Bytes::from_vec(Vec::from_slice(alloc, bytes)?))
}

// A copy of a list of domains for a call that carries it.
fn held_domains(alloc: Global, domains: &[DomainId]) -> Result<Domains, AllocError>
    ensures { IfOk result (λ d. d ≡ domains.now) }
{
    Ok(Domains::from_vec(Vec::from_slice(alloc, domains)?))
}
