//! A system: events, one step, and a run.
ghost use Rattle.std.specs.Prelude.{◌≡◌, IfOk, OnOk, OnErr};
ghost use Rattle.iol_back.specs.Prelude.{IfHonest};
ghost use Rattle.iol_core.specs.Prelude.{Run};
ghost use Rattle.iol_core.specs.declared.events.Call.TheVariants as call;
ghost use Rattle.iol_core.specs.declared.events.Event.TheVariants as event;
ghost use Rattle.iol_hold.specs.Prelude.{Stays};
ghost use Rattle.iol_kernel.specs.Prelude.{Reports};
ghost use Rattle.iol_system.specs.BorrowedMemory.{ReadsTo, ShowsTo};
ghost use Rattle.iol_system.specs.NewSystem.{MakesSystem};
ghost use Rattle.iol_system.specs.LentBytes.{LendsParts, LocatesParts};
ghost use Rattle.iol_system.specs.Machine.{machine_of, tables_of};
ghost use Rattle.iol_system.specs.Promises.{Promises, Chain};
ghost use Rattle.iol_system.specs.Safe.{IsSafe};
ghost use Rattle.iol_system.specs.Values.{KeepsValues};

use crate::aggregates::Aggregates;
use crate::calls::{answer_call, make_agg, write_bytes};
use crate::replies;
use iol_agg::{LocatedParts, Parts};
use iol_back::backing::Backing;
use iol_core::configuration::Config;
use iol_core::events::{Event, Reply};
use iol_core::numbers::{AggId, DomainId, Fd};
use iol_core::refusals::Refusal;
use iol_kernel::kernel::Kernel;
use iol_kernel::report::Report;
use iol_posix::read;
use std::alloc::{AllocError, Global};
use std::marker::Model;

/// A system of domains that share buffers, over a store of files. Its replies are those of a
/// machine that copies every byte at every call.
#[derive(Drop)]
pub struct System<B: Backing> {
    alloc: Global,
    pub(crate) kernel: Kernel,
    backing: B,
}

impl<B: Backing> Model for System<B> {
    ghost use Rattle.iol_system.specs.Machine.{SystemState, system_of};
    ghost use Rattle.iol_system.specs.Safe.{IsSafe};

    ghost Value = { SystemState };

    ghost use Rattle.iol_kernel.specs.Prelude.{state_of};

    ghost view = { λ s. system_of (state_of s.kernel) (B.disk s.backing) };

    ghost invariant = { λ s. IsSafe (system_of (state_of s.kernel) (B.disk s.backing)) };
}

impl<B: Backing + Drop> System<B> {
    /// A new system over a store: domain 1 and nothing else. No slot of the store has a name yet.
    /// `BadRange` if a size is out of its range.
    pub fn new(alloc: Global, config: Config, backing: B) -> Result<System<B>, Refusal>
        ensures { MakesSystem config (B.disk backing) result }
    {
        let kernel = Kernel::new(alloc, config)?;
        Ok(System {
            alloc,
            kernel,
            backing,
        })
    }
}

impl<B: Backing> System<B> {
    /// The bytes of a domain's aggregate, at their places in memory. Nothing is copied, and no
    /// memory is requested.
    pub fn parts(&self, by: DomainId, agg: AggId) -> Result<Parts<'_>, Refusal>
        ensures { LendsParts (tables_of self.now.kernel) by agg result }
    {
        self.kernel.parts(by, agg)
    }

    /// The same bytes. The contract says at which addresses they are: at the same ones after each
    /// step that leaves the aggregate its slices.
    pub fn located_parts(&self, by: DomainId, agg: AggId) -> Result<LocatedParts<'_>, Refusal>
        ensures { LocatesParts self.now.kernel by agg result }
    {
        self.kernel.located_parts(by, agg)
    }

    /// References to the aggregates of all domains, as [`System::parts`] gives them for one.
    pub fn aggregates(&self) -> Aggregates<'_>
        ensures { result ≡ self.now.kernel }
    {
        Aggregates::new(&self.kernel)
    }

    /// The counts of the system: the pools that still have their chunks, by number, the extents of
    /// files and the dirty ones among them, and the live buffers, no two of which share a page. It
    /// changes nothing.
    pub fn report(&self) -> Result<Report, AllocError>
        ensures { Reports self.now.kernel result }
    {
        self.kernel.report()
    }

    /// Executes one event completely, and replies. Its contract is one record, [`Promises`]
    /// (`specs/Promises.antt`): the reply of the copying machine; when Fault is returned, when
    /// NoRoom and Memory may be returned, and the state after a refusal; the places of bytes
    /// afterwards; the requests to the store, and its content; and the invariant.
    pub fn step(&mut self, event: Event) -> Reply
        ensures { Promises self.old event result self.new }
    {
        self.step_ref(&event)
    }

    /// Executes one event completely, as [`System::step`] does, by reference.
    pub fn step_ref(&mut self, event: &Event) -> Reply
        ensures { Promises self.old event.now result self.new }
    {
        match event {
            Event::Call { by, call } => answer_call(&mut self.kernel, &mut self.backing, *by, call),
            Event::ConnNew { pool } => replies::conn(self.kernel.conn_new(*pool)),
            Event::Arrive { conn, bytes } => replies::count(self.kernel.arrive(*conn, bytes)),
            Event::PeerClosed { conn, how } => replies::done(self.kernel.peer_closed(*conn, *how)),
            Event::Transmit { conn, max } => replies::segment(self.kernel.transmit(*conn, *max)),
            Event::Flush => replies::done(self.kernel.flush(&mut self.backing)),
            Event::DropClean => {
                self.kernel.drop_clean();
                Reply::Done
            }
        }
    }

    /// Makes an aggregate of borrowed bytes: the step of `AggMake` with these bytes, without a list
    /// of them.
    pub fn make_agg(&mut self, by: DomainId, bytes: &[u8]) -> Reply
        ensures { Promises self.old (event.Call by (call.AggMake bytes.now)) result self.new }
    {
        make_agg(&mut self.kernel, by, bytes)
    }

    /// Writes borrowed bytes: the step of `Write` with these bytes, without a list of them.
    pub fn write_bytes(&mut self, by: DomainId, fd: Fd, bytes: &[u8]) -> Reply
        ensures { Promises self.old (event.Call by (call.Write fd bytes.now)) result self.new }
    {
        write_bytes(&mut self.kernel, by, fd, bytes)
    }

    /// Reads into borrowed memory, at most `out.len()` bytes and fewer than 2^32, and returns their
    /// number: the step of `Read`, without a list of its bytes. They are at the front of `out`, and
    /// the rest of it is unchanged; after a refusal all of it is.
    ///
    /// A read of a pipe or a connection requests no memory, so it is never refused with `Memory`.
    pub fn read_into(&mut self, by: DomainId, fd: Fd, out: &mut [u8]) -> Result<u32, Refusal>
        ensures { ReadsTo by fd out.old out.new self.old result self.new }
    {
        read(&mut self.kernel, &mut self.backing, by, fd, out)
    }

    /// Shows an aggregate in borrowed memory: the step of `Show`, without a list of its bytes. If
    /// `out` has room for all of them they are at its front, and the rest of it is unchanged;
    /// otherwise all of it is. Returns their number either way. No memory is requested.
    pub fn show_into(&self, by: DomainId, agg: AggId, out: &mut [u8]) -> Result<u32, Refusal>
        ensures { ShowsTo by agg out.old out.new self.now result }
    {
        self.kernel.show_into(by, agg, out)
    }

    /// Executes events in order. The memory for the replies is requested first: if there is none,
    /// no event is executed.
    ///
    /// A run is a chain of steps, each of which keeps all promises of [`System::step`].
    /// Consequences for whole runs are stated in [`laws`](crate::laws).
    pub fn run(&mut self, events: &[Event]) -> Result<Vec<Reply>, AllocError>
        ensures chain { IfOk result (λ replies. Chain self.old events.now replies.items self.new) }
        ensures run { IfOk result (λ replies. IfHonest self.old.disk
            (Run (machine_of self.old) events.now replies.items (machine_of self.new))) }
        ensures honest { self.new.disk.honest ≡ self.old.disk.honest }
        ensures safe { IsSafe self.new }
        ensures stays { Stays self.old.kernel.store self.new.kernel.store }
        ensures values { OnOk result (KeepsValues self.old events.now self.new) }
        ensures err { OnErr result (self.new ≡ self.old) }
    {
        let mut replies = Vec::with_capacity(self.alloc, events.len())?;
        for event in events {
            let reply = self.step_ref(event);
            replies.push_reserved(reply);
        }
        Ok(replies)
    }
}
