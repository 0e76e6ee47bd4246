//! The outside of a world, and its events.
ghost use Rattle.std.specs.Prelude.{◌≡◌};
ghost use Rattle.iol_back.specs.Prelude.{IfHonest};
ghost use Rattle.iol_core.specs.declared.events.Event.TheVariants as event;
ghost use Rattle.iol_core.specs.declared.events.Reply.TheVariants as reply;
ghost use Rattle.iol_proc.specs.World.{CopiedStep, OutsideStep, sharing};
ghost use Rattle.iol_api.specs.Typed as spec;
ghost use Rattle.iol_api.specs.Typed.{Happens, HappensIfHeld};

use crate::domain::held;
use crate::replies;
use iol_back::backing::Backing;
use iol_core::descriptors::How;
use iol_core::events::{Event, Reply};
use iol_core::lists::Bytes;
use iol_core::numbers::{ConnId, PoolId};
use iol_core::refusals::Refusal;
use iol_proc::process::Process;
use iol_proc::world::World;
use std::alloc::Global;

/// The outside of a world: its peers, and the time at which its files are written back. It borrows
/// the world until it is dropped.
#[derive(Drop)]
pub struct Outside<'a, B: Backing, P: Process> {
    alloc: Global,
    world: &'a mut World<B, P>,
}

impl<'a, B: Backing + Drop, P: Process> Outside<'a, B, P> {
    /// The outside of this world.
    pub fn new(alloc: Global, world: &'a mut World<B, P>) -> Outside<'a, B, P>
        ensures same_reference { result.world.ghost_name ≡ world.entry.ghost_name }
        ensures world { result.world.now ≡ world.old }
    {
        Outside { alloc, world }
    }

    // Carries out one event.
    fn event(&mut self, event: Event) -> Reply
        ensures same_reference { self.new.world.ghost_name ≡ self.old.world.ghost_name }
        ensures step { OutsideStep sharing P.turns self.old.world.now event result self.new.world.now }
        ensures copied { IfHonest self.old.world.now.machine.disk
            (CopiedStep P.turns self.old.world.now event result self.new.world.now) }
    {
        self.world.step_outside(event)
    }

    /// A peer connects. The bytes that arrive from it are placed in a pool.
    pub fn connect(&mut self, pool: PoolId) -> Result<ConnId, Refusal>
        ensures { Happens P.turns reply.Conn self.old (event.ConnNew pool) result self.new }
    {
        replies::conn(self.event(Event::ConnNew { pool }))
    }

    /// Bytes arrive on a connection, as many as its queue has room for: it holds at most 65,536.
    /// Returns the number of bytes that arrived.
    pub fn arrive(&mut self, conn: ConnId, bytes: &[u8]) -> Result<u32, Refusal>
        ensures { HappensIfHeld P.turns reply.Count self.old (event.Arrive conn bytes.now) result self.new }
    {
        let bytes = held(self.alloc, bytes)?;
        self.arrive_held(conn, bytes)
    }

    /// The peer of a connection sends no more, or is gone.
    pub fn peer_closed(&mut self, conn: ConnId, how: How) -> Result<(), Refusal>
        ensures { Happens P.turns spec.done self.old (event.PeerClosed conn how) result self.new }
    {
        replies::done(self.event(Event::PeerClosed { conn, how }))
    }

    /// Sends the first bytes queued on a connection, at most `max`, which is at least 1. Returns
    /// them, and their Internet checksum.
    pub fn transmit(&mut self, conn: ConnId, max: u32) -> Result<(Bytes, u16), Refusal>
        ensures { Happens P.turns spec.segment self.old (event.Transmit conn max) result self.new }
    {
        replies::segment(self.event(Event::Transmit { conn, max }))
    }

    /// Writes one dirty extent back to the store, or does nothing if there is none.
    pub fn flush(&mut self) -> Result<(), Refusal>
        ensures { Happens P.turns spec.done self.old event.Flush result self.new }
    {
        replies::done(self.event(Event::Flush))
    }

    /// Removes from memory the bytes of files that the store has, too.
    pub fn drop_clean(&mut self) -> Result<(), Refusal>
        ensures { Happens P.turns spec.done self.old event.DropClean result self.new }
    {
        replies::done(self.event(Event::DropClean))
    }

    // [`Outside::arrive`] of a list that is held.
    fn arrive_held(&mut self, conn: ConnId, bytes: Bytes) -> Result<u32, Refusal>
        ensures { Happens P.turns reply.Count self.old (event.Arrive conn bytes) result self.new }
    {
        replies::count(self.event(Event::Arrive { conn, bytes }))
    }
}
