//! Connections of a world that are served in place, from external readers and to external writers.
ghost use Rattle.std.specs.Prelude.{◌≡◌, IfOk, OnErr};
ghost use Rattle.iol_back.specs.Prelude.{IfHonest};
ghost use Rattle.iol_proc.specs.Streams.{SendsAs, TakenArrive};
ghost use Rattle.iol_proc.specs.World.{copied};
ghost use Rattle.iol_sock.specs.Gathers.{EndsShort, IsCalled};
ghost use Rattle.iol_system.specs.Prelude.{ServesFrom, ServesTo};

use crate::process::Process;
use crate::world::World;
use iol_back::backing::Backing;
use iol_core::numbers::ConnId;
use iol_core::refusals::Refusal;
use iol_sock::{Arrived, Drained, Gather};
use std::io::{Read, Write};

impl<B: Backing + Drop, P: Process> World<B, P> {
    /// The bytes of one read arrive on a connection, as with
    /// [`System::arrive_from`](iol_system::system::System): in the copying machine, the bytes
    /// taken arrive. At the end of the reader, or if it fails, no bytes arrive. A refusal leaves
    /// the copying machine unchanged.
    pub fn arrive_from<R: Read>(
        &mut self,
        conn: ConnId,
        reader: &mut R,
        max: u32,
    ) -> Result<Arrived, Refusal>
        ensures copied { TakenArrive P.turns conn (R.remaining reader.old)
            (R.remaining reader.new) self.old self.new result }
        ensures err_copied { IfHonest self.old.machine.disk
            (OnErr result (copied self.new ≡ copied self.old)) }
        ensures process_slots { self.new.process_slots ≡ self.old.process_slots }
        ensures resource_failure { self.new.resource_failure ≡ self.old.resource_failure }

        // The effect on the system.
        ensures system { ServesFrom R.remaining reader.old reader.new conn max self.old.machine
            self.new.machine result }
    {
        self.system.arrive_from(conn, reader, max)
    }

    /// Gives a writer the first bytes queued on a connection, as
    /// [`System::drain_to`](iol_system::system::System) does: in the copying machine, the bytes
    /// taken are sent. Allocates nothing.
    pub fn drain_to<W: Write>(
        &mut self,
        conn: ConnId,
        writer: &mut W,
        max: u32,
    ) -> Result<Drained, Refusal>
        ensures copied { IfOk result
            (λ d. SendsAs P.turns conn d.taken (copied self.old) (copied self.new)) }
        ensures process_slots { self.new.process_slots ≡ self.old.process_slots }
        ensures resource_failure { self.new.resource_failure ≡ self.old.resource_failure }

        // The effect on the system.
        ensures system { ServesTo W.contents writer.old writer.new conn max self.old.machine
            self.new.machine result }
    {
        self.system.drain_to(conn, writer, max)
    }

    /// Offers a taker the first bytes queued on a connection, as
    /// [`System::drain_into`](iol_system::system::System) does: in the copying machine, the bytes
    /// taken are sent. Allocates nothing.
    pub fn drain_into<G: Gather>(
        &mut self,
        conn: ConnId,
        taker: &mut G,
        max: u32,
    ) -> Result<Drained, Refusal>
        ensures copied { IfOk result
            (λ d. SendsAs P.turns conn d.taken (copied self.old) (copied self.new)) }
        ensures process_slots { self.new.process_slots ≡ self.old.process_slots }
        ensures resource_failure { self.new.resource_failure ≡ self.old.resource_failure }
        ensures calls { IsCalled G.gathers taker.old taker.new }
        ensures failed { IfOk result (λ d. EndsShort G.gathers taker.new d.failed) }

        // The effect on the system.
        ensures system { ServesTo G.contents taker.old taker.new conn max self.old.machine
            self.new.machine result }
    {
        self.system.drain_into(conn, taker, max)
    }
}
