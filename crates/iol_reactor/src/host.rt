//! A world that serves clients.
ghost use Rattle.std.specs.Prelude.{◌≡◌, ℕ, [], true, false, length, IfSome, IsNone};
ghost use Rattle.iol_back.specs.Prelude.{IfHonest};
ghost use Rattle.iol_core.specs.Prelude.{lacks_conn};
ghost use Rattle.iol_proc.specs.Prelude.{copied};
ghost use Rattle.iol_proc.specs.World.{CopiedTurnAt, TurnAt, sharing};
ghost use Rattle.iol_serve.specs.Service.{ProceedsIn, SendsIn};
ghost use Rattle.iol_sock.specs.Gathers.{IsCalled};
ghost use Rattle.iol_reactor.specs.Serving.{ArrivesIn, EndsIn, HasServed};
ghost use Rattle.iol_reactor.specs.Visits.{ConnectsIn, HasVisited, VisitsArrive, VisitsAdvance};
ghost use Rattle.iol_reactor.specs.Visits.{VisitsSend, VisitsStay};

use crate::service::Service;
use crate::steps;
use iol_back::backing::Backing;
use iol_core::descriptors::How;
use iol_core::events::{Event, Reply};
use iol_core::numbers::{ConnId, PoolId};
use iol_proc::activity::Activity;
use iol_proc::process::Process;
use iol_proc::world::World;
use iol_sock::{Drained, Gather};
use std::io::Write;
use std::marker::PhantomData;

/// A world of a service. Since it began, its only events were turns of its processes and events of
/// connections.
#[derive(Drop)]
pub struct Host<B: Backing, P: Process, V: Service<B, P>> {
    world: World<B, P>,
    service: PhantomData<V>,
    ghost served: { ∥ HasServed P.turns V.starts V.POOL world ∥₁ },
}

impl<B: Backing + Drop, P: Process, V: Service<B, P>> Host<B, P, V> {
    /// A world that has served no client yet.
    pub fn new(world: World<B, P>) -> Host<B, P, V>
        requires { V.starts world }
        ensures { result.world ≡ world }
    {
        Host {
            world,
            service: PhantomData,
        }
    }

    /// The world.
    pub fn world(&self) -> &World<B, P>
        ensures served { ∥ HasServed P.turns V.starts V.POOL result.now ∥₁ }
    {
        &self.world
    }

    /// Creates a connection, if there is room for it.
    pub fn connect(&mut self) -> Option<ConnId>
        ensures made { ConnectsIn P.turns V.POOL result self.old.world self.new.world }
        ensures begun { IfSome result
            (λ c. ∥ HasVisited P.turns V.starts V.POOL c [] [] false self.new.world ∥₁) }
        ensures visits { VisitsStay P.turns V.starts V.POOL self.old.world self.new.world }
    {
        let pool = PoolId::new(V::POOL);
        let reply = self.world.step_outside(Event::ConnNew { pool });
        match &reply {
            Reply::Conn(conn) => Some(*conn),
            _ => None,
        }
    }

    /// The number of processes.
    pub fn processes(&self) -> usize
        ensures { result ≡ length self.now.world.process_slots }
    {
        self.world.processes()
    }

    /// Gives a turn to the process at an index, and returns its activity. None: there is no process
    /// at this index.
    pub fn turn_at(&mut self, place: usize) -> Option<Activity>
        ensures shared { TurnAt sharing P.turns self.old.world place result self.new.world }
        ensures run { IfHonest self.old.world.machine.disk
            (CopiedTurnAt P.turns self.old.world place result self.new.world) }
        ensures alone { (c : ℕ) → ProceedsIn P.turns c [] [] false self.old.world self.new.world }
        ensures visits { VisitsStay P.turns V.starts V.POOL self.old.world self.new.world }
    {
        self.world.turn_at(place)
    }

    /// The peer of a connection sends no more.
    pub fn close(&mut self, conn: ConnId)
        ensures reported { EndsIn P.turns conn How.Done self.old.world self.new.world }
        ensures alone { ProceedsIn P.turns conn [] [] false self.old.world self.new.world }
        ensures visits { VisitsAdvance P.turns V.starts V.POOL conn [] [] false
            self.old.world
            self.new.world }
    {
        steps::close(&mut self.world, conn);
    }

    /// The peer of a connection is gone.
    pub fn hang_up(&mut self, conn: ConnId)
        ensures reported { EndsIn P.turns conn How.Gone self.old.world self.new.world }
        ensures alone { ProceedsIn P.turns conn [] [] true self.old.world self.new.world }
        ensures visits { VisitsAdvance P.turns V.starts V.POOL conn [] [] true self.old.world
            self.new.world }
    {
        steps::hang_up(&mut self.world, conn);
    }

    /// Whether the processes have closed a connection, or it never was.
    pub fn is_over(&mut self, conn: ConnId) -> bool
        ensures over { result ≡ lacks_conn (copied self.old.world).machine conn }
        ensures same { copied self.new.world ≡ copied self.old.world }
        ensures visits { VisitsStay P.turns V.starts V.POOL self.old.world self.new.world }
    {
        steps::is_over(&mut self.world, conn)
    }

    /// Bytes arrive on a connection, as many as fit. Returns the rest.
    pub fn hand_in<'a>(&mut self, conn: ConnId, bytes: &'a [u8]) -> &'a [u8]
        ensures alone { ArrivesIn P.turns conn bytes.now result.now self.old.world self.new.world }
        ensures visits { VisitsArrive P.turns V.starts V.POOL conn bytes.now result.now
            self.old.world self.new.world }
    {
        steps::hand_in(&mut self.world, conn, bytes)
    }

    /// Sends the queued output of a connection to a writer, at most this number of bytes. Returns
    /// how many, or none if the processes have closed the connection.
    pub fn collect<W: Write>(&mut self, conn: ConnId, writer: &mut W, most: u32) -> Option<u32>
        ensures over { IsNone result → lacks_conn (copied self.new.world).machine conn ≡ true }
        ensures alone { SendsIn P.turns conn W.contents writer.old writer.new self.old.world
            self.new.world }
        ensures visits { VisitsSend P.turns V.starts V.POOL conn (W.contents writer.old)
            (W.contents writer.new) self.old.world self.new.world }
    {
        steps::collect(&mut self.world, conn, writer, most)
    }

    /// Offers the queued output of a connection to a taker, at most this number of bytes. None: the
    /// processes have closed the connection.
    pub fn offer<G: Gather>(&mut self, conn: ConnId, taker: &mut G, most: u32) -> Option<Drained>
        ensures over { IsNone result → lacks_conn (copied self.new.world).machine conn ≡ true }
        ensures alone { SendsIn P.turns conn G.contents taker.old taker.new self.old.world
            self.new.world }
        ensures visits { VisitsSend P.turns V.starts V.POOL conn (G.contents taker.old)
            (G.contents taker.new) self.old.world self.new.world }
        ensures calls { IsCalled G.gathers taker.old taker.new }
    {
        steps::offer(&mut self.world, conn, taker, most)
    }
}
