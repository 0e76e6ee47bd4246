//! A world, as a type without contracts.
ghost use Rattle.std.specs.Prelude.{◌≡◌, [], ◌∷◌, map, nat_eq, IfOk};
ghost use Rattle.std.specs.List.{IsDistinct};

use crate::systems::{TestSystem, call_of};
use iol_back::backing::Backing;
use iol_core::events::{Call, Event, Reply};
use iol_core::numbers::{ConnId, DomainId, PoolId};
use iol_core::refusals::Refusal;
use iol_proc::choice::Choice;
use iol_proc::process::Process;
use iol_proc::world::World;
use iol_sock::{Arrived, Drained, Gather};
use std::alloc::{AllocError, Global};
use std::io::{Read, Write};
use std::marker::Model;

// A process in its domain.
fn in_slots<P: Process>(
    alloc: Global,
    by: u32,
    process: P,
) -> Result<Vec<(DomainId, P)>, AllocError>
    ensures { IfOk result (λ ps. map (λ p. p.0) ps.items ≡ by ∷ []) }
{
    let mut processes = Vec::new(alloc);
    processes.push((DomainId::new(by), process))?;
    Ok(processes)
}

/// A system, and processes in some of its domains.
#[derive(Drop)]
pub struct TestWorld<B: Backing, P: Process> {
    world: World<B, P>,
}

impl<B: Backing, P: Process> Model for TestWorld<B, P> {
    ghost Value = { Unit {0} };

    ghost view = { λ _. tt };
}

impl<B: Backing + Drop, P: Process> TestWorld<B, P> {
    /// A world of these processes, each in its domain.
    pub fn new(
        alloc: Global,
        system: TestSystem<B>,
        processes: Vec<(DomainId, P)>,
    ) -> Result<TestWorld<B, P>, AllocError>
        requires { IsDistinct nat_eq (map (λ p. p.0) processes.items) }
    {
        let world = World::new(alloc, system.into_system(), processes)?;
        Ok(TestWorld { world })
    }

    /// A world of one process.
    pub fn of_one(
        alloc: Global,
        system: TestSystem<B>,
        by: u32,
        process: P,
    ) -> Result<TestWorld<B, P>, AllocError> {
        let processes = in_slots(alloc, by, process)?;
        TestWorld::new(alloc, system, processes)
    }

    /// An existing world.
    pub fn of(world: World<B, P>) -> TestWorld<B, P> {
        TestWorld { world }
    }

    /// Borrows the world.
    pub fn world(&mut self) -> &mut World<B, P> {
        &mut self.world
    }

    /// Executes an external event.
    pub fn step(&mut self, event: Event) -> Reply {
        self.world.step_outside(event)
    }

    /// A call that no process makes.
    pub fn call(&mut self, by: u32, call: Call) -> Reply {
        self.step(call_of(by, call))
    }

    /// Executes choices in order.
    pub fn run(&mut self, choices: &[Choice]) -> Result<Vec<Reply>, AllocError> {
        self.world.run(choices)
    }

    /// At most `turns` turns, until all are idle.
    pub fn until_idle(&mut self, turns: usize) -> bool {
        self.world.until_idle(turns)
    }

    /// Turns until all are idle.
    pub fn quiesce(&mut self) -> bool {
        self.until_idle(65_536)
    }

    /// Returns whether a turn got a resource refusal: out of pages, numbers or memory, or a fault.
    pub fn is_resource_failure(&self) -> bool {
        self.world.rough()
    }

    /// The process of a domain.
    pub fn process(&self, by: u32) -> Option<&P> {
        self.world.process(DomainId::new(by))
    }

    /// A new connection of a pool.
    pub fn connect(&mut self, pool: u32) -> Option<ConnId> {
        let pool = PoolId::new(pool);
        match self.step(Event::ConnNew { pool }) {
            Reply::Conn(conn) => Some(conn),
            _ => None,
        }
    }

    /// Returns whether the connection exists.
    pub fn has(&mut self, conn: ConnId) -> bool {
        let last = self.step(Event::Transmit { conn, max: 1 });
        !matches!(last, Reply::Refused(Refusal::BadFd))
    }

    /// Bytes arrive from a reader.
    pub fn arrive_from<R: Read>(
        &mut self,
        conn: ConnId,
        reader: &mut R,
        max: u32,
    ) -> Result<Arrived, Refusal> {
        self.world.arrive_from(conn, reader, max)
    }

    /// Bytes go out to a writer.
    pub fn drain_to<W: Write>(
        &mut self,
        conn: ConnId,
        writer: &mut W,
        max: u32,
    ) -> Result<Drained, Refusal> {
        self.world.drain_to(conn, writer, max)
    }

    /// Bytes are offered to a taker of several slices.
    pub fn drain_into<G: Gather>(
        &mut self,
        conn: ConnId,
        taker: &mut G,
        max: u32,
    ) -> Result<Drained, Refusal> {
        self.world.drain_into(conn, taker, max)
    }
}
