//! Requests and responses through an engine, over a socket in memory whose reads and writes are
//! short and block. A request is a line, and its response the same line.
ghost use Rattle.std.specs.Prelude.{◌≡◌, [], ◌∷◌, map, IfOk};

use crate::memory_socket::{Manner, MemorySocket};
use iol_back::memory::MemoryBacking;
use iol_core::configuration::Config;
use iol_core::events::{Call, Event};
use iol_core::lists::Domains;
use iol_core::numbers::{DomainId, PoolId};
use iol_core::refusals::Refusal;
use iol_proc::world::World;
use iol_reactor::engine::Engine;
use iol_reactor::limits::Limits;
use iol_reactor::service::{Exchange, Frame, Progress, Service};
use std::alloc::{AllocError, Global};
use std::net::{Ipv4Addr, SocketAddr};
use std::test::Fail;
use test_parts::checks::pass_each;
use test_worlds::echo::Echo;
use test_worlds::files::empty_store;
use test_worlds::systems::{TestSystem, call_of};

const LINES: &[u8] = b"first\n\nthird line\n4\n";

// The number of bytes up to the end of the empty line.
const UP_TO_EMPTY: usize = 7;

const CONFIG: Config = Config {
    chunks: 1,
    gen_limit: u32::MAX,
    sums: 8,
};

// The turns of a round.
const TURNS: usize = 4_096;

// The milliseconds in which requests in progress finish after a new world has begun.
const RETIRE_MILLIS: u64 = 100;

// A service whose requests are lines. It counts the responses that were sent whole. An empty line
// may be the last request of a connection.
#[derive(Drop)]
struct Lines {
    whole: u32,
    closes: bool,
}

impl Service<MemoryBacking, Echo> for Lines {
    const POOL: u32 = 1;

    ghost POOL = { 1 };

    fn frame(&self, alloc: Global, bytes: &[u8]) -> Result<Frame, AllocError> {
        let _ = alloc;
        Ok(match bytes.iter().position(|byte| *byte == b'\n') {
            Some(0) if self.closes => Frame::Last(1),
            Some(place) => Frame::Complete(place.saturating_add(1)),
            None => Frame::Incomplete,
        })
    }

    fn progress(&self, exchange: &Exchange<'_>) -> Progress {
        if exchange.produced >= exchange.request.len() as u64 {
            Progress::Complete
        } else {
            Progress::Unknown
        }
    }

    fn record(&mut self, exchange: &Exchange<'_>) {
        if exchange.complete {
            self.whole = self.whole.saturating_add(1);
        }
    }

    fn flush(&mut self) {}

    fn renew(&mut self, is_worn: bool) -> Option<World<MemoryBacking, Echo>> {
        let _ = is_worn;
        None
    }
}

type Echoes<'a> = Engine<MemorySocket<'a>, MemoryBacking, Echo, Lines>;

// A world of one process that sends back its input.
fn world_of(alloc: Global) -> Result<World<MemoryBacking, Echo>, Refusal> {
    let domains = Domains::from_vec([DomainId::new(1)].to_vec(alloc)?);
    let pool = PoolId::new(1);
    let events = [
        call_of(1, Call::PoolCreate { chunks: 1, domains }),
        call_of(1, Call::SetPool { pool }),
    ];
    let system = TestSystem::begun(alloc, CONFIG, empty_store(alloc), &[&events])?;
    Ok(world_over(alloc, system)?)
}

// The process, in its domain.
fn processes_of(alloc: Global) -> Result<Vec<(DomainId, Echo)>, AllocError>
    ensures { IfOk result (λ ps. map (λ p. p.0) ps.items ≡ 1 ∷ []) }
{
    let mut processes = Vec::new(alloc);
    processes.push((DomainId::new(1), Echo::new()))?;
    Ok(processes)
}

// A world of that process over a system.
fn world_over(
    alloc: Global,
    system: TestSystem<MemoryBacking>,
) -> Result<World<MemoryBacking, Echo>, AllocError> {
    let processes = processes_of(alloc)?;
    World::new(alloc, system.into_system(), processes)
}

fn engine_of<'a>(alloc: Global) -> Result<Echoes<'a>, Refusal> {
    let mut limits = Limits::DEFAULT;
    limits.max_clients = 2;
    limits.retire_millis = RETIRE_MILLIS;
    let world = world_of(alloc)?;
    Ok(Engine::new(alloc, world, limits)?)
}

// The bytes of one read, and of one write, at most; which calls block; whether the peer's end
// follows its lines.
type Row = (usize, usize, u32, bool);

const ROWS: [Row; 8] = [
    (64, 64, 0, true),
    (64, 64, 0, false),
    (1, 1, 0, true),
    (1, 1, 0, false),
    (1, 1, 2, true),
    (1, 1, 2, false),
    (3, 2, 3, true),
    (2, 64, 2, false),
];

// The second write of the first response blocks.
const BLOCKED_ROWS: [Row; 3] = [(6, 1, 2, true), (6, 3, 2, false), (64, 5, 2, false)];

// Rounds, each after all sockets were reported ready, up to the end of the client, at most 1,000:
// the bytes that its socket had accepted before the last of them.
fn exchange_all(engine: &mut Echoes<'_>, service: &mut Lines) -> Result<usize, AllocError> {
    let mut accepted = 0;
    for now in 0..1_000 {
        engine.set_now(now);
        let Some(socket) = engine.socket(0) else {
            return Ok(accepted);
        };
        if !LINES.starts_with(socket.accepted()) || socket.output_ends() > 1 {
            return Ok(0);
        }
        accepted = socket.accepted().len();
        engine.note(0, true, false, true)?;
        engine.round(TURNS, service)?;
        engine.expire(service)?;
    }
    Ok(accepted)
}

// A client whose socket is that of a row comes. False: there is no place for it.
fn admit(alloc: Global, engine: &mut Echoes<'_>, row: &Row) -> bool {
    let (read, write, blocks, ends) = *row;
    let manner = Manner {
        read,
        write,
        blocks,
        fails: 0,
        ends,
    };
    if engine.vacancy() != Some(0) {
        return false;
    }
    let peer = SocketAddr::from((Ipv4Addr::LOCALHOST, 1));
    engine.admit(MemorySocket::new(alloc, LINES, manner), peer);
    true
}

// Whether each line has its response, and the client ends as its peer does.
fn exchange(alloc: Global, engine: &mut Echoes<'_>, row: &Row) -> Result<bool, AllocError> {
    if !admit(alloc, engine, row) {
        return Ok(false);
    }
    let mut service = Lines {
        whole: 0,
        closes: false,
    };
    let accepted = exchange_all(engine, &mut service)?;
    let remains = engine.count() == 1;
    Ok(accepted == LINES.len() && service.whole == 4 && remains == !row.3)
}

// Whether no line is handed in after the empty one, which is the last request. The process does not
// close the connection after it, so the client stays.
fn stop(alloc: Global, engine: &mut Echoes<'_>, row: &Row) -> Result<bool, AllocError> {
    if !admit(alloc, engine, row) {
        return Ok(false);
    }
    let mut service = Lines {
        whole: 0,
        closes: true,
    };
    let accepted = exchange_all(engine, &mut service)?;
    Ok(accepted == UP_TO_EMPTY && service.whole == 1 && engine.count() == 1)
}

// Whether a client whose response is blocked stays while the world of its request retires, and ends
// with the time that it has for that.
fn retire(alloc: Global, engine: &mut Echoes<'_>, row: &Row) -> Result<bool, Refusal> {
    if !admit(alloc, engine, row) {
        return Ok(false);
    }
    let mut service = Lines {
        whole: 0,
        closes: false,
    };
    engine.note(0, true, false, true)?;
    engine.round(TURNS, &mut service)?;
    engine.renew(world_of(alloc)?);
    engine.set_now(RETIRE_MILLIS - 1);
    engine.expire(&mut service)?;
    let stays = engine.worlds().is_retiring() && engine.count() == 1;
    engine.set_now(RETIRE_MILLIS);
    engine.expire(&mut service)?;
    let is_dropped = !engine.worlds().is_retiring() && engine.worlds().links() == 0;
    engine.round(TURNS, &mut service)?;
    Ok(stays && is_dropped && service.whole == 0 && engine.count() == 0)
}

fn exchanges(alloc: Global, row: &Row) -> Result<bool, Refusal> {
    let mut engine = engine_of(alloc)?;
    let holds = exchange(alloc, &mut engine, row);
    drop(engine);
    Ok(holds?)
}

fn stops(alloc: Global, row: &Row) -> Result<bool, Refusal> {
    let mut engine = engine_of(alloc)?;
    let holds = stop(alloc, &mut engine, row);
    drop(engine);
    Ok(holds?)
}

fn retires(alloc: Global, row: &Row) -> Result<bool, Refusal> {
    let mut engine = engine_of(alloc)?;
    let holds = retire(alloc, &mut engine, row);
    drop(engine);
    holds
}

#[test]
fn each_exchange(rt: HostRuntime) -> Result<(), Fail> {
    let alloc = rt.alloc();
    pass_each(&ROWS, |row| exchanges(alloc, row))
}

#[test]
fn each_stop(rt: HostRuntime) -> Result<(), Fail> {
    let alloc = rt.alloc();
    pass_each(&ROWS, |row| stops(alloc, row))
}

#[test]
fn each_retirement(rt: HostRuntime) -> Result<(), Fail> {
    let alloc = rt.alloc();
    pass_each(&BLOCKED_ROWS, |row| retires(alloc, row))
}
