//! The state before the rounds.
use iol_back::memory::MemoryBacking;
use iol_core::configuration::Config;
use iol_core::descriptors::Mode;
use iol_core::events::{Call, Event};
use iol_core::lists::{Bytes, Domains};
use iol_core::numbers::{AggId, DomainId, Fd, PoolId};
use iol_core::refusals::Refusal;
use std::alloc::{AllocError, Global};
use test_parts::texts::bytes_of;
use test_worlds::files::empty_store;
use test_worlds::systems::{TestSystem, call_of};

/// The measured system.
pub type Machine = TestSystem<MemoryBacking>;

/// The descriptors of domain 1.
pub const FILE: u32 = 0;

pub const READ_END: u32 = 1;

pub const WRITE_END: u32 = 2;

pub const SOCKET: u32 = 3;

/// The number of domains that take turns.
const DOMAINS: u32 = 5;

/// A call of domain 1.
pub fn call(call: Call) -> Event {
    call_of(1, call)
}

/// `len` bytes.
pub fn text(alloc: Global, len: u32) -> Result<Bytes, AllocError> {
    let bytes = bytes_of(alloc, len as usize)?;
    Ok(Bytes::from_vec(bytes))
}

// A pool of all chunks for these domains, and an aggregate of these bytes in it.
fn aggregate(domains: Domains, bytes: Bytes) -> [Event; 3] {
    let (pool, chunks) = (PoolId::new(1), Config::DEFAULT.chunks);
    [
        call(Call::PoolCreate { chunks, domains }),
        call(Call::SetPool { pool }),
        call(Call::AggMake { bytes }),
    ]
}

// A file with the bytes of the aggregate, which are only in the store. It is created under a name,
// and opened by the same.
fn file(name: Bytes, again: Bytes) -> [Event; 5] {
    let (pool, agg, fd, mode) = (PoolId::new(1), AggId::new(1), Fd::new(FILE), Mode::Both);
    [
        call(Call::FileNew { name, pool }),
        call(Call::OpenFile { name: again, mode }),
        call(Call::IolWrite { fd, agg }),
        call(Call::Fsync { fd }),
        Event::DropClean,
    ]
}

// A pipe, and a connection that is accepted.
fn queues() -> [Event; 3] {
    let pool = PoolId::new(1);
    [
        call(Call::Pipe),
        Event::ConnNew { pool },
        call(Call::Accept),
    ]
}

// Four domains more, and an empty pipe for each.
fn pipes(alloc: Global) -> Result<Vec<Event>, AllocError> {
    let mut events = Vec::new(alloc);
    for _ in 1..DOMAINS {
        events.push(call(Call::DomainNew))?;
    }
    for number in 1..=DOMAINS {
        events.push(call_of(number, Call::Pipe))?;
    }
    Ok(events)
}

// A system after lists of events were executed in order.
fn begun(alloc: Global, lists: &[&[Event]]) -> Result<Machine, Refusal> {
    TestSystem::begun(alloc, Config::DEFAULT, empty_store(alloc), lists)
}

// The events that make the aggregate.
fn making(alloc: Global, len: u32) -> Result<[Event; 3], AllocError> {
    let domains = Domains::from_vec([DomainId::new(1)].to_vec(alloc)?);
    let bytes = text(alloc, len)?;
    Ok(aggregate(domains, bytes))
}

// The events that make the file.
fn filing(alloc: Global) -> Result<[Event; 5], AllocError> {
    let name = text(alloc, 1)?;
    let again = text(alloc, 1)?;
    Ok(file(name, again))
}

/// A system in which domain 1 has an aggregate of `len` bytes, a file of the same bytes, a pipe
/// and a connection.
pub fn system(alloc: Global, len: u32) -> Result<Machine, Refusal> {
    let made = making(alloc, len)?;
    let filed = filing(alloc)?;
    begun(alloc, &[&made, &filed, &queues()])
}

/// A system of five domains, each with an empty pipe.
pub fn five_domains(alloc: Global) -> Result<Machine, Refusal> {
    let events = pipes(alloc)?;
    begun(alloc, &[&events])
}
