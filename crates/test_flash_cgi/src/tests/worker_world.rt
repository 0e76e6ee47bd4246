//! A worker in domain 2, in a world whose domain 1 gives it jobs. Domain 3 is a guest with a
//! private file.
use flash_cgi::worker::Worker;
use iol_back::memory::MemoryBacking;
use iol_core::configuration::Config;
use iol_core::events::{Call, Event};
use iol_core::lists::{Bytes, Domains};
use iol_core::numbers::{DomainId, Fd, PoolId};
use iol_core::refusals::Refusal;
use std::alloc::{AllocError, Global};
use test_parts::checks::lend;
use test_worlds::files::{Kept, store_of};
use test_worlds::systems::{TestSystem, call_of};
use test_worlds::worlds::TestWorld;

/// The world of a worker.
pub type WorkerWorld = TestWorld<MemoryBacking, Worker>;

fn domains(alloc: Global, numbers: &[u32]) -> Result<Domains, AllocError> {
    let mut list = Vec::new(alloc);
    for number in numbers {
        list.push(DomainId::new(*number))?;
    }
    Ok(Domains::from_vec(list))
}

fn pool(alloc: Global, chunks: u32, numbers: &[u32]) -> Result<Event, AllocError> {
    let domains = domains(alloc, numbers)?;
    Ok(call_of(1, Call::PoolCreate { chunks, domains }))
}

fn file_event(alloc: Global, file: &Kept<'_>) -> Result<Event, AllocError> {
    let (name, _bytes, private) = *file;
    let (by, number) = if private { (3, 4) } else { (1, 1) };
    let name = Bytes::from_vec(Vec::from_slice(alloc, name.as_bytes())?);
    let pool = PoolId::new(number);
    Ok(call_of(by, Call::FileNew { name, pool }))
}

// Domains; the pools `site`, `net`, `work` and `vault`; files; and a job pipe with its read end at
// the worker.
fn beginnings(alloc: Global, files: &[Kept<'_>]) -> Result<Vec<Event>, AllocError> {
    let mut events = Vec::new(alloc);
    events.push(call_of(1, Call::DomainNew))?;
    events.push(call_of(1, Call::DomainNew))?;
    events.push(pool(alloc, 3, [1, 2, 3].as_slice())?)?;
    events.push(pool(alloc, 1, [1].as_slice())?)?;
    events.push(pool(alloc, 1, [1, 2, 3].as_slice())?)?;
    events.push(pool(alloc, 1, [3].as_slice())?)?;
    for by in [1, 2, 3] {
        let pool = PoolId::new(3);
        events.push(call_of(by, Call::SetPool { pool }))?;
    }
    for file in files {
        events.push(file_event(alloc, file)?)?;
    }
    events.push(call_of(1, Call::Pipe))?;
    let (fd, to) = (Fd::new(0), DomainId::new(2));
    events.push(call_of(1, Call::GiveFd { fd, to }))?;
    Ok(events)
}

/// The world of a worker that waits for its first job, with files.
pub fn worker_world(alloc: Global, files: &[Kept<'_>]) -> Result<WorkerWorld, Refusal> {
    let store = store_of(alloc, files)?;
    let events = beginnings(alloc, files)?;
    let system = TestSystem::begun(alloc, Config::DEFAULT, store, &[&events])?;
    Ok(TestWorld::of_one(alloc, system, 2, Worker::new(alloc))?)
}

/// Returns the result of a test in the world of a worker without files, which is dropped
/// afterwards.
pub fn in_worker_world<F: FnOnce(&mut WorkerWorld) -> bool + Drop>(
    alloc: Global,
    goes: F,
) -> Result<bool, Refusal>
    requires { F.IsAlwaysCallable goes }
{
    lend(worker_world(alloc, &[]), goes)
}
