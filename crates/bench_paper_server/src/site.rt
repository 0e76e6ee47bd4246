//! A system with files, and the server in its domain.
ghost use Rattle.std.specs.Prelude.{◌≡◌, [], ◌∷◌, map, IfOk};

use crate::passing::Passing;
use crate::server::Server;
use iol_back::memory::MemoryBacking;
use iol_core::configuration::Config;
use iol_core::events::{Call, Event};
use iol_core::lists::{Bytes, Domains};
use iol_core::numbers::{DomainId, PoolId};
use iol_core::refusals::Refusal;
use iol_proc::world::World;
use std::alloc::{AllocError, Global};
use test_parts::texts::bytes_of;
use test_worlds::files::{Kept, store_of};
use test_worlds::systems::{TestSystem, call_of};

/// The pool of the files and of the bytes that the server makes, and the pool of the bytes that
/// clients send.
const SITE_POOL: u32 = 1;

pub const NET_POOL: u32 = 2;

/// The chunks of the second.
const NET_CHUNKS: u32 = 8;

/// The files that are served, and how.
#[derive(Drop)]
pub struct Site {
    pub passing: Passing,

    /// The chunks of the pool of the files.
    pub chunks: u32,

    /// The lengths of the files.
    pub lengths: Vec<u32>,
}

/// The name of a file by its index.
pub fn name_of(alloc: Global, index: u32) -> Result<Bytes, AllocError> {
    let [_, _, high, low] = index.to_be_bytes();
    let name = Vec::from_slice(alloc, &[high, low])?;
    Ok(Bytes::from_vec(name))
}

// A pool that only domain 1 reads.
fn pool(alloc: Global, chunks: u32) -> Result<Event, AllocError> {
    let domains = Domains::from_vec([DomainId::new(1)].to_vec(alloc)?);
    Ok(call_of(1, Call::PoolCreate { chunks, domains }))
}

// The events that make the pools and name the files.
fn events_of(alloc: Global, site: &Site) -> Result<Vec<Event>, AllocError> {
    let pool_of_site = PoolId::new(SITE_POOL);
    let mut events = Vec::new(alloc);
    events.push(pool(alloc, site.chunks)?)?;
    events.push(pool(alloc, NET_CHUNKS)?)?;
    events.push(call_of(1, Call::SetPool { pool: pool_of_site }))?;
    for (index, _length) in site.lengths.iter().enumerate() {
        let name = name_of(alloc, (index % 65_536) as u32)?;
        let file = Call::FileNew {
            name,
            pool: pool_of_site,
        };
        events.push(call_of(1, file))?;
    }
    Ok(events)
}

// Files of these lengths, with the first bytes of a text.
fn files_of<'a>(
    alloc: Global,
    text: &'a [u8],
    lengths: &[u32],
) -> Result<Vec<Kept<'a>>, AllocError> {
    let mut files = Vec::new(alloc);
    for length in lengths {
        let most = (*length as usize).min(text.len());
        files.push(("", &text[..most], false))?;
    }
    Ok(files)
}

// A store with the files.
fn store(alloc: Global, lengths: &[u32]) -> Result<MemoryBacking, AllocError> {
    let mut longest = 0u32;
    for length in lengths {
        longest = longest.max(*length);
    }
    let text = bytes_of(alloc, longest as usize)?;
    let files = files_of(alloc, &text, lengths)?;
    store_of(alloc, &files)
}

/// A system with the files.
pub fn system(alloc: Global, site: &Site) -> Result<TestSystem<MemoryBacking>, Refusal> {
    let config = Config {
        chunks: site.chunks.saturating_add(NET_CHUNKS),
        ..Config::DEFAULT
    };
    let store = store(alloc, &site.lengths)?;
    let events = events_of(alloc, site)?;
    TestSystem::begun(alloc, config, store, &[&events])
}

// The server in domain 1.
fn in_slots(alloc: Global, server: Server) -> Result<Vec<(DomainId, Server)>, AllocError>
    ensures { IfOk result (λ ps. map (λ p. p.0) ps.items ≡ 1 ∷ []) }
{
    let mut processes = Vec::new(alloc);
    processes.push((DomainId::new(1), server))?;
    Ok(processes)
}

/// A world of the server.
pub fn world(alloc: Global, site: &Site) -> Result<World<MemoryBacking, Server>, Refusal> {
    let server = Server::new(alloc, site.passing, &site.lengths)?;
    let processes = in_slots(alloc, server)?;
    let system = system(alloc, site)?;
    Ok(World::new(alloc, system.into_system(), processes)?)
}
