//! A world in which [`Echo`] is the only process.
use iol_back::memory::MemoryBacking;
use iol_core::configuration::Config;
use iol_core::events::{Call, Event};
use iol_core::lists::Domains;
use iol_core::numbers::{DomainId, PoolId};
use iol_core::refusals::Refusal;
use std::alloc::Global;
use test_worlds::echo::Echo;
use test_worlds::files::empty_store;
use test_worlds::systems::{TestSystem, call_of};
use test_worlds::worlds::TestWorld;

const CONFIG: Config = Config {
    chunks: 1,
    gen_limit: u32::MAX,
    sums: 8,
};

/// A world of one process that sends back its input.
pub type Echoing = TestWorld<MemoryBacking, Echo>;

// The events that create a pool, for these domains.
fn beginnings(domains: Domains) -> [Event; 2] {
    let pool = PoolId::new(1);
    [
        call_of(1, Call::PoolCreate { chunks: 1, domains }),
        call_of(1, Call::SetPool { pool }),
    ]
}

/// The world, whose domain has a pool, its first.
pub fn echoing(alloc: Global) -> Result<Echoing, Refusal> {
    let domains = Domains::from_vec([DomainId::new(1)].to_vec(alloc)?);
    let events = beginnings(domains);
    let store = empty_store(alloc);
    let system = TestSystem::begun(alloc, CONFIG, store, &[&events])?;
    Ok(TestWorld::of_one(alloc, system, 1, Echo::new())?)
}
