//! A system with a pipe, for worlds.
use iol_back::memory::MemoryBacking;
use iol_core::configuration::Config;
use iol_core::events::{Call, Event};
use iol_core::lists::Domains;
use iol_core::numbers::{DomainId, Fd, PoolId};
use iol_core::refusals::Refusal;
use std::alloc::Global;
use test_worlds::files::empty_store;
use test_worlds::systems::{TestSystem, call_of};

// Domain 1 makes domain 2, a pool of these two, and a pipe whose read end it gives to domain 2.
fn beginnings(domains: Domains) -> [Event; 5] {
    let (pool, fd, to) = (PoolId::new(1), Fd::new(0), DomainId::new(2));
    let chunks = 16;
    [
        call_of(1, Call::DomainNew),
        call_of(1, Call::PoolCreate { chunks, domains }),
        call_of(1, Call::SetPool { pool }),
        call_of(1, Call::Pipe),
        call_of(1, Call::GiveFd { fd, to }),
    ]
}

/// A system with a pipe from domain 1 to domain 2, and a pool of both.
pub fn system_with_pipe(alloc: Global) -> Result<TestSystem<MemoryBacking>, Refusal> {
    let domains = Domains::from_vec([DomainId::new(1), DomainId::new(2)].to_vec(alloc)?);
    let events = beginnings(domains);
    TestSystem::begun(alloc, Config::DEFAULT, empty_store(alloc), &[&events])
}
