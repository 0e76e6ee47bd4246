//! The example of the README, which `scripts/readme` compares with it.
use iol_back::memory::MemoryBacking;
use iol_back::slots::Slots;
use iol_core::configuration::Config;
use iol_core::events::{Call, Event, Reply};
use iol_core::lists::{Bytes, Domains};
use iol_core::numbers::{AggId, DomainId, PoolId};
use iol_core::refusals::Refusal;
use iol_system::system::System;
use std::alloc::{AllocError, Global};
use std::test::Fail;

// README: from here
// A system over a store in memory, with no file yet.
fn start(alloc: Global) -> Result<System<MemoryBacking>, Refusal> {
    let store = MemoryBacking::new(Slots::new(alloc));
    System::new(alloc, Config::DEFAULT, store)
}

// What domain 1 does: it makes domain 2, a pool that both may read, and an aggregate, and gives it away.
fn calls(alloc: Global) -> Result<Vec<Call>, AllocError> {
    let domains = Domains::from_vec([DomainId::new(1), DomainId::new(2)].to_vec(alloc)?);
    let bytes = Bytes::from_vec(b"hello".to_vec(alloc)?);
    let (pool, agg, to) = (PoolId::new(1), AggId::new(1), DomainId::new(2));
    let mut calls = vec![in alloc; Call::DomainNew, Call::PoolCreate { chunks: 1, domains }]?;
    calls.push(Call::SetPool { pool })?;
    calls.push(Call::AggMake { bytes })?;
    calls.push(Call::AggGive { agg, to })?;
    Ok(calls)
}

// Whether all of them pass.
fn pass(system: &mut System<MemoryBacking>, calls: Vec<Call>) -> bool {
    let mut all = true;
    for call in calls {
        let by = DomainId::new(1);
        let reply = system.step(Event::Call { by, call });
        all &= !matches!(reply, Reply::Refused(_));
    }
    all
}

// Whether domain 2 reads these bytes, in their places.
fn reads(system: &System<MemoryBacking>, bytes: &[u8]) -> bool {
    match system.parts(DomainId::new(2), AggId::new(1)) {
        Ok(mut parts) => parts.all(|part| part == bytes),
        Err(_) => false,
    }
}

#[test]
fn readme(rt: HostRuntime) -> Result<(), Fail> {
    let calls = calls(rt.alloc())?;
    let mut system = start(rt.alloc())?;
    assert!(rt; pass(&mut system, calls));
    assert!(rt; reads(&system, b"hello"));
    Ok(())
}
// README: to here
