//! Two domains, a pipe and an aggregate, by typed calls.
use iol_api::domain::Domain;
use iol_back::memory::MemoryBacking;
use iol_back::slots::Slots;
use iol_core::configuration::Config;
use iol_core::lists::Bytes;
use iol_core::numbers::{AggId, DomainId, Fd};
use iol_core::refusals::Refusal;
use iol_system::system::System;
use std::alloc::Global;
use std::test::Fail;

// Domain 1 makes domain 2, a pool that both may read, and a pipe of which domain 2 gets the read end, and writes "hello".
fn send(alloc: Global, system: &mut System<MemoryBacking>) -> Result<Fd, Refusal> {
    let mut first = Domain::new(alloc, system, DomainId::new(1));
    let second = first.domain_new()?;
    let pool = first.pool_create(1, &[DomainId::new(1), second])?;
    first.set_pool(pool)?;
    let hello = first.agg_make(b"hello")?;
    let (read, write) = first.pipe()?;
    first.iol_write(write, hello)?;
    first.give_fd(read, second)
}

// Domain 2 reads three bytes, and shows them.
fn receive(alloc: Global, system: &mut System<MemoryBacking>, read: Fd) -> Result<Bytes, Refusal> {
    let mut second = Domain::new(alloc, system, DomainId::new(2));
    let front = second.iol_read(read, 3)?;
    second.show(front)
}

// Domain 2 reads one byte into borrowed memory. Returns whether it is "l".
fn reads_into(alloc: Global, system: &mut System<MemoryBacking>, read: Fd) -> bool {
    let mut second = Domain::new(alloc, system, DomainId::new(2));
    let mut memory = *b"....";
    second.read_into(read, &mut memory[..1]) == Ok(1) && memory.as_slice() == b"l...".as_slice()
}

// Domain 1 shows an aggregate in memory with room for it, and without.
fn shows_into(alloc: Global, system: &mut System<MemoryBacking>) -> Result<bool, Refusal> {
    let mut first = Domain::new(alloc, system, DomainId::new(1));
    let last = first.agg_make(b"last")?;
    let mut large = *b"......";
    let mut small = *b"..";
    let fits = first.show_into(last, &mut large)? == 4 && large.as_slice() == b"last..".as_slice();
    Ok(fits && first.show_into(last, &mut small)? == 4 && small.as_slice() == b"..".as_slice())
}

// The refusal of domain 2 when it drops an aggregate that it does not have.
fn drops_nothing(alloc: Global, system: &mut System<MemoryBacking>) -> bool {
    let mut second = Domain::new(alloc, system, DomainId::new(2));
    matches!(second.agg_drop(AggId::new(9)), Err(Refusal::BadAgg))
}

// Returns whether all calls have the specified results.
fn passes(alloc: Global, system: &mut System<MemoryBacking>) -> bool {
    let Ok(read) = send(alloc, system) else {
        return false;
    };
    let is_refused = drops_nothing(alloc, system);
    let is_received = match receive(alloc, system, read) {
        Ok(bytes) => bytes.as_slice() == b"hel".as_slice(),
        Err(_) => false,
    };
    let is_borrowed = reads_into(alloc, system, read) && shows_into(alloc, system) == Ok(true);
    is_refused && is_received && is_borrowed
}

fn run(alloc: Global) -> Result<bool, Refusal> {
    let store = MemoryBacking::new(Slots::new(alloc));
    let mut system = System::new(alloc, Config::DEFAULT, store)?;
    let passed = passes(alloc, &mut system);
    drop(system);
    Ok(passed)
}

#[test]
fn calls_by_name(rt: HostRuntime) -> Result<(), Fail> {
    let passed = run(rt.alloc());
    assert!(rt; matches!(passed, Ok(true)));
    Ok(())
}
