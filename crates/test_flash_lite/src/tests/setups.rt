//! A site that is set up in a new system.
use flash_lite::actor::Actor;
use flash_lite::setup::setup;
use flash_lite::site::Site;
use iol_back::memory::MemoryBacking;
use iol_core::configuration::Config;
use iol_core::numbers::DomainId;
use iol_core::refusals::Refusal;
use iol_system::system::System;
use std::alloc::Global;
use std::test::Fail;
use test_parts::checks::pass;
use test_sites::sites::site_of;
use test_worlds::files::{Kept, store_of};

const FILES: [Kept<'static>; 2] = [
    ("hello.cgi", b"emit hello\n", false),
    ("p", b"secret", true),
];

// A new system over a store of the files.
fn system_of(alloc: Global) -> Result<System<MemoryBacking>, Refusal> {
    let store = store_of(alloc, &FILES)?;
    System::new(alloc, Config::DEFAULT, store)
}

// The processes of a site, with their domains.
fn processes_of(
    alloc: Global,
    mut system: System<MemoryBacking>,
    site: &Site,
) -> Result<Vec<(DomainId, Actor)>, Refusal> {
    let processes = setup(alloc, &mut system, site);
    drop(system);
    processes
}

// Returns whether they are in the domains 1, 2 and 3: the server and two workers.
fn are_in_slots(processes: &[(DomainId, Actor)]) -> bool {
    let mut last = 0u32;
    for (domain, _process) in processes {
        if domain.number() != last.saturating_add(1) {
            return false;
        }
        last = domain.number();
    }
    last == 3
}

fn sets_up(alloc: Global) -> Result<bool, Refusal> {
    let site = site_of(alloc, &FILES, 2, 1)?;
    let processes = processes_of(alloc, system_of(alloc)?, &site)?;
    let in_slots = are_in_slots(&processes);
    drop((site, processes));
    Ok(in_slots)
}

// Each call that needs memory succeeds if there is enough.
#[test]
fn ample(rt: HostRuntime) -> Result<(), Fail> {
    pass(sets_up(rt.alloc()))
}
