//! Sets a site up.
ghost use Rattle.std.specs.Prelude.{◌≡◌, ◌<◌, ◌≤◌, ◌+◌, ◌++◌, true, false, Err, IfErr, IfOk, OnOk, map, nat_eq};
ghost use Rattle.std.specs.List.{IsDistinct, range_with_len};
ghost use Rattle.iol_system.specs.Prelude.{machine_of};
ghost use Rattle.flash_laws.specs.Prelude.{Serving};
ghost use Rattle.flash_lite.specs.SiteWorld.{SetsUpIfHonest};
ghost use Rattle.flash_lite.specs.Setup as spec;
ghost use Rattle.flash_lite.specs.SiteState.{LeavesSite};

use crate::actor::{Actor, Role, Worker};
use crate::laws::set_up_is_a_new_world;
use crate::layout::{FIRST_WORKER, JOBS, SERVER, SITE_POOL, VAULT_POOL, WORK_POOL};
use crate::server::Server;
use crate::site::{MAX_GUESTS, MAX_WORKERS, Site, SiteFile};
use iol_back::backing::Backing;
use iol_core::events::{Call, Event, Reply};
use iol_core::lists::{Bytes, Domains};
use iol_core::numbers::{DomainId, Fd, PoolId};
use iol_core::refusals::Refusal;
use iol_system::system::System;
use std::alloc::{AllocError, Global};

// Returns whether a file is private to the first guest.
fn is_private(site: &Site) -> bool
    ensures { result ≡ spec.is_private site.now }
{
    site.files.iter().any(|file| file.private)
}

// Returns whether its numbers are within their limits.
pub(crate) fn is_in_range(site: &Site) -> bool
    ensures { result ≡ spec.is_in_range site.now }
{
    1 <= site.workers
        && site.workers <= MAX_WORKERS
        && site.guests <= MAX_GUESTS
        && (0 < site.guests || !is_private(site))
}

fn call(by: u32, call: Call) -> Event
    ensures { result ≡ spec.call_by by call }
{
    Event::Call {
        by: DomainId::new(by),
        call,
    }
}

// `count` domains from `first` on.
fn domains(alloc: Global, first: u32, count: u32) -> Result<Domains, AllocError>
    requires { first + count < 1000 }
    ensures { IfOk result (λ domains. domains ≡ range_with_len first count) }
{
    let mut list = Vec::new(alloc);
    for k in 0..count {
        list.push(DomainId::new(first + k))?;
    }
    Ok(Domains::from_vec(list))
}

// A pool for `count` domains from `first` on.
fn pool(alloc: Global, chunks: u32, first: u32, count: u32) -> Result<Event, AllocError>
    requires { first + count < 1000 }
    ensures { IfOk result (λ e. e ≡ spec.pool chunks first count) }
{
    let domains = domains(alloc, first, count)?;
    Ok(call(SERVER, Call::PoolCreate { chunks, domains }))
}

// Creates domains.
fn add_domains(events: &mut Vec<Event>, count: u32) -> Result<(), AllocError>
    ensures { OnOk result (events.new.items ≡ events.old.items ++ spec.domains_made count) }
{
    for _ in 0..count {
        events.push(call(SERVER, Call::DomainNew))?;
    }
    Ok(())
}

// Creates pools: `site` and `work` for all, `net` for the server, `vault` for the first guest.
fn add_pools(alloc: Global, events: &mut Vec<Event>, site: &Site) -> Result<(), AllocError>
    requires { spec.is_in_range site.now ≡ true }
    ensures { OnOk result (events.new.items ≡ events.old.items ++ spec.pools_made site.now) }
{
    let count = 1 + site.workers + site.guests;
    events.push(pool(alloc, site.site_chunks, SERVER, count)?)?;
    events.push(pool(alloc, site.net_chunks, SERVER, 1)?)?;
    events.push(pool(alloc, site.work_chunks, SERVER, count)?)?;
    if is_private(site) {
        events.push(pool(alloc, site.vault_chunks, FIRST_WORKER + site.workers, 1)?)?;
    }
    Ok(())
}

// Each domain places its bytes in `work`.
fn add_defaults(events: &mut Vec<Event>, count: u32) -> Result<(), AllocError>
    requires { count < 1000 }
    ensures { OnOk result (events.new.items ≡ events.old.items ++ spec.defaults_set count) }
{
    for k in 0..count {
        let pool = PoolId::new(WORK_POOL);
        events.push(call(SERVER + k, Call::SetPool { pool }))?;
    }
    Ok(())
}

// Names a file.
fn file_call(alloc: Global, file: &SiteFile, guest: u32) -> Result<Event, AllocError>
    ensures { IfOk result (λ e. e ≡ spec.file_named guest file.now) }
{
    let name = Bytes::from_vec(Vec::from_slice(alloc, file.name.as_slice())?);
    let (by, number) = if file.private {
        (guest, VAULT_POOL)
    } else {
        (SERVER, SITE_POOL)
    };
    let pool = PoolId::new(number);
    Ok(call(by, Call::FileNew { name, pool }))
}

// Names the files.
fn add_files(
    alloc: Global,
    events: &mut Vec<Event>,
    files: &[SiteFile],
    guest: u32,
) -> Result<(), AllocError>
    ensures { OnOk result
        (events.new.items ≡ events.old.items ++ spec.files_named guest files.now) }
{
    for file in files {
        let event = file_call(alloc, file, guest)?;
        events.push(event)?;
    }
    Ok(())
}

// Gives each worker the read end of a pipe.
fn add_pipes(events: &mut Vec<Event>, workers: u32) -> Result<(), AllocError>
    requires { workers < 1000 }
    ensures { OnOk result (events.new.items ≡ events.old.items ++ spec.pipes_made workers) }
{
    for k in 0..workers {
        events.push(call(SERVER, Call::Pipe))?;
        let (fd, to) = (Fd::new(JOBS), DomainId::new(FIRST_WORKER + k));
        events.push(call(SERVER, Call::GiveFd { fd, to }))?;
    }
    Ok(())
}

// All calls.
fn calls(alloc: Global, site: &Site) -> Result<Vec<Event>, AllocError>
    requires { spec.is_in_range site.now ≡ true }
    ensures { IfOk result (λ events. events.items ≡ spec.calls site.now) }
{
    let mut events = Vec::new(alloc);
    let others = site.workers + site.guests;
    add_domains(&mut events, others)?;
    add_pools(alloc, &mut events, site)?;
    add_defaults(&mut events, 1 + others)?;
    add_files(
        alloc,
        &mut events,
        site.files.as_slice(),
        FIRST_WORKER + site.workers,
    )?;
    add_pipes(&mut events, site.workers)?;
    Ok(events)
}

// The first refusal among replies.
fn refusal_in(replies: &[Reply]) -> Option<Refusal>
    ensures { result ≡ spec.first_refusal replies.now }
{
    for reply in replies {
        if let Reply::Refused(refusal) = reply {
            return Some(*refusal);
        }
    }
    None
}

/// Sets a site up in a new system, and returns its processes: the server and, if the site has a
/// script, its workers. Numbers outside their limits are `BadRange`, before anything is done. Any
/// other refusal is that of the first refused call, or `Memory` before the first call; then the
/// system should be dropped.
pub fn setup<B: Backing + Drop>(
    alloc: Global,
    system: &mut System<B>,
    site: &Site,
) -> Result<Vec<(DomainId, Actor)>, Refusal>
    ensures range { spec.is_in_range site.now ≡ false → result ≡ Err Refusal.BadRange }
    ensures in_range { OnOk result (spec.is_in_range site.now ≡ true) }
    ensures unchanged { spec.is_in_range site.now ≡ false → system.new ≡ system.old }
    ensures refused { IfErr result
        (λ x. spec.WhyRefusedWithin site.now x system.old system.new) }
    ensures made { OnOk result (spec.IsMade site.now system.old system.new) }
    ensures honest { system.new.disk.honest ≡ system.old.disk.honest }

    // In a new system the machine is then that of the site, over any store. An honest store is
    // unchanged, and a world of these processes is new.
    ensures leaves { OnOk result
        (LeavesSite site.now (machine_of system.old) (machine_of system.new)) }
    ensures over_honest { OnOk result (SetsUpIfHonest site.now system.old system.new) }
    ensures actors { IfOk result (λ actors. spec.AreActors site.now actors.items) }
    ensures apart { IfOk result
        (λ actors. IsDistinct nat_eq (map (λ p. p.0) actors.items)) }
{
    if !is_in_range(site) {
        return Err(Refusal::BadRange);
    }
    set_up_is_a_new_world();
    let events = calls(alloc, site)?;
    let actors = actors(alloc, site)?;
    let replies = system.run(events.as_slice())?;
    match refusal_in(replies.as_slice()) {
        Some(refusal) => Err(refusal),
        None => Ok(actors),
    }
}

// Adds `workers` workers, each in its domain.
fn add_workers(
    alloc: Global,
    actors: &mut Vec<(DomainId, Actor)>,
    count: u32,
) -> Result<(), AllocError>
    requires { count ≤ 8 }
    ensures { OnOk result (spec.HasWorkers actors.old.items count actors.new.items) }
{
    for k in 0..count {
        let role = Role::Worker(Worker::new(alloc));
        actors.push((DomainId::new(FIRST_WORKER + k), Actor { role }))?;
    }
    Ok(())
}

// The server in its domain.
fn server(alloc: Global, workers: u32) -> (DomainId, Actor)
    requires { workers ≤ 8 }
    ensures { result ≡ (1, Serving (spec.server_with workers)) }
{
    let role = Role::Server(Server::with_workers(alloc, workers));
    (DomainId::new(SERVER), Actor { role })
}

// The server, and the workers that run the site's scripts.
#[tactic(auto, using(crate::proofs::World::Apart::actors_apart))]
fn actors(alloc: Global, site: &Site) -> Result<Vec<(DomainId, Actor)>, AllocError>
    requires { spec.is_in_range site.now ≡ true }
    ensures actors { IfOk result (λ actors. spec.AreActors site.now actors.items) }
    ensures apart { IfOk result
        (λ actors. IsDistinct nat_eq (map (λ p. p.0) actors.items)) }
{
    let workers = site.workers_used();
    let mut actors = vec![in alloc; server(alloc, workers)]?;
    add_workers(alloc, &mut actors, workers)?;
    Ok(actors)
}
