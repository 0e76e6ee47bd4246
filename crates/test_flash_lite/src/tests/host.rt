//! A site in memory, and the world that serves it.
use flash_lite::site::Site;
use iol_back::faulty::FaultyBacking;
use iol_back::memory::MemoryBacking;
use iol_core::configuration::Config;
use iol_core::events::Reply;
use iol_core::numbers::{ConnId, DomainId};
use iol_core::refusals::Refusal;
use iol_proc::choice::Choice;
use std::alloc::{AllocError, Global};
use test_parts::checks::lend;
use test_sites::sites;
use test_worlds::files::{self, Kept};

type Store = FaultyBacking<MemoryBacking>;

/// The world that serves a site.
pub type Host = sites::Host<Store>;

/// The parameters of a site: its files, its workers, the chunks of its pool `site`, the last
/// generation of a page, and the number of the device call that fails.
#[derive(Clone, Copy)]
pub struct Plan<'a> {
    pub files: &'a [Kept<'a>],
    pub workers: u32,
    pub chunks: u32,
    pub gen_limit: u32,
    pub fault: u64,
}

impl<'a> Plan<'a> {
    /// One worker, one chunk per pool, and no fault.
    pub fn of(files: &'a [Kept<'a>]) -> Plan<'a> {
        Plan {
            files,
            workers: 1,
            chunks: 1,
            gen_limit: u32::MAX,
            fault: 0,
        }
    }

    /// The same with `workers` workers, and `chunks` chunks for the pool `site`.
    pub fn with(files: &'a [Kept<'a>], workers: u32, chunks: u32) -> Plan<'a> {
        Plan {
            workers,
            chunks,
            ..Plan::of(files)
        }
    }
}

fn store_of(alloc: Global, plan: &Plan<'_>) -> Result<Store, AllocError> {
    let store = files::store_of(alloc, plan.files)?;
    Ok(FaultyBacking::new(store, plan.fault))
}

fn site_of(alloc: Global, plan: &Plan<'_>) -> Result<Site, AllocError> {
    sites::site_of(alloc, plan.files, plan.workers, plan.chunks)
}

// The default parameters, with this last generation of a page.
fn config_of(plan: &Plan<'_>) -> Config {
    Config {
        gen_limit: plan.gen_limit,
        ..Config::DEFAULT
    }
}

/// The host of a site.
pub fn host_of(alloc: Global, plan: &Plan<'_>) -> Result<Host, Refusal> {
    let store = store_of(alloc, plan)?;
    let site = site_of(alloc, plan)?;
    sites::host_over(alloc, config_of(plan), store, &site)
}

/// Returns the result of a test on the host of a site, which is dropped afterwards.
pub fn on_host<F: FnOnce(&mut Host) -> bool + Drop>(
    alloc: Global,
    plan: &Plan<'_>,
    goes: F,
) -> Result<bool, Refusal>
    requires { F.IsAlwaysCallable goes }
{
    lend(host_of(alloc, plan), goes)
}

/// The result of hosting a site with choices: its host, the reply to each choice, and whether all
/// were idle.
pub fn hosted(
    alloc: Global,
    plan: &Plan<'_>,
    choices: &[Choice],
) -> Result<(Host, Vec<Reply>, bool), Refusal> {
    let store = store_of(alloc, plan)?;
    let site = site_of(alloc, plan)?;
    sites::hosted(alloc, config_of(plan), store, &site, choices)
}

/// The refusal of a site with this number of workers and of guests.
pub fn refusal_of(
    alloc: Global,
    plan: &Plan<'_>,
    workers: u32,
    guests: u32,
) -> Result<Option<Refusal>, AllocError> {
    let store = store_of(alloc, plan)?;
    let mut site = site_of(alloc, plan)?;
    site.workers = workers;
    site.guests = guests;
    Ok(sites::host_over(alloc, config_of(plan), store, &site).err())
}

/// A new connection of the pool `net`.
pub fn connect(host: &mut Host) -> Option<ConnId> {
    host.connect(2)
}

/// Gives `count` turns to a domain, and returns whether there was memory for the replies.
pub fn take_turns(host: &mut Host, by: u32, count: u32) -> bool {
    let choices = [Choice::Turn(DomainId::new(by))];
    let mut all = true;
    for _ in 0..count {
        all &= host.run(&choices).is_ok();
    }
    all
}
