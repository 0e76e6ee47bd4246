//! A site, and the world that serves it, as a type without contracts.
use flash_lite::actor::Actor;
use flash_lite::host::{Hosted, host};
use flash_lite::site::{Site, SiteFile};
use iol_back::backing::Backing;
use iol_core::configuration::Config;
use iol_core::events::Reply;
use iol_core::refusals::Refusal;
use iol_proc::choice::Choice;
use iol_proc::world::World;
use std::alloc::{AllocError, Global};
use test_worlds::files::Kept;
use test_worlds::worlds::TestWorld;

/// The world that serves a site.
pub type Host<B> = TestWorld<B, Actor>;

/// The files of a site.
pub fn files_of(alloc: Global, kept: &[Kept<'_>]) -> Result<Vec<SiteFile>, AllocError> {
    let mut files = Vec::new(alloc);
    for (name, _bytes, private) in kept {
        let name = Vec::from_slice(alloc, name.as_bytes())?;
        let private = *private;
        files.push(SiteFile { name, private })?;
    }
    Ok(files)
}

/// A site of these files, with one guest, and one chunk for each pool except `site`.
pub fn site_of(
    alloc: Global,
    kept: &[Kept<'_>],
    workers: u32,
    chunks: u32,
) -> Result<Site, AllocError> {
    Ok(Site {
        workers,
        guests: 1,
        site_chunks: chunks,
        net_chunks: 1,
        work_chunks: 1,
        vault_chunks: 1,
        files: files_of(alloc, kept)?,
    })
}

// The parts of the result of hosting a site.
fn parts_of<B: Backing>(hosted: Hosted<B>) -> (World<B, Actor>, Vec<Reply>, bool) {
    (hosted.world, hosted.replies, hosted.idle)
}

/// The result of hosting a site with choices: its world, the reply to each choice, and whether all
/// were idle.
pub fn hosted<B: Backing + Drop>(
    alloc: Global,
    config: Config,
    store: B,
    site: &Site,
    choices: &[Choice],
) -> Result<(Host<B>, Vec<Reply>, bool), Refusal> {
    let hosted = host(alloc, config, store, site, choices, 65_536)?;
    let (world, replies, idle) = parts_of(hosted);
    Ok((TestWorld::of(world), replies, idle))
}

// A world without events so far.
fn new_world<B: Backing + Drop>(
    alloc: Global,
    config: Config,
    store: B,
    site: &Site,
) -> Result<World<B, Actor>, Refusal> {
    let choices: [Choice; 0] = [];
    let hosted = host(alloc, config, store, site, &choices, 0)?;
    let (world, _replies, _idle) = parts_of(hosted);
    Ok(world)
}

/// The world of a site that is set up over a store.
pub fn host_over<B: Backing + Drop>(
    alloc: Global,
    config: Config,
    store: B,
    site: &Site,
) -> Result<Host<B>, Refusal> {
    let world = new_world(alloc, config, store, site)?;
    Ok(TestWorld::of(world))
}
