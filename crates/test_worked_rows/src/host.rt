//! The site of the rows. A step that runs out of memory is retried.
use flash_lite::site::Site;
use iol_back::faulty::FaultyBacking;
use iol_back::memory::MemoryBacking;
use iol_core::configuration::Config;
use iol_core::events::{Event, Reply};
use iol_core::numbers::{ConnId, PoolId};
use iol_core::refusals::Refusal;
use iol_proc::choice::Choice;
use iol_sock::Arrived;
use std::alloc::{AllocError, Global};
use test_parts::streams::Source;
use test_sites::sites;
use test_worlds::files::{self, Kept};

// Only one growth is refused, so the next try has memory.
const TRIES: u32 = 3;

/// A file: whether it is private to the guest, its name and its bytes.
#[derive(Drop)]
pub struct File {
    pub private: bool,
    pub name: String,
    pub bytes: Vec<u8>,
}

/// The chunks of the pool `site`, the device call that fails, if any, and the files.
#[derive(Drop)]
pub struct Plan {
    pub chunks: u32,
    pub fault: u64,
    pub files: Vec<File>,
}

type Store = FaultyBacking<MemoryBacking>;

/// The world that serves the site.
pub type Host = sites::Host<Store>;

fn kept_of<'a>(alloc: Global, files: &'a [File]) -> Result<Vec<Kept<'a>>, AllocError> {
    let mut kept = Vec::new(alloc);
    for file in files {
        kept.push((file.name.as_str(), file.bytes.as_slice(), file.private))?;
    }
    Ok(kept)
}

fn store_of(alloc: Global, kept: &[Kept<'_>], fault: u64) -> Result<Store, AllocError> {
    let store = files::store_of(alloc, kept)?;
    Ok(FaultyBacking::new(store, fault))
}

// No more chunks than needed: creating more takes most of a run's time.
fn config_of(plan: &Plan) -> Config {
    Config {
        chunks: plan.chunks.min(64) + 3,
        ..Config::DEFAULT
    }
}

/// The inputs of a site, twice: if it runs out of memory it is created again.
#[derive(Drop)]
pub struct Beginning {
    first: Store,
    second: Store,
    config: Config,
    site: Site,
}

impl Beginning {
    pub fn of(alloc: Global, plan: &Plan) -> Result<Beginning, AllocError> {
        let kept = kept_of(alloc, &plan.files)?;
        let first = store_of(alloc, &kept, plan.fault)?;
        let second = store_of(alloc, &kept, plan.fault)?;
        let config = config_of(plan);
        let site = sites::site_of(alloc, &kept, 1, plan.chunks)?;
        Ok(Beginning {
            first,
            second,
            config,
            site,
        })
    }
}

/// Creates the site.
pub fn begun(alloc: Global, beginning: Beginning) -> Result<Host, Refusal> {
    let (config, site) = (beginning.config, beginning.site);
    match sites::host_over(alloc, config, beginning.first, &site) {
        Err(Refusal::Memory) => sites::host_over(alloc, config, beginning.second, &site),
        made => made,
    }
}

/// Bytes arrive on a connection from a reader.
pub fn arrive_from(
    host: &mut Host,
    conn: ConnId,
    reader: &mut Source<'_>,
    max: u32,
) -> Result<Arrived, Refusal> {
    for _ in 0..TRIES {
        match host.arrive_from(conn, reader, max) {
            Err(Refusal::Memory) => {}
            other => return other,
        }
    }
    Err(Refusal::Memory)
}

/// A new connection.
pub fn connect(host: &mut Host) -> Option<ConnId> {
    let pool = PoolId::new(2);
    match choose(host, &[Choice::Outside(Event::ConnNew { pool })]) {
        Reply::Conn(conn) => Some(conn),
        _ => None,
    }
}

/// Executes choices. The last one is retried if it runs out of memory. Returns the last reply.
pub fn choose(host: &mut Host, choices: &[Choice]) -> Reply {
    for _ in 0..TRIES {
        match last_of(host.run(choices)) {
            Some(Reply::Refused(Refusal::Memory)) | None => {}
            Some(reply) => return reply,
        }
    }
    Reply::Refused(Refusal::Memory)
}

// The last reply, if there was memory for the list.
fn last_of(replies: Result<Vec<Reply>, AllocError>) -> Option<Reply> {
    let mut list = replies.ok()?;
    list.pop()
}
