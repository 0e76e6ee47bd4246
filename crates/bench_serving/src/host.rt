//! The measured site.
use flash_lite::site::Site;
use iol_back::memory::MemoryBacking;
use iol_core::configuration::Config;
use iol_core::events::Reply;
use iol_core::numbers::{ConnId, DomainId};
use iol_core::refusals::Refusal;
use iol_proc::choice::Choice;
use std::alloc::{AllocError, Global};
use std::io;
use test_sites::sites;
use test_worlds::files::{Kept, store_of};

/// The world that serves a file.
pub type Host = sites::Host<MemoryBacking>;

// All chunks are for the files except those of other pools.
fn site_of(alloc: Global, kept: &[Kept<'_>]) -> Result<Site, AllocError> {
    Ok(Site {
        workers: 1,
        guests: 0,
        site_chunks: Config::DEFAULT.chunks - 8,
        net_chunks: 4,
        work_chunks: 4,
        vault_chunks: 1,
        files: sites::files_of(alloc, kept)?,
    })
}

/// A site with a file `f` of these bytes and, if requested, a script that outputs it. The store
/// has both.
pub fn host_of(alloc: Global, bytes: &[u8], with_script: bool) -> Result<Host, Refusal> {
    let kept: [Kept<'_>; 2] = [("f", bytes, false), ("s.cgi", b"cat f", false)];
    let count = if with_script { 2 } else { 1 };
    let store = store_of(alloc, &kept)?;
    let site = site_of(alloc, &kept[..count])?;
    sites::host_over(alloc, Config::DEFAULT, store, &site)
}

/// A new connection.
pub fn connect(host: &mut Host) -> Option<ConnId> {
    host.connect(2)
}

/// Bytes arrive on a connection; returns whether all of them do.
pub fn arrive(host: &mut Host, conn: ConnId, bytes: &[u8]) -> bool {
    let mut reader = bytes;
    match host.arrive_from(conn, &mut reader, 4096) {
        Ok(arrived) => arrived.taken as usize == bytes.len(),
        Err(_) => false,
    }
}

/// The peer of a connection takes all queued output; returns the number of bytes.
pub fn send(host: &mut Host, conn: ConnId) -> u32 {
    match host.drain_to(conn, &mut io::sink(), u32::MAX) {
        Ok(drained) => drained.taken,
        Err(_) => 0,
    }
}

/// The server takes a turn; returns whether the reply to its call is WouldBlock, or there is no
/// memory for the reply.
pub fn waits(host: &mut Host) -> bool {
    let choices = [Choice::Turn(DomainId::new(1))];
    match host.run(&choices) {
        Ok(replies) => matches!(replies.first(), Some(Reply::Refused(Refusal::WouldBlock))),
        Err(_) => true,
    }
}
