//! Requests in one process, without a network.
use crate::server::Server;
use crate::site::{NET_POOL, Site, world};
use iol_back::memory::MemoryBacking;
use iol_core::numbers::ConnId;
use iol_core::refusals::Refusal;
use std::alloc::Global;
use std::io;
use test_worlds::worlds::TestWorld;

const REQUEST: &[u8] = b"GET /0 HTTP/1.1\r\nHost: a\r\n\r\n";

/// More times than one response needs.
const TIMES: u32 = 1_000;

type Host = TestWorld<MemoryBacking, Server>;

// The peer of a connection takes all queued output: the number of bytes.
fn send(host: &mut Host, conn: ConnId) -> Result<u32, Refusal> {
    let drained = host.drain_to(conn, &mut io::sink(), u32::MAX)?;
    Ok(drained.taken)
}

// A request with its whole response: the number of its bytes.
fn answer(host: &mut Host, conn: ConnId) -> Result<u64, Refusal> {
    let mut request = REQUEST;
    let _arrived = host.arrive_from(conn, &mut request, 4_096)?;
    let mut sent = 0u64;
    for _ in 0..TIMES {
        let _is_idle = host.quiesce();
        let count = send(host, conn)?;
        if count == 0 {
            break;
        }
        sent = sent.saturating_add(u64::from(count));
    }
    Ok(sent)
}

// Requests on a new connection, one after another: the number of bytes of their responses.
fn answers(host: &mut Host, rounds: u32) -> Result<u64, Refusal> {
    let Some(conn) = host.connect(NET_POOL) else {
        return Err(Refusal::BadFd);
    };
    let mut sent = 0u64;
    for _ in 0..rounds {
        sent = sent.saturating_add(answer(host, conn)?);
    }
    Ok(sent)
}

/// Requests the first file of a site this number of times: the number of bytes of the responses.
pub fn ask(alloc: Global, site: &Site, rounds: u32) -> Result<u64, Refusal> {
    let mut host = TestWorld::of(world(alloc, site)?);
    let sent = answers(&mut host, rounds);
    drop(host);
    sent
}
