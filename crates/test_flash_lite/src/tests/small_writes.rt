//! A peer that occupies pages by small arrivals, or by many small heads, in a world that is not
//! driven one request at a time: which calls are refused, and that the pages come back when its
//! connection closes.
use super::answers::{FILES, FIRST};
use super::host::{Host, Plan, connect, on_host};
use super::rows::{arrivals, end, is_gone, is_sent, let_arrive};
use iol_core::descriptors::How;
use iol_core::events::{Event, Reply};
use iol_core::numbers::PoolId;
use iol_core::refusals::Refusal;
use std::alloc::{AllocError, Global};
use std::test::Fail;
use test_parts::checks::pass;
use test_parts::texts::repeated;

const GET: &[u8] = b"GET / HTTP/1.1\r\nHost: a\r\n\r\n";

// A head of 63 bytes.
const SMALL: &[u8] = b"GET / HTTP/1.1\r\nHost: a\r\nX: 1234567890123456789012345678901\r\n\r\n";

const HEADS: usize = 1024;

// Returns whether a reply is NoRoom of the pool `net`.
fn lacks_page(reply: &Reply) -> bool {
    match reply {
        Reply::Refused(Refusal::NoRoom { pool }) => *pool == PoolId::new(2),
        _ => false,
    }
}

// The number of arrivals of one byte, without turns, up to the first that finds no page.
fn count_taken(host: &mut Host, events: Vec<Event>) -> Option<u32> {
    let mut count = 0u32;
    for event in events {
        match host.step(event) {
            Reply::Count(1) => count = count.saturating_add(1),
            reply => return if lacks_page(&reply) {
                Some(count)
            } else {
                None
            },
        }
    }
    None
}

// Makes two connections, which are accepted.
fn connect_two(host: &mut Host) -> bool {
    connect(host).is_some() && connect(host).is_some() && host.quiesce()
}

// The peer of the first connection is gone, and the second gets its response.
fn second_is_served(host: &mut Host, request: Vec<Event>) -> bool {
    end(host, 1, How::Gone)
        && is_gone(host, 1)
        && let_arrive(host, request)
        && is_sent(host, 2, FIRST.as_bytes())
}

// Sixteen arrivals of one byte occupy the 16 pages of the pool `net`. Further ones are refused on
// both connections.
fn fills_net(host: &mut Host, small: Vec<Event>, whole: Vec<Event>, again: Vec<Event>) -> bool {
    connect_two(host)
        && count_taken(host, small) == Some(16)
        && count_taken(host, whole) == Some(0)
        && second_is_served(host, again)
        && !host.is_resource_failure()
}

fn net_comes_back(alloc: Global) -> Result<bool, Refusal> {
    let small = arrivals(alloc, 1, GET, 1)?;
    let whole = arrivals(alloc, 2, GET, 8192)?;
    let again = arrivals(alloc, 2, GET, 8192)?;
    on_host(alloc, &Plan::of(&FILES), |host| {
        fills_net(host, small, whole, again)
    })
}

#[test]
fn arrivals_of_one_byte(rt: HostRuntime) -> Result<(), Fail> {
    pass(net_comes_back(rt.alloc()))
}

// ---- many small heads on one connection

// The stream of all heads, as one arrival on the first connection.
fn heads(alloc: Global) -> Result<Vec<Event>, AllocError> {
    let stream = repeated(alloc, SMALL, HEADS)?;
    arrivals(alloc, 1, &stream, 65_536)
}

// All of them arrive, in all pages of the pool `net`. Their responses occupy those of the pool
// `work`: the server tries again, and is never idle.
fn fills_work(host: &mut Host, heads: Vec<Event>) -> bool {
    for event in heads {
        if !matches!(host.step(event), Reply::Count(64_512)) {
            return false;
        }
    }
    !host.quiesce() && host.is_resource_failure()
}

// The second client finds no free page before the first one has left.
fn work_waits(host: &mut Host, heads: Vec<Event>, whole: Vec<Event>, again: Vec<Event>) -> bool {
    connect_two(host)
        && fills_work(host, heads)
        && count_taken(host, whole) == Some(0)
        && second_is_served(host, again)
}

fn work_comes_back(alloc: Global) -> Result<bool, Refusal> {
    let heads = heads(alloc)?;
    let whole = arrivals(alloc, 2, GET, 8192)?;
    let again = arrivals(alloc, 2, GET, 8192)?;
    on_host(alloc, &Plan::of(&FILES), |host| {
        work_waits(host, heads, whole, again)
    })
}

#[test]
fn heads_of_63_bytes(rt: HostRuntime) -> Result<(), Fail> {
    pass(work_comes_back(rt.alloc()))
}
