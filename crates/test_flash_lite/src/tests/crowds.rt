//! As many connections as the server holds, and one more.
use super::answers::{FILES, FIRST};
use super::host::{Host, Plan, connect, on_host};
use super::rows::{arrivals, end, is_sent, let_arrive};
use iol_core::descriptors::How;
use iol_core::events::Event;
use iol_core::refusals::Refusal;
use std::alloc::Global;
use std::test::Fail;
use test_parts::checks::pass;

const GET: &[u8] = b"GET / HTTP/1.1\r\nHost: a\r\n\r\n";

// Makes `count` connections, each of them accepted if it may be.
fn connect_all(host: &mut Host, count: usize) -> bool {
    let mut all = true;
    for _ in 0..count {
        all &= connect(host).is_some();
    }
    all && host.quiesce()
}

// The last of 257 gets its response once another has ended; the one before it gets its response at
// once.
fn waits_for_another(host: &mut Host, within: Vec<Event>, past: Vec<Event>) -> bool {
    connect_all(host, 257)
        && let_arrive(host, within)
        && is_sent(host, 256, FIRST.as_bytes())
        && let_arrive(host, past)
        && is_sent(host, 257, b"")
        && end(host, 1, How::Done)
        && is_sent(host, 257, FIRST.as_bytes())
}

fn waits(alloc: Global) -> Result<bool, Refusal> {
    let within = arrivals(alloc, 256, GET, 8192)?;
    let past = arrivals(alloc, 257, GET, 8192)?;
    on_host(alloc, &Plan::of(&FILES), |host| {
        waits_for_another(host, within, past) && !host.is_resource_failure()
    })
}

#[test]
fn one_more_than_may_be(rt: HostRuntime) -> Result<(), Fail> {
    pass(waits(rt.alloc()))
}
