//! Streams that end, peers that leave, pages with a last generation, and a device call that fails.
use super::answers::{BOTH, FILES, FIRST};
use super::host::{Host, Plan, connect, host_of, on_host};
use super::rows::{arrivals, end, holds, is_gone, is_sent, let_arrive};
use iol_core::descriptors::How;
use iol_core::events::{Event, Reply};
use iol_core::numbers::{ConnId, PoolId};
use iol_core::refusals::Refusal;
use std::alloc::{AllocError, Global};
use std::test::Fail;
use test_parts::checks::{pass, pass_all};
use test_worlds::files::Kept;

// A GET of 27 bytes, and a HEAD.
const STREAM: &[u8] = b"GET / HTTP/1.1\r\nHost: a\r\n\r\nHEAD / HTTP/1.1\r\nHost: a\r\n\r\n";

// The responses to both if the first device call fails.
const FAULTED: &str =
    "HTTP/1.1 500 Internal Server Error\r\nContent-Type: text/plain\r\nContent-Length: 26\r\n\r\n\
        500 Internal Server Error\nHTTP/1.1 200 OK\r\nContent-Type: text/html\r\n\
        Content-Length: 3\r\n\r\n";

// The stream cut after each of its bytes, each on a connection of its own.
fn cut_streams(alloc: Global) -> Result<Vec<Vec<Event>>, AllocError> {
    let mut streams = Vec::new(alloc);
    for len in 0..56usize {
        streams.push(arrivals(alloc, len as u32 + 1, &STREAM[..len], 8192)?)?;
    }
    Ok(streams)
}

// The response to the first `len` bytes of the stream.
fn answer_to(len: u32) -> &'static str {
    match len {
        0..=26 => "",
        27..=54 => FIRST,
        _ => BOTH,
    }
}

// Returns whether a cut stream gets the responses to its whole requests, and its connection is
// closed afterwards.
fn ends_well(host: &mut Host, events: Vec<Event>, len: u32, how: How) -> bool {
    let number = len.saturating_add(1);
    let answer = match how {
        How::Done => answer_to(len),
        How::Gone => "",
    };
    connect(host) == Some(ConnId::new(number))
        && let_arrive(host, events)
        && end(host, number, how)
        && is_sent(host, number, answer.as_bytes())
        && is_gone(host, number)
}

// The number of cut streams that end as expected, up to the first that does not.
fn count_ended(host: &mut Host, streams: Vec<Vec<Event>>, how: How) -> u32 {
    let mut count = 0u32;
    for events in streams {
        if !ends_well(host, events, count, how) {
            return count;
        }
        count = count.saturating_add(1);
    }
    count
}

fn ended(alloc: Global, how: How) -> Result<usize, Refusal> {
    let streams = cut_streams(alloc)?;
    let mut host = host_of(alloc, &Plan::of(&FILES))?;
    let count = count_ended(&mut host, streams, how);
    drop(host);
    Ok(count as usize)
}

#[test]
fn stream_cut_after_each_byte(rt: HostRuntime) -> Result<(), Fail> {
    pass_all(ended(rt.alloc(), How::Done), 56)
}

#[test]
fn peer_gone_after_each_byte(rt: HostRuntime) -> Result<(), Fail> {
    pass_all(ended(rt.alloc(), How::Gone), 56)
}

// Returns whether both requests get a response if the first device call fails.
fn answers_fault(alloc: Global) -> Result<bool, Refusal> {
    let events = arrivals(alloc, 1, STREAM, 1)?;
    let plan = Plan {
        fault: 1,
        ..Plan::of(&FILES)
    };
    let row = ("", FAULTED, false);
    on_host(alloc, &plan, |host| {
        holds(host, 1, events, &row) && host.is_resource_failure()
    })
}

#[test]
fn first_device_call_fails(rt: HostRuntime) -> Result<(), Fail> {
    pass(answers_fault(rt.alloc()))
}

// Returns whether a reply is NoRoom of the pool `net`.
fn is_room_wanting(reply: &Reply) -> bool {
    match reply {
        Reply::Refused(Refusal::NoRoom { pool }) => *pool == PoolId::new(2),
        _ => false,
    }
}

// The number of bytes that arrive before one is refused for lack of pages, with one byte per
// piece.
fn count_taken(host: &mut Host, events: Vec<Event>) -> (u32, bool) {
    let mut count = 0u32;
    for event in events {
        match host.step(event) {
            Reply::Count(1) => count = count.saturating_add(1),
            reply => return (count, is_room_wanting(&reply)),
        }
        let _idle = host.quiesce();
    }
    (count, false)
}

// A stream on pages that hold at most two buffers each.
fn tired(alloc: Global) -> Result<(u32, bool, bool), Refusal> {
    let events = arrivals(alloc, 1, STREAM, 1)?;
    let plan = Plan {
        gen_limit: 2,
        ..Plan::of(&FILES)
    };
    let mut host = host_of(alloc, &plan)?;
    let _conn = connect(&mut host);
    let (count, refused) = count_taken(&mut host, events);
    let sent = is_sent(&mut host, 1, FIRST.as_bytes());
    drop(host);
    Ok((count, refused, sent))
}

#[test]
fn tired_pages(rt: HostRuntime) -> Result<(), Fail> {
    assert_eq!(rt; tired(rt.alloc())?, (32, true, true));
    Ok(())
}

// Returns whether a connection is removed if its peer leaves while its response is sent.
fn is_forgotten(host: &mut Host, events: Vec<Event>) -> bool {
    let conn = ConnId::new(1);
    let came = connect(host).is_some() && let_arrive(host, events);
    let sent = host.step(Event::Transmit { conn, max: 100 });
    let idle = host.quiesce();
    came && matches!(sent, Reply::Segment { .. })
        && idle
        && end(host, 1, How::Gone)
        && is_gone(host, 1)
}

// A file with as many bytes as two queues hold.
fn forgets(alloc: Global) -> Result<bool, Refusal> {
    let events = arrivals(alloc, 1, b"GET /f HTTP/1.1\r\nHost: a\r\n\r\n", 8192)?;
    let bytes = vec![in alloc; 122u8; 131_072]?;
    let files: [Kept<'_>; 1] = [("f", &bytes, false)];
    let plan = Plan {
        chunks: 4,
        ..Plan::of(&files)
    };
    on_host(alloc, &plan, |host| {
        is_forgotten(host, events) && !host.is_resource_failure()
    })
}

#[test]
fn peer_goes_in_mid_answer(rt: HostRuntime) -> Result<(), Fail> {
    pass(forgets(rt.alloc()))
}
