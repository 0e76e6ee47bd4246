//! A site that is hosted, with all external events among the choices.
use super::host::{Plan, hosted};
use super::rows::{arrivals, is_sent};
use iol_core::events::{Call, Event, Reply};
use iol_core::numbers::{DomainId, PoolId};
use iol_core::refusals::Refusal;
use iol_proc::choice::Choice;
use std::alloc::{AllocError, Global};
use std::test::Fail;
use test_parts::checks::pass;
use test_worlds::files::Kept;

const CURL: &[u8] =
    b"GET /index.html HTTP/1.1\r\nHost: 127.0.0.1:8080\r\nUser-Agent: curl/8.5.0\r\nAccept: */*\r\n\r\n";

const ANSWER: &[u8] =
    b"HTTP/1.1 200 OK\r\nContent-Type: text/html\r\nContent-Length: 3\r\n\r\nhi\n";

const FILES: [Kept<'static>; 1] = [("index.html", b"hi\n", false)];

// A new connection of the pool `net`, and a request on it.
fn choices_of(alloc: Global) -> Result<Vec<Choice>, AllocError> {
    let pool = PoolId::new(2);
    let mut choices = Vec::new(alloc);
    choices.push(Choice::Outside(Event::ConnNew { pool }))?;
    for event in arrivals(alloc, 1, CURL, CURL.len())? {
        choices.push(Choice::Outside(event))?;
    }
    Ok(choices)
}

// Returns whether it is connection 1, and all bytes arrived.
fn have_come(replies: &[Reply]) -> bool {
    match (replies.first(), replies.get(1)) {
        (Some(Reply::Conn(conn)), Some(Reply::Count(count))) => {
            conn.number() == 1 && *count == 87 && replies.len() == 2
        }
        _ => false,
    }
}

fn is_answered(alloc: Global) -> Result<bool, Refusal> {
    let choices = choices_of(alloc)?;
    let (mut host, replies, idle) = hosted(alloc, &Plan::of(&FILES), choices.as_slice())?;
    let is_well = idle
        && !host.is_resource_failure()
        && have_come(replies.as_slice())
        && is_sent(&mut host, 1, ANSWER);
    drop(host);
    Ok(is_well)
}

#[test]
fn head_of_curl_is_hosted(rt: HostRuntime) -> Result<(), Fail> {
    pass(is_answered(rt.alloc()))
}

// ---- scripts, and a guest's calls among the choices

const SCRIPTED: [Kept<'static>; 2] = [
    ("hello.cgi", b"emit hello\nquery\nwc index.html\n", false),
    ("index.html", b"hi\n", false),
];

const GET_SCRIPT: &[u8] = b"GET /hello.cgi?q=1 HTTP/1.1\r\nHost: a\r\n\r\n";

const OUTPUT: &[u8] =
    b"HTTP/1.1 200 OK\r\nContent-Type: text/plain\r\nTransfer-Encoding: chunked\r\n\r\ne\r\nhello\nq=1\n1 3\n\r\n0\r\n\r\n";

// A guest makes a pipe, which does not concern the server.
fn pipes(guest: u32) -> Choice {
    let by = DomainId::new(guest);
    let call = Call::Pipe;
    Choice::Outside(Event::Call { by, call })
}

// Two new connections, with the request of a script on one and of a file on the other, and turns
// between.
fn mixed_choices(alloc: Global, guest: u32) -> Result<Vec<Choice>, AllocError> {
    let mut choices = Vec::new(alloc);
    for (conn, stream) in [(1, GET_SCRIPT), (2, CURL)] {
        let pool = PoolId::new(2);
        choices.push(Choice::Outside(Event::ConnNew { pool }))?;
        for event in arrivals(alloc, conn, stream, 7)? {
            choices.push(Choice::Outside(event))?;
            choices.push(Choice::Turn(DomainId::new(1)))?;
        }
        choices.push(pipes(guest))?;
    }
    Ok(choices)
}

// With this number of workers, whose domains are followed by that of the guest.
fn are_answered(alloc: Global, workers: u32, guest: u32) -> Result<bool, Refusal> {
    let plan = Plan {
        workers,
        ..Plan::of(&SCRIPTED)
    };
    let choices = mixed_choices(alloc, guest)?;
    let (mut host, replies, idle) = hosted(alloc, &plan, choices.as_slice())?;
    let is_well = idle
        && !host.is_resource_failure()
        && replies.len() == choices.len()
        && is_sent(&mut host, 1, OUTPUT)
        && is_sent(&mut host, 2, ANSWER);
    drop(host);
    Ok(is_well)
}

#[test]
fn script_and_file_are_hosted(rt: HostRuntime) -> Result<(), Fail> {
    pass(are_answered(rt.alloc(), 1, 3))
}

#[test]
fn eight_workers_are_hosted(rt: HostRuntime) -> Result<(), Fail> {
    pass(are_answered(rt.alloc(), 8, 10))
}

// Each call that needs memory succeeds if there is enough: `host` sets the site up, and makes its
// world.
#[test]
fn ample(rt: HostRuntime) -> Result<(), Fail> {
    pass(are_answered(rt.alloc(), 2, 4))
}
