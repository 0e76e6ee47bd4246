//! Concurrent scripts, and other events meanwhile.
use super::host::{Host, Plan, connect, on_host, take_turns};
use super::rows::{arrivals, end, is_gone, is_sent, let_arrive, let_wait};
use iol_core::descriptors::{How, Mode};
use iol_core::events::{Call, Event, Reply};
use iol_core::lists::{Bytes, Domains};
use iol_core::numbers::{ConnId, DomainId, Fd, PoolId};
use iol_core::refusals::Refusal;
use std::alloc::{AllocError, Global};
use std::test::Fail;
use test_parts::checks::{pass, pass_each};
use test_worlds::files::Kept;
use test_worlds::systems::call_of;

const FILES: [Kept<'static>; 2] = [
    ("f", b"one", false),
    ("s.cgi", b"emit a\nquery\ncat f", false),
];

const SCRIPT: &[u8] = b"GET /s.cgi?q=1 HTTP/1.1\r\nHost: a\r\n\r\n";

const FILE: &[u8] = b"GET /f HTTP/1.1\r\nHost: a\r\n\r\n";

const FROM_FILE: &[u8] =
    b"HTTP/1.1 200 OK\r\nContent-Type: application/octet-stream\r\nContent-Length: 3\r\n\r\none";

const WITH_ONE: &[u8] =
    b"HTTP/1.1 200 OK\r\nContent-Type: text/plain\r\nTransfer-Encoding: chunked\r\n\r\n9\r\na\nq=1\none\r\n0\r\n\r\n";

const WITH_TWO: &[u8] =
    b"HTTP/1.1 200 OK\r\nContent-Type: text/plain\r\nTransfer-Encoding: chunked\r\n\r\n9\r\na\nq=1\ntwo\r\n0\r\n\r\n";

// The guest of a site with one worker opens a file for writing.
fn opens(alloc: Global, name: &[u8]) -> Result<Event, AllocError> {
    let name = Bytes::from_vec(Vec::from_slice(alloc, name)?);
    let mode = Mode::Write;
    Ok(call_of(3, Call::OpenFile { name, mode }))
}

fn writes(alloc: Global, bytes: &[u8]) -> Result<Event, AllocError> {
    let bytes = Bytes::from_vec(Vec::from_slice(alloc, bytes)?);
    let fd = Fd::new(0);
    Ok(call_of(3, Call::Write { fd, bytes }))
}

// Two new connections, with the requests of a script and of a file.
fn ask_both(host: &mut Host, script: Vec<Event>, file: Vec<Event>) -> bool {
    let first = connect(host);
    let second = connect(host);
    let_wait(host, script);
    let_wait(host, file);
    first == Some(ConnId::new(1)) && second == Some(ConnId::new(2))
}

// The server has read the file and made the job, and its worker has taken no turn, when the file
// is written.
fn reads_later(
    host: &mut Host,
    script: Vec<Event>,
    file: Vec<Event>,
    open: Event,
    write: Event,
) -> bool {
    let asked = ask_both(host, script, file) && take_turns(host, 1, 1000);
    let opened = host.step(open);
    let written = host.step(write);
    asked
        && matches!(opened, Reply::Fd(_))
        && matches!(written, Reply::Count(3))
        && host.quiesce()
        && is_sent(host, 1, WITH_TWO)
        && is_sent(host, 2, FROM_FILE)
}

fn by_turns(alloc: Global) -> Result<bool, Refusal> {
    let script = arrivals(alloc, 1, SCRIPT, 8192)?;
    let file = arrivals(alloc, 2, FILE, 8192)?;
    let open = opens(alloc, b"f")?;
    let write = writes(alloc, b"two")?;
    on_host(alloc, &Plan::of(&FILES), |host| {
        reads_later(host, script, file, open, write) && !host.is_resource_failure()
    })
}

#[test]
fn script_and_file_by_turns(rt: HostRuntime) -> Result<(), Fail> {
    pass(by_turns(rt.alloc()))
}

// Two scripts that are requested at the same time.
fn answers_both(host: &mut Host, first: Vec<Event>, second: Vec<Event>) -> bool {
    ask_both(host, first, second)
        && host.quiesce()
        && is_sent(host, 1, WITH_ONE)
        && is_sent(host, 2, WITH_ONE)
        && is_sent(host, 1, b"")
}

fn two_at_once(alloc: Global, workers: u32) -> Result<bool, Refusal> {
    let first = arrivals(alloc, 1, SCRIPT, 8192)?;
    let second = arrivals(alloc, 2, SCRIPT, 8192)?;
    let plan = Plan {
        workers,
        ..Plan::of(&FILES)
    };
    on_host(alloc, &plan, |host| {
        answers_both(host, first, second) && !host.is_resource_failure()
    })
}

// On one worker, and on four.
#[test]
fn two_scripts_at_once(rt: HostRuntime) -> Result<(), Fail> {
    let alloc = rt.alloc();
    pass_each(&[1u32, 4], |workers| two_at_once(alloc, *workers))
}

/// A script that outputs one line, and its response.
pub const SHORT: &[u8] = b"GET /t.cgi HTTP/1.1\r\nHost: a\r\n\r\n";

const LONG: &[u8] = b"GET /s.cgi HTTP/1.1\r\nHost: a\r\n\r\n";

pub const FROM_SHORT: &[u8] =
    b"HTTP/1.1 200 OK\r\nContent-Type: text/plain\r\nTransfer-Encoding: chunked\r\n\r\n2\r\nt\n\r\n0\r\n\r\n";

/// A file, a script that outputs it, and the script that outputs one line.
pub fn files_of<'a>(big: &'a [u8], long: &'a [u8]) -> [Kept<'a>; 3] {
    [
        ("big", big, false),
        ("s.cgi", long, false),
        ("t.cgi", b"emit t", false),
    ]
}

// The client of the first script takes nothing of its output, so the script does not end. With one
// worker the second waits until that client leaves, and with two it does not wait.
fn waits_for_the_first(host: &mut Host, long: Vec<Event>, short: Vec<Event>, waits: bool) -> bool {
    let before = if waits { b"".as_slice() } else { FROM_SHORT };
    let after = if waits { FROM_SHORT } else { b"".as_slice() };
    connect(host).is_some()
        && let_arrive(host, long)
        && connect(host).is_some()
        && let_arrive(host, short)
        && is_sent(host, 2, before)
        && end(host, 1, How::Gone)
        && is_sent(host, 2, after)
        && is_gone(host, 1)
        && !is_gone(host, 2)
}

fn first_goes(alloc: Global, workers: u32) -> Result<bool, Refusal> {
    let long = arrivals(alloc, 1, LONG, 8192)?;
    let short = arrivals(alloc, 2, SHORT, 8192)?;
    let bytes = vec![in alloc; b'z'; 300_000]?;
    let files = files_of(&bytes, b"cat big\nemit");
    let plan = Plan::with(&files, workers, 6);
    on_host(alloc, &plan, |host| {
        waits_for_the_first(host, long, short, workers == 1) && !host.is_resource_failure()
    })
}

// Then another gets its worker, or has had one of its own.
#[test]
fn client_goes(rt: HostRuntime) -> Result<(), Fail> {
    let alloc = rt.alloc();
    pass_each(&[1u32, 2], |workers| first_goes(alloc, *workers))
}

const DENIED_FILES: [Kept<'static>; 2] = [
    ("s.cgi", b"emit a\ncat x", false),
    ("t.cgi", b"emit t", false),
];

const BROKEN_OFF: &[u8] =
    b"HTTP/1.1 200 OK\r\nContent-Type: text/plain\r\nTransfer-Encoding: chunked\r\n\r\n";

// A file of the guest that the worker may read, but not the server.
fn file_for_the_worker(alloc: Global) -> Result<Vec<Event>, AllocError> {
    let domains = [DomainId::new(2), DomainId::new(3)].to_vec(alloc)?;
    let domains = Domains::from_vec(domains);
    let name = Bytes::from_vec(Vec::from_slice(alloc, b"x")?);
    let pool = PoolId::new(4);
    let mut events = Vec::new(alloc);
    events.push(call_of(3, Call::PoolCreate { chunks: 1, domains }))?;
    events.push(call_of(3, Call::FileNew { name, pool }))?;
    events.push(opens(alloc, b"x")?)?;
    events.push(writes(alloc, b"secret")?)?;
    Ok(events)
}

// Output that the server may not read: its response is aborted, and the worker continues with the
// next script.
fn breaks_off(host: &mut Host, events: Vec<Event>, first: Vec<Event>, second: Vec<Event>) -> bool {
    let_wait(host, events);
    connect(host).is_some()
        && let_arrive(host, first)
        && is_sent(host, 1, BROKEN_OFF)
        && is_gone(host, 1)
        && connect(host).is_some()
        && let_arrive(host, second)
        && is_sent(host, 2, FROM_SHORT)
}

fn denied(alloc: Global) -> Result<bool, Refusal> {
    let events = file_for_the_worker(alloc)?;
    let first = arrivals(alloc, 1, LONG, 8192)?;
    let second = arrivals(alloc, 2, SHORT, 8192)?;
    on_host(alloc, &Plan::of(&DENIED_FILES), |host| {
        breaks_off(host, events, first, second)
    })
}

#[test]
fn output_that_the_server_may_not_read(rt: HostRuntime) -> Result<(), Fail> {
    pass(denied(rt.alloc()))
}
