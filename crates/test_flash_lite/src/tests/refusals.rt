//! The refusals of each call for a script: those after which it is retried, and those after which
//! the response is 503.
use super::host::{Host, Plan, connect, on_host, take_turns};
use super::rows::{arrivals, is_sent, let_arrive, let_wait};
use super::sizes::REFUSED;
use super::turns::{FROM_SHORT, SHORT};
use iol_core::events::{Call, Event, Reply};
use iol_core::lists::Bytes;
use iol_core::numbers::{AggId, ConnId, DomainId, Fd, PoolId};
use iol_core::refusals::Refusal;
use std::alloc::{AllocError, Global};
use std::test::Fail;
use test_parts::checks::pass_each;
use test_worlds::files::Kept;
use test_worlds::systems::call_of;

// The server is domain 1, its worker 2, and the guest 3.
const FILES: [Kept<'static>; 1] = [("t.cgi", b"emit t", false)];

fn is_done(host: &mut Host, event: Event) -> bool {
    matches!(host.step(event), Reply::Done)
}

fn close(number: u32, fd: u32) -> Event {
    let fd = Fd::new(fd);
    call_of(number, Call::Close { fd })
}

// Makes pipes of a domain up to the first that is refused for lack of descriptors.
fn take_pairs(host: &mut Host, number: u32) -> bool {
    for _ in 0..600 {
        match host.step(call_of(number, Call::Pipe)) {
            Reply::Fds(_, _) => {}
            reply => return matches!(reply, Reply::Refused(Refusal::TooMany)),
        }
    }
    false
}

// The server takes turns for a request, without a response.
fn waits(host: &mut Host, request: Vec<Event>) -> bool {
    let_wait(host, request);
    take_turns(host, 1, 500) && is_sent(host, 1, b"")
}

// Then it gets its response.
fn proceeds(host: &mut Host) -> bool {
    host.quiesce() && is_sent(host, 1, FROM_SHORT)
}

// The server takes turns for a request, which cannot be run.
fn is_refused(host: &mut Host, request: Vec<Event>) -> bool {
    let (conn, max) = (ConnId::new(1), 4096);
    let_wait(host, request);
    take_turns(host, 1, 500)
        && match host.step(Event::Transmit { conn, max }) {
            Reply::Segment { bytes, .. } => bytes.as_slice() == REFUSED,
            _ => false,
        }
}

// One descriptor is left for the script's file, but a pipe needs two.
fn waits_for_a_pipe(host: &mut Host, request: Vec<Event>) -> bool {
    connect(host).is_some()
        && host.quiesce()
        && take_pairs(host, 1)
        && is_done(host, close(1, 1023))
        && waits(host, request)
        && is_done(host, close(1, 1022))
        && proceeds(host)
}

// The worker and the guest have all other pipes.
fn waits_for_another_pipe(host: &mut Host, request: Vec<Event>) -> bool {
    take_pairs(host, 2)
        && take_pairs(host, 3)
        && connect(host).is_some()
        && waits(host, request)
        && is_done(host, close(3, 0))
        && is_done(host, close(3, 1))
        && proceeds(host)
}

// The worker has no descriptor left for the write end.
fn waits_to_give(host: &mut Host, request: Vec<Event>) -> bool {
    let (fd, to) = (Fd::new(0), DomainId::new(2));
    take_pairs(host, 2)
        && matches!(host.step(call_of(3, Call::Pipe)), Reply::Fds(_, _))
        && matches!(host.step(call_of(3, Call::GiveFd { fd, to })), Reply::Fd(_))
        && connect(host).is_some()
        && waits(host, request)
        && is_done(host, close(2, 1023))
        && proceeds(host)
}

// The worker's domain has ended.
fn gives_nobody(host: &mut Host, request: Vec<Event>) -> bool {
    is_done(host, call_of(2, Call::Exit)) && connect(host).is_some() && is_refused(host, request)
}

// The job pipe has no reader.
fn hands_nobody(host: &mut Host, request: Vec<Event>) -> bool {
    is_done(host, close(2, 0)) && connect(host).is_some() && is_refused(host, request)
}

// The job pipe is filled with these bytes, which are no job.
fn is_filled(host: &mut Host, fill: Event) -> bool {
    let (fd, agg) = (Fd::new(1), AggId::new(1));
    let mut all = matches!(host.step(fill), Reply::Agg(_));
    for _ in 0..16 {
        all &= matches!(
            host.step(call_of(1, Call::IolWrite { fd, agg })),
            Reply::Count(4096)
        );
    }
    all && is_done(host, call_of(1, Call::AggDrop { agg }))
}

// The worker has not read the bytes in its job pipe.
fn waits_to_hand(host: &mut Host, fill: Event, request: Vec<Event>) -> bool {
    is_filled(host, fill) && connect(host).is_some() && waits(host, request) && proceeds(host)
}

// The guest's bytes fill the pool of jobs.
fn waits_to_make(host: &mut Host, fill: Event, request: Vec<Event>) -> bool {
    let agg = AggId::new(1);
    matches!(host.step(fill), Reply::Agg(_))
        && connect(host).is_some()
        && waits(host, request)
        && is_done(host, call_of(3, Call::AggDrop { agg }))
        && proceeds(host)
}

// They fill the pool of the script's file.
fn reads_without_room(host: &mut Host, fill: Event, request: Vec<Event>) -> bool {
    let pool = PoolId::new(1);
    is_done(host, call_of(3, Call::SetPool { pool }))
        && matches!(host.step(fill), Reply::Agg(_))
        && connect(host).is_some()
        && let_arrive(host, request)
        && is_sent(host, 1, REFUSED)
}

/// The call that is refused.
#[derive(Clone, Copy)]
enum Case {
    /// The server has no descriptors for a pipe.
    Pipe,

    /// There are no more pipes.
    AnotherPipe,

    /// The worker has no free descriptor.
    Give,

    /// There is no worker.
    GiveToNobody,

    /// There is no reader of jobs.
    HandToNobody,
}

const CASES: [Case; 5] = [
    Case::Pipe,
    Case::AnotherPipe,
    Case::Give,
    Case::GiveToNobody,
    Case::HandToNobody,
];

fn goes(host: &mut Host, case: Case, request: Vec<Event>) -> bool {
    match case {
        Case::Pipe => waits_for_a_pipe(host, request),
        Case::AnotherPipe => waits_for_another_pipe(host, request),
        Case::Give => waits_to_give(host, request),
        Case::GiveToNobody => gives_nobody(host, request),
        Case::HandToNobody => hands_nobody(host, request),
    }
}

// Returns the result of the case, on a site of its own.
fn holds(alloc: Global, case: Case) -> Result<bool, Refusal> {
    let request = arrivals(alloc, 1, SHORT, 8192)?;
    on_host(alloc, &Plan::of(&FILES), |host| goes(host, case, request))
}

#[test]
fn calls_for_a_script_are_refused(rt: HostRuntime) -> Result<(), Fail> {
    let alloc = rt.alloc();
    pass_each(&CASES, |case| holds(alloc, *case))
}

/// The resource that is full.
#[derive(Clone, Copy)]
enum Full {
    /// The pool of jobs: there is no room for the job.
    Jobs,

    /// The pool of files: there is no room for the script.
    Files,

    /// The job pipe: there is no room in it.
    JobPipe,
}

const FULL: [Full; 3] = [Full::Jobs, Full::Files, Full::JobPipe];

// Bytes of the guest that fill a chunk, or bytes of the server that fill a page.
fn fill_of(alloc: Global, full: Full) -> Result<Event, AllocError> {
    let (number, bytes) = match full {
        Full::Jobs | Full::Files => (3, vec![in alloc; b'x'; 65_536]?),
        Full::JobPipe => (1, vec![in alloc; b'x'; 4_096]?),
    };
    let bytes = Bytes::from_vec(bytes);
    Ok(call_of(number, Call::AggMake { bytes }))
}

fn goes_filled(host: &mut Host, full: Full, fill: Event, request: Vec<Event>) -> bool {
    match full {
        Full::Jobs => waits_to_make(host, fill, request),
        Full::Files => reads_without_room(host, fill, request),
        Full::JobPipe => waits_to_hand(host, fill, request),
    }
}

// Returns the result if that resource is full.
fn holds_filled(alloc: Global, full: Full) -> Result<bool, Refusal> {
    let request = arrivals(alloc, 1, SHORT, 8192)?;
    let fill = fill_of(alloc, full)?;
    on_host(alloc, &Plan::of(&FILES), |host| {
        goes_filled(host, full, fill, request)
    })
}

#[test]
fn no_room(rt: HostRuntime) -> Result<(), Fail> {
    let alloc = rt.alloc();
    pass_each(&FULL, |full| holds_filled(alloc, *full))
}
