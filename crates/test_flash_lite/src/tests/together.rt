//! Concurrent scripts with outputs longer than all queues, and clients that leave while one runs,
//! or while they wait.
use super::host::{Host, Plan, connect, on_host};
use super::outputs::in_chunks;
use super::rows::{arrivals, end, is_gone, is_sent, let_arrive};
use super::turns::{FROM_SHORT, SHORT, files_of};
use iol_core::descriptors::How;
use iol_core::events::{Event, Reply};
use iol_core::numbers::ConnId;
use iol_core::refusals::Refusal;
use std::alloc::{AllocError, Global};
use std::test::Fail;
use test_parts::checks::pass_each;
use test_parts::texts::bytes_of;

const LONG: &[u8] = b"GET /s.cgi HTTP/1.1\r\nHost: a\r\n\r\n";

const BYTES: usize = 200_000;

// Takes one segment, with turns afterwards, and returns the rest of the wanted bytes, if they
// begin with it.
fn take<'a>(host: &mut Host, number: u32, wanted: &'a [u8]) -> Option<&'a [u8]> {
    let conn = ConnId::new(number);
    let left = match host.step(Event::Transmit { conn, max: 4096 }) {
        Reply::Segment { bytes, .. } => wanted.strip_prefix(bytes.as_slice())?,
        _ => wanted,
    };
    if host.quiesce() { Some(left) } else { None }
}

// Takes some segments.
fn take_some<'a>(host: &mut Host, number: u32, wanted: &'a [u8]) -> Option<&'a [u8]> {
    let mut left = wanted;
    for _ in 0..10 {
        left = take(host, number, left)?;
    }
    Some(left)
}

// Takes the output of both connections, one segment of each in turn.
fn are_sent_by_turns(host: &mut Host, wanted: &[u8]) -> bool {
    let (mut first, mut second) = (wanted, wanted);
    for _ in 0..1000 {
        if first.is_empty() && second.is_empty() {
            return is_sent(host, 1, b"") && is_sent(host, 2, b"");
        }
        match (take(host, 1, first), take(host, 2, second)) {
            (Some(one), Some(other)) => {
                first = one;
                second = other;
            }
            _ => return false,
        }
    }
    false
}

// Makes a connection for each request of a script.
fn ask_all(host: &mut Host, requests: Vec<Vec<Event>>) -> bool {
    let mut idle = true;
    for request in requests {
        idle &= connect(host).is_some() && let_arrive(host, request);
    }
    idle
}

/// The order of events of two clients of one long script, or of a client of it and clients of a
/// short one.
#[derive(Clone, Copy)]
enum Case {
    /// Both get segments in turn, the second after the first if there is one worker.
    ByTurns,

    /// The second gets its whole response, and then the first.
    SecondFirst,

    /// The first leaves when it has taken part of its response. The second has waited.
    Goes,

    /// The first stops sending when it has taken part of its response.
    Ends,

    /// The second leaves while it waits. The third has waited, too.
    WaiterGoes,
}

// The case, the number of workers, and the other requests.
const ROWS: [(Case, u32, &[&[u8]]); 6] = [
    (Case::ByTurns, 1, &[LONG]),
    (Case::ByTurns, 4, &[LONG]),
    (Case::SecondFirst, 4, &[LONG]),
    (Case::Goes, 1, &[SHORT]),
    (Case::Ends, 1, &[SHORT]),
    (Case::WaiterGoes, 1, &[SHORT, SHORT]),
];

fn is_goes(host: &mut Host, answer: &[u8]) -> bool {
    take_some(host, 1, answer).is_some()
        && is_sent(host, 2, b"")
        && end(host, 1, How::Gone)
        && is_gone(host, 1)
        && is_sent(host, 2, FROM_SHORT)
}

fn is_ended(host: &mut Host, answer: &[u8]) -> bool {
    match take_some(host, 1, answer) {
        Some(left) => {
            end(host, 1, How::Done)
                && is_sent(host, 2, b"")
                && is_sent(host, 1, left)
                && is_gone(host, 1)
                && is_sent(host, 2, FROM_SHORT)
        }
        None => false,
    }
}

fn is_left(host: &mut Host, answer: &[u8]) -> bool {
    end(host, 2, How::Gone)
        && is_sent(host, 3, b"")
        && is_sent(host, 1, answer)
        && is_gone(host, 2)
        && is_sent(host, 3, FROM_SHORT)
}

// Returns the result of a case, with this response for the long script.
fn goes(host: &mut Host, case: Case, requests: Vec<Vec<Event>>, answer: &[u8]) -> bool {
    if !ask_all(host, requests) {
        return false;
    }
    match case {
        Case::ByTurns => are_sent_by_turns(host, answer),
        Case::SecondFirst => is_sent(host, 2, answer) && is_sent(host, 1, answer),
        Case::Goes => is_goes(host, answer),
        Case::Ends => is_ended(host, answer),
        Case::WaiterGoes => is_left(host, answer),
    }
}

// The requests: the long script first, and then that script or the short one.
fn requests_of(alloc: Global, others: &[&[u8]]) -> Result<Vec<Vec<Event>>, AllocError> {
    let mut requests = Vec::new(alloc);
    requests.push(arrivals(alloc, 1, LONG, 8192)?)?;
    let mut number = 2u32;
    for other in others {
        requests.push(arrivals(alloc, number, other, 8192)?)?;
        number = number.saturating_add(1);
    }
    Ok(requests)
}

fn holds(alloc: Global, case: Case, workers: u32, others: &[&[u8]]) -> Result<bool, Refusal> {
    let requests = requests_of(alloc, others)?;
    let big = bytes_of(alloc, BYTES)?;
    let answer = in_chunks(alloc, &big)?;
    let files = files_of(&big, b"cat big");
    let plan = Plan::with(&files, workers, 4);
    on_host(alloc, &plan, |host| {
        goes(host, case, requests, &answer) && !host.is_resource_failure()
    })
}

#[test]
fn long_scripts(rt: HostRuntime) -> Result<(), Fail> {
    let alloc = rt.alloc();
    pass_each(
        &ROWS,
        |(case, workers, others)| holds(alloc, *case, *workers, others),
    )
}
