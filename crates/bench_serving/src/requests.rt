//! Requests, and the measurements with them.
use crate::host::{Host, arrive, connect, send, waits};
use iol_core::numbers::ConnId;

/// The input that arrives at once on a connection.
#[derive(Clone, Copy, Drop)]
pub enum Request {
    /// A GET of the file.
    Get,

    /// A HEAD of it.
    Head,

    /// A GET of a file that does not exist.
    None,

    /// Two GETs of the file.
    Pair,

    /// A GET of a script that outputs the file.
    Script,
}

impl Request {
    /// The request of a word.
    pub fn of_word(word: &str) -> Option<Request> {
        match word {
            "get" => Some(Request::Get),
            "head" => Some(Request::Head),
            "none" => Some(Request::None),
            "pair" => Some(Request::Pair),
            "script" => Some(Request::Script),
            _ => None,
        }
    }

    /// Returns whether it requests a script.
    pub fn is_for_script(self) -> bool {
        matches!(self, Request::Script)
    }

    fn bytes(self) -> &'static [u8] {
        match self {
            Request::Get => b"GET /f HTTP/1.1\r\nHost: a\r\n\r\n",
            Request::Head => b"HEAD /f HTTP/1.1\r\nHost: a\r\n\r\n",
            Request::None => b"GET /g HTTP/1.1\r\nHost: a\r\n\r\n",
            Request::Script => b"GET /s.cgi HTTP/1.1\r\nHost: a\r\n\r\n",
            Request::Pair => {
                b"GET /f HTTP/1.1\r\nHost: a\r\n\r\nGET /f HTTP/1.1\r\nHost: a\r\n\r\n"
            }
        }
    }
}

/// The kinds of measurements.
#[derive(Clone, Copy, Drop)]
pub enum What {
    /// The number of calls of the server for a request.
    Calls,

    /// Requests, each with its whole response.
    Answers,

    /// The same number of turns, with nothing to do in them.
    Rests,
}

impl What {
    /// The measurement of a word.
    pub fn of_word(word: &str) -> Option<What> {
        match word {
            "calls" => Some(What::Calls),
            "answers" => Some(What::Answers),
            "rests" => Some(What::Rests),
            _ => None,
        }
    }
}

/// A request, a number of times on one connection, in addition to a number of idle ones.
#[derive(Clone, Copy, Drop)]
pub struct Plan {
    pub what: What,
    pub request: Request,
    pub others: u32,
    pub rounds: u32,
}

// Gives turns until all are idle, and takes the output; returns the number of bytes.
fn settle_and_send(host: &mut Host, conn: ConnId) -> u32 {
    if host.quiesce() { send(host, conn) } else { 0 }
}

// A request with its whole response: the number of times that turns were given, and the number of
// bytes.
fn answer(host: &mut Host, conn: ConnId, request: Request) -> (u32, u64) {
    let mut sent = 0u64;
    if !arrive(host, conn, request.bytes()) {
        return (0, 0);
    }
    for times in 1..1000u32 {
        let count = settle_and_send(host, conn);
        if count == 0 {
            return (times, sent);
        }
        sent = sent.saturating_add(u64::from(count));
    }
    (0, sent)
}

// Requests, one after another: the number of bytes sent.
fn answers(host: &mut Host, conn: ConnId, plan: &Plan) -> u64 {
    let mut sent = 0u64;
    for _ in 0..plan.rounds {
        let (_times, count) = answer(host, conn, plan.request);
        sent = sent.saturating_add(count);
    }
    sent
}

// One request, and then turns with nothing to do: the number of bytes sent.
fn rests(host: &mut Host, conn: ConnId, plan: &Plan) -> u64 {
    let (times, mut sent) = answer(host, conn, plan.request);
    for _ in 0..plan.rounds {
        for _ in 0..times {
            sent = sent.saturating_add(u64::from(settle_and_send(host, conn)));
        }
    }
    sent
}

// The number of calls of the server for a request, before it has to wait for more.
fn calls(host: &mut Host, conn: ConnId, request: Request) -> u64 {
    if !arrive(host, conn, request.bytes()) {
        return 0;
    }
    for count in 0..1000u64 {
        if waits(host) {
            return count;
        }
    }
    0
}

// Idle connections, and then the one with requests.
fn connect_beside(host: &mut Host, others: u32) -> Option<ConnId> {
    for _ in 0..others {
        let _other = connect(host)?;
    }
    let conn = connect(host)?;
    if host.quiesce() { Some(conn) } else { None }
}

/// The measurement: the number of calls of a request, or the number of bytes sent. None if no
/// connection can be made.
pub fn measure(host: &mut Host, plan: &Plan) -> Option<u64> {
    let conn = connect_beside(host, plan.others)?;
    Some(match plan.what {
        What::Calls => calls(host, conn, plan.request),
        What::Answers => answers(host, conn, plan),
        What::Rests => rests(host, conn, plan),
    })
}
