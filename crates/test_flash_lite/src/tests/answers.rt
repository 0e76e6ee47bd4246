//! Whole responses, and the refusals of sites.
use super::host::{Plan, refusal_of};
use super::rows::{Row, pass_rows};
use iol_core::refusals::Refusal;
use std::alloc::Global;
use std::test::Fail;
use test_parts::checks::pass_each;
use test_worlds::files::Kept;

/// An index, and a private file of the guest.
pub const FILES: [Kept<'static>; 2] = [("index.html", b"hi\n", false), ("p", b"secret", true)];

/// The response to a GET of the index.
pub const FIRST: &str =
    "HTTP/1.1 200 OK\r\nContent-Type: text/html\r\nContent-Length: 3\r\n\r\nhi\n";

/// The same, followed by the response to a HEAD of it.
pub const BOTH: &str =
    "HTTP/1.1 200 OK\r\nContent-Type: text/html\r\nContent-Length: 3\r\n\r\nhi\nHTTP/1.1 200 OK\r\n\
        Content-Type: text/html\r\nContent-Length: 3\r\n\r\n";

const BAD: &str = "HTTP/1.1 400 Bad Request\r\nContent-Type: text/plain\r\nContent-Length: 16\r\n\
        Connection: close\r\n\r\n400 Bad Request\n";

/// The response if there is no such file.
pub const NOT_FOUND: &str =
    "HTTP/1.1 404 Not Found\r\nContent-Type: text/plain\r\nContent-Length: 14\r\n\r\n404 Not Found\n";

/// The response if the file is private to the guest.
pub const FORBIDDEN: &str =
    "HTTP/1.1 403 Forbidden\r\nContent-Type: text/plain\r\nContent-Length: 14\r\n\r\n403 Forbidden\n";

// The first is two requests, one after another; those from the fifth on are refused.
const ROWS: [Row<'static>; 13] = [
    (
        "GET / HTTP/1.1\r\nHost: a\r\n\r\nHEAD / HTTP/1.1\r\nHost: a\r\n\r\n",
        BOTH,
        false,
    ),
    (
        "GET / HTTP/1.1\r\nHost: a\r\n\r\n\r\nHEAD / HTTP/1.1\r\nHost: a\r\n\r\nGET / HTTP/1.1\r\n\
            Host: a\r\nConnection: close\r\n\r\nGET / HTTP/1.1\r\nHost: a\r\n\r\n",
        "HTTP/1.1 200 OK\r\nContent-Type: text/html\r\nContent-Length: 3\r\n\r\nhi\n\
            HTTP/1.1 200 OK\r\nContent-Type: text/html\r\nContent-Length: 3\r\n\r\n\
            HTTP/1.1 200 OK\r\nContent-Type: text/html\r\nContent-Length: 3\r\n\
            Connection: close\r\n\r\nhi\n",
        true,
    ),
    (
        "GET /index.html HTTP/1.1\r\nHost: 127.0.0.1:8080\r\nUser-Agent: curl/8.5.0\r\nAccept: */*\r\n\r\n",
        FIRST,
        false,
    ),
    (
        "GET / HTTP/1.0\r\n\r\n",
        "HTTP/1.1 200 OK\r\nContent-Type: text/html\r\nContent-Length: 3\r\nConnection: close\r\n\r\nhi\n",
        true,
    ),
    ("GET / HTTP/1.1\r\n\r\n", BAD, true),
    ("GET /a%2 HTTP/1.1\r\nHost: a\r\n\r\n", BAD, true),
    ("GET /../x HTTP/1.1\r\nHost: a\r\n\r\n", BAD, true),
    (
        "POST / HTTP/1.1\r\nHost: a\r\nContent-Length: 5\r\n\r\nhello",
        BAD,
        true,
    ),
    (
        "POST / HTTP/1.1\r\nHost: a\r\n\r\n",
        "HTTP/1.1 405 Method Not Allowed\r\nContent-Type: text/plain\r\nContent-Length: 23\r\n\
            Allow: GET, HEAD\r\n\r\n405 Method Not Allowed\n",
        false,
    ),
    (
        "BREW / HTTP/1.1\r\nHost: a\r\n\r\n",
        "HTTP/1.1 501 Not Implemented\r\nContent-Type: text/plain\r\nContent-Length: 20\r\n\r\n501 Not Implemented\n",
        false,
    ),
    ("GET /none HTTP/1.1\r\nHost: a\r\n\r\n", NOT_FOUND, false),
    (
        "HEAD /none HTTP/1.1\r\nHost: a\r\n\r\n",
        "HTTP/1.1 404 Not Found\r\nContent-Type: text/plain\r\nContent-Length: 14\r\n\r\n",
        false,
    ),
    ("GET /p HTTP/1.1\r\nHost: a\r\n\r\n", FORBIDDEN, false),
];

#[test]
fn answers_to_requests(rt: HostRuntime) -> Result<(), Fail> {
    pass_rows(rt.alloc(), &Plan::of(&FILES), &ROWS)
}

// Sites with this number of workers and of guests.
const SITES: [(u32, u32, Option<Refusal>); 5] = [
    (0, 1, Some(Refusal::BadRange)),
    (9, 1, Some(Refusal::BadRange)),
    (1, 8, Some(Refusal::BadRange)),
    (1, 0, Some(Refusal::BadRange)),
    (8, 7, None),
];

// Returns whether a site is refused with this refusal, or is not.
fn is_refused(
    alloc: Global,
    plan: &Plan<'_>,
    site: &(u32, u32, Option<Refusal>),
) -> Result<bool, Refusal> {
    let (workers, guests, refusal) = *site;
    Ok(refusal_of(alloc, plan, workers, guests)? == refusal)
}

#[test]
fn sites_out_of_range(rt: HostRuntime) -> Result<(), Fail> {
    let plan = Plan::of(&FILES);
    let alloc = rt.alloc();
    pass_each(&SITES, |site| is_refused(alloc, &plan, site))
}
