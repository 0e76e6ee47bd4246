//! Scripts: requests and whole responses.
use super::answers::{FORBIDDEN, NOT_FOUND};
use super::host::Plan;
use super::rows::{Row, pass_rows};
use std::test::Fail;
use test_worlds::files::Kept;

// A file for all, a private file of the guest, and scripts, one of which is private to the guest,
// too.
const FILES: [Kept<'static>; 9] = [
    ("f", b"a\nb", false),
    ("p", b"secret", true),
    ("two.cgi", b"emit a\nquery", false),
    ("none.cgi", b"", false),
    ("junk.cgi", b"jump", false),
    ("own.cgi", b"emit a", true),
    ("outcomes.cgi", b"wc f\ncat none\nemit", false),
    ("cat-p.cgi", b"cat p", false),
    ("pauses.cgi", b"pause\npause\npause\nemit a", false),
];

const FAULTY: &str =
    "HTTP/1.1 500 Internal Server Error\r\nContent-Type: text/plain\r\nContent-Length: 26\r\n\r\n\
        500 Internal Server Error\n";

const ROWS: [Row<'static>; 17] = [
    (
        "GET /two.cgi?q=1 HTTP/1.1\r\nHost: a\r\n\r\n",
        "HTTP/1.1 200 OK\r\nContent-Type: text/plain\r\nTransfer-Encoding: chunked\r\n\r\n6\r\na\nq=1\n\r\n0\r\n\r\n",
        false,
    ),
    (
        "GET /two.cgi?q=1 HTTP/1.0\r\n\r\n",
        "HTTP/1.1 200 OK\r\nContent-Type: text/plain\r\nConnection: close\r\n\r\na\nq=1\n",
        true,
    ),
    (
        "GET /two.cgi HTTP/1.1\r\nHost: a\r\nConnection: close\r\n\r\n",
        "HTTP/1.1 200 OK\r\nContent-Type: text/plain\r\nTransfer-Encoding: chunked\r\n\
            Connection: close\r\n\r\n3\r\na\n\n\r\n0\r\n\r\n",
        true,
    ),
    (
        "HEAD /two.cgi HTTP/1.1\r\nHost: a\r\n\r\n",
        "HTTP/1.1 200 OK\r\nContent-Type: text/plain\r\nTransfer-Encoding: chunked\r\n\r\n",
        false,
    ),
    (
        "HEAD /two.cgi HTTP/1.0\r\n\r\n",
        "HTTP/1.1 200 OK\r\nContent-Type: text/plain\r\nConnection: close\r\n\r\n",
        true,
    ),
    (
        "GET /none.cgi HTTP/1.1\r\nHost: a\r\n\r\n",
        "HTTP/1.1 200 OK\r\nContent-Type: text/plain\r\nTransfer-Encoding: chunked\r\n\r\n0\r\n\r\n",
        false,
    ),
    (
        "GET /none.cgi HTTP/1.0\r\n\r\n",
        "HTTP/1.1 200 OK\r\nContent-Type: text/plain\r\nConnection: close\r\n\r\n",
        true,
    ),
    (
        "GET /outcomes.cgi HTTP/1.1\r\nHost: a\r\nRange: bytes=0-1\r\n\r\n",
        "HTTP/1.1 200 OK\r\nContent-Type: text/plain\r\nTransfer-Encoding: chunked\r\n\r\ne\r\n\
            1 3\n[NoFile]\n\n\r\n0\r\n\r\n",
        false,
    ),
    (
        "GET /cat-p.cgi HTTP/1.1\r\nHost: a\r\n\r\n",
        "HTTP/1.1 200 OK\r\nContent-Type: text/plain\r\nTransfer-Encoding: chunked\r\n\r\n9\r\n[Denied]\n\r\n0\r\n\r\n",
        false,
    ),
    (
        "GET /pauses.cgi HTTP/1.1\r\nHost: a\r\n\r\n",
        "HTTP/1.1 200 OK\r\nContent-Type: text/plain\r\nTransfer-Encoding: chunked\r\n\r\n2\r\na\n\r\n0\r\n\r\n",
        false,
    ),
    (
        "GET /%74wo.cgi?%20+ HTTP/1.1\r\nHost: a\r\n\r\nGET /f HTTP/1.1\r\nHost: a\r\n\r\n\
            GET /none.cgi HTTP/1.1\r\nHost: a\r\n\r\n",
        "HTTP/1.1 200 OK\r\nContent-Type: text/plain\r\nTransfer-Encoding: chunked\r\n\r\n7\r\na\n\
            %20+\n\r\n0\r\n\r\nHTTP/1.1 200 OK\r\nContent-Type: application/octet-stream\r\n\
            Content-Length: 3\r\n\r\na\nbHTTP/1.1 200 OK\r\nContent-Type: text/plain\r\n\
            Transfer-Encoding: chunked\r\n\r\n0\r\n\r\n",
        false,
    ),
    ("GET /junk.cgi HTTP/1.1\r\nHost: a\r\n\r\n", FAULTY, false),
    (
        "HEAD /junk.cgi HTTP/1.1\r\nHost: a\r\n\r\n",
        "HTTP/1.1 500 Internal Server Error\r\nContent-Type: text/plain\r\nContent-Length: 26\r\n\r\n",
        false,
    ),
    (
        "GET /lost.cgi HTTP/1.1\r\nHost: a\r\n\r\n",
        NOT_FOUND,
        false,
    ),
    ("GET /own.cgi HTTP/1.1\r\nHost: a\r\n\r\n", FORBIDDEN, false),
    ("GET /p HTTP/1.1\r\nHost: a\r\n\r\n", FORBIDDEN, false),
    (
        "POST /two.cgi HTTP/1.1\r\nHost: a\r\n\r\n",
        "HTTP/1.1 405 Method Not Allowed\r\nContent-Type: text/plain\r\nContent-Length: 23\r\n\
            Allow: GET, HEAD\r\n\r\n405 Method Not Allowed\n",
        false,
    ),
];

// On a site with one worker, and on one with eight.
#[test]
fn answers_of_scripts(rt: HostRuntime) -> Result<(), Fail> {
    let of_eight = Plan {
        workers: 8,
        ..Plan::of(&FILES)
    };
    pass_rows(rt.alloc(), &Plan::of(&FILES), &ROWS)?;
    pass_rows(rt.alloc(), &of_eight, &ROWS)
}
