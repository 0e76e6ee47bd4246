//! Fifty heads that are malformed, or not served, in one place each.
use super::outcomes::{Row, comes_to, pass_outcomes};
use super::texts::repeated;
use std::alloc::{AllocError, Global};
use std::test::Fail;
use test_parts::checks::pass_each;

// Heads that do not parse as a request: 400, for every method.
const NO_HEADS: [Row; 24] = [
    // no bytes
    ("", "400 close"),
    // only an empty line
    ("\r\n", "400 close"),
    // no empty line at the end
    ("GET / HTTP/1.1\r\nHost: a\r\n", "400 close"),
    // bytes after the head
    ("GET / HTTP/1.1\r\nHost: a\r\n\r\nx", "400 close"),
    // no version
    ("GET /\r\nHost: a\r\n\r\n", "400 close"),
    // two spaces
    ("GET  / HTTP/1.1\r\nHost: a\r\n\r\n", "400 close"),
    // a space in the target
    ("GET /a b HTTP/1.1\r\nHost: a\r\n\r\n", "400 close"),
    // a space before the method
    (" GET / HTTP/1.1\r\nHost: a\r\n\r\n", "400 close"),
    // a space after the version
    ("GET / HTTP/1.1 \r\nHost: a\r\n\r\n", "400 close"),
    // a tab for a space
    ("GET\t/ HTTP/1.1\r\nHost: a\r\n\r\n", "400 close"),
    // no token
    ("G@T / HTTP/1.1\r\nHost: a\r\n\r\n", "400 close"),
    // a later version
    ("GET / HTTP/1.2\r\nHost: a\r\n\r\n", "400 close"),
    // another major version
    ("GET / HTTP/2.0\r\nHost: a\r\n\r\n", "400 close"),
    // the version in small letters
    ("GET / http/1.1\r\nHost: a\r\n\r\n", "400 close"),
    // no colon
    ("GET / HTTP/1.1\r\nHost: a\r\nX\r\n\r\n", "400 close"),
    // no name
    ("GET / HTTP/1.1\r\nHost: a\r\n: x\r\n\r\n", "400 close"),
    // a space in a name
    ("GET / HTTP/1.1\r\nHost: a\r\nX Y: x\r\n\r\n", "400 close"),
    // a space before the colon
    ("GET / HTTP/1.1\r\nHost : a\r\n\r\n", "400 close"),
    // a folded line
    (
        "GET / HTTP/1.1\r\nHost: a\r\nX: x\r\n y\r\n\r\n",
        "400 close",
    ),
    // a space before the first field
    ("GET / HTTP/1.1\r\n Host: a\r\n\r\n", "400 close"),
    // a NUL in a value
    ("GET / HTTP/1.1\r\nHost: a\r\nX: a\0b\r\n\r\n", "400 close"),
    // a carriage return in a value
    ("GET / HTTP/1.1\r\nHost: a\r\nX: a\rb\r\n\r\n", "400 close"),
    // a DEL in a value
    (
        "GET / HTTP/1.1\r\nHost: a\r\nX: a\x7fb\r\n\r\n",
        "400 close",
    ),
    // a letter past ASCII in a name
    (
        "GET / HTTP/1.1\r\nHost: a\r\n\u{e9}: x\r\n\r\n",
        "400 close",
    ),
];

const REFUSED_HEADS: [Row; 26] = [
    // no host
    ("GET / HTTP/1.1\r\n\r\n", "400 close"),
    // no host, for HEAD
    ("HEAD / HTTP/1.1\r\n\r\n", "400 head close"),
    // two hosts
    ("GET / HTTP/1.1\r\nHost: a\r\nhost: a\r\n\r\n", "400 close"),
    // a path in the host
    ("GET / HTTP/1.1\r\nHost: a/b\r\n\r\n", "400 close"),
    // a user in the host
    ("GET / HTTP/1.1\r\nHost: u@a\r\n\r\n", "400 close"),
    // a space in the host
    ("GET / HTTP/1.1\r\nHost: a b\r\n\r\n", "400 close"),
    // a letter past ASCII in the host
    ("GET / HTTP/1.1\r\nHost: \u{e9}\r\n\r\n", "400 close"),
    // content
    (
        "GET / HTTP/1.1\r\nHost: a\r\nContent-Length: 5\r\n\r\n",
        "400 close",
    ),
    // a length in two digits
    (
        "GET / HTTP/1.1\r\nHost: a\r\nContent-Length: 00\r\n\r\n",
        "400 close",
    ),
    // a length that is no number
    (
        "GET / HTTP/1.1\r\nHost: a\r\nContent-Length: \r\n\r\n",
        "400 close",
    ),
    // a coding
    (
        "GET / HTTP/1.1\r\nHost: a\r\nTransfer-Encoding: identity\r\n\r\n",
        "400 close",
    ),
    // a coding together with a length
    (
        "GET / HTTP/1.1\r\nHost: a\r\nContent-Length: 0\r\nTransfer-Encoding: chunked\r\n\r\n",
        "400 close",
    ),
    // the method in small letters
    ("get / HTTP/1.1\r\nHost: a\r\n\r\n", "501"),
    // an unknown method
    ("BREW / HTTP/1.1\r\nHost: a\r\n\r\n", "501"),
    // a method for other files
    ("POST / HTTP/1.1\r\nHost: a\r\n\r\n", "405"),
    // an asterisk
    ("GET * HTTP/1.1\r\nHost: a\r\n\r\n", "400 close"),
    // an authority
    ("GET a:80 HTTP/1.1\r\nHost: a\r\n\r\n", "400 close"),
    // another scheme
    ("GET ftp://a/x HTTP/1.1\r\nHost: a\r\n\r\n", "400 close"),
    // a fragment
    ("GET /x#y HTTP/1.1\r\nHost: a\r\n\r\n", "400 close"),
    // half an escape
    ("GET /a%2 HTTP/1.1\r\nHost: a\r\n\r\n", "400 close"),
    // an escape of no digit
    ("GET /a%2g HTTP/1.1\r\nHost: a\r\n\r\n", "400 close"),
    // an escaped NUL
    ("GET /a%00 HTTP/1.1\r\nHost: a\r\n\r\n", "400 close"),
    // escapes of no text
    ("GET /%ff HTTP/1.1\r\nHost: a\r\n\r\n", "400 close"),
    // a dot segment
    ("GET /../x HTTP/1.1\r\nHost: a\r\n\r\n", "400 close"),
    // a dot segment at the end
    ("GET /a/. HTTP/1.1\r\nHost: a\r\n\r\n", "400 close"),
    // an escaped dot segment
    ("GET /a/%2e%2E/x HTTP/1.1\r\nHost: a\r\n\r\n", "400 close"),
];

#[test]
fn no_heads(rt: HostRuntime) -> Result<(), Fail> {
    pass_outcomes(rt.alloc(), &NO_HEADS)
}

#[test]
fn refused_heads(rt: HostRuntime) -> Result<(), Fail> {
    pass_outcomes(rt.alloc(), &REFUSED_HEADS)
}

// The number of fields of a head in addition to its host, and the result: 64 fields are parsed,
// and no more.
const LIMITS: [(usize, &str); 2] = [(63, "index.html"), (64, "400 close")];

fn is_at_limit(alloc: Global, row: &(usize, &str)) -> Result<bool, AllocError> {
    let (others, outcome) = *row;
    let head = repeated(
        alloc,
        "GET / HTTP/1.1\r\nHost: a\r\n",
        "X: y\r\n",
        others,
        "\r\n",
    )?;
    comes_to(alloc, &head, outcome)
}

#[test]
fn fields_at_the_limit(rt: HostRuntime) -> Result<(), Fail> {
    let alloc = rt.alloc();
    pass_each(&LIMITS, |row| is_at_limit(alloc, row))
}
