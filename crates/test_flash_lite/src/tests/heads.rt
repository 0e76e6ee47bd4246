//! Heads at the limit of 8,192 bytes.
use super::answers::{FILES, FIRST};
use super::host::Plan;
use super::rows::{Row, arrivals, held_with};
use iol_core::events::Event;
use iol_core::refusals::Refusal;
use std::alloc::{AllocError, Global};
use std::test::Fail;
use test_parts::checks::pass_all;

const LARGE: &str = "HTTP/1.1 431 Request Header Fields Too Large\r\nContent-Type: text/plain\r\n\
        Content-Length: 36\r\nConnection: close\r\n\r\n431 Request Header Fields Too Large\n";

const SERVED: Row<'static> = ("", FIRST, false);

const REFUSED: Row<'static> = ("", LARGE, true);

// The text before a head, and the length of its field: heads of 8,191, 8,192 and 8,193 bytes, and
// after an empty line of 8,190 and 8,191.
const HEADS: [(&str, usize); 5] = [
    ("", 8159),
    ("", 8160),
    ("", 8161),
    ("\r\n", 8158),
    ("\r\n", 8159),
];

// The result for each.
const ROWS: [Row<'static>; 5] = [SERVED, SERVED, REFUSED, SERVED, REFUSED];

// A head with a field of `len` bytes.
fn head_of(alloc: Global, before: &str, len: usize) -> Result<Vec<u8>, AllocError> {
    let mut head = Vec::from_slice(alloc, before.as_bytes())?;
    head.extend_from_slice(b"GET / HTTP/1.1\r\nHost: a\r\nX: ")?;
    for _ in 0..len {
        head.push(b'y')?;
    }
    head.extend_from_slice(b"\r\n\r\n")?;
    Ok(head)
}

// The heads, each on a connection of its own, in pieces of `size` bytes.
fn streams(alloc: Global, size: usize) -> Result<Vec<Vec<Event>>, AllocError> {
    let mut streams = Vec::new(alloc);
    let mut number = 1u32;
    for (before, len) in HEADS {
        let head = head_of(alloc, before, len)?;
        streams.push(arrivals(alloc, number, &head, size)?)?;
        number = number.saturating_add(1);
    }
    Ok(streams)
}

// The number of heads with the expected result, in pieces of `size` bytes.
fn held(alloc: Global, size: usize) -> Result<usize, Refusal> {
    let streams = streams(alloc, size)?;
    held_with(alloc, &Plan::of(&FILES), streams, &ROWS)
}

#[test]
fn heads_at_the_limit(rt: HostRuntime) -> Result<(), Fail> {
    pass_all(held(rt.alloc(), 16_384), ROWS.len())
}

#[test]
fn heads_at_the_limit_byte_by_byte(rt: HostRuntime) -> Result<(), Fail> {
    pass_all(held(rt.alloc(), 1), ROWS.len())
}
