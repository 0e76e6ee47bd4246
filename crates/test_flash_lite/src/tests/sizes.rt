//! Files of about the capacity of a queue, and of the maximum length.
use super::host::{Host, Plan, connect, on_host};
use super::rows::{arrivals, is_sent, let_arrive};
use iol_core::events::Event;
use iol_core::refusals::Refusal;
use std::alloc::{AllocError, Global};
use std::test::Fail;
use test_parts::checks::{pass, pass_each};
use test_parts::texts::bytes_of;
use test_worlds::files::Kept;

const GET: &[u8] = b"GET /f HTTP/1.1\r\nHost: a\r\n\r\n";

const HEAD: &[u8] = b"HEAD /f HTTP/1.1\r\nHost: a\r\n\r\n";

/// The response if the file cannot be read, or its script run.
pub const REFUSED: &[u8] =
    b"HTTP/1.1 503 Service Unavailable\r\nContent-Type: text/plain\r\nContent-Length: 24\r\n\r\n\
        503 Service Unavailable\n";

// The head for a file of `len` bytes, followed by these bytes.
fn answer_of(alloc: Global, len: u32, bytes: &[u8]) -> Result<Vec<u8>, AllocError> {
    let head = format!(in alloc;
        "HTTP/1.1 200 OK\r\nContent-Type: application/octet-stream\r\nContent-Length: {len}\r\n\r\n"
    )?;
    let mut answer = Vec::from_slice(alloc, head.as_bytes())?;
    answer.extend_from_slice(bytes)?;
    Ok(answer)
}

// Returns whether a request gets this response.
fn is_answered(host: &mut Host, number: u32, request: Vec<Event>, answer: &[u8]) -> bool {
    connect(host).is_some() && let_arrive(host, request) && is_sent(host, number, answer)
}

// Returns whether a GET of a file and then a HEAD get these responses.
fn are_answered(
    alloc: Global,
    bytes: &[u8],
    chunks: u32,
    get: &[u8],
    head: &[u8],
) -> Result<bool, Refusal> {
    let first = arrivals(alloc, 1, GET, 8192)?;
    let second = arrivals(alloc, 2, HEAD, 8192)?;
    let files: [Kept<'_>; 1] = [("f", bytes, false)];
    let plan = Plan {
        chunks,
        ..Plan::of(&files)
    };
    on_host(alloc, &plan, |host| {
        is_answered(host, 1, first, get) && is_answered(host, 2, second, head)
    })
}

// Returns whether the response with a file of `len` bytes is complete.
fn is_whole(alloc: Global, len: u32, chunks: u32) -> Result<bool, Refusal> {
    let bytes = bytes_of(alloc, len as usize)?;
    let get = answer_of(alloc, len, &bytes)?;
    let head = answer_of(alloc, len, b"")?;
    are_answered(alloc, &bytes, chunks, &get, &head)
}

// The length of a file, and the number of chunks.
const SIZES: [(u32, u32); 4] = [(0, 1), (65_535, 1), (65_536, 1), (65_537, 2)];

#[test]
fn files_of_about_a_queue(rt: HostRuntime) -> Result<(), Fail> {
    let alloc = rt.alloc();
    pass_each(&SIZES, |(len, chunks)| is_whole(alloc, *len, *chunks))
}

// Returns whether a file of `len` bytes is too large for a GET, but not for a HEAD.
fn is_refused(alloc: Global, len: u32) -> Result<bool, Refusal> {
    let bytes = bytes_of(alloc, len as usize)?;
    let head = answer_of(alloc, len, b"")?;
    are_answered(alloc, &bytes, 254, REFUSED, &head)
}

// As many bytes as the pool `site` may have pages for, if three other pools have a chunk each.
#[test]
fn file_as_large_as_its_pool(rt: HostRuntime) -> Result<(), Fail> {
    pass(is_whole(rt.alloc(), 254 * 65_536, 254))
}

// The maximum length of a file: its pool does not have enough pages for all of it.
#[test]
fn file_that_no_pool_holds(rt: HostRuntime) -> Result<(), Fail> {
    pass(is_refused(rt.alloc(), 16_777_216))
}
