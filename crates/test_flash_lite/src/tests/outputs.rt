//! Outputs of scripts, by length: about that of a chunk, and more than a pipe and two queues hold.
use super::host::{Plan, on_host};
use super::rows::{arrivals, is_answered};
use iol_core::refusals::Refusal;
use std::alloc::{AllocError, Global};
use std::test::Fail;
use test_parts::checks::{pass, pass_each};
use test_parts::texts::bytes_of;
use test_worlds::files::Kept;

const GET: &[u8] = b"GET /s.cgi HTTP/1.1\r\nHost: a\r\n\r\n";

const OLD: &[u8] = b"GET /s.cgi HTTP/1.0\r\n\r\n";

const HEAD: &[u8] =
    b"HTTP/1.1 200 OK\r\nContent-Type: text/plain\r\nTransfer-Encoding: chunked\r\n\r\n";

const OLD_HEAD: &[u8] = b"HTTP/1.1 200 OK\r\nContent-Type: text/plain\r\nConnection: close\r\n\r\n";

// One chunk.
fn add_chunk(alloc: Global, answer: &mut Vec<u8>, piece: &[u8]) -> Result<(), AllocError> {
    let size = format!(in alloc; "{:x}\r\n", piece.len())?;
    answer.extend_from_slice(size.as_bytes())?;
    answer.extend_from_slice(piece)?;
    answer.extend_from_slice(b"\r\n")
}

/// The response with this output, in chunks.
pub fn in_chunks(alloc: Global, output: &[u8]) -> Result<Vec<u8>, AllocError> {
    let mut answer = Vec::from_slice(alloc, HEAD)?;
    for piece in output.chunks(4096) {
        add_chunk(alloc, &mut answer, piece)?;
    }
    answer.extend_from_slice(b"0\r\n\r\n")?;
    Ok(answer)
}

// The same for HTTP/1.0.
fn as_it_is(alloc: Global, output: &[u8]) -> Result<Vec<u8>, AllocError> {
    let mut answer = Vec::from_slice(alloc, OLD_HEAD)?;
    answer.extend_from_slice(output)?;
    Ok(answer)
}

// Returns whether a script over a file of these bytes gets this response, in chunks and then for
// HTTP/1.0.
fn are_answered(
    alloc: Global,
    script: &[u8],
    file: &[u8],
    chunked: &[u8],
    plain: &[u8],
) -> Result<bool, Refusal> {
    let first = arrivals(alloc, 1, GET, 8192)?;
    let second = arrivals(alloc, 2, OLD, 8192)?;
    let files: [Kept<'_>; 2] = [("big", file, false), ("s.cgi", script, false)];
    let plan = Plan {
        chunks: 17,
        ..Plan::of(&files)
    };
    on_host(alloc, &plan, |host| {
        is_answered(host, 1, first, chunked, false)
            && is_answered(host, 2, second, plain, true)
            && !host.is_resource_failure()
    })
}

// The length of a file, and whether the script outputs one more byte.
const OUTPUTS: [(u32, bool); 9] = [
    (1, false),
    (4_095, false),
    (4_096, false),
    (4_096, true),
    (5_000, false),
    (8_191, true),
    (8_193, false),
    (65_536, false),
    (200_000, true),
];

// The output for a file, followed by a line feed if `more`.
fn output_of(alloc: Global, file: &[u8], more: bool) -> Result<Vec<u8>, AllocError> {
    let mut output = Vec::from_slice(alloc, file)?;
    if more {
        output.push(b'\n')?;
    }
    Ok(output)
}

// Returns whether the output of a script over a file of `len` bytes is complete.
fn is_whole(alloc: Global, len: u32, more: bool) -> Result<bool, Refusal> {
    let file = bytes_of(alloc, len as usize)?;
    let script = if more {
        b"cat big\nemit".as_slice()
    } else {
        b"cat big".as_slice()
    };
    let output = output_of(alloc, &file, more)?;
    let chunked = in_chunks(alloc, &output)?;
    let plain = as_it_is(alloc, &output)?;
    are_answered(alloc, script, &file, &chunked, &plain)
}

#[test]
fn outputs_of_about_a_chunk(rt: HostRuntime) -> Result<(), Fail> {
    let alloc = rt.alloc();
    pass_each(&OUTPUTS, |(len, more)| is_whole(alloc, *len, *more))
}

// Of 256 whole chunks.
#[test]
fn output_of_a_mebibyte(rt: HostRuntime) -> Result<(), Fail> {
    pass(is_whole(rt.alloc(), 1_048_576, false))
}

#[test]
fn output_of_a_mebibyte_and_a_byte(rt: HostRuntime) -> Result<(), Fail> {
    pass(is_whole(rt.alloc(), 1_048_576, true))
}
