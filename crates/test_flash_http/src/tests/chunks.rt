//! Chunks, and the heads of responses of scripts.
ghost use Rattle.std.specs.Prelude.{◌<◌};

use flash_http::{CHUNK_END, LAST_CHUNK, ResponseHead, chunk_head};
use std::alloc::{AllocError, Global};
use std::test::Fail;
use test_parts::checks::pass;

// Returns whether this is the line before a chunk of `len` bytes.
fn is_size(alloc: Global, len: u64, expected: &str) -> Result<bool, AllocError>
    requires { 0 < len }
{
    let head = chunk_head(alloc, len)?;
    Ok(head.as_str() == expected)
}

fn sizes_hold(alloc: Global) -> Result<bool, AllocError> {
    let small = is_size(alloc, 1, "1\r\n")? && is_size(alloc, 10, "a\r\n")?;
    let large = is_size(alloc, 904, "388\r\n")? && is_size(alloc, 4096, "1000\r\n")?;
    Ok(small && large && is_size(alloc, u64::MAX, "ffffffffffffffff\r\n")?)
}

#[test]
fn sizes(rt: HostRuntime) -> Result<(), Fail> {
    pass(sizes_hold(rt.alloc()))
}

// The head of a script's response in chunks.
const CHUNKED: &str =
    "HTTP/1.1 200 OK\r\nContent-Type: text/plain\r\nTransfer-Encoding: chunked\r\n\r\n";

// The head of a response that ends with its connection.
const CLOSING: &str = "HTTP/1.1 200 OK\r\nContent-Type: text/plain\r\nConnection: close\r\n\r\n";

fn is_head(alloc: Global, chunked: bool, close: bool, expected: &str) -> Result<bool, AllocError> {
    let head = ResponseHead::of_script(chunked, close).to_text(alloc)?;
    Ok(head.as_str() == expected)
}

fn heads_hold(alloc: Global) -> Result<bool, AllocError> {
    Ok(is_head(alloc, true, false, CHUNKED)? && is_head(alloc, false, true, CLOSING)?)
}

// Two lines in a chunk, and the end.
fn lines_hold(alloc: Global) -> Result<bool, AllocError> {
    let size = chunk_head(alloc, 6)?;
    let lines = format!(in alloc; "{size}a\nq=1\n{CHUNK_END}{LAST_CHUNK}")?;
    Ok(lines.as_str() == "6\r\na\nq=1\n\r\n0\r\n\r\n")
}

#[test]
fn two_lines_chunked(rt: HostRuntime) -> Result<(), Fail> {
    pass(heads_hold(rt.alloc()))?;
    pass(lines_hold(rt.alloc()))
}
