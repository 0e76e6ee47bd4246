//! The part of a response that a client's socket accepts, and the rest, after writes that are
//! short, block or fail.
use crate::memory_socket::{Manner, MemorySocket};
use iol_reactor::output::{Output, Sending};
use std::alloc::{AllocError, Global};
use std::test::Fail;
use test_parts::checks::pass_each;

const RESPONSE: &[u8] = b"hello, reactor";

// The bytes of one write at most, which calls block, which call fails; how sending them went, and
// the number accepted by then.
type Row = (usize, u32, u32, Sending, usize);

const ROWS: [Row; 8] = [
    (64, 0, 0, Sending::All, 14),
    (1, 0, 0, Sending::All, 14),
    (64, 1, 0, Sending::Blocked, 0),
    (5, 2, 0, Sending::Blocked, 5),
    (1, 14, 0, Sending::Blocked, 13),
    (0, 0, 0, Sending::Failed, 0),
    (5, 0, 1, Sending::Failed, 0),
    (5, 0, 3, Sending::Failed, 10),
];

fn socket_of(alloc: Global, (write, blocks, fails, _, _): &Row) -> MemorySocket<'static> {
    let manner = Manner {
        read: 0,
        write: *write,
        blocks: *blocks,
        fails: *fails,
        ends: false,
    };
    MemorySocket::new(alloc, b"", manner)
}

// Whether the counts of a response are those of this number of bytes accepted.
fn counts(output: &Output, accepted: usize) -> bool {
    output.produced() == 14
        && output.sent() == accepted as u64
        && output.head() == RESPONSE
        && output.tail() == b" reactor".as_slice()
}

fn sends(alloc: Global, row: &Row) -> bool {
    let mut socket = socket_of(alloc, row);
    let mut output = Output::new(alloc);
    let sending = output.send(&mut socket, RESPONSE);
    let holds = sending == row.3
        && socket.accepted() == &RESPONSE[..row.4.min(RESPONSE.len())]
        && output.is_blocked() == (sending == Sending::Blocked)
        && counts(&output, row.4);
    drop(socket);
    drop(output);
    holds
}

#[test]
fn each_sending(rt: HostRuntime) -> Result<(), Fail> {
    let alloc = rt.alloc();
    pass_each(&ROWS, |row| Ok::<bool, AllocError>(sends(alloc, row)))
}

// The bytes of one write at most, which calls block, and how many flushes there are after the first
// send.
const FLUSHES: [(usize, u32, u32); 4] = [(64, 0, 0), (5, 2, 2), (1, 2, 13), (4, 3, 1)];

// Flushes until nothing is left, and returns the number of flushes.
fn flush_all(output: &mut Output, socket: &mut MemorySocket<'_>) -> u32 {
    let mut flushes = 0u32;
    for _ in 0..100 {
        if !output.unblock() {
            return flushes;
        }
        flushes = flushes.saturating_add(1);
        let _ = output.flush(socket);
    }
    flushes
}

fn flushes(alloc: Global, (write, blocks, expected): &(usize, u32, u32)) -> bool {
    let row = (*write, *blocks, 0, Sending::All, 0);
    let mut socket = socket_of(alloc, &row);
    let mut output = Output::new(alloc);
    let _ = output.send(&mut socket, RESPONSE);
    let count = flush_all(&mut output, &mut socket);
    let holds = count == *expected && socket.accepted() == RESPONSE && counts(&output, 14);
    drop(socket);
    drop(output);
    holds
}

#[test]
fn each_flush(rt: HostRuntime) -> Result<(), Fail> {
    let alloc = rt.alloc();
    pass_each(&FLUSHES, |row| Ok::<bool, AllocError>(flushes(alloc, row)))
}
