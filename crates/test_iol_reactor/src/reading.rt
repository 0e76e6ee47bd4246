//! The contents of a client's input after reads that are short, block, fail or meet the peer's
//! end.
use crate::memory_socket::{Manner, MemorySocket};
use iol_reactor::input::{Input, Reading};
use std::alloc::{AllocError, Global};
use std::test::Fail;
use test_parts::checks::pass_each;

const SENT: &[u8] = b"hello, reactor";

// The bytes of one read, and of one piece, at most.
const ROOM: usize = 5;

// The bytes of one read at most, which calls block, which call fails, whether the peer's end
// follows; how the last read went, and the number of bytes buffered by then.
type Row = (usize, u32, u32, bool, Reading, usize);

const ROWS: [Row; 7] = [
    (5, 0, 0, false, Reading::Empty, 14),
    (1, 0, 0, false, Reading::Empty, 14),
    (5, 0, 0, true, Reading::End, 14),
    (5, 1, 0, true, Reading::Empty, 0),
    (4, 3, 0, false, Reading::Empty, 8),
    (5, 0, 1, false, Reading::Failed, 0),
    (5, 0, 3, false, Reading::Failed, 10),
];

fn socket_of(alloc: Global, (read, blocks, fails, ends, _, _): &Row) -> MemorySocket<'static> {
    let manner = Manner {
        read: *read,
        write: 0,
        blocks: *blocks,
        fails: *fails,
        ends: *ends,
    };
    MemorySocket::new(alloc, SENT, manner)
}

// Reads up to a read that brings no bytes, at most 100 times.
fn read_all(input: &mut Input, socket: &mut MemorySocket<'_>) -> Reading {
    let mut piece = [0u8; ROOM];
    for _ in 0..100 {
        let reading = input.read_from(socket, &mut piece);
        if !matches!(reading, Reading::Bytes(_)) {
            return reading;
        }
    }
    Reading::Bytes(0)
}

fn reads(alloc: Global, row: &Row) -> bool {
    let mut socket = socket_of(alloc, row);
    let mut input = Input::new(alloc);
    input.note(true, false);
    let last = read_all(&mut input, &mut socket);
    let holds = last == row.4
        && input.next() == &SENT[..row.5.min(SENT.len())]
        && input.is_ended() == (last == Reading::End);
    drop(socket);
    drop(input);
    holds
}

#[test]
fn each_reading(rt: HostRuntime) -> Result<(), Fail> {
    let alloc = rt.alloc();
    pass_each(&ROWS, |row| Ok::<bool, AllocError>(reads(alloc, row)))
}
