//! Output to a writer.
use super::line::{Line, NONE};
use iol_core::refusals::Refusal;
use std::alloc::Global;
use std::test::Fail;
use test_parts::checks::{lend, pass, pass_each};
use test_parts::streams::{Sink, Source};

// Two buffers are queued, of three bytes and of two.
fn let_wait(line: &mut Line) -> bool {
    let mut reader = Source::new(b"abcde", 3, 0);
    line.takes(&mut reader, 9, 3) && line.takes(&mut reader, 9, 2) && line.echo()
}

// A connection that does not exist.
fn refuses_none(line: &mut Line) -> bool {
    let mut writer = Sink::new(line.alloc, 9, 0);
    let_wait(line)
        && line.drain_to(NONE, &mut writer, 9) == Err(Refusal::BadFd)
        && writer.writes == 0
}

#[test]
fn refused_before_it_writes(rt: HostRuntime) -> Result<(), Fail> {
    pass(lend(Line::new(rt.alloc()), refuses_none))
}

// The write that fails, the number of bytes that are sent then, and the number the next time.
const FAILING: [(u32, u32, u32); 3] = [(1, 0, 5), (2, 2, 3), (3, 3, 2)];

// A write fails after `taken` bytes are sent.
fn first_fails(line: &mut Line, writer: &mut Sink, fails: u32, taken: u32) -> bool {
    line.drains(writer, 9, (taken, true))
        && writer.writes == fails
        && writer.bytes().len() == taken as usize
}

// The next time the rest is sent.
fn rest_follows(line: &mut Line, writer: &mut Sink, rest: u32) -> bool {
    line.drains(writer, 9, (rest, false)) && writer.bytes() == b"abcde".as_slice() && line.holds(0)
}

// A writer that takes at most two bytes at once fails at that write.
fn all_go_out(line: &mut Line, row: &(u32, u32, u32)) -> bool {
    let (fails, taken, rest) = *row;
    let mut writer = Sink::new(line.alloc, 2, fails);
    let_wait(line)
        && first_fails(line, &mut writer, fails, taken)
        && rest_follows(line, &mut writer, rest)
}

fn fails_at(alloc: Global, row: &(u32, u32, u32)) -> Result<bool, Refusal> {
    lend(Line::new(alloc), |line| all_go_out(line, row))
}

#[test]
fn fails_at_each_write(rt: HostRuntime) -> Result<(), Fail> {
    let alloc = rt.alloc();
    pass_each(&FAILING, |row| fails_at(alloc, row))
}

// The maximum number of bytes that a writer takes at once, the number of queued bytes that it is
// offered, of five, the number that it takes, and the number of writes. A writer that takes none
// has failed. There is one write for each buffer and for each rest of one that is not taken whole,
// and none for no bytes: no more writes than bytes, except for the writer that takes none.
const WRITES: [(u32, u32, u32, u32); 8] = [
    (9, 9, 5, 2),
    (9, 4, 4, 2),
    (9, 3, 3, 1),
    (9, 0, 0, 0),
    (2, 9, 5, 3),
    (1, 9, 5, 5),
    (1, 3, 3, 3),
    (0, 9, 0, 1),
];

fn takes(line: &mut Line, row: &(u32, u32, u32, u32)) -> bool {
    let (most, max, taken, writes) = *row;
    let mut writer = Sink::new(line.alloc, most, 0);
    let_wait(line)
        && line.drains(&mut writer, max, (taken, most == 0))
        && writer.writes == writes
        && b"abcde".as_slice().starts_with(writer.bytes())
}

fn writes(alloc: Global, row: &(u32, u32, u32, u32)) -> Result<bool, Refusal> {
    lend(Line::new(alloc), |line| takes(line, row))
}

#[test]
fn a_write_a_part(rt: HostRuntime) -> Result<(), Fail> {
    let alloc = rt.alloc();
    pass_each(&WRITES, |row| writes(alloc, row))
}
