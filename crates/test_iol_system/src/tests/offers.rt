//! Output to a taker of several slices.
use super::line::{Line, NONE};
use super::taker::Taker;
use iol_core::refusals::Refusal;
use std::alloc::Global;
use std::test::Fail;
use test_parts::checks::{lend, pass, pass_each};
use test_parts::streams::Source;

// Two buffers are queued, of three bytes and of two.
fn let_wait(line: &mut Line) -> bool {
    let mut reader = Source::new(b"abcde", 3, 0);
    line.takes(&mut reader, 9, 3) && line.takes(&mut reader, 9, 2) && line.echo()
}

// A connection that does not exist.
fn refuses_none(line: &mut Line) -> bool {
    let mut taker = Taker::new(line.alloc, 9);
    let_wait(line)
        && line.drain_into(NONE, &mut taker, 9) == Err(Refusal::BadFd)
        && taker.calls == 0
}

#[test]
fn refused_before_it_offers(rt: HostRuntime) -> Result<(), Fail> {
    pass(lend(Line::new(rt.alloc()), refuses_none))
}

// The maximum number of bytes that a taker takes in a call, the number of queued bytes that it is
// offered, of five, the number that it takes, the number of calls, and whether it took fewer than
// it was offered. Two slices are offered in one call.
const OFFERS: [(u32, u32, u32, u32, bool); 8] = [
    (9, 9, 5, 1, false),
    (9, 4, 4, 1, false),
    (9, 3, 3, 1, false),
    (9, 0, 0, 0, false),
    (5, 9, 5, 1, false),
    (4, 9, 4, 1, true),
    (2, 4, 2, 1, true),
    (0, 9, 0, 1, true),
];

// The bytes that are not taken are offered the next time.
fn takes(line: &mut Line, row: &(u32, u32, u32, u32, bool)) -> bool {
    let (most, max, taken, calls, failed) = *row;
    let mut taker = Taker::new(line.alloc, most);
    let mut other = Taker::new(line.alloc, 9);
    let_wait(line)
        && line.offers(&mut taker, max, (taken, failed))
        && taker.calls == calls
        && b"abcde".as_slice().starts_with(taker.bytes())
        && line.offers(&mut other, 9, (5u32.saturating_sub(taken), false))
        && b"abcde".as_slice().ends_with(other.bytes())
        && line.holds(0)
}

fn offers(alloc: Global, row: &(u32, u32, u32, u32, bool)) -> Result<bool, Refusal> {
    lend(Line::new(alloc), |line| takes(line, row))
}

#[test]
fn two_slices_in_a_call(rt: HostRuntime) -> Result<(), Fail> {
    let alloc = rt.alloc();
    pass_each(&OFFERS, |row| offers(alloc, row))
}

// A buffer for each of six bytes.
fn six_wait(line: &mut Line) -> bool {
    let mut reader = Source::new(b"abcdef", 1, 0);
    for _ in 0..6 {
        if !line.takes(&mut reader, 9, 1) {
            return false;
        }
    }
    line.echo()
}

// Four slices are offered, and then the others.
fn offers_six(line: &mut Line) -> bool {
    let mut taker = Taker::new(line.alloc, 9);
    six_wait(line)
        && line.offers(&mut taker, 9, (6, false))
        && taker.calls == 2
        && taker.bytes() == b"abcdef".as_slice()
        && line.holds(0)
}

#[test]
fn four_slices_in_a_call(rt: HostRuntime) -> Result<(), Fail> {
    pass(lend(Line::new(rt.alloc()), offers_six))
}
