//! The reads and writes of a served connection, up to the last, and its ending.
use crate::echo_world::{Echoing, echoing};
use iol_core::refusals::Refusal;
use iol_serve::ending::Ending;
use iol_serve::serve::serve_connection;
use std::alloc::Global;
use std::test::Fail;
use test_parts::checks::{pass, pass_each};
use test_parts::streams::{Sink, Source};

// The ending, the number of reads, and whether the connection still exists.
#[derive(Drop)]
struct Served {
    ending: Ending,
    reads: u32,
    is_there: bool,
}

const ASKED: &[u8] = b"hello, world: some bytes more";

// Serves a connection from reads of 7 bytes, of which read number `fails` fails, if it is not 0.
fn serve_in(world: &mut Echoing, fails: u32, writer: &mut Sink) -> Option<Served> {
    let conn = world.connect(1)?;
    let mut reader = Source::new(ASKED, 7, fails);
    let ending = serve_connection(world.world(), conn, &mut reader, writer);
    let is_there = world.has(conn);
    let reads = reader.reads;
    Some(Served {
        ending,
        reads,
        is_there,
    })
}

fn serve(alloc: Global, fails: u32, writer: &mut Sink) -> Result<Option<Served>, Refusal> {
    let mut world = echoing(alloc)?;
    let served = serve_in(&mut world, fails, writer);
    drop(world);
    Ok(served)
}

// Returns whether all input is sent back, flushed before each read and at the end.
fn is_ample(served: &Option<Served>, writer: &Sink) -> bool {
    let is_sent = writer.bytes() == ASKED && writer.writes == 9 && writer.flushes == 7;
    match served {
        Some(it) => is_sent && it.reads == 6 && !it.is_there && it.ending == Ending::Over,
        None => false,
    }
}

// A writer that takes 5 bytes at once, of whose writes number `fails` fails, if it is not 0.
fn writer_of(alloc: Global, fails: u32) -> Sink {
    Sink::new(alloc, 5, fails)
}

fn serves_all(alloc: Global) -> Result<bool, Refusal> {
    let mut writer = writer_of(alloc, 0);
    let served = serve(alloc, 0, &mut writer)?;
    Ok(is_ample(&served, &writer))
}

#[test]
fn ample(rt: HostRuntime) -> Result<(), Fail> {
    pass(serves_all(rt.alloc()))
}

fn has_failed(served: &Option<Served>) -> bool {
    match served {
        Some(it) => !it.is_there && it.ending == Ending::Failed,
        None => false,
    }
}

// Returns whether read number k fails, and the `came` bytes before it are sent back.
fn read_fails(alloc: Global, k: u32, came: usize) -> Result<bool, Refusal> {
    let mut writer = writer_of(alloc, 0);
    let served = serve(alloc, k, &mut writer)?;
    let is_answered = writer.bytes().len() == came && ASKED.starts_with(writer.bytes());
    Ok(is_answered && has_failed(&served))
}

// The number of the read that fails, and the number of bytes before it.
const READS: [(u32, usize); 6] = [(1, 0), (2, 7), (3, 14), (4, 21), (5, 28), (6, 29)];

// In either case the connection is removed, and its peer was reported as gone.
#[test]
fn each_read_fails(rt: HostRuntime) -> Result<(), Fail> {
    let alloc = rt.alloc();
    pass_each(&READS, |(k, came)| read_fails(alloc, *k, *came))
}

// Returns whether write number k fails, and the bytes written before it were taken.
fn write_fails(alloc: Global, k: u32) -> Result<bool, Refusal> {
    let mut writer = writer_of(alloc, k);
    let served = serve(alloc, 0, &mut writer)?;
    let is_taken = writer.writes == k && ASKED.starts_with(writer.bytes());
    Ok(is_taken && has_failed(&served))
}

// The writes that fail.
const WRITES: [u32; 9] = [1, 2, 3, 4, 5, 6, 7, 8, 9];

#[test]
fn each_write_fails(rt: HostRuntime) -> Result<(), Fail> {
    let alloc = rt.alloc();
    pass_each(&WRITES, |k| write_fails(alloc, *k))
}
