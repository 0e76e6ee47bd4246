//! Worlds of a few processes.
use super::consumer::{Consumer, summed};
use super::producer::{PIECE, Producer};
use super::start::system_with_pipe;
use super::worker::Worker;
use super::workers::{Workers, no_workers, two_workers};
use iol_core::events::{Call, Reply};
use iol_core::numbers::{DomainId, Fd};
use iol_core::refusals::Refusal;
use iol_proc::choice::Choice;
use std::alloc::{AllocError, Global};
use std::test::Fail;
use test_parts::checks::{lend, pass};
use test_parts::streams::Source;

/// The number of pieces of a mebibyte.
const PIECES: u8 = 128;

// A world of two workers over a pipe from one to the other.
fn world_of(alloc: Global, first: Worker, second: Worker) -> Result<Workers, Refusal> {
    let system = system_with_pipe(alloc)?;
    Ok(two_workers(alloc, system, first, second)?)
}

// The number of bytes that the consumer of domain 2 received, and their sum.
fn came(world: &Workers) -> Option<(u32, u32)> {
    match world.process(2)? {
        Worker::Consumer(consumer) => Some(consumer.came()),
        _ => None,
    }
}

// A sum with one more piece.
fn with_piece(sum: u32, byte: u8) -> u32 {
    let mut sum = sum;
    for _ in 0..PIECE {
        sum = summed(sum, byte);
    }
    sum
}

// The sum of all pieces.
fn sum_of_pieces() -> u32 {
    let mut sum = 0;
    for piece in 0..PIECES {
        sum = with_piece(sum, PIECES - piece);
    }
    sum
}

// A world in which domain 1 sends all pieces to domain 2.
fn sending_world(alloc: Global) -> Result<Workers, Refusal> {
    let producer = Worker::Producer(Producer::new(alloc, Fd::new(1), PIECES));
    let consumer = Worker::Consumer(Consumer::new(Fd::new(0)));
    world_of(alloc, producer, consumer)
}

// All pieces arrive, and no turn gets a resource refusal.
fn all_come(world: &mut Workers) -> bool {
    world.until_idle(65_536)
        && came(world) == Some((1_048_576, sum_of_pieces()))
        && !world.is_resource_failure()
}

#[test]
fn pipe_passes_a_mebibyte(rt: HostRuntime) -> Result<(), Fail> {
    pass(lend(sending_world(rt.alloc()), all_come))
}

// The world is not idle before each of two processes has yielded twice.
fn yields(world: &mut Workers) -> bool {
    !world.until_idle(0) && !world.until_idle(3) && world.until_idle(4)
}

#[test]
fn idle_is_when_all_have_yielded(rt: HostRuntime) -> Result<(), Fail> {
    pass(lend(world_of(rt.alloc(), Worker::Idle, Worker::Idle), yields))
}

// A world in which domain 2 waits for a connection without a pause.
fn eager_world(alloc: Global) -> Result<Workers, Refusal> {
    world_of(alloc, Worker::Idle, Worker::Eager)
}

fn waits(world: &mut Workers) -> bool {
    !world.until_idle(1_000)
}

#[test]
fn waiting_without_a_pause_is_not_idle(rt: HostRuntime) -> Result<(), Fail> {
    pass(lend(eager_world(rt.alloc()), waits))
}

// A world without processes.
fn empty_world(alloc: Global) -> Result<Workers, Refusal> {
    let system = system_with_pipe(alloc)?;
    Ok(no_workers(alloc, system)?)
}

fn is_idle_at_once(world: &mut Workers) -> bool {
    world.until_idle(0)
}

#[test]
fn world_without_processes_is_idle(rt: HostRuntime) -> Result<(), Fail> {
    pass(lend(empty_world(rt.alloc()), is_idle_at_once))
}

// The refusal of a turn of a domain.
fn refusal_of(world: &mut Workers, by: u32) -> Result<Option<Refusal>, AllocError> {
    let choices = [Choice::Turn(DomainId::new(by))];
    let replies = world.run(&choices)?;
    match replies.first() {
        Some(Reply::Refused(refusal)) => Ok(Some(*refusal)),
        _ => Ok(None),
    }
}

// Returns whether a turn of a domain gets this refusal.
fn is_refused(world: &mut Workers, by: u32, refusal: Refusal) -> bool {
    match refusal_of(world, by) {
        Ok(found) => found == Some(refusal),
        Err(_) => false,
    }
}

// Ends a domain.
fn ends(world: &mut Workers, by: u32) -> bool {
    matches!(world.call(by, Call::Exit), Reply::Done)
}

// A domain that never existed, one whose call would wait, and one that has ended.
fn all_are_refused(world: &mut Workers) -> bool {
    is_refused(world, 3, Refusal::NoDomain)
        && is_refused(world, 2, Refusal::WouldBlock)
        && ends(world, 2)
        && is_refused(world, 2, Refusal::NoDomain)
}

#[test]
fn nobody_has_a_turn(rt: HostRuntime) -> Result<(), Fail> {
    pass(lend(eager_world(rt.alloc()), all_are_refused))
}

// A turn of each of two processes, an external event, arriving bytes, turns until both are idle,
// and a report.
fn each_answers(world: &mut Workers, turns: &[Choice], reader: &mut Source<'_>) -> bool {
    let have_turns = match world.run(turns) {
        Ok(replies) => matches!(replies.as_slice(), [Reply::Done, Reply::Done]),
        Err(_) => false,
    };
    let Some(conn) = world.connect(1) else {
        return false;
    };
    let arrives = matches!(world.arrive_from(conn, reader, 9), Ok(arrived) if arrived.taken == 3);
    have_turns && arrives && world.until_idle(4) && world.world().report().is_ok()
}

fn all_answer(alloc: Global) -> Result<bool, Refusal> {
    let turns = [
        Choice::Turn(DomainId::new(1)),
        Choice::Turn(DomainId::new(2)),
    ];
    let mut reader = Source::new(b"abc", 9, 0);
    lend(
        world_of(alloc, Worker::Idle, Worker::Idle),
        |world| each_answers(world, &turns, &mut reader),
    )
}

#[test]
fn ample(rt: HostRuntime) -> Result<(), Fail> {
    pass(all_answer(rt.alloc()))
}
