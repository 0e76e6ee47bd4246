//! Worlds with a connection that is served from outside.
use super::start::system_with_pipe;
use super::worker::Worker;
use super::workers::{Workers, two_workers};
use iol_core::events::{Event, Reply};
use iol_core::numbers::ConnId;
use iol_core::refusals::Refusal;
use std::alloc::Global;
use std::test::Fail;
use test_parts::checks::{lend, pass};
use test_worlds::echo::Echo;

// The connection's number.
fn conn() -> ConnId {
    ConnId::new(1)
}

// A world in which domain 2 sends back the input of a connection.
fn echoing_world(alloc: Global) -> Result<Workers, Refusal> {
    let system = system_with_pipe(alloc)?;
    let echo = Worker::Echo(Echo::new());
    Ok(two_workers(alloc, system, Worker::Idle, echo)?)
}

// Returns whether there is a new connection, the first.
fn connects(world: &mut Workers) -> bool {
    world.connect(1).is_some()
}

// Returns whether one segment of at most `max` bytes has these bytes.
fn is_sent(world: &mut Workers, max: u32, bytes: &[u8]) -> bool {
    match world.step(Event::Transmit { conn: conn(), max }) {
        Reply::Segment { bytes: sent, .. } => sent.as_slice() == bytes,
        _ => false,
    }
}

// Returns whether this number of bytes arrives.
fn arrives(world: &mut Workers, reader: &mut &[u8], max: u32, want: u32) -> bool {
    match world.arrive_from(conn(), reader, max) {
        Ok(arrived) => arrived.taken == want,
        Err(_) => false,
    }
}

// Returns whether this number of bytes goes to a writer.
fn drains(world: &mut Workers, writer: &mut Vec<u8>, max: u32, want: u32) -> bool {
    match world.drain_to(conn(), writer, max) {
        Ok(drained) => drained.taken == want,
        Err(_) => false,
    }
}

// The input is sent back: four bytes as a segment, and the last to a writer.
fn comes_back(world: &mut Workers, reader: &mut &[u8], writer: &mut Vec<u8>) -> bool {
    connects(world)
        && arrives(world, reader, 3, 3)
        && arrives(world, reader, 3, 2)
        && world.until_idle(1_000)
        && is_sent(world, 4, b"hell")
        && drains(world, writer, 9, 1)
        && writer.as_slice() == b"o".as_slice()
        && !world.is_resource_failure()
}

fn echoes(alloc: Global) -> Result<bool, Refusal> {
    let mut reader = b"hello".as_slice();
    let mut writer = Vec::new(alloc);
    lend(
        echoing_world(alloc),
        |world| comes_back(world, &mut reader, &mut writer),
    )
}

#[test]
fn connection_gets_back_what_came(rt: HostRuntime) -> Result<(), Fail> {
    pass(echoes(rt.alloc()))
}

fn is_silent(world: &mut Workers) -> bool {
    connects(world) && world.until_idle(1_000) && !is_sent(world, 9, b"")
}

#[test]
fn silent_connection_is_idle(rt: HostRuntime) -> Result<(), Fail> {
    pass(lend(echoing_world(rt.alloc()), is_silent))
}
