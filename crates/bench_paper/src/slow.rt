//! Connections whose peers take nothing.
use crate::machine::Machine;
use crate::piece::{End, Passing, pass};
use crate::programs::rewind;
use crate::setup::FILE;
use iol_core::events::{Call, Event, Reply};
use iol_core::numbers::PoolId;
use iol_core::refusals::Refusal;

/// Connections with queued bytes, and the pages in use.
#[derive(Clone, Copy, Drop)]
pub struct Queued {
    /// The connections on which bytes of the file are queued.
    pub filled: u32,

    /// Those for which there was no room.
    pub refused: u32,

    /// The pages that are used with only the file cached, and at the end.
    pub before: u32,
    pub after: u32,
}

// A new connection, which domain 1 accepts.
fn connect(machine: &mut Machine<'_>) -> Result<End, Refusal> {
    let pool = PoolId::new(1);
    machine.carry_out(&Event::ConnNew { pool })?;
    let reply = machine.call(1, Call::Accept);
    match &reply {
        Reply::Fd(fd) => Ok(End {
            by: 1,
            fd: fd.number(),
        }),
        Reply::Refused(refusal) => Err(*refusal),
        _ => Err(Refusal::BadFd),
    }
}

// Bytes of the file are queued on a connection. False: there is no room for them.
fn fill(machine: &mut Machine<'_>, to: End, passing: Passing) -> Result<bool, Refusal> {
    rewind(machine, FILE.fd)?;
    match pass(machine, FILE, to, passing) {
        Ok(_) => Ok(true),
        Err(Refusal::NoRoom { .. }) => Ok(false),
        Err(refusal) => Err(refusal),
    }
}

/// Queues as many bytes of the file as a queue holds on this number of connections.
pub fn queue_on(
    machine: &mut Machine<'_>,
    passing: Passing,
    conns: u32,
) -> Result<Queued, Refusal> {
    let first = connect(machine)?;
    let _cached = fill(machine, first, passing)?;
    let _sent = machine.drain(3)?;
    let before = machine.used_pages()?;
    let (mut filled, mut refused) = (0u32, 0u32);
    for _ in 0..conns {
        let to = connect(machine)?;
        if fill(machine, to, passing)? {
            filled = filled.saturating_add(1);
        } else {
            refused = refused.saturating_add(1);
        }
    }
    let after = machine.used_pages()?;
    Ok(Queued {
        filled,
        refused,
        before,
        after,
    })
}
