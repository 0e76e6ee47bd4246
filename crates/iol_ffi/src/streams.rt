//! A descriptor of the caller's process, as a reader and as a writer.
ghost use Rattle.std.specs.Prelude.{◌≡◌, ◌≤◌, IfOk};
ghost use Rattle.iol_ffi.specs.Streams.{ArrivesBetween, Drains, SaysArrived, SaysDrained, ending_number};

use crate::replies::{IolReply, done, refused};
use crate::store::HostStore;
use iol_core::numbers::ConnId;
use iol_core::refusals::Refusal;
use iol_sock::{Arrived, Drained};
use iol_system::system::System;
use std::io;
use std::io::{Error, ErrorKind, Read, Write};

/// A descriptor that C opens and closes. Contracts state nothing about the bytes read or written.
#[derive(Drop)]
pub struct Descriptor {
    pub(crate) fd: i32,
}

// The number of bytes that a system call transferred.
fn counted(moved: isize, len: usize) -> io::Result<usize>
    ensures { IfOk result (λ n. n ≤ len) }
{
    if moved < 0 || moved as usize > len {
        return Err(Error::from(ErrorKind::Other));
    }
    Ok(moved as usize)
}

impl Read for Descriptor {
    fn read(&mut self, buf: &mut [u8]) -> io::Result<usize> {
        let got = libc::read(self.fd, buf);
        counted(got, buf.len())
    }
}

impl Write for Descriptor {
    fn write(&mut self, buf: &[u8]) -> io::Result<usize> {
        let put = libc::write(self.fd, buf);
        counted(put, buf.len())
    }

    fn flush(&mut self) -> io::Result<()> {
        Ok(())
    }
}

// How a read ended: 2 if it failed, 1 at the reader's end, otherwise 0.
fn ending(arrived: &Arrived) -> u64
    ensures { result ≡ ending_number arrived.now.end arrived.now.failed }
{
    match (arrived.failed, arrived.end) {
        (true, _) => 2,
        (false, true) => 1,
        (false, false) => 0,
    }
}

// The reply for the outcome of a read.
fn arrived(outcome: Result<Arrived, Refusal>) -> IolReply
    ensures { SaysArrived outcome result }
{
    match outcome {
        Ok(arrived) => done(u64::from(arrived.taken), ending(&arrived)),
        Err(refusal) => refused(&refusal),
    }
}

// The reply for the outcome of a write.
fn drained(outcome: Result<Drained, Refusal>) -> IolReply
    ensures { SaysDrained outcome result }
{
    match outcome {
        Ok(drained) => {
            let failed = if drained.failed { 1 } else { 0 };
            done(u64::from(drained.taken), failed)
        }
        Err(refusal) => refused(&refusal),
    }
}

/// Reads once from a descriptor; the bytes arrive on a connection.
#[tactic(auto, unfolding(crate::specs::Streams::ArrivesBetween))]
pub(crate) fn arrive_from(system: &mut System<HostStore>, conn: u32, fd: i32, max: u32) -> IolReply
    ensures { ArrivesBetween conn fd max result system.old system.new }
{
    let mut reader = Descriptor { fd };
    arrived(system.arrive_from(ConnId::new(conn), &mut reader, max))
}

/// Writes the first bytes queued on a connection to a descriptor.
pub(crate) fn drain_to(system: &mut System<HostStore>, conn: u32, fd: i32, max: u32) -> IolReply
    ensures { Drains conn fd max result system.old system.new }
{
    let mut writer = Descriptor { fd };
    drained(system.drain_to(ConnId::new(conn), &mut writer, max))
}
