//! A socket in memory, whose bytes are known.
ghost use Rattle.std.specs.Prelude.{◌≡◌, ◌++◌, [], IfOk, Some};

use iol_reactor::socket::Socket;
use std::alloc::{AllocError, Global};
use std::io;
use std::io::ErrorKind;

/// How a socket reads and writes.
#[derive(Clone, Copy)]
pub struct Manner {
    /// The bytes of one read, and of one write, at most.
    pub read: usize,
    pub write: usize,

    /// Of the reads, and of the writes, each of this number blocks, if it is not 0. They are
    /// counted apart: else a round that makes one read and one write would have every write
    /// blocked.
    pub blocks: u32,

    /// The read and the write of this number fail, if it is not 0.
    pub fails: u32,

    /// Whether the peer's end follows its bytes; else a read after them blocks.
    pub ends: bool,
}

/// A socket that supplies given bytes, and keeps the bytes that it supplied and accepted.
#[derive(Drop)]
pub struct MemorySocket<'a> {
    alloc: Global,
    supply: &'a [u8],
    supplied: Vec<u8>,
    accepted: Vec<u8>,
    manner: Manner,
    reads: u32,
    writes: u32,
    output_ends: u32,
}

impl<'a> MemorySocket<'a> {
    pub fn new(alloc: Global, supply: &'a [u8], manner: Manner) -> MemorySocket<'a>
        ensures supplied { result.supplied.items ≡ [] }
        ensures accepted { result.accepted.items ≡ [] }
    {
        MemorySocket {
            alloc,
            supply,
            supplied: Vec::new(alloc),
            accepted: Vec::new(alloc),
            manner,
            reads: 0,
            writes: 0,
            output_ends: 0,
        }
    }

    /// The bytes that it accepted.
    pub fn accepted(&self) -> &[u8] {
        &self.accepted
    }

    /// The number of times that its output was ended.
    pub fn output_ends(&self) -> u32 {
        self.output_ends
    }
}

impl Manner {
    // Whether the call of this number has an error, and which.
    fn refusal(&self, call: u32) -> Option<ErrorKind> {
        if call == self.fails {
            return Some(ErrorKind::ConnectionReset);
        }
        if self.blocks > 0 && call % self.blocks == 0 {
            return Some(ErrorKind::WouldBlock);
        }
        None
    }
}

impl<'a> Socket for MemorySocket<'a> {
    ghost supplied = { λ socket. Some socket.supplied.items };

    ghost accepted = { λ socket. Some socket.accepted.items };

    fn receive(&mut self, buffer: &mut [u8]) -> io::Result<usize> {
        self.reads = self.reads.saturating_add(1);
        if let Some(kind) = self.manner.refusal(self.reads) {
            return Err(io::Error::from(kind));
        }
        if self.supply.is_empty() && !self.manner.ends {
            return Err(io::Error::from(ErrorKind::WouldBlock));
        }
        let most = buffer.len().min(self.manner.read);
        let (first, rest) = self.supply.split_at(most.min(self.supply.len()));
        self.supplied.extend_from_slice(first)?;
        buffer[..first.len()].copy_from_slice(first);
        self.supply = rest;
        Ok(first.len())
    }

    fn send(&mut self, bytes: &[u8]) -> io::Result<usize> {
        self.writes = self.writes.saturating_add(1);
        if let Some(kind) = self.manner.refusal(self.writes) {
            return Err(io::Error::from(kind));
        }
        let taken = bytes.len().min(self.manner.write);
        self.accepted.extend_from_slice(&bytes[..taken])?;
        Ok(taken)
    }

    fn send_pieces(
        &mut self,
        first: &[u8],
        second: &[u8],
        third: &[u8],
        fourth: &[u8],
    ) -> io::Result<usize> {
        let bytes = joined(self.alloc, first, second, third, fourth)?;
        self.send(&bytes)
    }

    fn end_output(&mut self) -> io::Result<()> {
        self.output_ends = self.output_ends.saturating_add(1);
        Ok(())
    }
}

// The bytes of these pieces.
fn joined(
    alloc: Global,
    first: &[u8],
    second: &[u8],
    third: &[u8],
    fourth: &[u8],
) -> Result<Vec<u8>, AllocError>
    ensures { IfOk result
        (λ bytes. bytes.items ≡ first.now ++ second.now ++ third.now ++ fourth.now) }
{
    let mut bytes = Vec::new(alloc);
    bytes.extend_from_slice(first)?;
    bytes.extend_from_slice(second)?;
    bytes.extend_from_slice(third)?;
    bytes.extend_from_slice(fourth)?;
    Ok(bytes)
}
