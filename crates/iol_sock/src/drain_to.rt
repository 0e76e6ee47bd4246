//! Bytes to be sent, passed to a writer straight from their buffers.
ghost use Rattle.std.specs.Prelude.{◌≤◌, length, take};
ghost use Rattle.std.specs.Io.KnownBytes.{Appends};
ghost use Rattle.iol_hold.specs.Prelude.{Covers, bufs_of, AllReadable};
ghost use Rattle.iol_sock.specs.Calls.{Drains};
ghost use Rattle.iol_sock.specs.SentBytes.{Writes};

use crate::connections::Connection;
use iol_hold::Store;
use iol_pipe::Pipe;
use std::io::Write;

/// The result of a drain.
#[derive(Clone, Copy, Debug, PartialEq, Eq)]
pub struct Drained {
    /// The number of bytes that the writer took.
    pub taken: u32,

    /// Whether the writer failed, or was offered bytes and took none. It then took fewer bytes than
    /// it was offered. No clause states that a write failed: the contract of `Write` does not say
    /// when it fails.
    pub failed: bool,
}

impl Connection {
    /// Passes the first bytes to be sent to a writer, slice by slice and at most `max` in all,
    /// until it fails or takes none. The bytes that it took leave the queue. It allocates no
    /// memory.
    pub fn drain_to<W: Write>(&mut self, store: &mut Store, writer: &mut W, max: u32) -> Drained
        requires covered { Covers store.old (bufs_of self.old.outgoing) }
        requires readable { AllReadable store.old self.old.outgoing }
        ensures { Drains W.contents writer.old writer.new store.old store.new self.old self.new max
            result }
    {
        let drained = write_first(&self.outgoing, store, writer, max);
        self.outgoing.skip(store, drained.taken);
        drained
    }
}

// Writes the first bytes of a queue, at most `max`, until the writer fails or takes none.
fn write_first<W: Write>(queue: &Pipe, store: &Store, writer: &mut W, max: u32) -> Drained
    requires { AllReadable store.now queue.now }
    ensures { Writes W.contents writer.old writer.new store.now queue.now max result }
{
    let mut taken = 0;
    let mut i = 0;
    while taken < max {
        let Some(slice) = queue.slice(i) else {
            break;
        };
        let len = slice.len.min(max - taken);
        let written = write_some(writer, &slice.bytes(store)[..len as usize]);
        taken += written as u32;
        if written < len as usize {
            return Drained {
                taken,
                failed: true,
            };
        }
        i += 1;
    }
    Drained {
        taken,
        failed: false,
    }
}

// Writes bytes until the writer fails or takes none. Returns the number of bytes that it took.
fn write_some<W: Write>(writer: &mut W, bytes: &[u8]) -> usize
    ensures most { result ≤ length bytes.now }
    ensures written { Appends (W.contents writer.old) (W.contents writer.new)
        (take result bytes.now) }
{
    let mut at = 0;
    while at < bytes.len() {
        match writer.write(&bytes[at..]) {
            Ok(n) if n > 0 => at += n,
            Ok(_) | Err(_) => break,
        }
    }
    at
}
