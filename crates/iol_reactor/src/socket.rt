//! Sockets of clients.
ghost use Rattle.std.specs.Prelude.{ℕ, List, Option, None, ◌++◌, ◌≡◌};
ghost use Rattle.std.specs.Io.Slices.{io_slices_bytes};
ghost use Rattle.std.specs.Io.{ReadsAtMost, WritesAtMost};
ghost use Rattle.std.specs.Io.KnownBytes.{Keeps, WriteAppends};
ghost use Rattle.iol_reactor.specs.Bytes.{Supplies};

use mio::net::TcpStream;
use std::io;
use std::io::{IoSlice, Read, Write};
use std::net::Shutdown;

/// A bidirectional byte stream that never blocks: a call that would wait fails with `WouldBlock`.
/// For a socket of the system the bytes that it supplied and accepted are unknown.
pub trait Socket {
    /// The bytes that it has supplied, and those that it has accepted, where they are known.
    ghost supplied: { Self → Option (List ℕ) } = { λ socket. None };

    ghost accepted: { Self → Option (List ℕ) } = { λ socket. None };

    /// Reads into a buffer, and returns the number of bytes. 0: the peer sends no more, or the
    /// buffer is empty.
    fn receive(&mut self, buffer: &mut [u8]) -> io::Result<usize>
        ensures bound { ReadsAtMost result buffer.new }
        ensures came { Supplies (supplied self.old) (supplied self.new) result buffer.new }
        ensures sent { Keeps (accepted self.old) (accepted self.new) };

    /// Writes the first of these bytes, and returns their number.
    fn send(&mut self, bytes: &[u8]) -> io::Result<usize>
        ensures bound { WritesAtMost result bytes.now }
        ensures came { Keeps (supplied self.old) (supplied self.new) }
        ensures sent { WriteAppends (accepted self.old) (accepted self.new) result bytes.now };

    /// Writes the first bytes of these pieces, one piece after another, and returns their number.
    fn send_pieces(
        &mut self,
        first: &[u8],
        second: &[u8],
        third: &[u8],
        fourth: &[u8],
    ) -> io::Result<usize>
        ensures bound { WritesAtMost result (first.now ++ second.now ++ third.now ++ fourth.now) }
        ensures came { Keeps (supplied self.old) (supplied self.new) }
        ensures sent { WriteAppends (accepted self.old) (accepted self.new) result
            (first.now ++ second.now ++ third.now ++ fourth.now) };

    /// Ends the bytes to the peer. The peer may still send.
    fn end_output(&mut self) -> io::Result<()>
        ensures came { Keeps (supplied self.old) (supplied self.new) }
        ensures sent { Keeps (accepted self.old) (accepted self.new) };
}

impl Socket for TcpStream {
    fn receive(&mut self, buffer: &mut [u8]) -> io::Result<usize> {
        self.read(buffer)
    }

    fn send(&mut self, bytes: &[u8]) -> io::Result<usize> {
        self.write(bytes)
    }

    fn send_pieces(
        &mut self,
        first: &[u8],
        second: &[u8],
        third: &[u8],
        fourth: &[u8],
    ) -> io::Result<usize> {
        TcpStream::write_vectored(self, &slices_of(first, second, third, fourth))
    }

    fn end_output(&mut self) -> io::Result<()> {
        self.shutdown(Shutdown::Write)
    }
}

// These pieces, in order.
fn slices_of<'a>(
    first: &'a [u8],
    second: &'a [u8],
    third: &'a [u8],
    fourth: &'a [u8],
) -> [IoSlice<'a>; 4]
    ensures { io_slices_bytes result ≡ first.now ++ second.now ++ third.now ++ fourth.now }
{
    [
        IoSlice::new(first),
        IoSlice::new(second),
        IoSlice::new(third),
        IoSlice::new(fourth),
    ]
}
