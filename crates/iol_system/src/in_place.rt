//! Connections that are served in place, from readers and to writers.
ghost use Rattle.iol_sock.specs.Gathers.{EndsShort, IsCalled};
ghost use Rattle.iol_system.specs.Streams.{ServesFrom, ServesTo};
ghost use Rattle.std.specs.Prelude.{IfOk};

use crate::system::System;
use iol_back::backing::Backing;
use iol_core::numbers::ConnId;
use iol_core::refusals::Refusal;
use iol_sock::{Arrived, Drained, Gather};
use std::io::{Read, Write};

impl<B: Backing> System<B> {
    /// The bytes of one read arrive from a connection's peer, directly in a page. The read asks for
    /// at most `max` bytes, a page, and the free part of the queue.
    ///
    /// `BadFd` if there is no such connection, `BadRange` if `max` is 0; otherwise refused as an
    /// arrival of one byte is. Every refusal comes before the read. If the reader is at its end or
    /// fails, nothing arrives, and the page is free again.
    pub fn arrive_from<R: Read>(
        &mut self,
        conn: ConnId,
        reader: &mut R,
        max: u32,
    ) -> Result<Arrived, Refusal>
        ensures { ServesFrom R.remaining reader.old reader.new conn max self.old self.new result }
    {
        self.kernel.arrive_from(conn, reader, max)
    }

    /// Gives a writer references to the first bytes queued for sending on a connection, at most
    /// `max` in all, until it fails or takes none. The bytes it took are sent. No memory is
    /// requested.
    ///
    /// `BadFd` if there is no such connection.
    pub fn drain_to<W: Write>(
        &mut self,
        conn: ConnId,
        writer: &mut W,
        max: u32,
    ) -> Result<Drained, Refusal>
        ensures { ServesTo W.contents writer.old writer.new conn max self.old self.new result }
    {
        self.kernel.drain_to(conn, writer, max)
    }

    /// Offers a taker references to the first bytes queued for sending on a connection, up to four
    /// slices at once and at most `max` bytes in all, until it takes fewer than it was offered. The
    /// bytes it took are sent. No memory is requested.
    ///
    /// `BadFd` if there is no such connection.
    pub fn drain_into<G: Gather>(
        &mut self,
        conn: ConnId,
        taker: &mut G,
        max: u32,
    ) -> Result<Drained, Refusal>
        ensures serves { ServesTo G.contents taker.old taker.new conn max self.old self.new result }
        ensures calls { IsCalled G.gathers taker.old taker.new }
        ensures failed { IfOk result (λ d. EndsShort G.gathers taker.new d.failed) }
    {
        self.kernel.drain_into(conn, taker, max)
    }
}
