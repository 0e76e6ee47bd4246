//! Connections that are served from outside in place: bytes of a reader arrive directly in a page,
//! and a writer, or a taker of several slices at once, takes bytes from their places.
ghost use Rattle.std.specs.Prelude.{IfOk, IfErr};
ghost use Rattle.iol_kernel.specs.Streams.{FailsToRead, MayBringIn};
ghost use Rattle.iol_kernel.specs.InPlace.{DrainsToWriter, LendsToWriter, ReadsFromReader, TakesFromReader};
ghost use Rattle.iol_kernel.specs.KernelState.{IsSound};
ghost use Rattle.iol_kernel.specs.Outside.{HasConn};
ghost use Rattle.iol_sock.specs.Gathers.{EndsShort, IsCalled};

use crate::kernel::Kernel;
use iol_core::numbers::{ConnId, PoolId};
use iol_core::refusals::Refusal;
use iol_sock::{Arrived, Drained, Gather};
use std::io::{Read, Write};

impl Kernel {
    ghost use Rattle.iol_kernel.specs.Kernel.{state_of};

    /// The bytes of one read arrive from a connection's peer, directly in a new buffer on the
    /// lowest free page of the connection's pool. The read asks for at most `max` bytes, a page,
    /// and the free part of the queue. Clean extents of the pool's files are evicted if necessary.
    ///
    /// `BadFd` if there is no such connection, `BadRange` if `max` is 0; otherwise refused as an
    /// arrival of one byte is. Every refusal comes before the read. If the reader is at its end or
    /// fails, nothing arrives, and the page is free again.
    pub fn arrive_from<R: Read>(
        &mut self,
        conn: ConnId,
        reader: &mut R,
        max: u32,
    ) -> Result<Arrived, Refusal>
        requires { IsSound (state_of self.old) }
        ensures { TakesFromReader conn max R.remaining reader.old reader.new self.old result self.new }
    {
        let pool = self.may_arrive_from(conn, max)?;
        if !self.make_room_for(pool, 1) {
            return Err(Refusal::NoRoom { pool });
        }
        self.read_in(conn, reader, max)
    }

    /// The pool of a connection on which bytes may arrive. Refused as `arrive_from` is, except for
    /// NoRoom and Memory.
    fn may_arrive_from(&self, conn: ConnId, max: u32) -> Result<PoolId, Refusal>
        requires { IsSound (state_of self.now) }
        ensures may { IfOk result (λ p. MayBringIn conn max p (state_of self.now)) }
        ensures refused { IfErr result (λ x. FailsToRead conn max x (state_of self.now)) }
    {
        let Some(found) = self.conns.get(conn) else {
            return Err(Refusal::BadFd);
        };
        if max == 0 {
            return Err(Refusal::BadRange);
        }
        found.may_arrive(1)?;
        Ok(found.pool())
    }

    /// The bytes of one read arrive on a connection that exists.
    fn read_in<R: Read>(
        &mut self,
        conn: ConnId,
        reader: &mut R,
        max: u32,
    ) -> Result<Arrived, Refusal>
        requires { HasConn (state_of self.old) conn }
        ensures { ReadsFromReader conn max R.remaining reader.old reader.new self.old result self.new }
    {
        Ok(
            self.conns
                .arrive_from(self.alloc, &mut self.store, conn, reader, max)?,
        )
    }

    /// Gives a writer references to the first bytes queued for sending on a connection, slice by
    /// slice and at most `max` bytes in all, until it fails or takes none. The bytes it took are
    /// sent. No memory is requested.
    ///
    /// `BadFd` if there is no such connection.
    #[tactic(auto, using(crate::proofs::State::Stay::stay_rules))]
    pub fn drain_to<W: Write>(
        &mut self,
        conn: ConnId,
        writer: &mut W,
        max: u32,
    ) -> Result<Drained, Refusal>
        requires { IsSound (state_of self.old) }
        ensures { DrainsToWriter conn max W.contents writer.old writer.new self.old result self.new }
    {
        if self.lacks_conn(conn) {
            return Err(Refusal::BadFd);
        }
        Ok(self.lend_out(conn, writer, max))
    }

    /// Drains the first bytes queued for sending on a connection that exists, and removes the
    /// connection if it is over.
    fn lend_out<W: Write>(&mut self, conn: ConnId, writer: &mut W, max: u32) -> Drained
        requires { HasConn (state_of self.old) conn }
        ensures { LendsToWriter conn max W.contents writer.old writer.new self.old self.new result }
    {
        let drained = self.conns.drain_to(&mut self.store, conn, writer, max);
        if drained.taken == 0 {
            return drained;
        }
        self.reclaim(conn);
        drained
    }

    /// Offers a taker references to the first bytes queued for sending on a connection, up to four
    /// slices at once and at most `max` bytes in all, until it takes fewer than it was offered. The
    /// bytes it took are sent. No memory is requested.
    ///
    /// `BadFd` if there is no such connection.
    #[tactic(auto, using(crate::proofs::State::Stay::stay_rules))]
    pub fn drain_into<G: Gather>(
        &mut self,
        conn: ConnId,
        taker: &mut G,
        max: u32,
    ) -> Result<Drained, Refusal>
        requires { IsSound (state_of self.old) }
        ensures drains { DrainsToWriter conn max G.contents taker.old taker.new self.old result
            self.new }
        ensures calls { IsCalled G.gathers taker.old taker.new }
        ensures failed { IfOk result (λ d. EndsShort G.gathers taker.new d.failed) }
    {
        if self.lacks_conn(conn) {
            return Err(Refusal::BadFd);
        }
        Ok(self.offer_out(conn, taker, max))
    }

    /// Offers the first bytes queued for sending on a connection that exists, and removes the
    /// connection if it is over.
    fn offer_out<G: Gather>(&mut self, conn: ConnId, taker: &mut G, max: u32) -> Drained
        requires { HasConn (state_of self.old) conn }
        ensures lends { LendsToWriter conn max G.contents taker.old taker.new self.old self.new
            result }
        ensures calls { IsCalled G.gathers taker.old taker.new }
        ensures failed { EndsShort G.gathers taker.new result.failed }
    {
        let sent = self.conns.drain_into(&mut self.store, conn, taker, max);
        if sent.taken == 0 {
            return sent;
        }
        self.reclaim(conn);
        sent
    }
}
