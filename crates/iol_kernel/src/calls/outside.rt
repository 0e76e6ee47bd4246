//! External events: connections are made, bytes arrive on them and are sent, and their peers close.
ghost use Rattle.std.specs.Prelude.{◌≡◌, ◌≢◌, ℕ, length, None, Err};
ghost use Rattle.iol_core.specs.Prelude.{conn_at, with_conn, lookup, lacks_conn};
ghost use Rattle.iol_core.specs.Calls.Outside as calls;
ghost use Rattle.iol_kernel.specs.Calls.{MayArrive, reported};
ghost use Rattle.iol_kernel.specs.KernelState.{IsSound};
ghost use Rattle.iol_kernel.specs.NewBytes.{FillsConn, TakesIncoming};
ghost use Rattle.iol_kernel.specs.Outside.{HasConn, MayConnect, Reclaims, TestsArrival};
ghost use Rattle.iol_kernel.specs.Readings.{Reading};

use crate::kernel::Kernel;
use iol_core::descriptors::How;
use iol_core::limits::{LAST_CONNECTION, MAX_CONNECTIONS, MAX_QUEUE_BYTES};
use iol_core::lists::Bytes;
use iol_core::numbers::{ConnId, PoolId};
use iol_core::refusals::Refusal;
use iol_sock::Segment;
use std::alloc::AllocError;

impl Kernel {
    ghost use Rattle.iol_kernel.specs.Kernel.{state_of, as_read, Attempts, CarriesOut, KeepsPlaces, Transmits, Leaves};

    /// Makes a connection that waits to be accepted. Bytes that arrive on it are placed in the
    /// pool.
    #[tactic(auto, using(crate::proofs::State::Stay::stay_rules))]
    pub fn conn_new(&mut self, pool: PoolId) -> Result<ConnId, Refusal>
        requires { IsSound (state_of self.old) }
        ensures { CarriesOut (λ s. calls.conn_new s pool) self.old result self.new }
    {
        if !self.is_pool(pool) {
            return Err(Refusal::NoPool);
        }
        if self.conn_count() >= MAX_CONNECTIONS || self.next_conn().number() > LAST_CONNECTION {
            return Err(Refusal::TooMany);
        }
        if self.is_closed(pool) {
            return Err(Refusal::PoolClosed { pool });
        }
        Ok(self.add_conn(pool)?)
    }

    /// The number of live connections.
    #[tactic(auto, using(crate::proofs::Connections::OneConnection::conn_rules))]
    fn conn_count(&self) -> usize
        ensures { (f : Reading) → result ≡ length (as_read f self.now).conns }
    {
        self.conns.count()
    }

    /// The number of the next connection.
    #[tactic(auto, using(crate::proofs::Connections::OneConnection::conn_rules))]
    fn next_conn(&self) -> ConnId
        ensures { (f : Reading) → result ≡ (as_read f self.now).next_conn }
    {
        self.conns.next()
    }

    /// Adds a connection.
    fn add_conn(&mut self, pool: PoolId) -> Result<ConnId, AllocError>
        requires { MayConnect pool (state_of self.old) }
        ensures { Attempts (λ s. calls.conn_new s pool) self.old result self.new }
    {
        self.conns.reserve()?;
        Ok(self.conns.add(self.alloc, pool))
    }

    /// Whether there is no live connection of this number.
    #[tactic(auto, using(crate::proofs::Connections::OneConnection::there_rules))]
    pub(crate) fn lacks_conn(&self, conn: ConnId) -> bool
        ensures { (f : Reading) → result ≡ lacks_conn (as_read f self.now) conn }
    {
        match self.conns.get(conn) {
            Some(_) => false,
            None => true,
        }
    }

    /// The peer of a connection sends no more, or is gone: then the bytes queued for sending are
    /// dropped.
    #[tactic(auto, using(crate::proofs::State::Stay::stay_rules))]
    pub fn peer_closed(&mut self, conn: ConnId, how: How) -> Result<(), Refusal>
        requires { IsSound (state_of self.old) }
        ensures peer_closed { KeepsPlaces (λ s. calls.peer_closed s conn how) self.old result
            self.new }
        ensures roomy { (p : ℕ) → result ≢ Err (Refusal.NoRoom p) }
    {
        if self.lacks_conn(conn) {
            return Err(Refusal::BadFd);
        }
        self.end_peer(conn, how);
        Ok(())
    }

    /// Closes the peer's side of a connection, and removes the connection if it is over.
    fn end_peer(&mut self, conn: ConnId, how: How)
        requires { HasConn (state_of self.old) conn }
        ensures { Leaves (λ s. with_conn s conn (calls.closed_by (conn_at s conn) how)) self.old
            self.new }
    {
        self.conns.peer_closed(&mut self.store, conn, how);
        self.reclaim(conn);
    }

    /// Removes a connection that is over, and releases its buffers.
    pub(crate) fn reclaim(&mut self, conn: ConnId)
        requires sound { IsSound (state_of self.old) }
        requires there { lookup (state_of self.old).conns conn ≢ None }
        ensures { Reclaims conn (state_of self.old) (state_of self.new) }
    {
        let Some(found) = self.conns.get(conn) else {
            unreachable!()
        };
        if !found.is_over() {
            return;
        }
        let over = self.conns.forget(conn);
        over.release(&mut self.store);
    }

    /// Bytes arrive from a connection's peer, as many as fit. Returns their number. Clean extents
    /// of files of the connection's pool are evicted if necessary; then the bytes are placed in new
    /// buffers on its lowest free pages.
    pub fn arrive(&mut self, conn: ConnId, bytes: &Bytes) -> Result<u32, Refusal>
        requires { IsSound (state_of self.old) }
        ensures { TakesIncoming conn bytes.now (state_of self.old) result (state_of self.new) }
    {
        let (pool, count) = self.room_to_arrive(conn, bytes.as_slice())?;
        self.take_in(conn, pool, count, bytes.as_slice())
    }

    /// The pool of a connection, and how many of these bytes fit. Refused as their arrival is,
    /// except for NoRoom and Memory.
    fn room_to_arrive(&self, conn: ConnId, bytes: &[u8]) -> Result<(PoolId, u32), Refusal>
        requires { IsSound (state_of self.now) }
        ensures { TestsArrival conn bytes.now (state_of self.now) result }
    {
        let Some(found) = self.conns.get(conn) else {
            return Err(Refusal::BadFd);
        };
        found.may_arrive(bytes.len())?;
        let room = MAX_QUEUE_BYTES as u32 - found.unread();
        Ok((found.pool(), bytes.len().min(room as usize) as u32))
    }

    /// `count` bytes arrive on a connection that exists, after room for them is made.
    fn take_in(
        &mut self,
        conn: ConnId,
        pool: PoolId,
        count: u32,
        bytes: &[u8],
    ) -> Result<u32, Refusal>
        requires { MayArrive conn bytes.now pool count (state_of self.old) }
        ensures { TakesIncoming conn bytes.now (state_of self.old) result (state_of self.new) }
    {
        if !self.make_room_for(pool, count) {
            return Err(Refusal::NoRoom { pool });
        }
        self.fill_conn(conn, bytes)
    }

    /// Bytes arrive on a connection that exists and whose pool has room.
    fn fill_conn(&mut self, conn: ConnId, bytes: &[u8]) -> Result<u32, Refusal>
        requires { HasConn (state_of self.old) conn }
        ensures { FillsConn conn bytes.now (state_of self.old) result (state_of self.new) }
    {
        self.conns.arrive(self.alloc, &mut self.store, conn, bytes)
    }

    /// Sends the first `max` bytes queued for sending on a connection, or all if there are fewer,
    /// with their checksum. The sum of each slice sent is used, in order.
    #[tactic(auto, using(crate::proofs::State::Stay::stay_rules))]
    pub fn transmit(&mut self, conn: ConnId, max: u32) -> Result<Segment, Refusal>
        requires { IsSound (state_of self.old) }
        ensures { Transmits conn max self.old (reported result) self.new }
    {
        if self.lacks_conn(conn) {
            return Err(Refusal::BadFd);
        }
        self.send(conn, max)
    }

    /// Sends the first bytes of a connection that exists, and removes the connection if it is over.
    fn send(&mut self, conn: ConnId, max: u32) -> Result<Segment, Refusal>
        requires { HasConn (state_of self.old) conn }
        ensures { Transmits conn max self.old (reported result) self.new }
    {
        let segment = self
            .conns
            .segment(self.alloc, &mut self.store, conn, &mut self.sums, max)?;
        self.reclaim(conn);
        Ok(segment)
    }
}
