//! Output of a connection of the table, by its number, and the end of its peer.
ghost use Rattle.iol_core.specs.Prelude.{lookup};
ghost use Rattle.iol_hold.specs.Prelude.{Covers, IsCountable, AllReadable, bufs_of};
ghost use Rattle.iol_pool.specs.Prelude.{pool_in};
ghost use Rattle.iol_sock.specs.Calls.{ClosesPeer, Drains, QueuesNew, QueuesShared, Segments};
ghost use Rattle.iol_sock.specs.Gathers.{EndsShort, IsCalled};
ghost use Rattle.iol_sock.specs.Table.{ChangesAs, conn_in};
ghost use Rattle.iol_sum.specs.Prelude.{IsRight};
ghost use Rattle.std.specs.Prelude.{None, false, ◌≡◌, ◌≢◌};

use crate::connections::Connection;
use crate::drain_to::Drained;
use crate::gather::Gather;
use crate::outgoing::Segment;
use crate::table::{Connections, conn_mut};
use iol_agg::Agg;
use iol_core::descriptors::How;
use iol_core::numbers::{ConnId, PoolId};
use iol_core::refusals::Refusal;
use iol_hold::Store;
use iol_sum::SumCache;
use std::alloc::Global;
use std::io::Write;

impl Connections {
    /// Queues bytes to be sent on a connection, as many as fit, and returns their number. They are
    /// shared with the aggregate, which is unchanged.
    ///
    /// Errors: those of [`Connection::queue`].
    #[tactic(auto, using(crate::proofs::WaitingList::passing_rules))]
    pub fn queue(&mut self, store: &mut Store, c: ConnId, from: &Agg) -> Result<u32, Refusal>
        requires there { lookup self.old.conns c ≢ None }
        requires covered { Covers store.old (bufs_of from.now) }
        requires countable { IsCountable store.old (bufs_of from.now) }
        ensures { ChangesAs self.old self.new c (λ x y. QueuesShared store.old store.new x y from.now
            result) }
    {
        conn_mut(&mut self.live, c).queue(store, from)
    }

    /// Queues new bytes of an open pool to be sent on a connection, as many as fit, and returns
    /// their number. They are stored in new buffers on the lowest free pages of the pool.
    ///
    /// Errors: those of [`Connection::write`].
    #[tactic(auto, using(crate::proofs::WaitingList::passing_rules))]
    pub fn write(
        &mut self,
        alloc: Global,
        store: &mut Store,
        c: ConnId,
        pool: PoolId,
        bytes: &[u8],
    ) -> Result<u32, Refusal>
        requires there { lookup self.old.conns c ≢ None }
        requires pool { (pool_in store.old.pools pool).closed ≡ false }
        ensures { ChangesAs self.old self.new c (λ x y. QueuesNew store.old store.new x y pool
            bytes.now result) }
    {
        conn_mut(&mut self.live, c).write(alloc, store, pool, bytes)
    }

    /// Sends the first `max` bytes of a connection, or all if there are fewer, with the checksum of
    /// these bytes only.
    ///
    /// Errors: those of [`Connection::segment`].
    #[tactic(auto, using(crate::proofs::WaitingList::passing_rules))]
    pub fn segment(
        &mut self,
        alloc: Global,
        store: &mut Store,
        c: ConnId,
        sums: &mut SumCache,
        max: u32,
    ) -> Result<Segment, Refusal>
        requires there { lookup self.old.conns c ≢ None }
        requires covered { Covers store.old (bufs_of (conn_in self.old.conns c).outgoing) }
        requires countable { IsCountable store.old (bufs_of (conn_in self.old.conns c).outgoing) }
        requires readable { AllReadable store.old (conn_in self.old.conns c).outgoing }
        requires right { IsRight store.old.arena sums.old }
        ensures { ChangesAs self.old self.new c (λ x y. Segments store.old store.new x y max sums.old
            sums.new result) }
    {
        conn_mut(&mut self.live, c).segment(alloc, store, sums, max)
    }

    /// Passes the first bytes to be sent on a connection to a writer, at most `max` in all, and
    /// removes those that it took.
    #[tactic(auto, using(crate::proofs::WaitingList::passing_rules))]
    pub fn drain_to<W: Write>(
        &mut self,
        store: &mut Store,
        c: ConnId,
        writer: &mut W,
        max: u32,
    ) -> Drained
        requires there { lookup self.old.conns c ≢ None }
        requires covered { Covers store.old (bufs_of (conn_in self.old.conns c).outgoing) }
        requires readable { AllReadable store.old (conn_in self.old.conns c).outgoing }
        ensures { ChangesAs self.old self.new c (λ x y. Drains W.contents writer.old writer.new
            store.old store.new x y max result) }
    {
        conn_mut(&mut self.live, c).drain_to(store, writer, max)
    }

    /// Offers the first bytes to be sent on a connection to a taker of several slices, at most `max`
    /// in all, and removes those that it took.
    #[tactic(auto, using(crate::proofs::WaitingList::passing_rules))]
    pub fn drain_into<G: Gather>(
        &mut self,
        store: &mut Store,
        c: ConnId,
        taker: &mut G,
        max: u32,
    ) -> Drained
        requires there { lookup self.old.conns c ≢ None }
        requires covered { Covers store.old (bufs_of (conn_in self.old.conns c).outgoing) }
        requires readable { AllReadable store.old (conn_in self.old.conns c).outgoing }
        ensures drains { ChangesAs self.old self.new c (λ x y. Drains G.contents taker.old taker.new
            store.old store.new x y max result) }
        ensures calls { IsCalled G.gathers taker.old taker.new }
        ensures failed { EndsShort G.gathers taker.new result.failed }
    {
        conn_mut(&mut self.live, c).drain_into(store, taker, max)
    }

    /// The peer of a connection sends no more, or also takes no more. Bytes to be sent to a peer
    /// that is gone are dropped.
    #[tactic(auto, using(crate::proofs::WaitingList::passing_rules))]
    pub fn peer_closed(&mut self, store: &mut Store, c: ConnId, how: How)
        requires there { lookup self.old.conns c ≢ None }
        requires covered { Covers store.old (bufs_of (conn_in self.old.conns c).outgoing) }
        ensures { ChangesAs self.old self.new c (λ x y. ClosesPeer store.old store.new x y how) }
    {
        conn_mut(&mut self.live, c).peer_closed(store, how);
    }
}
