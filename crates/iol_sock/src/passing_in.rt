//! Input of a connection of the table, by its number.
ghost use Rattle.iol_core.specs.Prelude.{lookup};
ghost use Rattle.iol_hold.specs.Prelude.{Covers, IsCountable, bufs_of};
ghost use Rattle.iol_pool.specs.Prelude.{pool_in};
ghost use Rattle.iol_sock.specs.Calls.{Arrives, ArrivesFrom, Closes, GivesFront};
ghost use Rattle.iol_sock.specs.Table.{ChangesAs, conn_in};
ghost use Rattle.std.specs.Prelude.{None, false, ◌≡◌, ◌≢◌};

use crate::connections::Connection;
use crate::table::{Connections, conn_mut};
use iol_agg::Agg;
use iol_core::limits::{MAX_QUEUE_BYTES, PAGE_BYTES};
use iol_core::numbers::{ConnId, DomainId};
use iol_core::refusals::Refusal;
use iol_hold::Store;
use iol_pipe::Arrived;
use std::alloc::{AllocError, Global};
use std::io::Read;

impl Connections {
    /// Receives bytes from a connection's peer, as many as fit, and returns their number. They are
    /// stored in new buffers on the lowest free pages of its pool, which is open.
    ///
    /// Errors: those of [`Connection::arrive`].
    #[tactic(auto, using(crate::proofs::WaitingList::passing_rules))]
    pub fn arrive(
        &mut self,
        alloc: Global,
        store: &mut Store,
        c: ConnId,
        bytes: &[u8],
    ) -> Result<u32, Refusal>
        requires there { lookup self.old.conns c ≢ None }
        requires pool { (pool_in store.old.pools (conn_in self.old.conns c).pool).closed ≡ false }
        ensures { ChangesAs self.old self.new c (λ x y. Arrives store.old store.new x y bytes.now
            result) }
    {
        conn_mut(&mut self.live, c).arrive(alloc, store, bytes)
    }

    /// Receives the bytes of one read from a connection's peer, straight into a new buffer on the
    /// lowest free page of its pool, which is open.
    ///
    /// Errors: those of [`Connection::arrive_from`].
    #[tactic(auto, using(crate::proofs::WaitingList::passing_rules))]
    pub fn arrive_from<R: Read>(
        &mut self,
        alloc: Global,
        store: &mut Store,
        c: ConnId,
        reader: &mut R,
        max: u32,
    ) -> Result<Arrived, Refusal>
        requires there { lookup self.old.conns c ≢ None }
        requires pool { (pool_in store.old.pools (conn_in self.old.conns c).pool).closed ≡ false }
        ensures { ChangesAs self.old self.new c (λ x y. ArrivesFrom R.remaining reader.old reader.new
            store.old store.new x y max result) }
    {
        conn_mut(&mut self.live, c).arrive_from(alloc, store, reader, max)
    }

    /// Takes off the longest prefix of at most `n` received bytes of a connection whose pools all
    /// name the domain.
    #[tactic(auto, using(crate::proofs::WaitingList::passing_rules))]
    pub fn front(
        &mut self,
        alloc: Global,
        store: &mut Store,
        c: ConnId,
        n: u32,
        d: DomainId,
    ) -> Result<Agg, AllocError>
        requires there { lookup self.old.conns c ≢ None }
        requires covered { Covers store.old (bufs_of (conn_in self.old.conns c).incoming) }
        requires countable { IsCountable store.old (bufs_of (conn_in self.old.conns c).incoming) }
        ensures { ChangesAs self.old self.new c (λ x y. GivesFront store.old store.new x y n d
            result) }
    {
        conn_mut(&mut self.live, c).front(alloc, store, n, d)
    }

    /// The domain closes a connection. Unread bytes are dropped, and bytes to be sent stay queued.
    #[tactic(auto, using(crate::proofs::WaitingList::passing_rules))]
    pub fn close(&mut self, store: &mut Store, c: ConnId)
        requires there { lookup self.old.conns c ≢ None }
        requires covered { Covers store.old (bufs_of (conn_in self.old.conns c).incoming) }
        ensures { ChangesAs self.old self.new c (λ x y. Closes store.old store.new x y) }
    {
        conn_mut(&mut self.live, c).close(store);
    }
}
