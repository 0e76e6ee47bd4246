//! Copies of received bytes, and their removal.
ghost use Rattle.std.specs.Prelude.{◌≢◌, None};
ghost use Rattle.iol_core.specs.Prelude.{lookup};
ghost use Rattle.iol_hold.specs.Prelude.{Covers, bufs_of, AllReadable};
ghost use Rattle.iol_sock.specs.Calls.{CopiesFront, Skips};
ghost use Rattle.iol_sock.specs.Table.{ChangesAs, conn_in};

use crate::connections::Connection;
use crate::table::{Connections, conn_mut};
use iol_core::numbers::{ConnId, DomainId};
use iol_hold::Store;

impl Connection {
    /// Copies the longest prefix of the received bytes whose pools all name the domain, as much of
    /// it as `into` has room for, and returns the number of copied bytes. All bytes stay queued,
    /// and it allocates no memory.
    pub fn copy_front(&self, store: &Store, d: DomainId, into: &mut [u8]) -> u32
        requires { AllReadable store.now self.now.incoming }
        ensures { CopiesFront store.now self.now d into.old into.new result }
    {
        self.incoming.copy_front(store, d, into)
    }

    /// Releases the first `n` received bytes, or all if there are fewer. It allocates no memory.
    pub fn skip(&mut self, store: &mut Store, n: u32)
        requires { Covers store.old (bufs_of self.old.incoming) }
        ensures { Skips store.old store.new self.old self.new n }
    {
        self.incoming.skip(store, n);
    }
}

impl Connections {
    /// Releases the first `n` received bytes of a connection, or all if there are fewer. It
    /// allocates no memory.
    #[tactic(auto, using(crate::proofs::WaitingList::passing_rules))]
    pub fn skip(&mut self, store: &mut Store, c: ConnId, n: u32)
        requires there { lookup self.old.conns c ≢ None }
        requires covered { Covers store.old (bufs_of (conn_in self.old.conns c).incoming) }
        ensures { ChangesAs self.old self.new c (λ x y. Skips store.old store.new x y n) }
    {
        conn_mut(&mut self.live, c).skip(store, n);
    }
}
