//! Arriving bytes, and reading them.
ghost use Rattle.std.specs.Prelude.{◌≡◌, false, Some, IfErr, OnOk};
ghost use Rattle.iol_core.specs.Prelude.{first};
ghost use Rattle.iol_pool.specs.Prelude.{pool_in};
ghost use Rattle.iol_hold.specs.Prelude.{Covers, IsCountable, bufs_of};
ghost use Rattle.iol_sock.specs.Calls.{Arrives, GivesFront};
ghost use Rattle.iol_sock.specs.Refusals.{arrive_refusals, IsPassed};

use crate::connections::Connection;
use iol_agg::Agg;
use iol_core::limits::MAX_QUEUE_BYTES;
use iol_core::numbers::DomainId;
use iol_core::refusals::Refusal;
use iol_hold::Store;
use std::alloc::{AllocError, Global};

impl Connection {
    /// Whether `n` bytes may arrive, or the first refusal: `BrokenPipe` if no more bytes may
    /// arrive, `WouldBlock` if `n` is not 0 and no byte fits.
    pub fn may_arrive(&self, n: usize) -> Result<(), Refusal>
        ensures passed { OnOk result (IsPassed (arrive_refusals self.now n)) }
        ensures refused { IfErr result (λ x. first (arrive_refusals self.now n) ≡ Some x) }
    {
        if self.is_ended() {
            return Err(Refusal::BrokenPipe);
        }
        if n > 0 && self.unread() as usize == MAX_QUEUE_BYTES {
            return Err(Refusal::WouldBlock);
        }
        Ok(())
    }

    /// Receives bytes from the peer, as many as fit, and returns their number. They are stored in
    /// new buffers on the lowest free pages of the connection's pool, which is open.
    ///
    /// Errors: `BrokenPipe` if no more bytes may arrive, `WouldBlock` if bytes are offered and none
    /// fits, then `NoRoom` and `Memory`. An empty list needs neither room nor memory.
    pub fn arrive(&mut self, alloc: Global, store: &mut Store, bytes: &[u8]) -> Result<u32, Refusal>
        requires { (pool_in store.old.pools self.old.pool).closed ≡ false }
        ensures { Arrives store.old store.new self.old self.new bytes.now result }
    {
        self.may_arrive(bytes.len())?;
        self.incoming.fill(alloc, store, self.pool, bytes)
    }

    /// Takes off the longest prefix of at most `n` received bytes whose pools all name the domain.
    pub fn front(
        &mut self,
        alloc: Global,
        store: &mut Store,
        n: u32,
        d: DomainId,
    ) -> Result<Agg, AllocError>
        requires covered { Covers store.old (bufs_of self.old.incoming) }
        requires countable { IsCountable store.old (bufs_of self.old.incoming) }
        ensures { GivesFront store.old store.new self.old self.new n d result }
    {
        self.incoming.front(alloc, store, n, d)
    }
}
