//! Bytes received from a reader, straight into a page.
ghost use Rattle.std.specs.Prelude.{◌≡◌, false};
ghost use Rattle.iol_pool.specs.Prelude.{pool_in};
ghost use Rattle.iol_sock.specs.Calls.{ArrivesFrom};

use crate::connections::Connection;
use iol_core::limits::{MAX_QUEUE_BYTES, PAGE_BYTES};
use iol_core::refusals::Refusal;
use iol_hold::Store;
use iol_pipe::Arrived;
use std::alloc::Global;
use std::io::Read;

impl Connection {
    /// Receives the bytes of one read, straight into a new buffer on the lowest free page of the
    /// connection's pool, which is open. It requests at most `max` bytes, at most one page, and at
    /// most the bytes that fit.
    ///
    /// Errors: `BadRange` if `max` is 0; else the refusals of one byte that arrives, before it
    /// reads. If the reader is at its end or fails, nothing was received, and the page is free
    /// again.
    pub fn arrive_from<R: Read>(
        &mut self,
        alloc: Global,
        store: &mut Store,
        reader: &mut R,
        max: u32,
    ) -> Result<Arrived, Refusal>
        requires { (pool_in store.old.pools self.old.pool).closed ≡ false }
        ensures { ArrivesFrom R.remaining reader.old reader.new store.old store.new self.old self.new
            max result }
    {
        if max == 0 {
            return Err(Refusal::BadRange);
        }
        self.may_arrive(1)?;
        let room = MAX_QUEUE_BYTES as u32 - self.unread();
        let most = max.min(PAGE_BYTES as u32).min(room);
        self.incoming
            .fill_from(alloc, store, self.pool, reader, most)
    }
}
