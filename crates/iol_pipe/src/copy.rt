//! Copies of the first bytes of a queue.
ghost use Rattle.std.specs.Prelude.{◌≡◌, ◌+◌, ◌≤◌, ◌++◌, length, take, drop};
ghost use Rattle.iol_core.specs.Prelude.{bytes_of};
ghost use Rattle.iol_hold.specs.Prelude.{text_of, AllReadable};
ghost use Rattle.iol_pipe.specs.Queue.{front_for, with_first};

use crate::Pipe;
use iol_core::numbers::DomainId;
use iol_hold::Store;

impl Pipe {
    /// Copies the longest prefix of the queued bytes whose pools all name the domain, as much of it
    /// as `into` has room for, and returns the number of copied bytes. All bytes stay queued, and
    /// it allocates no memory.
    pub fn copy_front(&self, store: &Store, d: DomainId, into: &mut [u8]) -> u32
        requires { AllReadable store.now self.now }
        ensures count { result ≡ length (front_for store.now.pools d (length into.old) self.now) }
        ensures copied { into.new ≡
            with_first result (bytes_of (text_of store.now self.now)) into.old }
    {
        // The bound on the queue bounds the result.
        let _len = self.len;
        let mut at = 0;
        let mut i = 0;
        while at < into.len() {
            let Some(slice) = self.slice(i) else {
                return at as u32;
            };
            if !store.pools().names(slice.hold.pool(), d) {
                return at as u32;
            }
            let len = (slice.len as usize).min(into.len() - at);
            put_at(into, at, &slice.bytes(store)[..len]);
            at += len;
            i += 1;
        }
        at as u32
    }
}

// Overwrites bytes from an offset on.
fn put_at(into: &mut [u8], at: usize, bytes: &[u8])
    requires { at + length bytes.now ≤ length into.old }
    ensures { into.new ≡ take at into.old ++ bytes.now ++ drop (at + length bytes.now) into.old }
{
    into[at..at + bytes.len()].copy_from_slice(bytes);
}
