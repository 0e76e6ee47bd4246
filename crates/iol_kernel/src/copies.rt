//! The bytes of an aggregate, copied to the front of the caller's memory.
ghost use Rattle.std.specs.Prelude.{◌≡◌, ◌+◌, ◌≤◌, ◌++◌, length, take, drop};
ghost use Rattle.iol_core.specs.Prelude.{bytes_of};
ghost use Rattle.iol_hold.specs.Prelude.{byte_len, AllReadable, text_of};

use iol_agg::Agg;
use iol_hold::Store;

/// Copies the bytes of an aggregate to the front of a memory that has room for them.
pub(crate) fn copy_to_front(agg: &Agg, store: &Store, into: &mut [u8])
    requires readable { AllReadable store.now agg.now }
    requires room { byte_len agg.now ≤ length into.old }
    ensures { into.new ≡ bytes_of (text_of store.now agg.now) ++ drop (byte_len agg.now) into.old }
{
    let mut at = 0;
    for part in agg.parts(store) {
        put_at(into, at, part);
        at += part.len();
    }
}

// Overwrites bytes from an offset on.
fn put_at(into: &mut [u8], at: usize, bytes: &[u8])
    requires { at + length bytes.now ≤ length into.old }
    ensures { into.new ≡ take at into.old ++ bytes.now ++ drop (at + length bytes.now) into.old }
{
    into[at..at + bytes.len()].copy_from_slice(bytes);
}
