//! Bytes to be sent, passed from their buffers to a taker of several slices at once.
ghost use Rattle.std.specs.Prelude.{◌≡◌, ◌≤◌, ◌++◌, length, take};
ghost use Rattle.std.specs.Io.KnownBytes.{Appends};
ghost use Rattle.iol_hold.specs.Prelude.{Covers, bufs_of, AllReadable};
ghost use Rattle.iol_sock.specs.Calls.{Drains};
ghost use Rattle.iol_sock.specs.Gathers.{EndsShort, IsCalled, part_of};
ghost use Rattle.iol_sock.specs.SentBytes.{Writes};

use crate::connections::Connection;
use crate::drain_to::Drained;
use iol_hold::Store;
use iol_pipe::Pipe;

/// A taker of bytes that lie in several slices, for example a socket with a vectored write.
pub trait Gather {
    ghost use Rattle.std.specs.Prelude.{Option, List, ℕ, None};

    /// The bytes that it holds, if they are known.
    ghost contents: { Self → Option (List ℕ) } = { λ _. None };

    /// One call: from the first state it was offered these bytes, took that many, and is in the last state.
    ghost gathers: { Self → List ℕ → ℕ → Self → Type 0 } = { λ _ _ _ _. Unit {0} };

    /// Takes the first bytes of the pieces, one piece after another, and returns their number.
    fn gather(&mut self, first: &[u8], second: &[u8], third: &[u8], fourth: &[u8]) -> usize
        ensures bound { result ≤ length (first.now ++ second.now ++ third.now ++ fourth.now) }
        ensures bytes { Appends (contents self.old) (contents self.new)
            (take result (first.now ++ second.now ++ third.now ++ fourth.now)) }
        ensures call { gathers self.old (first.now ++ second.now ++ third.now ++ fourth.now) result
            self.new };
}

impl Connection {
    /// Offers the first bytes to be sent to a taker, at most `max` in all and up to four slices at
    /// once, until it takes fewer than it was offered. The bytes that it took leave the queue. It
    /// allocates no memory.
    pub fn drain_into<G: Gather>(&mut self, store: &mut Store, taker: &mut G, max: u32) -> Drained
        requires covered { Covers store.old (bufs_of self.old.outgoing) }
        requires readable { AllReadable store.old self.old.outgoing }
        ensures drains { Drains G.contents taker.old taker.new store.old store.new self.old self.new max
            result }
        ensures calls { IsCalled G.gathers taker.old taker.new }
        ensures failed { EndsShort G.gathers taker.new result.failed }
    {
        let drained = gather_first(&self.outgoing, store, taker, max);
        self.outgoing.skip(store, drained.taken);
        drained
    }
}

// Offers the first bytes of a queue, at most `max`, until the taker takes fewer than it was offered.
fn gather_first<G: Gather>(queue: &Pipe, store: &Store, taker: &mut G, max: u32) -> Drained
    requires { AllReadable store.now queue.now }
    ensures writes { Writes G.contents taker.old taker.new store.now queue.now max result }
    ensures calls { IsCalled G.gathers taker.old taker.new }
    ensures failed { EndsShort G.gathers taker.new result.failed }
{
    let most = queue.len().min(max) as usize;
    let mut taken = 0;
    let mut i = 0;
    while taken < most {
        let left = most - taken;
        let first = part(queue, store, i, left);
        let left = left - first.len();
        let second = part(queue, store, i + 1, left);
        let left = left - second.len();
        let third = part(queue, store, i + 2, left);
        let left = left - third.len();
        let fourth = part(queue, store, i + 3, left);
        let offered = first.len() + second.len() + third.len() + fourth.len();
        let count = taker.gather(first, second, third, fourth);
        taken += count;
        if count < offered {
            return Drained {
                taken: taken as u32,
                failed: true,
            };
        }
        i += 4;
    }
    Drained {
        taken: taken as u32,
        failed: false,
    }
}

// The first bytes of the slice with this index, at most `most`; no bytes if there is no such slice.
fn part<'a>(queue: &'a Pipe, store: &'a Store, i: usize, most: usize) -> &'a [u8]
    requires { AllReadable store.now queue.now }
    ensures { result.now ≡ part_of store.now queue.now i most }
{
    match queue.slice(i) {
        Some(slice) => {
            let len = (slice.len as usize).min(most);
            &slice.bytes(store)[..len]
        }
        None => &[],
    }
}
