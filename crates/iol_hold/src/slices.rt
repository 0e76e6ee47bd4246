//! Slices of buffers.
ghost use Rattle.std.specs.Prelude.{◌≡◌, ◌+◌, ◌<◌, ◌≤◌, ◌^◌};

use crate::holds::Hold;
use crate::store::Store;
use iol_core::numbers::BufId;

/// A part of one buffer, which it holds once. It has at least one byte.
#[derive(Drop)]
pub struct Slice {
    /// The hold on the buffer.
    pub hold: Hold,
    /// The offset of the first byte in the buffer.
    pub from: u32,
    /// The number of bytes.
    pub len: u32,
    pub ghost some: { 0 < len },
    pub ghost within: { from + len < 2 ^ 32 },
}

impl Slice {
    ghost use Rattle.iol_hold.specs.Addresses.{located, located_slice};
    ghost use Rattle.iol_hold.specs.StoreState.{count_of};
    ghost use Rattle.iol_hold.specs.Releases.{ReleasesHold};
    ghost use Rattle.iol_hold.specs.Slices.{IsCut, IsWhole, SharesSlice};
    ghost use Rattle.iol_hold.specs.Texts.{slice_bytes, IsFilled, IsReadable};

    /// All bytes of a buffer.
    pub fn whole(store: &Store, hold: Hold) -> Slice
        requires { IsFilled store.now hold }
        ensures { IsWhole store.now hold result }
    {
        let len = store.len(&hold);
        Slice { hold, from: 0, len }
    }

    /// The identity of the buffer: its first page, with that page's generation. No other buffer ever has the same.
    pub fn identity(&self) -> BufId
        ensures { result ≡ self.now.hold.buf }
    {
        self.hold.buf()
    }

    /// The same bytes, with a further hold on their buffer.
    pub fn share(&self, store: &mut Store) -> Slice
        requires live { 0 < count_of store.old self.now.hold.buf }
        requires few { count_of store.old self.now.hold.buf < 2 ^ 63 }
        ensures { SharesSlice store.old store.new self.now result }
    {
        Slice {
            hold: store.share(&self.hold),
            from: self.from,
            len: self.len,
        }
    }

    /// Reduces the slice to its bytes `from..to`, at least one.
    pub fn cut(self, from: u32, to: u32) -> Slice
        requires some { from < to }
        requires within { to ≤ self.len }
        ensures { IsCut self result from to }
    {
        Slice {
            hold: self.hold,
            from: self.from + from,
            len: to - from,
        }
    }

    /// Releases the hold: see [`Store::release`].
    pub fn release(self, store: &mut Store)
        requires { 0 < count_of store.old self.hold.buf }
        ensures { ReleasesHold store.old store.new self.hold }
    {
        store.release(self.hold);
    }

    /// The bytes, in place: no byte is copied.
    pub fn bytes<'a>(&self, store: &'a Store) -> &'a [u8]
        requires { IsReadable store.now self.now }
        ensures { result.now ≡ slice_bytes store.now self.now }
    {
        store.bytes(&self.hold, self.from, self.from + self.len)
    }

    /// The same bytes. The contract says at which address they are.
    pub fn located_bytes<'a>(&self, store: &'a Store) -> &'a [u8]
        requires { IsReadable store.now self.now }
        ensures { located result ≡ located_slice store.now self.now }
    {
        store.bytes(&self.hold, self.from, self.from + self.len)
    }
}
