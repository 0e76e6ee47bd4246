//! The keys of remembered sums.
ghost use Rattle.std.specs.Prelude.{◌≡◌};
ghost use Rattle.iol_sum.specs.Sums.{key_of};

use iol_hold::Slice;

/// The bytes that a sum belongs to: the identity of a buffer, and a range of it.
#[derive(Clone, Copy, Debug, PartialEq, Eq, Hash)]
pub struct Key {
    /// The first page of the buffer.
    pub page: u32,
    /// The generation of that page. In another generation the page holds other bytes.
    pub generation: u32,
    /// The offset of the first byte in the buffer.
    pub from: u32,
    /// The number of bytes.
    pub len: u32,
}

impl Key {
    /// The key of the slice's bytes.
    pub fn of(slice: &Slice) -> Key
        ensures { result ≡ key_of slice.now }
    {
        let buf = slice.hold.buf();
        Key {
            page: buf.page,
            generation: buf.generation,
            from: slice.from,
            len: slice.len,
        }
    }
}
