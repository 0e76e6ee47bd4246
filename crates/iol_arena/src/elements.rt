//! The bytes of a list, at its address.
ghost use Rattle.std.specs.Prelude.{◌≡◌, ◌≤◌, length, slice_range};
ghost use Rattle.std.specs.Borrow.{u8};
ghost use Rattle.std.specs.Ptr.{as_ptr, ptr_add};
ghost use Rattle.std.specs.Vec.{vec_len, vec_ptr};

use std::slice;

// The bytes of a list, from its address and its length.
unsafe fn elements_at<'a>(list: &'a Vec<u8>, at: *const u8, len: usize) -> &'a [u8]
    requires place { at ≡ vec_ptr list.now }
    requires whole { len ≡ vec_len list.now }
    ensures items { result.now ≡ list.now.items }
    ensures place { as_ptr result ≡ vec_ptr list.now }
{
    unsafe { slice::from_raw_parts(at, len) }
}

/// The bytes of a list. `as_slice` of the list gives the same slice, and does not say where it is.
pub(crate) fn elements(list: &Vec<u8>) -> &[u8]
    ensures items { result.now ≡ list.now.items }
    ensures place { as_ptr result ≡ vec_ptr list.now }
{
    unsafe { elements_at(list, list.as_ptr(), list.len()) }
}

/// The bytes `from..to` of a slice. The contract says where they are.
pub(crate) fn part_of(bytes: &[u8], from: usize, to: usize) -> &[u8]
    requires order { from ≤ to }
    requires range { to ≤ length bytes.now }
    ensures items { result.now ≡ slice_range bytes.now from to }
    ensures place { as_ptr result ≡ ptr_add u8 from (as_ptr bytes.entry) }
{
    &bytes[from..to]
}
