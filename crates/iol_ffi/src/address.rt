//! The address of borrowed bytes, for C.
ghost use Rattle.std.specs.Prelude.{◌≡◌};
ghost use denote.RawPtr.{block_ptr};

/// The address of the first of these bytes.
pub(crate) fn start_of(bytes: &[u8]) -> *const u8
    ensures { result ≡ block_ptr bytes.entry.ref_ptr.0 bytes.entry.ref_ptr.1 }
{
    bytes.as_ptr()
}
