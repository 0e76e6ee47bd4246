//! Chunks of a body of unknown length.
ghost use Rattle.std.specs.Prelude.{◌≡◌, ◌<◌, IfOk, string_bytes};
ghost use Rattle.flash_http.specs.Chunk as spec;

use std::alloc::{AllocError, Global};

/// The end of a chunk, after its bytes.
pub const CHUNK_END: &str = "\r\n";

/// The chunk that ends a body.
pub const LAST_CHUNK: &str = "0\r\n\r\n";

/// The line before the `len` bytes of a chunk. `len` must not be 0: a chunk of no bytes ends the
/// body.
pub fn chunk_head(alloc: Global, len: u64) -> Result<String, AllocError>
    requires { 0 < len }
    ensures text { IfOk result (λ text. string_bytes text ≡ spec.chunk_head len) }
    ensures reads { IfOk result (λ text. spec.ReadsAsSize (string_bytes text) len) }
{
    format!(in alloc; "{len:x}\r\n")
}
