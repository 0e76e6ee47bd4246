//! Writing by copying.
ghost use Rattle.iol_kernel.specs.Prelude.{state_of, IsSound, WritesBytes};

use iol_core::numbers::{DomainId, Fd};
use iol_core::refusals::Refusal;
use iol_kernel::kernel::Kernel;

/// Writes the caller's bytes, as many as fit, and returns their number. For a pipe or a connection they
/// are placed in new buffers on the lowest free pages of the caller's default pool; for a file, in the
/// file's pool. Clean extents of files are evicted if necessary.
pub fn write(kernel: &mut Kernel, by: DomainId, fd: Fd, bytes: &[u8]) -> Result<u32, Refusal>
    requires { IsSound (state_of kernel.old) }
    ensures { WritesBytes by fd bytes.now (state_of kernel.old) result (state_of kernel.new) }
{
    kernel.write_bytes(by, fd, bytes)
}
