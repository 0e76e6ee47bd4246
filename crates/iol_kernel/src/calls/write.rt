//! Writing by copying: no aggregate is made of what is written.
ghost use Rattle.iol_kernel.specs.KernelState.{IsSound};
ghost use Rattle.iol_kernel.specs.WritesByCopy.{WritesBytes};

mod file;
mod queue;

use crate::kernel::Kernel;
use crate::open_file::OpenFile;
use iol_core::descriptors::Descriptor;
use iol_core::numbers::{DomainId, Fd};
use iol_core::refusals::Refusal;

impl Kernel {
    ghost use Rattle.iol_kernel.specs.Kernel.{state_of};

    /// Writes the caller's bytes, as many as fit, and returns their number. They are placed in the
    /// file's pool, or for a queue in the caller's default pool. Clean extents of files of that
    /// pool are evicted if necessary.
    pub fn write_bytes(&mut self, by: DomainId, fd: Fd, bytes: &[u8]) -> Result<u32, Refusal>
        requires { IsSound (state_of self.old) }
        ensures { WritesBytes by fd bytes.now (state_of self.old) result (state_of self.new) }
    {
        let pool = match self.pool_to_write(by, fd, bytes) {
            Ok(pool) => pool,
            Err(refusal) => return Err(refusal),
        };
        let Some(to) = self.descriptor(by, fd) else {
            unreachable!()
        };
        if let Descriptor::File { file, at, mode } = to {
            let found = OpenFile { file, at, mode };
            return self.put_in_file(by, fd, found, pool, bytes);
        }
        self.put(by, fd, to, pool, bytes)
    }
}
