//! Bytes are written to files by copying: they are placed in the file's pool.
ghost use Rattle.iol_kernel.specs.WritesByCopy.{MayPutInFile};
ghost use Rattle.iol_kernel.specs.FileWrites.{FillsFile, PutsOver};

use crate::kernel::Kernel;
use crate::open_file::OpenFile;
use iol_agg::Agg;
use iol_core::limits::MAX_FILE_BYTES;
use iol_core::numbers::{DomainId, Fd, PoolId};
use iol_core::refusals::Refusal;

impl Kernel {
    ghost use Rattle.iol_kernel.specs.Kernel.{state_of};

    /// Writes bytes over those of a file, from the descriptor's position on. The position moves
    /// past them. Clean extents of files of the pool are evicted if necessary, and the bytes are
    /// placed in new buffers of the file's pool.
    pub(crate) fn put_in_file(
        &mut self,
        by: DomainId,
        fd: Fd,
        found: OpenFile,
        pool: PoolId,
        bytes: &[u8],
    ) -> Result<u32, Refusal>
        requires { MayPutInFile by fd found pool bytes.now (state_of self.old) }
        ensures { PutsOver by fd found pool bytes.now (state_of self.old) result (state_of self.new) }
    {
        let count = bytes.len().min(MAX_FILE_BYTES) as u32;
        if !self.make_room_for(pool, count) {
            return Err(Refusal::NoRoom { pool });
        }
        self.fill_file(by, fd, found, pool, bytes)
    }

    /// Writes bytes over those of a file whose pool has room for them.
    fn fill_file(
        &mut self,
        by: DomainId,
        fd: Fd,
        found: OpenFile,
        pool: PoolId,
        bytes: &[u8],
    ) -> Result<u32, Refusal>
        requires { MayPutInFile by fd found pool bytes.now (state_of self.old) }
        ensures { FillsFile by fd found pool bytes.now (state_of self.old) result (state_of self.new) }
    {
        let Ok(agg) = Agg::fill(self.alloc, &mut self.store, pool, bytes) else {
            return Err(Refusal::Memory);
        };
        let len = agg.len();
        if let Err(_refused) = self
            .files
            .cache
            .write(self.alloc, &mut self.store, found.file, found.at, &agg)
        {
            agg.release(&mut self.store);
            return Err(Refusal::Memory);
        }
        agg.release(&mut self.store);
        self.domains.set_fd(by, fd, found.moved_by(len));
        Ok(len)
    }
}
