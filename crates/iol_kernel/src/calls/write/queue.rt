//! Bytes are written to pipes and connections by copying: they are placed in new buffers.
ghost use Rattle.std.specs.Prelude.{◌≡◌, false, Some};
ghost use Rattle.iol_core.specs.Calls.Writes as calls;
ghost use Rattle.iol_kernel.specs.KernelState.{IsSound};
ghost use Rattle.iol_kernel.specs.OpenDescriptors.{IsOnFile, IsOnQueue};
ghost use Rattle.iol_kernel.specs.WritesByCopy.{MayPut, PutsInQueue, TestsWrite};

use crate::kernel::Kernel;
use crate::open_file::is_for_writing;
use crate::queue_end::can_write;
use iol_core::descriptors::{Descriptor, Mode};
use iol_core::limits::MAX_FILE_BYTES;
use iol_core::numbers::{DomainId, Fd, FileId, PoolId};
use iol_core::refusals::Refusal;

impl Kernel {
    ghost use Rattle.iol_kernel.specs.Kernel.{state_of};

    /// The pool of these bytes once they are written to a descriptor. Refused as that write is,
    /// except for NoRoom and Memory.
    pub(crate) fn pool_to_write(
        &self,
        by: DomainId,
        fd: Fd,
        bytes: &[u8],
    ) -> Result<PoolId, Refusal>
        requires { IsSound (state_of self.now) }
        ensures { TestsWrite by fd bytes.now (state_of self.now) result }
    {
        let to = self.opened(by, fd)?;
        if let Descriptor::File { file, at, mode } = to {
            return self.test_file(by, fd, file, at, mode, bytes);
        }
        self.test_queue(by, fd, &to, bytes)
    }

    /// Whether bytes may be written to a file.
    fn test_file(
        &self,
        by: DomainId,
        fd: Fd,
        file: FileId,
        at: u32,
        mode: Mode,
        bytes: &[u8],
    ) -> Result<PoolId, Refusal>
        requires { IsOnFile (state_of self.now) by fd file at mode }
        ensures { TestsWrite by fd bytes.now (state_of self.now) result }
    {
        if !is_for_writing(mode) {
            return Err(Refusal::WrongMode);
        }
        if bytes.len() > MAX_FILE_BYTES - at as usize {
            return Err(Refusal::TooLong);
        }
        Ok(self.file_pool(file))
    }

    /// Whether bytes of the caller's default pool may be written to a pipe or a connection.
    fn test_queue(
        &self,
        by: DomainId,
        fd: Fd,
        to: &Descriptor,
        bytes: &[u8],
    ) -> Result<PoolId, Refusal>
        requires { IsOnQueue (state_of self.now) by fd to.now }
        ensures { TestsWrite by fd bytes.now (state_of self.now) result }
    {
        let Some(pool) = self.default_of(by) else {
            return Err(Refusal::NoPool);
        };
        if !can_write(to) {
            return Err(Refusal::WrongMode);
        }
        if self.is_closed(pool) {
            return Err(Refusal::PoolClosed { pool });
        }
        if self.is_broken(to) {
            return Err(Refusal::BrokenPipe);
        }
        if self.takes_none(to, bytes.len()) {
            return Err(Refusal::WouldBlock);
        }
        Ok(pool)
    }

    /// Places bytes in a pool and writes them to a pipe or a connection, as many as fit. Returns
    /// their number. Clean extents of files of the pool are evicted if necessary; then the bytes
    /// are placed in new buffers on its lowest free pages.
    pub(crate) fn put(
        &mut self,
        by: DomainId,
        fd: Fd,
        to: Descriptor,
        pool: PoolId,
        bytes: &[u8],
    ) -> Result<u32, Refusal>
        requires may { MayPut by fd to pool bytes.now (state_of self.old) }
        requires no_file { calls.is_file (Some to) ≡ false }
        ensures { PutsInQueue by fd to bytes.now (state_of self.old) result (state_of self.new) }
    {
        let count = self.fitting(&to, bytes.len()) as u32;
        if !self.make_room_for(pool, count) {
            return Err(Refusal::NoRoom { pool });
        }
        match to {
            Descriptor::WriteEnd { pipe } => {
                self.pipes
                    .fill(self.alloc, &mut self.store, pipe, pool, bytes)
            }
            Descriptor::Connection { conn } => {
                self.conns
                    .write(self.alloc, &mut self.store, conn, pool, bytes)
            }
            Descriptor::ReadEnd { .. } | Descriptor::File { .. } => unreachable!(),
        }
    }
}
