//! Reading by copying: no aggregate is made of what is read.
ghost use Rattle.iol_kernel.specs.ReadsByCopy.{IsOnNoFile, ReadsOut};
ghost use Rattle.iol_kernel.specs.KernelState.{IsSound};

mod file;
mod into;
mod queue;

use crate::kernel::Kernel;
use iol_back::backing::Backing;
use iol_core::lists::Bytes;
use iol_core::numbers::{DomainId, Fd};
use iol_core::refusals::Refusal;

impl Kernel {
    ghost use Rattle.iol_kernel.specs.Kernel.{state_of, ReadsList};

    /// Reads up to `count` bytes, as a separate list.
    pub fn read_bytes<B: Backing>(
        &mut self,
        backing: &mut B,
        by: DomainId,
        fd: Fd,
        count: u32,
    ) -> Result<Bytes, Refusal>
        requires { IsSound (state_of self.old) }
        ensures { ReadsList by fd count (B.disk backing.old) self.old result (B.disk backing.new)
            self.new }
    {
        match self.file_open(by, fd) {
            Some(found) => self.copy_file(backing, by, fd, found, count),
            None => self.copy_queue(by, fd, count),
        }
    }

    /// Takes up to `count` bytes off a queue. Memory for the queued bytes is requested before the
    /// read.
    fn copy_queue(&mut self, by: DomainId, fd: Fd, count: u32) -> Result<Bytes, Refusal>
        requires { IsOnNoFile (state_of self.old) by fd }
        ensures { ReadsOut by fd count (state_of self.old) result (state_of self.new) }
    {
        let most = self.waiting(by, fd, count as usize)?;
        let mut list = Vec::from_elem(self.alloc, 0, most)?;
        let taken = self.take_into(by, fd, list.as_mut_slice());
        list.truncate(taken as usize);
        Ok(Bytes::from_vec(list))
    }
}
