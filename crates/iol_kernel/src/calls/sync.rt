//! Writing back dirty extents, and evicting clean ones.
ghost use Rattle.iol_kernel.specs.KernelState.{IsSound};
ghost use Rattle.iol_kernel.specs.WriteBack.{DropsClean, MaySync};

use crate::kernel::Kernel;
use iol_back::backing::Backing;
use iol_core::numbers::{DomainId, Fd, FileId};
use iol_core::refusals::Refusal;

impl Kernel {
    ghost use Rattle.iol_kernel.specs.Kernel.{state_of, FlushesBack, SyncsBack, SyncsOpen};

    /// Writes back all dirty extents of the file that a descriptor is open on, by rising offset, up
    /// to the first at which the store fails. No memory is requested.
    pub fn fsync<B: Backing>(
        &mut self,
        backing: &mut B,
        by: DomainId,
        fd: Fd,
    ) -> Result<(), Refusal>
        requires { IsSound (state_of self.old) }
        ensures { SyncsOpen by fd (B.disk backing.old) self.old result (B.disk backing.new)
            self.new }
    {
        let found = match self.find_open(by, fd) {
            Ok(found) => found,
            Err(refusal) => return Err(refusal),
        };
        self.sync(backing, by, fd, found.file)
    }

    /// Writes back all dirty extents of a file.
    fn sync<B: Backing>(
        &mut self,
        backing: &mut B,
        by: DomainId,
        fd: Fd,
        file: FileId,
    ) -> Result<(), Refusal>
        requires { MaySync by fd file (state_of self.old) }
        ensures { SyncsBack by fd file (B.disk backing.old) self.old result (B.disk backing.new)
            self.new }
    {
        self.files.cache.sync(&self.store, backing, file)
    }

    /// Writes back the dirty extent of least file and offset, if there is one. No memory is
    /// requested.
    pub fn flush<B: Backing>(&mut self, backing: &mut B) -> Result<(), Refusal>
        requires { IsSound (state_of self.old) }
        ensures { FlushesBack (B.disk backing.old) self.old result (B.disk backing.new) self.new }
    {
        if let Err(refusal) = self.files.cache.flush_one(&self.store, backing) {
            return Err(refusal);
        }
        Ok(())
    }

    /// Evicts all clean extents: only dirty extents of files stay in memory.
    pub fn drop_clean(&mut self)
        requires { IsSound (state_of self.old) }
        ensures { DropsClean (state_of self.old) (state_of self.new) }
    {
        self.files.cache.drop_clean(&mut self.store);
    }
}
