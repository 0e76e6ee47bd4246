//! Positions of descriptors on files, and lengths of files.
ghost use Rattle.iol_core.specs.Calls.Files as calls;
ghost use Rattle.iol_kernel.specs.FileLengths.{FindsFile, HasFile, IsLengthOf, SeeksAt};
ghost use Rattle.iol_kernel.specs.KernelState.{IsSound};
ghost use Rattle.iol_kernel.specs.OpenFiles.{ReportsLength};

use crate::kernel::Kernel;
use crate::open_file::OpenFile;
use iol_back::backing::Backing;
use iol_core::descriptors::Descriptor;
use iol_core::numbers::{DomainId, Fd, FileId};
use iol_core::refusals::Refusal;

impl Kernel {
    ghost use Rattle.iol_kernel.specs.Kernel.{state_of, LooksUp};

    /// Sets the position of a descriptor on a file, at most to the file's end. Over a store that is
    /// not honest, the end is where a read of the file would end now.
    pub fn seek<B: Backing>(
        &mut self,
        backing: &B,
        by: DomainId,
        fd: Fd,
        at: u32,
    ) -> Result<(), Refusal>
        requires { IsSound (state_of self.old) }
        ensures looks { LooksUp (λ s. calls.seek s by fd at) (B.disk backing.now) self.old result
            self.new }
        ensures ends { SeeksAt by fd at (B.disk backing.now) (state_of self.old) result }
    {
        let found = match self.find_open(by, fd) {
            Ok(found) => found,
            Err(refusal) => return Err(refusal),
        };
        if at > self.length_of(backing, found.file) {
            return Err(Refusal::BadRange);
        }
        let moved = Descriptor::File {
            file: found.file,
            at,
            mode: found.mode,
        };
        self.domains.set_fd(by, fd, moved);
        Ok(())
    }

    /// The length of the file that a descriptor is open on. Over a store that is not honest, it is
    /// where a read of the file would end now.
    pub fn file_length<B: Backing>(&self, backing: &B, by: DomainId, fd: Fd) -> Result<u32, Refusal>
        requires { IsSound (state_of self.now) }
        ensures { ReportsLength by fd (B.disk backing.now) (state_of self.now) result }
    {
        let found = match self.find_open(by, fd) {
            Ok(found) => found,
            Err(refusal) => return Err(refusal),
        };
        Ok(self.length_of(backing, found.file))
    }

    /// The file that a descriptor is open on. `NoDomain` if the domain is not live, `BadFd` if it
    /// has no such descriptor, `WrongMode` if the descriptor is not open on a file.
    pub(crate) fn find_open(&self, by: DomainId, fd: Fd) -> Result<OpenFile, Refusal>
        requires { IsSound (state_of self.now) }
        ensures { FindsFile by fd (state_of self.now) result }
    {
        let on = self.opened(by, fd)?;
        let Descriptor::File { file, at, mode } = on else {
            return Err(Refusal::WrongMode);
        };
        Ok(OpenFile { file, at, mode })
    }

    /// The length of a file in bytes.
    fn length_of<B: Backing>(&self, backing: &B, file: FileId) -> u32
        requires { HasFile (state_of self.now) file }
        ensures { IsLengthOf (B.disk backing.now) (state_of self.now) file result }
    {
        self.files.cache.file_length(backing, file)
    }
}
