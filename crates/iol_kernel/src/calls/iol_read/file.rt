//! Reading files by reference: bytes in memory are shared, and the others are read into clean
//! extents.
ghost use Rattle.iol_kernel.specs.ByReference.{TakesFound};
ghost use Rattle.iol_kernel.specs.FileLengths.{HasFileFor};
ghost use Rattle.iol_kernel.specs.FileReads.{TestsRead, read_at};
ghost use Rattle.iol_kernel.specs.OpenFiles.{FindsOpen};

use crate::kernel::Kernel;
use crate::open_file::{OpenFile, may_be_read};
use iol_back::backing::Backing;
use iol_core::descriptors::{Descriptor, Mode};
use iol_core::numbers::{AggId, DomainId, Fd, FileId};
use iol_core::refusals::Refusal;

impl Kernel {
    ghost use Rattle.iol_kernel.specs.Kernel.{state_of, IsOpenAt};

    /// The file that a live domain's descriptor is open on, with its position and mode.
    pub fn file_open(&self, by: DomainId, fd: Fd) -> Option<OpenFile>
        ensures { FindsOpen by fd (state_of self.now) result }
    {
        if !self.is_live(by) {
            return None;
        }
        let Descriptor::File { file, at, mode } = self.descriptor(by, fd)? else {
            return None;
        };
        Some(OpenFile { file, at, mode })
    }

    /// Reads from a file at a descriptor's position, as the caller's next aggregate. The position
    /// moves past the bytes read.
    pub(crate) fn read_file<B: Backing>(
        &mut self,
        backing: &mut B,
        by: DomainId,
        fd: Fd,
        found: OpenFile,
        count: u32,
    ) -> Result<AggId, Refusal>
        requires { IsOpenAt self.old (read_at by fd found count) }
        ensures { TakesFound by fd found count B.disk backing.old self.old result backing.new
            self.new }
    {
        self.test_read(by, found.file, found.mode, true)?;
        self.domains.reserve_aggs(by, 1)?;
        let outcome = self.files.cache.read(
            self.alloc,
            &mut self.store,
            backing,
            found.file,
            found.at,
            count,
        );
        let agg = match outcome {
            Ok(agg) => agg,
            Err(refusal) => return Err(refusal),
        };
        self.domains.set_fd(by, fd, found.moved_by(agg.len()));
        Ok(self.domains.add_agg(by, agg))
    }

    /// Whether a file may be read. Only a read by reference makes an aggregate.
    pub(crate) fn test_read(
        &self,
        by: DomainId,
        file: FileId,
        mode: Mode,
        makes_agg: bool,
    ) -> Result<(), Refusal>
        requires { HasFileFor (state_of self.now) by file }
        ensures { TestsRead by file mode makes_agg (state_of self.now) result }
    {
        if !may_be_read(mode) {
            return Err(Refusal::WrongMode);
        }
        if makes_agg && self.is_too_many(by, 1, 0) {
            return Err(Refusal::TooMany);
        }
        if let Some(pool) = self.hidden_file(by, file) {
            return Err(Refusal::Denied { pool });
        }
        Ok(())
    }
}
