//! Writing by reference to files.
ghost use Rattle.iol_kernel.specs.OpenFiles.{descriptor_of};
ghost use Rattle.iol_kernel.specs.AggregateWrites.{MayWriteAgg};
ghost use Rattle.iol_kernel.specs.FileWrites.{WritesAgg};

use crate::kernel::Kernel;
use crate::open_file::OpenFile;
use iol_core::numbers::{AggId, DomainId, Fd};
use iol_core::refusals::Refusal;

impl Kernel {
    ghost use Rattle.iol_kernel.specs.Kernel.{state_of};

    /// Writes an aggregate that may be written over the bytes of a file, from the descriptor's
    /// position on. The position moves past them.
    #[tactic(auto, using(crate::proofs::AggregateCalls::Slices::held_rules))]
    pub(crate) fn write_over(
        &mut self,
        by: DomainId,
        fd: Fd,
        agg: AggId,
        found: OpenFile,
    ) -> Result<u32, Refusal>
        requires { MayWriteAgg by fd agg (descriptor_of found) (state_of self.old) }
        ensures { WritesAgg by fd agg found.file found.at (state_of self.old) result (state_of
            self.new) }
    {
        let Some(source) = self.domains.agg(by, agg) else {
            unreachable!()
        };
        let len = source.len();
        if let Err(refusal) = self
            .files
            .cache
            .write(self.alloc, &mut self.store, found.file, found.at, source)
        {
            return Err(refusal);
        }
        self.domains.set_fd(by, fd, found.moved_by(len));
        Ok(len)
    }
}
