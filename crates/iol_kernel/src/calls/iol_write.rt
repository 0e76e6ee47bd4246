//! Writing by reference: to pipes and connections here, to files in `iol_write/file`.
ghost use Rattle.std.specs.Prelude.{◌≡◌, false, Some};
ghost use Rattle.iol_core.specs.Calls.Writes as calls;
ghost use Rattle.iol_kernel.specs.ByReference.{WritesByReference};
ghost use Rattle.iol_kernel.specs.KernelState.{IsSound};
ghost use Rattle.iol_kernel.specs.AggregateWrites.{MayWriteAgg, TestsAgg};
ghost use Rattle.iol_kernel.specs.QueueSlices.{WritesQueue};

pub(crate) mod file;

use crate::kernel::Kernel;
use crate::open_file::OpenFile;
use crate::queue_end::{can_write, is_too_long};
use iol_core::descriptors::Descriptor;
use iol_core::numbers::{AggId, DomainId, Fd};
use iol_core::refusals::Refusal;

impl Kernel {
    ghost use Rattle.iol_kernel.specs.Kernel.{state_of};

    /// Writes an aggregate, which stays. Returns the number of its bytes that were taken.
    ///
    /// To a queue no byte is copied, and a refused write changes nothing. In a file, slices of the
    /// file's pool are shared and the others are copied; clean extents may be evicted to make room
    /// for the copies, even if the write is refused.
    pub fn iol_write(&mut self, by: DomainId, fd: Fd, agg: AggId) -> Result<u32, Refusal>
        requires { IsSound (state_of self.old) }
        ensures { WritesByReference by fd agg self.old result self.new }
    {
        let to = match self.end_to_write(by, fd, agg) {
            Ok(to) => to,
            Err(refusal) => return Err(refusal),
        };
        if let Descriptor::File { file, at, mode } = to {
            return self.write_over(by, fd, agg, OpenFile { file, at, mode });
        }
        self.push(by, fd, agg, &to)
    }

    /// The object of the caller's descriptor, if the aggregate may be written to it.
    #[tactic(auto, using(crate::proofs::State::Stay::stay_rules))]
    fn end_to_write(&self, by: DomainId, fd: Fd, agg: AggId) -> Result<Descriptor, Refusal>
        requires { IsSound (state_of self.now) }
        ensures { TestsAgg by fd agg (state_of self.now) result }
    {
        let to = self.opened(by, fd)?;
        let len = self.find_len(by, agg)?;
        if !can_write(&to) {
            return Err(Refusal::WrongMode);
        }
        if is_too_long(&to, len) {
            return Err(Refusal::TooLong);
        }
        if self.is_broken(&to) {
            return Err(Refusal::BrokenPipe);
        }
        if self.takes_none(&to, len as usize) {
            return Err(Refusal::WouldBlock);
        }
        Ok(to)
    }

    /// Adds the longest prefix of an aggregate that fits to a queue.
    #[tactic(auto, using(crate::proofs::AggregateCalls::Slices::held_rules))]
    fn push(&mut self, by: DomainId, fd: Fd, agg: AggId, to: &Descriptor) -> Result<u32, Refusal>
        requires may { MayWriteAgg by fd agg to.now (state_of self.old) }
        requires no_file { calls.is_file (Some to.now) ≡ false }
        ensures { WritesQueue by fd agg to.now (state_of self.old) result (state_of self.new) }
    {
        let Some(found) = self.domains.agg(by, agg) else {
            unreachable!()
        };
        match to {
            Descriptor::WriteEnd { pipe } => Ok(self.pipes.push(&mut self.store, *pipe, found)?),
            Descriptor::Connection { conn } => {
                Ok(self.conns.queue(&mut self.store, *conn, found)?)
            }
            Descriptor::ReadEnd { .. } | Descriptor::File { .. } => unreachable!(),
        }
    }
}
