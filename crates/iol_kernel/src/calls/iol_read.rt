//! Reading by reference.
ghost use Rattle.iol_kernel.specs.ByReference.{ReadsByReference};
ghost use Rattle.iol_kernel.specs.KernelState.{IsSound};
ghost use Rattle.iol_kernel.specs.OpenDescriptors.{IsOnQueue};
ghost use Rattle.iol_kernel.specs.QueueEnds.{MayTake};
ghost use Rattle.iol_kernel.specs.QueueSlices.{ReadsQueue, TakesNext};

pub(crate) mod file;

use crate::kernel::Kernel;
use crate::open_file::OpenFile;
use crate::queue_end::can_read;
use iol_agg::Agg;
use iol_back::backing::Backing;
use iol_core::descriptors::Descriptor;
use iol_core::numbers::{AggId, DomainId, Fd};
use iol_core::refusals::Refusal;
use std::alloc::AllocError;

impl Kernel {
    ghost use Rattle.iol_kernel.specs.Kernel.{state_of, IsSource, TakesOff};

    /// Reads up to `count` bytes, as the caller's next aggregate. The store under the files is
    /// asked for the bytes of a file that are not in memory.
    pub fn iol_read<B: Backing>(
        &mut self,
        backing: &mut B,
        by: DomainId,
        fd: Fd,
        count: u32,
    ) -> Result<AggId, Refusal>
        requires { IsSound (state_of self.old) }
        ensures { ReadsByReference by fd count B.disk backing.old self.old result backing.new
            self.new }
    {
        let from = self.opened(by, fd)?;
        match OpenFile::of(&from) {
            Some(found) => self.read_file(backing, by, fd, found, count),
            None => self.read_queue(by, fd, &from, count),
        }
    }

    /// Reads from a pipe or a connection.
    #[tactic(auto, using(crate::proofs::State::Stay::stay_rules))]
    fn read_queue(
        &mut self,
        by: DomainId,
        fd: Fd,
        from: &Descriptor,
        count: u32,
    ) -> Result<AggId, Refusal>
        requires { IsOnQueue (state_of self.old) by fd from.now }
        ensures { ReadsQueue by fd count from.now (state_of self.old) result (state_of self.new) }
    {
        if !can_read(from) {
            return Err(Refusal::WrongMode);
        }
        if self.is_too_many(by, 1, 0) {
            return Err(Refusal::TooMany);
        }
        if self.must_wait(from, count as usize) {
            return Err(Refusal::WouldBlock);
        }
        if let Some(pool) = self.first_barred(by, from, count as usize) {
            return Err(Refusal::Denied { pool });
        }
        Ok(self.take(by, fd, from, count)?)
    }

    /// Takes the prefix of a queue that the reader may see, as its next aggregate.
    #[tactic(auto, using(crate::proofs::State::Stay::stay_rules, crate::proofs::AggregateCalls::Slices::held_rules))]
    fn take(&mut self, by: DomainId, fd: Fd, from: &Descriptor, n: u32) -> Result<AggId, AllocError>
        requires { MayTake by fd from.now (state_of self.old) }
        ensures { TakesNext by fd n from.now (state_of self.old) result (state_of self.new) }
    {
        self.domains.reserve_aggs(by, 1)?;
        let agg = self.front(by, from, n)?;
        Ok(self.domains.add_agg(by, agg))
    }

    /// Takes off a queue the longest prefix of its first `n` bytes whose pools all name the domain.
    fn front(&mut self, by: DomainId, from: &Descriptor, n: u32) -> Result<Agg, AllocError>
        requires { IsSource self.old from.now }
        ensures { TakesOff from.now by n self.old result self.new }
    {
        match from {
            Descriptor::ReadEnd { pipe } => {
                Ok(self.pipes.front(self.alloc, &mut self.store, *pipe, n, by)?)
            }
            Descriptor::Connection { conn } => {
                Ok(self.conns.front(self.alloc, &mut self.store, *conn, n, by)?)
            }
            Descriptor::WriteEnd { .. } | Descriptor::File { .. } => unreachable!(),
        }
    }
}
