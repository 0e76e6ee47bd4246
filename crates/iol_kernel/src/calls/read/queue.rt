//! Bytes are copied out of pipes and connections: no aggregate is made of them, and no memory is
//! requested.
ghost use Rattle.std.specs.Prelude.{ℕ, Some};
ghost use Rattle.iol_core.specs.Calls.Reads as calls;
ghost use Rattle.iol_kernel.specs.ReadsByCopy.{CopiesFrontOf, CountsWaiting, IsOnNoFile, MayTakeInto, TakesInto};

use crate::kernel::Kernel;
use crate::queue_end::can_read;
use iol_core::descriptors::Descriptor;
use iol_core::numbers::{DomainId, Fd};
use iol_core::refusals::Refusal;

impl Kernel {
    ghost use Rattle.iol_kernel.specs.Kernel.{state_of, IsSource, Leaves};

    /// The number of bytes queued for reading on a descriptor that is not open on a file, at most
    /// `count`. Refused as a read of `count` bytes is.
    pub fn waiting(&self, by: DomainId, fd: Fd, count: usize) -> Result<usize, Refusal>
        requires { IsOnNoFile (state_of self.now) by fd }
        ensures { CountsWaiting by fd count (state_of self.now) result }
    {
        let from = self.opened(by, fd)?;
        if !can_read(&from) {
            return Err(Refusal::WrongMode);
        }
        if let Some(pool) = self.first_barred(by, &from, count) {
            return Err(Refusal::Denied { pool });
        }
        if self.must_wait(&from, count) {
            return Err(Refusal::WouldBlock);
        }
        Ok(count.min(self.unread(&from) as usize))
    }

    /// Reads from a queue by copying: moves the first queued bytes that the domain may read, at
    /// most `into.len()`, to the front of `into`. Returns their number. Never refused:
    /// [`Kernel::waiting`] tests the refusals first.
    pub fn take_into(&mut self, by: DomainId, fd: Fd, into: &mut [u8]) -> u32
        requires { MayTakeInto by fd (state_of self.old) }
        ensures { TakesInto by fd into.old into.new (state_of self.old) result (state_of self.new) }
    {
        let Some(from) = self.descriptor(by, fd) else {
            unreachable!()
        };
        let count = self.copy_front(by, &from, into);
        self.skip(&from, count);
        count
    }

    /// Copies the first queued bytes that the domain may read, and returns their number. The queue
    /// is unchanged.
    fn copy_front(&self, by: DomainId, from: &Descriptor, into: &mut [u8]) -> u32
        requires { IsSource self.now from.now }
        ensures { CopiesFrontOf from.now by (state_of self.now) into.old into.new result }
    {
        match from {
            Descriptor::ReadEnd { pipe } => self.pipes.copy_front(&self.store, *pipe, by, into),
            Descriptor::Connection { conn } => {
                let Some(found) = self.conns.get(*conn) else {
                    unreachable!()
                };
                found.copy_front(&self.store, by, into)
            }
            Descriptor::WriteEnd { .. } | Descriptor::File { .. } => unreachable!(),
        }
    }

    /// Takes the first `n` bytes off a queue, or all if there are fewer.
    fn skip(&mut self, from: &Descriptor, count: u32)
        requires { IsSource self.old from.now }
        ensures { (d fd : ℕ) → Leaves (λ s. calls.read_on s d fd (Some from.now) count) self.old
            self.new }
    {
        match from {
            Descriptor::ReadEnd { pipe } => self.pipes.skip(&mut self.store, *pipe, count),
            Descriptor::Connection { conn } => self.conns.skip(&mut self.store, *conn, count),
            Descriptor::WriteEnd { .. } | Descriptor::File { .. } => unreachable!(),
        }
    }
}
