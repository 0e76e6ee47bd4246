//! The objects that descriptors read from and write to. Only this module distinguishes pipes from
//! connections for reading and writing: each look-up is a definition of the copying machine
//! (`iol_core`, `specs/Calls/Reads` and `Writes`), for any descriptor.
ghost use Rattle.std.specs.Prelude.{◌≡◌, ◌≤◌, false, length, Some};
ghost use Rattle.iol_core.specs.Calls.Reads as reading;
ghost use Rattle.iol_core.specs.Calls.Writes as writing;
ghost use Rattle.iol_kernel.specs.QueueEnds.{IsBarredPool, IsFirstPool};
ghost use Rattle.iol_kernel.specs.Readings.{Reading};

use crate::kernel::Kernel;
use crate::open_file::{is_for_writing, may_be_read};
use iol_core::descriptors::Descriptor;
use iol_core::limits::{MAX_FILE_BYTES, MAX_QUEUE_BYTES};
use iol_core::numbers::{DomainId, PoolId};

/// Whether a descriptor is open for reading.
pub(crate) fn can_read(from: &Descriptor) -> bool
    ensures { result ≡ reading.can_read (Some from.now) }
{
    match from {
        Descriptor::File { mode, .. } => may_be_read(*mode),
        Descriptor::ReadEnd { .. } | Descriptor::Connection { .. } => true,
        Descriptor::WriteEnd { .. } => false,
    }
}

/// Whether a descriptor is open for writing.
pub(crate) fn can_write(to: &Descriptor) -> bool
    ensures { result ≡ writing.can_write (Some to.now) }
{
    match to {
        Descriptor::File { mode, .. } => is_for_writing(*mode),
        Descriptor::WriteEnd { .. } | Descriptor::Connection { .. } => true,
        Descriptor::ReadEnd { .. } => false,
    }
}

/// Whether a file would pass its limit if `count` bytes were written to it.
pub(crate) fn is_too_long(to: &Descriptor, count: u32) -> bool
    ensures { result ≡ writing.is_too_long (Some to.now) count }
{
    match to {
        Descriptor::File { at, .. } => *at as usize + count as usize > MAX_FILE_BYTES,
        Descriptor::ReadEnd { .. } | Descriptor::WriteEnd { .. } | Descriptor::Connection { .. } =>
            false,
    }
}

impl Kernel {
    ghost use Rattle.iol_kernel.specs.Kernel.{as_read, state_of};

    /// The number of bytes queued for reading.
    pub(crate) fn unread(&self, from: &Descriptor) -> u32
        ensures { (f : Reading) → result ≡ length (reading.unread (as_read f self.now) (Some
            from.now)) }
    {
        match from {
            Descriptor::ReadEnd { pipe } => self.pipes.len(*pipe),
            Descriptor::Connection { conn } => match self.conns.get(*conn) {
                Some(found) => found.unread(),
                None => 0,
            },
            Descriptor::WriteEnd { .. } | Descriptor::File { .. } => 0,
        }
    }

    /// The pool of the first byte queued for reading.
    fn first_pool(&self, from: &Descriptor) -> Option<PoolId>
        ensures { IsFirstPool from.now (state_of self.now) result }
    {
        match from {
            Descriptor::ReadEnd { pipe } => self.pipes.first_pool(*pipe),
            Descriptor::Connection { conn } => self.conns.get(*conn)?.first_pool(),
            Descriptor::WriteEnd { .. } | Descriptor::File { .. } => None,
        }
    }

    /// Whether more bytes may arrive for reading.
    fn may_grow(&self, from: &Descriptor) -> bool
        ensures { (f : Reading) → result ≡ reading.may_grow (as_read f self.now) (Some from.now) }
    {
        match from {
            Descriptor::ReadEnd { pipe } => self.pipes.is_writing(*pipe),
            Descriptor::Connection { conn } => match self.conns.get(*conn) {
                Some(found) => found.may_grow(),
                None => false,
            },
            Descriptor::WriteEnd { .. } | Descriptor::File { .. } => false,
        }
    }

    /// Whether bytes are requested, the queue is empty, and more may arrive.
    pub(crate) fn must_wait(&self, from: &Descriptor, count: usize) -> bool
        ensures { (f : Reading) → result ≡ reading.must_wait (as_read f self.now) (Some from.now)
            count }
    {
        count > 0 && self.unread(from) == 0 && self.may_grow(from)
    }

    /// The pool of the first byte requested from a queue, if the reader may not read it.
    pub(crate) fn first_barred(
        &self,
        by: DomainId,
        from: &Descriptor,
        count: usize,
    ) -> Option<PoolId>
        requires { writing.is_file (Some from.now) ≡ false }
        ensures { IsBarredPool by from.now count (state_of self.now) result }
    {
        if count == 0 {
            return None;
        }
        let pool = self.first_pool(from)?;
        if self.may_read(by, pool) {
            return None;
        }
        Some(pool)
    }

    /// The number of bytes that were written to a queue and not yet taken.
    fn unsent(&self, to: &Descriptor) -> u32
        ensures len { (f : Reading) → result ≡ length (writing.unsent (as_read f self.now) (Some
            to.now)) }
        ensures most { result ≤ MAX_QUEUE_BYTES }
    {
        match to {
            Descriptor::WriteEnd { pipe } => self.pipes.len(*pipe),
            Descriptor::Connection { conn } => match self.conns.get(*conn) {
                Some(found) => found.unsent(),
                None => 0,
            },
            Descriptor::ReadEnd { .. } | Descriptor::File { .. } => 0,
        }
    }

    /// Whether no reader is left to take the bytes written.
    pub(crate) fn is_broken(&self, to: &Descriptor) -> bool
        ensures { (f : Reading) → result ≡ writing.is_broken (as_read f self.now) (Some to.now) }
    {
        match to {
            Descriptor::WriteEnd { pipe } => !self.pipes.is_reading(*pipe),
            Descriptor::Connection { conn } => match self.conns.get(*conn) {
                Some(found) => found.is_gone(),
                None => true,
            },
            Descriptor::ReadEnd { .. } | Descriptor::File { .. } => false,
        }
    }

    /// How many of `count` bytes are taken: by a file all, by a queue as many as fit.
    pub(crate) fn fitting(&self, to: &Descriptor, count: usize) -> usize
        ensures { (f : Reading) → result ≡ writing.fitting (as_read f self.now) (Some to.now)
            count }
    {
        if let Descriptor::File { .. } = to {
            return count;
        }
        count.min(MAX_QUEUE_BYTES - self.unsent(to) as usize)
    }

    /// Whether bytes are offered and none of them fits.
    pub(crate) fn takes_none(&self, to: &Descriptor, count: usize) -> bool
        ensures { (f : Reading) → result ≡ writing.takes_none (as_read f self.now) (Some to.now)
            count }
    {
        count > 0 && self.fitting(to, count) == 0
    }
}
