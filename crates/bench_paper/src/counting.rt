//! A store in memory that counts its reads.
ghost use Rattle.iol_back.specs.Prelude.{IsSlot};

use iol_back::backing::{Backing, StoreFault};
use iol_back::memory::MemoryBacking;
use iol_back::slots::Slots;
use iol_core::numbers::FileId;
use std::alloc::{AllocError, Global};
use std::cell::Cell;

/// A store in memory, and the number of its reads so far.
#[derive(Drop)]
pub struct Counting<'a> {
    inner: MemoryBacking,
    reads: &'a Cell<u64>,
}

// The slot of the file in a place.
fn slot(place: usize) -> FileId
    ensures { IsSlot result }
{
    FileId::new(place.min(1023) as u32 + 1)
}

// Files in slots, in their order.
fn slots_of(alloc: Global, files: &[&[u8]]) -> Result<Slots, AllocError> {
    let mut slots = Slots::new(alloc);
    for (place, bytes) in files.iter().enumerate() {
        slots.append(slot(place), bytes)?;
    }
    Ok(slots)
}

impl<'a> Counting<'a> {
    /// A store of these files.
    pub fn new(
        alloc: Global,
        files: &[&[u8]],
        reads: &'a Cell<u64>,
    ) -> Result<Counting<'a>, AllocError> {
        let inner = MemoryBacking::new(slots_of(alloc, files)?);
        Ok(Counting { inner, reads })
    }
}

impl<'a> Backing for Counting<'a> {
    ghost disk = { λ c. c.inner };

    fn length(&self, file: FileId) -> u32 {
        self.inner.length(file)
    }

    fn read_at(&mut self, file: FileId, at: u32, into: &mut [u8]) -> Result<(), StoreFault> {
        self.reads.set(self.reads.get().wrapping_add(1));
        self.inner.read_at(file, at, into)
    }

    fn write_at(&mut self, file: FileId, at: u32, bytes: &[u8]) -> Result<(), StoreFault> {
        self.inner.write_at(file, at, bytes)
    }

    fn failures(&self) -> u64 {
        self.inner.failures()
    }
}
