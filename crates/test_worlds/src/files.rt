//! Stores in memory.
ghost use Rattle.iol_back.specs.Prelude.{IsSlot};

use iol_back::memory::MemoryBacking;
use iol_back::slots::Slots;
use iol_core::numbers::FileId;
use std::alloc::{AllocError, Global};

/// A file: its name, its bytes, and whether it is private to the guest.
pub type Kept<'a> = (&'a str, &'a [u8], bool);

// The slot of the file at an index.
fn slot(place: usize) -> FileId
    ensures { IsSlot result }
{
    FileId::new(place.min(1023) as u32 + 1)
}

// The files in slots, in order.
fn slots_of(alloc: Global, files: &[Kept<'_>]) -> Result<Slots, AllocError> {
    let mut slots = Slots::new(alloc);
    for (place, (_name, bytes, _private)) in files.iter().enumerate() {
        slots.append(slot(place), bytes)?;
    }
    Ok(slots)
}

/// A store of these files.
pub fn store_of(alloc: Global, files: &[Kept<'_>]) -> Result<MemoryBacking, AllocError> {
    let slots = slots_of(alloc, files)?;
    Ok(MemoryBacking::new(slots))
}

/// A store without files.
pub fn empty_store(alloc: Global) -> MemoryBacking {
    MemoryBacking::new(Slots::new(alloc))
}
