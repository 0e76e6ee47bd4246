//! A store in memory.
ghost use Rattle.std.specs.Prelude.{◌≡◌, ◌+◌, ◌-◌, ◌<◌, ◌↔◌, min, true, length, IsTrue};
ghost use Rattle.iol_back.specs.Disk.{Disk, CanRead, lengths_of, raised};
ghost use Rattle.iol_back.specs.Memory.{ReadsMemory, WritesMemory};

use crate::backing::{Backing, StoreFault};
use crate::slots::Slots;
use iol_core::limits::MAX_FILES;
use iol_core::numbers::FileId;
use std::alloc::AllocError;
use std::marker::Model;

/// Lists of bytes in memory, as a store. It is honest. If memory for the growth of a list runs out,
/// the call fails.
#[derive(Drop)]
pub struct MemoryBacking {
    slots: Slots,
    failures: u64,
}

impl Model for MemoryBacking {
    ghost use Rattle.std.specs.Prelude.{true};
    ghost use Rattle.iol_back.specs.Disk.{Disk, lengths_of};

    ghost Value = { Disk };

    ghost view = { λ m. record {
      slots = m.slots;
      failures = m.failures;
      honest = true;
      reported = lengths_of m.slots;
    } };
}

impl MemoryBacking {
    /// A store with these lists.
    pub fn new(slots: Slots) -> MemoryBacking
        ensures slots { result.slots ≡ slots }
        ensures failures { result.failures ≡ 0 }
        ensures honest { result.honest ≡ true }
        ensures reported { result.reported ≡ lengths_of slots }
    {
        MemoryBacking { slots, failures: 0 }
    }

    // Whether the file has that many bytes from `at` on, and the store has not failed too often.
    fn can_read(&self, file: FileId, at: u32, count: usize) -> bool
        ensures { IsTrue result ↔ CanRead self.now file at count }
    {
        let number = file.number() as usize;
        let len = self.slots.bytes(file).len();
        let at = at as usize;
        self.failures < u64::MAX
            && 0 < number
            && number <= MAX_FILES
            && at <= len
            && count <= len - at
    }

    // Counts a failure.
    fn fail(&mut self) -> StoreFault
        ensures failures { self.new.failures ≡ raised self.old.failures }
        ensures slots { self.new.slots ≡ self.old.slots }
        ensures honest { self.new.honest ≡ self.old.honest }
    {
        self.failures = self.failures.saturating_add(1);
        StoreFault
    }
}

impl Backing for MemoryBacking {
    ghost disk = { λ m. m };

    fn length(&self, file: FileId) -> u32 {
        self.slots.bytes(file).len().min(u32::MAX as usize) as u32
    }

    fn read_at(&mut self, file: FileId, at: u32, into: &mut [u8]) -> Result<(), StoreFault>
        ensures { ReadsMemory file at self.old self.new into.old into.new result }
    {
        if !self.can_read(file, at, into.len()) {
            return Err(self.fail());
        }
        let at = at as usize;
        into.copy_from_slice(&self.slots.bytes(file)[at..at + into.len()]);
        Ok(())
    }

    fn write_at(&mut self, file: FileId, at: u32, bytes: &[u8]) -> Result<(), StoreFault>
        ensures { WritesMemory file at bytes.now self.old self.new result }
    {
        if !self.can_read(file, at, 0) || self.slots.overwrite(file, at as usize, bytes).is_err() {
            return Err(self.fail());
        }
        Ok(())
    }

    fn failures(&self) -> u64 {
        self.failures
    }
}
