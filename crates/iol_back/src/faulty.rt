//! A store that fails once.
ghost use Rattle.std.specs.Prelude.{◌≡◌, ◌-◌, ◌<◌, ◌↔◌, IsTrue};
ghost use Rattle.iol_back.specs.Disk.{raised};

use crate::backing::{Backing, StoreFault};
use iol_core::numbers::FileId;

/// A store over another, whose k-th read or write fails: a read before it reads, a write after it has written half of its
/// bytes, rounded down.
#[derive(Drop)]
pub struct FaultyBacking<B> {
    inner: B,
    left: u64,
    failed: u64,
}

impl<B: Backing> FaultyBacking<B> {
    ghost use Rattle.iol_back.specs.Faulty.{inner_of, calls_to_fault, disk_over};

    /// A store whose k-th call from now on fails, counted from 1. With 0 no call fails by this.
    pub fn new(inner: B, k: u64) -> FaultyBacking<B>
        ensures inner { inner_of result ≡ inner }
        ensures calls { calls_to_fault result ≡ k }
        ensures failures { (disk_over B.disk result).failures ≡ 0 }
    {
        FaultyBacking {
            inner,
            left: k,
            failed: 0,
        }
    }

    // Counts a call, and returns whether it is the one that fails.
    fn count_call(&mut self) -> bool
        ensures due { IsTrue result ↔ (self.old.left ≡ 1) }
        ensures left { self.new ≡ record self.old { left = self.old.left - 1 } }
    {
        let due = self.left == 1;
        self.left = self.left.saturating_sub(1);
        due
    }

    // Counts a failure.
    fn fail(&mut self) -> StoreFault
        ensures { self.new ≡ record self.old { failed = raised self.old.failed } }
    {
        self.failed = self.failed.saturating_add(1);
        StoreFault
    }
}

impl<B: Backing> Backing for FaultyBacking<B> {
    ghost use Rattle.iol_back.specs.Faulty.{CountsDown, ReadsFaulty, WritesHalf, WritesFaulty, calls_to_fault, disk_over, inner_of};

    ghost disk = { disk_over B.disk };

    fn length(&self, file: FileId) -> u32 {
        self.inner.length(file)
    }

    fn read_at(&mut self, file: FileId, at: u32, into: &mut [u8]) -> Result<(), StoreFault>
        ensures reads { ReadsFaulty B.disk file at self.old self.new into.old into.new result }
        ensures calls { CountsDown B.disk self.old self.new result }

        // The failing call reads nothing.
        ensures unread { calls_to_fault self.old ≡ 1 → inner_of self.new ≡ inner_of self.old }
    {
        let due = self.count_call();
        if due || self.failed == u64::MAX || self.inner.read_at(file, at, into).is_err() {
            return Err(self.fail());
        }
        Ok(())
    }

    fn write_at(&mut self, file: FileId, at: u32, bytes: &[u8]) -> Result<(), StoreFault>
        ensures writes { WritesFaulty B.disk file at bytes.now self.old self.new result }
        ensures calls { CountsDown B.disk self.old self.new result }

        // The failing call fails after the store below has taken half of the bytes.
        ensures half { WritesHalf B.disk file at bytes.now self.old self.new }
    {
        let due = self.count_call();
        if due {
            let _half = self.inner.write_at(file, at, &bytes[..bytes.len() / 2]);
            return Err(self.fail());
        }
        if self.failed == u64::MAX || self.inner.write_at(file, at, bytes).is_err() {
            return Err(self.fail());
        }
        Ok(())
    }

    fn failures(&self) -> u64 {
        self.failed
    }
}
