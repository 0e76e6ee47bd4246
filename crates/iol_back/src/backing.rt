//! Backing stores.
ghost use Rattle.std.specs.Prelude.{◌≡◌};
ghost use Rattle.iol_back.specs.Disk.{Disk, IsHonestLength, ReadsAt, WritesAt, length_reported};

use iol_core::numbers::FileId;
use thiserror::Error;

/// A read or a write of a backing store failed.
#[derive(Clone, Copy, Debug, PartialEq, Eq, Error)]
#[error("the store failed")]
pub struct StoreFault;

/// A store of the bytes of the files 1 to 1,024, which may fail.
///
/// Each failed call is counted in `failures`, up to `u64::MAX`; a store that failed that often
/// always fails. Only of an honest store it is promised that it returns what was written
/// (`specs/Disk`).
pub trait Backing {
    ghost disk: { Self → Disk };

    /// The length of the file in bytes, at most `u32::MAX`. A store that is not honest also reports
    /// the same length until the file is read or written.
    fn length(&self, file: FileId) -> u32
        ensures reported { result ≡ length_reported (disk self.now).reported file }
        ensures honest { IsHonestLength (disk self.now) file result };

    /// Reads `into.len()` bytes from place `at`. A read past the end fails. A failed read may leave
    /// any bytes in `into`.
    fn read_at(&mut self, file: FileId, at: u32, into: &mut [u8]) -> Result<(), StoreFault>
        ensures { ReadsAt file at (disk self.old) (disk self.new) into.old into.new result };

    /// Writes bytes from place `at`, over those in the file; past the end the file grows. A write
    /// that begins past the end fails. A failed write may leave any bytes in its range.
    fn write_at(&mut self, file: FileId, at: u32, bytes: &[u8]) -> Result<(), StoreFault>
        ensures { WritesAt file at bytes.now (disk self.old) (disk self.new) result };

    /// The number of failed calls, up to `u64::MAX`.
    fn failures(&self) -> u64
        ensures { result ≡ (disk self.now).failures };
}
