//! Stamps, by which a change of a file is detected.
ghost use Rattle.std.specs.Prelude.{◌≡◌, ◌≤◌, ◌↔◌, IsSome, IfSome};
ghost use Rattle.std.specs.Fs.{metadata_len};
ghost use Rattle.iol_core.specs.declared.limits.TheConstants.{MAX_FILE_BYTES};
ghost use Rattle.iol_tree.specs.Stamp.{IsShortFile};

use iol_core::limits::MAX_FILE_BYTES;
use std::fs;
use std::fs::Metadata;
use std::os::unix::fs::MetadataExt;
use std::rt::Files;

/// The identity of a file, its length, and the times of the last write and of the last change.
#[derive(Clone, Copy, Debug, PartialEq, Eq)]
pub struct Stamp {
    device: u64,
    node: u64,
    length: u32,
    written: (i64, i64),
    changed: (i64, i64),

    ghost short: { length ≤ MAX_FILE_BYTES },
}

impl Stamp {
    /// The stamp of what was found at a path, if it is a regular file of at most 2^24 bytes.
    pub fn of(found: &Metadata) -> Option<Stamp>
        ensures which { IsSome result ↔ IsShortFile found.now }
        ensures length { IfSome result (λ s. s.length ≡ metadata_len found.now) }
    {
        if !found.is_file() || found.len() > MAX_FILE_BYTES as u64 {
            return None;
        }
        Some(Stamp {
            device: found.dev(),
            node: found.ino(),
            length: found.len() as u32,
            written: (found.mtime(), found.mtime_nsec()),
            changed: (found.ctime(), found.ctime_nsec()),
        })
    }

    /// The length of the file in bytes.
    pub fn length(&self) -> u32
        ensures length { result ≡ self.now.length }
        ensures short { result ≤ MAX_FILE_BYTES }
    {
        self.length
    }

    /// The second and the nanosecond of the last change, since 1970.
    pub fn changed(&self) -> (i64, i64)
        ensures { result ≡ self.now.changed }
    {
        self.changed
    }
}

/// The stamp of the file at a path, if it is a regular file of at most 2^24 bytes. A link is not, whatever it leads to.
pub fn stamp_at<R: Files>(files: &R, path: &str) -> Option<Stamp> {
    let found = fs::symlink_metadata(files, path).ok()?;
    Stamp::of(&found)
}
