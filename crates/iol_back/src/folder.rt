//! A store of the files of a folder.
ghost use Rattle.std.specs.Prelude.{◌≡◌, ◌+◌, ◌-◌, ◌<◌, ◌≤◌, ◌↔◌, length, Some, IsSome, IfSome, IfOk, OnOk, slice_get};
ghost use Rattle.iol_back.specs.Disk.{IsHonestLength, IsSlot, ReadsAt, WritesAt, length_reported, raised};
ghost use Rattle.iol_back.specs.Folder.{AreDistinct, AreListed, AreNames, IsSized, disk_of};
ghost use Rattle.iol_core.specs.declared.limits.TheConstants.{MAX_FILE_BYTES};

use crate::backing::{Backing, StoreFault};
use crate::listing::{Listing, Stamp, listed, stamp_at};
use iol_core::limits::MAX_FILE_BYTES;
use iol_core::numbers::FileId;
use std::fs::{OpenFile, OpenOptions};
use std::io;
use std::io::{ErrorKind, Read, Seek, SeekFrom, Write};
use std::marker::Model;
use std::rt::Files;

/// The regular files directly in a folder, as a store: those with a name in UTF-8 and at most 2^24
/// bytes, by byte order of names, the first 1,024. It promises nothing about their bytes.
///
/// No file is held open. While a file does not exist, or something else is in its place, or its
/// length or time of the last write differs from what this store left, each read and each write of
/// it fails.
#[derive(Drop)]
pub struct FolderBacking<R: Files> {
    files: R,
    listing: Listing,
    failures: u64,
}

impl<R: Files> Model for FolderBacking<R> {
    ghost use Rattle.iol_back.specs.Folder.{Folder};

    ghost Value = { Folder };

    ghost view = { λ f. record {
      names = f.listing.names;
      lengths = f.listing.lengths;
      failures = f.failures;
    } };
}

impl<R: Files + AllocGlobal + Clone + Drop> FolderBacking<R> {
    /// The files of a folder, as they are now. The error has the kind `OutOfMemory` if memory ran
    /// out.
    pub fn new(rt: &R, root: &str) -> io::Result<FolderBacking<R>>
        ensures failures { IfOk result (λ f. f.failures ≡ 0) }
    {
        let files = rt.clone()?;
        let listing = listed(rt, root)?;
        Ok(FolderBacking {
            files,
            listing,
            failures: 0,
        })
    }
}

impl<R: Files> FolderBacking<R> {
    /// The number of files. They have the slots from 1 on.
    pub fn count(&self) -> usize
        ensures count { result ≡ length self.now.names }
        ensures names { AreNames self.now.names }
        ensures distinct { AreDistinct self.now.names }
    {
        self.listing.count()
    }

    /// The name of the file of a slot.
    pub fn name(&self, slot: FileId) -> Option<&str>
        ensures which { IsSome result ↔ ((0 < slot) × (slot ≤ length self.now.names)) }
        ensures name { IfSome result (λ name. slice_get self.now.names (slot - 1) ≡ Some name.now) }
        ensures sized { IfSome result (λ name. IsSized name.now) }
    {
        let place = self.place(slot)?;
        Some(self.listing.name(place))
    }

    // The index of a file in the list.
    fn place(&self, slot: FileId) -> Option<usize>
        ensures which { IsSome result ↔ ((0 < slot) × (slot ≤ length self.now.names)) }
        ensures slot { IfSome result (λ place. IsSlot slot × (place ≡ slot - 1)) }
        ensures listed { AreListed self.now.names self.now.lengths }
    {
        let number = slot.number() as usize;
        let listing = &self.listing;
        let count = listing.count();
        if number == 0 || number > count {
            return None;
        }
        Some(number - 1)
    }

    // Counts a failure.
    fn fail(&mut self) -> StoreFault
        ensures failures { self.new.failures ≡ raised self.old.failures }
        ensures names { self.new.names ≡ self.old.names }
    {
        self.failures = self.failures.saturating_add(1);
        StoreFault
    }

    // Opens an unchanged file. Looks at it first, because opening a pipe would wait for its other
    // end.
    fn open(&self, place: usize, how: &OpenOptions) -> io::Result<R::File>
        requires { place < length self.now.names }
    {
        let path = self.listing.path(place);
        if stamp_at(&self.files, path) != Some(self.listing.stamp(place)) {
            return Err(io::Error::from(ErrorKind::InvalidData));
        }
        let file = how.open(&self.files, path)?;
        self.check(place, &file)?;
        Ok(file)
    }

    // Fails if an open file has changed.
    fn check(&self, place: usize, file: &R::File) -> io::Result<()>
        requires { place < length self.now.names }
    {
        if Stamp::of(&file.metadata()?) == Some(self.listing.stamp(place)) {
            Ok(())
        } else {
            Err(io::Error::from(ErrorKind::InvalidData))
        }
    }

    // Reads bytes of a file that is unchanged before and after.
    fn read(&self, place: usize, at: u32, into: &mut [u8]) -> io::Result<()>
        requires { place < length self.now.names }
    {
        let mut file = self.open(place, OpenOptions::new().read(true))?;
        file.seek(SeekFrom::Start(u64::from(at)))?;
        file.read_exact(into)?;
        self.check(place, &file)
    }

    // Writes bytes to an unchanged file.
    fn write(&mut self, place: usize, at: u32, bytes: &[u8]) -> io::Result<()>
        requires { place < length self.old.names }
        ensures failures { self.new.failures ≡ self.old.failures }
        ensures names { self.new.names ≡ self.old.names }
    {
        let end = u64::from(at).saturating_add(bytes.len() as u64);
        if at > self.listing.stamp(place).length() || end > MAX_FILE_BYTES as u64 {
            return Err(io::Error::from(ErrorKind::InvalidInput));
        }
        let mut file = self.open(place, OpenOptions::new().write(true))?;
        file.seek(SeekFrom::Start(u64::from(at)))?;
        let written = file.write_all(bytes);
        // After a write that failed part way, the file may have grown.
        if let Some(stamp) = Stamp::of(&file.metadata()?) {
            self.listing.set_stamp(place, stamp);
        }
        written
    }
}

impl<R: Files> Backing for FolderBacking<R> {
    ghost use Rattle.iol_back.specs.Folder.{disk_of};

    ghost disk = { disk_of };

    /// The length that the file had when it was found, or after the last write here; 0 if there is
    /// no such file.
    fn length(&self, file: FileId) -> u32
        ensures reported { result ≡ length_reported (disk_of self.now).reported file }
        ensures honest { IsHonestLength (disk_of self.now) file result }
        ensures short { result ≤ MAX_FILE_BYTES }
    {
        match self.place(file) {
            Some(place) => self.listing.stamp(place).length(),
            None => 0,
        }
    }

    fn read_at(&mut self, file: FileId, at: u32, into: &mut [u8]) -> Result<(), StoreFault>
        ensures reads { ReadsAt file at (disk_of self.old) (disk_of self.new)
            into.old into.new result }

        // Only for a file of the folder. The names do not change.
        ensures file { OnOk result (file ≤ length self.old.names) }
        ensures names { self.new.names ≡ self.old.names }
    {
        if self.failures == u64::MAX {
            return Err(self.fail());
        }
        let Some(place) = self.place(file) else {
            return Err(self.fail());
        };
        if self.read(place, at, into).is_err() {
            return Err(self.fail());
        }
        Ok(())
    }

    fn write_at(&mut self, file: FileId, at: u32, bytes: &[u8]) -> Result<(), StoreFault>
        ensures writes { WritesAt file at bytes.now (disk_of self.old) (disk_of self.new) result }

        // Only for a file of the folder. The names do not change.
        ensures file { OnOk result (file ≤ length self.old.names) }
        ensures names { self.new.names ≡ self.old.names }
    {
        if self.failures == u64::MAX {
            return Err(self.fail());
        }
        let Some(place) = self.place(file) else {
            return Err(self.fail());
        };
        if self.write(place, at, bytes).is_err() {
            return Err(self.fail());
        }
        Ok(())
    }

    fn failures(&self) -> u64 {
        self.failures
    }
}
