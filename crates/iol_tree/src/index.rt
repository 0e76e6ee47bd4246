//! The files below a folder.
ghost use Rattle.std.specs.Prelude.{◌≡◌, ◌+◌, ◌-◌, ◌<◌, ◌^◌, ◌↔◌, All, IfOk, IsTrue, OnErr, OnOk, Some, length, min, slice_get, string_bytes, sum};
ghost use Rattle.iol_tree.specs.Index.{AddsOrSkips, HaveSameFiles, IsPartOf, ListsOrCounts, file_lengths, file_paths, is_before, no_files, with_file, with_skipped};
ghost use Rattle.std.specs.List.{list_all};
ghost use Rattle.iol_back.specs.Folder.{AreNames, MayFollow, Precedes};

use crate::stamp::{Stamp, stamp_at};
use crate::walk::{Walk, join, walk_below};
use iol_core::limits::{MAX_FILES, MAX_NAME_BYTES};
use std::alloc::{AllocError, Global};
use std::cmp::Ordering;
use std::fs::{OpenFile, OpenOptions};
use std::io;
use std::io::ErrorKind;
use std::marker::Model;
use std::rt::Files;

/// Files below a folder, by byte order of their names, each with its last seen stamp. A file's name is its path below the
/// folder.
#[derive(Drop)]
pub struct Index {
    root: String,
    names: Vec<String>,
    stamps: Vec<Stamp>,
    skipped: u64,
}

impl Model for Index {
    ghost use Rattle.std.specs.Prelude.{◌≡◌, length, map, string_bytes};
    ghost use Rattle.iol_back.specs.Folder.{AreNames};
    ghost use Rattle.iol_tree.specs.Index.{IndexedFiles};

    ghost Value = { IndexedFiles };

    ghost view = { λ l. record {
      root = string_bytes l.root;
      names = map string_bytes l.names.items;
      stamps = l.stamps.items;
      skipped = l.skipped;
    } };

    ghost invariant = { λ l. AreNames (map string_bytes l.names.items)
        × (length l.stamps.items ≡ length l.names.items) };
}

impl Index {
    /// The regular files below the folder and in its folders, as they are now: those of at most 2^24 bytes with a name in UTF-8
    /// of at most 255 bytes, by byte order of names, the first 1,024. No link is followed. The error has the kind
    /// `OutOfMemory` if memory ran out, else it is the error of reading the folder.
    pub fn of<R>(rt: &R, root: &str) -> io::Result<Index>
    where
        R: Files + AllocGlobal + Clone + Drop,
        ensures { IfOk result (λ index. index.root ≡ root.now) }
    {
        let found = walk_below(rt, root)?;
        let index = Index::of_walk(rt, root, found)?;
        Ok(index)
    }

    // The files that a walk found. Those that cannot be listed count as skipped, with the entries that the walk skipped.
    fn of_walk<R>(rt: &R, root: &str, found: Walk) -> Result<Index, AllocError>
    where
        R: Files + AllocGlobal,
        ensures { IfOk result (λ index.
            ListsOrCounts (length found.names.items) (no_files root.now found.skipped) index) }
    {
        let alloc = rt.alloc();
        let mut index = Index::new(alloc, String::from_str(alloc, root)?, found.skipped);
        index.add_all(rt, found.names)?;
        Ok(index)
    }

    /// The files of this index that the program may read, with their stamps. The others count as entries that are not in the index.
    pub fn readable<R: Files + AllocGlobal>(&self, rt: &R) -> Result<Index, AllocError>
        ensures { IfOk result (λ index. IsPartOf self.now index) }
    {
        let alloc = rt.alloc();
        let root = String::from_str(alloc, self.root.as_str())?;
        let mut index = Index::new(alloc, root, self.skipped());
        for place in 0..self.count() {
            let name = self.name(place);
            if index.takes(name) && !self.is_denied(rt, place) {
                index.add(String::from_str(alloc, name)?, self.stamp(place))?;
            } else {
                index.skip();
            }
        }
        Ok(index)
    }

    // An index without files.
    fn new(alloc: Global, root: String, skipped: u64) -> Index
        ensures { result ≡ no_files (string_bytes root) skipped }
    {
        Index {
            root,
            names: Vec::new(alloc),
            stamps: Vec::new(alloc),
            skipped,
        }
    }

    /// The number of files.
    pub fn count(&self) -> usize
        ensures count { result ≡ length self.now.names }
        ensures names { AreNames self.now.names }
        ensures stamps { result ≡ length self.now.stamps }
    {
        self.names.len()
    }

    /// The number of entries below the folder that are not in the index: links, devices and the like, files that are too long, names
    /// that are too long or not UTF-8, folders that could not be read, files past the first 1,024, and, in a [`readable`](Index::readable)
    /// index, files that the program may not read.
    pub fn skipped(&self) -> u64
        ensures { result ≡ self.now.skipped }
    {
        self.skipped
    }

    /// The name of a file.
    pub fn name(&self, place: usize) -> &str
        requires { place < length self.now.names }
        ensures { slice_get self.now.names place ≡ Some result.now }
    {
        self.names[place].as_str()
    }

    /// The last seen stamp of a file.
    pub fn stamp(&self, place: usize) -> Stamp
        requires { place < length self.now.names }
        ensures { slice_get self.now.stamps place ≡ Some result }
    {
        self.stamps[place]
    }

    /// Whether another index has the same files with the same stamps.
    pub fn is_same(&self, other: &Index) -> bool
        ensures { IsTrue result ↔ HaveSameFiles self.now other.now }
    {
        self.names == other.names && self.stamps == other.stamps
    }

    /// The total length of the files in bytes.
    #[tactic(auto, using(crate::proofs::Totals::total_more))]
    pub fn total(&self) -> u64
        ensures { result ≡ min (sum (file_lengths self.now)) (2 ^ 64 - 1) }
    {
        let mut total = 0u64;
        for stamp in &self.stamps {
            total = total.saturating_add(u64::from(stamp.length()));
        }
        total
    }

    /// Whether no file changed since a time, in seconds and nanoseconds since 1970.
    pub fn is_older_than(&self, time: (i64, i64)) -> bool
        ensures { result ≡ list_all (λ s. is_before s.changed time) self.now.stamps }
    {
        self.stamps.iter().all(|stamp| stamp.changed() < time)
    }

    // Adds the files that were found, or counts them as skipped.
    fn add_all<R: Files + AllocGlobal>(
        &mut self,
        rt: &R,
        names: Vec<String>,
    ) -> Result<(), AllocError>
        ensures { OnOk result (ListsOrCounts (length names.items) self.old self.new) }
    {
        let _skipped = self.skipped();
        for name in names {
            self.add_found(rt, name)?;
        }
        Ok(())
    }

    // Adds a file that was found, or counts it as skipped.
    fn add_found<R: Files + AllocGlobal>(&mut self, rt: &R, name: String) -> Result<(), AllocError>
        ensures { OnOk result (AddsOrSkips (string_bytes name) self.old self.new) }
    {
        if self.takes(name.as_str()) {
            let path = join(rt.alloc(), self.root.as_str(), name.as_str())?;
            if let Some(stamp) = stamp_at(rt, path.as_str()) {
                return self.add(name, stamp);
            }
        }
        self.skip();
        Ok(())
    }

    // Counts an entry that is not in the index.
    fn skip(&mut self)
        ensures { self.new ≡ with_skipped self.old }
    {
        self.skipped = self.skipped.saturating_add(1);
    }

    // Whether the program may not read a file.
    fn is_denied<R: Files + AllocGlobal>(&self, rt: &R, place: usize) -> bool
        requires { place < length self.now.names }
    {
        match self.open(rt, rt.alloc(), place) {
            Ok(_) => false,
            Err(e) => e.kind() == ErrorKind::PermissionDenied,
        }
    }

    // Whether a file of this name may be added after the others.
    fn takes(&self, name: &str) -> bool
        ensures { IsTrue result ↔ MayFollow self.now.names name.now }
    {
        let is_sized = 1 <= name.len() && name.len() <= MAX_NAME_BYTES;
        is_sized && self.names.len() < MAX_FILES && self.is_last(name)
    }

    // Whether a name is after the others in byte order.
    fn is_last(&self, name: &str) -> bool
        ensures { IsTrue result ↔ All (λ other. Precedes other name.now) self.now.names }
    {
        let count = self.count();
        if count == 0 {
            return true;
        }
        matches!(self.name(count - 1).cmp(name), Ordering::Less)
    }

    // Adds a file after the others.
    fn add(&mut self, name: String, stamp: Stamp) -> Result<(), AllocError>
        requires { MayFollow self.old.names (string_bytes name) }
        ensures added { OnOk result (self.new ≡ with_file self.old (string_bytes name) stamp) }
        ensures err { OnErr result (self.new ≡ self.old) }
    {
        self.names.reserve(1)?;
        self.stamps.reserve(1)?;
        self.names.push_reserved(name);
        self.stamps.push_reserved(stamp);
        Ok(())
    }

    // The path of a file: that of the folder, and the file's name.
    fn path(&self, alloc: Global, place: usize) -> Result<String, AllocError>
        requires { place < length self.now.names }
        ensures { IfOk result (λ path.
            slice_get (file_paths self.now) place ≡ Some (string_bytes path)) }
    {
        join(alloc, self.root.as_str(), self.name(place))
    }

    /// Opens a file for reading. Fails if the file has changed. Looks at the file first, because opening a pipe waits for its
    /// other end.
    pub fn open<R: Files>(&self, files: &R, alloc: Global, place: usize) -> io::Result<R::File>
        requires { place < length self.now.names }
    {
        let path = self.path(alloc, place)?;
        if stamp_at(files, path.as_str()) != Some(self.stamp(place)) {
            return Err(io::Error::from(ErrorKind::InvalidData));
        }
        let file = OpenOptions::new().read(true).open(files, path.as_str())?;
        self.check::<R>(place, &file)?;
        Ok(file)
    }

    /// Fails if an open file has changed.
    pub fn check<R: Files>(&self, place: usize, file: &R::File) -> io::Result<()>
        requires { place < length self.now.names }
    {
        if Stamp::of(&file.metadata()?) == Some(self.stamp(place)) {
            Ok(())
        } else {
            Err(io::Error::from(ErrorKind::InvalidData))
        }
    }
}
