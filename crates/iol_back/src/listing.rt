//! The files in a folder.
ghost use Rattle.std.specs.Prelude.{◌≡◌, ◌+◌, ◌-◌, ◌<◌, ◌≤◌, [], length, All, Some, IsTrue, slice_get, string_bytes, map};
ghost use Rattle.iol_back.specs.Folder.{AreNames, MayFollow, Precedes};
ghost use Rattle.iol_core.specs.declared.limits.TheConstants.{MAX_FILE_BYTES};

use iol_core::limits::{MAX_FILE_BYTES, MAX_FILES, MAX_NAME_BYTES};
use std::alloc::{AllocError, Global};
use std::cmp::Ordering;
use std::fs::Metadata;
use std::io::ErrorKind;
use std::marker::Model;
use std::os::unix::fs::MetadataExt;
use std::rt::Files;
use std::{fs, io};

/// By which a change of a file is detected: its identity, its length, and the time of the last write.
#[derive(Clone, Copy, Debug, PartialEq, Eq)]
pub struct Stamp {
    device: u64,
    node: u64,
    length: u32,
    written: (i64, i64),

    ghost short: { length ≤ MAX_FILE_BYTES },
}

impl Stamp {
    /// The stamp of the file at a path, if it is a regular file that is not too long.
    pub fn of(found: &Metadata) -> Option<Stamp> {
        if !found.is_file() || found.len() > MAX_FILE_BYTES as u64 {
            return None;
        }
        Some(Stamp {
            device: found.dev(),
            node: found.ino(),
            length: found.len() as u32,
            written: (found.mtime(), found.mtime_nsec()),
        })
    }

    /// The length of the file in bytes.
    pub fn length(&self) -> u32
        ensures length { result ≡ self.now.length }
        ensures short { result ≤ MAX_FILE_BYTES }
    {
        self.length
    }
}

/// A file of the folder.
#[derive(Drop)]
struct Entry {
    name: String,
    path: String,
}

/// Files of a folder, by byte order of their names, each with its last seen stamp.
#[derive(Drop)]
pub struct Listing {
    entries: Vec<Entry>,
    stamps: Vec<Stamp>,
}

impl Model for Listing {
    ghost use Rattle.std.specs.Prelude.{◌≡◌, length, map, string_bytes};
    ghost use Rattle.iol_back.specs.Folder.{AreNames, Listed};

    ghost Value = { Listed };

    ghost view = { λ l. record {
      names = map (λ e. string_bytes e.name) l.entries.items;
      lengths = map (λ s. s.length) l.stamps.items;
    } };

    ghost invariant = { λ l. AreNames (map (λ e. string_bytes e.name) l.entries.items)
        × (length l.stamps.items ≡ length l.entries.items) };
}

impl Listing {
    fn new(alloc: Global) -> Listing
        ensures { result.names ≡ [] }
    {
        Listing {
            entries: Vec::new(alloc),
            stamps: Vec::new(alloc),
        }
    }

    /// The number of files.
    pub fn count(&self) -> usize
        ensures count { result ≡ length self.now.names }
        ensures names { AreNames self.now.names }
        ensures lengths { result ≡ length self.now.lengths }
    {
        self.entries.len()
    }

    /// The name of a file.
    pub fn name(&self, place: usize) -> &str
        requires { place < length self.now.names }
        ensures { slice_get self.now.names place ≡ Some result.now }
    {
        self.entries[place].name.as_str()
    }

    /// The path of a file.
    pub fn path(&self, place: usize) -> &str
        requires { place < length self.now.names }
    {
        self.entries[place].path.as_str()
    }

    /// The last seen stamp of a file.
    pub fn stamp(&self, place: usize) -> Stamp
        requires { place < length self.now.names }
        ensures { slice_get self.now.lengths place ≡ Some result.length }
    {
        self.stamps[place]
    }

    /// Sets the last seen stamp of a file.
    pub fn set_stamp(&mut self, place: usize, stamp: Stamp)
        requires { place < length self.old.names }
        ensures { self.new.names ≡ self.old.names }
    {
        self.stamps[place] = stamp;
    }

    // Whether a file of this name may be added after the others.
    fn takes(&self, name: &str) -> bool
        ensures { IsTrue result → MayFollow self.now.names name.now }
    {
        let is_sized = 1 <= name.len() && name.len() <= MAX_NAME_BYTES;
        is_sized && self.entries.len() < MAX_FILES && self.is_last(name)
    }

    // Whether a name is after the others in byte order.
    fn is_last(&self, name: &str) -> bool
        ensures { IsTrue result → All (λ other. Precedes other name.now) self.now.names }
    {
        let count = self.count();
        if count == 0 {
            return true;
        }
        matches!(self.name(count - 1).cmp(name), Ordering::Less)
    }

    // Adds a file after the others.
    fn add(&mut self, entry: Entry, stamp: Stamp) -> Result<(), AllocError>
        requires { MayFollow self.old.names (string_bytes entry.name) }
    {
        self.entries.reserve(1)?;
        self.stamps.reserve(1)?;
        self.entries.push_reserved(entry);
        self.stamps.push_reserved(stamp);
        Ok(())
    }
}

/// The files directly in a folder, as they are now: the regular files of at most 2^24 bytes with a name in UTF-8, by byte
/// order of names, the first 1,024. The error has the kind `OutOfMemory` if memory ran out.
pub fn listed<R: Files + AllocGlobal + Clone + Drop>(rt: &R, root: &str) -> io::Result<Listing> {
    let mut listing = Listing::new(rt.alloc());
    for name in names_in(rt, root)? {
        if !listing.takes(name.as_str()) {
            continue;
        }
        let name_text = name.as_str();
        let path = format!(in rt.alloc(); "{root}/{name_text}")?;
        if let Some(stamp) = stamp_at(rt, path.as_str()) {
            listing.add(Entry { name, path }, stamp)?;
        }
    }
    Ok(listing)
}

/// The file at a path, if it can be served. A link cannot, whatever it leads to.
pub fn stamp_at<R: Files>(rt: &R, path: &str) -> Option<Stamp> {
    let found = fs::symlink_metadata(rt, path).ok()?;
    Stamp::of(&found)
}

// The names in a folder, by byte order, without those that are not UTF-8.
fn names_in<R: Files + AllocGlobal + Clone + Drop>(rt: &R, root: &str) -> io::Result<Vec<String>> {
    let mut names = Vec::new(rt.alloc());
    for entry in fs::read_dir(rt, root)? {
        match entry {
            Ok(entry) => names.push(String::from_str(rt.alloc(), entry.file_name())?)?,
            Err(e) if e.kind() == ErrorKind::InvalidFilename => {}
            Err(e) => return Err(e),
        }
    }
    names.sort_unstable();
    Ok(names)
}
