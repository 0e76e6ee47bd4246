//! A store of the files below a folder.
ghost use Rattle.std.specs.Prelude.{◌≡◌, ◌+◌, ◌-◌, ◌<◌, ◌≤◌, ◌↔◌, length, true, false, Some, IsErr, IsSome, IfSome, IfOk, OnOk};
ghost use Rattle.iol_back.specs.Disk.{IsSlot, ReadsAt, WritesAt, length_reported, raised};
ghost use Rattle.iol_back.specs.Folder.{AreListed, AreNames};
ghost use Rattle.iol_back.specs.Lists.{items_of};
ghost use Rattle.iol_tree.specs.Index.{file_lengths};
ghost use Rattle.iol_tree.specs.Store.{HaveLengths, HoldsBytes, IfOnDisk, KeepsFiles, disk_of};

use crate::contents::store_of;
use crate::index::Index;
use iol_back::backing::{Backing, StoreFault};
use iol_back::memory::MemoryBacking;
use iol_back::slots::Slots;
use iol_core::numbers::FileId;
use std::alloc::{AllocError, Global};
use std::io;
use std::io::{Read, Seek, SeekFrom};
use std::marker::Model;
use std::rt::Files;

/// The files of an index, as a store for reading: over a copy of their bytes in memory, which is
/// honest, or over the folder, which promises nothing about their bytes.
///
/// Over the folder no file is held open. While a file differs from its stamp in the index, each
/// read of it fails. Each write to the folder fails.
#[derive(Drop)]
pub struct TreeBacking<R: Files> {
    files: R,
    alloc: Global,
    index: Index,
    is_in_memory: bool,

    // The bytes, if they are in memory, else empty.
    memory: MemoryBacking,

    // The number of failed calls to the folder.
    failures: u64,
}

impl<R: Files> Model for TreeBacking<R> {
    ghost use Rattle.std.specs.Prelude.{◌≡◌, true};
    ghost use Rattle.iol_tree.specs.Index.{file_lengths};
    ghost use Rattle.iol_tree.specs.Store.{Store};

    ghost Value = { Store };

    ghost view = { λ t. record {
      names = t.index.names;
      lengths = file_lengths t.index;
      skipped = t.index.skipped;
      memory = t.memory;
      in_memory = t.is_in_memory;
      failures = t.failures;
    } };

    // The store in memory is honest.
    ghost invariant = { λ t. t.memory.honest ≡ true };
}

impl<R: Files + Drop> TreeBacking<R> {
    /// A store of the files' bytes in memory. It is honest.
    pub fn in_memory(
        files: R,
        alloc: Global,
        index: Index,
        contents: Vec<Vec<u8>>,
    ) -> Result<TreeBacking<R>, AllocError>
        requires { HaveLengths (file_lengths index) (items_of contents.items) }
        ensures honest { IfOk result (λ t. (disk_of t).honest ≡ true) }
        ensures bytes { IfOk result (λ t. HoldsBytes (items_of contents.items) (disk_of t).slots) }
        ensures names { IfOk result (λ t. t.names ≡ index.names) }
        ensures lengths { IfOk result (λ t. t.lengths ≡ file_lengths index) }
        ensures skipped { IfOk result (λ t. t.skipped ≡ index.skipped) }
        ensures failures { IfOk result (λ t. (disk_of t).failures ≡ 0) }
    {
        let memory = store_of(alloc, contents)?;
        Ok(TreeBacking {
            files,
            alloc,
            index,
            is_in_memory: true,
            memory,
            failures: 0,
        })
    }

    /// A store over the folder. It is not honest, because others write the files.
    pub fn on_disk(files: R, alloc: Global, index: Index) -> TreeBacking<R>
        ensures honest { (disk_of result).honest ≡ false }
        ensures lengths { (disk_of result).reported ≡ file_lengths index }
        ensures names { result.names ≡ index.names }
        ensures skipped { result.skipped ≡ index.skipped }
        ensures failures { (disk_of result).failures ≡ 0 }
    {
        TreeBacking {
            files,
            alloc,
            index,
            is_in_memory: false,
            memory: MemoryBacking::new(Slots::new(alloc)),
            failures: 0,
        }
    }
}

impl<R: Files> TreeBacking<R> {
    /// The files.
    pub fn index(&self) -> &Index
        ensures names { result.now.names ≡ self.now.names }
        ensures lengths { file_lengths result.now ≡ self.now.lengths }
        ensures skipped { result.now.skipped ≡ self.now.skipped }
        ensures are { AreNames self.now.names }
    {
        let _count = self.index.count();
        &self.index
    }

    /// Whether the bytes are in memory, and so the store is honest.
    pub fn is_in_memory(&self) -> bool
        ensures { result ≡ (disk_of self.now).honest }
    {
        self.is_in_memory
    }

    // The index of a file in the list.
    fn place(&self, slot: FileId) -> Option<usize>
        ensures which { IsSome result ↔ ((0 < slot) × (slot ≤ length self.now.names)) }
        ensures slot { IfSome result (λ place. IsSlot slot × (place ≡ slot - 1)) }
        ensures listed { AreListed self.now.names self.now.lengths }
    {
        let number = slot.number() as usize;
        let index = &self.index;
        let count = index.count();
        if number == 0 || number > count {
            return None;
        }
        Some(number - 1)
    }

    // The length that a file of the folder had when it was found.
    fn folder_length(&self, file: FileId) -> u32
        ensures { result ≡ length_reported self.now.lengths file }
    {
        match self.place(file) {
            Some(place) => self.index.stamp(place).length(),
            None => 0,
        }
    }

    // Counts a failed call to the folder.
    fn fail(&mut self) -> StoreFault
        ensures { self.new ≡ record self.old { failures = raised self.old.failures } }
    {
        self.failures = self.failures.saturating_add(1);
        StoreFault
    }

    // Reads bytes of a file that is unchanged before and after.
    fn read(&self, place: usize, at: u32, into: &mut [u8]) -> io::Result<()>
        requires { place < length self.now.names }
    {
        let mut file = self.index.open(&self.files, self.alloc, place)?;
        file.seek(SeekFrom::Start(u64::from(at)))?;
        file.read_exact(into)?;
        self.index.check::<R>(place, &file)
    }

    // Reads bytes of a file of the folder.
    fn read_folder(&mut self, file: FileId, at: u32, into: &mut [u8]) -> Result<(), StoreFault>
        requires { self.old.in_memory ≡ false }
        ensures reads { ReadsAt file at (disk_of self.old) (disk_of self.new)
            into.old into.new result }
        ensures file { OnOk result (file ≤ length self.old.names) }
        ensures keeps { KeepsFiles self.old self.new }
    {
        if self.failures == u64::MAX {
            return Err(self.fail());
        }
        let Some(place) = self.place(file) else {
            return Err(self.fail());
        };
        if self.read(place, at, into).is_err() {
            return Err(self.fail());
        }
        Ok(())
    }
}

impl<R: Files> Backing for TreeBacking<R> {
    ghost use Rattle.iol_tree.specs.Store.{disk_of};

    ghost disk = { disk_of };

    /// The length that the file had when it was found; 0 if there is no such file.
    fn length(&self, file: FileId) -> u32 {
        if self.is_in_memory {
            self.memory.length(file)
        } else {
            self.folder_length(file)
        }
    }

    fn read_at(&mut self, file: FileId, at: u32, into: &mut [u8]) -> Result<(), StoreFault>
        ensures reads { ReadsAt file at (disk_of self.old) (disk_of self.new)
            into.old into.new result }

        // Over the folder only for a file of the index.
        ensures file { IfOnDisk self.old (OnOk result (file ≤ length self.old.names)) }
        ensures keeps { KeepsFiles self.old self.new }
    {
        if self.is_in_memory {
            self.memory.read_at(file, at, into)
        } else {
            self.read_folder(file, at, into)
        }
    }

    /// Writes to the bytes in memory. Over the folder it fails.
    fn write_at(&mut self, file: FileId, at: u32, bytes: &[u8]) -> Result<(), StoreFault>
        ensures writes { WritesAt file at bytes.now (disk_of self.old) (disk_of self.new) result }
        ensures refused { IfOnDisk self.old (IsErr result) }
        ensures keeps { KeepsFiles self.old self.new }
    {
        if self.is_in_memory {
            self.memory.write_at(file, at, bytes)
        } else {
            Err(self.fail())
        }
    }

    fn failures(&self) -> u64 {
        if self.is_in_memory {
            self.memory.failures()
        } else {
            self.failures
        }
    }
}
