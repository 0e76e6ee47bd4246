//! Lists of bytes by file number.
ghost use Rattle.std.specs.Prelude.{◌≡◌, ℕ, ◌+◌, ◌-◌, ◌<◌, ◌≤◌, [], length};
ghost use Rattle.iol_back.specs.Disk.{IsSlot, content};
ghost use Rattle.iol_back.specs.Lists.{Appends, MayOverwrite, Overwrites, OverwritesFile, OverwritesList, Reaches};

use iol_core::limits::MAX_FILES;
use iol_core::numbers::FileId;
use std::alloc::{AllocError, Global};
use std::marker::Model;

/// A list of bytes for each of the files 1 to 1,024, at first empty.
#[derive(Drop)]
pub struct Slots {
    lists: Vec<Vec<u8>>,
    alloc: Global,
}

impl Model for Slots {
    ghost use Rattle.std.specs.Prelude.{ℕ, ◌≤◌, List, length};
    ghost use Rattle.iol_back.specs.Lists.{items_of};
    ghost use Rattle.iol_core.specs.declared.limits.TheConstants.{MAX_FILES};

    ghost Value = { List (List ℕ) };

    ghost view = { λ s. items_of s.lists.items };

    ghost invariant = { λ s. length s.lists.items ≤ MAX_FILES };
}

// Writes bytes over those from `at` on. An error changes nothing.
fn overwrite(list: &mut Vec<u8>, at: usize, bytes: &[u8]) -> Result<(), AllocError>
    requires { at ≤ length list.old.items }
    ensures { Overwrites at bytes.now list.old.items list.new.items result }
{
    let inside = bytes.len().min(list.len() - at);
    let (first, rest) = bytes.split_at(inside);
    list.extend_from_slice(rest)?;
    list.slice_mut(at..at + inside).copy_from_slice(first);
    Ok(())
}

// Adds empty lists until there is one with this number.
fn reach(lists: &mut Vec<Vec<u8>>, alloc: Global, number: usize) -> Result<(), AllocError>
    requires number { number ≤ MAX_FILES }
    requires few { length lists.old.items ≤ MAX_FILES }
    ensures { Reaches number lists.old.items lists.new.items result }
{
    while lists.len() < number {
        lists.reserve(1)?;
        lists.push_reserved(Vec::new(alloc));
    }
    Ok(())
}

// Writes bytes over those of a list from `at` on. An error changes no list's bytes.
fn write_list(
    lists: &mut Vec<Vec<u8>>,
    alloc: Global,
    number: usize,
    at: usize,
    bytes: &[u8],
) -> Result<(), AllocError>
    requires { MayOverwrite number at bytes.now lists.old.items }
    ensures few { length lists.new.items ≤ MAX_FILES }
    ensures writes { OverwritesList number at bytes.now lists.old.items lists.new.items result }
{
    reach(lists, alloc, number)?;
    overwrite(&mut lists[number - 1], at, bytes)
}

impl Slots {
    /// Empty lists.
    pub fn new(alloc: Global) -> Slots
        ensures { result ≡ [] }
    {
        Slots {
            lists: Vec::new(alloc),
            alloc,
        }
    }

    /// The bytes of a file.
    pub fn bytes(&self, file: FileId) -> &[u8]
        ensures { result.now ≡ content self.now file }
    {
        let number = file.number() as usize;
        if number == 0 {
            return &[];
        }
        if number > self.lists.len() {
            return &[];
        }
        self.lists[number - 1].as_slice()
    }

    /// Appends bytes to a file. An error changes nothing. Appending no bytes needs no memory.
    pub fn append(&mut self, file: FileId, bytes: &[u8]) -> Result<(), AllocError>
        requires { IsSlot file }
        ensures { Appends file bytes.now self.old self.new result }
    {
        let end = self.bytes(file).len();
        self.overwrite(file, end, bytes)
    }

    /// Writes bytes over those of a file from `at` on. An error changes nothing. Never fails if the file need not grow.
    pub(crate) fn overwrite(
        &mut self,
        file: FileId,
        at: usize,
        bytes: &[u8],
    ) -> Result<(), AllocError>
        requires slot { IsSlot file }
        requires begins { at ≤ length (content self.old file) }
        ensures { OverwritesFile file at bytes.now self.old self.new result }
    {
        if bytes.is_empty() {
            return Ok(());
        }
        write_list(
            &mut self.lists,
            self.alloc,
            file.number() as usize,
            at,
            bytes,
        )
    }
}
