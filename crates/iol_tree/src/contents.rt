//! The bytes of the files below a folder.
ghost use Rattle.std.specs.Prelude.{◌≡◌, ◌<◌, ◌≤◌, ◌+◌, length, IfOk, Some, slice_get, true};
ghost use Rattle.iol_core.specs.declared.limits.TheConstants.{MAX_FILES};
ghost use Rattle.iol_back.specs.Lists.{items_of};
ghost use Rattle.iol_tree.specs.Index.{file_lengths};
ghost use Rattle.iol_tree.specs.Store.{HaveLengths, HoldsBytes};

use crate::index::Index;
use iol_back::memory::MemoryBacking;
use iol_back::slots::Slots;
use iol_core::numbers::FileId;
use std::alloc::{AllocError, Global};
use std::io;
use std::io::Read;
use std::rt::Files;

/// Reads the files of an index, whole. The error has the kind `OutOfMemory` if memory ran out, and `InvalidData` if a file
/// differed from its stamp in the index before or after it was read.
pub fn read_all<R: Files + AllocGlobal>(rt: &R, index: &Index) -> io::Result<Vec<Vec<u8>>>
    ensures { IfOk result (λ read. HaveLengths (file_lengths index.now) (items_of read.items)) }
{
    let mut contents = Vec::new(rt.alloc());
    for place in 0..index.count() {
        contents.push(read_file(rt, index, place)?)?;
    }
    Ok(contents)
}

// Reads a file, whole.
#[tactic(auto, using(crate::proofs::Lengths::length_at))]
fn read_file<R: Files + AllocGlobal>(rt: &R, index: &Index, place: usize) -> io::Result<Vec<u8>>
    requires { place < length index.now.names }
    ensures { IfOk result (λ bytes.
        slice_get (file_lengths index.now) place ≡ Some (length bytes.items)) }
{
    let count = index.stamp(place).length() as usize;
    let mut bytes = vec![in rt.alloc(); 0u8; count]?;
    let mut file = index.open(rt, rt.alloc(), place)?;
    file.read_exact(&mut bytes)?;
    index.check::<R>(place, &file)?;
    Ok(bytes)
}

/// A store in memory that has these bytes as its files, by their slots. In addition to its argument it uses memory for at most
/// one of them at a time.
pub fn store_of(alloc: Global, contents: Vec<Vec<u8>>) -> Result<MemoryBacking, AllocError>
    requires { length contents.items ≤ MAX_FILES }
    ensures honest { IfOk result (λ store. store.honest ≡ true) }
    ensures failures { IfOk result (λ store. store.failures ≡ 0) }
    ensures bytes { IfOk result (λ store. HoldsBytes (items_of contents.items) store.slots) }
{
    let mut contents = contents;
    let mut slots = Slots::new(alloc);
    while let Some(bytes) = contents.pop() {
        slots.append(FileId::new(contents.len() as u32 + 1), &bytes)?;
    }
    Ok(MemoryBacking::new(slots))
}
