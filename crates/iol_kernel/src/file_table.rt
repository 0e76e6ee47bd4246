//! The files' names and pools: look-ups by name, by slot, and by pool.
ghost use Rattle.std.specs.Prelude.{◌≡◌, ◌==◌, ◌<◌, ◌≤◌, [], length, true, false, bytes_eq, OnOk};
ghost use Rattle.std.specs.List.{list_any};
ghost use Rattle.iol_core.specs.Prelude.{is_numbered, numbered_or};
ghost use Rattle.iol_core.specs.State as machine;
ghost use Rattle.iol_kernel.specs.Files.{slot_called, with_named};

use indexmap::{IndexMap, IndexSet};
use iol_core::limits::MAX_FILES;
use iol_core::numbers::{FileId, PoolId};
use std::alloc::{AllocError, Global};
use std::marker::Model;

/// The files in slots from 1: each has a distinct name, and a pool for its bytes.
#[derive(Drop)]
pub(crate) struct FileTable {
    // The pools by name, in the order of slots.
    pools: IndexMap<Vec<u8>, PoolId>,
    // The numbers of these pools.
    used: IndexSet<u32>,
}

impl Model for FileTable {
    ghost use Rattle.std.specs.Prelude.{min};
    ghost use Rattle.indexmap.specs.IndexMap as map;
    ghost use Rattle.indexmap.specs.IndexSet as set;
    ghost use Rattle.iol_kernel.specs.Files.{NamedFiles, AreUsed, files_of};

    ghost Value = { NamedFiles };

    ghost view = { λ t. record { files = files_of t.pools.entries; room = min (map.spare t.pools) (set.spare t.used) } };

    ghost invariant = { λ t. AreUsed (files_of t.pools.entries) t.used.keys };
}

impl FileTable {
    /// An empty table.
    pub(crate) fn new(alloc: Global) -> FileTable
        ensures { result.files ≡ [] }
    {
        FileTable {
            pools: IndexMap::new(alloc),
            used: IndexSet::new(alloc),
        }
    }

    /// The number of files.
    pub(crate) fn len(&self) -> usize
        ensures { result ≡ length self.now.files }
    {
        self.pools.len()
    }

    /// Whether a file has this name.
    pub(crate) fn has(&self, name: &[u8]) -> bool
        ensures { result ≡ list_any (λ f. bytes_eq f.name name.now) self.now.files }
    {
        self.pools.contains_key(name)
    }

    /// The file of this name.
    pub(crate) fn find(&self, name: &[u8]) -> Option<FileId>
        requires { length self.now.files ≤ MAX_FILES }
        ensures { result ≡ slot_called self.now.files name.now }
    {
        let place = self.pools.get_index_of(name)?;
        Some(FileId::new(place as u32 + 1))
    }

    /// The pool of a file's bytes.
    pub(crate) fn pool_of(&self, file: FileId) -> PoolId
        requires { is_numbered self.now.files file ≡ true }
        ensures { result ≡ (numbered_or self.now.files file machine.no_file).pool }
    {
        let Some((_, pool)) = self.pools.get_index(file.number() as usize - 1) else {
            unreachable!();
        };
        *pool
    }

    /// Whether a file has this pool.
    pub(crate) fn is_any_of(&self, pool: PoolId) -> bool
        ensures { result ≡ list_any (λ f. f.pool == pool) self.now.files }
    {
        self.used.contains(&pool.number())
    }

    /// Reserves memory for one more file.
    pub(crate) fn reserve(&mut self) -> Result<(), AllocError>
        ensures room { OnOk result (0 < self.new.room) }
        ensures files { self.new.files ≡ self.old.files }
    {
        self.pools.reserve(1)?;
        self.used.reserve(1)
    }

    /// Adds a file in the next slot, under a name that no other file has.
    pub(crate) fn add(&mut self, name: Vec<u8>, pool: PoolId)
        requires new { list_any (λ f. bytes_eq f.name name.items) self.old.files ≡ false }
        requires room { 0 < self.old.room }
        ensures { self.new.files ≡ with_named self.old.files name.items pool }
    {
        let Ok(_) = self.pools.insert(name, pool) else {
            unreachable!();
        };
        let Ok(_) = self.used.insert(pool.number()) else {
            unreachable!();
        };
    }
}
