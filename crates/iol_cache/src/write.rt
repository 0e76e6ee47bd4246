//! Writing of files.
ghost use Rattle.iol_cache.specs.Cache.{cached_of, holding};
ghost use Rattle.iol_cache.specs.Overwrites.{MakesPlace, MayMakePlace, MayOverwrite, MayWrite, OverwritesOrReleases, Writes};
ghost use Rattle.iol_cache.specs.Sound.{IsSound};
ghost use Rattle.iol_cache.specs.Writes.{MayPutOver, PutsOver};

mod copies;
mod cut;
mod prepare;
mod replace;

use crate::cache::Cache;
use crate::write::copies::foreign_pages;
use crate::write::cut::Replacement;
use crate::write::prepare::prepare;
use crate::write::replace::replace_range;
use iol_agg::Agg;
use iol_core::numbers::FileId;
use iol_core::refusals::Refusal;
use iol_extent::spans::Span;
use iol_hold::Store;
use std::alloc::Global;

impl Cache {
    // Replaces a range of a file, in room reserved for its parts and the new bytes. Allocates no memory.
    fn put_over(&mut self, store: &mut Store, file: FileId, range: Span, put: Replacement)
        requires { MayPutOver file range put (holding store.old self.old) }
        ensures puts { PutsOver file range put (holding store.old self.old)
            (holding store.new self.new) }
        ensures sound { IsSound store.new (cached_of self.new) }
    {
        let place = file.number() as usize - 1;
        let pool = self.files[place].pool;
        replace_range(
            &mut self.orders[pool.number() as usize - 1],
            &mut self.marks,
            &mut self.files[place].extents,
            store,
            file,
            range,
            put,
        );
    }

    // Reserves room for the extents of a write and their entries, and frees the pages for the copied bytes.
    fn make_place(&mut self, store: &mut Store, file: FileId, source: &Agg) -> Result<(), Refusal>
        requires { MayMakePlace file source.now (holding store.old self.old) }
        ensures { MakesPlace file source.now store.old self.old store.new self.new result }
    {
        let place = file.number() as usize - 1;
        let pool = self.files[place].pool;
        let Ok(()) = self.reserve_places(file, 3) else {
            return Err(Refusal::Memory);
        };
        if self.make_room(store, pool, foreign_pages(source, pool)) {
            return Ok(());
        }
        Err(Refusal::NoRoom { pool })
    }

    // Replaces a range of a file by the bytes of an aggregate, in room reserved for extents and entries.
    fn overwrite(
        &mut self,
        alloc: Global,
        store: &mut Store,
        file: FileId,
        at: u32,
        source: &Agg,
    ) -> Result<(), Refusal>
        requires { MayOverwrite file at source.now (holding store.old self.old) }
        ensures { OverwritesOrReleases file at source.now store.old self.old store.new self.new
            result }
    {
        let place = file.number() as usize - 1;
        let pool = self.files[place].pool;
        let put = match prepare(alloc, store, &self.files[place].extents, pool, at, source) {
            Ok(prepared) => prepared,
            Err(refusal) => return Err(refusal),
        };
        let range = Span {
            from: at,
            to: at + source.len(),
        };
        self.put_over(store, file, range, put);
        Ok(())
    }

    /// Writes the bytes of an aggregate over those of a file, from byte `at`, as one dirty extent. The bytes in the file's
    /// pool are shared, and the others are copied there.
    ///
    /// Errors, after which no file has changed: `NoRoom`, only if the pinned pages and those for the copies are more than
    /// the pool has; it leaves each extent and the order. `Memory`; clean extents may have been evicted before, but only if
    /// the pages fit the pool.
    pub fn write(
        &mut self,
        alloc: Global,
        store: &mut Store,
        file: FileId,
        at: u32,
        source: &Agg,
    ) -> Result<(), Refusal>
        requires { MayWrite file at source.now (holding store.old self.old) }
        ensures { Writes file at source.now store.old self.old store.new self.new result }
    {
        if source.is_empty() {
            return Ok(());
        }
        if let Err(refusal) = self.make_place(store, file, source) {
            return Err(refusal);
        }
        match self.overwrite(alloc, store, file, at, source) {
            Ok(()) => Ok(()),
            Err(refusal) => Err(refusal),
        }
    }
}
