//! Reads of files: the bytes in memory are shared, room is made for the gaps, and the gaps are
//! read.
ghost use Rattle.std.specs.Prelude.{◌≡◌, ◌≤◌, true};
ghost use Rattle.iol_core.specs.Prelude.{is_numbered};
ghost use Rattle.iol_extent.specs.Prelude.{last_end};
ghost use Rattle.iol_cache.specs.CacheState.{extents_in};
ghost use Rattle.iol_cache.specs.Cache.{cached_of, holding};
ghost use Rattle.iol_cache.specs.FileReads.{FillsPinnedPart, MayFillPart, MayReadFile, ServesRead, ReportsLength};
ghost use Rattle.iol_cache.specs.ReadResults.{IsEnd};

mod fill;
mod gaps;
mod hits;
mod load;
mod weave;

use crate::cache::Cache;
use crate::files::FilePart;
use crate::read::hits::count_pages;
use iol_agg::Agg;
use iol_back::backing::Backing;
use iol_core::limits::MAX_FILE_BYTES;
use iol_core::numbers::FileId;
use iol_core::refusals::Refusal;
use iol_extent::spans::Span;
use iol_hold::Store;
use std::alloc::Global;

impl Cache {
    // Makes room for the gaps of a range, reads them, and assembles the range from them and from
    // `pins`, the shared bytes outside the gaps. Releases `pins` in each case.
    fn fill_pinned<B: Backing>(
        &mut self,
        alloc: Global,
        store: &mut Store,
        backing: &mut B,
        part: &FilePart,
        pins: Agg,
        gaps: &[Span],
    ) -> Result<Agg, Refusal>
        requires { MayFillPart part.now gaps.now pins (holding store.old self.old) }
        ensures { FillsPinnedPart part.now pins gaps.now (B.disk backing.old) (B.disk backing.new)
            store.old self.old store.new self.new result }
    {
        let place = part.file.number() as usize - 1;
        let pool = self.files[place].pool;
        if !self.make_room(store, pool, count_pages(gaps)) {
            pins.release(store);
            return Err(Refusal::NoRoom { pool });
        }
        let filled = self.fill(alloc, store, backing, part, &pins, gaps);
        pins.release(store);
        filled
    }

    // The end of a file: the length that the store reports or the end of the last extent, whichever
    // is greater.
    fn file_end<B: Backing>(&self, backing: &B, file: FileId) -> u32
        requires file { is_numbered self.now.files.items file ≡ true }
        requires short { last_end (extents_in self.now.files.items file) ≤ MAX_FILE_BYTES }
        ensures { IsEnd (B.disk backing.now) (cached_of self.now) file result }
    {
        let stored = backing.length(file).min(MAX_FILE_BYTES as u32);
        let place = file.number() as usize - 1;
        stored.max(self.files[place].extents.end())
    }

    /// The length of a file in bytes. If the store is not honest, the place where a read of the
    /// file would end now.
    pub fn file_length<B: Backing>(&self, backing: &B, file: FileId) -> u32
        requires file { is_numbered (cached_of self.now).files file ≡ true }
        requires short { last_end (extents_in (cached_of self.now).files file) ≤ MAX_FILE_BYTES }
        ensures { ReportsLength (B.disk backing.now) (cached_of self.now) file result }
    {
        self.file_end(backing, file)
    }

    /// Reads at most `count` bytes of a file from byte `at`, up to the end of the file.
    ///
    /// The bytes in memory are shared. Room is made for the others, which are read into clean
    /// extents: all of them, or none. If no byte is missing, the read needs no room and does not
    /// use the store.
    ///
    /// Errors: `NoRoom`, only if the pinned pages and the pages for the missing bytes do not fit
    /// the file's pool; `Fault`, only if the store fails; `Memory`. If the pages do not fit, the
    /// error is `NoRoom` or `Memory`. An error leaves no new extent. It may leave hits that were
    /// counted and, if the pages fit, evictions.
    pub fn read<B: Backing>(
        &mut self,
        alloc: Global,
        store: &mut Store,
        backing: &mut B,
        file: FileId,
        at: u32,
        count: u32,
    ) -> Result<Agg, Refusal>
        requires { MayReadFile file (holding store.old self.old) }
        ensures { ServesRead file at count (B.disk backing.old) store.old self.old result
            (B.disk backing.new) store.new self.new }
    {
        let end = self.file_end(backing, file);
        let from = at.min(end);
        let to = from + count.min(end - from);
        let part = FilePart { file, from, to };
        let (pins, gaps) = self.pin(alloc, store, &part)?;
        if gaps.as_slice().is_empty() {
            return Ok(pins);
        }
        self.fill_pinned(alloc, store, backing, &part, pins, &gaps)
    }
}
