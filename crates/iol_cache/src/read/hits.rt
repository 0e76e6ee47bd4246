//! The hits and the gaps of a range.
ghost use Rattle.std.specs.Prelude.{◌≡◌};
ghost use Rattle.iol_extent.specs.Prelude.{AreInOrder};
ghost use Rattle.iol_cache.specs.Cache.{holding};
ghost use Rattle.iol_cache.specs.FileReads.{FillsPart, MayFillPart};
ghost use Rattle.iol_cache.specs.Gaps.{gap_pages};
ghost use Rattle.iol_cache.specs.Ranges.{MayRead, SharesHits};

use crate::cache::Cache;
use crate::files::FilePart;
use crate::rank::{count_hits, enter_all};
use crate::read::fill::fill_range;
use crate::read::weave::share_beside;
use iol_agg::Agg;
use iol_back::backing::Backing;
use iol_core::limits::PAGE_BYTES;
use iol_core::refusals::Refusal;
use iol_extent::spans::Span;
use iol_hold::Store;
use std::alloc::{AllocError, Global};

/// The number of pages that gaps need.
pub(crate) fn count_pages(gaps: &[Span]) -> u32
    requires { AreInOrder 0 u32.MAX gaps.now }
    ensures { result ≡ gap_pages gaps.now }
{
    let mut pages = 0;
    for gap in gaps {
        pages += (gap.to - gap.from).div_ceil(PAGE_BYTES as u32);
    }
    pages
}

impl Cache {
    // Reads the gaps of a range, and assembles the range: all or nothing.
    pub(crate) fn fill<B: Backing>(
        &mut self,
        alloc: Global,
        store: &mut Store,
        backing: &mut B,
        part: &FilePart,
        beside: &Agg,
        gaps: &[Span],
    ) -> Result<Agg, Refusal>
        requires { MayFillPart part.now gaps.now beside.now (holding store.old self.old) }
        ensures { FillsPart part.now gaps.now beside.now (B.disk backing.old) (B.disk backing.new)
            store.old self.old store.new self.new result }
    {
        let place = part.file.number() as usize - 1;
        let pool = self.files[place].pool;
        let agg = match fill_range(
            alloc,
            store,
            backing,
            &mut self.files[place],
            part,
            beside,
            gaps,
        ) {
            Ok(agg) => agg,
            Err(refusal) => return Err(refusal),
        };
        enter_all(
            &mut self.orders[pool.number() as usize - 1],
            &mut self.marks,
            &self.files[place].extents,
            part.file,
            gaps,
        );
        Ok(agg)
    }

    // Shares the bytes of a range that are in memory, counts the hits, and reserves room for its gaps in the file and in the
    // order. Returns the shared bytes and the gaps.
    pub(crate) fn pin(
        &mut self,
        alloc: Global,
        store: &mut Store,
        part: &FilePart,
    ) -> Result<(Agg, Vec<Span>), AllocError>
        requires { MayRead part.now.file part.now.from part.now.to (holding store.old self.old) }
        ensures { SharesHits part.now (holding store.old self.old) (holding store.new self.new)
            result }
    {
        let place = part.file.number() as usize - 1;
        let found = self.files[place].extents.find(alloc, part.from, part.to)?;
        self.reserve_places(part.file, found.gaps.len())?;
        let cached = &self.files[place];
        let pins = share_beside(
            alloc,
            &cached.extents,
            store,
            &found.gaps,
            part.from,
            part.to,
        )?;
        count_hits(
            &mut self.orders[cached.pool.number() as usize - 1],
            &cached.extents,
            part.file,
            &found.hits,
        );
        Ok((pins, found.gaps))
    }
}
