//! Gaps that become clean extents.
ghost use Rattle.std.specs.Prelude.{◌-◌, IfOk};
ghost use Rattle.iol_cache.specs.Gaps.{AllBegin, FillsGapsOrKeeps, HasGaps, LoadsSlices, TakesBack, parts_back};
ghost use Rattle.iol_cache.specs.Loads.{Asks, LoadsOrKeeps, MayLoad};
ghost use Rattle.iol_hold.specs.Prelude.{Covers, bufs_of};

use crate::read::load::load;
use iol_agg::Agg;
use iol_back::backing::Backing;
use iol_core::limits::PAGE_BYTES;
use iol_core::numbers::{FileId, PoolId};
use iol_core::refusals::Refusal;
use iol_extent::extents::Extents;
use iol_extent::spans::Span;
use iol_hold::Store;
use std::alloc::Global;

// The bytes of a gap, as an aggregate.
fn gap_agg<B: Backing>(
    alloc: Global,
    store: &mut Store,
    backing: &mut B,
    file: FileId,
    pool: PoolId,
    gap: Span,
) -> Result<Agg, Refusal>
    requires { MayLoad store.old pool gap.from (gap.to - gap.from) }
    ensures loads { IfOk result
        (LoadsSlices pool file gap (B.disk backing.old) store.old store.new) }
    ensures keeps { LoadsOrKeeps pool (gap.to - gap.from) file store.old store.new result }
    ensures asks { Asks 1 (B.disk backing.old) (B.disk backing.new) result }
{
    let n = gap.to - gap.from;
    let Ok(slices) = Vec::with_capacity(alloc, (n as usize).div_ceil(PAGE_BYTES)) else {
        return Err(Refusal::Memory);
    };
    let holds = match load(alloc, store, backing, file, pool, gap.from, n) {
        Ok(holds) => holds,
        Err(refusal) => return Err(refusal),
    };
    Ok(Agg::of_holds(slices, store, holds))
}

/// Removes the extents that begin where these spans begin, the last first, and releases them.
pub(crate) fn take_back(extents: &mut Extents, store: &mut Store, spans: &[Span])
    requires begin { AllBegin extents.old.extents spans.now }
    requires covered { Covers store.old (bufs_of (parts_back extents.old.extents spans.now)) }
    ensures { TakesBack store.old store.new extents.old extents.new spans.now }
{
    let mut left = spans.len();
    while left > 0 {
        left -= 1;
        let agg = extents.remove(spans[left].from);
        agg.release(store);
    }
}

/// Reads the gaps of a file into new buffers of its pool, in order. Each becomes a clean extent, or, on an error, none.
pub(crate) fn fill_gaps<B: Backing>(
    alloc: Global,
    store: &mut Store,
    backing: &mut B,
    extents: &mut Extents,
    file: FileId,
    pool: PoolId,
    gaps: &[Span],
) -> Result<(), Refusal>
    requires { HasGaps store.old extents.old pool 0 u32.MAX gaps.now }
    ensures { FillsGapsOrKeeps pool file gaps.now (B.disk backing.old) (B.disk backing.new)
        store.old store.new extents.old extents.new result }
{
    for i in 0..gaps.len() {
        let gap = gaps[i];
        let agg = match gap_agg(alloc, store, backing, file, pool, gap) {
            Ok(agg) => agg,
            Err(refusal) => {
                take_back(extents, store, &gaps[..i]);
                return Err(refusal);
            }
        };
        extents.put(gap.from, agg, false);
    }
    Ok(())
}
