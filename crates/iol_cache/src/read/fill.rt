//! Reading of the gaps of a range, and the range after it.
ghost use Rattle.iol_cache.specs.RangeReads.{FillsAll, MayFillRange};

use crate::files::{CachedFile, FilePart};
use crate::read::gaps::{fill_gaps, take_back};
use crate::read::weave::weave;
use iol_agg::Agg;
use iol_back::backing::Backing;
use iol_core::refusals::Refusal;
use iol_extent::spans::Span;
use iol_hold::Store;
use std::alloc::Global;

/// Reads the gaps of a range into clean extents, all or none, and assembles the range from them and from `beside`, the
/// shared bytes outside the gaps.
pub(crate) fn fill_range<B: Backing>(
    alloc: Global,
    store: &mut Store,
    backing: &mut B,
    cached: &mut CachedFile,
    part: &FilePart,
    beside: &Agg,
    gaps: &[Span],
) -> Result<Agg, Refusal>
    requires { MayFillRange store.old cached.old part.now.from part.now.to gaps.now beside.now }
    ensures { FillsAll part.now gaps.now beside.now (B.disk backing.old) (B.disk backing.new)
        store.old store.new cached.old cached.new result }
{
    if let Err(refusal) = fill_gaps(
        alloc,
        store,
        backing,
        &mut cached.extents,
        part.file,
        cached.pool,
        gaps,
    ) {
        return Err(refusal);
    }
    let Ok(agg) = weave(
        alloc,
        &cached.extents,
        store,
        beside,
        gaps,
        part.from,
        part.to,
    ) else {
        take_back(&mut cached.extents, store, gaps);
        return Err(Refusal::Memory);
    };
    Ok(agg)
}
