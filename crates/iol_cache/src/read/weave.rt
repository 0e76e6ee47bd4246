//! Assembling of a range of a file from the bytes shared before its gaps were read, and from the gaps.
ghost use Rattle.std.specs.Prelude.{◌≡◌, [], IfOk};
ghost use Rattle.iol_hold.specs.Prelude.{places};
ghost use Rattle.iol_cache.specs.SharedBytes.{SharesOrReleases};
ghost use Rattle.iol_cache.specs.Weave.{AddsPart, HasPart, HasSlicesBeside, HasSlicesWoven, IsWoven, MayAddPart, MayShareBeside, MayWeave, places_beside};

use crate::share::share_over;
use iol_agg::Agg;
use iol_extent::extents::Extents;
use iol_extent::spans::Span;
use iol_hold::Store;
use std::alloc::{AllocError, Global};

/// Shares the bytes of a range outside its gaps.
pub(crate) fn share_beside(
    alloc: Global,
    extents: &Extents,
    store: &mut Store,
    gaps: &[Span],
    from: u32,
    to: u32,
) -> Result<Agg, AllocError>
    requires { MayShareBeside store.old extents.now.extents from to gaps.now }
    ensures places { IfOk result (λ a. places a ≡ places_beside extents.now.extents from to gaps.now) }
    ensures parts { IfOk result (HasSlicesBeside extents.now.extents from to gaps.now) }
    ensures shared { SharesOrReleases [] (λ a. a) store.old store.new result }
{
    let mut shared = Agg::new(alloc);
    let mut at = from;
    for gap in gaps {
        shared = match share_over(extents, store, shared, at, gap.from) {
            Ok(more) => more,
            Err(refused) => return Err(refused),
        };
        at = gap.to;
    }
    match share_over(extents, store, shared, at, to) {
        Ok(all) => Ok(all),
        Err(refused) => Err(refused),
    }
}

// Adds the bytes `from..to` of another aggregate. On an error, releases all slices.
fn add_part(
    store: &mut Store,
    so_far: Agg,
    other: &Agg,
    from: u32,
    to: u32,
) -> Result<Agg, AllocError>
    requires { MayAddPart store.old so_far other.now from to }
    ensures places { IfOk result (HasPart so_far other.now from to) }
    ensures parts { IfOk result (AddsPart so_far other.now from to) }
    ensures shared { SharesOrReleases so_far (λ a. a) store.old store.new result }
{
    let mut shared = so_far;
    match shared.add_range(store, other, from, to) {
        Ok(()) => Ok(shared),
        Err(refused) => {
            shared.release(store);
            Err(refused)
        }
    }
}

/// Assembles a range from `beside`, the shared bytes outside its gaps, and from the extents over the gaps.
pub(crate) fn weave(
    alloc: Global,
    extents: &Extents,
    store: &mut Store,
    beside: &Agg,
    gaps: &[Span],
    from: u32,
    to: u32,
) -> Result<Agg, AllocError>
    requires { MayWeave store.old extents.now.extents from to gaps.now beside.now }
    ensures places { IfOk result (IsWoven beside.now extents.now.extents from to gaps.now) }
    ensures parts { IfOk result (HasSlicesWoven beside.now extents.now.extents from to gaps.now) }
    ensures shared { SharesOrReleases [] (λ a. a) store.old store.new result }
{
    let mut shared = Agg::new(alloc);
    let mut at = from;
    let mut used = 0;
    for gap in gaps {
        let next = used + (gap.from - at);
        shared = match add_part(store, shared, beside, used, next) {
            Ok(more) => more,
            Err(refused) => return Err(refused),
        };
        shared = match share_over(extents, store, shared, gap.from, gap.to) {
            Ok(more) => more,
            Err(refused) => return Err(refused),
        };
        used = next;
        at = gap.to;
    }
    let end = used + (to - at);
    match add_part(store, shared, beside, used, end) {
        Ok(all) => Ok(all),
        Err(refused) => Err(refused),
    }
}
