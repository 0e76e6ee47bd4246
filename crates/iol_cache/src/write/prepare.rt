//! The replacement of a range by a write: its bytes in the file's pool, and the parts of extents on both sides.
ghost use Rattle.iol_cache.specs.Preparation.{MayPrepare, PreparesOrReleases};

use crate::write::copies::compose;
use crate::write::cut::{Edge, Replacement, cut_left, cut_right};
use iol_agg::Agg;
use iol_core::numbers::PoolId;
use iol_core::refusals::Refusal;
use iol_extent::extents::Extents;
use iol_hold::Store;
use std::alloc::Global;

/// The parts of extents on the left and on the right of the range that a write replaces, and its bytes. On an error, all
/// of them are released.
pub(crate) fn prepare(
    alloc: Global,
    store: &mut Store,
    extents: &Extents,
    pool: PoolId,
    at: u32,
    source: &Agg,
) -> Result<Replacement, Refusal>
    requires { MayPrepare store.old pool extents.now.extents at source.now }
    ensures { PreparesOrReleases store.old store.new pool extents.now.extents at source.now result }
{
    let agg = match compose(alloc, store, pool, source) {
        Ok(agg) => agg,
        Err(refusal) => return Err(refusal),
    };
    let Ok(left) = cut_left(alloc, extents, store, at) else {
        agg.release(store);
        return Err(Refusal::Memory);
    };
    let Ok(right) = cut_right(alloc, extents, store, at + source.len()) else {
        left.agg.release(store);
        agg.release(store);
        return Err(Refusal::Memory);
    };
    let bytes = Edge {
        at,
        agg,
        dirty: true,
    };
    Ok(Replacement { left, right, bytes })
}
