//! Bytes of a file, shared from the extents over them.
ghost use Rattle.iol_cache.specs.SharedBytes.{MayShare, SharesOver};

use iol_agg::Agg;
use iol_extent::extents::Extents;
use iol_hold::Store;
use std::alloc::AllocError;

/// Adds the bytes of a range that extents cover, one slice for each slice that has a byte of it. On an error, releases all
/// slices, also those of `so_far`.
pub(crate) fn share_over(
    extents: &Extents,
    store: &mut Store,
    so_far: Agg,
    from: u32,
    to: u32,
) -> Result<Agg, AllocError>
    requires { MayShare store.old extents.now.extents so_far from to }
    ensures { SharesOver extents.now.extents so_far from to store.old store.new result }
{
    let mut shared = so_far;
    let mut at = from;
    while at < to {
        let Some((begin, agg, _dirty)) = extents.over(at) else {
            unreachable!();
        };
        let skip = at - begin;
        let count = (to - at).min(agg.len() - skip);
        if let Err(refused) = shared.add_range(store, agg, skip, skip + count) {
            shared.release(store);
            return Err(refused);
        }
        at += count;
    }
    Ok(shared)
}
