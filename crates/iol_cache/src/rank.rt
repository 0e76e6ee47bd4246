//! Extents of a file in the order of its pool: hits that are counted, and entries that are inserted.
ghost use Rattle.std.specs.Prelude.{◌≡◌};
ghost use Rattle.iol_extent.specs.Prelude.{IsApart};
ghost use Rattle.iol_cache.specs.Entries.{Enters, EntersAll, MayEnter, MayEnterAll};
ghost use Rattle.iol_cache.specs.RangeReads.{RanksFile, hits_counted};

use crate::marks::CleanHolds;
use iol_core::numbers::FileId;
use iol_evict::order::Order;
use iol_extent::extents::Extents;
use iol_extent::spans::Span;

/// Counts a hit on the extent over the first byte of each span, if that extent is clean.
pub(crate) fn count_hits(order: &mut Order, extents: &Extents, file: FileId, hits: &[Span])
    requires apart { IsApart 0 extents.now.extents }
    requires ranked { RanksFile order.old file extents.now.extents }
    ensures { order.new ≡ hits_counted order.old file extents.now.extents hits.now }
{
    for hit in hits {
        if let Some((start, _, dirty)) = extents.over(hit.from) {
            if !dirty {
                order.hit(file, start);
            }
        }
    }
}

/// Marks the extent that begins at byte `at`, and inserts it into the order.
pub(crate) fn enter_one(
    order: &mut Order,
    marks: &mut CleanHolds,
    extents: &Extents,
    file: FileId,
    at: u32,
)
    requires { MayEnter file at extents.now.extents order.old marks.old }
    ensures { Enters file at extents.now.extents order.old order.new marks.old marks.new }
{
    let Some((_, agg, _)) = extents.over(at) else {
        return;
    };
    marks.set_clean(agg.slices(), true);
    order.enter(file, at, agg.len(), 1);
}

/// Marks the extents that begin where the spans begin, and inserts them into the order.
pub(crate) fn enter_all(
    order: &mut Order,
    marks: &mut CleanHolds,
    extents: &Extents,
    file: FileId,
    spans: &[Span],
)
    requires { MayEnterAll file extents.now.extents spans.now order.old marks.old }
    ensures { EntersAll file extents.now.extents spans.now order.old order.new marks.old marks.new }
{
    for span in spans {
        enter_one(order, marks, extents, file, span.from);
    }
}
