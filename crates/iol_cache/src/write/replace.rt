//! Replacing of a range of a file: the extents that it meets are removed, and their parts outside the range and the new bytes
//! are inserted. Allocates no memory.
ghost use Rattle.std.specs.Prelude.{IsSome};
ghost use Rattle.iol_cache.specs.Replacement.{ClearsRange, Forgets, MayCome, MayForget, MayGo, PutsIn, TakesOut, indexing_of};
ghost use Rattle.iol_cache.specs.Writes.{MayReplace, Replaces};
ghost use Rattle.iol_extent.specs.Prelude.{begins_at};

use crate::marks::CleanHolds;
use crate::write::cut::{Edge, Replacement};
use iol_core::numbers::FileId;
use iol_evict::order::Order;
use iol_extent::extents::Extents;
use iol_extent::spans::Span;
use iol_hold::Store;

// Prepares the removal of the extent that begins at byte `at`. If it is clean, removes its entry from the order and its marks.
// If it is dirty, gives back the room in the order kept for it.
fn forget(order: &mut Order, marks: &mut CleanHolds, extents: &Extents, file: FileId, at: u32)
    requires { MayForget file at (indexing_of extents.now order.old marks.old) }
    ensures { Forgets file at extents.now.extents order.old order.new marks.old marks.new }
{
    let Some((_begin, agg, dirty)) = extents.over(at) else {
        return;
    };
    if dirty {
        order.give_back();
        return;
    }
    marks.set_clean(agg.slices(), false);
    order.leave(file, at);
}

// Removes the extent that begins at byte `at`.
fn take_out(
    order: &mut Order,
    marks: &mut CleanHolds,
    extents: &mut Extents,
    store: &mut Store,
    file: FileId,
    at: u32,
)
    requires begins { IsSome (begins_at extents.old.extents at) }
    requires may { MayGo file store.old (indexing_of extents.old order.old marks.old) }
    ensures { TakesOut file at store.old store.new extents.old extents.new order.old order.new
        marks.old marks.new }
{
    forget(order, marks, extents, file, at);
    let agg = extents.remove(at);
    agg.release(store);
}

// Removes all extents that have bytes of a range.
fn clear_range(
    order: &mut Order,
    marks: &mut CleanHolds,
    extents: &mut Extents,
    store: &mut Store,
    file: FileId,
    from: u32,
    to: u32,
)
    requires { MayGo file store.old (indexing_of extents.old order.old marks.old) }
    ensures { ClearsRange file from to store.old store.new extents.old extents.new order.old
        order.new marks.old marks.new }
{
    while let Some(at) = extents.first_met(from, to) {
        take_out(order, marks, extents, store, file, at);
    }
}

/// Inserts a part of a file, if it has a byte.
pub(crate) fn put_edge(
    order: &mut Order,
    marks: &mut CleanHolds,
    extents: &mut Extents,
    file: FileId,
    edge: Edge,
)
    requires { MayCome file edge (indexing_of extents.old order.old marks.old) }
    ensures { PutsIn file edge extents.old extents.new order.old order.new marks.old marks.new }
{
    let Edge { at, agg, dirty } = edge;
    if agg.is_empty() {
        return;
    }
    if dirty {
        order.keep();
        extents.put(at, agg, true);
        return;
    }
    marks.set_clean(agg.slices(), true);
    order.enter(file, at, agg.len(), 1);
    extents.put(at, agg, false);
}

/// Replaces the bytes of a range of a file. Removes the extents that it meets, and inserts their parts on both sides and the
/// new extent, in room reserved for them.
pub(crate) fn replace_range(
    order: &mut Order,
    marks: &mut CleanHolds,
    extents: &mut Extents,
    store: &mut Store,
    file: FileId,
    range: Span,
    put: Replacement,
)
    requires { MayReplace file range put store.old (indexing_of extents.old order.old marks.old) }
    ensures { Replaces file range put store.old store.new extents.old extents.new order.old
        order.new marks.old marks.new }
{
    clear_range(order, marks, extents, store, file, range.from, range.to);
    put_edge(order, marks, extents, file, put.left);
    put_edge(order, marks, extents, file, put.right);
    put_edge(order, marks, extents, file, put.bytes);
}
