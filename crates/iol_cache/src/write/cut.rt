//! The parts of extents on both sides of the range of a write.
ghost use Rattle.std.specs.Prelude.{◌<◌};
ghost use Rattle.iol_cache.specs.Cuts.{CutsLeft, CutsRight, MayCut, SharesPart};

use iol_agg::Agg;
use iol_extent::extents::Extents;
use iol_hold::Store;
use std::alloc::{AllocError, Global};
use std::marker::Model;

/// A part of an extent, which may be empty.
#[derive(Drop)]
pub(crate) struct Edge {
    pub(crate) at: u32,
    pub(crate) agg: Agg,
    pub(crate) dirty: bool,
}

impl Model for Edge {
    ghost use Rattle.iol_extent.specs.Prelude.{Extent};

    ghost Value = { Extent };

    ghost view = { λ e. record { at = e.at; parts = e.agg; dirty = e.dirty } };
}

/// The replacement of a range: the parts of extents on both sides of it, and its bytes.
#[derive(Drop)]
pub(crate) struct Replacement {
    pub(crate) left: Edge,
    pub(crate) right: Edge,
    pub(crate) bytes: Edge,
}

/// Shares the bytes before `from` of the extent over byte `from`.
pub(crate) fn cut_left(
    alloc: Global,
    extents: &Extents,
    store: &mut Store,
    from: u32,
) -> Result<Edge, AllocError>
    requires { MayCut store.old extents.now.extents }
    ensures { SharesPart (CutsLeft extents.now.extents from) store.old store.new result }
{
    let Some((begin, agg, dirty)) = extents.over(from) else {
        return Ok(Edge {
            at: from,
            agg: Agg::new(alloc),
            dirty: false,
        });
    };
    let agg = match agg.cut(alloc, store, 0, from - begin) {
        Ok(agg) => agg,
        Err(refused) => return Err(refused),
    };
    Ok(Edge {
        at: begin,
        agg,
        dirty,
    })
}

/// Shares the bytes from `to` on of the extent over the byte before `to`.
pub(crate) fn cut_right(
    alloc: Global,
    extents: &Extents,
    store: &mut Store,
    to: u32,
) -> Result<Edge, AllocError>
    requires some { 0 < to }
    requires may { MayCut store.old extents.now.extents }
    ensures { SharesPart (CutsRight extents.now.extents to) store.old store.new result }
{
    let Some((begin, agg, dirty)) = extents.over(to - 1) else {
        return Ok(Edge {
            at: to,
            agg: Agg::new(alloc),
            dirty: false,
        });
    };
    let agg = match agg.cut(alloc, store, to - begin, agg.len()) {
        Ok(agg) => agg,
        Err(refused) => return Err(refused),
    };
    Ok(Edge { at: to, agg, dirty })
}
