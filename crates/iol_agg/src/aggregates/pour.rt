//! Slices of a range of bytes, added to a list.
ghost use Rattle.std.specs.Vec.{vec_len, vec_capacity};
ghost use Rattle.iol_hold.specs.Prelude.{bufs_of};
ghost use Rattle.iol_agg.specs.Pours.{AreShareable, FitsRange, PoursRange};

use super::join::place_of;
use iol_hold::{Slice, Store};

// Adds the bytes of a range, with a further hold for each slice. Slices before the range are skipped by their lengths.
pub(super) fn pour(slices: &[Slice], out: &mut Vec<Slice>, store: &mut Store, from: u32, to: u32)
    requires held { AreShareable store.old (bufs_of slices.now) }
    requires fits { FitsRange slices.now from to (vec_len out.old) (vec_capacity out.old) }
    ensures { PoursRange store.old store.new out.old out.new slices.now from to }
{
    let (whole, rest) = place_of(slices, from);
    let later = &slices[whole..];
    let mut skip = rest;
    let mut left = to - from;
    for slice in later {
        if left == 0 {
            return;
        }
        let taken = left.min(slice.len - skip);
        out.push_reserved(slice.share(store).cut(skip, skip + taken));
        left -= taken;
        skip = 0;
    }
}
