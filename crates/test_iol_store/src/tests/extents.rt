//! Extents: the contents of a range after one is added, and after it is removed.
ghost use Rattle.std.specs.Prelude.{◌≡◌, ◌<◌, []};
ghost use Rattle.iol_hold.specs.Prelude.{byte_len};

use super::stores::{add_pool, filled, new_store};
use iol_agg::Agg;
use iol_core::configuration::Config;
use iol_core::numbers::DomainId;
use iol_extent::extents::Extents;
use iol_extent::spans::Span;
use iol_hold::Store;
use std::alloc::Global;
use std::process::Abort;
use std::test::Fail;
use test_parts::checks::pass_if;

const ONE_CHUNK: Config = Config {
    chunks: 1,
    gen_limit: u32::MAX,
    sums: 1,
};

// Five bytes.
fn fill_five<R: Abort>(rt: &R, alloc: Global, store: &mut Store) -> Agg
    ensures { byte_len result ≡ 5 }
{
    let pool = add_pool(rt, alloc, store, 1, &[DomainId::new(1)]);
    let agg = filled(rt, alloc, store, pool, b"hello");
    assert!(rt; agg.len() == 5);
    agg
}

// No extents, and room for one.
fn room_for_one<R: Abort>(rt: &R, alloc: Global) -> Extents
    ensures none { result.extents ≡ [] }
    ensures room { 0 < result.room }
{
    let mut extents = Extents::new(alloc);
    extents.reserve(1).expect(rt, "memory");
    extents
}

// The parts of a range that are present, with five bytes at 4, and those that are not.
fn is_found<R: Abort>(rt: &R, alloc: Global, extents: &Extents) -> bool {
    let found = extents.find(alloc, 0, 16).expect(rt, "memory");
    let gaps = [Span { from: 0, to: 4 }, Span { from: 9, to: 16 }];
    found.hits.as_slice() == [Span { from: 4, to: 9 }].as_slice()
        && found.gaps.as_slice() == gaps.as_slice()
}

// Returns whether there are five dirty bytes at 4, and none over 3.
fn lies_at_four(extents: &Extents) -> bool {
    let Some((at, agg, dirty)) = extents.over(8) else {
        return false;
    };
    at == 4 && agg.len() == 5 && dirty && extents.over(3).is_none()
}

// Five dirty bytes are added at 4, and removed.
fn comes_and_goes<R: Abort>(rt: &R, alloc: Global, extents: &mut Extents, agg: Agg) -> bool
    requires none { extents.old.extents ≡ [] }
    requires room { 0 < extents.old.room }
    requires five { byte_len agg ≡ 5 }
{
    extents.put(4, agg, true);
    let is_there = is_found(rt, alloc, extents) && lies_at_four(extents);
    let agg = extents.remove(4);
    is_there && agg.len() == 5 && extents.over(4).is_none()
}

// Five bytes of a store that was dropped.
fn five<R: Abort>(rt: &R, alloc: Global) -> Agg
    ensures { byte_len result ≡ 5 }
{
    let mut store = new_store(rt, alloc, ONE_CHUNK);
    let agg = fill_five(rt, alloc, &mut store);
    drop(store);
    agg
}

fn all_hold<R: Abort>(rt: &R, alloc: Global) -> bool {
    let agg = five(rt, alloc);
    let mut extents = room_for_one(rt, alloc);
    let all = comes_and_goes(rt, alloc, &mut extents, agg);
    drop(extents);
    all
}

#[test]
fn ample(rt: HostRuntime) -> Result<(), Fail> {
    pass_if(all_hold(&rt, rt.alloc()))
}
