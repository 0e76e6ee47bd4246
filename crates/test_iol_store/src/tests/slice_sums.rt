//! Sums of slices: the ones that are remembered, and their bytes.
ghost use Rattle.std.specs.Prelude.{◌<◌};
ghost use Rattle.iol_hold.specs.Prelude.{AllReadable};
ghost use Rattle.iol_sum.specs.Prelude.{IsRight};

use super::stores::{add_pool, filled, new_store};
use iol_agg::Agg;
use iol_core::configuration::Config;
use iol_core::numbers::{DomainId, PoolId};
use iol_hold::Store;
use iol_sum::{SumCache, sum_of};
use std::alloc::Global;
use std::process::Abort;
use std::test::Fail;
use test_parts::checks::pass_if;

const ABC: u16 = 0xc462;

const ABD: u16 = 0xc562;

// A store of one chunk, and a pool that has it.
fn start<R: Abort>(rt: &R, alloc: Global, gen_limit: u32) -> (Store, PoolId) {
    let config = Config {
        chunks: 1,
        gen_limit,
        sums: 1,
    };
    let mut store = new_store(rt, alloc, config);
    let pool = add_pool(rt, alloc, &mut store, 1, &[DomainId::new(1)]);
    (store, pool)
}

// Two slices, of "abc" and of "abd".
fn two_slices<R: Abort>(rt: &R, alloc: Global, store: &mut Store, pool: PoolId) -> Agg
    ensures { AllReadable store.new result }
{
    let first = filled(rt, alloc, store, pool, b"abc");
    let second = filled(rt, alloc, store, pool, b"abd");
    assert!(rt; first.len() == 3 && second.len() == 3);
    first.join(second).expect(rt, "memory")
}

// A table for `limit` sums.
fn cache<R: Abort>(rt: &R, alloc: Global, store: &Store, limit: u32) -> SumCache
    requires { 0 < limit }
    ensures { IsRight store.now.arena result }
{
    // A new table is valid for any store.
    let _store = store;
    SumCache::new(alloc, limit).expect(rt, "memory")
}

// The sum of the slice at that index.
fn sum_at<R: Abort>(rt: &R, sums: &mut SumCache, store: &Store, agg: &Agg, at: usize) -> u16
    requires readable { AllReadable store.now agg.now }
    requires right { IsRight store.now.arena sums.old }
    ensures { IsRight store.now.arena sums.new }
{
    let slices = agg.slices();
    assert!(rt; at < slices.len());
    sums.sum(store, &slices[at])
}

// The remembered sum of the slice at that index.
fn known_at<R: Abort>(rt: &R, sums: &SumCache, store: &Store, agg: &Agg, at: usize) -> Option<u16>
    requires readable { AllReadable store.now agg.now }
    requires right { IsRight store.now.arena sums.now }
{
    let slices = agg.slices();
    assert!(rt; at < slices.len());
    sums.remembered(store, &slices[at])
}

// Looks up new bytes at once, and then computes their sum. The bytes are dropped again.
fn round<R: Abort>(
    rt: &R,
    alloc: Global,
    store: &mut Store,
    pool: PoolId,
    sums: &mut SumCache,
    text: &[u8],
) -> (Option<u16>, u16)
    requires { IsRight store.old.arena sums.old }
    ensures { IsRight store.new.arena sums.new }
{
    let agg = filled(rt, alloc, store, pool, text);
    let known = known_at(rt, sums, store, &agg, 0);
    let sum = sum_at(rt, sums, store, &agg, 0);
    agg.release(store);
    (known, sum)
}

// A table of one sum: a further sum evicts the first one.
fn first_goes<R: Abort>(rt: &R, sums: &mut SumCache, store: &Store, agg: &Agg) -> bool
    requires readable { AllReadable store.now agg.now }
    requires right { IsRight store.now.arena sums.old }
{
    let one = sum_at(rt, sums, store, agg, 0);
    let two = sum_at(rt, sums, store, agg, 1);
    let gone = known_at(rt, sums, store, agg, 0);
    let stays = known_at(rt, sums, store, agg, 1);
    let again = sum_at(rt, sums, store, agg, 0);
    let comes = known_at(rt, sums, store, agg, 0);
    [one, two, again] == [ABC, ABD, ABC] && [gone, stays, comes] == [None, Some(ABD), Some(ABC)]
}

// Room for both sums. The second slice begins at an odd position.
fn both_stay<R: Abort>(rt: &R, sums: &mut SumCache, store: &Store, agg: &Agg) -> bool
    requires readable { AllReadable store.now agg.now }
    requires right { IsRight store.now.arena sums.old }
{
    let whole = sums.sum_all(store, agg.slices());
    let known = [
        known_at(rt, sums, store, agg, 0),
        known_at(rt, sums, store, agg, 1),
    ];
    whole == sum_of(b"abcabd") && known == [Some(ABC), Some(ABD)]
}

// Room for one sum, and for the maximum number of a configuration.
fn remembers_what_fits<R: Abort>(rt: &R, alloc: Global) -> bool {
    let (mut store, pool) = start(rt, alloc, u32::MAX);
    let agg = two_slices(rt, alloc, &mut store, pool);
    let mut one = cache(rt, alloc, &store, 1);
    let mut many = cache(rt, alloc, &store, 65_536);
    let all = first_goes(rt, &mut one, &store, &agg) && both_stay(rt, &mut many, &store, &agg);
    drop((store, agg, one, many));
    all
}

#[test]
fn one_sum_or_both_remembered(rt: HostRuntime) -> Result<(), Fail> {
    pass_if(remembers_what_fits(&rt, rt.alloc()))
}

// Room for eight sums, and each sum that needs room there.
fn all_answer<R: Abort>(rt: &R, alloc: Global) -> bool {
    let (mut store, pool) = start(rt, alloc, u32::MAX);
    let agg = two_slices(rt, alloc, &mut store, pool);
    let mut sums = cache(rt, alloc, &store, 8);
    let first = sum_at(rt, &mut sums, &store, &agg, 0);
    let both = both_stay(rt, &mut sums, &store, &agg);
    drop((store, agg, sums));
    first == ABC && both
}

#[test]
fn ample(rt: HostRuntime) -> Result<(), Fail> {
    pass_if(all_answer(&rt, rt.alloc()))
}

// Other bytes, on the same page if it has a further generation: no sum of them is remembered.
fn recycles<R: Abort>(rt: &R, alloc: Global, gen_limit: u32) -> bool {
    let (mut store, pool) = start(rt, alloc, gen_limit);
    let mut sums = cache(rt, alloc, &store, 8);
    let first = round(rt, alloc, &mut store, pool, &mut sums, b"abc");
    let second = round(rt, alloc, &mut store, pool, &mut sums, b"abd");
    drop((store, sums));
    first == (None, ABC) && second == (None, ABD)
}

fn both_recycle<R: Abort>(rt: &R, alloc: Global) -> bool {
    recycles(rt, alloc, u32::MAX) && recycles(rt, alloc, 1)
}

#[test]
fn segments_of_recycled_pages(rt: HostRuntime) -> Result<(), Fail> {
    pass_if(both_recycle(&rt, rt.alloc()))
}
