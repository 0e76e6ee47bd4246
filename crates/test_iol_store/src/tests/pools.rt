//! Each call that needs memory succeeds if there is enough.
ghost use Rattle.std.specs.Prelude.{◌≡◌, true};
ghost use Rattle.iol_core.specs.Prelude.{is_numbered};
ghost use Rattle.iol_pool.specs.Prelude.{AreOwned};

use super::arenas::make_one;
use iol_arena::arena::Arena;
use iol_core::configuration::Config;
use iol_core::numbers::{DomainId, PoolId};
use iol_pool::names::Names;
use iol_pool::pools::Pools;
use iol_pool::report::PoolReport;
use std::alloc::Global;
use std::process::Abort;
use std::test::Fail;
use test_parts::checks::pass_if;

// Closes a pool while a buffer is on its pages, and then frees the buffer.
fn close_in_use<R: Abort>(
    rt: &R,
    alloc: Global,
    arena: &mut Arena,
    pools: &mut Pools,
    pool: PoolId,
) -> bool
    requires there { is_numbered pools.old pool ≡ true }
    requires owned { AreOwned arena.old pools.old }
{
    let buf = make_one(rt, alloc, arena, pools.chunks(pool));
    pools.close(arena, pool);
    let closed = pools.report(arena, pool);
    arena.free(buf);
    pools.reclaim(arena, pool);
    closed.free == 31 && pools.report(arena, pool).pages == 0
}

// Returns whether a pool exists that domains 1 and 2 may read.
fn is_for_two(pools: &Pools, pool: PoolId) -> bool {
    let (one, two, three) = (DomainId::new(1), DomainId::new(2), DomainId::new(3));
    pools.is_pool(pool)
        && pools.names(pool, two)
        && pools.admits(&[pool], one).is_ok()
        && pools.admits(&[pool], three) == Err(pool)
}

// Returns whether all pages of two chunks are free.
fn has_two_chunks(arena: &Arena, pools: &Pools, pool: PoolId) -> bool
    requires { AreOwned arena.now pools.now }
{
    let report = PoolReport {
        pool,
        pages: 32,
        free: 32,
        retired: 0,
    };
    pools.is_pool(pool) && pools.report(arena, pool) == report
}

fn all_hold<R: Abort>(rt: &R, alloc: Global, names: Names) -> bool {
    let config = Config {
        chunks: 3,
        gen_limit: u32::MAX,
        sums: 1,
    };
    let mut arena = Arena::new(alloc, config).expect(rt, "memory");
    let mut pools = Pools::new(alloc);
    let pool = pools.create(alloc, &mut arena, 2, names).expect(rt, "room");
    let is_made = is_for_two(&pools, pool) && has_two_chunks(&arena, &pools, pool);
    let is_used = close_in_use(rt, alloc, &mut arena, &mut pools, pool);
    is_made && is_used && pools.is_closed(pool) && arena.take_chunks(alloc, 3).is_ok()
}

// Two domains, of which one is listed twice.
fn two_named<R: Abort>(rt: &R) -> Names {
    let (one, two) = (DomainId::new(1), DomainId::new(2));
    Names::of(&[one, two, one]).expect(rt, "at most sixteen domains")
}

fn two_hold<R: Abort>(rt: &R, alloc: Global) -> bool {
    let names = two_named(rt);
    names.as_slice().len() == 2 && all_hold(rt, alloc, names)
}

#[test]
fn ample(rt: HostRuntime) -> Result<(), Fail> {
    pass_if(two_hold(&rt, rt.alloc()))
}
