//! Stores, pools and new bytes for the tests: each call of the store is a function of its own,
//! with its inputs made before it.
ghost use Rattle.std.specs.Prelude.{[]};
ghost use Rattle.iol_hold.specs.Prelude.{Moves, bufs_of, AllReadable};
ghost use Rattle.iol_agg.specs.Prelude.{IsHeldBy};

use iol_agg::Agg;
use iol_core::configuration::Config;
use iol_core::limits::{MAX_AGGREGATE_BYTES, MAX_POOLS};
use iol_core::numbers::{DomainId, PoolId};
use iol_hold::Store;
use iol_pool::names::Names;
use std::alloc::Global;
use std::process::Abort;

/// An empty store.
pub fn new_store<R: Abort>(rt: &R, alloc: Global, config: Config) -> Store
    ensures { IsHeldBy result [] }
{
    Store::new(alloc, config).expect(rt, "memory")
}

/// A pool of this number of chunks for these domains.
pub fn add_pool<R: Abort>(
    rt: &R,
    alloc: Global,
    store: &mut Store,
    chunks: u32,
    domains: &[DomainId],
) -> PoolId
    ensures { IsHeldBy store.old [] → IsHeldBy store.new [] }
{
    assert!(rt; store.pools().len() < MAX_POOLS);
    let names = Names::of(domains).expect(rt, "few domains");
    store.create_pool(alloc, chunks, names).expect(rt, "room")
}

/// New bytes of a pool.
pub fn filled<R: Abort>(rt: &R, alloc: Global, store: &mut Store, pool: PoolId, text: &[u8]) -> Agg
    ensures readable { AllReadable store.new result }
    ensures moves { Moves store.old store.new [] (bufs_of result) }
{
    assert!(rt; text.len() <= MAX_AGGREGATE_BYTES);
    assert!(rt; !store.pools().is_closed(pool));
    Agg::fill(alloc, store, pool, text).expect(rt, "room")
}
