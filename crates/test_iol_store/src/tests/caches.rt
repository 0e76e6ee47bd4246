//! Each call of a cache that needs memory succeeds if there is enough.
ghost use Rattle.std.specs.Prelude.{[]};
ghost use Rattle.iol_agg.specs.Prelude.{IsHeldBy};
ghost use Rattle.iol_cache.specs.Cache.{cached_of, holding};
ghost use Rattle.iol_cache.specs.FileReads.{MayReadFile};
ghost use Rattle.test_iol_store.specs.Caching.{HasNewFile, IsReady};
ghost use Rattle.test_iol_store.specs.Sharing.{IsAllThere};

use iol_agg::Agg;
use iol_back::memory::MemoryBacking;
use iol_back::slots::Slots;
use iol_cache::Cache;
use iol_core::configuration::Config;
use iol_core::limits::MAX_POOLS;
use iol_core::numbers::{DomainId, FileId, PoolId};
use iol_hold::Store;
use iol_pool::names::Names;
use std::alloc::Global;
use std::process::Abort;
use std::test::Fail;
use test_parts::checks::pass_if;

const TWO_CHUNKS: Config = Config {
    chunks: 2,
    gen_limit: u32::MAX,
    sums: 1,
};

// A store of 32 pages.
fn new_pages<R: Abort>(rt: &R, alloc: Global) -> Store
    ensures ready { IsReady result }
    ensures none { IsHeldBy result [] }
{
    Store::new(alloc, TWO_CHUNKS).expect(rt, "memory")
}

// A pool of one chunk.
fn make_pool<R: Abort>(rt: &R, alloc: Global, store: &mut Store) -> PoolId
    requires ready { IsReady store.old }
    requires none { IsHeldBy store.old [] }
    ensures ready { IsReady store.new }
    ensures none { IsHeldBy store.new [] }
{
    assert!(rt; store.pools().len() < MAX_POOLS);
    let names = Names::of(&[DomainId::new(1)]).expect(rt, "few domains");
    store.create_pool(alloc, 1, names).expect(rt, "room")
}

// Two bytes of a pool, which are all that is held.
fn fill_two<R: Abort>(rt: &R, alloc: Global, store: &mut Store, pool: PoolId) -> Agg
    requires ready { IsReady store.old }
    requires none { IsHeldBy store.old [] }
    ensures ready { IsReady store.new }
    ensures there { IsAllThere store.new result }
{
    assert!(rt; !store.pools().is_closed(pool));
    let agg = Agg::fill(alloc, store, pool, b"HE").expect(rt, "room");
    assert!(rt; agg.len() == 2);
    agg
}

// A cache with a file of a pool.
fn make_cache<R: Abort>(rt: &R, alloc: Global, store: &Store, pool: PoolId) -> Cache
    requires { IsReady store.now }
    ensures { HasNewFile store.now (cached_of result) }
{
    assert!(rt; !store.pools().is_closed(pool));
    let mut cache = Cache::new(alloc, 32).expect(rt, "memory");
    cache.add_file(alloc, pool).expect(rt, "memory");
    cache
}

// Writes two bytes to the beginning of the file.
fn writes<R: Abort>(rt: &R, alloc: Global, store: &mut Store, cache: &mut Cache, source: &Agg)
    requires file { HasNewFile store.old (cached_of cache.old) }
    requires there { IsAllThere store.old source.now }
    ensures { MayReadFile 1 (holding store.new cache.new) }
{
    assert!(rt; source.len() == 2);
    cache
        .write(alloc, store, FileId::new(1), 0, source)
        .expect(rt, "room");
}

// Reads the file: the bytes that were written, and those of the store after them.
fn reads<R: Abort>(
    rt: &R,
    alloc: Global,
    store: &mut Store,
    cache: &mut Cache,
    backing: &mut MemoryBacking,
) -> bool
    requires { MayReadFile 1 (holding store.old cache.old) }
{
    let read = cache
        .read(alloc, store, backing, FileId::new(1), 0, 9)
        .expect(rt, "room");
    let bytes = read.to_vec(alloc, store).expect(rt, "memory");
    drop(read);
    bytes.as_slice() == b"HEllo".as_slice()
}

// A store whose first file is "hello".
fn make_backing<R: Abort>(rt: &R, alloc: Global) -> MemoryBacking {
    let mut slots = Slots::new(alloc);
    slots.append(FileId::new(1), b"hello").expect(rt, "memory");
    MemoryBacking::new(slots)
}

// The bytes that are written are of another pool than the file.
fn all_answer<R: Abort>(rt: &R, alloc: Global) -> bool {
    let mut backing = make_backing(rt, alloc);
    let mut store = new_pages(rt, alloc);
    let of_file = make_pool(rt, alloc, &mut store);
    let other = make_pool(rt, alloc, &mut store);
    let source = fill_two(rt, alloc, &mut store, other);
    let mut cache = make_cache(rt, alloc, &store, of_file);
    writes(rt, alloc, &mut store, &mut cache, &source);
    let all = reads(rt, alloc, &mut store, &mut cache, &mut backing);
    drop((backing, store, source, cache));
    all
}

#[test]
fn ample(rt: HostRuntime) -> Result<(), Fail> {
    pass_if(all_answer(&rt, rt.alloc()))
}
