//! Each call that needs memory succeeds if there is enough.
ghost use Rattle.std.specs.Prelude.{[], ◌≡◌};
ghost use Rattle.iol_hold.specs.Prelude.{bufs_of, AllReadable};
ghost use Rattle.iol_agg.specs.Prelude.{IsHeldBy};

use super::stores::{add_pool, filled, new_store};
use iol_agg::Agg;
use iol_core::configuration::Config;
use iol_core::limits::MAX_AGGREGATE_BYTES;
use iol_core::numbers::{DomainId, PoolId};
use iol_core::refusals::Refusal;
use iol_hold::Store;
use std::alloc::Global;
use std::process::Abort;
use std::test::Fail;
use test_parts::checks::pass_if;

const TWO_CHUNKS: Config = Config {
    chunks: 2,
    gen_limit: u32::MAX,
    sums: 1,
};

// A store of two chunks, and a pool that has both.
fn start<R: Abort>(rt: &R, alloc: Global) -> (Store, PoolId)
    ensures { IsHeldBy result.0 [] }
{
    let mut store = new_store(rt, alloc, TWO_CHUNKS);
    let pool = add_pool(rt, alloc, &mut store, 2, &[DomainId::new(1)]);
    (store, pool)
}

// Bytes that are made and dropped.
fn round<R: Abort>(rt: &R, alloc: Global, store: &mut Store, pool: PoolId) -> bool {
    let agg = filled(rt, alloc, store, pool, b"hello");
    let len = agg.len();
    agg.release(store);
    len == 5
}

// A temporary copy of the same bytes.
fn copy_all<R: Abort>(rt: &R, alloc: Global, store: &mut Store, agg: &Agg) -> bool
    requires { IsHeldBy store.old (bufs_of agg.now) }
    ensures { IsHeldBy store.new (bufs_of agg.now) }
{
    let len = agg.len();
    let copy = agg.dup(alloc, store).expect(rt, "memory");
    let copied = copy.len();
    copy.release(store);
    copied == len
}

// The second half, temporarily.
fn copy_half<R: Abort>(rt: &R, alloc: Global, store: &mut Store, agg: &Agg) -> bool
    requires { IsHeldBy store.old (bufs_of agg.now) }
    ensures { IsHeldBy store.new (bufs_of agg.now) }
{
    let len = agg.len();
    let part = agg.cut(alloc, store, len / 2, len).expect(rt, "memory");
    let copied = part.len();
    part.release(store);
    copied == len - len / 2
}

// All bytes in place of the second half, temporarily.
fn replace_half<R: Abort>(rt: &R, alloc: Global, store: &mut Store, agg: &Agg) -> bool
    requires { IsHeldBy store.old (bufs_of agg.now) }
    ensures { IsHeldBy store.new (bufs_of agg.now) }
{
    let len = agg.len();
    assert!(rt; len <= 1_000_000);
    let more = agg
        .replace(alloc, store, len / 2, len, agg)
        .expect(rt, "memory");
    let replaced = more.len();
    more.release(store);
    replaced == len / 2 + len
}

// All bytes, added to those of an aggregate that has none.
fn adds<R: Abort>(rt: &R, alloc: Global, store: &mut Store, agg: &Agg) -> bool
    requires { IsHeldBy store.old (bufs_of agg.now) }
{
    let len = agg.len();
    let mut sum = Agg::new(alloc);
    sum.add_range(store, agg, 0, len).expect(rt, "memory");
    let added = sum.len();
    drop(sum);
    added == len
}

// Five bytes of a store, added so.
fn adds_five<R: Abort>(rt: &R, alloc: Global) -> bool {
    let (mut store, pool) = start(rt, alloc);
    let agg = filled(rt, alloc, &mut store, pool, b"hello");
    let all = adds(rt, alloc, &mut store, &agg);
    drop((store, agg));
    all
}

// Splits the bytes, joins them again, and drops them.
fn split_and_join<R: Abort>(rt: &R, store: &mut Store, agg: Agg) -> bool
    requires { IsHeldBy store.old (bufs_of agg) }
{
    let len = agg.len();
    let half = len / 2;
    let (first, second) = agg.split(store, half).expect(rt, "memory");
    let halves = (first.len(), second.len());
    let whole = first.join(second).expect(rt, "memory");
    let joined = whole.len();
    whole.release(store);
    halves == (half, len - half) && joined == len
}

// An aggregate of 70,000 bytes has two buffers, since a chunk has 65,536 bytes.
fn has_two_buffers(store: &Store, agg: &Agg) -> bool
    requires { AllReadable store.now agg.now }
{
    agg.len() == 70_000 && agg.slices().len() == 2 && agg.parts(store).count() == 2
}

// Returns whether an aggregate has these bytes.
fn has_bytes<R: Abort>(rt: &R, alloc: Global, store: &Store, agg: &Agg, text: &[u8]) -> bool
    requires { AllReadable store.now agg.now }
{
    let bytes = agg.to_vec(alloc, store).expect(rt, "memory");
    bytes.as_slice() == text
}

// The refusal of the same bytes in addition to the first ones, for lack of pages.
fn refuse_more<R: Abort>(
    rt: &R,
    alloc: Global,
    store: &mut Store,
    pool: PoolId,
    text: &[u8],
) -> Refusal
    ensures { store.new ≡ store.old }
{
    assert!(rt; text.len() <= MAX_AGGREGATE_BYTES);
    assert!(rt; !store.pools().is_closed(pool));
    let Err(refusal) = Agg::fill(alloc, store, pool, text) else {
        panic!(rt; "room beside the first bytes");
    };
    refusal
}

// Bytes are made and dropped many times.
fn repeat<R: Abort>(rt: &R, alloc: Global, store: &mut Store, pool: PoolId) -> bool {
    let mut all = store.buffer_count() == 0;
    for _ in 0..100_000 {
        all &= round(rt, alloc, store, pool);
    }
    all && store.buffer_count() == 0
}

fn all_hold<R: Abort>(rt: &R, alloc: Global, text: &[u8]) -> bool {
    let (mut store, pool) = start(rt, alloc);
    let agg = filled(rt, alloc, &mut store, pool, text);
    let two = has_two_buffers(&store, &agg);
    let read = has_bytes(rt, alloc, &store, &agg, text);
    let copied = copy_all(rt, alloc, &mut store, &agg);
    let halved = copy_half(rt, alloc, &mut store, &agg);
    let replaced = replace_half(rt, alloc, &mut store, &agg);
    let refusal = refuse_more(rt, alloc, &mut store, pool, text);
    let joined = split_and_join(rt, &mut store, agg);
    let repeated = repeat(rt, alloc, &mut store, pool);
    let seen = two && read && copied && halved && replaced && joined && repeated;
    seen && refusal == Refusal::NoRoom { pool }
}

#[test]
fn ample(rt: HostRuntime) -> Result<(), Fail> {
    let text = vec![in rt.alloc(); 7u8; 70_000]?;
    let alloc = rt.alloc();
    pass_if(all_hold(&rt, alloc, &text) && adds_five(&rt, alloc))
}
