//! Each call that needs memory succeeds if there is enough.
ghost use Rattle.std.specs.Prelude.{◌<◌, map};
ghost use Rattle.iol_hold.specs.Prelude.{count_of, Covers, IsFilled};

use super::stores::{add_pool, new_store};
use iol_core::configuration::Config;
use iol_core::limits::MAX_AGGREGATE_BYTES;
use iol_core::numbers::{DomainId, PoolId};
use iol_hold::{Hold, Holds, Slice, Store};
use std::alloc::Global;
use std::process::Abort;
use std::test::Fail;
use test_parts::checks::pass_if;

const THREE_CHUNKS: Config = Config {
    chunks: 3,
    gen_limit: u32::MAX,
    sums: 1,
};

// A buffer of five bytes.
fn fill_one<R: Abort>(rt: &R, alloc: Global, store: &mut Store, pool: PoolId) -> Hold
    ensures filled { IsFilled store.new result }
    ensures held { 0 < count_of store.new result.buf }
{
    assert!(rt; !store.pools().is_closed(pool));
    let mut holds = store.fill(alloc, pool, b"hello").expect(rt, "room");
    holds.take_first().expect(rt, "a buffer")
}

// Returns whether the only buffer has five bytes, and these.
fn says_hello(store: &Store, hold: &Hold) -> bool
    requires { IsFilled store.now hold.now }
{
    store.buffer_count() == 1
        && store.len(hold) == 5
        && store.bytes(hold, 0, 5) == b"hello".as_slice()
}

// Fills a buffer and releases it.
fn round<R: Abort>(rt: &R, alloc: Global, store: &mut Store, pool: PoolId) -> bool {
    let hold = fill_one(rt, alloc, store, pool);
    let filled = says_hello(store, &hold);
    store.release(hold);
    filled && store.buffer_count() == 0
}

// Shares a slice of a buffer, cuts it, and releases both.
fn share_and_cut<R: Abort>(rt: &R, store: &mut Store, hold: Hold) -> bool
    requires filled { IsFilled store.old hold }
    requires held { 0 < count_of store.old hold.buf }
{
    assert!(rt; store.count(hold.buf()) == 1);
    let whole = Slice::whole(store, hold);
    let twin = whole.share(store);
    assert!(rt; store.count(twin.hold.buf()) == 2);
    assert!(rt; twin.len == 5);
    let part = twin.cut(1, 3);
    let is_cut = part.bytes(store) == b"el".as_slice();
    whole.release(store);
    let with_part = store.buffer_count();
    part.release(store);
    is_cut && with_part == 1 && store.buffer_count() == 0
}

// Releases two buffers.
fn release_two<R: Abort>(rt: &R, store: &mut Store, holds: Holds) -> bool
    requires { Covers store.old (map (λ h. h.buf) holds) }
{
    let mut holds = holds;
    let first = holds.take_first().expect(rt, "a buffer");
    let second = holds.take_first().expect(rt, "another buffer");
    let with_two = store.buffer_count();
    store.release(first);
    let with_one = store.buffer_count();
    store.release(second);
    with_two == 2 && with_one == 1 && store.buffer_count() == 0
}

// Fills two buffers at once, since a chunk has 65,536 bytes.
fn fill_two<R: Abort>(rt: &R, alloc: Global, store: &mut Store, pool: PoolId, text: &[u8]) -> bool {
    assert!(rt; text.len() <= MAX_AGGREGATE_BYTES);
    assert!(rt; !store.pools().is_closed(pool));
    let holds = store.fill(alloc, pool, text).expect(rt, "room");
    release_two(rt, store, holds)
}

// Begins buffers of 70,000 bytes, writes to them and publishes them.
#[tactic(auto, using(iol_hold::proofs::Moves::covers_given))]
fn publish_two<R: Abort>(rt: &R, alloc: Global, store: &mut Store, pool: PoolId) -> bool {
    assert!(rt; !store.pools().is_closed(pool));
    let mut filling = store.begin(alloc, pool, 70_000).expect(rt, "room");
    let parts = filling.part_count();
    filling.part_mut(0)[0] = 7;
    let holds = filling.publish(70_000);
    release_two(rt, store, holds) && parts == 2
}

// Begins buffers and gives their pages back.
fn abandon_two<R: Abort>(rt: &R, alloc: Global, store: &mut Store, pool: PoolId) -> bool {
    assert!(rt; !store.pools().is_closed(pool));
    let filling = store.begin(alloc, pool, 70_000).expect(rt, "room");
    filling.abandon();
    store.buffer_count() == 0
}

// Closes a pool while a buffer is on its pages, and then releases the buffer.
fn close_in_use<R: Abort>(rt: &R, alloc: Global, store: &mut Store, pool: PoolId) -> bool {
    let hold = fill_one(rt, alloc, store, pool);
    assert!(rt; store.pools().is_pool(pool));
    store.close_pool(pool);
    assert!(rt; store.pools().is_pool(pool));
    let closed = store.report_pool(pool);
    store.release(hold);
    assert!(rt; store.pools().is_pool(pool));
    closed.free == 31 && store.report_pool(pool).pages == 0
}

// Fills a buffer and releases it, many times.
fn repeat<R: Abort>(rt: &R, alloc: Global, store: &mut Store, pool: PoolId) -> bool {
    let mut all = true;
    for _ in 0..100_000 {
        all &= round(rt, alloc, store, pool);
    }
    all
}

// Slices of one buffer of a pool.
fn shares_one<R: Abort>(rt: &R, alloc: Global, store: &mut Store, pool: PoolId) -> bool {
    let hold = fill_one(rt, alloc, store, pool);
    share_and_cut(rt, store, hold)
}

fn all_hold<R: Abort>(rt: &R, alloc: Global, text: &[u8]) -> bool {
    let one = [DomainId::new(1)];
    let mut store = new_store(rt, alloc, THREE_CHUNKS);
    let other = add_pool(rt, alloc, &mut store, 1, &one);
    let pool = add_pool(rt, alloc, &mut store, 2, &one);
    let all = shares_one(rt, alloc, &mut store, other)
        && fill_two(rt, alloc, &mut store, pool, text)
        && publish_two(rt, alloc, &mut store, pool)
        && abandon_two(rt, alloc, &mut store, pool)
        && repeat(rt, alloc, &mut store, pool)
        && close_in_use(rt, alloc, &mut store, pool);
    let _again = add_pool(rt, alloc, &mut store, 2, &one);
    all
}

#[test]
fn ample(rt: HostRuntime) -> Result<(), Fail> {
    let text = vec![in rt.alloc(); 7u8; 70_000]?;
    pass_if(all_hold(&rt, rt.alloc(), &text))
}
