//! Calls of a connection that share bytes succeed if there is enough memory.
ghost use Rattle.std.specs.Prelude.{[]};
ghost use Rattle.iol_agg.specs.Prelude.{IsHeldBy};
ghost use Rattle.test_iol_store.specs.Sharing.{IsAllThere};

use super::stores::{add_pool, filled, new_store};
use iol_core::configuration::Config;
use iol_core::numbers::{DomainId, PoolId};
use iol_hold::Store;
use iol_sock::{Connection, Segment};
use iol_sum::{SumCache, checksum, sum_of};
use std::alloc::Global;
use std::process::Abort;
use std::test::Fail;
use test_parts::checks::pass_if;

const ONE_CHUNK: Config = Config {
    chunks: 1,
    gen_limit: 1,
    sums: 1,
};

/// A store, and a pool for domain 1.
pub fn start<R: Abort>(rt: &R, alloc: Global) -> (Store, PoolId)
    ensures { IsHeldBy result.0 [] }
{
    let mut store = new_store(rt, alloc, ONE_CHUNK);
    let pool = add_pool(rt, alloc, &mut store, 1, &[DomainId::new(1)]);
    (store, pool)
}

/// Returns whether a segment has these bytes, and their checksum.
pub fn has_bytes(segment: &Segment, text: &[u8]) -> bool {
    segment.bytes.as_slice() == text && segment.checksum == checksum(sum_of(text))
}

// A connection on which five bytes arrived.
fn hears<R: Abort>(rt: &R, alloc: Global, store: &mut Store, pool: PoolId) -> Connection
    requires { IsHeldBy store.old [] }
    ensures { IsAllThere store.new result.incoming }
{
    let mut conn = Connection::new(alloc, pool);
    assert!(rt; !store.pools().is_closed(conn.pool()));
    conn.arrive(alloc, store, b"hello").expect(rt, "room");
    conn
}

// The first three bytes are given to domain 1.
fn gives<R: Abort>(rt: &R, alloc: Global, store: &mut Store, conn: &mut Connection) -> bool
    requires { IsAllThere store.old conn.old.incoming }
{
    let front = conn
        .front(alloc, store, 3, DomainId::new(1))
        .expect(rt, "memory");
    let bytes = front.to_vec(alloc, store).expect(rt, "memory");
    drop(front);
    bytes.as_slice() == b"hel".as_slice() && conn.unread() == 2
}

// A connection that shares four bytes, to send them.
fn queues<R: Abort>(rt: &R, alloc: Global, store: &mut Store, pool: PoolId) -> Connection
    requires { IsHeldBy store.old [] }
    ensures { IsAllThere store.new result.outgoing }
{
    let agg = filled(rt, alloc, store, pool, b"fghi");
    assert!(rt; agg.len() == 4);
    let mut conn = Connection::new(alloc, pool);
    conn.queue(store, &agg).expect(rt, "memory");
    agg.release(store);
    conn
}

// They are sent.
fn sends<R: Abort>(rt: &R, alloc: Global, store: &mut Store, conn: &mut Connection) -> bool
    requires { IsAllThere store.old conn.old.outgoing }
{
    let mut sums = SumCache::new(alloc, 1).expect(rt, "memory");
    let segment = conn
        .segment(alloc, store, &mut sums, 9)
        .expect(rt, "memory");
    let all = has_bytes(&segment, b"fghi") && conn.unsent() == 0;
    drop((sums, segment));
    all
}

fn gives_front<R: Abort>(rt: &R, alloc: Global) -> bool {
    let (mut store, pool) = start(rt, alloc);
    let mut conn = hears(rt, alloc, &mut store, pool);
    let all = gives(rt, alloc, &mut store, &mut conn);
    drop((store, conn));
    all
}

fn sends_shared<R: Abort>(rt: &R, alloc: Global) -> bool {
    let (mut store, pool) = start(rt, alloc);
    let mut conn = queues(rt, alloc, &mut store, pool);
    let all = sends(rt, alloc, &mut store, &mut conn);
    drop((store, conn));
    all
}

#[test]
fn ample(rt: HostRuntime) -> Result<(), Fail> {
    let alloc = rt.alloc();
    pass_if(gives_front(&rt, alloc) && sends_shared(&rt, alloc))
}
