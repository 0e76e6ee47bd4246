//! Calls of a connection by its number succeed if there is enough memory.
ghost use Rattle.std.specs.Prelude.{◌≡◌, [], Some};
ghost use Rattle.iol_core.specs.Prelude.{lookup};
ghost use Rattle.iol_agg.specs.Prelude.{IsHeldBy};
ghost use Rattle.iol_sock.specs.Connections.{new_conn};
ghost use Rattle.test_iol_store.specs.Sharing.{HasOne};

use super::sharing::{has_bytes, start};
use super::stores::filled;
use iol_core::numbers::{ConnId, DomainId, PoolId};
use iol_hold::Store;
use iol_sock::Connections;
use iol_sum::SumCache;
use std::alloc::Global;
use std::process::Abort;
use std::test::Fail;
use test_parts::checks::pass_if;

// A table of one connection, and its number.
fn table_of_one<R: Abort>(rt: &R, alloc: Global, pool: PoolId) -> (Connections, ConnId)
    ensures { lookup result.0.conns result.1 ≡ Some (new_conn pool) }
{
    let mut table = Connections::new(alloc);
    table.reserve().expect(rt, "memory");
    let conn = table.add(alloc, pool);
    (table, conn)
}

// Five bytes arrive.
fn hears<R: Abort>(
    rt: &R,
    alloc: Global,
    store: &mut Store,
    table: &mut Connections,
    conn: ConnId,
    pool: PoolId,
) -> u32
    requires none { IsHeldBy store.old [] }
    requires one { lookup table.old.conns conn ≡ Some (new_conn pool) }
    ensures { HasOne (λ x. x.incoming) conn store.new table.new }
{
    assert!(rt; !store.pools().is_closed(pool));
    table
        .arrive(alloc, store, conn, b"hello")
        .expect(rt, "room")
}

// The first three bytes are given to domain 1.
fn gives<R: Abort>(
    rt: &R,
    alloc: Global,
    store: &mut Store,
    table: &mut Connections,
    conn: ConnId,
) -> bool
    requires { HasOne (λ x. x.incoming) conn store.old table.old }
{
    let front = table
        .front(alloc, store, conn, 3, DomainId::new(1))
        .expect(rt, "memory");
    let bytes = front.to_vec(alloc, store).expect(rt, "memory");
    drop(front);
    bytes.as_slice() == b"hel".as_slice()
}

// It shares four bytes, to send them.
fn queues<R: Abort>(
    rt: &R,
    alloc: Global,
    store: &mut Store,
    table: &mut Connections,
    conn: ConnId,
    pool: PoolId,
) -> u32
    requires none { IsHeldBy store.old [] }
    requires one { lookup table.old.conns conn ≡ Some (new_conn pool) }
    ensures { HasOne (λ x. x.outgoing) conn store.new table.new }
{
    let agg = filled(rt, alloc, store, pool, b"fghi");
    assert!(rt; agg.len() == 4);
    let queued = table.queue(store, conn, &agg).expect(rt, "memory");
    agg.release(store);
    queued
}

// They are sent.
fn sends<R: Abort>(
    rt: &R,
    alloc: Global,
    store: &mut Store,
    table: &mut Connections,
    conn: ConnId,
) -> bool
    requires { HasOne (λ x. x.outgoing) conn store.old table.old }
{
    let mut sums = SumCache::new(alloc, 1).expect(rt, "memory");
    let segment = table
        .segment(alloc, store, conn, &mut sums, 9)
        .expect(rt, "memory");
    let all = has_bytes(&segment, b"fghi");
    drop((sums, segment));
    all
}

// New bytes to send.
fn writes<R: Abort>(
    rt: &R,
    alloc: Global,
    store: &mut Store,
    table: &mut Connections,
    conn: ConnId,
    pool: PoolId,
) -> bool
    requires { lookup table.old.conns conn ≡ Some (new_conn pool) }
{
    assert!(rt; !store.pools().is_closed(pool));
    table.write(alloc, store, conn, pool, b"jk") == Ok(2)
}

// Bytes of one read.
fn reads<R: Abort>(
    rt: &R,
    alloc: Global,
    store: &mut Store,
    table: &mut Connections,
    conn: ConnId,
    pool: PoolId,
) -> bool
    requires { lookup table.old.conns conn ≡ Some (new_conn pool) }
{
    assert!(rt; !store.pools().is_closed(pool));
    let mut reader = b"de".as_slice();
    match table.arrive_from(alloc, store, conn, &mut reader, 9) {
        Ok(arrived) => arrived.taken == 2,
        Err(_) => false,
    }
}

fn gives_front<R: Abort>(rt: &R, alloc: Global) -> bool {
    let (mut store, pool) = start(rt, alloc);
    let (mut table, conn) = table_of_one(rt, alloc, pool);
    let arrived = hears(rt, alloc, &mut store, &mut table, conn, pool);
    let all = gives(rt, alloc, &mut store, &mut table, conn);
    drop((store, table));
    all && arrived == 5
}

fn sends_shared<R: Abort>(rt: &R, alloc: Global) -> bool {
    let (mut store, pool) = start(rt, alloc);
    let (mut table, conn) = table_of_one(rt, alloc, pool);
    let queued = queues(rt, alloc, &mut store, &mut table, conn, pool);
    let all = sends(rt, alloc, &mut store, &mut table, conn);
    drop((store, table));
    all && queued == 4
}

fn takes_new<R: Abort>(rt: &R, alloc: Global) -> bool {
    let (mut store, pool) = start(rt, alloc);
    let (mut first, one) = table_of_one(rt, alloc, pool);
    let (mut second, other) = table_of_one(rt, alloc, pool);
    let all = writes(rt, alloc, &mut store, &mut first, one, pool)
        && reads(rt, alloc, &mut store, &mut second, other, pool);
    drop((store, first, second));
    all
}

#[test]
fn ample(rt: HostRuntime) -> Result<(), Fail> {
    let alloc = rt.alloc();
    pass_if(gives_front(&rt, alloc) && sends_shared(&rt, alloc) && takes_new(&rt, alloc))
}
