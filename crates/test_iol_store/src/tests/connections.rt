//! Calls of connections that need memory for new bytes succeed if there is enough. Those that
//! share bytes are tested by [`sharing`](super::sharing).
use super::stores::{add_pool, new_store};
use iol_core::configuration::Config;
use iol_core::numbers::{DomainId, PoolId};
use iol_hold::Store;
use iol_sock::{Connection, Connections};
use std::alloc::Global;
use std::process::Abort;
use std::test::Fail;
use test_parts::checks::pass_if;

const TWO_CHUNKS: Config = Config {
    chunks: 2,
    gen_limit: 1,
    sums: 1,
};

// Bytes from the peer, and bytes for it.
fn arrives<R: Abort>(rt: &R, alloc: Global, store: &mut Store, conn: &mut Connection) -> bool {
    assert!(rt; !store.pools().is_closed(conn.pool()));
    conn.arrive(alloc, store, b"abc") == Ok(3)
}

fn arrives_from<R: Abort>(rt: &R, alloc: Global, store: &mut Store, conn: &mut Connection) -> bool {
    assert!(rt; !store.pools().is_closed(conn.pool()));
    let mut reader = b"de".as_slice();
    match conn.arrive_from(alloc, store, &mut reader, 9) {
        Ok(arrived) => arrived.taken == 2 && conn.unread() == 5,
        Err(_) => false,
    }
}

fn writes<R: Abort>(
    rt: &R,
    alloc: Global,
    store: &mut Store,
    conn: &mut Connection,
    pool: PoolId,
) -> bool {
    assert!(rt; !store.pools().is_closed(pool));
    conn.write(alloc, store, pool, b"fghi") == Ok(4) && conn.unsent() == 4
}

// Room for a connection, reserved twice: the second time it exists already.
fn reserves(alloc: Global) -> bool {
    let mut table = Connections::new(alloc);
    let reserved = table.reserve().is_ok() && table.reserve().is_ok();
    drop(table);
    reserved
}

fn all_answer<R: Abort>(rt: &R, alloc: Global) -> bool {
    let mut store = new_store(rt, alloc, TWO_CHUNKS);
    let pool = add_pool(rt, alloc, &mut store, 1, &[DomainId::new(1)]);
    let mut conn = Connection::new(alloc, pool);
    let all = arrives(rt, alloc, &mut store, &mut conn)
        && arrives_from(rt, alloc, &mut store, &mut conn)
        && writes(rt, alloc, &mut store, &mut conn, pool);
    drop((store, conn));
    all
}

#[test]
fn ample(rt: HostRuntime) -> Result<(), Fail> {
    let alloc = rt.alloc();
    pass_if(reserves(alloc) && all_answer(&rt, alloc))
}
