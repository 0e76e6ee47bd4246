//! Each call that needs memory succeeds if there is enough.
ghost use Rattle.std.specs.Prelude.{[]};
ghost use Rattle.iol_hold.specs.Prelude.{bufs_of};
ghost use Rattle.iol_agg.specs.Prelude.{IsHeldBy};

use super::stores::{add_pool, filled, new_store};
use iol_core::configuration::Config;
use iol_core::numbers::{DomainId, PoolId};
use iol_hold::Store;
use iol_pipe::Pipe;
use std::alloc::Global;
use std::process::Abort;
use std::test::Fail;
use test_parts::checks::pass_if;

// Each page is used once.
const FOUR_CHUNKS: Config = Config {
    chunks: 4,
    gen_limit: 1,
    sums: 1,
};

// A store with a pool for two domains, and one for the second of them.
fn start<R: Abort>(rt: &R, alloc: Global) -> (Store, PoolId, PoolId)
    ensures { IsHeldBy result.0 [] }
{
    let (one, two) = (DomainId::new(1), DomainId::new(2));
    let mut store = new_store(rt, alloc, FOUR_CHUNKS);
    let both = add_pool(rt, alloc, &mut store, 2, &[one, two]);
    let second = add_pool(rt, alloc, &mut store, 2, &[two]);
    (store, both, second)
}

// Pushes new bytes, and returns how many were taken. All counts agree.
fn push<R: Abort>(
    rt: &R,
    alloc: Global,
    store: &mut Store,
    pipe: &mut Pipe,
    pool: PoolId,
    text: &[u8],
) -> u32
    requires { IsHeldBy store.old (bufs_of pipe.old) }
    ensures { IsHeldBy store.new (bufs_of pipe.new) }
{
    let waiting = pipe.len();
    let agg = filled(rt, alloc, store, pool, text);
    let len = agg.len();
    let taken = pipe.push(store, &agg).expect(rt, "memory");
    agg.release(store);
    assert!(rt; len as usize == text.len() && pipe.len() - waiting == taken);
    taken
}

// Takes bytes off for a domain, and returns how many.
fn front<R: Abort>(
    rt: &R,
    alloc: Global,
    store: &mut Store,
    pipe: &mut Pipe,
    n: u32,
    d: DomainId,
) -> u32
    requires { IsHeldBy store.old (bufs_of pipe.old) }
    ensures { IsHeldBy store.new (bufs_of pipe.new) }
{
    let waiting = pipe.len();
    let given = pipe.front(alloc, store, n, d).expect(rt, "memory");
    let len = given.len();
    given.release(store);
    assert!(rt; pipe.len() == waiting - len);
    len
}

// Takes bytes off, whoever may read them, and returns whether there were that many.
fn takes<R: Abort>(rt: &R, alloc: Global, store: &mut Store, pipe: &mut Pipe, n: u32) -> bool
    requires { IsHeldBy store.old (bufs_of pipe.old) }
{
    let waiting = pipe.len();
    let taken = pipe.take(alloc, store, n).expect(rt, "memory");
    let len = taken.len();
    drop(taken);
    n <= waiting && len == n
}

// The number of bytes requested, the domain, and the number of bytes that it gets, of five that
// both may read and then three of domain 2.
const FRONTS: [(u32, u32, u32); 5] = [(3, 1, 3), (9, 1, 2), (9, 1, 0), (2, 2, 2), (9, 2, 1)];

// Takes bytes off as the rows say.
fn fronts_hold<R: Abort>(rt: &R, alloc: Global, store: &mut Store, pipe: &mut Pipe) -> bool
    requires { IsHeldBy store.old (bufs_of pipe.old) }
    ensures { IsHeldBy store.new (bufs_of pipe.new) }
{
    let mut all = true;
    for (n, d, want) in FRONTS {
        all &= front(rt, alloc, store, pipe, n, DomainId::new(d)) == want;
    }
    all
}

fn all_hold<R: Abort>(rt: &R, alloc: Global, text: &[u8]) -> bool {
    let (mut store, both, second) = start(rt, alloc);
    let mut pipe = Pipe::new(alloc);
    let five = push(rt, alloc, &mut store, &mut pipe, both, b"hello");
    let three = push(rt, alloc, &mut store, &mut pipe, second, b"you");
    let all_come = fronts_hold(rt, alloc, &mut store, &mut pipe) && pipe.is_empty();
    let most = push(rt, alloc, &mut store, &mut pipe, second, text);
    let taken = five == 5 && three == 3 && most == 65_536;
    let is_of_second = pipe.first_pool() == Some(second);
    takes(rt, alloc, &mut store, &mut pipe, 9) && taken && all_come && is_of_second
}

// New bytes.
fn fills<R: Abort>(
    rt: &R,
    alloc: Global,
    store: &mut Store,
    pipe: &mut Pipe,
    pool: PoolId,
) -> bool {
    assert!(rt; !store.pools().is_closed(pool));
    pipe.fill(alloc, store, pool, b"abc") == Ok(3)
}

// The bytes of one read.
fn fills_from<R: Abort>(
    rt: &R,
    alloc: Global,
    store: &mut Store,
    pipe: &mut Pipe,
    pool: PoolId,
) -> bool {
    assert!(rt; !store.pools().is_closed(pool));
    assert!(rt; pipe.len() < 9);
    let mut reader = b"de".as_slice();
    match pipe.fill_from(alloc, store, pool, &mut reader, 9) {
        Ok(arrived) => arrived.taken == 2,
        Err(_) => false,
    }
}

fn both_fill<R: Abort>(rt: &R, alloc: Global) -> bool {
    let (mut store, pool, _other) = start(rt, alloc);
    let mut pipe = Pipe::new(alloc);
    let all = fills(rt, alloc, &mut store, &mut pipe, pool)
        && fills_from(rt, alloc, &mut store, &mut pipe, pool)
        && pipe.len() == 5;
    drop((store, pipe));
    all
}

#[test]
fn ample(rt: HostRuntime) -> Result<(), Fail> {
    let text = vec![in rt.alloc(); 7u8; 70_000]?;
    let alloc = rt.alloc();
    pass_if(all_hold(&rt, alloc, &text) && both_fill(&rt, alloc))
}
