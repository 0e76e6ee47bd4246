//! A connection that a world serves, by typed events of the outside.
use iol_api::outside::Outside;
use iol_back::memory::MemoryBacking;
use iol_core::configuration::Config;
use iol_core::descriptors::How;
use iol_core::events::Call;
use iol_core::lists::{Bytes, Domains};
use iol_core::numbers::{ConnId, DomainId, PoolId};
use iol_core::refusals::Refusal;
use iol_proc::world::World;
use std::alloc::Global;
use std::test::Fail;
use test_worlds::echo::Echo;
use test_worlds::files::empty_store;
use test_worlds::systems::{TestSystem, call_of};
use test_worlds::worlds::TestWorld;

type EchoWorld = World<MemoryBacking, Echo>;

// A world in which domain 1 sends back the input of each connection.
fn echoing(alloc: Global) -> Result<TestWorld<MemoryBacking, Echo>, Refusal> {
    let domains = Domains::from_vec(Vec::from_slice(alloc, &[DomainId::new(1)])?);
    let create = call_of(1, Call::PoolCreate { chunks: 1, domains });
    let system = TestSystem::begun(alloc, Config::DEFAULT, empty_store(alloc), &[&[create]])?;
    Ok(TestWorld::of_one(alloc, system, 1, Echo::new())?)
}

// A peer connects, sends "hello", and closes its side.
fn greet(alloc: Global, world: &mut EchoWorld) -> Result<(ConnId, u32), Refusal> {
    let mut outside = Outside::new(alloc, world);
    let conn = outside.connect(PoolId::new(1))?;
    let taken = outside.arrive(conn, b"hello")?;
    outside.peer_closed(conn, How::Done)?;
    Ok((conn, taken))
}

// The bytes that the peer receives, and their checksum.
fn answer(alloc: Global, world: &mut EchoWorld, conn: ConnId) -> Result<(Bytes, u16), Refusal> {
    let mut outside = Outside::new(alloc, world);
    outside.flush()?;
    outside.drop_clean()?;
    outside.transmit(conn, 4096)
}

// Whether a connection that does not exist is refused.
fn refuses_unknown(alloc: Global, world: &mut EchoWorld) -> bool {
    let mut outside = Outside::new(alloc, world);
    matches!(outside.arrive(ConnId::new(9), b"x"), Err(Refusal::BadFd))
}

// Returns whether all events have the specified results.
fn passes(alloc: Global, world: &mut EchoWorld) -> bool {
    let Ok((conn, taken)) = greet(alloc, world) else {
        return false;
    };
    let is_refused = refuses_unknown(alloc, world);
    let is_idle = world.until_idle(100);
    match answer(alloc, world, conn) {
        Ok((bytes, sum)) => {
            let is_echo = bytes.as_slice() == b"hello".as_slice();
            taken == 5 && is_refused && is_idle && is_echo && sum == 0xbc2d
        }
        Err(_) => false,
    }
}

fn run(alloc: Global) -> Result<bool, Refusal> {
    let mut echoing = echoing(alloc)?;
    let passed = passes(alloc, echoing.world());
    drop(echoing);
    Ok(passed)
}

#[test]
fn outside_events_by_name(rt: HostRuntime) -> Result<(), Fail> {
    let passed = run(rt.alloc());
    assert!(rt; matches!(passed, Ok(true)));
    Ok(())
}
