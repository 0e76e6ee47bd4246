//! A world of watchers, until no connection is waiting.
ghost use Rattle.test_iol_system.specs.Watcher.{AllHaveWatched};

use super::start::system_with_pipe;
use super::watcher::Watcher;
use iol_back::memory::MemoryBacking;
use iol_core::refusals::Refusal;
use iol_proc::laws::idle_is_quiescent;
use iol_proc::world::World;
use std::alloc::Global;
use std::test::Fail;
use test_parts::checks::{lend, pass};
use test_worlds::worlds::TestWorld;

type Watched = World<MemoryBacking, Watcher>;

// Gives turns until all are idle: then no connection is waiting that a watcher's domain may
// accept.
fn watch(world: &mut Watched, turns: usize) -> bool
    ensures { AllHaveWatched world.old world.new (λ w. w.asked) result }
{
    idle_is_quiescent::<Watcher>();
    world.until_idle(turns)
}

// A world of one watcher, in domain 2.
type Watchers = TestWorld<MemoryBacking, Watcher>;

fn connects(watchers: &mut Watchers) -> bool {
    watchers.connect(1).is_some()
}

// Two connections are waiting: after two turns each, watchers have not accepted both, and later
// no connection is waiting.
fn accepts(watchers: &mut Watchers) -> bool {
    connects(watchers)
        && connects(watchers)
        && !watch(watchers.world(), 5)
        && watch(watchers.world(), 100)
}

fn world_of_one(alloc: Global) -> Result<Watchers, Refusal> {
    let system = system_with_pipe(alloc)?;
    Ok(TestWorld::of_one(alloc, system, 2, Watcher::new())?)
}

#[test]
fn watcher_accepts_all_that_wait(rt: HostRuntime) -> Result<(), Fail> {
    pass(lend(world_of_one(rt.alloc()), accepts))
}
