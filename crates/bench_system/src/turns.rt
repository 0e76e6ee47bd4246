//! Turns of five processes.
ghost use Rattle.std.specs.Prelude.{◌≡◌, [], ◌∷◌, map, IfOk};

use crate::setup::Machine;
use crate::waiter::Waiter;
use iol_back::memory::MemoryBacking;
use iol_core::numbers::DomainId;
use std::alloc::{AllocError, Global};
use test_worlds::worlds::TestWorld;

/// A world of processes that wait.
pub type Waiters = TestWorld<MemoryBacking, Waiter>;

// The same process for each of five domains.
fn processes_of(alloc: Global, waiter: Waiter) -> Result<Vec<(DomainId, Waiter)>, AllocError>
    ensures { IfOk result (λ ps. map (λ p. p.0) ps.items ≡ 1 ∷ 2 ∷ 3 ∷ 4 ∷ 5 ∷ []) }
{
    let processes = [
        (DomainId::new(1), waiter),
        (DomainId::new(2), waiter),
        (DomainId::new(3), waiter),
        (DomainId::new(4), waiter),
        (DomainId::new(5), waiter),
    ];
    Vec::from_slice(alloc, &processes)
}

/// Five of these processes, each in a domain of the system.
#[tactic(auto, using(crate::proofs::Apart::five_apart))]
pub fn waiting_world(
    alloc: Global,
    system: Machine,
    waiter: Waiter,
) -> Result<Waiters, AllocError> {
    let processes = processes_of(alloc, waiter)?;
    TestWorld::new(alloc, system, processes)
}

/// Gives ten turns at a time, and returns whether all were idle each time.
pub fn give_rounds(world: &mut Waiters, rounds: u64) -> bool {
    let mut idle = true;
    for _ in 0..rounds {
        idle &= world.until_idle(10);
    }
    idle
}
