//! Worlds of workers.
ghost use Rattle.std.specs.Prelude.{◌≡◌, [], ◌∷◌, map, IfOk};

use super::worker::Worker;
use iol_back::memory::MemoryBacking;
use iol_core::numbers::DomainId;
use std::alloc::{AllocError, Global};
use test_worlds::systems::TestSystem;
use test_worlds::worlds::TestWorld;

/// A world of workers.
pub type Workers = TestWorld<MemoryBacking, Worker>;

// The processes of domains 1 and 2, in any order.
fn processes_of(
    alloc: Global,
    first: Worker,
    second: Worker,
) -> Result<Vec<(DomainId, Worker)>, AllocError>
    ensures { IfOk result (λ ps. map (λ p. p.0) ps.items ≡ 2 ∷ 1 ∷ []) }
{
    let processes = [(DomainId::new(2), second), (DomainId::new(1), first)];
    Vec::from_slice(alloc, &processes)
}

/// A world of two workers, in domains 1 and 2.
#[tactic(auto, using(crate::proofs::Apart::two_apart))]
pub fn two_workers(
    alloc: Global,
    system: TestSystem<MemoryBacking>,
    first: Worker,
    second: Worker,
) -> Result<Workers, AllocError> {
    let processes = processes_of(alloc, first, second)?;
    TestWorld::new(alloc, system, processes)
}

/// A world without workers.
#[tactic(auto, using(crate::proofs::Apart::none_apart))]
pub fn no_workers(alloc: Global, system: TestSystem<MemoryBacking>) -> Result<Workers, AllocError> {
    TestWorld::new(alloc, system, Vec::new(alloc))
}
