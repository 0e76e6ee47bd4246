//! The workers of the server, by number: which of them are free.
ghost use Rattle.std.specs.Prelude.{◌≡◌, ◌<◌, ◌≤◌, IfSome, position, true};
ghost use Rattle.flash_lite.specs.ServerTurn.{TurnsFree, first_in, worker_left};
ghost use Rattle.flash_lite.specs.declared.site.TheConstants.{MAX_WORKERS};

use crate::client::Left;

// The first free worker of some.
fn first_of(free: &[bool]) -> Option<usize>
    ensures { result ≡ position (λ b. b) free.now }
{
    free.iter().position(|free| *free)
}

/// The first free one of `workers` workers, or their number if all are busy.
#[tactic(auto, using(crate::proofs::Turns::Firsts::first_some, crate::proofs::Turns::Firsts::first_none))]
pub(crate) fn first_free(free: &[bool; 8], workers: u32) -> u32
    requires { workers ≤ MAX_WORKERS }
    ensures { result ≡ first_in workers free.now }
{
    match first_of(&free[..workers as usize]) {
        Some(worker) => worker as u32,
        None => workers,
    }
}

/// The free workers after a client has this worker, or none, instead of that one.
pub(crate) fn turned(free: [bool; 8], was: Option<u32>, now: Option<u32>) -> [bool; 8]
    requires was { IfSome was (λ worker. worker < MAX_WORKERS) }
    requires now { IfSome now (λ worker. worker < MAX_WORKERS) }
    ensures { TurnsFree free was now result }
{
    let mut after = free;
    if let Some(worker) = was {
        after[worker as usize] = true;
    }
    if let Some(worker) = now {
        after[worker as usize] = false;
    }
    after
}

/// The worker that a client still has in this state.
pub(crate) fn worker_left(left: &Left, worker: Option<u32>) -> Option<u32>
    requires { IfSome worker (λ worker. worker < MAX_WORKERS) }
    ensures worker { result ≡ worker_left left.now worker }
    ensures within { IfSome result (λ worker. worker < MAX_WORKERS) }
{
    match *left {
        Left::Goes { phase: _ } | Left::Stays => worker,
        Left::Ends { phase: _ } | Left::Begins | Left::Continues { phase: _ } => None,
    }
}
