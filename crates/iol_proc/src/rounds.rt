//! Turns in rounds, until all processes are idle.
ghost use Rattle.std.specs.Prelude.{◌≡◌, ◌<◌, length, false};
ghost use Rattle.iol_proc.specs.Idle.{RoundsGo, counted, is_idle, went};
ghost use Rattle.iol_proc.specs.World.{domains_of, world_state};

use crate::process::Process;
use crate::process_slot::ProcessSlot;
use crate::replies::is_would_block;
use crate::turn::{Outcome, place_turn};
use iol_back::backing::Backing;
use iol_system::system::System;

/// Returns whether every process has yielded twice.
fn all_twice(yields: &[u8]) -> bool
    ensures all { result ≡ is_idle yields.now }
    ensures some { result ≡ false → 0 < length yields.now }
{
    yields.iter().all(|n| 2 <= *n)
}

/// Counts a turn of the process at an index.
fn count(yields: &mut Vec<u8>, place: usize, outcome: &Outcome)
    requires { place < length yields.old.items }
    ensures length { length yields.new.items ≡ length yields.old.items }
    ensures counted { yields.new.items ≡ counted yields.old.items place (went outcome.now) }
{
    if outcome.yields {
        if yields[place] < 2 {
            yields[place] += 1;
        }
    } else if !is_would_block(&outcome.reply) {
        yields.fill(0);
    }
}

/// Runs turns in rounds, up to a maximum number, until every process has yielded twice since the
/// last turn whose reply was not WouldBlock. The caller provides the space for the counts of
/// yields, so that no memory is needed.
pub(crate) fn until_idle<B: Backing + Drop, P: Process>(
    system: &mut System<B>,
    process_slots: &mut Vec<ProcessSlot<P>>,
    resource_failure: &mut bool,
    yields: &mut Vec<u8>,
    turns: usize,
) -> bool
    requires { length yields.old.items ≡ length process_slots.old.items }
    ensures domains { domains_of process_slots.new.items ≡ domains_of process_slots.old.items }
    ensures length { length yields.new.items ≡ length process_slots.new.items }
    ensures idles { RoundsGo P.turns (world_state system.old process_slots.old.items resource_failure.old) turns result
        (world_state system.new process_slots.new.items resource_failure.new) }
{
    yields.fill(0);
    for i in 0..turns {
        if all_twice(yields) {
            return true;
        }
        let place = i % process_slots.len();
        let outcome = place_turn(system, process_slots, resource_failure, place);
        count(yields, place, &outcome);
    }
    all_twice(yields)
}
