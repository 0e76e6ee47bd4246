//! One turn of one process.
ghost use Rattle.std.specs.Prelude.{◌≡◌, ◌<◌, length};
ghost use Rattle.iol_proc.specs.Idle.{TurnGoes};
ghost use Rattle.iol_proc.specs.Turns.{ProcessSlotTurn};
ghost use Rattle.iol_proc.specs.World.{activity_of, sharing, domains_of, world_state};

use crate::activity::Activity;
use crate::look::Look;
use crate::process::{Process, Turn};
use crate::process_slot::ProcessSlot;
use crate::replies::{again, is_resource_failure, is_would_block};
use iol_back::backing::Backing;
use iol_core::events::{Event, Reply};
use iol_core::refusals::Refusal;
use iol_system::system::System;

/// The outcome of a turn.
#[derive(Drop)]
pub(crate) struct Outcome {
    pub yields: bool,
    pub reply: Reply,
}

impl Outcome {
    /// What the process did.
    pub(crate) fn activity(&self) -> Activity
        ensures { result ≡ activity_of self.now.yields self.now.reply }
    {
        if self.yields {
            Activity::Yields
        } else if is_would_block(&self.reply) {
            Activity::Waits
        } else {
            Activity::Acts
        }
    }
}

/// Runs a turn of the process in a process slot.
fn process_slot_turn<B: Backing + Drop, P: Process>(
    system: &mut System<B>,
    process_slot: &mut ProcessSlot<P>,
) -> Outcome
    ensures domain { process_slot.new.by ≡ process_slot.old.by }
    ensures turn { ProcessSlotTurn sharing P.turns system.old process_slot.old result.yields result.reply
        system.new process_slot.new }
{
    let look = Look::new(system.aggregates(), process_slot.by);
    match process_slot.process.next(&process_slot.last, &look) {
        Err(_) => Outcome {
            yields: false,
            reply: Reply::Refused(Refusal::Memory),
        },
        Ok(Turn::Yield) => {
            process_slot.last = Reply::Done;
            Outcome {
                yields: true,
                reply: Reply::Done,
            }
        }
        Ok(Turn::Make(call)) => {
            let reply = system.step_ref(&Event::Call {
                by: process_slot.by,
                call,
            });
            process_slot.last = again(&reply);
            Outcome {
                yields: false,
                reply,
            }
        }
    }
}

/// Runs a turn of the process at an index.
pub(crate) fn place_turn<B: Backing + Drop, P: Process>(
    system: &mut System<B>,
    process_slots: &mut Vec<ProcessSlot<P>>,
    resource_failure: &mut bool,
    place: usize,
) -> Outcome
    requires { place < length process_slots.old.items }
    ensures domains { domains_of process_slots.new.items ≡ domains_of process_slots.old.items }
    ensures turn { TurnGoes P.turns (world_state system.old process_slots.old.items resource_failure.old) place result
        (world_state system.new process_slots.new.items resource_failure.new) }
{
    let process_slot = &mut process_slots[place];
    let outcome = process_slot_turn(system, process_slot);
    *resource_failure |= is_resource_failure(&outcome.reply);
    outcome
}
