//! A world: a system, and processes in some of its domains.
ghost use Rattle.std.specs.Prelude.{◌≡◌, length, map, IfOk, OnErr, MatchOption, false, nat_eq};
ghost use Rattle.std.specs.List.{IsDistinct};
ghost use Rattle.std.specs.List.Sorted.{IsPermutation, IsStrictlyIncreasing};
ghost use Rattle.iol_back.specs.Prelude.{IfHonest};
ghost use Rattle.iol_kernel.specs.Prelude.{Reports};
ghost use Rattle.iol_system.specs.Prelude.{machine_of};
ghost use Rattle.iol_proc.specs.Prelude.{KeepsHonesty, copied, readable};
ghost use Rattle.iol_proc.specs.Idle.{CopiedIdles, Idles};
ghost use Rattle.iol_proc.specs.Laws.{HasEvents};
ghost use Rattle.iol_proc.specs.ReadableBytes.{readable_to};
ghost use Rattle.iol_proc.specs.World.{WorldState, sharing, process_slot_of, domains_of, IsInSlots, HasNoProcessSlot, SitsAt, WorldStep, WorldRun, DomainTurn, OutsideStep, CopiedStep, CopiedRun};
ghost use Rattle.iol_proc.specs.World.{CopiedTurnAt, TurnAt};

use crate::activity::Activity;
use crate::choice::Choice;
use crate::look::Look;
use crate::process::Process;
use crate::process_slot::ProcessSlot;
use crate::rounds::until_idle;
use crate::turn::place_turn;
use iol_back::backing::Backing;
use iol_core::events::{Event, Reply};
use iol_core::numbers::DomainId;
use iol_core::refusals::Refusal;
use iol_kernel::report::Report;
use iol_system::system::System;
use std::alloc::{AllocError, Global};
use std::marker::Model;

/// A system, and a process in each of some domains, in ascending order of domains.
#[derive(Drop)]
pub struct World<B: Backing, P: Process> {
    alloc: Global,
    pub(crate) system: System<B>,
    process_slots: Vec<ProcessSlot<P>>,
    resource_failure: bool,

    // Space for the counts of yields in `until_idle`.
    yields: Vec<u8>,
}

impl<B: Backing, P: Process> Model for World<B, P> {
    ghost use Rattle.std.specs.Prelude.{◌≡◌, length};
    ghost use Rattle.std.specs.List.Sorted.{IsStrictlyIncreasing};
    ghost use Rattle.iol_system.specs.Prelude.{SystemState};
    ghost use Rattle.iol_proc.specs.World.{WorldState, domains_of};

    ghost Value = { WorldState SystemState P };

    ghost view = { λ w. record { machine = w.system; process_slots = w.process_slots.items; resource_failure = w.resource_failure } };

    ghost invariant = { λ w. (length w.yields.items ≡ length w.process_slots.items)
        × IsStrictlyIncreasing (domains_of w.process_slots.items) };
}

impl<B: Backing + Drop, P: Process> World<B, P> {
    /// Creates a world of this system and these processes, each in its domain, with Done as its
    /// last reply. If memory runs out, both are dropped.
    pub fn new(
        alloc: Global,
        system: System<B>,
        processes: Vec<(DomainId, P)>,
    ) -> Result<World<B, P>, AllocError>
        requires { IsDistinct nat_eq (map (λ p. p.0) processes.items) }
        ensures system { IfOk result (λ w. w.machine ≡ system) }
        ensures process_slots { IfOk result
            (λ w. IsPermutation (map process_slot_of processes.items) w.process_slots) }
        ensures rising { IfOk result (λ w. IsStrictlyIncreasing (domains_of w.process_slots)) }
        ensures failure_free { IfOk result (λ w. w.resource_failure ≡ false) }
    {
        let process_slots = process_slots_by_domain(alloc, processes)?;
        let yields = vec![in alloc; 0u8; process_slots.len()]?;
        Ok(World {
            alloc,
            system,
            process_slots,
            resource_failure: false,
            yields,
        })
    }

    /// The aggregates of a domain, as its process sees them.
    pub fn look(&self, by: DomainId) -> Look<'_>
        ensures { readable result ≡ readable_to (machine_of self.now.machine) by }
    {
        Look::new(self.system.aggregates(), by)
    }

    /// Borrows the system, for its aggregates and reports.
    pub fn system(&self) -> &System<B>
        ensures { result.now ≡ self.now.machine }
    {
        &self.system
    }

    /// The process of a domain.
    pub fn process(&self, by: DomainId) -> Option<&P>
        ensures { MatchOption result (HasNoProcessSlot self.now.process_slots by)
            (λ p. IsInSlots self.now.process_slots by p.now) }
    {
        let place = place_of(&self.process_slots, by)?;
        Some(&self.process_slots[place].process)
    }

    /// Executes an external event.
    pub fn step_outside(&mut self, event: Event) -> Reply
        ensures step { OutsideStep sharing P.turns self.old event result self.new }
        ensures copied { IfHonest self.old.machine.disk
            (CopiedStep P.turns self.old event result self.new) }
        ensures events { HasEvents self.old.machine self.new.machine }
        ensures honest { KeepsHonesty self.old.machine self.new.machine }
    {
        self.outside(&event)
    }

    /// Executes an external event.
    fn outside(&mut self, event: &Event) -> Reply
        ensures { OutsideStep sharing P.turns self.old event.now result self.new }
    {
        self.system.step_ref(event)
    }

    /// Runs a turn of the process in a domain.
    fn turn(&mut self, by: DomainId) -> Reply
        ensures { DomainTurn sharing P.turns self.old by result self.new }
    {
        match place_of(&self.process_slots, by) {
            None => Reply::Refused(Refusal::NoDomain),
            Some(place) => {
                let outcome = place_turn(
                    &mut self.system,
                    &mut self.process_slots,
                    &mut self.resource_failure,
                    place,
                );
                outcome.reply
            }
        }
    }

    /// Executes one choice.
    fn step(&mut self, choice: &Choice) -> Reply
        ensures { WorldStep sharing P.turns self.old choice.now result self.new }
    {
        match choice {
            Choice::Turn(by) => self.turn(*by),
            Choice::Outside(event) => self.outside(event),
        }
    }

    /// Executes the choices in order. If memory for the replies runs out, executes none: their
    /// space is reserved first.
    ///
    /// A turn is one call of `Process::next` and the call that it returns. The reply to a yield is
    /// Done; if the process runs out of memory it is Memory, and for a domain without process it
    /// is NoDomain.
    pub fn run(&mut self, choices: &[Choice]) -> Result<Vec<Reply>, AllocError>
        ensures shared { IfOk result
            (λ replies. WorldRun sharing P.turns self.old choices.now replies.items self.new) }
        ensures run { IfHonest self.old.machine.disk (IfOk result
            (λ replies. CopiedRun P.turns self.old choices.now replies.items self.new)) }
        ensures events { HasEvents self.old.machine self.new.machine }
        ensures honest { KeepsHonesty self.old.machine self.new.machine }
        ensures err { OnErr result (self.new ≡ self.old) }
    {
        let mut replies = Vec::with_capacity(self.alloc, choices.len())?;
        for choice in choices {
            let reply = self.step(choice);
            replies.push_reserved(reply);
        }
        Ok(replies)
    }

    /// The number of processes.
    pub fn processes(&self) -> usize
        ensures { result ≡ length self.now.process_slots }
    {
        self.process_slots.len()
    }

    /// Runs a turn of the process at an index, in ascending order of domains, and returns what it
    /// did. None: there is no process at this index, and nothing changes.
    pub fn turn_at(&mut self, place: usize) -> Option<Activity>
        ensures shared { TurnAt sharing P.turns self.old place result self.new }
        ensures run { IfHonest self.old.machine.disk
            (CopiedTurnAt P.turns self.old place result self.new) }
        ensures events { HasEvents self.old.machine self.new.machine }
        ensures honest { KeepsHonesty self.old.machine self.new.machine }
    {
        if place >= self.process_slots.len() {
            return None;
        }
        let outcome = place_turn(
            &mut self.system,
            &mut self.process_slots,
            &mut self.resource_failure,
            place,
        );
        Some(outcome.activity())
    }

    /// Runs turns of the processes in ascending order of domains, round after round, at most
    /// `turns` in all. Returns true as soon as every process has yielded twice since the start, or
    /// since the last turn whose reply was not WouldBlock; returns false if that does not happen
    /// within `turns` turns.
    pub fn until_idle(&mut self, turns: usize) -> bool
        ensures shared { Idles sharing P.turns self.old turns result self.new }
        ensures run { IfHonest self.old.machine.disk
            (CopiedIdles P.turns self.old turns result self.new) }
        ensures events { HasEvents self.old.machine self.new.machine }
        ensures honest { KeepsHonesty self.old.machine self.new.machine }
    {
        until_idle(
            &mut self.system,
            &mut self.process_slots,
            &mut self.resource_failure,
            &mut self.yields,
            turns,
        )
    }

    /// Usage counts of the system, as by [`System::report`]. It changes nothing.
    pub fn report(&self) -> Result<Report, AllocError>
        ensures { Reports self.now.machine.kernel result }
    {
        self.system.report()
    }

    /// Returns whether the reply to a turn since [`World::new`] was TooMany, NoRoom, Fault or
    /// Memory. Once true, it stays true.
    pub fn rough(&self) -> bool
        ensures { result ≡ self.now.resource_failure }
    {
        self.resource_failure
    }
}

/// Sorts processes by ascending domains.
fn process_slots_by_domain<P: Process>(
    alloc: Global,
    processes: Vec<(DomainId, P)>,
) -> Result<Vec<ProcessSlot<P>>, AllocError>
    requires { IsDistinct nat_eq (map (λ p. p.0) processes.items) }
    ensures process_slots { IfOk result
        (λ process_slots. IsPermutation (map process_slot_of processes.items) process_slots.items) }
    ensures rising { IfOk result
        (λ process_slots. IsStrictlyIncreasing (domains_of process_slots.items)) }
{
    let mut process_slots = process_slots_for(alloc, processes)?;
    process_slots.sort_by_key(|process_slot| process_slot.by.number())?;
    Ok(process_slots)
}

/// Makes a process slot of each process, in the given order.
fn process_slots_for<P: Process>(
    alloc: Global,
    processes: Vec<(DomainId, P)>,
) -> Result<Vec<ProcessSlot<P>>, AllocError>
    ensures { IfOk result
        (λ process_slots. process_slots.items ≡ map process_slot_of processes.items) }
{
    let mut process_slots = Vec::new(alloc);
    for (by, process) in processes {
        process_slots.push(ProcessSlot {
            by,
            process,
            last: Reply::Done,
        })?;
    }
    Ok(process_slots)
}

/// The index of the process of a domain.
fn place_of<P: Process>(process_slots: &[ProcessSlot<P>], by: DomainId) -> Option<usize>
    ensures { MatchOption result
        (HasNoProcessSlot process_slots.now by) (SitsAt process_slots.now by) }
{
    process_slots
        .iter()
        .position(|process_slot| process_slot.by.number() == by.number())
}
