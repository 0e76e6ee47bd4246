//! The state of the server: its clients, the pending call, and the free workers.
ghost use Rattle.std.specs.Prelude.{◌≡◌, ◌<◌, ◌≤◌, [], IfOk, OnErr, length, min};
ghost use Rattle.iol_core.specs.Prelude.{in_place};
ghost use Rattle.flash_laws.specs.Prelude.{runs_scripts, WantsPlace};
ghost use Rattle.flash_laws.specs.declared.phase.PendingCall.TheVariants.{Accepting, At};
ghost use Rattle.flash_lite.specs.ReceivedBytes.{received};
ghost use Rattle.flash_lite.specs.Table.{IsBetweenTurns, new_table};
ghost use Rattle.flash_lite.specs.ServerTurn.{LeavesPlace, MayRest, PicksNext, Turns, WantsAt, first_in, has_in};
ghost use Rattle.flash_lite.specs.declared.site.TheConstants.{MAX_WORKERS};

use crate::client::{Context, Course, Left};
use crate::received::Received;
use crate::server::MAX_CONNS;
use crate::site::MAX_WORKERS;
use crate::table::held::Clients;
use crate::table::pick::{accept_step, most_with, pick};
use crate::table::workers::{first_free, turned, worker_left};
use flash_laws::phase::PendingCall;
use iol_core::events::Reply;
use iol_core::numbers::Fd;
use iol_proc::process::Turn;
use std::alloc::{AllocError, Global};
use std::marker::Model;

mod held;
mod pick;
mod place_list;
mod workers;

/// The clients, by the index of their descriptors, the pending call, and for each worker whether
/// it is free.
#[derive(Drop)]
pub(crate) struct Table {
    clients: Clients,
    pending_call: PendingCall,
    workers: u32,
    free: [bool; 8],
}

impl Model for Table {
    ghost use Rattle.std.specs.Prelude.{◌≤◌};
    ghost use Rattle.flash_lite.specs.Table.{Table as TableState};
    ghost use Rattle.flash_lite.specs.declared.site.TheConstants.{MAX_WORKERS};

    ghost Value = { TableState };

    ghost view = { λ s. record {
      clients = s.clients;
      pending_call = s.pending_call;
      workers = s.workers;
      free = s.free;
    } };

    ghost invariant = { λ s. s.workers ≤ MAX_WORKERS };
}

impl Table {
    /// No clients, and `workers` workers, all free.
    pub(crate) fn new(alloc: Global, workers: u32) -> Table
        requires { workers ≤ MAX_WORKERS }
        ensures { result ≡ new_table workers }
    {
        Table {
            clients: Clients::new(alloc),
            pending_call: PendingCall::Nothing,
            workers,
            free: [true; 8],
        }
    }

    // Returns whether scripts are run.
    fn scripts(&self) -> bool
        ensures { result ≡ runs_scripts self.now.workers }
    {
        0 < self.workers
    }

    // Returns whether a worker is free.
    fn has_free(&self, free: &[bool; 8]) -> bool
        ensures { result ≡ has_in self.now.workers free.now }
    {
        first_free(free, self.workers) < self.workers
    }

    // A free worker, if any.
    fn worker(&self) -> u32
        ensures worker { result ≡ min (first_in self.now.workers self.now.free) 7 }
        ensures within { result < MAX_WORKERS }
    {
        first_free(&self.free, self.workers).min(MAX_WORKERS - 1)
    }

    // Picks the first client from an index on.
    fn pick_from(&mut self, from: usize) -> Result<Turn, AllocError>
        ensures { PicksNext from self.old result self.new }
    {
        let free = self.free;
        let (scripts, has_free) = (self.scripts(), self.has_free(&free));
        let (pending_call, turn) = pick(scripts, has_free, &self.clients, from, MAX_CONNS)?;
        self.pending_call = pending_call;
        Ok(turn)
    }

    // After the reply to `accept`: accepts the next connection, or ends the round if no
    // connection is waiting.
    #[tactic(auto, using(crate::proofs::Turns::TurnParts::accepted_turns, crate::proofs::Turns::TurnParts::over_turns))]
    fn advance_accepting(&mut self, last: &Reply) -> Result<Turn, AllocError>
        requires accepts { self.old.pending_call ≡ Accepting }
        requires between { IsBetweenTurns self.old }
        ensures turn { IfOk result (λ turn. Turns self.old last.now [] turn self.new) }
        ensures err { OnErr result (self.new ≡ self.old) }
        ensures wants { OnErr result (WantsPlace self.old.clients last.now) }
    {
        match last {
            Reply::Fd(fd) => {
                let place = fd.number();
                let was = self.clients.worker_at(place);
                self.clients.admit(place)?;
                self.free = turned(self.free, was, None);
                let (pending_call, turn) = accept_step(&self.clients, MAX_CONNS);
                self.pending_call = pending_call;
                Ok(turn)
            }
            _ => {
                self.pending_call = PendingCall::Nothing;
                Ok(Turn::Yield)
            }
        }
    }

    // The turn of the client at an index passes to others, and the next call is that of another. A
    // client whose connection is over makes room for one more. `free` has the workers that are
    // free then.
    fn leave(&mut self, fd: u32, left: Left, free: [bool; 8]) -> Result<Turn, AllocError>
        requires within { fd < length self.old.clients }
        requires rests { MayRest (in_place self.old.clients fd) left }
        ensures { LeavesPlace fd left free self.old result self.new }
    {
        let (scripts, has_free) = (self.scripts(), self.has_free(&free));
        let (from, most) = (fd as usize + 1, most_with(&left));
        let (pending_call, turn) = pick(scripts, has_free, &self.clients, from, most)?;
        self.clients.leave_at(fd, left);
        self.free = free;
        self.pending_call = pending_call;
        Ok(turn)
    }

    // The next call after the reply to the call of the client at an index.
    #[tactic(auto, using(crate::proofs::Turns::TurnParts::place_rules, crate::proofs::Turns::Wants::place_rules))]
    fn advance_at(&mut self, fd: u32, reply: Received<'_>) -> Result<Turn, AllocError>
        requires flies { self.old.pending_call ≡ At fd }
        requires between { IsBetweenTurns self.old }
        ensures turn { IfOk result (λ turn. Turns self.old reply.entry.last.now
            (received reply.entry.parts) turn self.new) }
        ensures err { OnErr result (self.new ≡ self.old) }
        ensures wants { OnErr result (WantsAt self.old (At fd) reply.entry.last.now
            (received reply.entry.parts)) }
    {
        let was = self.clients.worker_at(fd);
        let (scripts, worker) = (self.scripts(), self.worker());
        let context = Context {
            scripts,
            fd: Fd::new(fd),
            worker,
        };
        match self.clients.advance_at(context, reply)? {
            None => self.pick_from(fd as usize + 1),
            Some(Course::Asks(call)) => {
                let now = self.clients.worker_at(fd);
                self.free = turned(self.free, was, now);
                Ok(Turn::Make(call))
            }
            Some(Course::Leaves(left)) => {
                let free = turned(self.free, was, worker_left(&left, was));
                let turn = self.leave(fd, left, free)?;
                Ok(turn)
            }
        }
    }

    /// The next call after the reply to the pending call.
    #[tactic(auto, using(crate::proofs::Turns::TurnParts::silent_rules, crate::proofs::Turns::Wants::nothing_wants))]
    pub(crate) fn advance(&mut self, reply: Received<'_>) -> Result<Turn, AllocError>
        requires { IsBetweenTurns self.old }
        ensures turn { IfOk result (λ turn. Turns self.old reply.entry.last.now
            (received reply.entry.parts) turn self.new) }
        ensures err { OnErr result (self.new ≡ self.old) }
        ensures wants { OnErr result (WantsAt self.old self.old.pending_call reply.entry.last.now
            (received reply.entry.parts)) }
    {
        match self.pending_call {
            PendingCall::Nothing => self.pick_from(0),
            PendingCall::Accepting => self.advance_accepting(reply.last),
            PendingCall::At { fd } => self.advance_at(fd, reply),
        }
    }
}
