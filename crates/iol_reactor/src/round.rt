//! A round: the work between two polls of the sockets.
ghost use Rattle.std.specs.Prelude.{◌≡◌, ◌++◌, ◌∷◌, [], None, OnOk, get_or, is_some, if◌then◌else◌};
ghost use Rattle.iol_reactor.specs.Served.{OthersStay};

use crate::client::Phase;
use crate::engine::Engine;
use crate::exchange::{Moment, Step};
use crate::service::Service;
use crate::socket::Socket;
use crate::timers::Key;
use crate::turns::{Order, Stopped, Stopwatch};
use iol_back::backing::Backing;
use iol_proc::process::Process;
use std::alloc::AllocError;
use std::mem;

impl<S: Socket + Drop, B: Backing + Drop, P: Process, V: Service<B, P>> Engine<S, B, P, V> {
    /// A round: hands in complete requests, gives the processes this number of turns at most, and
    /// sends their output. A process has turns until it is idle, so one that acts without end
    /// leaves none to the others.
    pub fn round(&mut self, turns: usize, service: &mut V) -> Result<(), AllocError> {
        if self.begin_round(service)? {
            self.take_turns(turns, &mut Stopped);
            self.end_round(service)?;
        }
        Ok(())
    }

    /// Begins a round: hands in complete requests. False: it has nothing to do.
    pub(crate) fn begin_round(&mut self, service: &mut V) -> Result<bool, AllocError> {
        self.retry_all()?;
        self.call_waiting()?;
        if !self.is_busy() {
            return Ok(false);
        }
        self.receive_ready(service)?;
        Ok(true)
    }

    /// Gives turns to the processes until all are idle or their time is over, but at most this
    /// number. If they are idle, and no world changed, they are given none.
    pub(crate) fn take_turns<W: Stopwatch>(&mut self, most: usize, watch: &mut W) {
        if !self.is_moved && self.is_idle && self.pending.is_empty() {
            return;
        }
        self.is_moved = false;
        let mut order = Order::new(self.worlds().processes(), self.next_process);
        for _ in 0..most {
            if order.is_over() {
                break;
            }
            match self.places.turn_at(order.place()) {
                Some(activity) => order.note(activity, watch),
                None => break,
            }
        }
        self.is_idle = order.is_idle();
        self.next_process = order.next();
    }

    /// Ends a round: sends the output of the processes.
    pub(crate) fn end_round(&mut self, service: &mut V) -> Result<(), AllocError> {
        mem::swap(&mut self.ready, &mut self.ready_before);
        mem::swap(&mut self.pending, &mut self.pending_before);
        self.unlist_pending();
        self.send_ready(service)?;
        self.send_pending(service)
    }

    // Receives from the clients that are ready. A client without a connection changes no world.
    fn receive_ready(&mut self, service: &mut V) -> Result<(), AllocError> {
        for place in 0..self.ready.len() {
            if let Some(slot) = self.ready.get(place) {
                let slot = *slot;
                let had_link = self.worlds().has_link(slot);
                self.receive(slot, service)?;
                if had_link || self.worlds().has_link(slot) {
                    self.is_moved = true;
                }
            }
        }
        Ok(())
    }

    // The clients of the list of pending responses are in it no longer.
    fn unlist_pending(&mut self) {
        for slot in &self.pending_before {
            if let Some(Some(marks)) = self.marks.get_mut(*slot) {
                marks.is_pending = false;
            }
        }
    }

    // Sends to the clients that were ready.
    fn send_ready(&mut self, service: &mut V) -> Result<(), AllocError> {
        for place in 0..self.ready_before.len() {
            if let Some(slot) = self.ready_before.get(place) {
                let slot = *slot;
                if let Some(Some(marks)) = self.marks.get_mut(slot) {
                    marks.is_ready = false;
                }
                let step = self.send(slot, service);
                self.after(slot, step)?;
            }
        }
        self.ready_before.clear();
        Ok(())
    }

    // Sends to the clients whose response was pending before the round, unless it has sent to them.
    fn send_pending(&mut self, service: &mut V) -> Result<(), AllocError> {
        for place in 0..self.pending_before.len() {
            if let Some(slot) = self.pending_before.get(place) {
                let slot = *slot;
                if !self.is_listed(slot) {
                    let step = self.send(slot, service);
                    self.after(slot, step)?;
                }
            }
        }
        self.pending_before.clear();
        Ok(())
    }

    // Whether the client in this place is in a list of the next round, or there is none.
    fn is_listed(&self, slot: usize) -> bool {
        match self.marks.get(slot) {
            Some(Some(marks)) => marks.is_ready || marks.is_pending,
            _ => true,
        }
    }

    // Visits all clients if the time of the retry for lack of room has come.
    fn retry_all(&mut self) -> Result<(), AllocError> {
        let Some(at) = self.retry_at else {
            return Ok(());
        };
        if self.now() < at {
            return Ok(());
        }
        self.retry_at = None;
        for slot in 0..self.marks.len() {
            self.list(slot)?;
        }
        Ok(())
    }

    // Visits the clients that waited for a connection, as many as may have one.
    fn call_waiting(&mut self) -> Result<(), AllocError> {
        let vacant = self.limits.live.saturating_sub(self.worlds().links());
        for _ in 0..vacant {
            let Some(first) = self.waiting.pop_front() else {
                break;
            };
            if self.is_there(first) && self.places.call(first.slot) {
                self.list(first.slot)?;
            }
        }
        Ok(())
    }

    // Sends the output for a client, as far as its socket accepts it.
    fn send(&mut self, slot: usize, service: &mut V) -> Step {
        let moment = Moment {
            now: self.now(),
            is_idle: self.is_idle,
        };
        let Some(client) = self.places.get(slot) else {
            return Step::Rests;
        };
        match client.phase() {
            Phase::Over => Step::Over,
            Phase::Parked | Phase::Idle if client.may_read() => Step::Again,
            Phase::Parked | Phase::Idle | Phase::Waiting => Step::Rests,
            Phase::Answering | Phase::Leaving => {
                let step = self.answer(slot, service, moment);
                match self.places.phase(slot) {
                    Phase::Flushing => self.close(slot),
                    _ => step,
                }
            }
            Phase::Flushing | Phase::Closing => self.close(slot),
        }
    }

    // Sends the output for a client with a connection.
    fn answer(&mut self, slot: usize, service: &mut V, moment: Moment) -> Step {
        let outbox = &mut self.outbox;
        let step = self.places.answer(outbox, slot, service, moment);
        // No process waits for a connection that the processes have closed.
        if step == Step::Over || self.worlds().has_link(slot) {
            self.is_moved = true;
        }
        step
    }

    // Ends a client without a connection.
    fn close(&mut self, slot: usize) -> Step {
        let now = self.now();
        self.places.close(slot, self.piece.as_mut_slice(), now)
    }

    // Processes the next step of a client that was visited.
    fn after(&mut self, slot: usize, step: Step) -> Result<(), AllocError> {
        match step {
            Step::Over => self.forget(slot),
            Step::Again => self.list(slot),
            Step::Pending => self.list_pending(slot),
            Step::Rests => {
                self.watch(slot);
                Ok(())
            }
            Step::Starved => {
                self.starve();
                Ok(())
            }
        }
    }

    // Visits a client's response after each series of process turns.
    fn list_pending(&mut self, slot: usize) -> Result<(), AllocError> {
        if let Some(Some(marks)) = self.marks.get_mut(slot) {
            if !marks.is_pending {
                marks.is_pending = true;
                self.pending.push(slot)?;
            }
        }
        Ok(())
    }

    // A client is removed.
    fn forget(&mut self, slot: usize) -> Result<(), AllocError>
        ensures removed { get_or self.new.places.clients.items slot None ≡ None }
        ensures others { OthersStay slot self.old.places.clients.items
            self.new.places.clients.items }
        ensures worlds { self.new.places.worlds ≡ self.old.places.worlds }
        ensures free { OnOk result (self.new.free.items ≡
            (if is_some (get_or self.old.places.clients.items slot None)
            then self.old.free.items ++ slot ∷ []
            else self.old.free.items)) }
    {
        if self.places.remove(slot).is_some() {
            if let Some(place) = self.marks.get_mut(slot) {
                *place = None;
            }
            self.free.push(slot)?;
        }
        Ok(())
    }

    // A client rests: the deadline of its phase is set.
    fn watch(&mut self, slot: usize) {
        let now = self.now();
        let (Some(client), Some(Some(marks))) = (self.places.get(slot), self.marks.get_mut(slot))
        else {
            return;
        };
        let serial = marks.serial;
        let key = Key { slot, serial };
        if client.is_blocked() && !marks.armed.rate {
            if self.timers.rates.set(now, key).is_err() {
                self.starve();
                return;
            }
            marks.armed.rate = true;
            marks.rate_mark = client.accepted();
        } else if client.phase() == Phase::Closing && !marks.armed.drain {
            if self.timers.drains.set(now, key).is_err() {
                self.starve();
                return;
            }
            marks.armed.drain = true;
        }
    }
}
