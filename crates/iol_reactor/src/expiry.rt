//! The effect of expired deadlines.
ghost use Rattle.std.specs.Prelude.{◌≡◌, ◌<◌, ◌≤◌, ◌-◌, None, IsTrue, OnOk, is_some, length};
ghost use Rattle.iol_reactor.specs.Connections.{AreCurrent};

use crate::client::{Client, Phase};
use crate::engine::Engine;
use crate::marks::Marks;
use crate::service::Service;
use crate::socket::Socket;
use crate::timers::Key;
use iol_back::backing::Backing;
use iol_proc::process::Process;
use std::alloc::AllocError;

impl<S: Socket + Drop, B: Backing + Drop, P: Process, V: Service<B, P>> Engine<S, B, P, V> {
    /// Ends the clients that broke a limit, and takes their connections from idle clients.
    pub fn expire(&mut self, service: &mut V) -> Result<(), AllocError> {
        self.end_silent(service)?;
        self.end_incomplete(service)?;
        self.end_slow(service)?;
        self.end_drained(service)?;
        self.end_outdated(service)?;
        self.park_idle()
    }

    // Ends the clients that were silent between requests for too long.
    fn end_silent(&mut self, service: &mut V) -> Result<(), AllocError> {
        for _ in 0..self.timers.silences.len() {
            let now = self.now();
            let Some(key) = self.timers.silences.take_due(now) else {
                break;
            };
            let most = self.limits.idle_millis;
            if !self.is_there(key) {
                continue;
            }
            let is_silent = self.is_silent(key.slot, now, most);
            if is_silent || self.timers.silences.set(now, key).is_err() {
                self.end(key, service)?;
            }
        }
        Ok(())
    }

    // Ends the clients whose request is incomplete for too long.
    fn end_incomplete(&mut self, service: &mut V) -> Result<(), AllocError> {
        for _ in 0..self.timers.heads.len() {
            let now = self.now();
            let Some(key) = self.timers.heads.take_due(now) else {
                break;
            };
            let most = self.limits.head_millis;
            let Some(marks) = self.marks(key) else {
                continue;
            };
            let Some(since) = marks.head_since else {
                marks.armed.head = false;
                continue;
            };
            let is_late = now.saturating_sub(since) >= most;
            if is_late || self.timers.heads.set(now, key).is_err() {
                self.end(key, service)?;
            }
        }
        Ok(())
    }

    // Ends the clients that accept too few bytes per second of their pending output.
    fn end_slow(&mut self, service: &mut V) -> Result<(), AllocError> {
        let least = self.limits.min_rate.saturating_mul(self.limits.rate_millis) / 1_000;
        for _ in 0..self.timers.rates.len() {
            let now = self.now();
            let Some(key) = self.timers.rates.take_due(now) else {
                break;
            };
            let Some(client) = self.places.get(key.slot) else {
                continue;
            };
            let is_blocked = client.is_blocked();
            let count = client.accepted();
            let Some(marks) = self.marks(key) else {
                continue;
            };
            if !is_blocked {
                marks.armed.rate = false;
                continue;
            }
            let accepted = count.saturating_sub(marks.rate_mark);
            marks.rate_mark = count;
            if accepted < least || self.timers.rates.set(now, key).is_err() {
                self.end(key, service)?;
            }
        }
        Ok(())
    }

    // Ends the clients whose peer's end was awaited for long enough.
    fn end_drained(&mut self, service: &mut V) -> Result<(), AllocError> {
        for _ in 0..self.timers.drains.len() {
            let now = self.now();
            let Some(key) = self.timers.drains.take_due(now) else {
                break;
            };
            self.end(key, service)?;
        }
        Ok(())
    }

    // Ends the clients that have a connection of an earlier world after the time that a world has
    // to retire. So no world retires afterwards.
    fn end_outdated(&mut self, service: &mut V) -> Result<(), AllocError>
        ensures alone { self.old.places.worlds.retiring ≡ None → self.new ≡ self.old }
        ensures early { self.old.now - self.old.renewed_at < self.old.limits.retire_millis →
            self.new ≡ self.old }
        ensures generation { self.new.places.worlds.links.generation ≡
            self.old.places.worlds.links.generation }
        ensures ended { IsTrue (is_some self.old.places.worlds.retiring) →
            self.old.limits.retire_millis ≤ self.old.now - self.old.renewed_at →
            OnOk result (AreCurrent self.old.places.worlds.links.generation
            (length self.old.places.clients.items) self.new.places.worlds.links.table.items) }
    {
        if !self.is_overdue() {
            return Ok(());
        }
        for slot in 0..self.places.len() {
            if self.worlds().is_outdated(slot) {
                self.places.abandon(slot, service);
                self.is_moved = true;
                self.list(slot)?;
            }
        }
        Ok(())
    }

    // Takes the connections of clients that are idle for some time; if others wait for a
    // connection, of all that are idle.
    fn park_idle(&mut self) -> Result<(), AllocError> {
        let is_full = !self.waiting.is_empty();
        let now = self.now();
        for _ in 0..self.timers.parks.len() {
            let due = if is_full {
                self.timers.parks.take_first()
            } else {
                self.timers.parks.take_due(now)
            };
            let Some(key) = due else {
                break;
            };
            self.park(key, is_full)?;
        }
        Ok(())
    }

    // Takes a client's connection if it is idle, or checks it again later.
    fn park(&mut self, key: Key, is_full: bool) -> Result<(), AllocError> {
        let now = self.now();
        let most = self.limits.park_millis;
        let has_link = self.worlds().has_link(key.slot);
        let is_idle_for = self.is_idle_for(key.slot, now, if is_full { 0 } else { most });
        let Some(marks) = self.marks(key) else {
            return Ok(());
        };
        if !has_link {
            marks.armed.park = false;
            return Ok(());
        }
        if is_idle_for && !marks.is_ready {
            marks.armed.park = false;
            self.places.leave(key.slot);
            self.is_moved = true;
            return self.list(key.slot);
        }
        self.timers.parks.set(now, key)
    }

    // The marks of the client of a deadline, if it is still there.
    fn marks(&mut self, key: Key) -> Option<&mut Marks> {
        match self.marks.get_mut(key.slot) {
            Some(Some(marks)) if marks.serial == key.serial => Some(marks),
            _ => None,
        }
    }

    // Whether the client of a deadline is still there.
    pub(crate) fn is_there(&self, key: Key) -> bool {
        match self.marks.get(key.slot) {
            Some(Some(marks)) => marks.serial == key.serial,
            _ => false,
        }
    }

    // Whether the client in this place is between two requests, has sent nothing of the next one,
    // and was silent for this time.
    fn is_silent(&self, slot: usize, now: u64, most: u64) -> bool {
        match self.places.get(slot) {
            Some(client) => is_between(client) && client.silence(now) >= most,
            None => false,
        }
    }

    // Whether the client in this place is idle, and was silent for this time.
    fn is_idle_for(&self, slot: usize, now: u64, most: u64) -> bool {
        match self.places.get(slot) {
            Some(client) => client.phase() == Phase::Idle && client.silence(now) >= most,
            None => false,
        }
    }

    // Ends a client. It is removed in the next round.
    fn end(&mut self, key: Key, service: &mut V) -> Result<(), AllocError> {
        if !self.is_there(key) {
            return Ok(());
        }
        self.places.abandon(key.slot, service);
        self.is_moved = true;
        self.list(key.slot)
    }
}

// Whether a client is between two requests, and has sent nothing of the next one.
fn is_between<S: Socket>(client: &Client<S>) -> bool {
    matches!(client.phase(), Phase::Parked | Phase::Idle) && client.next().is_empty()
}
