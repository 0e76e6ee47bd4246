//! The clients and the worlds that serve them, for all kinds of sockets.
ghost use Rattle.std.specs.Prelude.{◌≡◌, ◌<◌, ◌≤◌, ◌+◌, ◌-◌, ◌^◌, ◌&&◌, ◌||◌, ◌++◌, ◌∷◌, []};
ghost use Rattle.std.specs.Prelude.{◌≢◌, ◌⊎◌, count_by, get_or, length};
ghost use Rattle.std.specs.Prelude.{is_some, max, min, nat_le, nat_lt, not, option_map, true};
ghost use Rattle.std.specs.Prelude.{None, Some, IfNone, IfOk, IfSome};
ghost use Rattle.iol_reactor.specs.Deadlines.{earlier_of, first_of};
ghost use Rattle.iol_reactor.specs.Served.{HasKnownHistory, HasSocketAt, IsEmpty, OthersStay};
ghost use Rattle.iol_reactor.specs.Served.{next_free};

use crate::client::Client;
use crate::limits::{Limits, ROOM_MILLIS};
use crate::marks::Marks;
use crate::outbox::Outbox;
use crate::places::Places;
use crate::room::Room;
use crate::service::Service;
use crate::socket::Socket;
use crate::timers::{Key, Timers, earlier};
use crate::worlds::Worlds;
use iol_back::backing::Backing;
use iol_proc::process::Process;
use iol_proc::world::World;
use std::alloc::{AllocError, Global};
use std::collections::VecDeque;
use std::net::SocketAddr;

/// The clients, the worlds, and the next step of each client.
#[derive(Drop)]
pub struct Engine<S: Socket, B: Backing, P: Process, V: Service<B, P>> {
    pub(crate) alloc: Global,
    pub(crate) limits: Limits,
    pub(crate) places: Places<S, B, P, V>,

    // The marks of each client, by its place, and the places that are free.
    pub(crate) marks: Vec<Option<Marks>>,
    pub(crate) free: Vec<usize>,
    serial: u64,

    // The clients that are visited in the next round, and those with a pending response, which are
    // visited in each round.
    pub(crate) ready: Vec<usize>,
    pub(crate) pending: Vec<usize>,

    // The lists of the last round, kept for their memory.
    pub(crate) ready_before: Vec<usize>,
    pub(crate) pending_before: Vec<usize>,

    // The clients that wait for a connection, in the order in which they began to wait.
    pub(crate) waiting: VecDeque<Key>,

    // The buffer for reads and collected bytes.
    pub(crate) piece: Vec<u8>,
    pub(crate) outbox: Outbox,

    pub(crate) timers: Timers,

    // The time of the next attempt of steps that lacked room or memory, if any.
    pub(crate) retry_at: Option<u64>,

    // Whether all processes are idle, and whether a world may have changed since they were.
    pub(crate) is_idle: bool,
    pub(crate) is_moved: bool,

    // The process with which rounds of turns continue.
    pub(crate) next_process: usize,
    now: u64,

    // The time of the last renewal.
    renewed_at: u64,
}

impl<S: Socket + Drop, B: Backing + Drop, P: Process, V: Service<B, P>> Engine<S, B, P, V> {
    /// No client yet.
    pub fn new(
        alloc: Global,
        world: World<B, P>,
        limits: Limits,
    ) -> Result<Engine<S, B, P, V>, AllocError>
        requires { V.starts world }
        ensures world { IfOk result (λ engine. engine.places.worlds.current.world ≡ world) }
        ensures empty { IfOk result (λ engine. engine.places.clients.items ≡ []) }
        ensures limits { IfOk result (λ engine. engine.limits ≡ limits) }
        ensures free { IfOk result (λ engine. engine.free.items ≡ []) }
        ensures time { IfOk result (λ engine. engine.now ≡ 0) }
        ensures alone { IfOk result (λ engine. engine.places.worlds.retiring ≡ None) }
    {
        match Room::new(alloc, &limits) {
            Ok(room) => Ok(Engine::within(alloc, room, world, limits)),
            Err(error) => {
                drop(world);
                Err(error)
            }
        }
    }

    // No client yet, and room for all that may come.
    fn within(
        alloc: Global,
        room: Room<S>,
        world: World<B, P>,
        limits: Limits,
    ) -> Engine<S, B, P, V>
        requires starts { V.starts world }
        requires empty { room.clients.items ≡ [] }
        ensures world { result.places.worlds.current.world ≡ world }
        ensures empty { result.places.clients.items ≡ [] }
        ensures limits { result.limits ≡ limits }
        ensures free { result.free ≡ room.free }
        ensures time { result.now ≡ 0 }
        ensures alone { result.places.worlds.retiring ≡ None }
    {
        Engine {
            alloc,
            limits,
            places: Places::new(room.clients, Worlds::new(world, room.links)),
            marks: room.marks,
            free: room.free,
            serial: 0,
            ready: room.ready,
            pending: room.pending,
            ready_before: room.ready_before,
            pending_before: room.pending_before,
            waiting: room.waiting,
            piece: room.piece,
            outbox: room.outbox,
            timers: room.timers,
            retry_at: None,
            is_idle: true,
            is_moved: true,
            next_process: 0,
            now: 0,
            renewed_at: 0,
        }
    }

    /// The number of clients: that of places, without the free ones.
    pub fn count(&self) -> usize
        ensures { result ≡ length self.entry.now.places.clients.items
            - length self.entry.now.free.items }
    {
        self.places.len().saturating_sub(self.free.len())
    }

    /// The time, in milliseconds since the service began.
    pub fn now(&self) -> u64
        ensures { result ≡ self.entry.now.now }
    {
        self.now
    }

    /// Sets the time; it never goes back.
    pub fn set_now(&mut self, now: u64)
        ensures { self.new ≡ record self.old { now = max now self.old.now } }
    {
        self.now = now.max(self.now);
    }

    /// The worlds.
    pub fn worlds(&self) -> &Worlds<B, P, V>
        ensures { result.now ≡ self.entry.now.places.worlds }
    {
        self.places.worlds()
    }

    /// New requests go to this world from now on, and those in progress finish in the present one.
    /// A world that is still retiring is dropped.
    pub fn renew(&mut self, world: World<B, P>)
        requires { V.starts world }
        ensures clients { self.new.places.clients ≡ self.old.places.clients }
        ensures takes { self.old.places.worlds.links.generation < 18446744073709551615 →
            self.new.places.worlds.current.world ≡ world }
        ensures since { self.new.renewed_at ≡ self.old.now }
        ensures time { self.new.now ≡ self.old.now }
        ensures limits { self.new.limits ≡ self.old.limits }
        ensures moved { self.new.is_moved ≡ true }
    {
        self.places.renew(world);
        self.is_moved = true;
        self.renewed_at = self.now;
    }

    /// Whether a world retires, and the time that it has for that is over.
    pub fn is_overdue(&self) -> bool
        ensures { result ≡ (is_some self.entry.now.places.worlds.retiring
            && nat_le self.entry.now.limits.retire_millis
            (self.entry.now.now - self.entry.now.renewed_at)) }
    {
        self.worlds().is_retiring()
            && self.now.saturating_sub(self.renewed_at) >= self.limits.retire_millis
    }

    /// The client in this place.
    pub fn client(&self, slot: usize) -> Option<&Client<S>>
        ensures place { IfSome result
            (λ c. get_or self.entry.now.places.clients.items slot None ≡ Some c.now) }
        ensures none { IfNone result
            (get_or self.entry.now.places.clients.items slot None ≡ None) }
        ensures history { IfSome result (λ c. HasKnownHistory P.turns V.starts V.frames
            V.POOL S.supplied S.accepted c.now) }
    {
        self.places.get(slot)
    }

    /// The socket of the client in this place.
    pub fn socket(&self, slot: usize) -> Option<&S>
        ensures socket { IfSome result (λ s. option_map (λ c. c.socket)
            (get_or self.entry.now.places.clients.items slot None) ≡ Some s.now) }
        ensures none { IfNone result
            (get_or self.entry.now.places.clients.items slot None ≡ None) }
    {
        match self.places.get(slot) {
            Some(client) => Some(client.socket()),
            None => None,
        }
    }

    /// Whether there is a place for one more client.
    pub fn has_place(&self) -> bool
        ensures { result ≡ nat_lt
            (length self.entry.now.places.clients.items - length self.entry.now.free.items)
            self.entry.now.limits.max_clients }
    {
        self.count() < self.limits.max_clients
    }

    /// The place of the next client, for which there is memory. None: there is no place, or no
    /// memory, for one more.
    pub fn vacancy(&mut self) -> Option<usize>
        ensures next { IfSome result (λ slot. next_free self.new.free.items ≡ Some slot) }
        ensures place { self.old.free.items ≢ [] → self.new.places ≡ self.old.places }
    {
        if self.timers.silences.reserve().is_err() {
            return None;
        }
        match self.free.last() {
            Some(slot) => Some(*slot),
            None => self.add_place(),
        }
    }

    // Adds a place, if one more is allowed, and returns it.
    fn add_place(&mut self) -> Option<usize>
        ensures within { IfSome result (λ slot. slot < self.old.limits.max_clients) }
        ensures last { IfSome result (λ slot. slot ≡ length self.old.places.clients.items) }
        ensures free { IfSome result
            (λ slot. self.new.free.items ≡ self.old.free.items ++ slot ∷ []) }
        ensures full { self.old.limits.max_clients ≤ length self.old.places.clients.items →
            (result ≡ None) × (self.new ≡ self.old) }
    {
        let slot = self.places.len();
        if slot >= self.limits.max_clients
            || self.places.add_place().is_err()
            || self.marks.push(None).is_err()
            || self.free.push(slot).is_err()
        {
            return None;
        }
        Some(slot)
    }

    /// A new client, in the place that `vacancy` gave. If there is no such place, or no memory for
    /// its deadline, the socket is dropped.
    pub fn admit(&mut self, socket: S, peer: SocketAddr)
        requires supplied { IsEmpty (S.supplied socket) }
        requires accepted { IsEmpty (S.accepted socket) }
        ensures full { self.old.free.items ≡ [] → self.new.places ≡ self.old.places }
        ensures others { IfSome (next_free self.old.free.items) (λ slot. OthersStay slot
            self.old.places.clients.items self.new.places.clients.items) }
        ensures admits { IfSome (next_free self.old.free.items) (λ slot.
            slot < length self.old.places.clients.items →
            HasSocketAt socket slot self.new.places.clients.items
            ⊎ (self.new.places ≡ self.old.places)) }
    {
        let Some(slot) = self.free.pop() else {
            return;
        };
        self.serial = self.serial.saturating_add(1);
        let serial = self.serial;
        if self
            .timers
            .silences
            .set(self.now, Key { slot, serial })
            .is_err()
        {
            let _ = self.free.push(slot);
            return;
        }
        if let Some(place) = self.marks.get_mut(slot) {
            *place = Some(Marks::new(serial));
        }
        self.places.admit(slot, self.alloc, socket, peer, self.now);
    }

    /// The socket of the client in this place was reported ready.
    pub fn note(
        &mut self,
        slot: usize,
        reads: bool,
        ends: bool,
        writes: bool,
    ) -> Result<(), AllocError> {
        if self.places.note(slot, reads, ends, writes) {
            self.list(slot)?;
        }
        Ok(())
    }

    /// The client at this index is visited in the next round.
    pub(crate) fn list(&mut self, slot: usize) -> Result<(), AllocError>
        ensures places { self.new.places ≡ self.old.places }
    {
        if let Some(Some(marks)) = self.marks.get_mut(slot) {
            if !marks.is_ready {
                marks.is_ready = true;
                self.ready.push(slot)?;
            }
        }
        Ok(())
    }

    /// A step lacked room or memory: all clients are visited after a while.
    pub(crate) fn starve(&mut self)
        ensures waits { IfSome self.old.retry_at (λ at. self.new ≡ self.old) }
        ensures retries { self.old.retry_at ≡ None → self.new ≡ record self.old {
          retry_at = Some (min (self.old.now + ROOM_MILLIS) (2 ^ 64 - 1));
        } }
    {
        if self.retry_at.is_none() {
            self.retry_at = Some(self.now.saturating_add(ROOM_MILLIS));
        }
    }

    /// Whether a round has work at once.
    pub fn is_busy(&self) -> bool
        ensures { result ≡ ((nat_lt 0 (length self.entry.now.ready.items)
            || not self.entry.now.is_idle)
            || (nat_lt 0 (length self.entry.now.waiting.items)
            && nat_lt (count_by is_some self.entry.now.places.worlds.links.table.items)
            self.entry.now.limits.live)) }
    {
        !self.ready.is_empty()
            || !self.is_idle
            || (!self.waiting.is_empty() && self.worlds().links() < self.limits.live)
    }

    /// The first time of a deadline or a retry, which no socket reports.
    pub fn first_deadline(&self) -> Option<u64>
        ensures { result ≡ earlier_of (earlier_of
            (first_of self.entry.now.timers.silences.entries.items)
            (earlier_of (first_of self.entry.now.timers.heads.entries.items)
            (earlier_of (first_of self.entry.now.timers.rates.entries.items)
            (earlier_of (first_of self.entry.now.timers.drains.entries.items)
            (first_of self.entry.now.timers.parks.entries.items))))) self.entry.now.retry_at }
    {
        earlier(self.timers.first(), self.retry_at)
    }
}
