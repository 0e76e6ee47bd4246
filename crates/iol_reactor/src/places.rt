//! The clients in their places, and the worlds that serve them.
ghost use Rattle.std.specs.Prelude.{◌≡◌, ◌≢◌, ◌<◌, [], length, get_or, None, Some, true, false};
ghost use Rattle.std.specs.Prelude.{IfNone, IfOk, IfSome, ◌≤◌, ◌++◌, ◌∷◌, ◌==◌, OnOk, OnErr, is_some};
ghost use Rattle.std.specs.Prelude.{count_by, if◌then◌else◌};
ghost use Rattle.iol_reactor.specs.Connections.{link_at};
ghost use Rattle.iol_reactor.specs.LinkSteps.{WorldsTurnAt};
ghost use Rattle.iol_reactor.specs.LinkVisits.{IsOver, serving};
ghost use Rattle.iol_reactor.specs.Served.{AreFollowed, HasKnownHistory, HasSocketAt, IsEmpty};
ghost use Rattle.iol_reactor.specs.Served.{IsFrameAt, IsPhaseAt, OthersStay, is_ending, is_free};

use crate::client::{Client, Phase};
use crate::input::Reading;
use crate::service::{Frame, Service};
use crate::socket::Socket;
use crate::worlds::Worlds;
use iol_back::backing::Backing;
use iol_proc::activity::Activity;
use iol_proc::process::Process;
use iol_proc::world::World;
use std::alloc::{AllocError, Global};
use std::net::SocketAddr;

/// The clients, and the worlds in which they have connections.
#[derive(Drop)]
pub struct Places<S: Socket, B: Backing, P: Process, V: Service<B, P>> {
    pub(crate) clients: Vec<Option<Client<S>>>,
    pub(crate) worlds: Worlds<B, P, V>,
    ghost followed: { AreFollowed P.turns V.starts V.frames V.POOL S.supplied S.accepted
        (serving worlds.links.generation worlds.current.world (λ h. h.world) worlds.retiring)
        worlds.links.table.items clients.items },
}

impl<S: Socket + Drop, B: Backing + Drop, P: Process, V: Service<B, P>> Places<S, B, P, V> {
    /// No client is in these places yet.
    pub fn new(clients: Vec<Option<Client<S>>>, worlds: Worlds<B, P, V>) -> Places<S, B, P, V>
        requires { clients.items ≡ [] }
        ensures clients { result.clients ≡ clients }
        ensures worlds { result.worlds ≡ worlds }
    {
        Places { clients, worlds }
    }

    /// The number of places.
    pub fn len(&self) -> usize
        ensures { result ≡ length self.now.clients.items }
    {
        self.clients.len()
    }

    /// The worlds.
    pub fn worlds(&self) -> &Worlds<B, P, V>
        ensures { result.now ≡ self.now.worlds }
    {
        &self.worlds
    }

    /// The client in this place.
    pub fn get(&self, slot: usize) -> Option<&Client<S>>
        ensures place { IfSome result (λ c. get_or self.now.clients.items slot None ≡ Some c.now) }
        ensures none { IfNone result (get_or self.now.clients.items slot None ≡ None) }
        ensures history { IfSome result (λ c. HasKnownHistory P.turns V.starts V.frames
            V.POOL S.supplied S.accepted c.now) }
    {
        self.client_at(slot)
    }

    // The client in this place.
    fn client_at(&self, slot: usize) -> Option<&Client<S>>
        ensures place { IfSome result (λ c. get_or self.now.clients.items slot None ≡ Some c.now) }
        ensures none { IfNone result (get_or self.now.clients.items slot None ≡ None) }
    {
        match self.clients.get(slot) {
            Some(Some(client)) => Some(client),
            _ => None,
        }
    }

    /// The phase of the client in this place. `Over`: there is none.
    pub fn phase(&self, slot: usize) -> Phase
        ensures client { IsPhaseAt slot self.now.clients.items result }
        ensures none { get_or self.now.clients.items slot None ≡ None → result ≡ Phase.Over }
    {
        match self.get(slot) {
            Some(client) => client.phase(),
            None => Phase::Over,
        }
    }

    /// Adds a place.
    pub fn add_place(&mut self) -> Result<(), AllocError>
        ensures added { OnOk result (self.new.clients.items ≡ self.old.clients.items ++ None ∷ []) }
        ensures err { OnErr result (self.new.clients.items ≡ self.old.clients.items) }
    {
        self.worlds.add_place()?;
        self.clients.push(None)?;
        Ok(())
    }

    /// A new client with this socket, in a place that has none. If there is no such place, the
    /// socket is dropped.
    pub fn admit(&mut self, slot: usize, alloc: Global, socket: S, peer: SocketAddr, now: u64)
        requires supplied { IsEmpty (S.supplied socket) }
        requires accepted { IsEmpty (S.accepted socket) }
        ensures admits { slot < length self.old.clients.items → HasSocketAt socket slot
            self.new.clients.items }
        ensures others { OthersStay slot self.old.clients.items self.new.clients.items }
        ensures past { length self.old.clients.items ≤ slot →
            self.new.clients.items ≡ self.old.clients.items }
    {
        self.worlds.release(slot);
        if slot < self.clients.len() {
            self.clients[slot] = Some(Client::new(alloc, socket, peer, now));
        }
    }

    /// Removes the client in this place, and returns it; its connection stays in its world. None:
    /// the place was empty.
    pub fn remove(&mut self, slot: usize) -> Option<Client<S>>
        ensures client { result ≡ get_or self.old.clients.items slot None }
        ensures removed { get_or self.new.clients.items slot None ≡ None }
        ensures others { OthersStay slot self.old.clients.items self.new.clients.items }
        ensures worlds { self.new.worlds ≡ self.old.worlds }
        ensures history { IfSome result (λ c. HasKnownHistory P.turns V.starts V.frames
            V.POOL S.supplied S.accepted c) }
    {
        if slot >= self.clients.len() {
            return None;
        }
        self.clients[slot].take()
    }

    /// New requests go to this world from now on, and those in progress finish in the present one.
    /// A world that is still retiring is dropped.
    pub fn renew(&mut self, world: World<B, P>)
        requires { V.starts world }
        ensures clients { self.new.clients ≡ self.old.clients }
        ensures takes { self.old.worlds.links.generation < 18446744073709551615 →
            self.new.worlds.current.world ≡ world }
        ensures retires { self.old.worlds.links.generation < 18446744073709551615 →
            self.new.worlds.retiring ≡ (if count_by is_some self.old.worlds.links.table.items == 0
            then None
            else Some self.old.worlds.current) }
    {
        self.worlds.renew(world);
    }

    /// Gives a turn to the process at an index, and returns its activity, as with
    /// [`Worlds::turn_at`].
    pub fn turn_at(&mut self, place: usize) -> Option<Activity>
        ensures turn { WorldsTurnAt P.turns place result
            (serving self.old.worlds.links.generation self.old.worlds.current.world
            (λ h. h.world) self.old.worlds.retiring)
            (serving self.new.worlds.links.generation self.new.worlds.current.world
            (λ h. h.world) self.new.worlds.retiring) }
        ensures clients { self.new.clients ≡ self.old.clients }
        ensures links { self.new.worlds.links ≡ self.old.worlds.links }
    {
        self.worlds.turn_at(place)
    }

    /// Whether the client in this place has a connection that the processes have closed.
    pub fn is_over(&mut self, slot: usize) -> bool
        ensures over { result ≡ true → IsOver (link_at self.new.worlds.links.table.items slot)
            (serving self.new.worlds.links.generation self.new.worlds.current.world
            (λ h. h.world) self.new.worlds.retiring) }
        ensures open { result ≡ false → IsOver (link_at self.new.worlds.links.table.items slot)
            (serving self.new.worlds.links.generation self.new.worlds.current.world
            (λ h. h.world) self.new.worlds.retiring) → ⊥ }
        ensures clients { self.new.clients ≡ self.old.clients }
        ensures links { self.new.worlds.links ≡ self.old.worlds.links }
    {
        self.worlds.is_over(slot)
    }

    /// The socket of the client in this place was reported ready. Whether it is to be looked at.
    pub fn note(&mut self, slot: usize, reads: bool, ends: bool, writes: bool) -> bool
        ensures others { OthersStay slot self.old.clients.items self.new.clients.items }
        ensures worlds { self.new.worlds ≡ self.old.worlds }
    {
        if slot >= self.clients.len() {
            return false;
        }
        match &mut self.clients[slot] {
            Some(client) => client.note(reads, ends, writes),
            None => false,
        }
    }

    /// Reads once from the socket of the client in this place, if it may have bytes that are used.
    /// If it failed, the client is over.
    pub fn read(&mut self, slot: usize, piece: &mut [u8], now: u64) -> Reading
        ensures others { OthersStay slot self.old.clients.items self.new.clients.items }
        ensures worlds { self.new.worlds ≡ self.old.worlds }
    {
        if slot >= self.clients.len() {
            return Reading::Failed;
        }
        match &mut self.clients[slot] {
            Some(client) => {
                if !is_open(client.phase()) || !client.may_read() {
                    return Reading::Empty;
                }
                let reading = client.read(piece, now);
                if is_failed(reading) {
                    client.set_phase(Phase::Over);
                }
                reading
            }
            None => Reading::Failed,
        }
    }

    /// The first request of the bytes after the request in progress.
    pub fn frame(&self, slot: usize, alloc: Global, service: &V) -> Result<Frame, AllocError>
        ensures { IfOk result (λ f. IsFrameAt V.frames slot self.now.clients.items f) }
    {
        match self.get(slot) {
            Some(client) => service.frame(alloc, client.next()),
            None => Ok(Frame::Incomplete),
        }
    }

    /// The client in this place waits for a connection, if it has no request in progress.
    pub fn wait(&mut self, slot: usize)
        ensures others { OthersStay slot self.old.clients.items self.new.clients.items }
        ensures worlds { self.new.worlds ≡ self.old.worlds }
    {
        if slot >= self.clients.len() {
            return;
        }
        match &mut self.clients[slot] {
            Some(client) => {
                if is_between(client.phase()) {
                    client.set_phase(Phase::Waiting);
                }
            }
            None => {}
        }
    }

    /// The client in this place need not wait for a connection any more. Whether it did.
    pub fn call(&mut self, slot: usize) -> bool
        ensures others { OthersStay slot self.old.clients.items self.new.clients.items }
        ensures worlds { self.new.worlds ≡ self.old.worlds }
    {
        if slot >= self.clients.len() {
            return false;
        }
        match &mut self.clients[slot] {
            Some(client) => match client.phase() {
                Phase::Waiting => {
                    client.set_phase(Phase::Parked);
                    true
                }
                _ => false,
            },
            None => false,
        }
    }

    /// The client in this place gets a connection, if it has none and there is room for it.
    pub fn connect(&mut self, slot: usize) -> bool
        ensures clients { self.new.clients ≡ self.old.clients }
        ensures connected { result ≡ true →
            is_some (link_at self.new.worlds.links.table.items slot) ≡ true }
    {
        if self.worlds.has_link(slot) {
            return false;
        }
        if !self.worlds.connect(slot) {
            return false;
        }
        true
    }

    /// This first request of a client that has a connection begins.
    pub fn begin(&mut self, slot: usize, frame: &Frame)
        requires { IsFrameAt V.frames slot self.old.clients.items frame.now }
        ensures others { OthersStay slot self.old.clients.items self.new.clients.items }
        ensures worlds { self.new.worlds ≡ self.old.worlds }
    {
        if slot >= self.clients.len() || !self.worlds.has_link(slot) {
            return;
        }
        match &mut self.clients[slot] {
            Some(client) => {
                if is_between(client.phase()) {
                    match frame {
                        Frame::Incomplete => {}
                        Frame::Complete(length) => client.begin(*length, false),
                        Frame::Last(length) => client.begin(*length, true),
                    }
                }
            }
            None => {}
        }
    }

    /// Hands in more of the request in progress of the client in this place. False: there is no
    /// room for all of it now.
    pub fn hand_in(&mut self, slot: usize) -> bool
        ensures others { OthersStay slot self.old.clients.items self.new.clients.items }
    {
        if slot >= self.clients.len() {
            return true;
        }
        match &mut self.clients[slot] {
            Some(client) => match client.phase() {
                Phase::Answering => {
                    if client.is_given() {
                        return true;
                    }
                    let rest = self.worlds.hand_in(slot, client.rest());
                    let left = rest.len();
                    client.give(left);
                    left == 0
                }
                _ => true,
            },
            None => true,
        }
    }

    /// The client in this place gives back its connection, if it has no request in progress: the
    /// world gets the end of its input.
    pub fn leave(&mut self, slot: usize)
        ensures others { OthersStay slot self.old.clients.items self.new.clients.items }
    {
        if slot >= self.clients.len() {
            return;
        }
        match &mut self.clients[slot] {
            Some(client) => {
                if is_between(client.phase()) {
                    self.worlds.close(slot);
                    client.set_phase(Phase::Leaving);
                }
            }
            None => {}
        }
    }

    /// The peer of the client in this place sends no more, and this first frame of its bytes is no
    /// request to hand in. It has no connection: the rest of its output is sent.
    pub fn end_input(&mut self, slot: usize, frame: &Frame)
        requires { IsFrameAt V.frames slot self.old.clients.items frame.now }
        ensures others { OthersStay slot self.old.clients.items self.new.clients.items }
        ensures worlds { self.new.worlds ≡ self.old.worlds }
    {
        if slot >= self.clients.len() || self.worlds.has_link(slot) {
            return;
        }
        match &mut self.clients[slot] {
            Some(client) => {
                if !is_between(client.phase()) || !client.is_ended() {
                    return;
                }
                client.end(is_incomplete(frame));
            }
            None => {}
        }
    }
}

// Whether a socket failed.
fn is_failed(reading: Reading) -> bool
    ensures { result ≡ false → reading ≢ Reading.Failed }
{
    matches!(reading, Reading::Failed)
}

// Whether there is no complete request.
fn is_incomplete(frame: &Frame) -> bool
    ensures { result ≡ true → frame.now ≡ Frame.Incomplete }
{
    matches!(frame, Frame::Incomplete)
}

// Whether bytes that a client sends may still be used.
fn is_open(phase: Phase) -> bool
    ensures { result ≡ true → is_ending phase ≡ false }
{
    !matches!(phase, Phase::Flushing | Phase::Closing | Phase::Over)
}

// Whether a client has no request in progress, and keeps its connection if it has one.
fn is_between(phase: Phase) -> bool
    ensures { result ≡ true → is_free phase ≡ true }
{
    matches!(phase, Phase::Parked | Phase::Idle)
}
