//! One client's exchange with its world: its response goes to its socket.
ghost use Rattle.std.specs.Prelude.{◌≡◌, ◌≤◌, ◌↔◌, None, set, true, false, IsTrue};
ghost use Rattle.iol_reactor.specs.Bytes.{unsent_of};
ghost use Rattle.iol_reactor.specs.Connections.{link_at};
ghost use Rattle.iol_reactor.specs.LinkVisits.{IsOver, serving};
ghost use Rattle.iol_reactor.specs.Served.{IsCompleted, IsPhaseAt, OthersStay};

use crate::client::{Client, Phase};
use crate::outbox::Outbox;
use crate::output::Sending;
use crate::places::Places;
use crate::sending::Passed;
use crate::service::{Progress, Service};
use crate::socket::Socket;
use iol_back::backing::Backing;
use iol_proc::process::Process;

/// The next step of a client that was visited.
#[derive(Clone, Copy, Debug, PartialEq, Eq)]
pub enum Step {
    /// There may be more to do at once.
    Again,

    /// Its response is pending: it is visited after each series of process turns.
    Pending,

    /// There is nothing to do until its socket is reported ready, or a deadline.
    Rests,

    /// There is no memory for more of its response: it is visited again after a while.
    Starved,

    /// It is to be removed.
    Over,
}

/// The state that a round takes into account.
#[derive(Clone, Copy)]
pub struct Moment {
    pub now: u64,

    /// Whether all processes are idle.
    pub is_idle: bool,
}

impl<S: Socket + Drop, B: Backing + Drop, P: Process, V: Service<B, P>> Places<S, B, P, V> {
    /// Sends the world's output for the client in this place, which has a connection, as far as
    /// its socket accepts it.
    pub fn answer(
        &mut self,
        outbox: &mut Outbox,
        slot: usize,
        service: &mut V,
        moment: Moment,
    ) -> Step
        ensures others { OthersStay slot self.old.clients.items self.new.clients.items }
    {
        match self.flush(slot, moment.now) {
            Sending::All => {}
            Sending::Blocked => return Step::Rests,
            Sending::Failed => return self.abandon(slot, service),
        }
        match self.pass_on(outbox, slot, moment.now) {
            Passed::All => self.after_all(slot, service, moment),
            Passed::Part => Step::Again,
            Passed::Blocked => Step::Rests,
            Passed::Starved => Step::Starved,
            Passed::Closed => self.ended(slot, service, moment.now),
            Passed::Failed => self.abandon(slot, service),
        }
    }

    // The socket of the client in this place has accepted all that the world sent so far.
    fn after_all(&mut self, slot: usize, service: &mut V, moment: Moment) -> Step
        ensures others { OthersStay slot self.old.clients.items self.new.clients.items }
    {
        if self.is_over(slot) {
            return self.ended(slot, service, moment.now);
        }
        if self.complete(slot, service, moment) {
            return self.next_step(slot);
        }
        Step::Pending
    }

    // If the response of the client in this place was sent whole, the client is idle, and its next
    // request may be handed in.
    fn complete(&mut self, slot: usize, service: &mut V, moment: Moment) -> bool
        ensures others { OthersStay slot self.old.clients.items self.new.clients.items }
        ensures worlds { self.new.worlds ≡ self.old.worlds }
    {
        if slot >= self.clients.len() {
            return false;
        }
        match &mut self.clients[slot] {
            Some(client) => complete(client, service, moment),
            None => false,
        }
    }

    // The next step of a client with a complete response.
    fn next_step(&self, slot: usize) -> Step {
        match self.get(slot) {
            Some(client) if client.has_next() => Step::Again,
            _ => Step::Rests,
        }
    }

    // The processes have closed the connection of the client in this place, and all that they sent
    // on it was written.
    fn ended(&mut self, slot: usize, service: &mut V, now: u64) -> Step
        requires { IsOver (link_at self.old.worlds.links.table.items slot)
            (serving self.old.worlds.links.generation self.old.worlds.current.world
            (λ h. h.world) self.old.worlds.retiring) }
        ensures others { OthersStay slot self.old.clients.items self.new.clients.items }
    {
        match self.phase(slot) {
            Phase::Leaving => {
                self.was_left(slot);
                self.next_step(slot)
            }
            _ => {
                self.was_closed(slot, service, now);
                Step::Again
            }
        }
    }

    // The processes have closed the connection that the client in this place gave back.
    fn was_left(&mut self, slot: usize)
        requires { IsOver (link_at self.old.worlds.links.table.items slot)
            (serving self.old.worlds.links.generation self.old.worlds.current.world
            (λ h. h.world) self.old.worlds.retiring) }
        ensures others { OthersStay slot self.old.clients.items self.new.clients.items }
    {
        if slot >= self.clients.len() {
            return;
        }
        match &mut self.clients[slot] {
            Some(client) => match client.phase() {
                Phase::Leaving => {
                    self.worlds.release(slot);
                    client.release();
                    client.set_phase(Phase::Parked);
                }
                _ => {}
            },
            None => {}
        }
    }

    // The processes have closed the connection of the client in this place, which has a request in
    // progress.
    fn was_closed(&mut self, slot: usize, service: &mut V, now: u64)
        requires { IsOver (link_at self.old.worlds.links.table.items slot)
            (serving self.old.worlds.links.generation self.old.worlds.current.world
            (λ h. h.world) self.old.worlds.retiring) }
        ensures others { OthersStay slot self.old.clients.items self.new.clients.items }
    {
        if slot >= self.clients.len() {
            return;
        }
        match &mut self.clients[slot] {
            Some(client) => match client.phase() {
                Phase::Answering => {
                    self.worlds.release(slot);
                    end(client, service, now);
                }
                _ => {}
            },
            None => {}
        }
    }

    /// The socket of the client in this place failed, or the client broke a limit: nothing more is
    /// handed in or sent.
    pub fn abandon(&mut self, slot: usize, service: &mut V) -> Step
        ensures over { IsPhaseAt slot self.new.clients.items Phase.Over }
        ensures others { OthersStay slot self.old.clients.items self.new.clients.items }
        ensures released { self.new.worlds.links.table.items ≡
            set self.old.worlds.links.table.items slot None }
        ensures generation { self.new.worlds.links.generation ≡
            self.old.worlds.links.generation }
    {
        self.give_up(slot, service);
        self.hang_up(slot);
        self.release(slot);
        Step::Over
    }

    // The client in this place is over.
    fn give_up(&mut self, slot: usize, service: &mut V)
        ensures over { IsPhaseAt slot self.new.clients.items Phase.Over }
        ensures others { OthersStay slot self.old.clients.items self.new.clients.items }
        ensures worlds { self.new.worlds ≡ self.old.worlds }
    {
        if slot >= self.clients.len() {
            return;
        }
        match &mut self.clients[slot] {
            Some(client) => give_up(client, service),
            None => {}
        }
    }

    // Reports to the processes that the client in this place, which is over, is gone.
    fn hang_up(&mut self, slot: usize)
        ensures clients { self.new.clients ≡ self.old.clients }
        ensures links { self.new.worlds.links ≡ self.old.worlds.links }
    {
        match self.phase(slot) {
            Phase::Over => self.worlds.hang_up(slot),
            _ => {}
        }
    }

    // The client in this place, which is over, gives up its connection.
    fn release(&mut self, slot: usize)
        ensures clients { self.new.clients ≡ self.old.clients }
        ensures released { IsPhaseAt slot self.old.clients.items Phase.Over →
            self.new.worlds.links.table.items ≡
            set self.old.worlds.links.table.items slot None }
        ensures generation { self.new.worlds.links.generation ≡
            self.old.worlds.links.generation }
    {
        match self.phase(slot) {
            Phase::Over => self.worlds.release(slot),
            _ => {}
        }
    }

    /// The client in this place, which has no connection, ends: the rest is sent, its output is
    /// ended, and its peer's end is awaited.
    pub fn close(&mut self, slot: usize, piece: &mut [u8], now: u64) -> Step
        ensures others { OthersStay slot self.old.clients.items self.new.clients.items }
        ensures worlds { self.new.worlds ≡ self.old.worlds }
    {
        match self.flush(slot, now) {
            Sending::All => {}
            Sending::Blocked => return Step::Rests,
            Sending::Failed => return Step::Over,
        }
        if !self.end_output(slot) {
            return Step::Over;
        }
        self.drain(slot, piece)
    }

    // Ends the output of the client in this place, once, if all was sent. False: the socket failed.
    fn end_output(&mut self, slot: usize) -> bool
        ensures others { OthersStay slot self.old.clients.items self.new.clients.items }
        ensures worlds { self.new.worlds ≡ self.old.worlds }
    {
        if slot >= self.clients.len() {
            return true;
        }
        match &mut self.clients[slot] {
            Some(client) => match client.phase() {
                Phase::Flushing => {
                    if !client.is_flushed() {
                        return true;
                    }
                    client.set_phase(Phase::Closing);
                    client.end_output()
                }
                _ => true,
            },
            None => true,
        }
    }

    // Awaits the peer's end of the client in this place, whose output was ended.
    fn drain(&mut self, slot: usize, piece: &mut [u8]) -> Step
        ensures others { OthersStay slot self.old.clients.items self.new.clients.items }
        ensures worlds { self.new.worlds ≡ self.old.worlds }
    {
        if self.drop_input(slot, piece) {
            return Step::Over;
        }
        match self.get(slot) {
            Some(client) if client.is_readable() => Step::Again,
            _ => Step::Rests,
        }
    }

    // Drops input of the client in this place, whose output was ended. True: its peer's end was
    // read, or its socket failed.
    fn drop_input(&mut self, slot: usize, piece: &mut [u8]) -> bool
        ensures others { OthersStay slot self.old.clients.items self.new.clients.items }
        ensures worlds { self.new.worlds ≡ self.old.worlds }
    {
        if slot >= self.clients.len() {
            return true;
        }
        match &mut self.clients[slot] {
            Some(client) => match client.phase() {
                Phase::Closing => {
                    if client.is_ended() {
                        return true;
                    }
                    client.drop_input(piece)
                }
                _ => true,
            },
            None => true,
        }
    }
}

// Whether a client in this phase has a request in progress.
fn is_answering(phase: Phase) -> bool
    ensures { result ≡ true → phase ≡ Phase.Answering }
{
    matches!(phase, Phase::Answering)
}

// If a response was sent whole, the client is idle.
fn complete<S: Socket, B: Backing + Drop, P: Process, V: Service<B, P>>(
    client: &mut Client<S>,
    service: &mut V,
    moment: Moment,
) -> bool
    ensures waits { result ≡ false → client.new ≡ client.old }
    ensures done { result ≡ true → IsCompleted client.old client.new }
{
    if !is_complete(client, service, moment.is_idle) {
        return false;
    }
    service.record(&client.exchange(true));
    client.finish(moment.now);
    client.set_phase(Phase::Idle);
    true
}

// The processes have closed the connection of a client with a request in progress.
fn end<S: Socket, B: Backing + Drop, P: Process, V: Service<B, P>>(
    client: &mut Client<S>,
    service: &mut V,
    now: u64,
)
    ensures whole { IsTrue client.new.is_whole ↔ (IsTrue client.old.is_last
        × (client.old.input.asked ≤ client.old.input.given)) }
    ensures phase { client.new.phase ≡ Phase.Flushing }
    ensures socket { client.new.socket ≡ client.old.socket }
    ensures unsent { unsent_of client.new.output ≡ unsent_of client.old.output }
{
    let is_whole = is_done(client);
    service.record(&client.exchange(true));
    client.finish(now);
    client.release();
    client.end(is_whole);
}

// A client is over.
fn give_up<S: Socket, B: Backing + Drop, P: Process, V: Service<B, P>>(
    client: &mut Client<S>,
    service: &mut V,
)
    ensures phase { client.new.phase ≡ Phase.Over }
    ensures socket { client.new.socket ≡ client.old.socket }
{
    if client.is_asking() {
        service.record(&client.exchange(false));
    }
    client.set_phase(Phase::Over);
}

// Whether the request in progress was handed in whole, and is the last.
fn is_done<S: Socket>(client: &Client<S>) -> bool
    ensures { IsTrue result ↔ (IsTrue client.now.is_last
        × (client.now.input.asked ≤ client.now.input.given)) }
{
    client.is_last() && client.is_given()
}

// Whether a response is complete, all of which so far was sent. The last one ends with the
// connection.
fn is_complete<S: Socket, B: Backing + Drop, P: Process, V: Service<B, P>>(
    client: &Client<S>,
    service: &V,
    is_idle: bool,
) -> bool
    ensures phase { result ≡ true → client.now.phase ≡ Phase.Answering }
    ensures given { result ≡ true → client.now.input.asked ≤ client.now.input.given }
    ensures keeps { result ≡ true → client.now.is_last ≡ false }
{
    if !is_answering(client.phase()) || !client.is_given() || client.is_last() {
        return false;
    }
    if !client.has_begun() {
        return false;
    }
    is_idle || matches!(service.progress(&client.exchange(true)), Progress::Complete)
}
