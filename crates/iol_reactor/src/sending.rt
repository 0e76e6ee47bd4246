//! The world's output for a client is sent to its socket.
ghost use Rattle.std.specs.Prelude.{◌≡◌, ◌≢◌, ◌⊎◌, [], true};
ghost use Rattle.std.specs.Io.KnownBytes.{Keeps};
ghost use Rattle.iol_reactor.specs.Bytes.{Passes, PassesSome, unsent_of};
ghost use Rattle.iol_reactor.specs.Connections.{link_at};
ghost use Rattle.iol_reactor.specs.LinkVisits.{IsOver, serving};
ghost use Rattle.iol_reactor.specs.Served.{OthersStay};

use crate::client::{Client, Phase};
use crate::outbox::Outbox;
use crate::output::Sending;
use crate::places::Places;
use crate::service::Service;
use crate::socket::Socket;
use crate::steps::QUEUE;
use crate::worlds::{Collected, Offered};
use iol_back::backing::Backing;
use iol_proc::process::Process;

/// How output of the world was sent.
#[derive(Clone, Copy, Debug, PartialEq, Eq)]
pub enum Passed {
    /// The socket accepted all of the output.
    All,

    /// It accepted all, and there may be more.
    Part,

    /// It accepts no more now.
    Blocked,

    /// There is no memory for more.
    Starved,

    /// The socket accepted all, and the processes have closed the connection.
    Closed,

    /// The socket failed, or there is no connection that is served.
    Failed,
}

impl<S: Socket + Drop, B: Backing + Drop, P: Process, V: Service<B, P>> Places<S, B, P, V> {
    /// Writes the bytes that the socket of the client in this place has not accepted yet.
    pub fn flush(&mut self, slot: usize, now: u64) -> Sending
        ensures others { OthersStay slot self.old.clients.items self.new.clients.items }
        ensures worlds { self.new.worlds ≡ self.old.worlds }
    {
        if slot >= self.clients.len() {
            return Sending::Failed;
        }
        match &mut self.clients[slot] {
            Some(client) => {
                if !is_there(client.phase()) {
                    return Sending::Failed;
                }
                client.flush(now)
            }
            None => Sending::Failed,
        }
    }

    /// Sends more of the world's output for the client in this place, of which nothing is left from
    /// before. If the socket fails, the client is over.
    pub fn pass_on(&mut self, outbox: &mut Outbox, slot: usize, now: u64) -> Passed
        ensures closed { result ≡ Passed.Closed →
            IsOver (link_at self.new.worlds.links.table.items slot)
            (serving self.new.worlds.links.generation self.new.worlds.current.world
            (λ h. h.world) self.new.worlds.retiring) }
        ensures others { OthersStay slot self.old.clients.items self.new.clients.items }
    {
        match self.offer(slot, now) {
            Passed::Blocked => self.pass_rest(outbox, slot, now),
            passed => passed,
        }
    }

    // Sends the rest of what its socket was offered. The processes may have waited for room in the
    // queue until now, so there may be more even if the socket accepts all.
    fn pass_rest(&mut self, outbox: &mut Outbox, slot: usize, now: u64) -> Passed
        ensures closed { result ≡ Passed.Closed →
            IsOver (link_at self.new.worlds.links.table.items slot)
            (serving self.new.worlds.links.generation self.new.worlds.current.world
            (λ h. h.world) self.new.worlds.retiring) }
        ensures others { OthersStay slot self.old.clients.items self.new.clients.items }
    {
        match self.collect(outbox, slot, now) {
            Passed::All => Passed::Part,
            passed => passed,
        }
    }

    // Offers the world's output for the client in this place to its socket, from the pages that
    // hold it. `Blocked`: the socket took fewer bytes than it was offered.
    fn offer(&mut self, slot: usize, now: u64) -> Passed
        ensures closed { result ≡ Passed.Closed →
            IsOver (link_at self.new.worlds.links.table.items slot)
            (serving self.new.worlds.links.generation self.new.worlds.current.world
            (λ h. h.world) self.new.worlds.retiring) }
        ensures others { OthersStay slot self.old.clients.items self.new.clients.items }
    {
        if slot >= self.clients.len() || !self.worlds.has_link(slot) {
            return Passed::Failed;
        }
        match &mut self.clients[slot] {
            Some(client) => {
                if !is_served(client.phase()) {
                    return Passed::Failed;
                }
                if !client.is_flushed() {
                    return Passed::Starved;
                }
                let offered = self.worlds.offer(slot, client, QUEUE);
                touch(client, offered, now);
                offered_as(offered, QUEUE)
            }
            None => Passed::Failed,
        }
    }

    // Collects the world's output for the client in this place, and sends it as far as its socket
    // accepts it. The rest is kept with the client.
    fn collect(&mut self, outbox: &mut Outbox, slot: usize, now: u64) -> Passed
        ensures closed { result ≡ Passed.Closed →
            IsOver (link_at self.new.worlds.links.table.items slot)
            (serving self.new.worlds.links.generation self.new.worlds.current.world
            (λ h. h.world) self.new.worlds.retiring) }
        ensures others { OthersStay slot self.old.clients.items self.new.clients.items }
    {
        if slot >= self.clients.len() || !self.worlds.has_link(slot) {
            return Passed::Failed;
        }
        match &mut self.clients[slot] {
            Some(client) => {
                if !is_served(client.phase()) {
                    return Passed::Failed;
                }
                let most = client.room();
                if most == 0 {
                    return Passed::Starved;
                }
                outbox.clear();
                let collected = self.worlds.collect(slot, outbox, most);
                match send(client, outbox.bytes(), now) {
                    Sending::All => collected_as(collected, most),
                    Sending::Blocked => Passed::Blocked,
                    Sending::Failed => {
                        client.set_phase(Phase::Over);
                        Passed::Failed
                    }
                }
            }
            None => Passed::Failed,
        }
    }
}

// Whether a client in this phase is not to be removed.
fn is_there(phase: Phase) -> bool
    ensures { result ≡ true → phase ≢ Phase.Over }
{
    !matches!(phase, Phase::Over)
}

// Whether the world's output for a client in this phase is sent.
fn is_served(phase: Phase) -> bool
    ensures { result ≡ true → (phase ≡ Phase.Answering) ⊎ (phase ≡ Phase.Leaving) }
{
    matches!(phase, Phase::Answering | Phase::Leaving)
}

// Notes the time if the socket of a client took bytes that it was offered.
fn touch<S: Socket>(client: &mut Client<S>, offered: Offered, now: u64)
    ensures output { client.new.output ≡ client.old.output }
    ensures socket { client.new.socket ≡ client.old.socket }
    ensures phase { client.new.phase ≡ client.old.phase }
    ensures input { client.new.input ≡ client.old.input }
    ensures last { client.new.is_last ≡ client.old.is_last }
    ensures whole { client.new.is_whole ≡ client.old.is_whole }
{
    match offered {
        Offered::All(0) | Offered::Part(0) | Offered::Closed | Offered::Gone => {}
        _ => client.touch(now),
    }
}

// How output was sent that the socket was offered.
fn offered_as(offered: Offered, most: u32) -> Passed
    ensures { result ≡ Passed.Closed → offered ≡ Offered.Closed }
{
    match offered {
        Offered::All(count) if count >= most => Passed::Part,
        Offered::All(_) => Passed::All,
        Offered::Part(_) => Passed::Blocked,
        Offered::Closed => Passed::Closed,
        Offered::Gone => Passed::Failed,
    }
}

// Sends bytes that were collected, if there are any. Nothing is left from before.
fn send<S: Socket>(client: &mut Client<S>, bytes: &[u8], now: u64) -> Sending
    requires { unsent_of client.old.output ≡ [] }
    ensures passes { result ≢ Sending.Failed → Passes (S.accepted client.old.socket)
        (S.accepted client.new.socket) bytes.now (unsent_of client.new.output) }
    ensures some { PassesSome (S.accepted client.old.socket) (S.accepted client.new.socket)
        bytes.now }
    ensures came { Keeps (S.supplied client.old.socket) (S.supplied client.new.socket) }
    ensures phase { client.new.phase ≡ client.old.phase }
    ensures input { client.new.input ≡ client.old.input }
    ensures last { client.new.is_last ≡ client.old.is_last }
    ensures whole { client.new.is_whole ≡ client.old.is_whole }
{
    if bytes.is_empty() {
        return Sending::All;
    }
    client.send(bytes, now)
}

// How collected output was sent, all of which the socket accepted.
fn collected_as(collected: Collected, most: u32) -> Passed
    ensures { result ≡ Passed.Closed → collected ≡ Collected.Closed }
{
    match collected {
        Collected::Bytes(count) if count >= most => Passed::Part,
        Collected::Bytes(_) => Passed::All,
        Collected::Closed => Passed::Closed,
        Collected::Gone => Passed::Failed,
    }
}
