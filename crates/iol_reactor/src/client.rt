//! A client: its socket, and the bytes that are buffered between it and its connection of a world.
ghost use Rattle.std.specs.Prelude.{◌≡◌, ◌≢◌, ◌+◌, ◌-◌, ◌^◌, ◌||◌, ◌&&◌, ◌↔◌, ℕ, [], drop, length};
ghost use Rattle.std.specs.Prelude.{if◌then◌else◌, min, nat_le, nat_lt, not, true, false, IsTrue};
ghost use Rattle.std.specs.Io.KnownBytes.{Keeps};
ghost use Rattle.iol_reactor.specs.Bytes.{Gains, Grows, IsBegun, IsFinished, IsGiven, IsSameInput};
ghost use Rattle.iol_reactor.specs.Bytes.{Passes, PassesSome, request_of, unsent_of};
ghost use Rattle.iol_reactor.specs.Bytes.{can_read, has_room};

use crate::input::{Input, Reading};
use crate::output::{Output, Sending};
use crate::service::Exchange;
use crate::socket::Socket;
use iol_sock::Gather;
use std::alloc::Global;
use std::net::SocketAddr;

/// The maximum number of reads that drop a peer's input after the end, between two visits of the
/// other clients.
const MAX_DROPPED: u32 = 16;

/// The phase of a client.
#[derive(Clone, Copy, Debug, PartialEq, Eq)]
pub enum Phase {
    /// It has no connection, and no complete request.
    Parked,

    /// It has a complete request, and waits for a connection.
    Waiting,

    /// It has a connection, and no request in progress.
    Idle,

    /// A request was handed in, at least in part, and its response is not complete.
    Answering,

    /// The world got the end of the input of its connection, which the processes are to close.
    Leaving,

    /// The processes have closed its connection. The rest is being sent.
    Flushing,

    /// All was sent, and its output was ended. Its peer's end is awaited.
    Closing,

    /// It is to be removed.
    Over,
}

/// A client on a socket.
#[derive(Drop)]
pub struct Client<S> {
    socket: S,
    peer: SocketAddr,
    phase: Phase,
    input: Input,
    output: Output,

    // Whether the processes close the connection after the request in progress.
    is_last: bool,

    // Whether its requests were answered to the end, in the phases after its last connection.
    is_whole: bool,

    // The time at which bytes last arrived or were accepted.
    last: u64,
}

impl<S: Socket> Client<S> {
    pub fn new(alloc: Global, socket: S, peer: SocketAddr, now: u64) -> Client<S>
        ensures socket { result.socket ≡ socket }
        ensures phase { result.phase ≡ Phase.Parked }
        ensures bytes { result.input.bytes.items ≡ [] }
        ensures asked { result.input.asked ≡ 0 }
        ensures given { result.input.given ≡ 0 }
        ensures unsent { unsent_of result.output ≡ [] }
        ensures last { result.is_last ≡ false }
        ensures whole { result.is_whole ≡ false }
        ensures peer { result.peer ≡ peer }
        ensures time { result.last ≡ now }
    {
        Client {
            socket,
            peer,
            phase: Phase::Parked,
            input: Input::new(alloc),
            output: Output::new(alloc),
            is_last: false,
            is_whole: false,
            last: now,
        }
    }

    pub fn socket(&self) -> &S
        ensures { result.now ≡ self.now.socket }
    {
        &self.socket
    }

    pub fn phase(&self) -> Phase
        ensures { result ≡ self.now.phase }
    {
        self.phase
    }

    pub fn set_phase(&mut self, phase: Phase)
        ensures phase { self.new.phase ≡ phase }
        ensures socket { self.new.socket ≡ self.old.socket }
        ensures input { self.new.input ≡ self.old.input }
        ensures output { self.new.output ≡ self.old.output }
        ensures last { self.new.is_last ≡ self.old.is_last }
        ensures whole { self.new.is_whole ≡ self.old.is_whole }
        ensures time { self.new.last ≡ self.old.last }
    {
        self.phase = phase;
    }

    /// It has no connection any more: the rest of its output is sent. Whether its requests were
    /// answered to the end.
    pub fn end(&mut self, is_whole: bool)
        ensures phase { self.new.phase ≡ Phase.Flushing }
        ensures whole { self.new.is_whole ≡ is_whole }
        ensures socket { self.new.socket ≡ self.old.socket }
        ensures input { self.new.input ≡ self.old.input }
        ensures output { self.new.output ≡ self.old.output }
        ensures time { self.new.last ≡ self.old.last }
    {
        self.phase = Phase::Flushing;
        self.is_whole = is_whole;
    }

    /// Whether its requests were answered to the end, after its last connection.
    pub fn is_whole(&self) -> bool
        ensures { result ≡ self.now.is_whole }
    {
        self.is_whole
    }

    /// Whether its socket accepted all bytes.
    pub fn is_flushed(&self) -> bool
        ensures { IsTrue result ↔ (unsent_of self.now.output ≡ []) }
    {
        self.output.is_flushed()
    }

    /// All of its request was handed in, except for this number of bytes.
    pub fn give(&mut self, left: usize)
        ensures given { IsGiven left self.old.input self.new.input }
        ensures socket { self.new.socket ≡ self.old.socket }
        ensures phase { self.new.phase ≡ self.old.phase }
        ensures output { self.new.output ≡ self.old.output }
        ensures last { self.new.is_last ≡ self.old.is_last }
        ensures whole { self.new.is_whole ≡ self.old.is_whole }
        ensures time { self.new.last ≡ self.old.last }
    {
        self.input.give(left);
    }

    /// The number of bytes that the socket accepted.
    pub fn accepted(&self) -> u64
        ensures { result ≡ self.now.output.accepted }
    {
        self.output.accepted()
    }

    /// Whether the socket accepted no more when it was last written to.
    pub fn is_blocked(&self) -> bool
        ensures { result ≡ self.now.output.is_blocked }
    {
        self.output.is_blocked()
    }

    /// The time since bytes last arrived or were accepted.
    pub fn silence(&self, now: u64) -> u64
        ensures { result ≡ now - self.now.last }
    {
        now.saturating_sub(self.last)
    }

    /// Its socket was reported ready. Returns whether the client is to be visited.
    pub fn note(&mut self, reads: bool, ends: bool, writes: bool) -> bool
        ensures input { IsSameInput self.old.input self.new.input }
        ensures unsent { unsent_of self.new.output ≡ unsent_of self.old.output }
        ensures socket { self.new.socket ≡ self.old.socket }
        ensures phase { self.new.phase ≡ self.old.phase }
        ensures last { self.new.is_last ≡ self.old.is_last }
        ensures whole { self.new.is_whole ≡ self.old.is_whole }
        ensures ended { self.new.input.ended ≡ self.old.input.ended }
        ensures visits { result ≡ ((reads || ends) || (writes && self.old.output.is_blocked)) }
        ensures blocked { self.new.output.is_blocked ≡ (self.old.output.is_blocked && not writes) }
        ensures readable { self.new.input.readable ≡ (self.old.input.readable || reads) }
        ensures ending { self.new.input.ending ≡ (self.old.input.ending || ends) }
        ensures time { self.new.last ≡ self.old.last }
    {
        self.input.note(reads, ends);
        let was_awaited = writes && self.output.unblock();
        reads || ends || was_awaited
    }

    /// Whether a read may return bytes or the peer's end, and there is room for more bytes.
    pub fn may_read(&self) -> bool
        ensures { result ≡ (can_read self.now.input && has_room self.now.input) }
    {
        self.input.may_read()
    }

    /// Whether the peer's end was read.
    pub fn is_ended(&self) -> bool
        ensures { result ≡ self.now.input.ended }
    {
        self.input.is_ended()
    }

    /// Whether no request is in progress, and there are bytes of a next one, or its end.
    pub fn has_next(&self) -> bool
        ensures { result ≡ ((nat_lt self.now.input.asked (length self.now.input.bytes.items)
            || (can_read self.now.input && has_room self.now.input)) || self.now.input.ended) }
    {
        !self.input.next().is_empty() || self.input.may_read() || self.input.is_ended()
    }

    /// Reads once.
    pub fn read(&mut self, piece: &mut [u8], now: u64) -> Reading
        ensures gains { result ≢ Reading.Failed → Gains (S.supplied self.old.socket)
            (S.supplied self.new.socket) self.old.input.bytes.items self.new.input.bytes.items }
        ensures came { Grows (S.supplied self.old.socket) (S.supplied self.new.socket) }
        ensures sent { Keeps (S.accepted self.old.socket) (S.accepted self.new.socket) }
        ensures asked { self.new.input.asked ≡ self.old.input.asked }
        ensures given { self.new.input.given ≡ self.old.input.given }
        ensures phase { self.new.phase ≡ self.old.phase }
        ensures output { self.new.output ≡ self.old.output }
        ensures last { self.new.is_last ≡ self.old.is_last }
        ensures whole { self.new.is_whole ≡ self.old.is_whole }
        ensures time { (n : ℕ) → result ≡ Reading.Bytes n → self.new.last ≡ now }
        ensures silent { ((n : ℕ) → result ≢ Reading.Bytes n) → self.new.last ≡ self.old.last }
        ensures end { result ≡ Reading.End → self.new.input.ended ≡ true }
        ensures ended { result ≢ Reading.End → self.new.input.ended ≡ self.old.input.ended }
        ensures empty { result ≡ Reading.Empty → can_read self.new.input ≡ false }
    {
        let reading = self.input.read_from(&mut self.socket, piece);
        if matches!(reading, Reading::Bytes(_)) {
            self.last = now;
        }
        reading
    }

    /// The bytes after the request in progress.
    pub fn next(&self) -> &[u8]
        ensures { result.now ≡ drop self.now.input.asked self.now.input.bytes.items }
    {
        self.input.next()
    }

    /// Its first bytes are a request, whose response begins. The processes may close the connection
    /// after it.
    pub fn begin(&mut self, size: usize, is_last: bool)
        ensures begun { IsBegun size self.old.input self.new.input }
        ensures last { self.new.is_last ≡ is_last }
        ensures unsent { unsent_of self.new.output ≡ unsent_of self.old.output }
        ensures socket { self.new.socket ≡ self.old.socket }
        ensures phase { self.new.phase ≡ Phase.Answering }
        ensures whole { self.new.is_whole ≡ self.old.is_whole }
        ensures time { self.new.last ≡ self.old.last }
    {
        self.phase = Phase::Answering;
        self.input.begin(size);
        self.is_last = is_last;
        self.output.begin();
    }

    /// Whether all of its request was handed in.
    pub fn is_given(&self) -> bool
        ensures { result ≡ nat_le self.now.input.asked self.now.input.given }
    {
        self.input.is_given()
    }

    /// The bytes of its request that were not handed in.
    pub fn rest(&self) -> &[u8]
        ensures { result.now ≡ drop self.now.input.given (request_of self.now.input) }
    {
        self.input.rest()
    }

    /// Writes the rest, as far as the socket accepts it.
    pub fn flush(&mut self, now: u64) -> Sending
        ensures passes { Passes (S.accepted self.old.socket) (S.accepted self.new.socket)
            (unsent_of self.old.output) (unsent_of self.new.output) }
        ensures all { result ≡ Sending.All → unsent_of self.new.output ≡ [] }
        ensures came { Keeps (S.supplied self.old.socket) (S.supplied self.new.socket) }
        ensures phase { self.new.phase ≡ self.old.phase }
        ensures input { self.new.input ≡ self.old.input }
        ensures last { self.new.is_last ≡ self.old.is_last }
        ensures whole { self.new.is_whole ≡ self.old.is_whole }
        ensures time { self.new.last ≡ (if nat_lt self.old.output.accepted
            self.new.output.accepted then now else self.old.last) }
        ensures accepted { self.new.output.accepted ≡ min (self.old.output.accepted
            + (length (unsent_of self.old.output) - length (unsent_of self.new.output)))
            (2 ^ 64 - 1) }
        ensures blocked { IsTrue self.new.output.is_blocked ↔ (result ≡ Sending.Blocked) }
    {
        let before = self.output.accepted();
        let sending = self.output.flush(&mut self.socket);
        if self.output.accepted() > before {
            self.last = now;
        }
        sending
    }

    /// Writes bytes of the response, as far as the socket accepts them, and keeps the rest.
    pub fn send(&mut self, bytes: &[u8], now: u64) -> Sending
        ensures passes { result ≢ Sending.Failed → Passes (S.accepted self.old.socket)
            (S.accepted self.new.socket) bytes.now (unsent_of self.new.output) }
        ensures some { PassesSome (S.accepted self.old.socket) (S.accepted self.new.socket)
            bytes.now }
        ensures came { Keeps (S.supplied self.old.socket) (S.supplied self.new.socket) }
        ensures phase { self.new.phase ≡ self.old.phase }
        ensures input { self.new.input ≡ self.old.input }
        ensures last { self.new.is_last ≡ self.old.is_last }
        ensures whole { self.new.is_whole ≡ self.old.is_whole }
        ensures time { self.new.last ≡ now }
    {
        self.last = now;
        self.output.send(&mut self.socket, bytes)
    }

    /// Bytes were passed to its socket, or were to be.
    pub fn touch(&mut self, now: u64)
        ensures output { self.new.output ≡ self.old.output }
        ensures socket { self.new.socket ≡ self.old.socket }
        ensures phase { self.new.phase ≡ self.old.phase }
        ensures input { self.new.input ≡ self.old.input }
        ensures last { self.new.is_last ≡ self.old.is_last }
        ensures whole { self.new.is_whole ≡ self.old.is_whole }
        ensures time { self.new.last ≡ now }
    {
        self.last = now;
    }

    /// The number of bytes that may be collected for it. 0: there is no memory, or bytes are left
    /// from before.
    pub fn room(&mut self) -> u32
        ensures unsent { unsent_of self.new.output ≡ unsent_of self.old.output }
        ensures none { result ≢ 0 → unsent_of self.old.output ≡ [] }
        ensures socket { self.new.socket ≡ self.old.socket }
        ensures phase { self.new.phase ≡ self.old.phase }
        ensures input { self.new.input ≡ self.old.input }
        ensures last { self.new.is_last ≡ self.old.is_last }
        ensures whole { self.new.is_whole ≡ self.old.is_whole }
        ensures time { self.new.last ≡ self.old.last }
    {
        self.output.room()
    }

    /// It has no connection any more: the memory of its response is given back.
    pub fn release(&mut self)
        ensures unsent { unsent_of self.new.output ≡ unsent_of self.old.output }
        ensures socket { self.new.socket ≡ self.old.socket }
        ensures phase { self.new.phase ≡ self.old.phase }
        ensures input { self.new.input ≡ self.old.input }
        ensures last { self.new.is_last ≡ self.old.is_last }
        ensures whole { self.new.is_whole ≡ self.old.is_whole }
        ensures time { self.new.last ≡ self.old.last }
    {
        self.output.release();
    }

    /// Whether the response has begun.
    pub fn has_begun(&self) -> bool
        ensures { result ≡ nat_lt 0 self.now.output.produced }
    {
        self.output.produced() > 0
    }

    /// The request and the response so far.
    pub fn exchange(&self, complete: bool) -> Exchange<'_>
        ensures request { result.request.now ≡ request_of self.now.input }
        ensures head { result.head.now ≡ self.now.output.head.items }
        ensures produced { result.produced ≡ self.now.output.produced }
        ensures sent { result.sent ≡ self.now.output.sent }
        ensures complete { result.complete ≡ complete }
        ensures peer { result.peer ≡ self.now.peer }
    {
        Exchange {
            peer: self.peer,
            request: self.input.request(),
            head: self.output.head(),
            tail: self.output.tail(),
            produced: self.output.produced(),
            sent: self.output.sent(),
            complete,
        }
    }

    /// Whether the processes close the connection after the request in progress.
    pub fn is_last(&self) -> bool
        ensures { result ≡ self.now.is_last }
    {
        self.is_last
    }

    /// Whether a request is in progress.
    pub fn is_asking(&self) -> bool
        ensures { result ≡ nat_lt 0 self.now.input.asked }
    {
        self.input.is_asking()
    }

    /// The response is complete, or given up.
    pub fn finish(&mut self, now: u64)
        ensures finished { IsFinished self.old.input self.new.input }
        ensures socket { self.new.socket ≡ self.old.socket }
        ensures phase { self.new.phase ≡ self.old.phase }
        ensures output { self.new.output ≡ self.old.output }
        ensures last { self.new.is_last ≡ self.old.is_last }
        ensures whole { self.new.is_whole ≡ self.old.is_whole }
        ensures time { self.new.last ≡ now }
    {
        self.input.finish();
        self.last = now;
    }

    /// Ends the output. False: the socket failed.
    pub fn end_output(&mut self) -> bool
        ensures came { Keeps (S.supplied self.old.socket) (S.supplied self.new.socket) }
        ensures sent { Keeps (S.accepted self.old.socket) (S.accepted self.new.socket) }
        ensures phase { self.new.phase ≡ self.old.phase }
        ensures input { self.new.input ≡ self.old.input }
        ensures output { self.new.output ≡ self.old.output }
        ensures last { self.new.is_last ≡ self.old.is_last }
        ensures whole { self.new.is_whole ≡ self.old.is_whole }
        ensures time { self.new.last ≡ self.old.last }
    {
        self.socket.end_output().is_ok()
    }

    /// Whether a read may return bytes, or the peer's end.
    pub fn is_readable(&self) -> bool
        ensures { result ≡ can_read self.now.input }
    {
        self.input.is_readable()
    }

    /// Reads and drops input, a bounded number of times. True: the peer's end was read, or the
    /// socket failed.
    pub fn drop_input(&mut self, piece: &mut [u8]) -> bool
        ensures same { IsSameInput self.old.input self.new.input }
        ensures came { Grows (S.supplied self.old.socket) (S.supplied self.new.socket) }
        ensures sent { Keeps (S.accepted self.old.socket) (S.accepted self.new.socket) }
        ensures phase { self.new.phase ≡ self.old.phase }
        ensures output { self.new.output ≡ self.old.output }
        ensures whole { self.new.is_whole ≡ self.old.is_whole }
        ensures time { self.new.last ≡ self.old.last }
        ensures ended { self.new.input.ended ≡ self.old.input.ended }
        ensures last { self.new.is_last ≡ self.old.is_last }
    {
        if !self.input.is_readable() {
            return false;
        }
        for _ in 0..MAX_DROPPED {
            match self.input.drop_from(&mut self.socket, piece) {
                Reading::Bytes(_) => {}
                Reading::Empty | Reading::Starved => return false,
                Reading::End | Reading::Failed => return true,
            }
        }
        false
    }
}

// The socket of a client without unsent bytes takes bytes of the world's output.
impl<S: Socket> Gather for Client<S> {
    ghost use Rattle.iol_reactor.specs.Bytes.{IsPassing};

    ghost contents = { λ client. S.accepted client.socket };

    ghost gathers = { λ client offered taken after. IsPassing S.supplied client after };

    fn gather(&mut self, first: &[u8], second: &[u8], third: &[u8], fourth: &[u8]) -> usize {
        self.output
            .pass(&mut self.socket, first, second, third, fourth)
    }
}
