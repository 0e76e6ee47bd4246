//! The bytes of a response that the world sent and that a client has not accepted yet.
ghost use Rattle.std.specs.Prelude.{◌≡◌, ◌≢◌, ◌≤◌, ◌+◌, ◌-◌, ◌^◌, ◌++◌, ◌↔◌, [], length, take};
ghost use Rattle.std.specs.Prelude.{min, true, false, IsTrue, OnOk};
ghost use Rattle.std.specs.Io.KnownBytes.{Appends, Keeps};
ghost use Rattle.iol_reactor.specs.Bytes.{Passes, PassesSome, unsent_of};

use crate::limits::{HEAD_BYTES, MIN_KEPT_BYTES, TAIL_BYTES};
use crate::socket::Socket;
use crate::steps::QUEUE;
use std::alloc::{AllocError, Global};
use std::io::ErrorKind;

/// The writes that one call makes at most: more than the bytes of a connection's queue.
const MAX_WRITES: u32 = 0x1_0001;

/// How the writing of bytes went.
#[derive(Clone, Copy, Debug, PartialEq, Eq)]
pub enum Sending {
    /// The socket accepted all.
    All,

    /// The socket accepts no more now.
    Blocked,

    /// The socket failed, or there was no memory for the rest.
    Failed,
}

/// A response in progress: the bytes that the socket has not accepted, and those that an exchange
/// shows.
#[derive(Drop)]
pub struct Output {
    alloc: Global,

    // The bytes that the socket has not accepted, from `at` on.
    left: Vec<u8>,
    at: usize,
    is_blocked: bool,

    // Its first and last bytes, and the number of bytes that the world sent and the socket
    // accepted.
    head: Vec<u8>,
    tail: [u8; TAIL_BYTES],
    produced: u64,
    sent: u64,

    // The number of bytes of all responses that the socket accepted.
    accepted: u64,
}

impl Output {
    pub fn new(alloc: Global) -> Output
        ensures { unsent_of result ≡ [] }
    {
        Output {
            alloc,
            left: Vec::new(alloc),
            at: 0,
            is_blocked: false,
            head: Vec::new(alloc),
            tail: [0; TAIL_BYTES],
            produced: 0,
            sent: 0,
            accepted: 0,
        }
    }

    /// Whether the socket accepted no more when it was last written to.
    pub fn is_blocked(&self) -> bool
        ensures { result ≡ self.now.is_blocked }
    {
        self.is_blocked
    }

    /// The socket was reported writable: whether that was awaited.
    pub fn unblock(&mut self) -> bool
        ensures unsent { unsent_of self.new ≡ unsent_of self.old }
        ensures awaited { result ≡ self.old.is_blocked }
        ensures blocked { self.new.is_blocked ≡ false }
    {
        let was_blocked = self.is_blocked;
        self.is_blocked = false;
        was_blocked
    }

    /// Whether the socket accepted all bytes.
    pub fn is_flushed(&self) -> bool
        ensures { IsTrue result ↔ (unsent_of self.now ≡ []) }
    {
        self.at >= self.left.len()
    }

    /// The first bytes of the response.
    pub fn head(&self) -> &[u8]
        ensures { result.now ≡ self.now.head.items }
    {
        &self.head
    }

    /// The last bytes of the response.
    pub fn tail(&self) -> &[u8] {
        let known = usize::try_from(self.produced).unwrap_or(TAIL_BYTES);
        &self.tail[TAIL_BYTES.saturating_sub(known)..]
    }

    /// The number of bytes of the response that the world sent.
    pub fn produced(&self) -> u64
        ensures { result ≡ self.now.produced }
    {
        self.produced
    }

    /// The number of bytes of the response that the socket accepted.
    pub fn sent(&self) -> u64
        ensures { result ≡ self.now.sent }
    {
        self.sent
    }

    /// The number of bytes of all responses that the socket accepted.
    pub fn accepted(&self) -> u64
        ensures { result ≡ self.now.accepted }
    {
        self.accepted
    }

    /// A new response begins.
    pub fn begin(&mut self)
        ensures unsent { unsent_of self.new ≡ unsent_of self.old }
        ensures head { self.new.head.items ≡ [] }
        ensures produced { self.new.produced ≡ 0 }
        ensures sent { self.new.sent ≡ 0 }
        ensures accepted { self.new.accepted ≡ self.old.accepted }
        ensures blocked { self.new.is_blocked ≡ self.old.is_blocked }
    {
        self.head.clear();
        self.produced = 0;
        self.sent = 0;
    }

    /// Writes the rest, as far as the socket accepts it.
    pub fn flush<S: Socket>(&mut self, socket: &mut S) -> Sending
        ensures passes { Passes (S.accepted socket.old) (S.accepted socket.new)
            (unsent_of self.old) (unsent_of self.new) }
        ensures all { result ≡ Sending.All → unsent_of self.new ≡ [] }
        ensures came { Keeps (S.supplied socket.old) (S.supplied socket.new) }
        ensures sent { self.new.sent ≡ min (self.old.sent + (length (unsent_of self.old)
            - length (unsent_of self.new))) (2 ^ 64 - 1) }
        ensures accepted { self.new.accepted ≡ min (self.old.accepted
            + (length (unsent_of self.old) - length (unsent_of self.new))) (2 ^ 64 - 1) }
        ensures blocked { IsTrue self.new.is_blocked ↔ (result ≡ Sending.Blocked) }
    {
        let waiting = &self.left[self.at.min(self.left.len())..];
        let count = waiting.len();
        let (sending, rest) = write_all(socket, waiting);
        let accepted = count.saturating_sub(rest.len());
        self.count(accepted);
        self.at = self.at.saturating_add(accepted);
        self.is_blocked = sending == Sending::Blocked;
        if sending == Sending::All && self.at > 0 {
            self.at = 0;
            self.left.clear();
        }
        sending
    }

    /// The number of bytes that may be collected from the world: there is memory for them, should
    /// the socket accept none. 0: there is no memory, or bytes are left from before.
    pub fn room(&mut self) -> u32
        ensures same { unsent_of self.new ≡ unsent_of self.old }
        ensures none { result ≢ 0 → unsent_of self.old ≡ [] }
        ensures most { result ≤ QUEUE }
    {
        if !self.is_flushed() {
            return 0;
        }
        let least = if self.produced < MIN_KEPT_BYTES as u64 {
            MIN_KEPT_BYTES
        } else {
            QUEUE as usize
        };
        if self.reserve().is_err() {
            return 0;
        }
        let _ = self.left.reserve(least);
        self.left.capacity().min(QUEUE as usize) as u32
    }

    /// Gives back the memory of a response that was sent whole.
    pub fn release(&mut self)
        ensures { unsent_of self.new ≡ unsent_of self.old }
    {
        self.head = Vec::new(self.alloc);
        if self.left.is_empty() {
            self.left = Vec::new(self.alloc);
        }
    }

    /// Writes bytes that the world sent, as far as the socket accepts them, and keeps the rest.
    /// Nothing is left from before.
    pub fn send<S: Socket>(&mut self, socket: &mut S, bytes: &[u8]) -> Sending
        ensures passes { result ≢ Sending.Failed → Passes (S.accepted socket.old)
            (S.accepted socket.new) bytes.now (unsent_of self.new) }
        ensures some { PassesSome (S.accepted socket.old) (S.accepted socket.new) bytes.now }
        ensures came { Keeps (S.supplied socket.old) (S.supplied socket.new) }
        ensures all { result ≡ Sending.All → unsent_of self.new ≡ [] }
        ensures sent { result ≢ Sending.Failed → self.new.sent ≡ min (self.old.sent
            + (length bytes.now - length (unsent_of self.new))) (2 ^ 64 - 1) }
        ensures accepted { result ≢ Sending.Failed → self.new.accepted ≡ min (self.old.accepted
            + (length bytes.now - length (unsent_of self.new))) (2 ^ 64 - 1) }
        ensures free { result ≡ Sending.All → self.new.is_blocked ≡ false }
        ensures blocked { result ≡ Sending.Blocked → self.new.is_blocked ≡ true }
    {
        if self.show(bytes).is_err() {
            return Sending::Failed;
        }
        let (sending, rest) = write_all(socket, bytes);
        self.count(bytes.len().saturating_sub(rest.len()));
        self.is_blocked = sending == Sending::Blocked;
        self.at = 0;
        self.left.clear();
        if sending == Sending::Blocked && self.left.extend_from_slice(rest).is_err() {
            return Sending::Failed;
        }
        sending
    }

    /// Writes the first bytes of pieces that the world is to send, as far as the socket accepts
    /// them, and returns their number. Nothing is left from before, and nothing is kept.
    pub fn pass<S: Socket>(
        &mut self,
        socket: &mut S,
        first: &[u8],
        second: &[u8],
        third: &[u8],
        fourth: &[u8],
    ) -> usize
        ensures most { result ≤ length (first.now ++ second.now ++ third.now ++ fourth.now) }
        ensures unsent { unsent_of self.new ≡ unsent_of self.old }
        ensures sent { Appends (S.accepted socket.old) (S.accepted socket.new)
            (take result (first.now ++ second.now ++ third.now ++ fourth.now)) }
        ensures came { Keeps (S.supplied socket.old) (S.supplied socket.new) }
        ensures counts { self.new.sent ≡ min (self.old.sent + result) (2 ^ 64 - 1) }
        ensures accepted { self.new.accepted ≡ min (self.old.accepted + result) (2 ^ 64 - 1) }
        ensures blocked { self.new.is_blocked ≡ self.old.is_blocked }
    {
        let accepted = self.send_pieces(socket, first, second, third, fourth);
        let left = self.show_first(first, accepted);
        let left = self.show_first(second, left);
        let left = self.show_first(third, left);
        let _ = self.show_first(fourth, left);
        self.count(accepted);
        accepted
    }

    // Writes the first bytes of pieces, if there is memory for those that an exchange shows.
    // Returns their number.
    fn send_pieces<S: Socket>(
        &mut self,
        socket: &mut S,
        first: &[u8],
        second: &[u8],
        third: &[u8],
        fourth: &[u8],
    ) -> usize
        ensures most { result ≤ length (first.now ++ second.now ++ third.now ++ fourth.now) }
        ensures taken { Appends (S.accepted socket.old) (S.accepted socket.new)
            (take result (first.now ++ second.now ++ third.now ++ fourth.now)) }
        ensures came { Keeps (S.supplied socket.old) (S.supplied socket.new) }
        ensures left { self.new.left.items ≡ self.old.left.items }
        ensures at { self.new.at ≡ self.old.at }
        ensures sent { self.new.sent ≡ self.old.sent }
        ensures accepted { self.new.accepted ≡ self.old.accepted }
        ensures blocked { self.new.is_blocked ≡ self.old.is_blocked }
    {
        if self.reserve().is_err() {
            return 0;
        }
        let Ok(accepted) = socket.send_pieces(first, second, third, fourth) else {
            return 0;
        };
        accepted
    }

    // Keeps the part of the first bytes of a piece that an exchange shows, for which there is
    // memory. Returns how many of this number are of the next pieces.
    fn show_first(&mut self, piece: &[u8], accepted: usize) -> usize
        ensures left { self.new.left.items ≡ self.old.left.items }
        ensures at { self.new.at ≡ self.old.at }
        ensures sent { self.new.sent ≡ self.old.sent }
        ensures accepted { self.new.accepted ≡ self.old.accepted }
        ensures blocked { self.new.is_blocked ≡ self.old.is_blocked }
        ensures rest { result ≡ accepted - length piece.now }
    {
        let count = accepted.min(piece.len());
        if count > 0 {
            let _ = self.show(&piece[..count]);
        }
        accepted.saturating_sub(count)
    }

    // Reserves memory for the first bytes of the response.
    fn reserve(&mut self) -> Result<(), AllocError>
        ensures left { self.new.left.items ≡ self.old.left.items }
        ensures at { self.new.at ≡ self.old.at }
        ensures sent { self.new.sent ≡ self.old.sent }
        ensures accepted { self.new.accepted ≡ self.old.accepted }
        ensures blocked { self.new.is_blocked ≡ self.old.is_blocked }
    {
        self.head
            .reserve(HEAD_BYTES.saturating_sub(self.head.len()))
    }

    // The socket accepted this number of bytes.
    fn count(&mut self, accepted: usize)
        ensures left { self.new.left.items ≡ self.old.left.items }
        ensures at { self.new.at ≡ self.old.at }
        ensures sent { self.new.sent ≡ min (self.old.sent + accepted) (2 ^ 64 - 1) }
        ensures accepted { self.new.accepted ≡ min (self.old.accepted + accepted) (2 ^ 64 - 1) }
        ensures blocked { self.new.is_blocked ≡ self.old.is_blocked }
    {
        self.sent = self.sent.saturating_add(accepted as u64);
        self.accepted = self.accepted.saturating_add(accepted as u64);
    }

    // Keeps the part of these bytes that an exchange shows.
    fn show(&mut self, bytes: &[u8]) -> Result<(), AllocError>
        ensures left { self.new.left.items ≡ self.old.left.items }
        ensures at { self.new.at ≡ self.old.at }
        ensures sent { self.new.sent ≡ self.old.sent }
        ensures accepted { self.new.accepted ≡ self.old.accepted }
        ensures blocked { self.new.is_blocked ≡ self.old.is_blocked }
        ensures head { OnOk result (self.new.head.items ≡ self.old.head.items
            ++ take (HEAD_BYTES - length self.old.head.items) bytes.now) }
        ensures produced { OnOk result (self.new.produced ≡
            min (self.old.produced + length bytes.now) (2 ^ 64 - 1)) }
    {
        let room = HEAD_BYTES.saturating_sub(self.head.len());
        self.head
            .extend_from_slice(&bytes[..room.min(bytes.len())])?;
        self.produced = self.produced.saturating_add(bytes.len() as u64);
        keep_last(&mut self.tail, bytes);
        Ok(())
    }
}

// Keeps the last bytes of those that were kept before and these.
fn keep_last(tail: &mut [u8; TAIL_BYTES], bytes: &[u8]) {
    let last = &bytes[bytes.len().saturating_sub(TAIL_BYTES)..];
    if last.len() == TAIL_BYTES {
        tail.copy_from_slice(last);
        return;
    }
    for byte in last {
        tail.rotate_left(1);
        tail[TAIL_BYTES - 1] = *byte;
    }
}

// Writes bytes until the socket accepts no more. Returns those that it did not accept.
fn write_all<'a, S: Socket>(socket: &mut S, bytes: &'a [u8]) -> (Sending, &'a [u8])
    ensures passes { Passes (S.accepted socket.old) (S.accepted socket.new) bytes.now result.1.now }
    ensures all { result.0 ≡ Sending.All → result.1.now ≡ [] }
    ensures came { Keeps (S.supplied socket.old) (S.supplied socket.new) }
{
    let mut rest = bytes;
    for _ in 0..MAX_WRITES {
        if rest.is_empty() {
            return (Sending::All, rest);
        }
        let (sending, left) = write_once(socket, rest);
        rest = left;
        if sending != Sending::All {
            return (sending, rest);
        }
    }
    (Sending::Failed, rest)
}

// One write: the bytes that it did not accept. `All`: more may be written.
fn write_once<'a, S: Socket>(socket: &mut S, bytes: &'a [u8]) -> (Sending, &'a [u8])
    ensures passes { Passes (S.accepted socket.old) (S.accepted socket.new) bytes.now result.1.now }
    ensures came { Keeps (S.supplied socket.old) (S.supplied socket.new) }
{
    match socket.send(bytes) {
        Ok(0) => (Sending::Failed, bytes),
        Ok(count) => (Sending::All, &bytes[count..]),
        Err(e) => (after(e.kind()), bytes),
    }
}

// The result of an error of a write.
fn after(kind: ErrorKind) -> Sending
    ensures blocked { (result ≡ Sending.Blocked) ↔ (kind ≡ ErrorKind.WouldBlock) }
    ensures again { (result ≡ Sending.All) ↔ (kind ≡ ErrorKind.Interrupted) }
{
    match kind {
        ErrorKind::WouldBlock => Sending::Blocked,
        ErrorKind::Interrupted => Sending::All,
        _ => Sending::Failed,
    }
}
