//! The bytes that a client sent and for which the world has not responded yet.
ghost use Rattle.std.specs.Prelude.{◌≡◌, ◌≢◌, ◌≤◌, ◌++◌, ◌||◌, ◌&&◌, [], IfSome, drop, length};
ghost use Rattle.std.specs.Prelude.{if◌then◌else◌, nat_le, nat_lt, true, false};
ghost use Rattle.std.specs.Io.KnownBytes.{Keeps};
ghost use Rattle.iol_reactor.specs.Bytes.{Gains, Grows, IsBegun, IsFinished, IsGiven, IsSameInput};
ghost use Rattle.iol_reactor.specs.Bytes.{can_read, has_room, request_of};

use crate::limits::{MAX_BUFFERED, MIN_READ_BYTES};
use crate::socket::Socket;
use std::alloc::{AllocError, Global};
use std::io::ErrorKind;

/// A buffer that is empty and larger than this is freed.
const MAX_KEPT: usize = 4_096;

/// How a read went.
#[derive(Clone, Copy, Debug, PartialEq, Eq)]
pub enum Reading {
    /// This number of bytes was read.
    Bytes(usize),

    /// The socket has no bytes now.
    Empty,

    /// The peer sends no more.
    End,

    /// There is no memory for bytes. None were read.
    Starved,

    /// The socket failed.
    Failed,
}

/// The request in progress, if there is one, and the bytes that follow it.
#[derive(Drop)]
pub struct Input {
    alloc: Global,
    bytes: Vec<u8>,

    // The length of the request in progress, which is at the front of `bytes`; 0 if there is none.
    // The number of its bytes that were handed in.
    asked: usize,
    given: usize,

    // Whether the socket may have bytes, and whether the peer's end follows them.
    readable: bool,
    ending: bool,

    // Whether the peer's end was read.
    ended: bool,
}

impl Input {
    pub fn new(alloc: Global) -> Input
        ensures bytes { result.bytes.items ≡ [] }
        ensures asked { result.asked ≡ 0 }
        ensures given { result.given ≡ 0 }
        ensures readable { result.readable ≡ false }
        ensures ending { result.ending ≡ false }
        ensures ended { result.ended ≡ false }
    {
        Input {
            alloc,
            bytes: Vec::new(alloc),
            asked: 0,
            given: 0,
            readable: false,
            ending: false,
            ended: false,
        }
    }

    /// The socket was reported readable, or at its peer's end.
    pub fn note(&mut self, reads: bool, ends: bool)
        ensures same { IsSameInput self.old self.new }
        ensures ended { self.new.ended ≡ self.old.ended }
        ensures readable { self.new.readable ≡ (self.old.readable || reads) }
        ensures ending { self.new.ending ≡ (self.old.ending || ends) }
    {
        self.readable |= reads;
        self.ending |= ends;
    }

    /// Whether the peer's end was read.
    pub fn is_ended(&self) -> bool
        ensures { result ≡ self.now.ended }
    {
        self.ended
    }

    /// Whether a read may return bytes, or the peer's end.
    pub fn is_readable(&self) -> bool
        ensures { result ≡ can_read self.now }
    {
        (self.readable || self.ending) && !self.ended
    }

    /// The same, if there is room for more bytes.
    pub fn may_read(&self) -> bool
        ensures { result ≡ (can_read self.now && has_room self.now) }
    {
        self.is_readable() && self.bytes.len() < MAX_BUFFERED
    }

    /// Reads once, and appends the bytes to the buffer.
    pub fn read_from<S: Socket>(&mut self, socket: &mut S, piece: &mut [u8]) -> Reading
        ensures gains { result ≢ Reading.Failed → Gains (S.supplied socket.old)
            (S.supplied socket.new) self.old.bytes.items self.new.bytes.items }
        ensures came { Grows (S.supplied socket.old) (S.supplied socket.new) }
        ensures sent { Keeps (S.accepted socket.old) (S.accepted socket.new) }
        ensures asked { self.new.asked ≡ self.old.asked }
        ensures given { self.new.given ≡ self.old.given }
        ensures end { result ≡ Reading.End → self.new.ended ≡ true }
        ensures ended { result ≢ Reading.End → self.new.ended ≡ self.old.ended }
        ensures empty { result ≡ Reading.Empty → can_read self.new ≡ false }
    {
        match self.room(piece.len()) {
            Some(room) => self.read_most(socket, &mut piece[..room]),
            None => Reading::Starved,
        }
    }

    // The number of bytes, at most this, for which there is memory after those that are buffered.
    fn room(&mut self, most: usize) -> Option<usize>
        ensures same { IsSameInput self.old self.new }
        ensures readable { self.new.readable ≡ self.old.readable }
        ensures ending { self.new.ending ≡ self.old.ending }
        ensures ended { self.new.ended ≡ self.old.ended }
        ensures most { IfSome result (λ n. n ≤ most) }
    {
        if self.bytes.reserve(MIN_READ_BYTES).is_err() {
            return None;
        }
        let spare = self.bytes.capacity().saturating_sub(self.bytes.len());
        Some(spare.min(most))
    }

    // Reads once, for which there is memory.
    fn read_most<S: Socket>(&mut self, socket: &mut S, piece: &mut [u8]) -> Reading
        ensures gains { result ≢ Reading.Failed → Gains (S.supplied socket.old)
            (S.supplied socket.new) self.old.bytes.items self.new.bytes.items }
        ensures came { Grows (S.supplied socket.old) (S.supplied socket.new) }
        ensures sent { Keeps (S.accepted socket.old) (S.accepted socket.new) }
        ensures asked { self.new.asked ≡ self.old.asked }
        ensures given { self.new.given ≡ self.old.given }
        ensures end { result ≡ Reading.End → self.new.ended ≡ true }
        ensures ended { result ≢ Reading.End → self.new.ended ≡ self.old.ended }
        ensures empty { result ≡ Reading.Empty → can_read self.new ≡ false }
    {
        let room = piece.len();
        match socket.receive(piece) {
            Ok(0) => {
                self.ended = true;
                Reading::End
            }
            Ok(count) => self.append(&piece[..count], room),
            Err(e) if e.kind() == ErrorKind::WouldBlock => {
                self.readable = false;
                self.ending = false;
                Reading::Empty
            }
            Err(e) if e.kind() == ErrorKind::Interrupted => Reading::Bytes(0),
            Err(_) => Reading::Failed,
        }
    }

    /// Reads once, and drops the bytes.
    pub fn drop_from<S: Socket>(&mut self, socket: &mut S, piece: &mut [u8]) -> Reading
        ensures same { IsSameInput self.old self.new }
        ensures came { Grows (S.supplied socket.old) (S.supplied socket.new) }
        ensures sent { Keeps (S.accepted socket.old) (S.accepted socket.new) }
        ensures ended { self.new.ended ≡ self.old.ended }
        ensures empty { result ≡ Reading.Empty → can_read self.new ≡ false }
    {
        match socket.receive(piece) {
            Ok(0) => Reading::End,
            Ok(count) => Reading::Bytes(count),
            Err(e) if e.kind() == ErrorKind::WouldBlock => {
                self.readable = false;
                self.ending = false;
                Reading::Empty
            }
            Err(e) if e.kind() == ErrorKind::Interrupted => Reading::Bytes(0),
            Err(_) => Reading::Failed,
        }
    }

    // Keeps the bytes of a read of at most `room` bytes. A short read has emptied the socket,
    // unless the peer's end follows.
    fn append(&mut self, bytes: &[u8], room: usize) -> Reading
        ensures bytes { result ≢ Reading.Failed →
            self.new.bytes.items ≡ self.old.bytes.items ++ bytes.now }
        ensures end { result ≢ Reading.End }
        ensures empty { result ≢ Reading.Empty }
        ensures asked { self.new.asked ≡ self.old.asked }
        ensures given { self.new.given ≡ self.old.given }
        ensures readable { self.new.readable ≡
            (if nat_lt (length bytes.now) room then self.old.ending else self.old.readable) }
        ensures ending { self.new.ending ≡ self.old.ending }
        ensures ended { self.new.ended ≡ self.old.ended }
    {
        if bytes.len() < room {
            self.readable = self.ending;
        }
        match self.bytes.extend_from_slice(bytes) {
            Ok(()) => Reading::Bytes(bytes.len()),
            Err(AllocError) => Reading::Failed,
        }
    }

    /// Whether a request is in progress.
    pub fn is_asking(&self) -> bool
        ensures { result ≡ nat_lt 0 self.now.asked }
    {
        self.asked > 0
    }

    /// Whether all of the request in progress was handed in.
    pub fn is_given(&self) -> bool
        ensures { result ≡ nat_le self.now.asked self.now.given }
    {
        self.given >= self.asked
    }

    /// The request in progress.
    pub fn request(&self) -> &[u8]
        ensures { result.now ≡ request_of self.now }
    {
        &self.bytes[..self.asked.min(self.bytes.len())]
    }

    /// The bytes of the request in progress that were not handed in.
    pub fn rest(&self) -> &[u8]
        ensures { result.now ≡ drop self.now.given (request_of self.now) }
    {
        let request = self.request();
        &request[self.given.min(request.len())..]
    }

    /// The bytes after the request in progress.
    pub fn next(&self) -> &[u8]
        ensures { result.now ≡ drop self.now.asked self.now.bytes.items }
    {
        &self.bytes[self.asked.min(self.bytes.len())..]
    }

    /// The first bytes are a request, which begins now. No request is in progress.
    pub fn begin(&mut self, size: usize)
        ensures { IsBegun size self.old self.new }
    {
        self.asked = size.min(self.bytes.len());
        self.given = 0;
    }

    /// All of the request in progress was handed in, except for this number of bytes.
    pub fn give(&mut self, left: usize)
        ensures { IsGiven left self.old self.new }
    {
        self.given = self.asked.saturating_sub(left);
    }

    /// The request in progress has its response, or is given up.
    pub fn finish(&mut self)
        ensures { IsFinished self.old self.new }
    {
        let count = self.asked.min(self.bytes.len());
        self.bytes.drain(..count);
        self.asked = 0;
        self.given = 0;
        if self.bytes.is_empty() && self.bytes.capacity() > MAX_KEPT {
            self.bytes = Vec::new(self.alloc);
        }
    }
}
