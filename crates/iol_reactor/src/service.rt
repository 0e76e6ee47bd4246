//! The interface of a service of the event loop: the end of a request, the records, and the
//! replacement of the world.
ghost use Rattle.std.specs.Prelude.{ℕ, List, IfOk, IfSome};
ghost use Rattle.iol_proc.specs.World.{WorldState};
ghost use Rattle.iol_system.specs.Machine.{SystemState};
ghost use Rattle.iol_reactor.specs.declared.service.Frame.{Frame};

use iol_back::backing::Backing;
use iol_proc::process::Process;
use iol_proc::world::World;
use std::alloc::{AllocError, Global};
use std::net::SocketAddr;

/// The first request of some bytes.
#[derive(Clone, Copy, Debug, PartialEq, Eq)]
pub enum Frame {
    /// There is no complete request yet.
    Incomplete,

    /// It has this number of bytes, with those that precede it, and keeps the connection.
    Complete(usize),

    /// The same, and the processes close the connection after it. It may be too long: then these
    /// bytes are those by which the processes refuse it.
    Last(usize),
}

/// The progress of a response.
#[derive(Clone, Copy, Debug, PartialEq, Eq)]
pub enum Progress {
    /// The bytes do not show it. The response ends when all processes are idle, or when the
    /// connection is closed.
    Unknown,

    /// It is complete, and the connection stays open for the next request.
    Complete,

    /// The processes close the connection after it.
    Last,
}

/// A request and its response.
#[derive(Clone, Copy)]
pub struct Exchange<'a> {
    pub peer: SocketAddr,

    /// The bytes of the request, with those that precede it.
    pub request: &'a [u8],

    /// The first bytes of the response, at most `HEAD_BYTES`.
    pub head: &'a [u8],

    /// Its last bytes so far, at most `TAIL_BYTES`.
    pub tail: &'a [u8],

    /// The number of its bytes that the world sent.
    pub produced: u64,

    /// The number of its bytes that the socket accepted.
    pub sent: u64,

    /// Whether it ended, and the socket accepted all of it.
    pub complete: bool,
}

/// A protocol and its records, over the processes of worlds.
pub trait Service<B: Backing, P: Process> {
    /// The number of the pool in which the bytes that arrive on connections are placed.
    const POOL: u32;

    ghost POOL: { ℕ };

    /// The worlds that it may begin with.
    ghost starts: { WorldState SystemState P → Type 0 } = { λ world. Unit {0} };

    /// Whether this is a frame of the first request of these bytes.
    ghost frames: { List ℕ → Frame → Type 0 } = { λ bytes frame. Unit {0} };

    /// The end of the first complete request of these bytes.
    fn frame(&self, alloc: Global, bytes: &[u8]) -> Result<Frame, AllocError>
        ensures { IfOk result (λ frame. frames bytes.now frame) };

    /// The progress of the response of an exchange. It decides only when the client's next request
    /// is handed in.
    fn progress(&self, exchange: &Exchange<'_>) -> Progress;

    /// Records an exchange that ended.
    fn record(&mut self, exchange: &Exchange<'_>);

    /// Writes the records that are not written yet. The event loop calls it about once a second.
    fn flush(&mut self);

    /// The world for new requests, if there is a new one. The connection numbers of the present one
    /// may be nearly used up.
    fn renew(&mut self, is_worn: bool) -> Option<World<B, P>>
        ensures { IfSome result starts };
}
