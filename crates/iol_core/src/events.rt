//! Calls, events and replies.
use crate::descriptors::{How, Mode};
use crate::lists::{Bytes, Domains};
use crate::numbers::{AggId, ConnId, DomainId, Fd, FileId, PoolId};
use crate::refusals::Refusal;

/// A call of a domain, with its effect and its reply if it succeeds. `docs/RULES.md` lists the
/// refusals of each call, in order.
#[derive(Debug, Drop)]
pub enum Call {
    /// Creates a domain that has no aggregate and no open descriptor. Returns `Domain`: the next
    /// number.
    DomainNew,

    /// Ends the caller. Drops its aggregates and closes its descriptors, in ascending order.
    /// Returns `Done`.
    Exit,

    /// Creates a pool of 1 to 256 chunks, which 1 to 16 live domains may read. Returns `Pool`: the
    /// next number.
    PoolCreate {
        chunks: u32,
        domains: Domains,
    },

    /// Closes a pool: no byte is placed in it any more, and the bytes in it stay readable. Returns
    /// `Done`.
    PoolClose {
        pool: PoolId,
    },

    /// Adds a live domain to the readers of a pool, at most 16. The caller must be one of them.
    /// Returns `Done`.
    PoolAdmit {
        pool: PoolId,
        domain: DomainId,
    },

    /// Makes a pool the caller's default pool, in which the bytes that it creates are placed.
    /// Returns `Done`.
    SetPool {
        pool: PoolId,
    },

    /// Makes an aggregate of these bytes, at most 2^24, in the caller's default pool. Returns
    /// `Agg`.
    AggMake {
        bytes: Bytes,
    },

    /// Makes a second aggregate of the same bytes. Returns `Agg`.
    AggDup {
        agg: AggId,
    },

    /// Makes an aggregate of the bytes from `from` up to, not including, `to`. Returns `Agg`.
    AggCut {
        agg: AggId,
        from: u32,
        to: u32,
    },

    /// Splits an aggregate at byte `at` and consumes it. Returns `Aggs`.
    AggSplit {
        agg: AggId,
        at: u32,
    },

    /// Joins two aggregates into one of at most 2^24 bytes and consumes both. Returns `Agg`.
    AggJoin {
        first: AggId,
        second: AggId,
    },

    /// Makes an aggregate of the bytes of `agg`, with those from `from` up to `to` replaced by the
    /// bytes of `with`. Returns `Agg`.
    AggReplace {
        agg: AggId,
        from: u32,
        to: u32,
        with: AggId,
    },

    /// Drops an aggregate. Returns `Done`.
    AggDrop {
        agg: AggId,
    },

    /// Moves an aggregate to a domain that may read all of its bytes. Returns `Agg`: the
    /// receiver's number.
    AggGive {
        agg: AggId,
        to: DomainId,
    },

    /// Returns a copy of an aggregate's bytes as `Bytes`.
    Show {
        agg: AggId,
    },

    /// Gives the next slot of the store a name of 1 to 255 bytes, and a pool for its bytes.
    /// Returns `File`.
    FileNew {
        name: Bytes,
        pool: PoolId,
    },

    /// Opens the file of this name at position 0. Returns `Fd`: the caller's lowest free number.
    OpenFile {
        name: Bytes,
        mode: Mode,
    },

    /// Creates a pipe, which holds at most 65,536 bytes. Returns `Fds`: its read end and its write
    /// end.
    Pipe,

    /// Moves a descriptor to a domain. Returns `Fd`: the receiver's lowest free number.
    GiveFd {
        fd: Fd,
        to: DomainId,
    },

    /// Closes a descriptor. Returns `Done`.
    Close {
        fd: Fd,
    },

    /// Sets the position of a descriptor on a file, at most the file's length. Returns `Done`.
    Seek {
        fd: Fd,
        at: u32,
    },

    /// Returns the length of a file in bytes as `Count`.
    Length {
        fd: Fd,
    },

    /// Reads at most `count` bytes and copies none that are in memory. Returns `Agg`.
    IolRead {
        fd: Fd,
        count: u32,
    },

    /// Writes the bytes of an aggregate, which remains. A queue takes as many as fit and copies
    /// none. A file takes all, and copies only those whose pool is not the file's. Returns
    /// `Count`: the number of bytes taken.
    IolWrite {
        fd: Fd,
        agg: AggId,
    },

    /// Writes all dirty extents of a file to the store. Returns `Done`.
    Fsync {
        fd: Fd,
    },

    /// Reads at most `count` bytes by copying them. Returns `Bytes`.
    Read {
        fd: Fd,
        count: u32,
    },

    /// Writes these bytes by copying them: to a queue as many as fit, to a file all. Returns
    /// `Count`.
    Write {
        fd: Fd,
        bytes: Bytes,
    },

    /// Accepts the waiting connection of the lowest number whose pool the caller may read. Returns
    /// `Fd`.
    Accept,
}

/// An event of a system: one atomic step.
#[derive(Debug, Drop)]
pub enum Event {
    Call { by: DomainId, call: Call },

    /// A connection is established. The bytes that arrive on it are placed in the pool.
    ConnNew { pool: PoolId },

    /// Bytes arrive on a connection, as many as fit.
    Arrive { conn: ConnId, bytes: Bytes },

    /// The peer of a connection stops sending, or also stops receiving.
    PeerClosed { conn: ConnId, how: How },

    /// A connection sends its first `max` bytes, or all if fewer are queued.
    Transmit { conn: ConnId, max: u32 },

    /// Writes one dirty extent to the store: the first of the lowest-numbered file that has one.
    /// If no extent is dirty, it has no effect.
    Flush,

    /// Drops all clean extents: the cached bytes of files that the store also has.
    DropClean,
}

/// The reply to an event. Aggregate and descriptor numbers are relative to the caller; domains,
/// pools, files and connections have numbers that are the same for all.
#[derive(Debug, Drop)]
pub enum Reply {
    Done,
    Domain(DomainId),
    Pool(PoolId),
    File(FileId),
    Conn(ConnId),
    Fd(Fd),

    /// The read end and the write end of a pipe.
    Fds(Fd, Fd),
    Agg(AggId),
    Aggs(AggId, AggId),
    Count(u32),
    Bytes(Bytes),

    /// The bytes sent, with the Internet checksum of these bytes only.
    Segment { bytes: Bytes, checksum: u16 },
    Refused(Refusal),
}
