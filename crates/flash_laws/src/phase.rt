//! The phases of a connection, and the pending call of the server.
ghost use Rattle.std.specs.Prelude.{◌≡◌, ◌<◌, ◌+◌, ◌-◌, ◌^◌};
ghost use Rattle.flash_laws.specs.Conn as conn;

use http::StatusCode;
use iol_core::limits::MAX_QUEUE_BYTES;
use iol_core::numbers::{AggId, Fd};

/// The result of reading a file: an aggregate of all its bytes, its length, or a refusal, for
/// which the response is an error. For a script, an aggregate of its text, and `runs` is whether
/// the script can run.
#[derive(Clone, Copy, Debug, PartialEq, Eq)]
pub enum FileResult {
    File { agg: AggId, len: u32 },
    Length { len: u32 },
    Fails { status: StatusCode },
    Text { agg: AggId, runs: bool },
}

/// The body of a response: `size` bytes of a file of `len` bytes, in an aggregate; none of the
/// bytes of such a file; an error; or the output of a script.
#[derive(Clone, Copy, Debug, PartialEq, Eq)]
pub enum Payload {
    Body { agg: AggId, size: u32, len: u32 },
    Bare { len: u32 },
    Error { status: StatusCode },
    Script,
}

/// What is being sent: an aggregate of `len` bytes, of which those before `from` are taken. Of the
/// whole response `taken` bytes are taken, and `more` is the aggregate after this one, with its
/// length.
#[derive(Clone, Copy, Debug, PartialEq, Eq)]
pub struct Sending {
    pub agg: AggId,
    pub from: u32,
    pub len: u32,
    pub taken: u64,
    pub more: Option<(AggId, u32)>,
}

impl Sending {
    /// An aggregate of `len` bytes, none of which is taken.
    pub fn whole(agg: AggId, len: u32, taken: u64, more: Option<(AggId, u32)>) -> Sending
        ensures { result ≡ conn.whole agg len taken more }
    {
        Sending {
            agg,
            from: 0,
            len,
            taken,
            more,
        }
    }

    /// The end of the next piece: it has as many bytes as a queue holds, or all that are left.
    pub fn piece_end(self) -> u32
        ensures { result ≡ conn.piece_end self }
    {
        let full = self.from.saturating_add(MAX_QUEUE_BYTES as u32);
        self.len.min(full)
    }

    /// After `count` more bytes are taken, or all that are left if these are fewer.
    pub fn after_taking(self, count: u32) -> Sending
        requires { self.taken + (self.len - self.from) < 2 ^ 64 }
        ensures { result ≡ conn.after_taking self count }
    {
        let count = count.min(self.len.saturating_sub(self.from));
        Sending {
            from: self.from + count,
            taken: self.taken + u64::from(count),
            ..self
        }
    }
}

/// The phase of a connection: its next call. The request in progress is stored separately.
///
/// When an aggregate is dropped, `taken` bytes of the response are taken, and `more` is the
/// aggregate after it, with its length.
#[derive(Clone, Copy, Debug, PartialEq, Eq)]
pub enum Phase {
    /// Idle: begins the first buffered request, or reads more of the stream.
    Receiving,

    /// Drops the aggregate of a read, whose bytes are buffered.
    DroppingInput {
        agg: AggId,
    },

    /// Opens the file.
    Opening,

    /// Reads the file, or asks for its length.
    Reading {
        file: Fd,
    },

    /// Closes the file.
    ClosingFile {
        file: Fd,
        file_result: FileResult,
    },

    /// Cuts a part of the bytes read.
    Slicing {
        agg: AggId,
        first: u32,
        last: u32,
        len: u32,
    },

    /// Drops the whole of the bytes read.
    DroppingWhole {
        agg: AggId,
        content: Payload,
    },

    /// Makes the head.
    MakingHead {
        content: Payload,
    },

    /// Joins a head of `size` bytes and a body of `len` bytes.
    Joining {
        head: AggId,
        size: u32,
        body: AggId,
        len: u32,
    },

    /// Offers the whole aggregate: `from` is 0.
    SendingWhole {
        sending: Sending,
    },

    /// Cuts the next piece.
    CuttingPiece {
        sending: Sending,
    },

    /// Offers the piece.
    SendingPiece {
        sending: Sending,
        piece: AggId,
    },

    /// Drops the piece: those of its bytes that are taken are before `from`.
    DroppingPiece {
        sending: Sending,
        piece: AggId,
    },

    /// Drops the aggregate, all of which was taken.
    DroppingSent {
        agg: AggId,
        taken: u64,
        more: Option<(AggId, u32)>,
    },

    /// Stops sending: drops the piece, and then the rest.
    AbortingPiece {
        piece: AggId,
        agg: AggId,
        more: Option<(AggId, u32)>,
    },

    /// Stops sending: drops the aggregate, and then closes the connection.
    Aborting {
        agg: AggId,
        more: Option<(AggId, u32)>,
    },

    /// Closes the connection.
    Disconnecting,

    /// Closed.
    Closed,
}

/// The pending call: none, an accept, or one for the connection of a descriptor.
#[derive(Clone, Copy, Debug, PartialEq, Eq)]
pub enum PendingCall {
    Nothing,
    Accepting,
    At { fd: u32 },
}
