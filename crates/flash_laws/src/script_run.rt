//! The state of a script: its run, from the time when its text is read to the last bytes of its
//! output.
use crate::phase::Phase;
use iol_core::numbers::{AggId, Fd};

/// The number of bytes of a chunk of a script's output, except for the last one.
pub const CHUNK_BYTES: u32 = 4096;

/// A running script.
#[derive(Clone, Copy, Debug, PartialEq, Eq)]
pub struct Run {
    /// The worker that runs it, counted from 0. It runs no other script.
    pub worker: u32,

    /// The descriptor from which its output is read.
    pub from: Fd,

    /// Whether its output is no longer sent: the rest is read and dropped.
    pub broken: bool,
}

/// The next call of a script's run, with the data for it.
///
/// `held` is output that was read and not yet offered, with its length, and `frame` the text
/// around the bytes of a whole chunk, once it is made.
#[derive(Clone, Copy, Debug, PartialEq, Eq)]
pub enum Step {
    /// Gives the pipe's write end to the worker.
    GivingPipe {
        write: Fd,
    },

    /// Makes the job. The worker has the write end at its descriptor `fd`.
    MakingJob {
        fd: Fd,
    },

    /// Writes the job into the worker's job pipe. It names the descriptor `fd`.
    WritingJob {
        job: AggId,
        fd: Fd,
    },

    /// Drops the job.
    DroppingJob {
        job: AggId,
    },

    /// Makes the head of the response.
    MakingHead,

    /// Sends a part of the response, by the phases of any response.
    SendingPart {
        phase: Phase,
        frame: Option<AggId>,
    },

    /// Reads output.
    ReadingOutput {
        held: Option<(AggId, u32)>,
        frame: Option<AggId>,
    },

    /// Drops output that is not sent.
    DroppingOutput {
        agg: AggId,
        frame: Option<AggId>,
    },

    /// Joins a piece of output, of `len` bytes, to the buffered output.
    JoiningOutput {
        held: AggId,
        size: u32,
        piece: AggId,
        len: u32,
        frame: Option<AggId>,
    },

    /// Makes the frame: the bytes of a whole chunk are buffered.
    MakingFrame {
        held: AggId,
    },

    /// Inserts them into the frame.
    FillingFrame {
        held: AggId,
        frame: AggId,
    },

    /// Drops the buffered output, which is in the chunk, of `len` bytes.
    DroppingHeld {
        held: AggId,
        chunk: AggId,
        len: u32,
        frame: AggId,
    },

    /// Drops the empty aggregate of the last read, after the end of the output.
    DroppingEnd {
        agg: AggId,
        held: Option<(AggId, u32)>,
        frame: Option<AggId>,
    },

    /// Stops sending: drops the buffered output.
    DiscardingHeld {
        held: AggId,
        frame: Option<AggId>,
    },

    /// Stops reading: closes the read end.
    ClosingOutput {
        held: Option<(AggId, u32)>,
        frame: Option<AggId>,
    },

    /// Drops the frame, after the close.
    DroppingFrame {
        frame: AggId,
        held: Option<(AggId, u32)>,
    },

    /// Makes the end of the body, around the buffered output.
    MakingEnd {
        held: Option<(AggId, u32)>,
    },

    /// Inserts the buffered output into that end.
    FillingEnd {
        held: AggId,
        size: u32,
        frame: AggId,
    },

    /// Drops the buffered output.
    DroppingLast {
        held: AggId,
        chunk: AggId,
        len: u32,
        frame: AggId,
    },

    /// Drops the end, which is not needed without buffered output.
    DroppingLastFrame {
        frame: AggId,
        chunk: AggId,
        len: u32,
    },

    /// Closes the write end, which could not be given to the worker.
    ClosingPipe {
        write: Fd,
    },

    /// Drops the job, which could not be written.
    DiscardingJob {
        job: AggId,
    },

    /// Closes the read end: the script cannot run.
    Failing,
}

/// A run of a script.
#[derive(Clone, Copy, Debug, PartialEq, Eq)]
pub enum Running {
    /// Waits for a free worker; then makes a pipe for the output.
    AwaitingWorker,

    /// Has a worker and a pipe.
    InProgress { run: Run, step: Step },

    /// The worker is free, and the rest of the response, or an error, is sent as for a file.
    Finishing { phase: Phase },

    /// The worker is free, and the connection is to be closed: all of the response is taken, or it
    /// is not sent any more.
    Disconnecting,
}
