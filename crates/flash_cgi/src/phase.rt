//! The state of a worker within a script.
use crate::counts::Said;
use crate::piece::Piece;
use iol_core::numbers::{AggId, Fd};

/// The purpose of reading a file.
#[derive(Clone, Copy, Debug)]
pub enum Purpose {
    Cat,
    Wc,
}

/// The phase of a worker: its next call and the purpose of this call.
#[derive(Clone, Copy, Debug)]
pub enum Phase {
    /// Waits for a job.
    Waiting,

    /// Drops the aggregate of a text that is no job.
    DroppingOther {
        agg: AggId,
    },

    /// Makes an aggregate of the buffered text, if it is expected. Otherwise begins the next line,
    /// or closes the output after the last line.
    Interpreting,

    /// Reads an open file.
    Reading {
        file: Fd,
        purpose: Purpose,
    },

    /// Drops the bytes of a file, after they were counted.
    DroppingCounted {
        file: Fd,
        agg: AggId,
        said: Said,
    },

    /// Closes a file whose bytes were read.
    ClosingFile {
        file: Fd,
        agg: AggId,
    },

    /// Closes a file, with this result of its `wc` line.
    ClosingCounted {
        file: Fd,
        said: Said,
    },

    /// Joins `len` bytes of a file to the `from` bytes of earlier files.
    JoiningFile {
        held: AggId,
        agg: AggId,
        from: u32,
        len: u32,
    },

    /// Cuts off the bytes of the last file from those of all buffered files.
    CuttingPart {
        held: AggId,
        agg: AggId,
        from: u32,
    },

    /// Inserts them into the text at their place.
    ReplacingPart {
        agg: AggId,
        part: AggId,
        at: u32,
    },

    /// Drops the text without the inserted bytes.
    DroppingText {
        agg: AggId,
        part: AggId,
        made: AggId,
    },

    /// Drops the bytes that were cut off.
    DroppingPart {
        part: AggId,
        made: AggId,
    },

    /// Writes an aggregate.
    Writing {
        agg: AggId,
    },

    /// Cuts off the part of an aggregate that was not taken.
    CuttingRest {
        agg: AggId,
        from: u32,
        to: u32,
    },

    /// Drops an aggregate after its rest was cut off, to be written.
    DroppingTaken {
        agg: AggId,
        rest: AggId,
    },

    /// Drops an aggregate, and continues the script.
    DroppingWritten {
        agg: AggId,
    },

    /// Drops an aggregate without a reader, and ends the script.
    Aborting {
        agg: AggId,
    },
}

/// The phase of a worker, the number of lines that it has begun, and its buffered output.
#[derive(Debug, Drop)]
pub struct Step {
    pub phase: Phase,
    pub begun: usize,
    pub piece: Piece,
}

/// Whether the worker has made the call of its phase.
#[derive(Clone, Copy, Debug)]
pub enum Standing {
    /// Not yet.
    Asks,

    /// The call was made: the last reply is that of the call.
    Asked,

    /// The job pipe has ended: the worker makes no more calls.
    Over,
}
