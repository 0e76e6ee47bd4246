//! Pieces of bytes, passed on by reference or by copying.
use crate::machine::{Machine, call_of};
use iol_core::events::{Call, Reply};
use iol_core::lists::Bytes;
use iol_core::numbers::{AggId, Fd};
use iol_core::refusals::Refusal;

/// The most bytes of a read: those that a queue holds.
pub const PIECE: u32 = 65_536;

/// How bytes are passed on: by `iol_read` and `iol_write`, or by `read` and `write`.
#[derive(Clone, Copy, Drop)]
pub enum Passing {
    Shared,
    Copied,
}

impl Passing {
    /// The one that a word names.
    pub fn of_word(word: &str) -> Option<Passing> {
        match word {
            "shared" => Some(Passing::Shared),
            "copied" => Some(Passing::Copied),
            _ => None,
        }
    }
}

/// A descriptor of a domain.
#[derive(Clone, Copy, Drop)]
pub struct End {
    pub by: u32,
    pub fd: u32,
}

/// Bytes that a program holds: an aggregate, or a buffer of its own.
#[derive(Drop)]
pub enum Piece {
    Agg(AggId),
    Own(Bytes),
}

/// The work of a program on the bytes that it reads.
pub trait Scan {
    fn add(&mut self, part: &[u8]);
}

/// Reads a piece.
pub fn take(machine: &mut Machine<'_>, from: End, passing: Passing) -> Result<Piece, Refusal> {
    let (fd, count) = (Fd::new(from.fd), PIECE);
    let call = match passing {
        Passing::Shared => Call::IolRead { fd, count },
        Passing::Copied => Call::Read { fd, count },
    };
    match machine.call(from.by, call) {
        Reply::Agg(agg) => Ok(Piece::Agg(agg)),
        Reply::Bytes(bytes) => Ok(Piece::Own(bytes)),
        Reply::Refused(refusal) => Err(refusal),
        _ => Err(Refusal::BadFd),
    }
}

// The number in a reply.
fn count_in(reply: Reply) -> Result<u32, Refusal> {
    match &reply {
        Reply::Count(count) => Ok(*count),
        Reply::Refused(refusal) => Err(*refusal),
        _ => Err(Refusal::BadFd),
    }
}

/// The aggregate in a reply.
pub fn agg_in(reply: &Reply) -> Result<AggId, Refusal> {
    match reply {
        Reply::Agg(agg) => Ok(*agg),
        Reply::Refused(refusal) => Err(*refusal),
        _ => Err(Refusal::BadAgg),
    }
}

/// Gives an aggregate up.
pub fn drop_agg(machine: &mut Machine<'_>, by: u32, agg: AggId) -> Result<(), Refusal> {
    machine.carry_out(&call_of(by, Call::AggDrop { agg }))
}

/// Writes a piece, and gives it up: the number of bytes taken.
pub fn put(machine: &mut Machine<'_>, to: End, piece: Piece) -> Result<u32, Refusal> {
    let fd = Fd::new(to.fd);
    match piece {
        Piece::Agg(agg) => {
            let written = machine.call(to.by, Call::IolWrite { fd, agg });
            drop_agg(machine, to.by, agg)?;
            count_in(written)
        }
        Piece::Own(bytes) => count_in(machine.call(to.by, Call::Write { fd, bytes })),
    }
}

/// A piece of new bytes: an aggregate, if bytes are passed by reference.
pub fn made(
    machine: &mut Machine<'_>,
    by: u32,
    passing: Passing,
    bytes: Bytes,
) -> Result<Piece, Refusal> {
    match passing {
        Passing::Copied => Ok(Piece::Own(bytes)),
        Passing::Shared => {
            let reply = machine.call(by, Call::AggMake { bytes });
            Ok(Piece::Agg(agg_in(&reply)?))
        }
    }
}

// The bytes of an aggregate are read at their places: their number.
fn scan_agg<S: Scan>(
    machine: &Machine<'_>,
    by: u32,
    agg: AggId,
    scan: &mut S,
) -> Result<usize, Refusal> {
    let mut count = 0usize;
    for part in machine.parts(by, agg)? {
        scan.add(part);
        count = count.saturating_add(part.len());
    }
    Ok(count)
}

/// Reads a piece, looks at its bytes, and gives it up: the number of bytes.
pub fn consume<S: Scan>(
    machine: &mut Machine<'_>,
    from: End,
    passing: Passing,
    scan: &mut S,
) -> Result<usize, Refusal> {
    match take(machine, from, passing)? {
        Piece::Agg(agg) => {
            let count = scan_agg(machine, from.by, agg, scan)?;
            drop_agg(machine, from.by, agg)?;
            Ok(count)
        }
        Piece::Own(bytes) => {
            scan.add(bytes.as_slice());
            Ok(bytes.as_slice().len())
        }
    }
}

/// Reads a piece and writes it elsewhere: the number of bytes taken there.
pub fn pass(
    machine: &mut Machine<'_>,
    from: End,
    to: End,
    passing: Passing,
) -> Result<u32, Refusal> {
    let piece = take(machine, from, passing)?;
    put(machine, to, piece)
}
