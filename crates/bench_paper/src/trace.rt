//! A trace of whole reads of files, of which the cache holds some.
use crate::machine::Machine;
use crate::piece::{agg_in, drop_agg};
use crate::programs::rewind;
use iol_core::events::Call;
use iol_core::limits::MAX_FILE_BYTES;
use iol_core::numbers::Fd;
use iol_core::refusals::Refusal;
use std::cell::Cell;

/// The reads that the store was not asked for, and their bytes.
#[derive(Clone, Copy, Drop)]
pub struct Hits {
    pub count: u64,
    pub bytes: u64,
}

// Domain 1 reads a whole file by reference.
fn read_whole(machine: &mut Machine<'_>, fd: u32) -> Result<(), Refusal> {
    rewind(machine, fd)?;
    let fd = Fd::new(fd);
    let count = MAX_FILE_BYTES as u32;
    let reply = machine.call(1, Call::IolRead { fd, count });
    drop_agg(machine, 1, agg_in(&reply)?)
}

/// Reads the files of a library in this order. `reads` is the number of the store's reads.
pub fn follow(
    machine: &mut Machine<'_>,
    lengths: &[u32],
    order: &[u32],
    reads: &Cell<u64>,
) -> Result<Hits, Refusal> {
    let mut hits = Hits { count: 0, bytes: 0 };
    for fd in order {
        let before = reads.get();
        read_whole(machine, *fd)?;
        if reads.get() == before {
            let length = lengths.get(*fd as usize).copied().unwrap_or(0);
            hits.count = hits.count.wrapping_add(1);
            hits.bytes = hits.bytes.wrapping_add(u64::from(length));
        }
    }
    Ok(hits)
}
