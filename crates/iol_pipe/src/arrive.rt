//! The bytes of one read, straight into a new buffer.
ghost use Rattle.std.specs.Prelude.{◌≡◌, ◌+◌, ◌<◌, ◌≤◌, length, false, OnErr};
ghost use Rattle.iol_pool.specs.Prelude.{pool_in};
ghost use Rattle.iol_hold.specs.Prelude.{byte_len};
ghost use Rattle.iol_pipe.specs.Arrivals.{FillsFrom, MayRead, ReadsOnce, ReadsSome};

use crate::Pipe;
use crate::fill::add_whole;
use iol_core::limits::{MAX_QUEUE_BYTES, PAGE_BYTES};
use iol_core::numbers::PoolId;
use iol_core::refusals::Refusal;
use iol_hold::{Holds, Store};
use std::alloc::Global;
use std::io;
use std::io::Read;

/// The result of one read.
#[derive(Clone, Copy, Debug, PartialEq, Eq)]
pub struct Arrived {
    /// The number of bytes received.
    pub taken: u32,

    /// Whether the reader is at its end.
    pub end: bool,

    /// Whether the read failed. Then no byte was received. No clause states that it did fail: the
    /// contract of `Read` does not say when a read fails.
    pub failed: bool,
}

impl Arrived {
    const END: Arrived = Arrived {
        taken: 0,
        end: true,
        failed: false,
    };

    const FAILURE: Arrived = Arrived {
        taken: 0,
        end: false,
        failed: true,
    };
}

impl Pipe {
    /// Takes in the bytes of one read, at most `n` and straight into a new buffer on the lowest
    /// free page of an open pool.
    ///
    /// It reserves room and memory before it reads. If the reader gives no byte, the queue is
    /// unchanged, and the page is free again.
    pub fn fill_from<R: Read>(
        &mut self,
        alloc: Global,
        store: &mut Store,
        pool: PoolId,
        reader: &mut R,
        n: u32,
    ) -> Result<Arrived, Refusal>
        requires open { (pool_in store.old.pools pool).closed ≡ false }
        requires some { 0 < n }
        requires page { n ≤ PAGE_BYTES }
        requires fits { byte_len self.old + n ≤ MAX_QUEUE_BYTES }
        ensures { FillsFrom R.remaining reader.old reader.new store.old store.new self.old self.new
            pool n result }
    {
        self.queue.reserve(1)?;
        let (made, arrived) = read_in(alloc, store, pool, reader, n)?;
        let Some(holds) = made else {
            return Ok(arrived);
        };
        add_whole(&mut self.queue, store, holds);
        self.len += arrived.taken;
        Ok(arrived)
    }
}

// Reads at most n bytes in one read, into a new buffer of the pool. If the reader gives none, there
// is no buffer, and its page is free again.
fn read_in<R: Read>(
    alloc: Global,
    store: &mut Store,
    pool: PoolId,
    reader: &mut R,
    n: u32,
) -> Result<(Option<Holds>, Arrived), Refusal>
    requires { MayRead store.old pool n }
    ensures reads { ReadsOnce R.remaining reader.old reader.new store.old store.new pool n result }
    ensures err_reader { OnErr result (reader.new ≡ reader.old) }
{
    let mut filling = store.begin(alloc, pool, n)?;
    match read_some(reader, filling.part_mut(0), n as usize) {
        Ok(len) => {
            let taken = len as u32;
            if taken == 0 {
                filling.abandon();
                return Ok((None, Arrived::END));
            }
            let holds = filling.publish(taken);
            let arrived = Arrived {
                taken,
                end: false,
                failed: false,
            };
            Ok((Some(holds), arrived))
        }
        Err(_) => {
            filling.abandon();
            Ok((None, Arrived::FAILURE))
        }
    }
}

// Reads at most n bytes in one read, to the front of the memory.
fn read_some<R: Read>(reader: &mut R, memory: &mut [u8], n: usize) -> io::Result<usize>
    requires { n ≤ length memory.old }
    ensures { ReadsSome (R.remaining reader.old) (R.remaining reader.new) memory.new n result }
{
    reader.read(&mut memory[..n])
}
