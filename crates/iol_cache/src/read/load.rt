//! Bytes of the store, read into new buffers.
ghost use Rattle.std.specs.Prelude.{◌<◌, ◌≤◌, length, IfOk};
ghost use Rattle.iol_cache.specs.Loads.{Asks, IsBegunFor, IsRead, LoadsHolds, LoadsOrKeeps, MayLoad, ReadsInto, ReadsPart, WritesFilling};
ghost use Rattle.iol_hold.specs.Prelude.{filling_parts, filling_bytes, IsFilling};

use iol_back::backing::{Backing, StoreFault};
use iol_core::numbers::{FileId, PoolId};
use iol_core::refusals::Refusal;
use iol_hold::{Filling, Holds, Store};
use std::alloc::Global;

// Reads into the first `n` bytes of a part.
fn read_part<B: Backing>(
    backing: &mut B,
    file: FileId,
    at: u32,
    part: &mut [u8],
    n: usize,
) -> Result<(), StoreFault>
    requires { n ≤ length part.old }
    ensures asks { IsRead (B.disk backing.old) (B.disk backing.new) result }
    ensures reads { ReadsInto (B.disk backing.old) file at n part.new result }
{
    let (into, _rest) = part.split_at_mut(n);
    backing.read_at(file, at, into)
}

// Reads at most `left` bytes into part `i` of a filling, and returns their number.
fn fill_part<B: Backing>(
    filling: &mut Filling<'_>,
    i: usize,
    backing: &mut B,
    file: FileId,
    at: u32,
    left: u32,
) -> Result<u32, StoreFault>
    requires within { i < length (filling_parts filling.old) }
    requires filling { IsFilling filling.old }
    ensures asks { IsRead (B.disk backing.old) (B.disk backing.new) result }
    ensures reads { ReadsPart filling.old filling.new i left (B.disk backing.old) file at result }
{
    let part = filling.part_mut(i);
    let here = (left as usize).min(part.len());
    match read_part(backing, file, at, part, here) {
        Ok(()) => Ok(here as u32),
        Err(fault) => Err(fault),
    }
}

// Reads `n` bytes into the parts of a filling that was begun for `n` bytes.
fn fill_parts<B: Backing>(
    filling: &mut Filling<'_>,
    backing: &mut B,
    file: FileId,
    at: u32,
    n: u32,
) -> Result<(), StoreFault>
    requires { IsBegunFor filling.old at n }
    ensures writes { WritesFilling filling.old filling.new }
    ensures asks { IsRead (B.disk backing.old) (B.disk backing.new) result }
    ensures reads { ReadsInto (B.disk backing.old) file at n (filling_bytes filling.new) result }
{
    let mut done = 0;
    for i in 0..filling.part_count() {
        match fill_part(filling, i, backing, file, at + done, n - done) {
            Ok(here) => done += here,
            Err(fault) => return Err(fault),
        }
    }
    Ok(())
}

/// New buffers of an open pool with `n` bytes of the store, read directly into their memory.
pub(crate) fn load<B: Backing>(
    alloc: Global,
    store: &mut Store,
    backing: &mut B,
    file: FileId,
    pool: PoolId,
    at: u32,
    n: u32,
) -> Result<Holds, Refusal>
    requires { MayLoad store.old pool at n }
    ensures loads { IfOk result
        (LoadsHolds store.old store.new pool n (B.disk backing.old) file at) }
    ensures keeps { LoadsOrKeeps pool n file store.old store.new result }
    ensures asks { Asks 1 (B.disk backing.old) (B.disk backing.new) result }
{
    let mut filling = match store.begin(alloc, pool, n) {
        Ok(filling) => filling,
        Err(refusal) => return Err(refusal),
    };
    match fill_parts(&mut filling, backing, file, at, n) {
        Ok(()) => Ok(filling.publish(n)),
        Err(_) => {
            filling.abandon();
            Err(Refusal::Fault { file })
        }
    }
}
