//! The bytes of a write, as an aggregate of the file's pool: bytes of the pool are shared, and each run of others is copied.
ghost use Rattle.std.specs.Prelude.{◌≡◌, ◌+◌, ◌<◌, ◌≤◌, ◌^◌, IfOk};
ghost use Rattle.iol_cache.specs.Composition.{ComposesOrReleases, ComposesRunOrKeeps, CopiesOrKeeps, IsFirstRun, IsSliceAt, MayCompose, MayCopy, copied_pages};
ghost use Rattle.iol_core.specs.Text as text;
ghost use Rattle.iol_hold.specs.Prelude.{byte_len, AllReadable, text_of};

use iol_agg::Agg;
use iol_core::limits::{MAX_AGGREGATE_BYTES, PAGE_BYTES};
use iol_core::numbers::PoolId;
use iol_core::refusals::Refusal;
use iol_hold::{Slice, Store};
use std::alloc::{AllocError, Global};

// The first run of slices that are all of the pool, or all of other pools: the number of slices and of bytes.
fn run_of(slices: &[Slice], pool: PoolId, own: bool) -> (usize, u32)
    requires { byte_len slices.now < 2 ^ 32 }
    ensures { IsFirstRun pool own slices.now result.0 result.1 }
{
    let mut count = 0;
    let mut bytes = 0;
    for slice in slices {
        let is_own = slice.hold.pool().number() == pool.number();
        if is_own != own {
            return (count, bytes);
        }
        count += 1;
        bytes += slice.len;
    }
    (count, bytes)
}

/// The number of pages of a pool that an aggregate needs there, if its bytes of other pools are copied.
pub(crate) fn foreign_pages(source: &Agg, pool: PoolId) -> u32
    requires { byte_len source.now ≤ MAX_AGGREGATE_BYTES }
    ensures { result ≡ copied_pages pool source.now }
{
    let mut pages = 0;
    let mut run: u32 = 0;
    for slice in source.slices() {
        if slice.hold.pool().number() == pool.number() {
            pages += run.div_ceil(PAGE_BYTES as u32);
            run = 0;
        } else {
            run += slice.len;
        }
    }
    pages + run.div_ceil(PAGE_BYTES as u32)
}

// A copy of the bytes of slices.
fn bytes_of(alloc: Global, store: &Store, slices: &[Slice]) -> Result<Vec<u8>, AllocError>
    requires { AllReadable store.now slices.now }
    ensures { IfOk result (λ bytes. bytes.items ≡ text.bytes_of (text_of store.now slices.now)) }
{
    let mut bytes = Vec::new(alloc);
    for slice in slices {
        bytes.extend_from_slice(slice.bytes(store))?;
    }
    Ok(bytes)
}

// The bytes of slices of other pools, copied into new buffers of the pool.
fn copy_run(alloc: Global, store: &mut Store, pool: PoolId, run: &[Slice]) -> Result<Agg, Refusal>
    requires { MayCopy store.old pool run.now }
    ensures { CopiesOrKeeps store.old store.new pool run.now result }
{
    let bytes = bytes_of(alloc, store, run)?;
    let copy = match Agg::fill(alloc, store, pool, &bytes) {
        Ok(copy) => copy,
        Err(refusal) => return Err(refusal),
    };
    Ok(copy)
}

// Composes the run of slices that begins with the i-th, whose first byte is at place `at`, and returns the index after the run.
// The slices composed before it hold each buffer fewer than 2^32 times.
fn compose_run(
    alloc: Global,
    store: &mut Store,
    pool: PoolId,
    source: &Agg,
    i: usize,
    at: u32,
) -> Result<(usize, u32, Agg), Refusal>
    requires at { IsSliceAt source.now i at }
    requires may { MayCompose store.old (2 ^ 62 + 2 ^ 32) pool source.now }
    ensures { ComposesRunOrKeeps store.old store.new pool source.now i result }
{
    let slices = source.slices();
    let own = slices[i].hold.pool().number() == pool.number();
    let (count, bytes) = run_of(&slices[i..], pool, own);
    let next = i + count;
    let end = at + bytes;
    if own {
        let Ok(shared) = source.cut(alloc, store, at, end) else {
            return Err(Refusal::Memory);
        };
        return Ok((next, end, shared));
    }
    let copy = match copy_run(alloc, store, pool, &slices[i..next]) {
        Ok(copy) => copy,
        Err(refusal) => return Err(refusal),
    };
    Ok((next, end, copy))
}

/// The bytes of an aggregate in an open pool: bytes already in it are shared, and each maximal run of others is copied to
/// its lowest free pages.
pub(crate) fn compose(
    alloc: Global,
    store: &mut Store,
    pool: PoolId,
    source: &Agg,
) -> Result<Agg, Refusal>
    requires { MayCompose store.old (2 ^ 62) pool source.now }
    ensures { ComposesOrReleases store.old store.new pool source.now result }
{
    let mut so_far = Agg::new(alloc);
    let mut i = 0;
    let mut at = 0;
    while i < source.slices().len() {
        let (next, end, more) = match compose_run(alloc, store, pool, source, i, at) {
            Ok(composed) => composed,
            Err(refusal) => {
                so_far.release(store);
                return Err(refusal);
            }
        };
        so_far = match so_far.join(more) {
            Ok(joined) => joined,
            Err(failed) => {
                let (so_far, more) = failed.value;
                so_far.release(store);
                more.release(store);
                return Err(Refusal::Memory);
            }
        };
        i = next;
        at = end;
    }
    Ok(so_far)
}
