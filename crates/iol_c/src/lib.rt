//! The system for programs in C: eight exported functions, each a call of `iol_ffi` with the
//! contract of that call.
//!
//! `bindings/c/iolite.h` declares them. `docs/BINDINGS.md` lists the obligations of a caller in C.
#![tactic(auto)]

ghost use Rattle.std.specs.Prelude.{◌≡◌, IsSome, None};
ghost use Rattle.iol_ffi.specs.Creation.{CreatesInMemory, CreatesOver, sizes};
ghost use Rattle.iol_ffi.specs.Parts.{BorrowsTo};
ghost use Rattle.iol_ffi.specs.Reports.{ReportsTo};
ghost use Rattle.iol_ffi.specs.Steps.{CarriesOutOrNot};
ghost use Rattle.iol_ffi.specs.Streams.{ArrivesFrom, DrainsTo};

use iol_ffi::borrowed::IolPart;
use iol_ffi::calls;
use iol_ffi::events::IolEvent;
use iol_ffi::handle::Handle;
use iol_ffi::replies::IolReply;
use iol_ffi::report::{IolPool, IolReport};
use std::alloc::Global;

/// Creates a system over an empty store in memory. Returns 0, or the number of the refusal: then
/// `out` stays empty.
#[unsafe(no_mangle)]
pub extern "C" fn iol_system_new(
    alloc: Global,
    chunks: u32,
    generations: u32,
    sums: u32,
    out: &mut Handle,
) -> u32
    requires { out.old.value ≡ None }
    ensures { CreatesInMemory (sizes chunks generations sums) result out.new.value }
{
    calls::system_new(alloc, chunks, generations, sums, out)
}

/// Creates a system over open descriptors: file N of the store is descriptor N - 1, with its
/// length in `lens`. Returns 0, or the number of the refusal: then `out` stays empty.
#[unsafe(no_mangle)]
pub extern "C" fn iol_system_over(
    alloc: Global,
    chunks: u32,
    generations: u32,
    sums: u32,
    fds: &[i32],
    lens: &[u32],
    out: &mut Handle,
) -> u32
    requires { out.old.value ≡ None }
    ensures { CreatesOver (sizes chunks generations sums) fds.now lens.now result out.new.value }
{
    calls::system_over(alloc, chunks, generations, sums, fds, lens, out)
}

/// Frees the system. The handle is empty afterwards.
#[unsafe(no_mangle)]
pub extern "C" fn iol_system_free(alloc: Global, handle: &mut Handle)
    requires { IsSome handle.old.value }
    ensures { handle.new.value ≡ None }
{
    calls::system_free(alloc, handle);
}

/// Executes one event. The bytes of its reply are written to `out`.
#[unsafe(no_mangle)]
pub extern "C" fn iol_step(
    alloc: Global,
    handle: &mut Handle,
    e: &IolEvent,
    bytes: &[u8],
    names: &[u32],
    out: &mut [u8],
    reply: &mut IolReply,
)
    requires { IsSome handle.old.value }
    ensures { CarriesOutOrNot e.now bytes.now names.now reply.new out.new handle.old.value handle.new.value }
{
    calls::step(alloc, handle, e, bytes, names, out, reply);
}

/// Borrows the bytes of an aggregate in place: the address and the length of each of its parts,
/// from part `skip` on, as many as fit into `room`. The reply has the number of all its parts and
/// of all its bytes.
#[unsafe(no_mangle)]
pub extern "C" fn iol_parts(
    alloc: Global,
    handle: &mut Handle,
    by: u32,
    agg: u64,
    skip: usize,
    room: &mut [IolPart],
    reply: &mut IolReply,
)
    requires { IsSome handle.old.value }
    ensures same { handle.new.value ≡ handle.old.value }
    ensures borrows { BorrowsTo by agg skip handle.old.value reply.new room.old room.new }
{
    calls::parts(alloc, handle, by, agg, skip, room, reply);
}

/// Counts the resources of the system: live buffers, file extents, dirty extents, and the pages of
/// each pool that still has chunks, as many pools as fit into `room`.
#[unsafe(no_mangle)]
pub extern "C" fn iol_report(
    alloc: Global,
    handle: &mut Handle,
    room: &mut [IolPool],
    report: &mut IolReport,
)
    requires { IsSome handle.old.value }
    ensures same { handle.new.value ≡ handle.old.value }
    ensures counts { ReportsTo handle.old.value report.new }
{
    calls::report(alloc, handle, room, report);
}

/// Reads once from a descriptor directly into a page, at most `max` bytes, which arrive on a
/// connection. The reply has the number of bytes that arrived, and 1 at the descriptor's end, 2 if
/// the read failed, otherwise 0.
#[unsafe(no_mangle)]
pub extern "C" fn iol_arrive_from(
    alloc: Global,
    handle: &mut Handle,
    conn: u32,
    fd: i32,
    max: u32,
    reply: &mut IolReply,
)
    requires { IsSome handle.old.value }
    ensures { ArrivesFrom conn fd max reply.new handle.old.value handle.new.value }
{
    calls::arrive_from(alloc, handle, conn, fd, max, reply);
}

/// Writes the first bytes queued on a connection to a descriptor, from their pages, at most `max`.
/// The reply has the number of bytes taken, and 1 if the descriptor failed or took none of the
/// offered bytes, otherwise 0.
#[unsafe(no_mangle)]
pub extern "C" fn iol_drain_to(
    alloc: Global,
    handle: &mut Handle,
    conn: u32,
    fd: i32,
    max: u32,
    reply: &mut IolReply,
)
    requires { IsSome handle.old.value }
    ensures { DrainsTo conn fd max reply.new handle.old.value handle.new.value }
{
    calls::drain_to(alloc, handle, conn, fd, max, reply);
}
