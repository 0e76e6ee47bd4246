//! The calls of the C interface over a handle. `iol_c` exports each under its name in C, with the
//! same contract.
ghost use Rattle.std.specs.Prelude.{◌≡◌, ◌≤◌, IsSome, None, length, ◌≢◌};
ghost use Rattle.iol_core.specs.declared.events.Call.TheVariants as call;
ghost use Rattle.iol_core.specs.declared.events.Event.TheVariants as event;
ghost use Rattle.iol_ffi.specs.Creation.{Creates, CreatesInMemory, CreatesOver, CreatesOverFiles, IsCreated, sizes};
ghost use Rattle.iol_ffi.specs.Events.{event_with};
ghost use Rattle.iol_ffi.specs.Memory.{IsNotMemory, NeedsNoneIn, ReadsNoFile};
ghost use Rattle.iol_ffi.specs.Parts.{BorrowsTo};
ghost use Rattle.iol_ffi.specs.Reports.{ReportsTo};
ghost use Rattle.iol_ffi.specs.Room as spec;
ghost use Rattle.iol_ffi.specs.Steps.{CarriesOutOrNot, Executes, TakesStep};
ghost use Rattle.iol_ffi.specs.Store.{disk_of};
ghost use Rattle.iol_ffi.specs.Streams.{ArrivesFrom, DrainsTo};

use crate::borrowed::IolPart;
use crate::events::{IolEvent, Request, Unread, most_bytes, request_of};
use crate::handle::Handle;
use crate::replies::{
    BAD_EVENT, IolReply, MEMORY, SMALL_ROOM, not_done, read_reply, refusal_number, reply_of,
    shown_reply,
};
use crate::report::{IolPool, IolReport, report_of};
use crate::store::{HostStore, OpenFiles};
use crate::{Machine, borrowed, streams};
use iol_back::memory::MemoryBacking;
use iol_back::slots::Slots;
use iol_core::configuration::Config;
use iol_core::numbers::{DomainId, Fd};
use iol_core::refusals::Refusal;
use iol_system::system::System;
use std::alloc::Global;
use std::mem;

// Creates a boxed system.
fn start(alloc: Global, config: Config, store: HostStore) -> Result<Box<Machine>, Refusal>
    ensures { IsCreated config (disk_of store) result }
{
    let system = System::new(alloc, config, store)?;
    match Box::new(alloc, Machine { system }) {
        Ok(boxed) => Ok(boxed),
        Err(_) => Err(Refusal::Memory),
    }
}

// Stores a new system in a handle. Returns 0, or the number of the refusal.
fn start_in(alloc: Global, config: Config, store: HostStore, out: &mut Handle) -> u32
    requires { out.old.value ≡ None }
    ensures { Creates config (disk_of store) result out.new.value }
{
    match start(alloc, config, store) {
        Ok(boxed) => {
            *out = Handle::of(boxed);
            0
        }
        Err(refusal) => refusal_number(refusal),
    }
}

// Stores a new system over open files in a handle. Returns 0, or the number of the refusal.
fn start_over(alloc: Global, config: Config, files: OpenFiles, out: &mut Handle) -> u32
    requires empty { out.old.value ≡ None }
    requires unfailed { files.failures ≡ 0 }
    ensures { CreatesOverFiles config files.fds.items files.lens.items result out.new.value }
{
    start_in(alloc, config, HostStore::Opened(files), out)
}

// Reads at most `count` bytes to the front of `out`, which has room for them.
fn read_front(
    system: &mut System<HostStore>,
    by: DomainId,
    fd: Fd,
    count: u32,
    out: &mut [u8],
) -> IolReply
    requires { count ≤ length out.old }
    ensures len { length out.new ≡ length out.old }
    ensures executes { Executes (event.Call by (call.Read fd count)) result out.new
        system.old system.new }
    ensures needs { ReadsNoFile by fd count system.old → result.refusal ≢ 17 }
{
    read_reply(system.read_into(by, fd, &mut out[..count as usize]))
}

// Executes the event of a request, whose bytes are those that C passed, or for whose bytes `out` has
// room.
fn execute(
    system: &mut System<HostStore>,
    request: &Request,
    bytes: &[u8],
    out: &mut [u8],
) -> IolReply
    requires { spec.most_bytes (event_with request.now bytes.now) ≤ length out.old }
    ensures len { length out.new ≡ length out.old }
    ensures executes { Executes (event_with request.now bytes.now) result out.new
        system.old system.new }
    ensures needs { IsNotMemory request.now system.old result }
{
    match request {
        Request::Event(event) => reply_of(&system.step_ref(event), out),
        Request::AggMake { by } => reply_of(&system.make_agg(*by, bytes), out),
        Request::Show { by, agg } => shown_reply(system.show_into(*by, *agg, out), out.len()),
        Request::Read { by, fd, count } => read_front(system, *by, *fd, *count, out),
        Request::Write { by, fd } => reply_of(&system.write_bytes(*by, *fd, bytes), out),
    }
}

// The same by the system in a handle.
fn carry_out(
    alloc: Global,
    handle: &mut Handle,
    request: &Request,
    bytes: &[u8],
    out: &mut [u8],
) -> IolReply
    requires held { IsSome handle.old.value }
    requires room { spec.most_bytes (event_with request.now bytes.now) ≤ length out.old }
    ensures len { length out.new ≡ length out.old }
    ensures takes { TakesStep (event_with request.now bytes.now) result out.new
        handle.old.value handle.new.value }
    ensures needs { NeedsNoneIn request.now handle.old.value → result.refusal ≢ 17 }
{
    let mut machine = mem::replace(handle, Handle::none(alloc)).into_box();
    let reply = execute(&mut machine.system, request, bytes, out);
    *handle = Handle::of(machine);
    reply
}

/// Creates a system over an empty store in memory. Returns 0, or the number of the refusal: then
/// `out` stays empty.
pub fn system_new(alloc: Global, chunks: u32, generations: u32, sums: u32, out: &mut Handle) -> u32
    requires { out.old.value ≡ None }
    ensures { CreatesInMemory (sizes chunks generations sums) result out.new.value }
{
    let store = HostStore::Memory(MemoryBacking::new(Slots::new(alloc)));
    let config = Config {
        chunks,
        gen_limit: generations,
        sums,
    };
    start_in(alloc, config, store, out)
}

/// Creates a system over open descriptors: file N of the store is descriptor N - 1, with its
/// length in `lens`. Returns 0, or the number of the refusal: then `out` stays empty.
pub fn system_over(
    alloc: Global,
    chunks: u32,
    generations: u32,
    sums: u32,
    fds: &[i32],
    lens: &[u32],
    out: &mut Handle,
) -> u32
    requires { out.old.value ≡ None }
    ensures { CreatesOver (sizes chunks generations sums) fds.now lens.now result out.new.value }
{
    let (Ok(fds), Ok(lens)) = (fds.to_vec(alloc), lens.to_vec(alloc)) else {
        return MEMORY;
    };
    let files = OpenFiles {
        fds,
        lens,
        failures: 0,
    };
    let config = Config {
        chunks,
        gen_limit: generations,
        sums,
    };
    start_over(alloc, config, files, out)
}

/// Frees the system. The handle is empty afterwards.
pub fn system_free(alloc: Global, handle: &mut Handle)
    requires { IsSome handle.old.value }
    ensures { handle.new.value ≡ None }
{
    let machine = mem::replace(handle, Handle::none(alloc)).into_box();
    drop(machine);
}

/// Executes one event. The bytes of its reply are written to `out`.
pub fn step(
    alloc: Global,
    handle: &mut Handle,
    e: &IolEvent,
    bytes: &[u8],
    names: &[u32],
    out: &mut [u8],
    reply: &mut IolReply,
)
    requires { IsSome handle.old.value }
    ensures { CarriesOutOrNot e.now bytes.now names.now reply.new out.new handle.old.value handle.new.value }
{
    match request_of(alloc, e, bytes, names) {
        Ok(request) => {
            if most_bytes(&request) > out.len() {
                *reply = not_done(SMALL_ROOM, 0);
            } else {
                *reply = carry_out(alloc, handle, &request, bytes, out);
            }
        }
        Err(Unread::Memory) => {
            *reply = not_done(MEMORY, 0);
        }
        Err(Unread::Bad) => {
            *reply = not_done(BAD_EVENT, 0);
        }
    }
}

/// Borrows the bytes of an aggregate in place: the address and the length of each of its parts,
/// from part `skip` on, as many as fit into `room`. The reply has the number of all its parts and
/// of all its bytes.
pub fn parts(
    alloc: Global,
    handle: &mut Handle,
    by: u32,
    agg: u64,
    skip: usize,
    room: &mut [IolPart],
    reply: &mut IolReply,
)
    requires { IsSome handle.old.value }
    ensures same { handle.new.value ≡ handle.old.value }
    ensures borrows { BorrowsTo by agg skip handle.old.value reply.new room.old room.new }
{
    let machine = mem::replace(handle, Handle::none(alloc)).into_box();
    *reply = borrowed::parts_of(&machine.system, by, agg, skip, room);
    *handle = Handle::of(machine);
}

/// Counts the resources of the system: live buffers, file extents, dirty extents, and the pages of
/// each pool that still has chunks, as many pools as fit into `room`.
pub fn report(alloc: Global, handle: &mut Handle, room: &mut [IolPool], report: &mut IolReport)
    requires { IsSome handle.old.value }
    ensures same { handle.new.value ≡ handle.old.value }
    ensures counts { ReportsTo handle.old.value report.new }
{
    let machine = mem::replace(handle, Handle::none(alloc)).into_box();
    *report = report_of(&machine.system, room);
    *handle = Handle::of(machine);
}

/// Reads once from a descriptor directly into a page, at most `max` bytes, which arrive on a
/// connection. The reply has the number of bytes that arrived, and 1 at the descriptor's end, 2 if
/// the read failed, otherwise 0.
pub fn arrive_from(
    alloc: Global,
    handle: &mut Handle,
    conn: u32,
    fd: i32,
    max: u32,
    reply: &mut IolReply,
)
    requires { IsSome handle.old.value }
    ensures { ArrivesFrom conn fd max reply.new handle.old.value handle.new.value }
{
    let mut machine = mem::replace(handle, Handle::none(alloc)).into_box();
    *reply = streams::arrive_from(&mut machine.system, conn, fd, max);
    *handle = Handle::of(machine);
}

/// Writes the first bytes queued on a connection to a descriptor, from their pages, at most `max`.
/// The reply has the number of bytes taken, and 1 if the descriptor failed or took none of the
/// offered bytes, otherwise 0.
pub fn drain_to(
    alloc: Global,
    handle: &mut Handle,
    conn: u32,
    fd: i32,
    max: u32,
    reply: &mut IolReply,
)
    requires { IsSome handle.old.value }
    ensures { DrainsTo conn fd max reply.new handle.old.value handle.new.value }
{
    let mut machine = mem::replace(handle, Handle::none(alloc)).into_box();
    *reply = streams::drain_to(&mut machine.system, conn, fd, max);
    *handle = Handle::of(machine);
}
