//! The calls of domains: the kernel's function for each.
ghost use Rattle.iol_kernel.specs.Prelude.{state_of, IsSound};
ghost use Rattle.iol_core.specs.declared.events.Call.TheVariants as call;
ghost use Rattle.iol_system.specs.Effects.{DoesAlone, DoesCall};

use crate::replies;
use iol_back::backing::Backing;
use iol_core::events::{Call, Reply};
use iol_core::numbers::{DomainId, Fd};
use iol_kernel::kernel::Kernel;
use iol_posix::{read_bytes, write};

/// Carries out the call `AggMake` of borrowed bytes, and replies.
pub(crate) fn make_agg(kernel: &mut Kernel, by: DomainId, bytes: &[u8]) -> Reply
    requires { IsSound (state_of kernel.old) }
    ensures { DoesAlone by (call.AggMake bytes.now) kernel.old result kernel.new }
{
    replies::agg(kernel.agg_make(by, bytes))
}

/// Carries out the call `Write` of borrowed bytes, and replies.
pub(crate) fn write_bytes(kernel: &mut Kernel, by: DomainId, fd: Fd, bytes: &[u8]) -> Reply
    requires { IsSound (state_of kernel.old) }
    ensures { DoesAlone by (call.Write fd bytes.now) kernel.old result kernel.new }
{
    replies::count(write(kernel, by, fd, bytes))
}

/// Carries out one call of a domain, and replies.
pub(crate) fn answer_call<B: Backing>(
    kernel: &mut Kernel,
    backing: &mut B,
    by: DomainId,
    call: &Call,
) -> Reply
    requires { IsSound (state_of kernel.old) }
    ensures { DoesCall by call.now B.disk backing.old backing.new kernel.old result kernel.new }
{
    match call {
        Call::DomainNew => replies::domain(kernel.domain_new(by)),
        Call::Exit => replies::done(kernel.exit(by)),
        Call::PoolCreate { chunks, domains } => {
            replies::pool(kernel.pool_create(by, *chunks, domains))
        }
        Call::PoolClose { pool } => replies::done(kernel.pool_close(by, *pool)),
        Call::PoolAdmit { pool, domain } => replies::done(kernel.pool_admit(by, *pool, *domain)),
        Call::SetPool { pool } => replies::done(kernel.set_pool(by, *pool)),
        Call::AggMake { bytes } => replies::agg(kernel.agg_make(by, bytes.as_slice())),
        Call::AggDup { agg } => replies::agg(kernel.agg_dup(by, *agg)),
        Call::AggCut { agg, from, to } => replies::agg(kernel.agg_cut(by, *agg, *from, *to)),
        Call::AggSplit { agg, at } => replies::aggs(kernel.agg_split(by, *agg, *at)),
        Call::AggJoin { first, second } => replies::agg(kernel.agg_join(by, *first, *second)),
        Call::AggReplace {
            agg,
            from,
            to,
            with,
        } => replies::agg(kernel.agg_replace(by, *agg, *from, *to, *with)),
        Call::AggDrop { agg } => replies::done(kernel.agg_drop(by, *agg)),
        Call::AggGive { agg, to } => replies::agg(kernel.agg_give(by, *agg, *to)),
        Call::Show { agg } => replies::bytes(kernel.show(by, *agg)),
        Call::FileNew { name, pool } => replies::file(kernel.file_new(backing, by, name, *pool)),
        Call::OpenFile { name, mode } => replies::fd(kernel.open_file(by, name, *mode)),
        Call::Pipe => replies::fds(kernel.pipe(by)),
        Call::GiveFd { fd, to } => replies::fd(kernel.give_fd(by, *fd, *to)),
        Call::Close { fd } => replies::done(kernel.close(by, *fd)),
        Call::Seek { fd, at } => replies::done(kernel.seek(backing, by, *fd, *at)),
        Call::Length { fd } => replies::count(kernel.file_length(backing, by, *fd)),
        Call::IolRead { fd, count } => replies::agg(kernel.iol_read(backing, by, *fd, *count)),
        Call::IolWrite { fd, agg } => replies::count(kernel.iol_write(by, *fd, *agg)),
        Call::Fsync { fd } => replies::done(kernel.fsync(backing, by, *fd)),
        Call::Read { fd, count } => replies::bytes(read_bytes(kernel, backing, by, *fd, *count)),
        Call::Write { fd, bytes } => replies::count(write(kernel, by, *fd, bytes.as_slice())),
        Call::Accept => replies::fd(kernel.accept(by)),
    }
}
