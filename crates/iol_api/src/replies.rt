//! Replies as results of the types of their calls.
ghost use Rattle.std.specs.Prelude.{◌≡◌};
ghost use Rattle.iol_core.specs.declared.events.Reply.TheVariants as reply;
ghost use Rattle.iol_system.specs.Replies.{reported};
ghost use Rattle.iol_api.specs.Typed as spec;
ghost use Rattle.iol_api.specs.Typed.{IsReply};

use iol_core::events::Reply;
use iol_core::lists::Bytes;
use iol_core::numbers::{AggId, ConnId, DomainId, Fd, FileId, PoolId};
use iol_core::refusals::Refusal;

/// Nothing, or a refusal.
pub(crate) fn done(given: Reply) -> Result<(), Refusal>
    requires { IsReply spec.done given }
    ensures { reported spec.done result ≡ given }
{
    match given {
        Reply::Done => Ok(()),
        Reply::Refused(refusal) => Err(refusal),
        _ => unreachable!(),
    }
}

/// A domain's number, or a refusal.
pub(crate) fn domain(given: Reply) -> Result<DomainId, Refusal>
    requires { IsReply reply.Domain given }
    ensures { reported reply.Domain result ≡ given }
{
    match given {
        Reply::Domain(domain) => Ok(domain),
        Reply::Refused(refusal) => Err(refusal),
        _ => unreachable!(),
    }
}

/// A pool's number, or a refusal.
pub(crate) fn pool(given: Reply) -> Result<PoolId, Refusal>
    requires { IsReply reply.Pool given }
    ensures { reported reply.Pool result ≡ given }
{
    match given {
        Reply::Pool(pool) => Ok(pool),
        Reply::Refused(refusal) => Err(refusal),
        _ => unreachable!(),
    }
}

/// A file's number, or a refusal.
pub(crate) fn file(given: Reply) -> Result<FileId, Refusal>
    requires { IsReply reply.File given }
    ensures { reported reply.File result ≡ given }
{
    match given {
        Reply::File(file) => Ok(file),
        Reply::Refused(refusal) => Err(refusal),
        _ => unreachable!(),
    }
}

/// A descriptor, or a refusal.
pub(crate) fn fd(given: Reply) -> Result<Fd, Refusal>
    requires { IsReply reply.Fd given }
    ensures { reported reply.Fd result ≡ given }
{
    match given {
        Reply::Fd(fd) => Ok(fd),
        Reply::Refused(refusal) => Err(refusal),
        _ => unreachable!(),
    }
}

/// The read end and the write end of a pipe, or a refusal.
pub(crate) fn fds(given: Reply) -> Result<(Fd, Fd), Refusal>
    requires { IsReply spec.fds given }
    ensures { reported spec.fds result ≡ given }
{
    match given {
        Reply::Fds(read, write) => Ok((read, write)),
        Reply::Refused(refusal) => Err(refusal),
        _ => unreachable!(),
    }
}

/// An aggregate's number, or a refusal.
pub(crate) fn agg(given: Reply) -> Result<AggId, Refusal>
    requires { IsReply reply.Agg given }
    ensures { reported reply.Agg result ≡ given }
{
    match given {
        Reply::Agg(agg) => Ok(agg),
        Reply::Refused(refusal) => Err(refusal),
        _ => unreachable!(),
    }
}

/// The numbers of two aggregates, or a refusal.
pub(crate) fn aggs(given: Reply) -> Result<(AggId, AggId), Refusal>
    requires { IsReply spec.aggs given }
    ensures { reported spec.aggs result ≡ given }
{
    match given {
        Reply::Aggs(first, second) => Ok((first, second)),
        Reply::Refused(refusal) => Err(refusal),
        _ => unreachable!(),
    }
}

/// A number of bytes, or a refusal.
pub(crate) fn count(given: Reply) -> Result<u32, Refusal>
    requires { IsReply reply.Count given }
    ensures { reported reply.Count result ≡ given }
{
    match given {
        Reply::Count(count) => Ok(count),
        Reply::Refused(refusal) => Err(refusal),
        _ => unreachable!(),
    }
}

/// Bytes, or a refusal.
pub(crate) fn bytes(given: Reply) -> Result<Bytes, Refusal>
    requires { IsReply reply.Bytes given }
    ensures { reported reply.Bytes result ≡ given }
{
    match given {
        Reply::Bytes(bytes) => Ok(bytes),
        Reply::Refused(refusal) => Err(refusal),
        _ => unreachable!(),
    }
}

/// A connection's number, or a refusal.
pub(crate) fn conn(given: Reply) -> Result<ConnId, Refusal>
    requires { IsReply reply.Conn given }
    ensures { reported reply.Conn result ≡ given }
{
    match given {
        Reply::Conn(conn) => Ok(conn),
        Reply::Refused(refusal) => Err(refusal),
        _ => unreachable!(),
    }
}

/// Bytes that were sent and their Internet checksum, or a refusal.
pub(crate) fn segment(given: Reply) -> Result<(Bytes, u16), Refusal>
    requires { IsReply spec.segment given }
    ensures { reported spec.segment result ≡ given }
{
    match given {
        Reply::Segment { bytes, checksum } => Ok((bytes, checksum)),
        Reply::Refused(refusal) => Err(refusal),
        _ => unreachable!(),
    }
}
