//! Replies: the answer of a call, or its refusal.
ghost use Rattle.std.specs.Prelude.{◌≡◌};
ghost use Rattle.iol_core.specs.declared.events.Reply.TheVariants as reply;
ghost use Rattle.iol_kernel.specs.Calls as calls;
ghost use Rattle.iol_system.specs.Replies.{reported};

use iol_core::events::Reply;
use iol_core::lists::Bytes;
use iol_core::numbers::{AggId, ConnId, DomainId, Fd, FileId, PoolId};
use iol_core::refusals::Refusal;
use iol_sock::Segment;

/// The reply of a call without an answer.
pub(crate) fn done(answer: Result<(), Refusal>) -> Reply
    ensures { result ≡ reported (λ u. reply.Done) answer }
{
    match answer {
        Ok(()) => Reply::Done,
        Err(refusal) => Reply::Refused(refusal),
    }
}

/// The reply with a domain's number.
pub(crate) fn domain(answer: Result<DomainId, Refusal>) -> Reply
    ensures { result ≡ reported reply.Domain answer }
{
    match answer {
        Ok(domain) => Reply::Domain(domain),
        Err(refusal) => Reply::Refused(refusal),
    }
}

/// The reply with a pool's number.
pub(crate) fn pool(answer: Result<PoolId, Refusal>) -> Reply
    ensures { result ≡ reported reply.Pool answer }
{
    match answer {
        Ok(pool) => Reply::Pool(pool),
        Err(refusal) => Reply::Refused(refusal),
    }
}

/// The reply with a file's number.
pub(crate) fn file(answer: Result<FileId, Refusal>) -> Reply
    ensures { result ≡ reported reply.File answer }
{
    match answer {
        Ok(file) => Reply::File(file),
        Err(refusal) => Reply::Refused(refusal),
    }
}

/// The reply with a new connection's number.
pub(crate) fn conn(answer: Result<ConnId, Refusal>) -> Reply
    ensures { result ≡ reported reply.Conn answer }
{
    match answer {
        Ok(conn) => Reply::Conn(conn),
        Err(refusal) => Reply::Refused(refusal),
    }
}

/// The reply with an aggregate's number.
pub(crate) fn agg(answer: Result<AggId, Refusal>) -> Reply
    ensures { result ≡ reported reply.Agg answer }
{
    match answer {
        Ok(agg) => Reply::Agg(agg),
        Err(refusal) => Reply::Refused(refusal),
    }
}

/// The reply with a descriptor's number.
pub(crate) fn fd(answer: Result<Fd, Refusal>) -> Reply
    ensures { result ≡ reported reply.Fd answer }
{
    match answer {
        Ok(fd) => Reply::Fd(fd),
        Err(refusal) => Reply::Refused(refusal),
    }
}

/// The reply with a number of bytes.
pub(crate) fn count(answer: Result<u32, Refusal>) -> Reply
    ensures { result ≡ reported reply.Count answer }
{
    match answer {
        Ok(count) => Reply::Count(count),
        Err(refusal) => Reply::Refused(refusal),
    }
}

/// The reply with bytes.
pub(crate) fn bytes(answer: Result<Bytes, Refusal>) -> Reply
    ensures { result ≡ reported reply.Bytes answer }
{
    match answer {
        Ok(bytes) => Reply::Bytes(bytes),
        Err(refusal) => Reply::Refused(refusal),
    }
}

/// The reply with two aggregates.
pub(crate) fn aggs(answer: Result<(AggId, AggId), Refusal>) -> Reply
    ensures { result ≡ reported (λ two. reply.Aggs two.0 two.1) answer }
{
    match answer {
        Ok((first, second)) => Reply::Aggs(first, second),
        Err(refusal) => Reply::Refused(refusal),
    }
}

/// The reply with the ends of a pipe.
pub(crate) fn fds(answer: Result<(Fd, Fd), Refusal>) -> Reply
    ensures { result ≡ reported (λ two. reply.Fds two.0 two.1) answer }
{
    match answer {
        Ok((read, write)) => Reply::Fds(read, write),
        Err(refusal) => Reply::Refused(refusal),
    }
}

/// The reply with a segment sent.
pub(crate) fn segment(answer: Result<Segment, Refusal>) -> Reply
    ensures { result ≡ reported (λ x. reply.Segment x.0 x.1) (calls.reported answer) }
{
    match answer {
        Ok(Segment { bytes, checksum }) => Reply::Segment { bytes, checksum },
        Err(refusal) => Reply::Refused(refusal),
    }
}
