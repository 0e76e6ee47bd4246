//! Copies of replies, and their classification for turns.
ghost use Rattle.std.specs.Prelude.{◌≡◌};
ghost use Rattle.iol_laws.specs.Prelude.{is_resource_failure};
ghost use Rattle.iol_proc.specs.CopyFree.{IsPlain};
ghost use Rattle.iol_proc.specs.Turns.{is_would_block};

use iol_core::events::Reply;
use iol_core::refusals::Refusal;

/// Copies a reply. It allocates nothing, as the reply holds no copy of bytes.
pub(crate) fn again(reply: &Reply) -> Reply
    requires { IsPlain reply.now }
    ensures { result ≡ reply.now }
{
    match reply {
        Reply::Done => Reply::Done,
        Reply::Domain(domain) => Reply::Domain(*domain),
        Reply::Pool(pool) => Reply::Pool(*pool),
        Reply::File(file) => Reply::File(*file),
        Reply::Conn(conn) => Reply::Conn(*conn),
        Reply::Fd(fd) => Reply::Fd(*fd),
        Reply::Fds(read, write) => Reply::Fds(*read, *write),
        Reply::Agg(agg) => Reply::Agg(*agg),
        Reply::Aggs(first, second) => Reply::Aggs(*first, *second),
        Reply::Count(count) => Reply::Count(*count),
        Reply::Bytes(_) | Reply::Segment { .. } => unreachable!(),
        Reply::Refused(refusal) => Reply::Refused(*refusal),
    }
}

/// Returns whether the reply is out of numbers, pages or memory, or a fault of the store.
pub(crate) fn is_resource_failure(reply: &Reply) -> bool
    ensures { result ≡ is_resource_failure reply.now }
{
    match reply {
        Reply::Refused(refusal) => matches!(
            refusal,
            Refusal::TooMany | Refusal::NoRoom { .. } | Refusal::Fault { .. } | Refusal::Memory
        ),
        _ => false,
    }
}

/// Returns whether the caller has to wait.
pub(crate) fn is_would_block(reply: &Reply) -> bool
    ensures { result ≡ is_would_block reply.now }
{
    match reply {
        Reply::Refused(refusal) => matches!(refusal, Refusal::WouldBlock),
        _ => false,
    }
}
