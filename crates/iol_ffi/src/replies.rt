//! Replies for C: a struct of numbers, and a slice for bytes.
ghost use Rattle.std.specs.Prelude.{◌≡◌, ◌<◌, IsFalse, IsTrue, length, take};
ghost use Rattle.iol_ffi.specs.Replies.{CountsRead, CountsShown, Encodes, IsDone, IsRefusal, ReturnsBytes, about_of, number_of};

use iol_core::events::Reply;
use iol_core::refusals::Refusal;

/// A reply. `refusal` is 0 if the event succeeded.
#[repr(C)]
#[derive(Drop)]
pub struct IolReply {
    pub refusal: u32,
    pub about: u32,
    pub number: u64,
    pub second: u64,
}

/// There is no memory for the event's bytes.
pub(crate) const MEMORY: u32 = 17;

/// No event has this kind, or a number that it reads is out of its range.
pub(crate) const BAD_EVENT: u32 = 100;

/// `out` is too small for the bytes of the reply.
pub(crate) const SMALL_ROOM: u32 = 101;

/// The number of a refusal.
pub(crate) fn refusal_number(refusal: Refusal) -> u32
    ensures { result ≡ number_of refusal }
{
    match refusal {
        Refusal::NoDomain => 1,
        Refusal::BadFd => 2,
        Refusal::BadAgg => 3,
        Refusal::NoPool => 4,
        Refusal::NoFile => 5,
        Refusal::WrongMode => 6,
        Refusal::BadRange => 7,
        Refusal::TooLong => 8,
        Refusal::TooMany => 9,
        Refusal::Denied { .. } => 10,
        Refusal::PoolClosed { .. } => 11,
        Refusal::PoolBusy { .. } => 12,
        Refusal::BrokenPipe => 13,
        Refusal::WouldBlock => 14,
        Refusal::NoRoom { .. } => 15,
        Refusal::Fault { .. } => 16,
        Refusal::Memory => 17,
    }
}

// The pool or file in a refusal, or 0.
fn refusal_about(refusal: Refusal) -> u32
    ensures { result ≡ about_of refusal }
{
    match refusal {
        Refusal::Denied { pool } => pool.number(),
        Refusal::PoolClosed { pool } => pool.number(),
        Refusal::PoolBusy { pool } => pool.number(),
        Refusal::NoRoom { pool } => pool.number(),
        Refusal::Fault { file } => file.number(),
        _ => 0,
    }
}

/// The reply to an event that succeeded, with these two numbers.
pub(crate) fn done(number: u64, second: u64) -> IolReply
    ensures { IsDone result number second }
{
    IolReply {
        refusal: 0,
        about: 0,
        number,
        second,
    }
}

/// The reply if nothing was done, or if `out` is too small for `number` bytes.
pub(crate) fn not_done(refusal: u32, number: u64) -> IolReply
    ensures { (result.refusal ≡ refusal) × (result.number ≡ number) }
{
    IolReply {
        refusal,
        about: 0,
        number,
        second: 0,
    }
}

/// The reply to an event that was refused.
pub(crate) fn refused(refusal: &Refusal) -> IolReply
    ensures { IsRefusal refusal.now result }
{
    IolReply {
        refusal: refusal_number(*refusal),
        about: refusal_about(*refusal),
        number: 0,
        second: 0,
    }
}

/// The reply to a read of this many bytes, which are in `out`.
pub(crate) fn read_reply(outcome: Result<u32, Refusal>) -> IolReply
    ensures { CountsRead outcome result }
{
    match outcome {
        Ok(count) => done(u64::from(count), 0),
        Err(refusal) => refused(&refusal),
    }
}

/// The reply if an aggregate of this many bytes is shown in an `out` of `room` bytes.
pub(crate) fn shown_reply(outcome: Result<u32, Refusal>, room: usize) -> IolReply
    ensures { CountsShown outcome room result }
{
    match outcome {
        Ok(count) => {
            if count as usize > room {
                not_done(SMALL_ROOM, u64::from(count))
            } else {
                done(u64::from(count), 0)
            }
        }
        Err(refusal) => refused(&refusal),
    }
}

// Copies bytes to the front of `out`, if they fit.
fn put(bytes: &[u8], out: &mut [u8]) -> bool
    ensures fits { IsTrue result → take (length bytes.now) out.new ≡ bytes.now }
    ensures full { IsFalse result → length out.new < length bytes.now }
    ensures len { length out.new ≡ length out.old }
{
    if bytes.len() > out.len() {
        return false;
    }
    out[..bytes.len()].copy_from_slice(bytes);
    true
}

// The reply with these bytes.
fn with_bytes(bytes: &[u8], second: u64, out: &mut [u8]) -> IolReply
    ensures returns { ReturnsBytes bytes.now second result out.new }
    ensures len { length out.new ≡ length out.old }
{
    let number = bytes.len() as u64;
    if put(bytes, out) {
        done(number, second)
    } else {
        not_done(SMALL_ROOM, number)
    }
}

/// Encodes a reply. Its bytes are written to `out`.
pub(crate) fn reply_of(reply: &Reply, out: &mut [u8]) -> IolReply
    ensures encodes { Encodes reply.now result out.new }
    ensures len { length out.new ≡ length out.old }
{
    match reply {
        Reply::Done => done(0, 0),
        Reply::Domain(domain) => done(u64::from(domain.number()), 0),
        Reply::Pool(pool) => done(u64::from(pool.number()), 0),
        Reply::File(file) => done(u64::from(file.number()), 0),
        Reply::Conn(conn) => done(u64::from(conn.number()), 0),
        Reply::Fd(fd) => done(u64::from(fd.number()), 0),
        Reply::Fds(first, second) => done(u64::from(first.number()), u64::from(second.number())),
        Reply::Agg(agg) => done(agg.number(), 0),
        Reply::Aggs(first, second) => done(first.number(), second.number()),
        Reply::Count(count) => done(u64::from(*count), 0),
        Reply::Bytes(bytes) => with_bytes(bytes.as_slice(), 0, out),
        Reply::Segment { bytes, checksum } => {
            with_bytes(bytes.as_slice(), u64::from(*checksum), out)
        }
        Reply::Refused(refusal) => refused(refusal),
    }
}
