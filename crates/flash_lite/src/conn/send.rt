//! The phases after each call that sends a response: making its head, and counting the bytes
//! taken.
ghost use Rattle.std.specs.Prelude.{◌≡◌, ◌≤◌, ◌+◌, ◌^◌, Some};
ghost use Rattle.iol_core.specs.declared.events.Reply.TheVariants.{Agg, Count, Done, Refused};
ghost use Rattle.iol_core.specs.declared.refusals.Refusal.TheVariants.{BrokenPipe};
ghost use Rattle.flash_http.specs.Prelude.{Answer, answer};
ghost use Rattle.flash_laws.specs.Prelude.{keeps, after_part};
ghost use Rattle.flash_laws.specs.Conn as spec;
ghost use Rattle.flash_laws.specs.declared.phase.Phase.TheVariants.{Joining, CuttingPiece, DroppingSent};
ghost use Rattle.flash_lite.specs.ReceivedBytes.{received};
ghost use Rattle.flash_lite.specs.Runs.{IsGoing};
ghost use Rattle.flash_lite.specs.Small.{IsSmall, size_of};

use crate::received::count;
use flash_http::Asked;
use flash_laws::phase::{Payload, Phase, Sending};
use iol_agg::Parts;
use iol_core::events::Reply;
use iol_core::limits::MAX_AGGREGATE_BYTES;
use iol_core::numbers::AggId;
use iol_core::refusals::Refusal;

/// The aggregate to be sent after the current one, with its length.
pub(crate) type Following = Option<(AggId, u32)>;

// The aggregate that is sent after the head.
fn following(content: &Payload) -> Following
    ensures { result ≡ spec.following content.now }
{
    match *content {
        Payload::Body { agg, size, len: _ } => Some((agg, size)),
        Payload::Bare { len: _ } => None,
        Payload::Error { status: _ } => None,
        Payload::Script => None,
    }
}

// Joins a head with its body, if both fit into an aggregate; otherwise the body is sent after it.
fn with_body(head: AggId, size: u32, body: AggId, len: u32) -> Phase
    ensures headed { result ≡ spec.headed head size (Some (body, len)) }
    ensures small { IsSmall result }
{
    if u64::from(size) + u64::from(len) <= MAX_AGGREGATE_BYTES as u64 {
        Phase::Joining {
            head,
            size,
            body,
            len,
        }
    } else {
        Phase::SendingWhole {
            sending: Sending::whole(head, size, 0, Some((body, len))),
        }
    }
}

// The phase that sends a head and the aggregate after it.
fn headed(head: AggId, size: u32, more: Following) -> Phase
    ensures headed { result ≡ spec.headed head size more }
    ensures small { IsSmall result }
{
    match more {
        Some((body, len)) => with_body(head, size, body, len),
        None => Phase::SendingWhole {
            sending: Sending::whole(head, size, 0, None),
        },
    }
}

/// After making the head.
pub(crate) fn after_head(content: Payload, last: &Reply, parts: Option<Parts<'_>>) -> Phase
    ensures after_reply { result ≡ spec.after_head content last.now (received parts.entry) }
    ensures small { IsSmall result }
{
    match last {
        Reply::Agg(agg) => headed(*agg, count(parts), following(&content)),
        _ => Phase::MakingHead { content },
    }
}

/// After joining head and body.
pub(crate) fn after_join(head: AggId, size: u32, body: AggId, len: u32, last: &Reply) -> Phase
    requires { IsSmall (Joining head size body len) }
    ensures after_reply { result ≡ spec.after_join head size body len last.now }
    ensures small { IsSmall result }
{
    match last {
        Reply::Agg(agg) => Phase::SendingWhole {
            sending: Sending::whole(*agg, size + len, 0, None),
        },
        _ => Phase::Joining {
            head,
            size,
            body,
            len,
        },
    }
}

// The next piece is to be cut, or all is taken.
fn next_piece(sending: Sending) -> Phase
    requires { IsSmall (CuttingPiece sending) }
    ensures next { result ≡ spec.next_piece sending }
    ensures going { IsGoing result }
{
    if sending.from < sending.len {
        Phase::CuttingPiece { sending }
    } else {
        Phase::DroppingSent {
            agg: sending.agg,
            taken: sending.taken,
            more: sending.more,
        }
    }
}

// After `count` of the offered bytes were taken.
fn counted(phase: Phase, count: u32) -> Phase
    requires { IsGoing phase }
    ensures after_reply { result ≡ after_part phase (Count count) }
    ensures going { IsGoing result }
{
    match phase {
        Phase::SendingWhole { sending } => next_piece(sending.after_taking(count)),
        Phase::SendingPiece { sending, piece } => Phase::DroppingPiece {
            sending: sending.after_taking(count),
            piece,
        },
        _ => phase,
    }
}

// After cutting the next piece: it is to be offered.
fn cut(phase: Phase, piece: AggId) -> Phase
    requires { IsGoing phase }
    ensures after_reply { result ≡ after_part phase (Agg piece) }
    ensures going { IsGoing result }
{
    match phase {
        Phase::CuttingPiece { sending } => Phase::SendingPiece { sending, piece },
        _ => phase,
    }
}

// After dropping a piece: the next one is to be cut, or all is sent, or sending stops.
fn dropped(phase: Phase) -> Phase
    requires { IsGoing phase }
    ensures after_reply { result ≡ after_part phase Done }
    ensures going { IsGoing result }
{
    match phase {
        Phase::DroppingPiece { sending, .. } => next_piece(sending),
        Phase::AbortingPiece { agg, more, .. } => Phase::Aborting { agg, more },
        _ => phase,
    }
}

// The peer is gone, and the offered bytes are not taken.
fn broken_off(phase: Phase) -> Phase
    requires { IsGoing phase }
    ensures after_reply { result ≡ after_part phase (Refused BrokenPipe) }
    ensures going { IsGoing result }
{
    match phase {
        Phase::SendingWhole { sending } => Phase::Aborting {
            agg: sending.agg,
            more: sending.more,
        },
        Phase::SendingPiece { sending, piece } => Phase::AbortingPiece {
            piece,
            agg: sending.agg,
            more: sending.more,
        },
        _ => phase,
    }
}

/// The phase of a part of the response after the reply to its call, unless it is sent or aborted.
/// An unrelated reply leaves it unchanged.
pub(crate) fn after_part(phase: Phase, last: &Reply) -> Phase
    requires { IsGoing phase }
    ensures after_reply { result ≡ after_part phase last.now }
    ensures going { IsGoing result }
{
    match last {
        Reply::Count(count) => counted(phase, *count),
        Reply::Agg(piece) => cut(phase, *piece),
        Reply::Done => dropped(phase),
        Reply::Refused(Refusal::BrokenPipe) => broken_off(phase),
        _ => phase,
    }
}

// Returns whether the connection stays open after the response.
fn keeps(asked: &Asked) -> bool
    ensures { result ≡ keeps (answer asked.now) }
{
    match asked {
        Asked::Serve(request) => request.keep,
        Asked::Refuse {
            status: _,
            head_only: _,
            close,
        } => !*close,
    }
}

/// The phase after all of an aggregate was taken: the body, the next request if the connection
/// stays open, or the end.
pub(crate) fn proceeds(keep: bool, taken: u64, more: Following) -> Phase
    requires { taken + size_of more ≤ 2 ^ 40 }
    ensures goes { (q : Answer) → keeps q ≡ keep → result ≡ spec.proceeds q taken more }
    ensures small { IsSmall result }
{
    match more {
        Some((agg, len)) => Phase::SendingWhole {
            sending: Sending::whole(agg, len, taken, None),
        },
        None => {
            if keep {
                Phase::Receiving
            } else {
                Phase::Disconnecting
            }
        }
    }
}

/// After dropping an aggregate that was taken whole.
pub(crate) fn after_taken(
    asked: &Asked,
    agg: AggId,
    taken: u64,
    more: Following,
    last: &Reply,
) -> Phase
    requires { IsSmall (DroppingSent agg taken more) }
    ensures after_reply { result ≡ spec.after_taken (answer asked.now) agg taken more last.now }
    ensures small { IsSmall result }
{
    match last {
        Reply::Done => proceeds(keeps(asked), taken, more),
        _ => Phase::DroppingSent { agg, taken, more },
    }
}

/// After dropping the bytes that are not sent any more.
pub(crate) fn after_drop(agg: AggId, more: Following, last: &Reply) -> Phase
    ensures after_reply { result ≡ spec.after_drop agg more last.now }
    ensures small { IsSmall result }
{
    match last {
        Reply::Done => match more {
            Some((agg, _)) => Phase::Aborting { agg, more: None },
            None => Phase::Disconnecting,
        },
        _ => Phase::Aborting { agg, more },
    }
}

/// After closing the connection.
pub(crate) fn after_disconnect(last: &Reply) -> Phase
    ensures after_reply { result ≡ spec.after_disconnect last.now }
    ensures small { IsSmall result }
{
    match last {
        Reply::Done => Phase::Closed,
        _ => Phase::Disconnecting,
    }
}
