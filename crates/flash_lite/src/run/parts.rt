//! Parts of the response are sent, by the phases of any response: while a script runs, and after
//! its worker is free.
ghost use Rattle.std.specs.Prelude.{◌≡◌, IfOk, OnErr, true};
ghost use Rattle.iol_core.specs.declared.events.Call.TheVariants.{AggMake};
ghost use Rattle.flash_http.specs.Prelude.{serve, wanted};
ghost use Rattle.flash_laws.specs.Conn as conn;
ghost use Rattle.flash_laws.specs.Run as spec;
ghost use Rattle.flash_laws.specs.Prelude.{has_bytes};
ghost use Rattle.flash_laws.specs.declared.phase.Phase.TheVariants.{DroppingSent};
ghost use Rattle.flash_lite.specs.ReceivedBytes.{received};
ghost use Rattle.flash_lite.specs.Runs.{IsGoing, IsSmallRun, IsSmallRunning, part_call_for, after_reply_left};
ghost use Rattle.flash_lite.specs.Small.{IsSmall};
ghost use Rattle.flash_lite.specs.Texts.{text_for};

use crate::conn::answers::served_text;
use crate::conn::request_calls::{cut_call, join_call};
use crate::conn::send::{Following, after_drop, after_head, after_part, proceeds};
use flash_http::Request;
use flash_laws::phase::{Payload, Phase};
use flash_laws::script_run::{Run, Running, Step};
use iol_agg::Parts;
use iol_core::events::{Call, Reply};
use iol_core::lists::Bytes;
use iol_core::numbers::{AggId, Fd};
use std::alloc::{AllocError, Global};

/// A run whose output is not sent any more.
pub(crate) fn broken(run: Run) -> Run
    ensures { result ≡ spec.broken run }
{
    Run {
        worker: run.worker,
        from: run.from,
        broken: true,
    }
}

/// After the reply to the call of a part that is sent while the script runs.
pub(crate) fn after_sending(run: Run, phase: Phase, frame: Option<AggId>, last: &Reply) -> Running
    requires { IsSmallRun run × IsGoing phase }
    ensures after_reply { result ≡ spec.after_sending run phase frame last.now }
    ensures small { IsSmallRunning result }
{
    match (phase, last) {
        (
            Phase::DroppingSent {
                agg: _,
                taken: _,
                more: None,
            },
            Reply::Done,
        ) => Running::InProgress {
            run,
            step: Step::ReadingOutput { held: None, frame },
        },
        (Phase::Aborting { agg: _, more: None }, Reply::Done) => Running::InProgress {
            run: broken(run),
            step: Step::ReadingOutput { held: None, frame },
        },
        _ => Running::InProgress {
            run,
            step: Step::SendingPart {
                phase: after_part(phase, last),
                frame,
            },
        },
    }
}

// After dropping an aggregate that was taken whole.
fn after_taken(request: &Request, agg: AggId, taken: u64, more: Following, last: &Reply) -> Phase
    requires { IsSmall (DroppingSent agg taken more) }
    ensures after_reply { result
        ≡ conn.after_taken (serve (wanted request.now)) agg taken more last.now }
    ensures small { IsSmall result }
{
    match last {
        Reply::Done => proceeds(request.keep, taken, more),
        _ => Phase::DroppingSent { agg, taken, more },
    }
}

/// After the reply to a call for the rest of the response, when the worker is free.
pub(crate) fn after_reply_left(
    request: &Request,
    phase: Phase,
    last: &Reply,
    parts: Option<Parts<'_>>,
) -> Phase
    requires { IsGoing phase }
    ensures after_reply { result
        ≡ after_reply_left (wanted request.now) phase last.now (received parts.entry) }
    ensures small { IsSmall result }
{
    match phase {
        Phase::MakingHead { content } => after_head(content, last, parts),
        Phase::DroppingSent { agg, taken, more } => after_taken(request, agg, taken, more, last),
        Phase::Aborting { agg, more } => after_drop(agg, more, last),
        _ => after_part(phase, last),
    }
}

// Makes the head, with the body if it is not that of a file.
fn make_call(alloc: Global, request: &Request, content: &Payload) -> Result<Call, AllocError>
    ensures { IfOk result
        (λ call. call ≡ AggMake (text_for (wanted request.now) content.now)) }
{
    let text = served_text(alloc, request, content)?;
    Ok(Call::AggMake {
        bytes: Bytes::from_vec(text),
    })
}

/// The call for the rest of the response. `fd` is the connection's descriptor.
pub(crate) fn part_call(
    alloc: Global,
    fd: Fd,
    request: &Request,
    phase: Phase,
) -> Result<Call, AllocError>
    requires { spec.is_left phase ≡ true }
    ensures call { IfOk result
        (λ call. call ≡ part_call_for fd (wanted request.now) phase) }
    ensures wants { OnErr result (has_bytes phase ≡ true) }
{
    Ok(match phase {
        Phase::MakingHead { content } => make_call(alloc, request, &content)?,
        Phase::Joining { head, body, .. } => join_call(head, body),
        Phase::SendingWhole { sending } => Call::IolWrite {
            fd,
            agg: sending.agg,
        },
        Phase::CuttingPiece { sending } => cut_call(sending.agg, sending.from, sending.piece_end()),
        Phase::SendingPiece { piece, .. } => Call::IolWrite { fd, agg: piece },
        Phase::DroppingPiece { piece, .. } => Call::AggDrop { agg: piece },
        Phase::DroppingSent { agg, .. } => Call::AggDrop { agg },
        Phase::AbortingPiece { piece, .. } => Call::AggDrop { agg: piece },
        Phase::Aborting { agg, .. } => Call::AggDrop { agg },
        _ => Call::Close { fd },
    })
}
