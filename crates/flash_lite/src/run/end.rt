//! The steps after each call after the end of the output was read, or when reading has stopped.
ghost use Rattle.std.specs.Prelude.{◌≡◌, Some};
ghost use Rattle.flash_http.specs.Prelude.{wanted};
ghost use Rattle.flash_laws.specs.Run as spec;
ghost use Rattle.flash_lite.specs.ReceivedBytes.{received};
ghost use Rattle.flash_lite.specs.Runs.{IsPiece, IsSmallRun, IsSmallStep, IsSmallRunning};

use crate::conn::send::Following;
use crate::received::count;
use flash_http::Request;
use flash_laws::phase::{Phase, Sending};
use flash_laws::script_run::{Run, Running, Step};
use iol_agg::Parts;
use iol_core::events::Reply;
use iol_core::numbers::AggId;

/// After dropping the empty aggregate of the last read.
pub(crate) fn after_ended(agg: AggId, held: Following, frame: Option<AggId>, last: &Reply) -> Step
    requires { IsPiece held }
    ensures after_reply { result ≡ spec.after_ended agg held frame last.now }
    ensures small { IsSmallStep result }
{
    match last {
        Reply::Done => Step::ClosingOutput { held, frame },
        _ => Step::DroppingEnd { agg, held, frame },
    }
}

/// After dropping buffered output that is not sent.
pub(crate) fn after_release_held(held: AggId, frame: Option<AggId>, last: &Reply) -> Step
    ensures after_reply { result ≡ spec.after_release_held held frame last.now }
    ensures small { IsSmallStep result }
{
    match last {
        Reply::Done => Step::ClosingOutput { held: None, frame },
        _ => Step::DiscardingHeld { held, frame },
    }
}

// Makes the end of the body, if the body is in chunks and is still sent.
fn finishing(chunked: bool, run: Run, held: Following) -> Running
    requires { IsSmallRun run × IsPiece held }
    ensures finishing { result ≡ spec.finishing run.broken chunked run held }
    ensures small { IsSmallRunning result }
{
    if run.broken {
        Running::Disconnecting
    } else if chunked {
        Running::InProgress {
            run,
            step: Step::MakingEnd { held },
        }
    } else {
        Running::Disconnecting
    }
}

// Reading has stopped.
fn stopped(request: &Request, run: Run, held: Following, frame: Option<AggId>) -> Running
    requires { IsSmallRun run × IsPiece held }
    ensures stopped { result ≡ spec.stopped (wanted request.now) run held frame }
    ensures small { IsSmallRunning result }
{
    match frame {
        Some(frame) => Running::InProgress {
            run,
            step: Step::DroppingFrame { frame, held },
        },
        None => finishing(request.chunked, run, held),
    }
}

/// After closing the read end.
pub(crate) fn after_stop(
    request: &Request,
    run: Run,
    held: Following,
    frame: Option<AggId>,
    last: &Reply,
) -> Running
    requires { IsSmallRun run × IsPiece held }
    ensures after_reply { result ≡ spec.after_stop (wanted request.now) run held frame last.now }
    ensures small { IsSmallRunning result }
{
    match last {
        Reply::Done => stopped(request, run, held, frame),
        _ => Running::InProgress {
            run,
            step: Step::ClosingOutput { held, frame },
        },
    }
}

/// After dropping the frame.
pub(crate) fn after_release_frame(
    request: &Request,
    run: Run,
    frame: AggId,
    held: Following,
    last: &Reply,
) -> Running
    requires { IsSmallRun run × IsPiece held }
    ensures after_reply { result
        ≡ spec.after_release_frame (wanted request.now) run frame held last.now }
    ensures small { IsSmallRunning result }
{
    match last {
        Reply::Done => finishing(request.chunked, run, held),
        _ => Running::InProgress {
            run,
            step: Step::DroppingFrame { frame, held },
        },
    }
}

// The end of the body is made: it is sent by itself, or the buffered output is inserted into it.
fn ending(run: Run, held: Following, agg: AggId, len: u32) -> Running
    requires { IsSmallRun run × IsPiece held }
    ensures ending { result ≡ spec.ending run held agg len }
    ensures small { IsSmallRunning result }
{
    match held {
        Some((held, size)) => Running::InProgress {
            run,
            step: Step::FillingEnd {
                held,
                size,
                frame: agg,
            },
        },
        None => Running::Finishing {
            phase: Phase::SendingWhole {
                sending: Sending::whole(agg, len, 0, None),
            },
        },
    }
}

/// After making the end of the body.
pub(crate) fn after_last(
    run: Run,
    held: Following,
    last: &Reply,
    parts: Option<Parts<'_>>,
) -> Running
    requires { IsSmallRun run × IsPiece held }
    ensures after_reply { result ≡ spec.after_last run held last.now (received parts.entry) }
    ensures small { IsSmallRunning result }
{
    match last {
        Reply::Agg(agg) => ending(run, held, *agg, count(parts)),
        _ => Running::InProgress {
            run,
            step: Step::MakingEnd { held },
        },
    }
}

/// After inserting the buffered output into that end.
pub(crate) fn after_wrap_last(
    held: AggId,
    size: u32,
    frame: AggId,
    last: &Reply,
    parts: Option<Parts<'_>>,
) -> Step
    requires { IsPiece (Some (held, size)) }
    ensures after_reply { result
        ≡ spec.after_wrap_last held size frame last.now (received parts.entry) }
    ensures small { IsSmallStep result }
{
    match last {
        Reply::Agg(chunk) => Step::DroppingLast {
            held,
            chunk: *chunk,
            len: count(parts),
            frame,
        },
        _ => Step::FillingEnd { held, size, frame },
    }
}

/// After dropping the buffered output.
pub(crate) fn after_trim_last(
    held: AggId,
    chunk: AggId,
    len: u32,
    frame: AggId,
    last: &Reply,
) -> Step
    ensures after_reply { result ≡ spec.after_trim_last held chunk len frame last.now }
    ensures small { IsSmallStep result }
{
    match last {
        Reply::Done => Step::DroppingLastFrame { frame, chunk, len },
        _ => Step::DroppingLast {
            held,
            chunk,
            len,
            frame,
        },
    }
}

/// After dropping the end, which is not needed without buffered output.
pub(crate) fn after_unwrap(run: Run, frame: AggId, chunk: AggId, len: u32, last: &Reply) -> Running
    requires { IsSmallRun run }
    ensures after_reply { result ≡ spec.after_unwrap run frame chunk len last.now }
    ensures small { IsSmallRunning result }
{
    match last {
        Reply::Done => Running::Finishing {
            phase: Phase::SendingWhole {
                sending: Sending::whole(chunk, len, 0, None),
            },
        },
        _ => Running::InProgress {
            run,
            step: Step::DroppingLastFrame { frame, chunk, len },
        },
    }
}
