//! The steps after each call that reads output: it is buffered until it is a chunk, or dropped.
ghost use Rattle.std.specs.Prelude.{◌≡◌, ◌<◌, Some, false, true};
ghost use Rattle.flash_http.specs.Prelude.{wanted};
ghost use Rattle.flash_laws.specs.Run as spec;
ghost use Rattle.flash_lite.specs.ReceivedBytes.{received};
ghost use Rattle.flash_lite.specs.Runs.{IsPiece, IsSmallRun, IsSmallStep, IsSmallRunning, reading};

use crate::conn::send::Following;
use crate::received::count;
use crate::run::parts::broken;
use flash_http::Request;
use flash_laws::phase::{Phase, Sending};
use flash_laws::script_run::{CHUNK_BYTES, Run, Running, Step};
use iol_agg::Parts;
use iol_core::events::Reply;
use iol_core::numbers::AggId;
use iol_core::refusals::Refusal;

// The bytes of a whole chunk are buffered.
fn filled(held: AggId, frame: Option<AggId>) -> Step
    ensures filled { result ≡ spec.filled held frame }
    ensures small { IsSmallStep result }
{
    match frame {
        Some(frame) => Step::FillingFrame { held, frame },
        None => Step::MakingFrame { held },
    }
}

// `size` bytes are buffered.
fn holding(held: AggId, size: u32, frame: Option<AggId>) -> Step
    requires { 0 < size }
    ensures holding { result ≡ spec.holding held size frame }
    ensures small { IsSmallStep result }
{
    if size < CHUNK_BYTES {
        Step::ReadingOutput {
            held: Some((held, size)),
            frame,
        }
    } else {
        filled(held, frame)
    }
}

// Some output of a body in chunks was read, which is still sent.
fn gathering(held: Following, frame: Option<AggId>, agg: AggId, len: u32) -> Step
    requires { IsPiece held × (0 < len) }
    ensures on_output { result ≡ spec.on_output false true held frame agg len }
    ensures small { IsSmallStep result }
{
    match held {
        Some((held, size)) => Step::JoiningOutput {
            held,
            size,
            piece: agg,
            len,
            frame,
        },
        None => holding(agg, len, frame),
    }
}

// Output was read, or its end.
fn reading(
    broken: bool,
    chunked: bool,
    held: Following,
    frame: Option<AggId>,
    agg: AggId,
    len: u32,
) -> Step
    requires { IsPiece held }
    ensures reading { result ≡ reading broken chunked held frame agg len }
    ensures small { IsSmallStep result }
{
    if len == 0 {
        Step::DroppingEnd { agg, held, frame }
    } else if broken {
        Step::DroppingOutput { agg, frame }
    } else if chunked {
        gathering(held, frame, agg, len)
    } else {
        Step::SendingPart {
            phase: Phase::SendingWhole {
                sending: Sending::whole(agg, len, 0, None),
            },
            frame,
        }
    }
}

// The output may not be read.
fn unread(held: Following, frame: Option<AggId>) -> Step
    ensures unread { result ≡ spec.unread held frame }
    ensures small { IsSmallStep result }
{
    match held {
        Some((held, _)) => Step::DiscardingHeld { held, frame },
        None => Step::ClosingOutput { held: None, frame },
    }
}

/// After reading output.
#[tactic(auto, using(crate::proofs::Responses::Output::receives_read))]
pub(crate) fn after_output(
    request: &Request,
    run: Run,
    held: Following,
    frame: Option<AggId>,
    last: &Reply,
    parts: Option<Parts<'_>>,
) -> Running
    requires { IsSmallRun run × IsPiece held }
    ensures after_reply { result
        ≡ spec.after_output (wanted request.now) run held frame last.now (received parts.entry) }
    ensures small { IsSmallRunning result }
{
    match last {
        Reply::Agg(agg) => {
            let step = reading(run.broken, request.chunked, held, frame, *agg, count(parts));
            Running::InProgress { run, step }
        }
        Reply::Refused(Refusal::Denied { pool: _ }) => Running::InProgress {
            run: broken(run),
            step: unread(held, frame),
        },
        _ => Running::InProgress {
            run,
            step: Step::ReadingOutput { held, frame },
        },
    }
}

/// After dropping output that is not sent.
pub(crate) fn after_spill(agg: AggId, frame: Option<AggId>, last: &Reply) -> Step
    ensures after_reply { result ≡ spec.after_spill agg frame last.now }
    ensures small { IsSmallStep result }
{
    match last {
        Reply::Done => Step::ReadingOutput { held: None, frame },
        _ => Step::DroppingOutput { agg, frame },
    }
}

/// After joining output to the buffered output.
pub(crate) fn after_gather(
    held: AggId,
    size: u32,
    piece: AggId,
    len: u32,
    frame: Option<AggId>,
    last: &Reply,
) -> Step
    requires { IsPiece (Some (held, size)) }
    ensures after_reply { result ≡ spec.after_gather held size piece len frame last.now }
    ensures small { IsSmallStep result }
{
    match last {
        Reply::Agg(agg) => holding(*agg, size.saturating_add(len), frame),
        _ => Step::JoiningOutput {
            held,
            size,
            piece,
            len,
            frame,
        },
    }
}
