//! The call of each step of a run.
ghost use Rattle.std.specs.Prelude.{◌≡◌, ◌-◌, ◌<◌, IfOk, OnErr, true};
ghost use Rattle.iol_core.specs.declared.events.Call.TheVariants.{AggMake, AggReplace, GiveFd, IolWrite};
ghost use Rattle.flash_http.specs.Prelude.{wanted};
ghost use Rattle.flash_laws.specs.Run.Wants.{makes_bytes};
ghost use Rattle.flash_laws.specs.Run as spec;
ghost use Rattle.flash_laws.specs.Prelude.{script_text, frame_of, end_around, place_in_frame};
ghost use Rattle.flash_laws.specs.declared.script_run.TheConstants.{CHUNK_BYTES};
ghost use Rattle.flash_lite.specs.Runs.{IsPiece, IsSmallRun, IsSmallStep, job_for, step_call_for};

use crate::conn::request_calls::join_call;
use crate::conn::send::Following;
use crate::run::parts::part_call;
use crate::run::texts::{end_text, frame_text, place_in_frame, script_text};
use flash_cgi::jobs::job_text;
use flash_http::Request;
use flash_laws::script_run::{CHUNK_BYTES, Run, Step};
use iol_core::events::Call;
use iol_core::lists::Bytes;
use iol_core::numbers::{AggId, DomainId, Fd};
use std::alloc::{AllocError, Global};

// Gives the write end to the worker.
fn give_call(run: Run, write: Fd) -> Call
    requires { IsSmallRun run }
    ensures { result ≡ GiveFd write (spec.worker_domain run.worker) }
{
    Call::GiveFd {
        fd: write,
        to: DomainId::new(run.worker + 2),
    }
}

// Makes the job, which names the worker's descriptor of that end.
fn job_call(alloc: Global, request: &Request, script: &[u8], fd: Fd) -> Result<Call, AllocError>
    ensures { IfOk result
        (λ call. call ≡ AggMake (job_for (wanted request.now) script.now fd)) }
{
    let bytes = job_text(alloc, fd, request.query.as_bytes(), script)?;
    Ok(Call::AggMake { bytes })
}

// Writes the job into the worker's job pipe.
fn hand_call(run: Run, job: AggId) -> Call
    requires { IsSmallRun run }
    ensures { result ≡ IolWrite (spec.job_pipe run.worker) job }
{
    Call::IolWrite {
        fd: Fd::new(run.worker + 1),
        agg: job,
    }
}

// Makes the head of the response.
fn head_call(alloc: Global, request: &Request) -> Result<Call, AllocError>
    ensures { IfOk result (λ call. call ≡ AggMake (script_text (wanted request.now))) }
{
    let text = script_text(alloc, request)?;
    Ok(Call::AggMake {
        bytes: Bytes::from_vec(text),
    })
}

// The maximum number of bytes of the next read: those missing from a chunk.
fn most_read(held: Following) -> u32
    ensures { result ≡ CHUNK_BYTES - spec.held_size held }
{
    match held {
        Some((_, size)) => CHUNK_BYTES.saturating_sub(size),
        None => CHUNK_BYTES,
    }
}

// Makes the frame of a whole chunk.
fn frame_call(alloc: Global) -> Result<Call, AllocError>
    ensures { IfOk result (λ call. call ≡ AggMake (frame_of CHUNK_BYTES)) }
{
    let text = frame_text(alloc, CHUNK_BYTES)?;
    Ok(Call::AggMake {
        bytes: Bytes::from_vec(text),
    })
}

// Inserts the buffered output, `size` bytes, into its frame.
fn wrap_call(held: AggId, size: u32, frame: AggId) -> Call
    requires { 0 < size }
    ensures { result ≡ AggReplace frame (place_in_frame size) (place_in_frame size) held }
{
    let at = place_in_frame(size);
    Call::AggReplace {
        agg: frame,
        from: at,
        to: at,
        with: held,
    }
}

// Makes the end of the body.
fn end_call(alloc: Global, held: Following) -> Result<Call, AllocError>
    requires { IsPiece held }
    ensures { IfOk result (λ call. call ≡ AggMake (end_around held)) }
{
    let text = end_text(alloc, held)?;
    Ok(Call::AggMake {
        bytes: Bytes::from_vec(text),
    })
}

/// The call of a step. `script` is the script's text, and `fd` the connection's descriptor.
pub(crate) fn step_call(
    alloc: Global,
    fd: Fd,
    request: &Request,
    script: &[u8],
    run: Run,
    step: Step,
) -> Result<Call, AllocError>
    requires { IsSmallRun run × IsSmallStep step }
    ensures call { IfOk result
        (λ call. call ≡ step_call_for (wanted request.now) script.now fd run step) }
    ensures wants { OnErr result (makes_bytes step ≡ true) }
{
    Ok(match step {
        Step::GivingPipe { write } => give_call(run, write),
        Step::MakingJob { fd } => job_call(alloc, request, script, fd)?,
        Step::WritingJob { job, .. } => hand_call(run, job),
        Step::MakingHead => head_call(alloc, request)?,
        Step::SendingPart { phase, .. } => part_call(alloc, fd, request, phase)?,
        Step::ReadingOutput { held, .. } => Call::IolRead {
            fd: run.from,
            count: most_read(held),
        },
        Step::JoiningOutput { held, piece, .. } => join_call(held, piece),
        Step::MakingFrame { .. } => frame_call(alloc)?,
        Step::FillingFrame { held, frame } => wrap_call(held, CHUNK_BYTES, frame),
        Step::FillingEnd { held, size, frame } => wrap_call(held, size, frame),
        Step::MakingEnd { held } => end_call(alloc, held)?,
        Step::DroppingJob { job } => Call::AggDrop { agg: job },
        Step::DroppingOutput { agg, .. } => Call::AggDrop { agg },
        Step::DroppingHeld { held, .. } => Call::AggDrop { agg: held },
        Step::DroppingEnd { agg, .. } => Call::AggDrop { agg },
        Step::DiscardingHeld { held, .. } => Call::AggDrop { agg: held },
        Step::DroppingFrame { frame, .. } => Call::AggDrop { agg: frame },
        Step::DroppingLast { held, .. } => Call::AggDrop { agg: held },
        Step::DroppingLastFrame { frame, .. } => Call::AggDrop { agg: frame },
        Step::DiscardingJob { job } => Call::AggDrop { agg: job },
        Step::ClosingOutput { .. } => Call::Close { fd: run.from },
        Step::ClosingPipe { write } => Call::Close { fd: write },
        Step::Failing => Call::Close { fd: run.from },
    })
}
