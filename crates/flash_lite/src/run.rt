//! The run of a script: its state after each reply, and its next call.
//!
//! Each phase has a function, in the file of its subject: starting a run, reading output, making
//! and sending chunks, and the end.
ghost use Rattle.std.specs.Prelude.{◌≡◌, ◌<◌, IfNone, IfOk, IfSome, OnErr, OnSome, false, true};
ghost use Rattle.flash_http.specs.Prelude.{wanted};
ghost use Rattle.flash_laws.specs.Client as client;
ghost use Rattle.flash_laws.specs.Prelude.{makes_any};
ghost use Rattle.flash_laws.specs.Run as spec;
ghost use Rattle.flash_lite.specs.ReceivedBytes.{received};
ghost use Rattle.flash_lite.specs.Runs.{IsSmallRun, IsSmallStep, IsSmallRunning, call_for, run_worker, waits};
ghost use Rattle.flash_lite.specs.Small.{IsSmall};
ghost use Rattle.flash_lite.specs.declared.site.TheConstants.{MAX_WORKERS};

use crate::received::Received;
use crate::run::calls::step_call;
use crate::run::chunks::{after_frame, after_trim, after_wrap};
use crate::run::end::{
    after_ended, after_last, after_release_frame, after_release_held, after_stop, after_trim_last,
    after_unwrap, after_wrap_last,
};
use crate::run::output::{after_gather, after_output, after_spill};
use crate::run::parts::{after_reply_left, after_sending, part_call};
use crate::run::start::{
    after_fail, after_give, after_hand, after_head, after_lapse, after_make, after_release_job,
    after_return, after_wait,
};
use flash_http::Request;
use flash_laws::phase::Phase;
use flash_laws::script_run::{Run, Running, Step};
use iol_core::events::Call;
use iol_core::numbers::Fd;
use std::alloc::{AllocError, Global};

mod calls;
mod chunks;
mod end;
mod output;
mod parts;
mod start;
pub(crate) mod texts;

// After the reply to the call of a step.
fn after_step(request: &Request, run: Run, step: Step, reply: Received<'_>) -> Running
    requires { IsSmallRun run × IsSmallStep step }
    ensures after_reply { result ≡ spec.after_step (wanted request.now) run step
        reply.entry.last.now (received reply.entry.parts) }
    ensures small { IsSmallRunning result }
{
    let Received { last, parts } = reply;
    let step = match step {
        Step::GivingPipe { write } => after_give(write, last),
        Step::MakingJob { fd } => after_make(fd, last),
        Step::WritingJob { job, fd } => after_hand(job, fd, last),
        Step::DroppingJob { job } => after_release_job(job, last),
        Step::MakingHead => after_head(last, parts),
        Step::SendingPart { phase, frame } => return after_sending(run, phase, frame, last),
        Step::ReadingOutput { held, frame } => {
            return after_output(request, run, held, frame, last, parts);
        }
        Step::DroppingOutput { agg, frame } => after_spill(agg, frame, last),
        Step::JoiningOutput {
            held,
            size,
            piece,
            len,
            frame,
        } => after_gather(held, size, piece, len, frame, last),
        Step::MakingFrame { held } => after_frame(held, last),
        Step::FillingFrame { held, frame } => after_wrap(held, frame, last, parts),
        Step::DroppingHeld {
            held,
            chunk,
            len,
            frame,
        } => after_trim(held, chunk, len, frame, last),
        Step::DroppingEnd { agg, held, frame } => after_ended(agg, held, frame, last),
        Step::DiscardingHeld { held, frame } => after_release_held(held, frame, last),
        Step::ClosingOutput { held, frame } => return after_stop(request, run, held, frame, last),
        Step::DroppingFrame { frame, held } => return after_release_frame(
            request, run, frame, held, last,
        ),
        Step::MakingEnd { held } => return after_last(run, held, last, parts),
        Step::FillingEnd { held, size, frame } => after_wrap_last(held, size, frame, last, parts),
        Step::DroppingLast {
            held,
            chunk,
            len,
            frame,
        } => after_trim_last(held, chunk, len, frame, last),
        Step::DroppingLastFrame { frame, chunk, len } => return after_unwrap(
            run, frame, chunk, len, last,
        ),
        Step::ClosingPipe { write } => after_return(write, last),
        Step::DiscardingJob { job } => after_lapse(job, last),
        Step::Failing => return after_fail(run, last),
    };
    Running::InProgress { run, step }
}

/// The state of a run after the reply to its call. `worker` is a free worker.
pub(crate) fn after_reply(
    worker: u32,
    request: &Request,
    running: Running,
    reply: Received<'_>,
) -> Running
    requires worker { worker < MAX_WORKERS }
    requires small { IsSmallRunning running }
    requires going { spec.is_over running ≡ false }
    ensures after_reply { result ≡ spec.after_reply worker (wanted request.now) running
        reply.entry.last.now (received reply.entry.parts) }
    ensures small { IsSmallRunning result }
{
    match running {
        Running::AwaitingWorker => after_wait(worker, reply.last),
        Running::InProgress { run, step } => after_step(request, run, step, reply),
        Running::Finishing { phase } => Running::Finishing {
            phase: after_reply_left(request, phase, reply.last, reply.parts),
        },
        Running::Disconnecting => Running::Disconnecting,
    }
}

/// The next call. `script` is the script's text, and `fd` the descriptor of the connection. It
/// needs memory only for a call with bytes of its own.
pub(crate) fn next_call(
    alloc: Global,
    fd: Fd,
    request: &Request,
    script: &[u8],
    running: Running,
) -> Result<Call, AllocError>
    requires small { IsSmallRunning running }
    requires going { spec.is_over running ≡ false }
    ensures call { IfOk result
        (λ call. call ≡ call_for (wanted request.now) script.now fd running) }
    ensures wants { OnErr result (makes_any running ≡ true) }
{
    match running {
        Running::AwaitingWorker => Ok(Call::Pipe),
        Running::InProgress { run, step } => step_call(alloc, fd, request, script, run, step),
        Running::Finishing { phase } => part_call(alloc, fd, request, phase),
        Running::Disconnecting => Ok(Call::Close { fd }),
    }
}

// Returns whether the rest of a response is still to be made, or to be sent.
fn is_left(phase: &Phase) -> bool
    ensures { result ≡ spec.is_left phase.now }
{
    matches!(
        *phase,
        Phase::MakingHead { .. }
            | Phase::SendingWhole { .. }
            | Phase::CuttingPiece { .. }
            | Phase::SendingPiece { .. }
            | Phase::DroppingPiece { .. }
            | Phase::DroppingSent { .. }
            | Phase::AbortingPiece { .. }
            | Phase::Aborting { .. }
    )
}

/// The phase of the connection once the run is over, if it is.
pub(crate) fn after_run(running: &Running) -> Option<Phase>
    requires { IsSmallRunning running.now }
    ensures none { IfNone result (spec.is_over running.now ≡ false) }
    ensures over { OnSome result (spec.is_over running.now ≡ true) }
    ensures after { IfSome result (λ phase. phase ≡ client.after_run running.now) }
    ensures left { IfSome result (λ phase. spec.is_left phase ≡ false) }
    ensures small { IfSome result IsSmall }
{
    match *running {
        Running::Finishing { phase } => { if is_left(&phase) { None } else { Some(phase) } }
        Running::Disconnecting => Some(Phase::Disconnecting),
        Running::AwaitingWorker | Running::InProgress { .. } => None,
    }
}

/// Returns whether the job is still to be made, for which the script's text is buffered.
pub(crate) fn keeps_text(running: &Running) -> bool
    ensures { result ≡ client.keeps_text running.now }
{
    match *running {
        Running::AwaitingWorker => true,
        Running::InProgress { run: _, step } => matches!(
            step,
            Step::GivingPipe { .. } | Step::MakingJob { .. }
        ),
        _ => false,
    }
}

/// Returns whether it waits for a worker.
pub(crate) fn waits(running: &Running) -> bool
    ensures { result ≡ waits running.now }
{
    matches!(*running, Running::AwaitingWorker)
}

/// The worker that runs it, if any.
pub(crate) fn run_worker(running: &Running) -> Option<u32>
    requires { IsSmallRunning running.now }
    ensures worker { result ≡ run_worker running.now }
    ensures within { IfSome result (λ worker. worker < MAX_WORKERS) }
{
    match *running {
        Running::InProgress { run, step: _ } => Some(run.worker),
        _ => None,
    }
}
