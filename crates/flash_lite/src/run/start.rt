//! The steps after each call that starts a script: a pipe is made for its output, and a worker
//! gets the write end and the job.
ghost use Rattle.std.specs.Prelude.{◌≡◌, ◌<◌};
ghost use Rattle.flash_laws.specs.Run as spec;
ghost use Rattle.flash_lite.specs.ReceivedBytes.{received};
ghost use Rattle.flash_lite.specs.Runs.{IsSmallRun, IsSmallStep, IsSmallRunning};
ghost use Rattle.flash_lite.specs.declared.site.TheConstants.{MAX_WORKERS};

use crate::received::count;
use flash_laws::phase::{Payload, Phase, Sending};
use flash_laws::script_run::{Run, Running, Step};
use http::StatusCode;
use iol_agg::Parts;
use iol_core::events::Reply;
use iol_core::numbers::{AggId, Fd};
use iol_core::refusals::Refusal;

// Returns whether a call with this refusal is retried.
fn is_again(refusal: Refusal) -> bool
    ensures { result ≡ spec.is_again refusal }
{
    matches!(
        refusal,
        Refusal::WouldBlock
            | Refusal::TooMany
            | Refusal::PoolClosed { pool: _ }
            | Refusal::NoRoom { pool: _ }
            | Refusal::Memory
    )
}

/// After making a pipe, with a free worker.
pub(crate) fn after_wait(worker: u32, last: &Reply) -> Running
    requires { worker < MAX_WORKERS }
    ensures after_reply { result ≡ spec.after_wait worker last.now }
    ensures small { IsSmallRunning result }
{
    match last {
        Reply::Fds(from, write) => Running::InProgress {
            run: Run {
                worker,
                from: *from,
                broken: false,
            },
            step: Step::GivingPipe { write: *write },
        },
        _ => Running::AwaitingWorker,
    }
}

/// After giving the write end.
pub(crate) fn after_give(write: Fd, last: &Reply) -> Step
    ensures after_reply { result ≡ spec.after_give write last.now }
    ensures small { IsSmallStep result }
{
    match last {
        Reply::Fd(fd) => Step::MakingJob { fd: *fd },
        Reply::Refused(refusal) => {
            if is_again(*refusal) {
                Step::GivingPipe { write }
            } else {
                Step::ClosingPipe { write }
            }
        }
        _ => Step::GivingPipe { write },
    }
}

/// After making the job.
pub(crate) fn after_make(fd: Fd, last: &Reply) -> Step
    ensures after_reply { result ≡ spec.after_make fd last.now }
    ensures small { IsSmallStep result }
{
    match last {
        Reply::Agg(job) => Step::WritingJob { job: *job, fd },
        _ => Step::MakingJob { fd },
    }
}

/// After writing the job.
pub(crate) fn after_hand(job: AggId, fd: Fd, last: &Reply) -> Step
    ensures after_reply { result ≡ spec.after_hand job fd last.now }
    ensures small { IsSmallStep result }
{
    match last {
        Reply::Count(_) => Step::DroppingJob { job },
        Reply::Refused(refusal) => {
            if is_again(*refusal) {
                Step::WritingJob { job, fd }
            } else {
                Step::DiscardingJob { job }
            }
        }
        _ => Step::WritingJob { job, fd },
    }
}

/// After dropping the job.
pub(crate) fn after_release_job(job: AggId, last: &Reply) -> Step
    ensures after_reply { result ≡ spec.after_release_job job last.now }
    ensures small { IsSmallStep result }
{
    match last {
        Reply::Done => Step::MakingHead,
        _ => Step::DroppingJob { job },
    }
}

/// After making the head.
pub(crate) fn after_head(last: &Reply, parts: Option<Parts<'_>>) -> Step
    ensures after_reply { result ≡ spec.after_head last.now (received parts.entry) }
    ensures small { IsSmallStep result }
{
    match last {
        Reply::Agg(agg) => Step::SendingPart {
            phase: Phase::SendingWhole {
                sending: Sending::whole(*agg, count(parts), 0, None),
            },
            frame: None,
        },
        _ => Step::MakingHead,
    }
}

/// After closing a write end that could not be given to the worker.
pub(crate) fn after_return(write: Fd, last: &Reply) -> Step
    ensures after_reply { result ≡ spec.after_return write last.now }
    ensures small { IsSmallStep result }
{
    match last {
        Reply::Done => Step::Failing,
        _ => Step::ClosingPipe { write },
    }
}

/// After dropping a job that could not be written.
pub(crate) fn after_lapse(job: AggId, last: &Reply) -> Step
    ensures after_reply { result ≡ spec.after_lapse job last.now }
    ensures small { IsSmallStep result }
{
    match last {
        Reply::Done => Step::Failing,
        _ => Step::DiscardingJob { job },
    }
}

/// After closing the pipe of a script that cannot run.
pub(crate) fn after_fail(run: Run, last: &Reply) -> Running
    requires { IsSmallRun run }
    ensures after_reply { result ≡ spec.after_fail run last.now }
    ensures small { IsSmallRunning result }
{
    match last {
        Reply::Done => Running::Finishing {
            phase: Phase::MakingHead {
                content: Payload::Error {
                    status: StatusCode::SERVICE_UNAVAILABLE,
                },
            },
        },
        _ => Running::InProgress {
            run,
            step: Step::Failing,
        },
    }
}
