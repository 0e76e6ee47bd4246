//! A process that runs scripts.
ghost use Rattle.std.specs.Prelude.{◌≡◌, ◌<◌, Some, IfOk, OnErr, length};
ghost use Rattle.iol_proc.specs.Prelude.{readable, IsCopyFree};
ghost use Rattle.flash_cgi.specs.Reached.{reached_by};
ghost use Rattle.flash_cgi.specs.TakingTurns.{FilesReply, ProceedsBy, MakesItsCall, StepsOn, TakesText};
ghost use Rattle.flash_cgi.specs.Wants as memory;
ghost use Rattle.flash_cgi.specs.WorkerSteps.{bytes_at, step_with};
ghost use Rattle.flash_cgi.specs.Works as account;

use crate::calls::call_of;
use crate::feeds::text_of;
use crate::jobs::Job;
use crate::phase::{Phase, Standing, Step};
use crate::piece::Piece;
use crate::replies::{After, after_reply};
use iol_core::events::{Call, Reply};
use iol_core::numbers::AggId;
use iol_proc::idle::Quiescence;
use iol_proc::look::Look;
use iol_proc::process::{Process, Turn};
use std::alloc::{AllocError, Global};

/// Runs the scripts of the jobs that arrive on its descriptor 0, one after another. After the end
/// of its job pipe it makes no more calls.
#[derive(Drop)]
pub struct Worker {
    alloc: Global,
    job: Job,
    step: Step,
    standing: Standing,
}

impl Worker {
    /// Creates a worker that waits for its first job.
    pub fn new(alloc: Global) -> Worker
        ensures { account.IsNew result }
    {
        Worker {
            alloc,
            job: Job::nothing(alloc),
            step: Step {
                phase: Phase::Waiting,
                begun: 0,
                piece: Piece::nothing(alloc),
            },
            standing: Standing::Asks,
        }
    }

    // Makes the call of its current step.
    fn ask(&mut self) -> Result<Turn, AllocError>
        ensures { MakesItsCall self.old result self.new }
    {
        let step = &self.step;
        let call = call_of(self.alloc, &self.job, &step.piece, step.begun, &step.phase)?;
        self.standing = Standing::Asked;
        Ok(Turn::Make(call))
    }

    // Makes the call of a phase, with unchanged buffered output.
    fn make(&mut self, phase: Phase, begun: usize) -> Result<Turn, AllocError>
        ensures { StepsOn self.old (Some (step_with phase begun self.old.step.piece)) result self.new }
    {
        let call = call_of(self.alloc, &self.job, &self.step.piece, begun, &phase)?;
        self.step.phase = phase;
        self.step.begun = begun;
        Ok(Turn::Make(call))
    }

    // Makes the call of a phase with this piece as the new buffered output.
    fn make_with(&mut self, phase: Phase, begun: usize, piece: Piece) -> Result<Turn, AllocError>
        ensures { StepsOn self.old (Some (step_with phase begun piece)) result self.new }
    {
        let step = Step {
            phase,
            begun,
            piece,
        };
        let call = call_of(self.alloc, &self.job, &step.piece, step.begun, &step.phase)?;
        self.step = step;
        Ok(Turn::Make(call))
    }

    // Makes the call of the step after a reply.
    fn advance(&mut self, after: After) -> Result<Turn, AllocError>
        ensures { StepsOn self.old (Some (reached_by self.old.step.piece after)) result self.new }
    {
        let After {
            phase,
            begun,
            piece,
        } = after;
        match piece {
            Some(piece) => self.make_with(phase, begun, piece),
            None => self.make(phase, begun),
        }
    }

    // Continues by the reply, or yields, to make the same call again.
    fn advance_by(&mut self, last: &Reply, look: &Look<'_>) -> Result<Turn, AllocError>
        ensures { ProceedsBy self.old last.now (readable look.now) result self.new }
    {
        let step = &self.step;
        match after_reply(
            self.alloc,
            &self.job,
            &step.piece,
            step.begun,
            step.phase,
            last,
            look,
        )? {
            Some(after) => self.advance(after),
            None => {
                self.standing = Standing::Asks;
                Ok(Turn::Yield)
            }
        }
    }

    // Takes the job of this text, if it is one. An empty text is the end of the job pipe.
    fn take_text(&mut self, text: &[u8], agg: AggId) -> Result<(), AllocError>
        ensures taken { IfOk result
            (λ _. self.new ≡ account.with_text self.old text.now agg) }
        ensures err { OnErr result (self.new ≡ self.old) }
        ensures wants { OnErr result (0 < length text.now) }
    {
        if text.is_empty() {
            self.standing = Standing::Over;
            return Ok(());
        }
        match Job::read(self.alloc, text)? {
            Some(job) => {
                self.job = job;
                self.step = Step {
                    phase: Phase::DroppingWritten { agg },
                    begun: 0,
                    piece: Piece::nothing(self.alloc),
                };
            }
            None => self.step.phase = Phase::DroppingOther { agg },
        }
        Ok(())
    }

    // Takes the text read from its job pipe, and drops the aggregate.
    fn take(&mut self, agg: AggId, look: &Look<'_>) -> Result<Turn, AllocError>
        ensures { TakesText self.old (bytes_at (readable look.now) agg) agg result self.new }
    {
        let text = text_of(self.alloc, look, agg)?;
        self.take_text(text.as_slice(), agg)?;
        Ok(Turn::Make(Call::AggDrop { agg }))
    }

    // Processes the reply to its call.
    fn file(&mut self, last: &Reply, look: &Look<'_>) -> Result<Turn, AllocError>
        ensures { FilesReply self.old last.now (readable look.now) result self.new }
    {
        let phase = self.step.phase;
        match (phase, last) {
            (Phase::Waiting, Reply::Agg(agg)) => self.take(*agg, look),
            _ => self.advance_by(last, look),
        }
    }
}

impl Process for Worker {
    ghost turns = { account.worker_turns };

    fn next(&mut self, last: &Reply, look: &Look<'_>) -> Result<Turn, AllocError>
        ensures turn { IfOk result
            (λ turn. account.works self.old last.now (readable look.now) turn self.new) }
        ensures copy_free { IfOk result IsCopyFree }
        ensures err { OnErr result (self.new ≡ self.old) }

        // It needs memory only to parse a text of at least one byte, and for the bytes of a call.
        ensures wants { OnErr result (memory.Wants self.old last.now (readable look.now)) }
    {
        match self.standing {
            Standing::Asks => self.ask(),
            Standing::Asked => self.file(last, look),
            Standing::Over => Ok(Turn::Yield),
        }
    }
}

impl Quiescence for Worker {
    ghost use Rattle.flash_cgi.specs.Standstill.{HasWaited};

    ghost quiescent = { HasWaited };

    fn quiesces() {}
}
