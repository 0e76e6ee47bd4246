//! The step of a worker after the reply to its call.
ghost use Rattle.std.specs.Prelude.{◌≡◌, IfOk, OnErr, Some, None, is_some, length, true};
ghost use Rattle.iol_proc.specs.Prelude.{readable};
ghost use Rattle.flash_cgi.specs.Collecting.{bytes_of_one, with_line};
ghost use Rattle.flash_cgi.specs.Reached.{after_of, cut_after, reached, read_after, written_after};
ghost use Rattle.flash_cgi.specs.Wants.{may_copy};
ghost use Rattle.flash_cgi.specs.WorkerSteps as spec;
ghost use Rattle.flash_cgi.specs.declared.phase.Phase.TheVariants as phase;

use crate::calls::is_expected;
use crate::counts::Said;
use crate::feeds::{counts, len_of};
use crate::jobs::Job;
use crate::line::Line;
use crate::phase::{Phase, Purpose, Step};
use crate::piece::{MAX_COLLECTED_BYTES, Piece, Place};
use iol_core::events::Reply;
use iol_core::numbers::{AggId, Fd};
use iol_core::refusals::Refusal;
use iol_proc::look::Look;
use std::alloc::{AllocError, Global};

/// The step after a reply: the phase, the number of lines begun, and the buffered output, if it
/// changes.
#[derive(Drop)]
pub(crate) struct After {
    pub phase: Phase,
    pub begun: usize,
    pub piece: Option<Piece>,
}

/// The next step, or none if the same call is retried.
type AfterReply = Result<Option<After>, AllocError>;

// A step with unchanged buffered output.
fn at(phase: Phase, begun: usize) -> Option<After>
    ensures { result ≡ after_of phase begun None }
{
    Some(After {
        phase,
        begun,
        piece: None,
    })
}

// A step with this buffered output.
fn with(phase: Phase, begun: usize, piece: Piece) -> Option<After>
    ensures { result ≡ after_of phase begun (Some piece) }
{
    Some(After {
        phase,
        begun,
        piece: Some(piece),
    })
}

// Buffers the result of a `wc` line.
fn collect_said(alloc: Global, piece: &Piece, said: Said, begun: usize) -> AfterReply
    ensures { IfOk result
        (λ after. reached piece.now after ≡ spec.said_collected begun piece.now said) }
{
    let text = said.text(alloc)?;
    let piece = piece.with_text(alloc, text.as_slice())?;
    Ok(with(Phase::Interpreting, begun, piece))
}

// After opening a file, or its refusal.
fn after_opening(
    alloc: Global,
    piece: &Piece,
    purpose: Purpose,
    begun: usize,
    last: &Reply,
) -> AfterReply
    ensures { IfOk result
        (λ after. reached piece.now after ≡ spec.after_opening piece.now purpose begun last.now) }
{
    match last {
        Reply::Fd(file) => Ok(at(
            Phase::Reading {
                file: *file,
                purpose,
            },
            begun,
        )),
        Reply::Refused(refusal) => collect_said(alloc, piece, Said::Refused(*refusal), begun),
        _ => Ok(None),
    }
}

// Buffers a text, as a line.
fn collect_line(alloc: Global, piece: &Piece, text: &[u8], begun: usize) -> AfterReply
    ensures { IfOk result (λ after. reached piece.now after ≡ spec.at phase.Interpreting begun (with_line piece.now text.now)) }
{
    let piece = piece.with_line(alloc, text)?;
    Ok(with(Phase::Interpreting, begun, piece))
}

// After the call that begins a line; `begun` includes this line.
fn after_line(
    alloc: Global,
    job: &Job,
    piece: &Piece,
    line: &Line,
    begun: usize,
    last: &Reply,
) -> AfterReply
    ensures { IfOk result (λ after. reached piece.now after ≡ spec.after_line job.now piece.now line.now begun last.now) }
{
    match line {
        Line::Emit { text } => collect_line(alloc, piece, text.as_slice(), begun),
        Line::Query => collect_line(alloc, piece, job.query.as_slice(), begun),
        Line::Cat { .. } => after_opening(alloc, piece, Purpose::Cat, begun, last),
        Line::Wc { .. } => after_opening(alloc, piece, Purpose::Wc, begun, last),
        Line::Pause => Ok(at(Phase::Interpreting, begun)),
    }
}

// After an aggregate of the buffered text was made: inserts the bytes of the last file, or all are
// inserted.
fn interleave(alloc: Global, piece: Piece, agg: AggId, begun: usize) -> Result<Step, AllocError>
    ensures { IfOk result (λ step. step ≡ spec.interleave_on begun piece agg) }
{
    let Some(held) = piece.held else {
        let phase = Phase::Writing { agg };
        return Ok(Step {
            phase,
            begun,
            piece,
        });
    };
    match piece.last() {
        None => {
            let piece = piece.without_files(alloc)?;
            let phase = Phase::DroppingTaken {
                agg: held,
                rest: agg,
            };
            Ok(Step {
                phase,
                begun,
                piece,
            })
        }
        Some(place) => {
            let from = place.from;
            let phase = Phase::CuttingPart { held, agg, from };
            Ok(Step {
                phase,
                begun,
                piece,
            })
        }
    }
}

// After making an aggregate of the buffered text.
fn after_making(alloc: Global, piece: &Piece, begun: usize, last: &Reply) -> AfterReply
    ensures { IfOk result
        (λ after. reached piece.now after ≡ spec.after_making piece.now begun last.now) }
{
    match last {
        Reply::Agg(agg) => {
            let piece = piece.without_text(alloc)?;
            let step = interleave(alloc, piece, *agg, begun)?;
            Ok(with(step.phase, step.begun, step.piece))
        }
        _ => Ok(None),
    }
}

// After the call that makes an aggregate of the buffered text, begins the next line, or closes the
// output.
fn after_begin(alloc: Global, job: &Job, piece: &Piece, begun: usize, last: &Reply) -> AfterReply
    ensures { IfOk result
        (λ after. reached piece.now after ≡ spec.after_begin job.now piece.now begun last.now) }
{
    if is_expected(job, piece, begun) {
        return after_making(alloc, piece, begun, last);
    }
    match job.script.lines.get(begun) {
        Some(line) => after_line(alloc, job, piece, line, begun + 1, last),
        None => Ok(at(Phase::Waiting, 0)),
    }
}

// The phase after reading the bytes of a file.
fn got(file: Fd, agg: AggId, purpose: Purpose, look: &Look<'_>) -> Phase
    ensures { result ≡ spec.got (readable look.now) file agg purpose }
{
    match purpose {
        Purpose::Cat => Phase::ClosingFile { file, agg },
        Purpose::Wc => Phase::DroppingCounted {
            file,
            agg,
            said: Said::Counted(counts(look, agg)),
        },
    }
}

// After reading a file, or its refusal.
fn after_reading(
    file: Fd,
    purpose: Purpose,
    begun: usize,
    last: &Reply,
    look: &Look<'_>,
) -> Option<After>
    ensures { result ≡ read_after (readable look.now) file purpose begun last.now }
{
    match last {
        Reply::Agg(agg) => at(got(file, *agg, purpose, look), begun),
        Reply::Refused(refusal) => at(
            Phase::ClosingCounted {
                file,
                said: Said::Refused(*refusal),
            },
            begun,
        ),
        _ => None,
    }
}

// Buffers `len` bytes of a file, which is closed, after the `from` bytes of the earlier files.
fn collect_file(
    alloc: Global,
    piece: &Piece,
    from: u32,
    agg: AggId,
    len: u32,
    begun: usize,
) -> AfterReply
    ensures { IfOk result
        (λ after. reached piece.now after ≡ spec.file_collected piece.now piece.now.held from agg len begun) }
{
    match piece.held {
        Some(held) => Ok(at(
            Phase::JoiningFile {
                held,
                agg,
                from,
                len,
            },
            begun,
        )),
        None => {
            let piece = piece.with_file(alloc, agg, 0, len)?;
            Ok(with(Phase::Interpreting, begun, piece))
        }
    }
}

// The number of bytes of all buffered files.
fn held_bytes(piece: &Piece, look: &Look<'_>) -> u32
    ensures { result ≡ length (bytes_of_one (readable look.now) piece.now.held) }
{
    match piece.held {
        Some(held) => len_of(look, held),
        None => 0,
    }
}

// After closing a file: buffers its bytes, or writes them by themselves after the buffered output.
fn after_closing(
    alloc: Global,
    piece: &Piece,
    agg: AggId,
    begun: usize,
    look: &Look<'_>,
) -> AfterReply
    ensures { IfOk result (λ after. reached piece.now after ≡ spec.after_closing (readable look.now) piece.now agg begun) }
{
    let len = len_of(look, agg);
    if len as usize <= MAX_COLLECTED_BYTES {
        return collect_file(alloc, piece, held_bytes(piece, look), agg, len, begun);
    }
    if piece.is_nothing() {
        return Ok(at(Phase::Writing { agg }, begun));
    }
    let piece = piece.with_next(alloc, agg)?;
    Ok(with(Phase::Interpreting, begun, piece))
}

// After joining the bytes of a file to those of the earlier files.
fn after_joining(
    alloc: Global,
    piece: &Piece,
    from: u32,
    len: u32,
    begun: usize,
    last: &Reply,
) -> AfterReply
    ensures { IfOk result
        (λ after. reached piece.now after ≡ spec.after_joining piece.now from len begun last.now) }
{
    match last {
        Reply::Agg(held) => {
            let piece = piece.with_file(alloc, *held, from, len)?;
            Ok(with(Phase::Interpreting, begun, piece))
        }
        _ => Ok(None),
    }
}

fn place_at(place: Option<Place>) -> u32
    ensures { result ≡ spec.place_at place }
{
    match place {
        Some(place) => place.at,
        None => 0,
    }
}

// After cutting off the bytes of the last file: inserts them into this text.
fn after_parting(alloc: Global, piece: &Piece, agg: AggId, begun: usize, last: &Reply) -> AfterReply
    ensures { IfOk result
        (λ after. reached piece.now after ≡ spec.after_parting piece.now agg begun last.now) }
{
    match last {
        Reply::Aggs(held, part) => {
            let at = place_at(piece.last());
            let piece = piece.with_held(alloc, *held)?;
            let part = *part;
            Ok(with(Phase::ReplacingPart { agg, part, at }, begun, piece))
        }
        _ => Ok(None),
    }
}

// After inserting them.
fn after_replacing(
    alloc: Global,
    piece: &Piece,
    agg: AggId,
    part: AggId,
    begun: usize,
    last: &Reply,
) -> AfterReply
    ensures { IfOk result (λ after. reached piece.now after ≡ spec.after_replacing piece.now agg part begun last.now) }
{
    match last {
        Reply::Agg(made) => {
            let piece = piece.without_last(alloc)?;
            let made = *made;
            Ok(with(Phase::DroppingText { agg, part, made }, begun, piece))
        }
        _ => Ok(None),
    }
}

// After dropping the bytes that were cut off: inserts the bytes of the file before.
fn after_dropping_part(alloc: Global, piece: &Piece, made: AggId, begun: usize) -> AfterReply
    ensures { IfOk result
        (λ after. reached piece.now after ≡ Some (spec.interleave_on begun piece.now made)) }
{
    let piece = piece.copy(alloc)?;
    let step = interleave(alloc, piece, made, begun)?;
    Ok(with(step.phase, step.begun, step.piece))
}

// The phase after `taken` of an aggregate's bytes were taken.
fn taken_of(agg: AggId, taken: u32, to: u32) -> Phase
    ensures { result ≡ spec.taken_of agg taken to }
{
    if taken == to {
        Phase::DroppingWritten { agg }
    } else {
        Phase::CuttingRest {
            agg,
            from: taken,
            to,
        }
    }
}

// After writing an aggregate of `len` bytes, or a refusal because there is no reader.
fn after_writing(agg: AggId, len: u32, begun: usize, last: &Reply) -> Option<After>
    ensures { result ≡ written_after agg len begun last.now }
{
    match last {
        Reply::Count(taken) => at(taken_of(agg, *taken, len), begun),
        Reply::Refused(Refusal::BrokenPipe) => at(Phase::Aborting { agg }, begun),
        _ => None,
    }
}

// After cutting off the rest of an aggregate.
fn after_cutting(agg: AggId, begun: usize, last: &Reply) -> Option<After>
    ensures { result ≡ cut_after agg begun last.now }
{
    match last {
        Reply::Agg(rest) => at(Phase::DroppingTaken { agg, rest: *rest }, begun),
        _ => None,
    }
}

// After writing all of an aggregate: writes the file that is too long, or continues the script.
fn after_dropping(alloc: Global, piece: &Piece, begun: usize) -> AfterReply
    ensures after { IfOk result
        (λ after. reached piece.now after ≡ spec.after_dropping piece.now piece.now.next begun) }
    ensures wants { OnErr result (is_some piece.now.next ≡ true) }
{
    match piece.next {
        Some(agg) => {
            let piece = piece.without_next(alloc)?;
            Ok(with(Phase::Writing { agg }, begun, piece))
        }
        None => Ok(at(Phase::Interpreting, begun)),
    }
}

// After a write without reader: drops the rest, and ends the script.
fn after_breaking(alloc: Global, job: &Job, piece: &Piece, begun: usize) -> AfterReply
    ensures after { IfOk result
        (λ after. reached piece.now after ≡ spec.after_breaking job.now piece.now piece.now.next begun) }
    ensures wants { OnErr result (is_some piece.now.next ≡ true) }
{
    match piece.next {
        Some(agg) => {
            let piece = piece.without_next(alloc)?;
            Ok(with(Phase::Aborting { agg }, begun, piece))
        }
        None => Ok(at(Phase::Interpreting, job.script.lines.len())),
    }
}

/// The step after the reply; none if the call is retried.
pub(crate) fn after_reply(
    alloc: Global,
    job: &Job,
    piece: &Piece,
    begun: usize,
    phase: Phase,
    last: &Reply,
    look: &Look<'_>,
) -> AfterReply
    ensures after { IfOk result
        (λ after. reached piece.now after ≡ spec.after_phase (readable look.now) job.now piece.now begun phase last.now) }
    ensures wants { OnErr result (may_copy piece.now phase ≡ true) }
{
    let next = match phase {
        Phase::Waiting => return Ok(None),
        Phase::Interpreting => return after_begin(alloc, job, piece, begun, last),
        Phase::Reading { file, purpose } => return Ok(after_reading(
            file, purpose, begun, last, look,
        )),
        Phase::ClosingFile { agg, .. } => return after_closing(alloc, piece, agg, begun, look),
        Phase::ClosingCounted { said, .. } => return collect_said(alloc, piece, said, begun),
        Phase::JoiningFile { from, len, .. } => {
            return after_joining(alloc, piece, from, len, begun, last);
        }
        Phase::CuttingPart { agg, .. } => return after_parting(alloc, piece, agg, begun, last),
        Phase::ReplacingPart { agg, part, .. } => {
            return after_replacing(alloc, piece, agg, part, begun, last);
        }
        Phase::DroppingPart { made, .. } => return after_dropping_part(alloc, piece, made, begun),
        Phase::Writing { agg } => return Ok(after_writing(agg, len_of(look, agg), begun, last)),
        Phase::CuttingRest { agg, .. } => return Ok(after_cutting(agg, begun, last)),
        Phase::DroppingWritten { .. } => return after_dropping(alloc, piece, begun),
        Phase::Aborting { .. } => return after_breaking(alloc, job, piece, begun),
        Phase::DroppingOther { .. } => Phase::Waiting,
        Phase::DroppingCounted { file, said, .. } => Phase::ClosingCounted { file, said },
        Phase::DroppingText { part, made, .. } => Phase::DroppingPart { part, made },
        Phase::DroppingTaken { rest, .. } => Phase::Writing { agg: rest },
    };
    Ok(at(next, begun))
}
