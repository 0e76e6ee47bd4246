//! The calls that a worker makes.
ghost use Rattle.std.specs.Prelude.{◌≡◌, true, IfOk, OnErr};
ghost use Rattle.flash_cgi.specs.Wants.{phase_has_bytes, line_has_bytes, begins_with_bytes};
ghost use Rattle.flash_cgi.specs.WorkerSteps as spec;

use crate::jobs::Job;
use crate::line::Line;
use crate::phase::Phase;
use crate::piece::Piece;
use iol_core::descriptors::Mode;
use iol_core::events::Call;
use iol_core::lists::Bytes;
use iol_core::numbers::{Fd, PoolId};
use std::alloc::{AllocError, Global};

/// The descriptor of a worker's job pipe.
pub const JOBS: u32 = 0;

/// The maximum number of bytes of a job: the capacity of a pipe.
pub const MAX_JOB_BYTES: u32 = 65_536;

/// The maximum number of bytes of a file.
pub const MAX_FILE_BYTES: u32 = 0x100_0000;

/// The pool in which a worker places bytes. A pause sets it again, which changes nothing.
pub const WORK_POOL: u32 = 3;

/// Returns whether the buffered output is written before the next line.
pub(crate) fn is_expected(job: &Job, piece: &Piece, begun: usize) -> bool
    ensures { result ≡ spec.expected_now job.now piece.now begun }
{
    match job.script.lines.get(begun) {
        Some(_) => piece.is_full() || piece.next.is_some(),
        None => !piece.is_nothing(),
    }
}

fn open_call(alloc: Global, name: &[u8]) -> Result<Call, AllocError>
    ensures { IfOk result (λ call. call ≡ spec.open_call name.now) }
{
    let name = Bytes::from_vec(Vec::from_slice(alloc, name)?);
    Ok(Call::OpenFile {
        name,
        mode: Mode::Read,
    })
}

// The call that begins a line. A text needs none: it is buffered.
fn line_call(alloc: Global, line: &Line) -> Result<Call, AllocError>
    ensures call { IfOk result (λ call. call ≡ spec.line_call line.now) }
    ensures wants { OnErr result (line_has_bytes line.now ≡ true) }
{
    match line {
        Line::Cat { name } => open_call(alloc, name.as_slice()),
        Line::Wc { name } => open_call(alloc, name.as_slice()),
        Line::Emit { .. } | Line::Query | Line::Pause => Ok(Call::SetPool {
            pool: PoolId::new(WORK_POOL),
        }),
    }
}

fn make_call(alloc: Global, text: &[u8]) -> Result<Call, AllocError>
    ensures { IfOk result (λ call. call ≡ spec.make_call text.now) }
{
    let bytes = Bytes::from_vec(Vec::from_slice(alloc, text)?);
    Ok(Call::AggMake { bytes })
}

// The call that makes an aggregate of the buffered text, if it is expected. Otherwise the call that
// begins the next line, or closes the output after the last line.
fn begin_call(alloc: Global, job: &Job, piece: &Piece, begun: usize) -> Result<Call, AllocError>
    ensures call { IfOk result (λ call. call ≡ spec.begin_call job.now piece.now begun) }
    ensures wants { OnErr result (begins_with_bytes job.now piece.now begun ≡ true) }
{
    if is_expected(job, piece, begun) {
        return make_call(alloc, piece.text.as_slice());
    }
    match job.script.lines.get(begun) {
        Some(line) => line_call(alloc, line),
        None => Ok(Call::Close { fd: job.fd }),
    }
}

/// The call of a phase, given the buffered output.
pub(crate) fn call_of(
    alloc: Global,
    job: &Job,
    piece: &Piece,
    begun: usize,
    phase: &Phase,
) -> Result<Call, AllocError>
    ensures call { IfOk result (λ call. call ≡ spec.phase_call job.now piece.now begun phase.now) }
    ensures wants { OnErr result (phase_has_bytes job.now piece.now begun phase.now ≡ true) }
{
    let phase = *phase;
    match phase {
        Phase::Waiting => Ok(Call::IolRead {
            fd: Fd::new(JOBS),
            count: MAX_JOB_BYTES,
        }),
        Phase::Interpreting => begin_call(alloc, job, piece, begun),
        Phase::Reading { file, .. } => Ok(Call::IolRead {
            fd: file,
            count: MAX_FILE_BYTES,
        }),
        Phase::ClosingFile { file, .. } => Ok(Call::Close { fd: file }),
        Phase::ClosingCounted { file, .. } => Ok(Call::Close { fd: file }),
        Phase::JoiningFile { held, agg, .. } => Ok(Call::AggJoin {
            first: held,
            second: agg,
        }),
        Phase::CuttingPart { held, from, .. } => Ok(Call::AggSplit {
            agg: held,
            at: from,
        }),
        Phase::ReplacingPart { agg, part, at } => Ok(Call::AggReplace {
            agg,
            from: at,
            to: at,
            with: part,
        }),
        Phase::DroppingText { agg, .. } => Ok(Call::AggDrop { agg }),
        Phase::DroppingPart { part, .. } => Ok(Call::AggDrop { agg: part }),
        Phase::Writing { agg } => Ok(Call::IolWrite { fd: job.fd, agg }),
        Phase::CuttingRest { agg, from, to } => Ok(Call::AggCut { agg, from, to }),
        Phase::DroppingOther { agg } => Ok(Call::AggDrop { agg }),
        Phase::DroppingCounted { agg, .. } => Ok(Call::AggDrop { agg }),
        Phase::DroppingTaken { agg, .. } => Ok(Call::AggDrop { agg }),
        Phase::DroppingWritten { agg } => Ok(Call::AggDrop { agg }),
        Phase::Aborting { agg } => Ok(Call::AggDrop { agg }),
    }
}
