//! Rows: a script, the query of its request, and its whole output.
use super::worker_world::{WorkerWorld, worker_world};
use flash_cgi::jobs::job_text;
use iol_core::events::{Call, Reply};
use iol_core::lists::Bytes;
use iol_core::numbers::{DomainId, Fd};
use iol_core::refusals::Refusal;
use std::alloc::{AllocError, Global};
use test_worlds::files::Kept;

/// A script, the query, and the output.
pub type Row<'a> = (&'a str, &'a str, &'a [u8]);

/// The worker's descriptor for a job's output: its lowest free number.
pub const OUTPUT: u32 = 1;

/// The job of a script.
pub fn job_of(alloc: Global, fd: u32, query: &str, script: &str) -> Result<Bytes, AllocError> {
    job_text(alloc, Fd::new(fd), query.as_bytes(), script.as_bytes())
}

// Gives the write end of a new pipe to the worker. The read end is descriptor 0.
fn open_output(world: &mut WorkerWorld) -> bool {
    let opened = world.call(1, Call::Pipe);
    let (fd, to) = (Fd::new(2), DomainId::new(2));
    let given = world.call(1, Call::GiveFd { fd, to });
    matches!(opened, Reply::Fds(_, _)) && matches!(given, Reply::Fd(_))
}

/// Gives the worker a job with its output to a new pipe. Returns whether that is possible.
pub fn give(world: &mut WorkerWorld, job: Bytes) -> bool {
    if !open_output(world) {
        return false;
    }
    let Reply::Agg(agg) = world.call(1, Call::AggMake { bytes: job }) else {
        return false;
    };
    let written = world.call(
        1,
        Call::IolWrite {
            fd: Fd::new(1),
            agg,
        },
    );
    let dropped = world.call(1, Call::AggDrop { agg });
    matches!(written, Reply::Count(_)) && matches!(dropped, Reply::Done)
}

/// Closes a descriptor of the first domain.
pub fn close(world: &mut WorkerWorld, fd: u32) -> bool {
    matches!(world.call(1, Call::Close { fd: Fd::new(fd) }), Reply::Done)
}

/// Reads the whole output, with turns before each read, and compares it.
pub fn is_output(world: &mut WorkerWorld, wanted: &[u8]) -> bool {
    let mut left = wanted;
    for _ in 0..1000 {
        if !world.quiesce() {
            return false;
        }
        let read = Call::Read {
            fd: Fd::new(0),
            count: 65536,
        };
        let Reply::Bytes(bytes) = world.call(1, read) else {
            return false;
        };
        if bytes.as_slice().is_empty() {
            return left.is_empty() && close(world, 0);
        }
        match left.strip_prefix(bytes.as_slice()) {
            Some(rest) => left = rest,
            None => return false,
        }
    }
    false
}

// The number of rows that hold, up to the first that does not.
fn count_held(world: &mut WorkerWorld, jobs: Vec<Bytes>, rows: &[Row<'_>]) -> u32 {
    let mut held = 0u32;
    for (row, job) in rows.iter().zip(jobs) {
        if !give(world, job) || !is_output(world, row.2) {
            return held;
        }
        held = held.saturating_add(1);
    }
    held
}

fn jobs_of(alloc: Global, rows: &[Row<'_>]) -> Result<Vec<Bytes>, AllocError> {
    let mut jobs = Vec::new(alloc);
    for (script, query, _) in rows {
        jobs.push(job_of(alloc, OUTPUT, query, script)?)?;
    }
    Ok(jobs)
}

/// The number of rows that hold with these files, run in order by one worker, up to the first that
/// does not.
pub fn held(alloc: Global, files: &[Kept<'_>], rows: &[Row<'_>]) -> Result<usize, Refusal> {
    let jobs = jobs_of(alloc, rows)?;
    let mut world = worker_world(alloc, files)?;
    let count = count_held(&mut world, jobs, rows);
    drop(world);
    Ok(count as usize)
}
