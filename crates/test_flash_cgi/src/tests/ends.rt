//! Scripts whose output has no reader, texts that are no jobs, and the end of the job pipe.
use super::rows::{OUTPUT, close, give, is_output, job_of};
use super::worker_world::{WorkerWorld, in_worker_world};
use iol_core::events::{Call, Reply};
use iol_core::lists::Bytes;
use iol_core::refusals::Refusal;
use std::alloc::Global;
use std::test::Fail;
use test_parts::checks::pass;

// Returns whether this descriptor of the worker, and the next, are free.
fn has_free(world: &mut WorkerWorld, fd: u32) -> bool {
    match world.call(2, Call::Pipe) {
        Reply::Fds(read, write) => read.number() == fd && write.number() == fd.saturating_add(1),
        _ => false,
    }
}

// The pipe is closed before the script begins: the script ends at its first write, and the next
// job is run.
fn proceeds(world: &mut WorkerWorld, unread: Bytes, next: Bytes) -> bool {
    give(world, unread)
        && close(world, 0)
        && world.quiesce()
        && give(world, next)
        && is_output(world, b"x\n")
        && has_free(world, OUTPUT)
}

fn ends_unread(alloc: Global) -> Result<bool, Refusal> {
    let unread = job_of(alloc, OUTPUT, "", "emit a\nquery\nemit b")?;
    let next = job_of(alloc, OUTPUT, "x", "query")?;
    in_worker_world(alloc, |world| {
        proceeds(world, unread, next) && !world.is_resource_failure()
    })
}

#[test]
fn broken_pipe_ends_the_script(rt: HostRuntime) -> Result<(), Fail> {
    pass(ends_unread(rt.alloc()))
}

// A text that is no job is dropped, and the descriptor for its output stays with the worker.
fn passes_over(world: &mut WorkerWorld, none: Bytes, next: Bytes) -> bool {
    give(world, none)
        && world.quiesce()
        && close(world, 0)
        && give(world, next)
        && is_output(world, b"x\n")
}

fn drops_no_job(alloc: Global, script: &str) -> Result<bool, Refusal> {
    let none = job_of(alloc, OUTPUT, "", script)?;
    let next = job_of(alloc, OUTPUT + 1, "x", "query")?;
    in_worker_world(alloc, |world| passes_over(world, none, next))
}

#[test]
fn what_is_no_job_is_dropped(rt: HostRuntime) -> Result<(), Fail> {
    pass(drops_no_job(rt.alloc(), "jump"))
}

#[test]
fn what_begins_as_a_job_is_dropped(rt: HostRuntime) -> Result<(), Fail> {
    pass(drops_no_job(rt.alloc(), "emit a\ncat "))
}

// The job pipe ends after a job: the job is run, and then the worker makes no more calls.
fn stops(world: &mut WorkerWorld, job: Bytes) -> bool {
    give(world, job)
        && close(world, 1)
        && is_output(world, b"x\n")
        && world.quiesce()
        && has_free(world, OUTPUT)
}

fn stops_at_the_end(alloc: Global) -> Result<bool, Refusal> {
    let job = job_of(alloc, OUTPUT, "x", "query")?;
    in_worker_world(
        alloc,
        |world| stops(world, job) && !world.is_resource_failure(),
    )
}

#[test]
fn job_pipe_ends(rt: HostRuntime) -> Result<(), Fail> {
    pass(stops_at_the_end(rt.alloc()))
}
