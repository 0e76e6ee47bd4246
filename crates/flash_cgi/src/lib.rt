//! Scripts, and the workers that run them.
//!
//! A [`Script`](script::Script) consists of lines. Each outputs a text, the query of a request, or
//! the contents of a file. A [`Worker`](worker::Worker) is a process in a domain of its own that
//! runs scripts. It reads each [`Job`](jobs::Job) from descriptor 0: a script, the query, and the
//! number of its descriptor for the output. It writes the output of the lines to that pipe by
//! reference, closes it, and waits for the next job. It combines texts and the bytes of small
//! files ([`piece`]) into one write.
//!
//! The output of a script is defined in `specs/Output`, and each turn of a worker in
//! `specs/Works`. The main law ([`laws`]) states that exactly this output goes through the pipe,
//! whatever others do meanwhile: the queued bytes, followed by the bytes that the worker has still
//! to write, are the output.
//!
//!     let script = Script::read(alloc, b"emit hello\ncat index.html\n")?;
//!     let job = job_text(alloc, fd, query, text)?;
//!     let worker = Worker::new(alloc);
#![tactic(auto)]

mod calls;
pub mod counts;
mod feeds;
pub mod jobs;
pub mod laws;
pub mod line;
pub mod phase;
pub mod piece;
mod replies;
pub mod script;
pub mod worker;

pub use calls::{JOBS, WORK_POOL};
