//! The file server Flash-Lite: its specification, and the law that connections do not interfere.
//!
//! The only code is the phases of a connection ([`phase`]), and the steps of a script's run
//! ([`script_run`]). A turn of the server is a relation (`specs/Serves`, `server_turns`): it
//! processes the last reply, picks a client, and makes its next call. `specs/Serves/Wants` states
//! when it may need memory. A client is a connection, together with the run of a script while that
//! has the connection (`specs/Client`). [`run_laws`] has the laws of single calls for a client;
//! [`laws`] those of rounds and of the assignment of workers; [`worker_laws`] those of workers and
//! files. The main law ([`world_law`]) is about every process with such turns, together with any
//! number of workers that run scripts ([`world_law::RunsScripts`]), possibly none. The bytes sent
//! on each connection begin an answer to its own input, for every order of turns, and whichever
//! calls of the server are refused ([`answer_laws`]). The crate is below the server's code, which
//! has a contract for each phase in these terms; so a change of that code does not require the law
//! to be proved again.
//!
//! A law is the contract of a function without effect. A proof in a crate above uses the law by a
//! call of that function:
//!
//! ```text
//! world_law::world_law::<Worker>(); // the answers cite c.world_law.ensures.run
//! ```
#![tactic(auto)]

pub mod answer_laws;
pub mod laws;
pub mod phase;
pub mod run_laws;
pub mod script_run;
pub mod worker_laws;
pub mod world_law;
