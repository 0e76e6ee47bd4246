//! Processes that take turns: programs that use a system by one call at a time.
//!
//! A [`Process`](process::Process) determines its next call from its last reply and the bytes that
//! it can see. A [`World`](world::World) is a system, with a process in each of some domains. A
//! list of [`Choice`](choice::Choice)s determines who takes a turn when. For every list, if the
//! store is honest, replies and state are those of processes with the same accounts over the
//! copying machine, each of which sees that machine's bytes (`World::run`, clause `run`;
//! `specs/World`). An account also states when its process may run out of memory; only then may a
//! turn pass without a yield or a call.
//!
//!     let mut world = World::new(alloc, system, processes)?;
//!     let replies = world.run(&choices)?;
//!     let idle = world.until_idle(65536);
#![tactic(auto)]

pub mod activity;
pub mod choice;
pub mod idle;
mod in_place;
pub mod laws;
pub mod look;
pub mod process;
pub mod process_slot;
mod replies;
mod rounds;
mod turn;
pub mod world;
