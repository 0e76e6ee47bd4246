//! The system behind a handle, as a program in C sees it: events, replies and counts as structs
//! of numbers.
//!
//! The static library `iol_c` exports the functions of [`calls`]; `bindings/c/iolite.h` declares
//! them, and `docs/BINDINGS.md` lists the obligations of a caller in C. The contract of
//! `calls::step`: the arguments denote an event, the system takes a step by it that keeps all of
//! `Promises`, and C gets its reply. Or nothing was done, for one of the listed reasons.
//!
//!     let mut reply = IolReply { refusal: 0, about: 0, number: 0, second: 0 };
//!     calls::step(alloc, &mut handle, &event, b"hello", &[], &mut [], &mut reply);
#![tactic(auto)]

mod address;
pub mod borrowed;
pub mod calls;
pub mod events;
pub mod handle;
pub mod laws;
mod raw_box;
pub mod replies;
pub mod report;
pub mod store;
pub mod streams;

use iol_system::system::System;
use store::HostStore;

/// The system that a handle owns.
#[derive(Drop)]
pub struct Machine {
    system: System<HostStore>,
}
