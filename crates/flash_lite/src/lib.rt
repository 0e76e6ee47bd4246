//! Flash-Lite: a file server as a process that makes one call of the system per turn.
//!
//! `setup` creates a site's domains, pools, files and pipes in a new system, and returns the
//! processes for a `World`. The server accepts connections of the pool `net`, reads their streams,
//! and answers each request for a file by HTTP/1.1: a head that it makes, followed by the file's
//! own bytes, which it never copies. Its behavior in a turn is the account of `Server`; the law
//! `connections_do_not_meet` states that connections do not interfere.
//!
//!     let actors = setup(alloc, &mut system, &site)?;
//!     let mut world = World::new(alloc, system, actors)?;
//!     world.run(&choices)?;
#![tactic(auto)]

pub mod actor;
pub mod client;
pub mod conn;
pub mod host;
pub mod laws;
pub mod layout;
pub mod received;
mod run;
pub mod server;
pub mod setup;
pub mod site;
mod table;
