//! The files of a folder, served by the file server.
//!
//! [`serve`](serve::serve) and [`loop_on`](loopback::loop_on) are programs, except for their words:
//! each returns its exit status, and reports on standard error the fault that ended it early
//! ([`Fault`](fault::Fault)). `serve` serves many clients at once, on the event loop of
//! `iol_reactor`. [`Server`](serve::Server) is the same in three steps: it reads and listens, gives
//! its port, serves.
//!
//!     let status = serve(&rt, 8080, "site", 100, &mut rt.stdout(), &mut rt.stderr());
#![tactic(auto)]

pub mod fault;
pub mod folder;
pub mod loopback;
pub mod serve;
pub mod service;
