//! The plain data of the system, and the definitions that every contract cites.
//!
//! The code defines numbers, refusals, calls, events, replies and limits. The specification is in
//! `specs/`: the copying machine, which has no pages, reference counts, sharing or caches. Read
//! `Text`, `State` and `Meaning` first, then `Run` and one file of `Calls` for each kind of call.
#![tactic(auto)]

pub mod configuration;
pub mod descriptors;
pub mod events;
pub mod limits;
pub mod lists;
pub mod numbers;
pub mod refusals;
