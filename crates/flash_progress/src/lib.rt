//! Progress of the server Flash-Lite for sites of files: if no call is refused for lack of table
//! entries, pages or memory, turns in rounds end with all idle, and then each request that arrived
//! has its response.
//!
//! The crate has no executable code. The law ([`laws`]) is the contract of a function without
//! effect. It is about the same turns as the law that connections do not interfere
//! (`flash_laws::world_law`), in a world with the invariant of that law, so it holds whichever
//! calls were refused before. `specs/Bound` computes from the state the number of turns that
//! suffices.
#![tactic(auto)]

pub mod laws;
