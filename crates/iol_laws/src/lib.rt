//! Laws of the copying machine, for proofs about programs that run on it: the parts of the state
//! that each event leaves unchanged, the invariants between events, the effect of a call for its
//! caller and of other events on a connection, and the bytes received and sent over a run.
//!
//! The crate has no executable code. A law is the contract of a function without effect
//! ([`laws`]). A proof in a crate above uses the law by a call of that function:
//!
//! ```text
//! laws::each_step_leaves_the_rest(); // answers cite c.each_step_leaves_the_rest.ensures.leaves
//! ```
#![tactic(auto)]

pub mod laws;
