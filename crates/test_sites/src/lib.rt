//! Sites in memory of the tests and the measured programs, and the worlds that serve them.
#![tactic(auto)]

pub mod sites;
