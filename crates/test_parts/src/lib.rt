//! Helpers that the test crates and the measured programs share. They depend only on std.
#![tactic(auto)]

pub mod checks;
pub mod streams;
pub mod texts;
pub mod words;
