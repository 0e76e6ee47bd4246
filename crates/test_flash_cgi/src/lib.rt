//! Tests of scripts and their worker: the whole output of each kind of line, with files in memory.
//!
//! Inputs are made before the world, and the world is a type without contracts, so that the tests
//! are quick to prove.
#![tactic(auto)]

#[cfg(test)]
mod tests;
