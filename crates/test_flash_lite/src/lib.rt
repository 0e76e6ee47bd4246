//! Rows of the file server, run: requests and whole responses, over a site in memory.
//!
//! Inputs are made before the world, and the world is a type without contracts, so that the tests
//! are quick to prove.
#![tactic(auto)]

#[cfg(test)]
mod tests;
