//! Tests of the libraries below the calls. They are a crate of their own since a crate with tests
//! is proved twice.
//!
//! Each call that needs memory succeeds if there is enough: a test named `ample` shows this for
//! each library, up to the kernel and the copying calls.
#![tactic(auto)]

#[cfg(test)]
mod tests;
