//! Tests of the store over a folder. They are a crate of their own since a crate with tests is
//! proved twice.
#![tactic(auto)]

#[cfg(test)]
mod folder;
