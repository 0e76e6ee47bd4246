//! Tests of the server of a folder. They are a crate of their own since a crate with tests is
//! proved twice.
#![tactic(auto)]

#[cfg(test)]
mod folder;
