//! Tests of served connections. They are a crate of their own since a crate with tests is proved
//! twice.
#![tactic(auto)]

#[cfg(test)]
mod echo_world;
#[cfg(test)]
mod service;
