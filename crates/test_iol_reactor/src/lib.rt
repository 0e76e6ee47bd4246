//! Tests of the event loop over sockets in memory. They are a crate of their own since a crate
//! with tests is proved twice.
#![tactic(auto)]

#[cfg(test)]
mod exchanging;
#[cfg(test)]
mod memory_socket;
#[cfg(test)]
mod reading;
#[cfg(test)]
mod sending;
#[cfg(test)]
mod turns;
