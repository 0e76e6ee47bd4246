//! Systems and worlds of the tests and the measured programs, as types without contracts.
//!
//! A function that has the clauses of a system's call in scope, and continues with them, is slow
//! to prove. So each call is here in a function of its own, and its callers see only its reply.
//!
//! A function that drops a system or a world implicitly is slow to prove, too, half a minute each.
//! So each ends in std's `drop`, which is proved already, for all types.
#![tactic(auto)]

pub mod echo;
pub mod files;
pub mod systems;
pub mod worlds;
