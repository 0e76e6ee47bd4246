//! An event loop that serves many clients at once from the processes of a world, in one thread.
//!
//! [`Reactor`](reactor::Reactor) listens on an address and polls its sockets, edge-triggered. Each
//! round it hands complete requests to the world, gives the processes their turns and sends their
//! output. A [`Service`](service::Service) defines the requests. [`Engine`](engine::Engine)
//! is the same without the poll, over any [`Socket`](socket::Socket).
//!
//! A client has a connection of the world only while it has a request in progress and for a few
//! milliseconds after it. So idle clients cost nothing, and many clients share the connections that
//! the processes can hold. A client's bytes enter the world one complete request at a time; the
//! rest waits with the client.
//!
//! ```text
//! let mut reactor = Reactor::new(&rt, alloc, address, world, Limits::DEFAULT)?;
//! reactor.serve(&rt, &mut service)?;
//! ```
#![tactic(auto)]

pub mod accept;
pub mod client;
pub mod deadlines;
pub mod engine;
pub mod exchange;
pub mod expiry;
pub mod history;
pub mod host;
pub mod input;
pub mod limits;
pub mod links;
pub mod marks;
pub mod outbox;
pub mod output;
pub mod places;
pub mod reactor;
pub mod requests;
pub mod room;
pub mod round;
pub mod sending;
pub mod service;
pub mod socket;
pub mod steps;
pub mod timers;
pub mod turns;
pub mod worlds;
