//! Connections: the bytes received and not yet read, the bytes to be sent, and the state of the
//! peer.
//!
//! Both are queues of slices ([`iol_pipe`]). Received bytes are placed in pages once, and are read
//! and sent without a copy. A segment carries the checksum of its payload, combined from the
//! remembered sums of its slices ([`iol_sum`]).
//!
//! The contract. One record per call (`specs/Calls`) relates the connection before and after: when
//! the call is refused, which changes nothing, and how its queues and the store change. Input:
//! `Arrives` (new bytes of the connection's pool, on its lowest free pages), `ArrivesFrom` (the
//! bytes of one read, in place), `GivesFront` (the longest prefix whose pools name the reader).
//! Output: `QueuesShared`, `QueuesNew`, `Segments` (bytes with the checksum of these bytes only,
//! for every division into slices, and the remembered sums), `Drains` (the bytes that a writer
//! took, or a taker of several slices at once, [`Gather`]). End: `ClosesPeer`, `Closes`, and
//! `release`. [`Connections`] holds the live connections under rising numbers (`numbers_rise`):
//! `add`, `get`, `accept` and `forget` change that list, and `first_waiting` is the first that a
//! domain may accept. Each call above also takes a number; it has the same effect on that
//! connection, and none on any other (`ChangesAs`). [`laws`] states that these definitions agree
//! with the copying machine.
//!
//! ```text
//! let taken = conn.arrive(alloc, &mut store, b"GET /")?;
//! let request = conn.front(alloc, &mut store, taken, reader)?;
//! conn.queue(&mut store, &answer)?;
//! let segment = conn.segment(alloc, &mut store, &mut sums, 1460)?;
//! ```
#![tactic(auto)]

mod arrive_from;
mod busy;
mod connections;
mod copy;
mod drain_to;
mod gather;
mod incoming;
pub mod laws;
mod outgoing;
mod passing_in;
mod passing_out;
mod table;

pub use connections::Connection;
pub use drain_to::Drained;
pub use gather::Gather;
pub use iol_pipe::Arrived;
pub use outgoing::Segment;
pub use table::Connections;
