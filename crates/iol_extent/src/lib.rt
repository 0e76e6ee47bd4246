//! The extents of a file: which of its bytes are in memory.
//!
//! [`Extents`](extents::Extents) are aggregates by offset, no two over the same byte; a contract sees them as a list in
//! the order of offsets (`specs/Extents`). The other bytes are gaps, which are only in the store. An extent is clean if the
//! store has the same bytes, else dirty.
//!
//! The contract. `over` returns the extent over a byte, `find` the hits and gaps that tile a range, `first_met` and
//! `first_dirty` the beginning of an extent; `count`, `count_dirty` and `end` return numbers. `put` and `remove` change the
//! list at one place (`extents`, `room`, `apart`, `ends`). Room is reserved first (`reserve`), so that `put` cannot fail.
//!
//!     let found = extents.find(alloc, 0, 4096)?;      // hits and gaps
//!     extents.reserve(1)?;
//!     extents.put(0, agg, false);                     // into a gap
//!     let agg = extents.remove(0);
#![tactic(auto)]

pub mod extents;
pub mod laws;
mod piece;
mod pieces;
pub mod spans;
