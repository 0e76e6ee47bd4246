//! Files over a backing store, with a unified cache of their bytes.
//!
//! A file has extents: runs of its bytes in buffers of one pool. A clean extent has the same bytes as the store, a dirty one
//! has to be written to the store. Clean extents may be evicted at any time; evictions do not change what a file reads as.
//!
//! `Cache` keeps for each pool the order in which clean extents of the pool's files are evicted (`iol_evict`), and counts for
//! each page how often clean extents hold the buffer there. So it can decide whether anything else holds a buffer.
//! `IsSound` is the invariant between any two calls.
//!
//! The calls, in addition to `new` and `add_file`:
//!
//! - `read` shares the bytes of a range that are in memory, makes room for its gaps, and reads the gaps into clean extents.
//!   With an honest store it returns the file's bytes (`text`), and every file has the same bytes after it (`goes`, `gone`).
//!   With any store, bytes of hits stay in their places, and bytes of gaps are in the new extents (`reads`), which also states
//!   into which slices the bytes are divided (`parts`). NoRoom comes only if the pages held by anything except clean extents,
//!   hits included, and those for the gaps are more than the pool has (`room`), Fault only if the store failed (`fault`). A
//!   refused read leaves no new extent (`refused`).
//! - `make_room` evicts clean extents, in the order of eviction, until a number of pages of the pool are free. It fails only if
//!   the pages held by anything except clean extents, and those requested, are more than the pool has (`room`). `EvictsAll`
//!   states which extents were evicted, and `GivesUp` that with an honest store every file has the same bytes.
//! - `drop_clean` evicts all clean extents, pool by pool.
//! - `write` writes bytes over those of a file, as one dirty extent: bytes of the file's pool are shared, all others copied
//!   there. The file then has the bytes that the machine gives it (`written`), and every other file its own (`others`).
//! - `file_length` returns the length of a file, `report` the number of extents and of dirty extents.
//! - `sync` writes the dirty extents of a file back, `flush_one` the dirty extent with the least file and offset. They need no
//!   memory, change no file's bytes (`files`), and return an error only if the store fails.
//! - `laws`: whether a read has room has one answer, over any store and in whichever slices its hits are held.
//!
//! ```text
//! let file = cache.add_file(alloc, pool)?;
//! let agg = cache.read(alloc, &mut store, &mut backing, file, 0, 4096)?; // the first page of the file, or less
//! ```
#![tactic(auto)]

mod cache;
mod evict;
mod files;
pub mod laws;
mod marks;
mod rank;
mod read;
mod reserve;
mod share;
mod sync;
mod users;
mod write;

pub use cache::{Cache, CacheReport};
pub use sync::Flushed;
