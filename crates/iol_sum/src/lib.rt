//! The Internet checksum (RFC 1071): of bytes, of concatenated pieces, and of slices, whose sums
//! are cached.
//!
//! A sum is the folded sum: big-endian words of 16 bits, added in ones' complement. [`sum_of`] adds
//! bytes, [`combine`] combines the sums of two pieces, and [`checksum`] inverts a sum. A
//! [`SumCache`] remembers the sums of the most recently used slices, so that bytes which are sent
//! again need not be read again (OSDI 1999, cross-subsystem optimization).
//!
//! The contract: the sum returned is that of the slice's bytes, for every content of the cache and
//! every division into slices. It requires `IsRight`. A new cache meets it; `sum`, `sum_all` and
//! every call of the store preserve it ([`laws`]): a page that is reused has another generation, and
//! an old key never matches it.
//!
//! ```text
//! let sum = sums.sum_all(&store, agg.slices());
//! let sent = checksum(sum);
//! ```
#![tactic(auto)]

mod bytes;
mod cache;
mod keys;
pub mod laws;
mod pieces;

pub use bytes::sum_of;
pub use cache::SumCache;
pub use keys::Key;
pub use pieces::{checksum, combine};
