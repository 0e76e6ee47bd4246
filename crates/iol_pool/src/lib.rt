//! Pools: which domains may read bytes, and which chunks store them.
//!
//! A pool has a list of one to sixteen domains, which may read its bytes, and chunks of the arena
//! that no other pool has. The list only grows. Nothing more is placed in a closed pool, and its
//! chunks are returned to the arena as soon as all their pages are empty.
//!
//! The contract. Lists: `Names::of` (each domain once; more than sixteen are refused), `has`,
//! `has_place`, `add` (the domain at the end, unless it is listed). Pools: `create` (`number`;
//! `added`: the requested number of chunks, the lowest free ones; `enough`, `no_room`, `err`),
//! `admit` (the list names one domain more, and nothing else changes), `close` and `reclaim`
//! (`pools`, `arena`: chunks are returned exactly when their pool is closed and all their pages are
//! empty), and on `create`, `close` and `reclaim` `owned`: each taken chunk has exactly one pool.
//! Questions: `is_pool`, `is_closed`, `names`, `has_place`, `admits` (`first`: the first pool that
//! does not name the domain), `chunks`, `free_count`, `has_free`, `report`. The definitions are in
//! `specs/Names`, `specs/Pools`, `specs/Owners` and `specs/Calls`.
//!
//! ```
//! let names = Names::of(&[producer, consumer])?;
//! let pool = pools.create(alloc, &mut arena, 4, names)?;
//! assert!(pools.names(pool, consumer));
//! ```
#![tactic(auto)]

pub mod names;
pub mod pools;
pub mod report;
