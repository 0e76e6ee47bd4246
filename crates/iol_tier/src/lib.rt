//! A list of keys into which a key can be inserted at any place, without allocating once room is reserved.
//!
//! A [`TieredVec`](tiers::TieredVec) is a tiered vector (Goodrich and Kloss, "Tiered Vectors", 1999): its keys are in blocks of
//! 128, each a ring, and all blocks are full except the first and the last that hold any keys. So a division finds the block of
//! a key. Inserting or removing a key moves keys of its block, and one key crosses each border on the shorter side: of n keys
//! about n / 512 cross at a random place, and none near either end. A contract sees a list and the room (`specs/Tiers`).
//!
//! The contract. `insert` and `remove` do the same as std's `insert` and `remove` on the list (`Inserts`, `Removes`), `at`
//! returns one key, `len` the number of keys. Room is reserved first (`reserve`: `Reserves`), so that inserting cannot fail;
//! removing gives one place of room back.
//!
//!     keys.reserve(1)?;
//!     keys.insert(0, 7);
//!     let key = keys.at(0);       // 7
//!     let key = keys.remove(0);
#![tactic(auto)]

mod block;
mod borders;
mod ends;
mod places;
pub mod tiers;
