//! Which part of a file is evicted first, by GreedyDual-Size (Cao and Irani 1997).
//!
//! An [`Order`](order::Order) holds entries for parts of files. Each has a height: L plus its cost divided by its size,
//! where L is the height of the last evicted entry. The entry with the least height that is not in use is evicted next. A
//! contract sees L, the entries in the order of file and place, the room for more, and the number of places kept in
//! addition to it for later entries (`specs/Order`, `specs/Victims`). An [`InUse`](users::InUse) decides which parts are in
//! use: `least` asks it about the entries from the least on, up to the first that is not in use. It is not proved that
//! `least` asks about no other entries. Consecutive searches share a rank below which all entries are in use, and begin
//! there.
//!
//! The contract. `enter`, `hit`, `leave` and `evict` do what the definitions of the order say (`entered`, `hit_at`,
//! `left_at`, `evicted_at`); `least` returns the least entry that is not in use, or the least entry if all are in use
//! (`first`, `below`); `low` is L, `height` an entry's height. Room is reserved first (`reserve`, clauses `room`, `same`,
//! `keeps`), and a place can be kept for a later entry (`keep`, `give_back`), so that `enter` cannot fail.
//!
//!     order.reserve(1)?;
//!     order.enter(file, 8192, 4096, 1);
//!     let mut passed = Rank::least();
//!     let victim = order.least(&users, &mut passed);
#![tactic(auto)]

mod entries;
pub mod entry;
mod index;
mod lower;
pub mod order;
mod rank;
pub mod users;
mod victim;
