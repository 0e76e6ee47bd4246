//! Domains: their aggregates under rising numbers, and the objects that their descriptors are open
//! on.
//!
//! [`Table`](table::Table) holds domains, numbered from 1, and is generic in the type of an
//! aggregate. Its model is a list of rows (`specs/Tables`): a domain as in the copying machine, and
//! the number of aggregates that it can add without allocating. Room is reserved first
//! ([`reserve_aggs`](table::Table::reserve_aggs)), so that adding cannot fail.
//!
//! The contract. Each method changes the rows as its clause says (`added`, `given`, `swapped`,
//! `opened`, `moved`, `set`); a refused call changes none (`err`). The new number is the next, or
//! the lowest free one (`number`).
//!
//! ```text
//! table.reserve_aggs(domain, 1)?;
//! let number = table.add_agg(domain, agg);
//! let fd = table.add_fd(domain, Descriptor::Connection { conn })?;
//! ```
//!
//! Other crates use its lists too: [`Entries`](entries::Entries), values under rising numbers that
//! are never reused, and [`Places`](places::Places), values in the lowest free places.
//!
//! No call iterates over the domains, or over a domain's aggregates or descriptors: the table
//! counts all aggregates, finds an aggregate by binary search ([`Entries`](entries::Entries)), and
//! counts a domain's descriptors, with a hint below which no number is free
//! ([`Places`](places::Places)). The invariants state this, and no public clause mentions it.
#![tactic(auto)]

pub mod entries;
pub mod places;
mod row;
pub mod table;
