//! The calls of domains and the external events, by subject: each is one method of the kernel.
mod aggregates;
mod descriptors;
mod domains;
mod files;
mod in_place;
pub(crate) mod iol_read;
pub(crate) mod iol_write;
mod outside;
mod pools;
mod positions;
mod read;
mod sync;
mod write;
