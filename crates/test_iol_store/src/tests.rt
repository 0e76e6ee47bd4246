//! Tests of pages, aggregates, pipes, descriptors, sums, connections, extents, stores of files,
//! caches, kernels and copying calls.
mod aggregates;
mod arenas;
mod backing;
mod by_number;
mod caches;
mod connections;
mod copying_calls;
mod extents;
mod holds;
mod kernel_calls;
mod kernels;
mod order;
mod pipes;
mod pools;
mod refusals;
mod sharing;
mod slice_sums;
mod stores;
mod sums;
mod tables;
