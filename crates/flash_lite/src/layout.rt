//! The numbers of a site's world: its domains, its pools, and the chunks of the pools of a site
//! whose files are all readable by all. [`WORK_POOL`] is the default pool of each domain, and
//! [`JOBS`] the descriptor of a worker's jobs.

pub use flash_cgi::{JOBS, WORK_POOL};

/// The domain of the server. The workers have the next numbers, and the guests those after them.
pub const SERVER: u32 = 1;

/// The domain of the first worker.
pub const FIRST_WORKER: u32 = SERVER + 1;

/// The pool of the files that all domains may read.
pub const SITE_POOL: u32 = 1;

/// The pool of the bytes that arrive on connections. Only the server may read it.
pub const NET_POOL: u32 = 2;

/// The pool of the private files. Only the first guest may read it.
pub const VAULT_POOL: u32 = 4;

/// The chunks of [`SITE_POOL`] in [`Site::of_shared`](crate::site::Site::of_shared).
pub const SITE_CHUNKS: u32 = 128;

/// The chunks of [`NET_POOL`] in [`Site::of_shared`](crate::site::Site::of_shared).
pub const NET_CHUNKS: u32 = 64;

/// The chunks of [`WORK_POOL`] in [`Site::of_shared`](crate::site::Site::of_shared).
pub const WORK_CHUNKS: u32 = 64;

/// The workers of [`Site::of_shared`](crate::site::Site::of_shared).
pub const WORKERS: u32 = 4;
