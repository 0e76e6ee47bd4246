//! The copying calls of POSIX, over the kernel: for programs that keep bytes in their own memory.
//!
//! Each call has its meaning for the copying machine (`iol_core`, `specs/Calls`). No aggregate is made of
//! the bytes read or written. The store under the files is asked for the bytes of a file that are not in
//! memory.
//!
//! The contract. [`read`] has one record, `ReadsInto` (`serves`: with an honest store the machine's step,
//! its bytes at the front of the caller's memory; `copies`: when there is room, when Fault is returned,
//! and the changes of pages and of the extents of files in memory; `not_memory`: only a read of a file
//! may lack memory; `count`: at most as many bytes as there is room for, and fewer than 2^32; `rest`: the
//! other bytes are unchanged; `err`: after a refusal all are). [`read_bytes`] has `ReadsList` (`serves`,
//! `copies`: the same, as a separate list), and [`write`] has `WritesBytes` (`serves`; `queue`: the bytes
//! that a queue takes are on the lowest free pages of the caller's default pool, after clean extents were
//! evicted; `slices`: at most one slice per page; `lays`, `puts`: the changes of a file; `room`,
//! `no_room`, `memory`; `refused`: any refusal except NoRoom and Memory changed nothing). The definitions
//! are in `specs/Reads` and in iol_kernel's specs.
//!
//! ```text
//! let taken = write(&mut kernel, by, to, b"hello")?;
//! let count = read(&mut kernel, &mut backing, by, from, &mut memory)?;
//! ```
#![tactic(auto)]

mod copy_in;
mod copy_out;

pub use copy_in::write;
pub use copy_out::{read, read_bytes};
