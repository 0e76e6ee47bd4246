//! The kernel: the state of a system, and its calls, one method for each.
//!
//! A call tests its refusals in order and then has one effect: `kernel.agg_cut(by, agg, from, to)?`
//! is the number of a new aggregate of the caller. docs/RULES.md lists the refusals of a method, in
//! order, under the call's name (`file_length` is `length`, `read_bytes` is `read`, `show_into` is
//! `show`, `write_bytes` is `write`). Positions and ranges are in bytes from 0; a range includes
//! `from` and excludes `to`. The copying machine defines the meaning of a call (`iol_core`,
//! `specs/Calls`):
//!
//! - `CarriesOut`: the machine's step for each reading. A reading of bytes gives the meaning of the
//!   call; a reading of places says that nothing was copied. No page and no pool changes.
//! - `KeepsPlaces`: the same for a call that frees pages or takes chunks, or adds to a pool's list. No
//!   page's generation is incremented.
//! - `Names`, `LooksUp` (`specs/Calls`, `specs/FileCalls`): the step of a call that asks the store under
//!   the files for a length, if the store is honest. Over any store it is the step for some content of
//!   files, and their ends are those that the store reports (`specs/FileLengths`).
//! - `Places` (`specs/Room`): the step of a call that places new bytes, such as `agg_make` and `arrive`.
//!   Clean extents of files are evicted for them, and then they are placed on the lowest free pages of
//!   the pool. A full pool is found before memory is requested.
//! - `specs/QueueSlices`: into how many slices a read or a write of a queue divides its bytes.
//!
//! A refused call leaves the machine state that the system represents unchanged; if it needs pages and
//! has room for them, clean extents may have been evicted. The invariant between any two calls is
//! `IsSound`.
//!
//! ```text
//! let mut kernel = Kernel::new(alloc, config)?;
//! kernel.set_pool(domain, pool)?;
//! let agg = kernel.agg_make(domain, b"hello")?;
//! let part = kernel.agg_cut(domain, agg, 0, 5)?; // the first five bytes, not copied
//! ```
#![tactic(auto)]

mod calls;
mod copies;
mod file_table;
mod files;
pub mod kernel;
pub mod open_file;
mod pipes;
mod queue_end;
pub mod report;
mod room;
mod tables;
