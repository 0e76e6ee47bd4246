//! The system: the calls of domains over shared buffers, one event at a time.
//!
//! [`System::run`](system::System::run) states the main theorem: for every list of events, the replies
//! and the state after them are those of a machine that copies every byte at every call (`iol_core`,
//! `specs/Run`). `machine_of` (`specs/Machine`) is the machine state that a system represents, and
//! `specs/Room` says when there is room.
//!
//! The contract. `System::run`: the machine's replies and state (`chain`, `run`), aggregates that no
//! event gives up keep their values (`values`), and if there is no memory for the replies, nothing is
//! done (`err`). `step` and `step_ref` have one clause, `Promises`: the machine's step (`step`,
//! `beside`), when the store is asked and a failure is reported (`unasked`, `faults`, `asked`, `slots`),
//! refusals (`room`, `no_room`, `memory`, `without_room`, `early`, `refused`, `late`), events that only
//! look (`looks`), sharing (`shares`, `pages`, `still`, `held`, `places`, `store`, `in_place`,
//! `shares_file`, `slices`), generations (`publishes`, `creates`), the ends of files (`ends`), sums
//! (`sums`), writing back (`synced`, `kept`, `flushed`, `dropped`, `stores_back`), and the invariant
//! (`safe`, `stays`, `honest`). `make_agg` and `write_bytes` are the steps of `AggMake` and `Write` of
//! borrowed bytes, `read_into` and `show_into` those of `Read` and `Show` whose bytes are written to
//! borrowed memory (`specs/BorrowedMemory`). `arrive_from` and `drain_to` serve a reader and a writer in place; `parts`,
//! `located_parts` and `aggregates` give references to bytes; `report` counts. `laws` states
//! consequences for whole runs: an aggregate that no event gives up keeps its places and its addresses,
//! NoRoom leaves extents and pools unchanged, a refusal evicts nothing if there is no room, and all
//! pages are free once no domain, no connection and no extent is left.
//!
//! ```text
//! let mut system = System::new(alloc, config, MemoryBacking::new(Slots::new(alloc)))?;
//! let reply = system.step(Event::Call { by: DomainId::new(1), call: Call::DomainNew });
//! ```
#![tactic(auto)]

pub mod aggregates;
mod calls;
mod in_place;
pub mod laws;
mod replies;
pub mod system;

pub use iol_core::events::{Call, Event, Reply};
pub use iol_kernel::report::Report;
