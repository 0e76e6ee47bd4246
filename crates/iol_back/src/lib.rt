//! Backing stores: where the bytes of files come from, and where they are written back.
//!
//! A [`Backing`](backing::Backing) holds a list of bytes for each of the files 1 to 1,024, and may
//! fail. Its contracts (`specs/Disk`) state what it reads and writes if it is honest, that it
//! counts its failures, and that a failed write changes nothing outside of its range. There are
//! [`MemoryBacking`](memory::MemoryBacking), with lists in memory,
//! [`FaultyBacking`](faulty::FaultyBacking), which makes one call to another store fail, and
//! [`FolderBacking`](folder::FolderBacking), over the files of a folder, which promises nothing
//! about their bytes.
//!
//! The contract of every store: `read_at` returns the bytes of a range of the file (`read`,
//! `slots`), `write_at` writes bytes there (`written`, `others`, `torn`), both only for the files 1
//! to 1,024 (`slot`). A failure adds one to the count (`counts`), and no call changes whether a
//! store is honest (`honest`). `length` reports the same length of a file until it is read or
//! written (`reported`); an honest store reports that of the stored bytes. One record each states
//! what a read and a write do (`ReadsAt`, `WritesAt`). For lists in memory: when a call succeeds
//! (`ReadsMemory`, `WritesMemory`). For a folder: its names, which ascend in byte order, without
//! duplicates (`FolderBacking::count`, `name`).
//!
//!     let mut slots = Slots::new(alloc);
//!     slots.append(FileId::new(1), b"abcdef")?;
//!     let mut store = FaultyBacking::new(MemoryBacking::new(slots), 2);
//!     store.read_at(FileId::new(1), 2, &mut bytes)?;
#![tactic(auto)]

pub mod backing;
pub mod faulty;
pub mod folder;
pub mod listing;
pub mod memory;
pub mod slots;
