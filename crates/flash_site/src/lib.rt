//! The site of the files below a folder, and the world that serves it.
//!
//! A [`Source`](source::Source) reads the site from its folder, into memory up to a limit, and
//! detects changes of the folder. Each time it gives a new world ([`world_of`](site::world_of)) of
//! the files as they were at one time.
//!
//!     let mut source = Source::new(&rt, "site", Some(PRELOAD_BYTES))?;
//!     let loaded = source.load()?;
//!     let renewed = source.renew(false)?;
#![tactic(auto)]

pub mod site;
pub mod source;
