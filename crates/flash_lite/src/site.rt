//! The parameters of a site.
ghost use Rattle.std.specs.Prelude.{◌≡◌, IfOk, false, true};
ghost use Rattle.std.specs.List.{list_any};
ghost use Rattle.flash_http.specs.MediaType as names;
ghost use Rattle.flash_lite.specs.Setup as spec;

use crate::layout::{NET_CHUNKS, SITE_CHUNKS, WORK_CHUNKS, WORKERS};
use std::alloc::{AllocError, Global};

/// The maximum number of workers of a site.
pub const MAX_WORKERS: u32 = 8;

/// The maximum number of guests of a site.
pub const MAX_GUESTS: u32 = 7;

/// A file of the site: its name, and whether it is private to the first guest.
#[derive(Drop)]
pub struct SiteFile {
    pub name: Vec<u8>,
    pub private: bool,
}

impl SiteFile {
    /// A file of this name that all domains may read.
    pub fn shared(alloc: Global, name: &str) -> Result<SiteFile, AllocError>
        ensures name { IfOk result (λ f. f.name.items ≡ name.now) }
        ensures shared { IfOk result (λ f. f.private ≡ false) }
    {
        let name = Vec::from_slice(alloc, name.as_bytes())?;
        let private = false;
        Ok(SiteFile { name, private })
    }

    /// Returns whether its name is that of a script: it ends in `.cgi`.
    pub fn is_script(&self) -> bool
        ensures { result ≡ names.is_script self.now.name.items }
    {
        self.name.as_slice().ends_with(".cgi".as_bytes())
    }
}

/// The number of workers (1 to 8) and guests (0 to 7), the chunks of each pool, and the files, by
/// the store's slots.
#[derive(Drop)]
pub struct Site {
    pub workers: u32,
    pub guests: u32,
    pub site_chunks: u32,
    pub net_chunks: u32,
    pub work_chunks: u32,
    pub vault_chunks: u32,
    pub files: Vec<SiteFile>,
}

impl Site {
    /// A site of files that all domains may read, with four workers and no guest, whose pools have
    /// all chunks of a system.
    pub fn of_shared(files: Vec<SiteFile>) -> Site
        requires { list_any (λ f. f.private) files.items ≡ false }
        ensures files { result.files ≡ files }
        ensures range { spec.is_in_range result ≡ true }
    {
        Site {
            workers: WORKERS,
            guests: 0,
            site_chunks: SITE_CHUNKS,
            net_chunks: NET_CHUNKS,
            work_chunks: WORK_CHUNKS,
            vault_chunks: 0,
            files,
        }
    }

    /// Returns whether one of its files is a script.
    pub fn has_script(&self) -> bool
        ensures { result ≡ spec.has_script self.now }
    {
        self.files.iter().any(|file| file.is_script())
    }

    /// The number of workers that run its scripts: 0 if it has no script.
    pub fn workers_used(&self) -> u32
        ensures { result ≡ spec.workers_used self.now }
    {
        if self.has_script() { self.workers } else { 0 }
    }
}
