//! The store of a system created by C: in memory, or over descriptors that C has opened.
ghost use Rattle.std.specs.Prelude.{◌≡◌, IfSome};
ghost use Rattle.iol_back.specs.Disk.{IsSlot, ReadsAt, WritesAt, length_reported, raised};
ghost use Rattle.iol_ffi.specs.Store.{disk_of};
ghost use Rattle.iol_ffi.specs.declared.store.HostStore.TheVariants.{Opened};

use iol_back::backing::{Backing, StoreFault};
use iol_back::memory::MemoryBacking;
use iol_core::limits::{MAX_FILE_BYTES, MAX_FILES};
use iol_core::numbers::FileId;

/// The descriptors of files that C has opened, with the length of each. Contracts state nothing
/// about their bytes.
#[derive(Drop)]
pub struct OpenFiles {
    pub fds: Vec<i32>,
    pub lens: Vec<u32>,
    pub failures: u64,
}

/// The store under the files of a system.
#[derive(Drop)]
pub enum HostStore {
    Memory(MemoryBacking),
    Opened(OpenFiles),
}

#[tactic(auto, unfolding(iol_back::specs::Disk::length_reported))]
fn length_in(lens: &[u32], file: FileId) -> u32
    ensures { result ≡ length_reported lens.now file }
{
    let number = file.number() as usize;
    if number == 0 {
        return 0;
    }
    match lens.get(number - 1) {
        Some(len) => *len,
        None => 0,
    }
}

impl OpenFiles {
    fn fd(&self, file: FileId) -> Option<i32>
        ensures { IfSome result (λ fd. IsSlot file) }
    {
        let number = file.number() as usize;
        if number == 0 || number > MAX_FILES {
            return None;
        }
        match self.fds.get(number - 1) {
            Some(fd) => Some(*fd),
            None => None,
        }
    }

    // Raises the length of a file to `end`, if it is shorter.
    fn grow_to(&mut self, file: FileId, end: u32)
        ensures { self.new.failures ≡ self.old.failures }
    {
        let number = file.number() as usize;
        if number == 0 {
            return;
        }
        if let Some(len) = self.lens.get_mut(number - 1) {
            *len = end.max(*len);
        }
    }

    fn fail(&mut self) -> StoreFault
        ensures { self.new.failures ≡ raised self.old.failures }
    {
        self.failures = self.failures.saturating_add(1);
        StoreFault
    }

    fn read(&mut self, file: FileId, at: u32, into: &mut [u8]) -> Result<(), StoreFault>
        ensures { ReadsAt file at (disk_of (Opened self.old)) (disk_of (Opened self.new)) into.old into.new result }
    {
        if self.failures == u64::MAX {
            return Err(self.fail());
        }
        let Some(fd) = self.fd(file) else {
            return Err(self.fail());
        };
        let count = into.len() as u64;
        let got = libc::pread(fd, into, i64::from(at));
        if got < 0 || got as u64 != count {
            return Err(self.fail());
        }
        Ok(())
    }

    fn write(&mut self, file: FileId, at: u32, bytes: &[u8]) -> Result<(), StoreFault>
        ensures { WritesAt file at bytes.now (disk_of (Opened self.old)) (disk_of (Opened self.new)) result }
    {
        if self.failures == u64::MAX {
            return Err(self.fail());
        }
        let Some(fd) = self.fd(file) else {
            return Err(self.fail());
        };
        let end = u64::from(at).saturating_add(bytes.len() as u64);
        if end > MAX_FILE_BYTES as u64 {
            return Err(self.fail());
        }
        let put = libc::pwrite(fd, bytes, i64::from(at));
        if put < 0 || put as u64 != bytes.len() as u64 {
            return Err(self.fail());
        }
        self.grow_to(file, end as u32);
        Ok(())
    }
}

impl Backing for HostStore {
    ghost use Rattle.iol_ffi.specs.Store.{disk_of};

    ghost disk = { disk_of };

    fn length(&self, file: FileId) -> u32 {
        match self {
            HostStore::Memory(memory) => memory.length(file),
            HostStore::Opened(opened) => length_in(opened.lens.as_slice(), file),
        }
    }

    fn read_at(&mut self, file: FileId, at: u32, into: &mut [u8]) -> Result<(), StoreFault> {
        match self {
            HostStore::Memory(memory) => memory.read_at(file, at, into),
            HostStore::Opened(opened) => opened.read(file, at, into),
        }
    }

    fn write_at(&mut self, file: FileId, at: u32, bytes: &[u8]) -> Result<(), StoreFault> {
        match self {
            HostStore::Memory(memory) => memory.write_at(file, at, bytes),
            HostStore::Opened(opened) => opened.write(file, at, bytes),
        }
    }

    fn failures(&self) -> u64 {
        match self {
            HostStore::Memory(memory) => memory.failures(),
            HostStore::Opened(opened) => opened.failures,
        }
    }
}
