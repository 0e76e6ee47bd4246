//! Files by name.
ghost use Rattle.std.specs.Prelude.{◌≡◌, length, true, is_some};
ghost use Rattle.iol_core.specs.State as state;
ghost use Rattle.iol_core.specs.Prelude.{is_numbered, file_called};
ghost use Rattle.iol_core.specs.Calls.Files as calls;
ghost use Rattle.iol_kernel.specs.FileLengths.{AsksNext, FitsNext};
ghost use Rattle.iol_kernel.specs.Files.{opens};
ghost use Rattle.iol_kernel.specs.KernelState.{IsSound};
ghost use Rattle.iol_kernel.specs.FileNames.{FindsNamed, MayAddFile, MayOpenFile, TriesFile};
ghost use Rattle.iol_kernel.specs.Readings.{Reading};

use crate::kernel::Kernel;
use iol_back::backing::Backing;
use iol_core::descriptors::{Descriptor, Mode};
use iol_core::limits::{MAX_FILE_BYTES, MAX_FILES, MAX_NAME_BYTES};
use iol_core::lists::Bytes;
use iol_core::numbers::{DomainId, Fd, FileId, PoolId};
use iol_core::refusals::Refusal;
use std::alloc::AllocError;

impl Kernel {
    ghost use Rattle.iol_kernel.specs.Kernel.{state_of, as_read, Attempts, CarriesOut, NamesNext};

    /// Gives the next slot of the store under files a name and a pool. The file starts with the
    /// bytes stored there.
    ///
    /// `TooLong` depends on the length that the store reports for the slot. An honest store reports
    /// the length of the slot's content.
    #[tactic(auto, using(crate::proofs::State::Stay::stay_rules))]
    pub fn file_new<B: Backing>(
        &mut self,
        backing: &B,
        by: DomainId,
        name: &Bytes,
        pool: PoolId,
    ) -> Result<FileId, Refusal>
        requires { IsSound (state_of self.old) }
        ensures names { NamesNext (B.disk backing.now) by name.now pool self.old result self.new }
        ensures fits { FitsNext (B.disk backing.now) (state_of self.old) result }
    {
        if !self.is_live(by) {
            return Err(Refusal::NoDomain);
        }
        if !self.is_pool(pool) {
            return Err(Refusal::NoPool);
        }
        if self.is_named(name) {
            return Err(Refusal::WrongMode);
        }
        let len = name.as_slice().len();
        if len == 0 || len > MAX_NAME_BYTES {
            return Err(Refusal::BadRange);
        }
        if self.is_next_too_long(backing) {
            return Err(Refusal::TooLong);
        }
        if self.file_count() >= MAX_FILES {
            return Err(Refusal::TooMany);
        }
        if !self.may_read(by, pool) {
            return Err(Refusal::Denied { pool });
        }
        if self.is_closed(pool) {
            return Err(Refusal::PoolClosed { pool });
        }
        Ok(self.add_file(by, name, pool)?)
    }

    /// Whether a file has this name.
    #[tactic(auto, using(crate::proofs::FileCalls::FileNames::file_rules))]
    fn is_named(&self, name: &Bytes) -> bool
        ensures { (f : Reading) → result ≡ is_some (file_called (as_read f self.now) name.now) }
    {
        self.files.table.has(name.as_slice())
    }

    /// Opens a file in a mode, under the caller's lowest free number, at position 0.
    #[tactic(auto, using(crate::proofs::State::Stay::stay_rules))]
    pub fn open_file(&mut self, by: DomainId, name: &Bytes, mode: Mode) -> Result<Fd, Refusal>
        requires { IsSound (state_of self.old) }
        ensures { CarriesOut (λ s. calls.open_file s by name.now mode) self.old result self.new }
    {
        if !self.is_live(by) {
            return Err(Refusal::NoDomain);
        }
        let Some(file) = self.find_file(name) else {
            return Err(Refusal::NoFile);
        };
        if self.is_open_beyond(by, 1) {
            return Err(Refusal::TooMany);
        }
        let pool = self.file_pool(file);
        if !self.may_read(by, pool) {
            return Err(Refusal::Denied { pool });
        }
        Ok(self.open_at_start(by, file, mode)?)
    }

    /// The file of this name.
    fn find_file(&self, name: &Bytes) -> Option<FileId>
        requires { IsSound (state_of self.now) }
        ensures { FindsNamed name.now (state_of self.now) result }
    {
        self.files.table.find(name.as_slice())
    }

    /// The pool of a file's bytes.
    pub(crate) fn file_pool(&self, file: FileId) -> PoolId
        requires { is_numbered (state_of self.now).files file ≡ true }
        ensures { (f : Reading) → result ≡ (state.file (as_read f self.now) file).pool }
    {
        self.files.table.pool_of(file)
    }

    /// Opens a file that exists, at position 0.
    fn open_at_start(&mut self, by: DomainId, file: FileId, mode: Mode) -> Result<Fd, AllocError>
        requires { MayOpenFile by file (state_of self.old) }
        ensures { Attempts (λ s. opens s by (Descriptor.File file 0 mode)) self.old result
            self.new }
    {
        let start = Descriptor::File { file, at: 0, mode };
        Ok(self.domains.add_fd(by, start)?)
    }

    /// The number of files.
    #[tactic(auto, using(crate::proofs::FileCalls::FileNames::file_rules))]
    fn file_count(&self) -> usize
        ensures { (f : Reading) → result ≡ length (as_read f self.now).files }
    {
        self.files.table.len()
    }

    /// Whether the bytes stored in the next slot are more than a file may have.
    fn is_next_too_long<B: Backing>(&self, backing: &B) -> bool
        requires { IsSound (state_of self.now) }
        ensures { AsksNext (B.disk backing.now) (state_of self.now) result }
    {
        let count = self.files.table.len();
        if count >= MAX_FILES {
            return false;
        }
        let stored = backing.length(FileId::new(count as u32 + 1));
        stored as usize > MAX_FILE_BYTES
    }

    /// Adds a file in the next slot.
    fn add_file(&mut self, by: DomainId, name: &Bytes, pool: PoolId) -> Result<FileId, AllocError>
        requires { MayAddFile name.now pool (state_of self.old) }
        ensures { TriesFile by name.now pool (state_of self.old) result (state_of self.new) }
    {
        Ok(self.files.add(self.alloc, name.as_slice(), pool)?)
    }
}
