//! Reading files by copying: no aggregate is made of what is read.
ghost use Rattle.std.specs.Prelude.{◌≡◌, ◌+◌, ◌≤◌, ◌++◌};
ghost use Rattle.std.specs.Vec.{vec_len, vec_capacity};
ghost use Rattle.iol_core.specs.Prelude.{bytes_of};
ghost use Rattle.iol_hold.specs.Prelude.{byte_len, AllReadable, text_of};
ghost use Rattle.iol_kernel.specs.FileLengths.{HasFile};
ghost use Rattle.iol_kernel.specs.FileReads.{IsReadable};

use crate::kernel::Kernel;
use crate::open_file::OpenFile;
use iol_agg::Agg;
use iol_back::backing::Backing;
use iol_core::descriptors::Descriptor;
use iol_core::lists::Bytes;
use iol_core::numbers::{DomainId, Fd, FileId};
use iol_core::refusals::Refusal;
use iol_hold::Store;

impl Kernel {
    ghost use Rattle.iol_kernel.specs.Kernel.{state_of, CopiesFile, IsOpenOn};

    /// Copies up to `count` bytes of a file from a descriptor's position on. The position moves
    /// past them. Memory for the list is requested first, so that a read refused for lack of it
    /// leaves the cache unchanged.
    pub fn copy_file<B: Backing>(
        &mut self,
        backing: &mut B,
        by: DomainId,
        fd: Fd,
        found: OpenFile,
        count: u32,
    ) -> Result<Bytes, Refusal>
        requires { IsOpenOn self.old by fd (Descriptor.File found.file found.at found.mode) }
        ensures { CopiesFile by fd found count (B.disk backing.old) self.old result
            (B.disk backing.new) self.new }
    {
        self.test_read(by, found.file, found.mode, false)?;
        let most = self.readable(backing, found.file, found.at, count);
        let mut bytes = Vec::with_capacity(self.alloc, most as usize)?;
        let agg = self.files.cache.read(
            self.alloc,
            &mut self.store,
            backing,
            found.file,
            found.at,
            most,
        )?;
        let len = agg.len();
        copy_out(&agg, &self.store, &mut bytes);
        agg.release(&mut self.store);
        self.domains.set_fd(by, fd, found.moved_by(len));
        Ok(Bytes::from_vec(bytes))
    }

    /// How many of `count` bytes a file has from an offset on. Over a store that is not honest, the
    /// end is where a read of the file would end now.
    pub(crate) fn readable<B: Backing>(&self, backing: &B, file: FileId, at: u32, count: u32) -> u32
        requires { HasFile (state_of self.now) file }
        ensures { IsReadable (B.disk backing.now) (state_of self.now).cache file at count result }
    {
        let end = self.files.cache.file_length(backing, file);
        count.min(end.saturating_sub(at))
    }
}

// Adds the bytes of an aggregate to a list that has capacity for them.
fn copy_out(agg: &Agg, store: &Store, bytes: &mut Vec<u8>)
    requires readable { AllReadable store.now agg.now }
    requires room { vec_len bytes.old + byte_len agg.now ≤ vec_capacity bytes.old }
    ensures { bytes.new.items ≡ bytes.old.items ++ bytes_of (text_of store.now agg.now) }
{
    for part in agg.parts(store) {
        let Ok(()) = bytes.extend_from_slice(part) else {
            unreachable!()
        };
    }
}
