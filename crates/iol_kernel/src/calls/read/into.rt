//! Reading files into the caller's memory: no aggregate and no list is made of what is read.
ghost use Rattle.std.specs.Prelude.{◌<◌, ◌^◌, length};

use crate::copies::copy_to_front;
use crate::kernel::Kernel;
use crate::open_file::OpenFile;
use iol_back::backing::Backing;
use iol_core::descriptors::Descriptor;
use iol_core::numbers::{DomainId, Fd};
use iol_core::refusals::Refusal;

impl Kernel {
    ghost use Rattle.iol_kernel.specs.Kernel.{CopiesFileInto, IsOpenOn};

    /// Copies bytes of a file from a descriptor's position on to the front of `into`, as many as the
    /// file has and `into` has room for, and returns their number. The position moves past them. No
    /// list of them is made.
    pub fn copy_file_into<B: Backing>(
        &mut self,
        backing: &mut B,
        by: DomainId,
        fd: Fd,
        found: OpenFile,
        into: &mut [u8],
    ) -> Result<u32, Refusal>
        requires open { IsOpenOn self.old by fd
            (Descriptor.File found.file found.at found.mode) }
        requires short { length into.old < 2 ^ 32 }
        ensures { CopiesFileInto by fd found into.old into.new (B.disk backing.old) self.old result
            (B.disk backing.new) self.new }
    {
        self.test_read(by, found.file, found.mode, false)?;
        let most = self.readable(backing, found.file, found.at, into.len() as u32);
        let agg = self.files.cache.read(
            self.alloc,
            &mut self.store,
            backing,
            found.file,
            found.at,
            most,
        )?;
        let len = agg.len();
        copy_to_front(&agg, &self.store, into);
        agg.release(&mut self.store);
        self.domains.set_fd(by, fd, found.moved_by(len));
        Ok(len)
    }
}
