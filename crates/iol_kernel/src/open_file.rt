//! Descriptors on files: the file, the position of the next read or write, and the mode.
ghost use Rattle.std.specs.Prelude.{◌≡◌, ◌+◌, ◌≤◌, false, IfSome, None, Some};
ghost use Rattle.iol_core.specs.Calls.Reads as reading;
ghost use Rattle.iol_core.specs.Calls.Writes as writing;

use iol_core::descriptors::{Descriptor, Mode};
use iol_core::limits::MAX_FILE_BYTES;
use iol_core::numbers::FileId;

/// The file that a descriptor is open on, with its position and mode.
#[derive(Clone, Copy)]
pub struct OpenFile {
    pub file: FileId,
    pub at: u32,
    pub mode: Mode,
}

impl OpenFile {
    /// The file that a descriptor is open on, if it is open on one.
    pub(crate) fn of(end: &Descriptor) -> Option<OpenFile>
        ensures some { IfSome result (λ x. end.now ≡ Descriptor.File x.file x.at x.mode) }
        ensures none { result ≡ None → writing.is_file (Some end.now) ≡ false }
    {
        match end {
            Descriptor::File { file, at, mode } => Some(OpenFile {
                file: *file,
                at: *at,
                mode: *mode,
            }),
            Descriptor::ReadEnd { .. }
            | Descriptor::WriteEnd { .. }
            | Descriptor::Connection { .. } => None,
        }
    }

    /// The descriptor's object after its position moved by `len` bytes.
    pub(crate) fn moved_by(self, len: u32) -> Descriptor
        requires { self.at + len ≤ MAX_FILE_BYTES }
        ensures { result ≡ Descriptor.File self.file (self.at + len) self.mode }
    {
        Descriptor::File {
            file: self.file,
            at: self.at + len,
            mode: self.mode,
        }
    }
}

/// Whether a file that is open in this mode may be read.
pub(crate) fn may_be_read(mode: Mode) -> bool
    ensures { result ≡ reading.reads mode }
{
    match mode {
        Mode::Read | Mode::Both => true,
        Mode::Write => false,
    }
}

/// Whether a descriptor of this mode can write.
pub(crate) fn is_for_writing(mode: Mode) -> bool
    ensures { result ≡ writing.writes mode }
{
    match mode {
        Mode::Read => false,
        Mode::Write => true,
        Mode::Both => true,
    }
}
