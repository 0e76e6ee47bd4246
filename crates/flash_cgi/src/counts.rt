//! The output of a `wc` line.
ghost use Rattle.std.specs.Prelude.{◌≡◌, IfOk};
ghost use Rattle.flash_cgi.specs.WorkerSteps as spec;

use iol_core::lists::Bytes;
use iol_core::refusals::Refusal;
use std::alloc::{AllocError, Global};

/// The number of line feeds and of bytes of a text.
#[derive(Clone, Copy, Debug, PartialEq, Eq)]
pub struct Counts {
    pub lines: u32,
    pub bytes: u32,
}

/// The result of a `wc` line for a file.
#[derive(Clone, Copy, Debug)]
pub enum Said {
    /// The file could not be opened or read.
    Refused(Refusal),

    /// The counts of the file.
    Counted(Counts),
}

impl Said {
    /// The result as a line of text.
    pub fn text(self, alloc: Global) -> Result<Bytes, AllocError>
        ensures { IfOk result (λ text. text ≡ spec.said_text self) }
    {
        let text = match self {
            Said::Refused(refusal) => {
                let name = refusal.name();
                format!(in alloc; "[{name}]\n")?
            }
            Said::Counted(counts) => {
                let (lines, bytes) = (counts.lines, counts.bytes);
                format!(in alloc; "{lines} {bytes}\n")?
            }
        };
        Ok(Bytes::from_vec(Vec::from_slice(alloc, text.as_bytes())?))
    }
}
