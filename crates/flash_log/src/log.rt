//! An access log that buffers its lines.
ghost use Rattle.std.specs.Prelude.{◌≡◌, ◌++◌, [], OnOk, OnErr};
ghost use Rattle.flash_log.specs.Line as spec;

use crate::lines::{Entry, line_of};
use std::alloc::{AllocError, Global};
use std::io::Write;
use std::marker::Model;

/// A log with this many bytes is full.
const FULL_BYTES: usize = 32_768;

/// Lines for a writer. Lines that cannot be written are dropped.
#[derive(Drop)]
pub struct AccessLog<W> {
    writer: W,
    alloc: Global,
    lines: Vec<u8>,
}

impl<W> Model for AccessLog<W> {
    ghost use Rattle.std.specs.Prelude.{ℕ, List};

    ghost Value = { List ℕ };

    ghost view = { λ log. log.lines.items };
}

impl<W: Write> AccessLog<W> {
    /// A log without lines.
    pub fn new(alloc: Global, writer: W) -> AccessLog<W>
        ensures { result ≡ [] }
    {
        AccessLog {
            writer,
            alloc,
            lines: Vec::new(alloc),
        }
    }

    /// Adds the line of an entry, to be written later. If memory runs out, adds nothing.
    pub fn add(&mut self, entry: &Entry<'_>) -> Result<(), AllocError>
        ensures added { OnOk result (self.new ≡ self.old ++ spec.line_of entry.now) }
        ensures refused { OnErr result (self.new ≡ self.old) }
    {
        let line = line_of(self.alloc, entry)?;
        self.lines.extend_from_slice(&line)
    }

    /// Returns whether the log has enough bytes to be written now.
    pub fn is_full(&self) -> bool {
        self.lines.len() >= FULL_BYTES
    }

    /// Writes the lines that were added.
    pub fn flush(&mut self)
        ensures { self.new ≡ [] }
    {
        if !self.lines.is_empty() {
            let _ = self.writer.write_all(&self.lines);
        }
        self.lines.clear();
    }
}
