//! Bytes of a connection that are sent together.
ghost use Rattle.std.specs.Prelude.{◌≡◌, [], IfOk};

use std::alloc::{AllocError, Global};
use std::io;
use std::io::Write;

/// A writer that buffers up to a fixed number of bytes, so that a head and the bytes after it are
/// one send.
#[derive(Drop)]
pub struct Outbox {
    bytes: Vec<u8>,
    most: usize,
}

impl Outbox {
    pub fn new(alloc: Global, most: usize) -> Result<Outbox, AllocError>
        ensures most { IfOk result (λ outbox. outbox.most ≡ most) }
        ensures empty { IfOk result (λ outbox. outbox.bytes.items ≡ []) }
    {
        let bytes = Vec::with_capacity(alloc, most)?;
        Ok(Outbox { bytes, most })
    }

    /// The bytes written since the last `clear`.
    pub fn bytes(&self) -> &[u8]
        ensures { result.now ≡ self.now.bytes.items }
    {
        &self.bytes
    }

    pub fn clear(&mut self)
        ensures { self.new.bytes.items ≡ [] }
    {
        self.bytes.clear();
    }
}

impl Write for Outbox {
    ghost use Rattle.std.specs.Prelude.{◌-◌, Some, length, min};
    ghost use Rattle.std.specs.Io.{WritesAtMost};
    ghost use Rattle.std.specs.Io.KnownBytes.{WriteAppends};

    ghost contents = { λ outbox. Some outbox.bytes.items };

    fn write(&mut self, buf: &[u8]) -> io::Result<usize>
        ensures bound { WritesAtMost result buf.now }
        ensures bytes { WriteAppends (Some self.old.bytes.items) (Some self.new.bytes.items) result
            buf.now }
        ensures count { IfOk result (λ n. n ≡ min (length buf.now)
            (self.old.most - length self.old.bytes.items)) }
    {
        let room = self.most.saturating_sub(self.bytes.len());
        let taken = buf.len().min(room);
        self.bytes.extend_from_slice(&buf[..taken])?;
        Ok(taken)
    }

    fn flush(&mut self) -> io::Result<()> {
        Ok(())
    }
}
