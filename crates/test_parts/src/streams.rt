//! A reader and a writer in memory, which count their calls and may fail at one of them.
use std::alloc::{AllocError, Global};
use std::io;
use std::io::{ErrorKind, Read, Write};

/// Reads from memory, at most `most` bytes at once, and counts its reads. Read number `fails`
/// fails, if it is not 0.
#[derive(Drop)]
pub struct Source<'a> {
    bytes: &'a [u8],
    most: u32,
    fails: u32,
    pub reads: u32,
}

impl<'a> Source<'a> {
    pub fn new(bytes: &'a [u8], most: u32, fails: u32) -> Source<'a> {
        Source {
            bytes,
            most,
            fails,
            reads: 0,
        }
    }
}

impl<'a> Read for Source<'a> {
    fn read(&mut self, buf: &mut [u8]) -> io::Result<usize> {
        self.reads = self.reads.saturating_add(1);
        if self.reads == self.fails {
            return Err(io::Error::from(ErrorKind::BrokenPipe));
        }
        let most = buf.len().min(self.most as usize);
        self.bytes.read(&mut buf[..most])
    }
}

/// Takes at most `most` bytes at once into memory, and counts its writes. Write number `fails`
/// fails, if it is not 0.
#[derive(Drop)]
pub struct Sink {
    bytes: Vec<u8>,
    most: u32,
    fails: u32,
    pub writes: u32,
    pub flushes: u32,
}

impl Sink {
    pub fn new(alloc: Global, most: u32, fails: u32) -> Sink {
        Sink {
            bytes: Vec::new(alloc),
            most,
            fails,
            writes: 0,
            flushes: 0,
        }
    }

    /// A sink with room for this number of bytes from the start.
    pub fn with_room(
        alloc: Global,
        room: usize,
        most: u32,
        fails: u32,
    ) -> Result<Sink, AllocError> {
        let mut sink = Sink::new(alloc, most, fails);
        sink.bytes.reserve(room)?;
        Ok(sink)
    }

    pub fn bytes(&self) -> &[u8] {
        &self.bytes
    }
}

impl Write for Sink {
    fn write(&mut self, buf: &[u8]) -> io::Result<usize> {
        self.writes = self.writes.saturating_add(1);
        if self.writes == self.fails {
            return Err(io::Error::from(ErrorKind::BrokenPipe));
        }
        let most = buf.len().min(self.most as usize);
        self.bytes.extend_from_slice(&buf[..most])?;
        Ok(most)
    }

    fn flush(&mut self) -> io::Result<()> {
        self.flushes = self.flushes.saturating_add(1);
        Ok(())
    }
}
