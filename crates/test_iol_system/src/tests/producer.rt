//! A process that fills a pipe.
ghost use Rattle.std.specs.Prelude.{◌≡◌, IfOk, OnErr};
ghost use Rattle.iol_proc.specs.Prelude.{IsCopyFree};

use iol_core::events::{Call, Reply};
use iol_core::lists::Bytes;
use iol_core::numbers::{AggId, Fd};
use iol_proc::process::Turn;
use std::alloc::{AllocError, Global};
use test_worlds::echo::let_go;

/// The number of bytes written at a time. Eight times as many fill a pipe.
pub const PIECE: usize = 8192;

/// Writes pieces to a pipe, each with different bytes, and closes it.
#[derive(Clone, Copy)]
pub struct Producer {
    alloc: Global,
    fd: Fd,
    left: u8,
    held: Option<AggId>,
    open: bool,
}

impl Producer {
    pub fn new(alloc: Global, fd: Fd, pieces: u8) -> Producer {
        Producer {
            alloc,
            fd,
            left: pieces,
            held: None,
            open: true,
        }
    }

    /// Makes a piece, writes it, and drops it. If the pipe is full it yields, and retries.
    pub fn turn(&mut self, last: &Reply) -> Result<Turn, AllocError>
        ensures copy_free { IfOk result IsCopyFree }
        ensures err { OnErr result (self.new ≡ self.old) }
    {
        match last {
            Reply::Agg(agg) => {
                self.held = Some(*agg);
                Ok(self.write(*agg))
            }
            Reply::Count(_) => Ok(let_go(&mut self.held)),
            Reply::Refused(_) => Ok(Turn::Yield),
            _ => match self.held {
                Some(agg) => Ok(self.write(agg)),
                None => self.make(),
            },
        }
    }

    // Writes the piece to the pipe.
    fn write(&self, agg: AggId) -> Turn
        ensures { IsCopyFree result }
    {
        Turn::Make(Call::IolWrite { fd: self.fd, agg })
    }

    // The next piece, or the end.
    fn make(&mut self) -> Result<Turn, AllocError>
        ensures copy_free { IfOk result IsCopyFree }
        ensures err { OnErr result (self.new ≡ self.old) }
    {
        if self.left > 0 {
            let list = vec![in self.alloc; self.left; PIECE]?;
            self.left -= 1;
            let bytes = Bytes::from_vec(list);
            return Ok(Turn::Make(Call::AggMake { bytes }));
        }
        if self.open {
            self.open = false;
            return Ok(Turn::Make(Call::Close { fd: self.fd }));
        }
        Ok(Turn::Yield)
    }
}
