//! A process that empties a pipe.
ghost use Rattle.iol_proc.specs.Prelude.{IsCopyFree};

use super::producer::PIECE;
use iol_agg::Parts;
use iol_core::events::{Call, Reply};
use iol_core::numbers::Fd;
use iol_proc::look::Look;
use iol_proc::process::Turn;

/// A sum that depends on the order of the bytes.
pub fn summed(sum: u32, byte: u8) -> u32 {
    sum.wrapping_mul(31).wrapping_add(u32::from(byte))
}

/// Reads a pipe to its end, and sums the bytes.
#[derive(Clone, Copy)]
pub struct Consumer {
    fd: Fd,
    count: u32,
    sum: u32,
    ended: bool,
}

impl Consumer {
    pub fn new(fd: Fd) -> Consumer {
        Consumer {
            fd,
            count: 0,
            sum: 0,
            ended: false,
        }
    }

    /// The number of bytes received, and their sum.
    pub fn came(&self) -> (u32, u32) {
        (self.count, self.sum)
    }

    /// Reads, examines the bytes, and drops them. If the pipe is empty it yields, and retries.
    pub fn turn(&mut self, last: &Reply, look: &Look<'_>) -> Turn
        ensures { IsCopyFree result }
    {
        match last {
            Reply::Agg(agg) => {
                if let Some(parts) = look.bytes(*agg) {
                    self.sum_up(parts);
                }
                Turn::Make(Call::AggDrop { agg: *agg })
            }
            Reply::Refused(_) => Turn::Yield,
            _ => self.read(),
        }
    }

    // Requests two pieces at a time, until the end.
    fn read(&self) -> Turn
        ensures { IsCopyFree result }
    {
        if self.ended {
            return Turn::Yield;
        }
        Turn::Make(Call::IolRead {
            fd: self.fd,
            count: 2 * PIECE as u32,
        })
    }

    // Sums the bytes. If there are none, this is the end.
    fn sum_up(&mut self, parts: Parts<'_>) {
        self.ended = true;
        for part in parts {
            for byte in part {
                self.ended = false;
                self.count = self.count.wrapping_add(1);
                self.sum = summed(self.sum, *byte);
            }
        }
    }
}
