//! A process that sends back the input of a connection, and closes it at the end.
ghost use Rattle.std.specs.Prelude.{⊤};
ghost use Rattle.iol_proc.specs.Prelude.{IsCopyFree};

use iol_core::events::{Call, Reply};
use iol_core::numbers::{AggId, Fd};
use iol_core::refusals::Refusal;
use iol_proc::look::Look;
use iol_proc::process::{Process, Turn};
use std::alloc::AllocError;

/// Drops the aggregate, if there is one.
pub fn let_go(held: &mut Option<AggId>) -> Turn
    ensures { IsCopyFree result }
{
    match held.take() {
        Some(agg) => Turn::Make(Call::AggDrop { agg }),
        None => Turn::Yield,
    }
}

/// Accepts one connection at a time, sends back its input, and closes it at its end.
#[derive(Clone, Copy)]
pub struct Echo {
    fd: Option<Fd>,
    held: Option<AggId>,
}

impl Process for Echo {
    // Any turn: its behavior is tested. It needs no memory.
    ghost turns = { record { goes = λ worker last readable turn next. ⊤; may_want = λ worker last readable. ⊥ } };

    fn next(&mut self, last: &Reply, look: &Look<'_>) -> Result<Turn, AllocError> {
        Ok(self.turn(last, look))
    }
}

impl Echo {
    pub fn new() -> Echo {
        Echo {
            fd: None,
            held: None,
        }
    }

    /// Reads, writes the bytes read, and drops them. If there are none it yields, and retries.
    pub fn turn(&mut self, last: &Reply, look: &Look<'_>) -> Turn
        ensures { IsCopyFree result }
    {
        match last {
            Reply::Fd(fd) => {
                self.fd = Some(*fd);
                self.ask()
            }
            Reply::Agg(agg) => self.heard(*agg, look),
            Reply::Count(_) => let_go(&mut self.held),
            Reply::Refused(Refusal::WouldBlock) => Turn::Yield,
            Reply::Refused(_) => self.close(),
            _ => self.ask(),
        }
    }

    // The next call: accept a connection, or read from it.
    fn ask(&self) -> Turn
        ensures { IsCopyFree result }
    {
        match self.fd {
            Some(fd) => Turn::Make(Call::IolRead { fd, count: 4096 }),
            None => Turn::Make(Call::Accept),
        }
    }

    // Sends back the bytes read. If there are none, this is the end.
    fn heard(&mut self, agg: AggId, look: &Look<'_>) -> Turn
        ensures { IsCopyFree result }
    {
        if is_empty(look, agg) {
            return self.close();
        }
        self.held = Some(agg);
        match self.fd {
            Some(fd) => Turn::Make(Call::IolWrite { fd, agg }),
            None => Turn::Yield,
        }
    }

    fn close(&mut self) -> Turn
        ensures { IsCopyFree result }
    {
        match self.fd.take() {
            Some(fd) => Turn::Make(Call::Close { fd }),
            None => Turn::Yield,
        }
    }
}

fn is_empty(look: &Look<'_>, agg: AggId) -> bool {
    let Some(parts) = look.bytes(agg) else {
        return true;
    };
    for _ in parts {
        return false;
    }
    true
}
