//! A process that waits.
ghost use Rattle.std.specs.Prelude.{⊤};

use iol_core::events::{Call, Reply};
use iol_core::numbers::Fd;
use iol_proc::look::Look;
use iol_proc::process::{Process, Turn};
use std::alloc::AllocError;

/// The action of a process in each of its turns.
#[derive(Clone, Copy)]
pub enum Waiter {
    Yields,
    Accepts,
    Reads,
}

const WAITERS: [(&str, Waiter); 3] = [
    ("yield", Waiter::Yields),
    ("accept", Waiter::Accepts),
    ("read", Waiter::Reads),
];

impl Waiter {
    /// The process of a word.
    pub fn of_word(word: &str) -> Option<Waiter> {
        for (name, waiter) in &WAITERS {
            if *name == word {
                return Some(*waiter);
            }
        }
        None
    }
}

impl Process for Waiter {
    // Any turn: their behavior is only measured. They need no memory.
    ghost turns = { record { goes = λ waiter last lent turn next. ⊤; may_want = λ waiter last lent. ⊥ } };

    fn next(&mut self, _last: &Reply, _look: &Look<'_>) -> Result<Turn, AllocError> {
        Ok(match self {
            Waiter::Yields => Turn::Yield,
            Waiter::Accepts => Turn::Make(Call::Accept),
            Waiter::Reads => Turn::Make(Call::IolRead {
                fd: Fd::new(0),
                count: 4096,
            }),
        })
    }
}
