//! The processes of the tests.
ghost use Rattle.std.specs.Prelude.{⊤};

use super::consumer::Consumer;
use super::producer::Producer;
use iol_core::events::{Call, Reply};
use iol_proc::look::Look;
use iol_proc::process::{Process, Turn};
use std::alloc::AllocError;
use test_worlds::echo::Echo;

/// A process of one of several kinds.
#[derive(Clone, Copy)]
pub enum Worker {
    Producer(Producer),
    Consumer(Consumer),
    Echo(Echo),

    /// Waits for a connection without a pause.
    Eager,

    /// Has nothing to do.
    Idle,
}

impl Process for Worker {
    // Any turn, and memory for any: the tests cover their behavior.
    ghost turns = { record { goes = λ worker last lent turn next. ⊤; may_want = λ worker last lent. ⊤ } };

    fn next(&mut self, last: &Reply, look: &Look<'_>) -> Result<Turn, AllocError> {
        match self {
            Worker::Producer(producer) => producer.turn(last),
            Worker::Consumer(consumer) => Ok(consumer.turn(last, look)),
            Worker::Echo(echo) => Ok(echo.turn(last, look)),
            Worker::Eager => Ok(Turn::Make(Call::Accept)),
            Worker::Idle => Ok(Turn::Yield),
        }
    }
}
