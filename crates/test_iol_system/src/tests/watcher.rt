//! A process that waits for connections, and its condition when idle.
ghost use Rattle.test_iol_system.specs.Watcher.{Watches, HasWatched};

use iol_core::events::{Call, Reply};
use iol_proc::idle::Quiescence;
use iol_proc::look::Look;
use iol_proc::process::{Process, Turn};
use std::alloc::AllocError;

/// Accepts a connection in every second turn.
#[derive(Clone, Copy)]
pub struct Watcher {
    pub(crate) asked: bool,
}

impl Watcher {
    pub fn new() -> Watcher {
        Watcher { asked: false }
    }
}

impl Process for Watcher {
    // It needs no memory.
    ghost turns = { record {
      goes = λ watcher last lent turn next. Watches watcher.asked turn next.asked;
      may_want = λ watcher last lent. ⊥;
    } };

    fn next(&mut self, _last: &Reply, _look: &Look<'_>) -> Result<Turn, AllocError> {
        if self.asked {
            self.asked = false;
            return Ok(Turn::Yield);
        }
        self.asked = true;
        Ok(Turn::Make(Call::Accept))
    }
}

impl Quiescence for Watcher {
    ghost quiescent = { λ n by watcher last m. HasWatched n by watcher.asked m };

    fn quiesces() {}
}
