//! The processes of a site.
ghost use Rattle.std.specs.Prelude.{◌≡◌, IfOk, OnErr};
ghost use Rattle.iol_proc.specs.Prelude.{readable, IsCopyFree};
ghost use Rattle.flash_cgi.specs.Prelude.{IsNew};
ghost use Rattle.flash_laws.specs.Prelude.{in_rounds, actor_turns, actor_wants};
ghost use Rattle.flash_lite.specs.Accounts.{acts, works};
ghost use Rattle.flash_lite.specs.Workers.{worker_turns};

use crate::laws::connections_do_not_meet;
use crate::server::Server;
use flash_cgi::worker::Worker as Runner;
use flash_laws::worker_laws::workers_run;
use flash_laws::world_law::RunsScripts;
use iol_core::events::Reply;
use iol_proc::idle::Quiescence;
use iol_proc::look::Look;
use iol_proc::process::{Process, Turn};
use std::alloc::{AllocError, Global};
use std::marker::Model;

/// A worker, which runs scripts: that of `flash_cgi`, as a type to which the law of the server
/// applies.
#[derive(Drop)]
pub struct Worker {
    runner: Runner,
}

impl Model for Worker {
    ghost use Rattle.flash_cgi.specs.declared.worker.Worker.{Worker as Running};

    ghost Value = { Running };

    ghost view = { λ w. w.runner };
}

impl Worker {
    /// Creates a worker that waits for its first job.
    pub fn new(alloc: Global) -> Worker
        ensures { IsNew result }
    {
        Worker {
            runner: Runner::new(alloc),
        }
    }
}

impl Process for Worker {
    ghost turns = { worker_turns };

    fn next(&mut self, last: &Reply, look: &Look<'_>) -> Result<Turn, AllocError>
        ensures turn { IfOk result
            (λ turn. works self.old last.now (readable look.now) turn self.new) }
        ensures copy_free { IfOk result IsCopyFree }
        ensures err { OnErr result (self.new ≡ self.old) }

        // It needs memory only to parse a job, and for the bytes of its calls.
        ensures wants { OnErr result (worker_turns.may_want self.old last.now (readable look.now)) }
    {
        self.runner.next(last, look)
    }
}

impl RunsScripts for Worker {
    ghost use Rattle.flash_laws.specs.Prelude.{IsExpectedOf, IsFreeFor};
    ghost use Rattle.flash_lite.specs.Workers.{worker_quiescent};

    ghost turns = { worker_turns };

    ghost quiescent = { worker_quiescent };

    ghost free = { IsFreeFor };

    ghost expected = { IsExpectedOf };

    fn runs() {
        workers_run();
    }

    fn quiesces() {
        Runner::quiesces();
    }
}

/// The server, or a worker.
#[derive(Drop)]
pub enum Role {
    Server(Server),
    Worker(Worker),
}

/// A process of a site.
#[derive(Drop)]
pub struct Actor {
    pub role: Role,
}

impl Model for Actor {
    ghost use Rattle.flash_cgi.specs.declared.worker.Worker.{Worker as Running};
    ghost use Rattle.flash_laws.specs.Prelude.{Actor as Playing};
    ghost use Rattle.flash_lite.specs.Actors.{playing};

    ghost Value = { Playing Running };

    ghost view = { λ a. playing a.role };
}

impl Process for Actor {
    ghost turns = { actor_turns in_rounds worker_turns };

    fn next(&mut self, last: &Reply, look: &Look<'_>) -> Result<Turn, AllocError>
        ensures turn { IfOk result
            (λ turn. acts self.old last.now (readable look.now) turn self.new) }
        ensures copy_free { IfOk result IsCopyFree }
        ensures err { OnErr result (self.new ≡ self.old) }

        // The server needs memory only for its buffers and the bytes of its calls, and a worker
        // for a job and the bytes of its calls.
        ensures wants { OnErr result
            (actor_wants worker_turns self.old last.now (readable look.now)) }
    {
        match &mut self.role {
            Role::Server(server) => server.next(last, look),
            Role::Worker(worker) => worker.next(last, look),
        }
    }
}

impl Quiescence for Actor {
    ghost use Rattle.flash_laws.specs.Prelude.{actor_quiescent};
    ghost use Rattle.flash_lite.specs.Workers.{worker_quiescent};

    ghost quiescent = { actor_quiescent worker_quiescent };

    fn quiesces() {
        connections_do_not_meet();
    }
}
