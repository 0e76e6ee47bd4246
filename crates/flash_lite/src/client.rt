//! One client: its connection, and the script that runs for the request in progress.
//!
//! A script is found like any file; then its run has the connection until all is sent.
ghost use Rattle.std.specs.Prelude.{◌≡◌, ◌≢◌, ◌<◌, [], IfNone, IfOk, IfSome, OnErr, OnSome, None, Some, false, true};
ghost use Rattle.flash_laws.specs.Client as spec;
ghost use Rattle.flash_laws.specs.Prelude.{has_bytes, makes_bytes, makes_any, is_over};
ghost use Rattle.flash_laws.specs.Conn as conn;
ghost use Rattle.flash_laws.specs.Run.{is_left};
ghost use Rattle.flash_laws.specs.declared.phase.Phase.TheVariants.{Receiving, Closed};
ghost use Rattle.flash_laws.specs.declared.script_run.Running.TheVariants.{Finishing};
ghost use Rattle.flash_lite.specs.Course.{CanRest, EndsRun, ProceedsAlone, ProceedsFile, ProceedsAfterReply, ReceivesText, RunsOn, WantsToEnd};
ghost use Rattle.flash_lite.specs.Course.{call_of_run, has_answered_by, left_with, run_after, with_run, worker_of};
ghost use Rattle.flash_lite.specs.ReceivedBytes.{received};
ghost use Rattle.flash_lite.specs.Runs.{IsSmallRunning};
ghost use Rattle.flash_lite.specs.Small.{IsSmall};
ghost use Rattle.flash_lite.specs.declared.site.TheConstants.{MAX_WORKERS};

use crate::client::scripts::{Found, is_for_script, received_text, reports, whole};
use crate::conn::request_calls::is_head_only;
use crate::conn::{Conn, Onward, is_later};
use crate::received::Received;
use crate::run::{after_reply, after_run, keeps_text, next_call, run_worker, waits};
use flash_http::Asked;
use flash_laws::phase::{FileResult, Payload, Phase};
use flash_laws::script_run::Running;
use iol_agg::Parts;
use iol_core::events::Call;
use iol_core::numbers::{AggId, Fd};
use std::alloc::{AllocError, Global};
use std::marker::Model;

mod scripts;

/// The context of a client's turn.
#[derive(Clone, Copy, Debug, PartialEq, Eq)]
pub struct Context {
    /// Whether scripts are run.
    pub scripts: bool,

    /// The descriptor of its connection.
    pub fd: Fd,

    /// A free worker, if the client waits for one.
    pub worker: u32,
}

/// The state of a client whose turn passes to others.
#[derive(Clone, Copy, Debug, PartialEq, Eq)]
pub enum Left {
    /// Its connection is in this phase.
    Goes { phase: Phase },

    /// Its run is over, and its connection is in this phase.
    Ends { phase: Phase },

    /// A run begins: it waits for a worker.
    Begins,

    /// Its run continues with this phase of its response. It has no worker.
    Continues { phase: Phase },

    /// Unchanged: its call is retried.
    Stays,
}

/// The action of a client after a reply.
#[derive(Drop)]
pub enum Course {
    /// It makes its next call at once.
    Asks(Call),

    /// Its turn passes to others, and it continues in this state afterwards.
    Leaves(Left),
}

/// One client of the server: its connection, the run of the requested script, if it has begun and
/// is not over, and the script's text, from the time when it is read until the job is made.
#[derive(Drop)]
pub struct Client {
    alloc: Global,
    conn: Conn,
    run: Option<Running>,
    script: Vec<u8>,
}

impl Model for Client {
    ghost use Rattle.flash_laws.specs.Prelude.{Client as ClientState};
    ghost use Rattle.flash_lite.specs.Course.{GoesAsRun};

    ghost Value = { ClientState };

    ghost view = { λ x. record { conn = x.conn; run = x.run; script = x.script.items } };

    ghost invariant = { λ x. GoesAsRun x.run };
}

impl Client {
    /// A newly accepted client.
    pub fn new(alloc: Global) -> Client
        ensures { result ≡ spec.new_client }
    {
        Client {
            alloc,
            conn: Conn::new(alloc),
            run: None,
            script: Vec::new(alloc),
        }
    }

    // The next call if no script runs; `call` is that of its connection.
    #[tactic(auto, using(crate::proofs::Responses::Clients::whole_call))]
    fn file_call(&self, scripts: bool, fd: Fd, call: Call) -> Call
        requires { call ≡ conn.next_call fd self.now.conn }
        ensures { result ≡ spec.conn_call (spec.is_for_script scripts self.now.conn.request) fd
            self.now.conn }
    {
        let script = is_for_script(scripts, self.conn.request());
        whole(script, self.conn.phase(), call)
    }

    // The action of its connection, if no script runs.
    #[tactic(auto, using(crate::proofs::Responses::Clients::asks_alone, crate::proofs::Responses::Clients::leaves_alone))]
    fn advance_alone(&mut self, context: Context, reply: Received<'_>) -> Result<Course, AllocError>
        requires { self.old.run ≡ None }
        ensures { ProceedsAlone context.scripts context.fd self.old reply.entry.last.now
            (received reply.entry.parts) result self.new }
    {
        match self.conn.advance(context.fd, reply)? {
            Onward::Asks(call) => Ok(Course::Asks(self.file_call(
                context.scripts,
                context.fd,
                call,
            ))),
            Onward::Leaves(phase) => Ok(Course::Leaves(Left::Goes { phase })),
        }
    }

    // After reading the text of a script: keeps it, if it will run, and closes the file.
    #[tactic(auto, using(crate::proofs::Responses::Clients::received_goes))]
    fn receive(
        &mut self,
        context: Context,
        file: Fd,
        agg: AggId,
        parts: Option<Parts<'_>>,
    ) -> Result<Course, AllocError>
        requires { self.old.run ≡ None }
        ensures { ReceivesText context.scripts context.fd file agg self.old (received parts.entry)
            result self.new }
    {
        let head_only = is_head_only(self.conn.request());
        let (runs, text) = received_text(self.alloc, head_only, parts)?;
        let file_result = FileResult::Text { agg, runs };
        let call = self
            .conn
            .proceed(context.fd, Phase::ClosingFile { file, file_result })?;
        self.script = text;
        Ok(Course::Asks(self.file_call(context.scripts, context.fd, call)))
    }

    // The action after the reply to a call for a file, or for a script's text, if no script runs.
    #[tactic(auto, using(crate::proofs::Responses::Clients::file_rules))]
    fn advance_file(&mut self, context: Context, reply: Received<'_>) -> Result<Course, AllocError>
        requires { self.old.run ≡ None }
        ensures { ProceedsFile context.scripts context.fd self.old reply.entry.last.now
            (received reply.entry.parts) result self.new }
    {
        let asked = self.conn.request();
        let script = is_for_script(context.scripts, asked);
        match reports(script, self.conn.phase(), reply.last, is_head_only(asked)) {
            Found::Text { file, agg } => {
                let course = self.receive(context, file, agg, reply.parts)?;
                Ok(course)
            }
            Found::Runs => Ok(Course::Leaves(Left::Begins)),
            Found::AsFile => {
                let course = self.advance_alone(context, reply)?;
                Ok(course)
            }
        }
    }

    // The run after the reply to its call.
    fn run_after(&self, worker: u32, running: &Running, reply: Received<'_>) -> Running
        requires worker { worker < MAX_WORKERS }
        requires goes { IsSmallRunning running.now × (is_over running.now ≡ false) }
        ensures after { result ≡ run_after worker self.now.conn.request running.now reply.entry.last.now
            (received reply.entry.parts) }
        ensures small { IsSmallRunning result }
    {
        match self.conn.request() {
            Asked::Serve(request) => after_reply(worker, request, *running, reply),
            Asked::Refuse {
                status: _,
                head_only: _,
                close: _,
            } => *running,
        }
    }

    // The call of a run, with this text of its script.
    fn run_call(&self, fd: Fd, script: &[u8], running: &Running) -> Result<Call, AllocError>
        requires { IsSmallRunning running.now × (is_over running.now ≡ false) }
        ensures call { IfOk result
            (λ call. call ≡ call_of_run fd self.now script.now running.now) }
        ensures wants { OnErr result (makes_any running.now ≡ true) }
    {
        match self.conn.request() {
            Asked::Serve(request) => next_call(self.alloc, fd, request, script, *running),
            Asked::Refuse {
                status: _,
                head_only: _,
                close: _,
            } => Ok(Call::Close { fd }),
        }
    }

    // The run advances to this state, and the text stays buffered.
    fn run_with(&mut self, fd: Fd, next: Running) -> Result<Call, AllocError>
        requires { IsSmallRunning next × (is_over next ≡ false) }
        ensures on { IfOk result (λ _. self.new ≡ with_run self.old next self.old.script) }
        ensures call { IfOk result
            (λ call. call ≡ call_of_run fd self.old self.old.script next) }
        ensures err { OnErr result (self.new ≡ self.old) }
        ensures wants { OnErr result (makes_any next ≡ true) }
    {
        let call = self.run_call(fd, self.script.as_slice(), &next)?;
        self.run = Some(next);
        Ok(call)
    }

    // The run advances to this state, and the text and its memory are released.
    fn run_without(&mut self, fd: Fd, next: Running) -> Result<Call, AllocError>
        requires { IsSmallRunning next × (is_over next ≡ false) }
        ensures on { IfOk result (λ _. self.new ≡ with_run self.old next []) }
        ensures call { IfOk result (λ call. call ≡ call_of_run fd self.old [] next) }
        ensures err { OnErr result (self.new ≡ self.old) }
        ensures wants { OnErr result (makes_any next ≡ true) }
    {
        let call = self.run_call(fd, &[], &next)?;
        self.script = Vec::new(self.alloc);
        self.run = Some(next);
        Ok(call)
    }

    // The run advances from one state to the next.
    fn run_on(&mut self, fd: Fd, was: &Running, next: Running) -> Result<Call, AllocError>
        requires { IsSmallRunning next × (is_over next ≡ false) }
        ensures on { IfOk result
            (λ _. self.new ≡ spec.proceeds false false self.old was.now next) }
        ensures call { IfOk result
            (λ call. call ≡ call_of_run fd self.new self.new.script next) }
        ensures err { OnErr result (self.new ≡ self.old) }
        ensures wants { OnErr result (makes_any next ≡ true) }
    {
        if keeps_text(was) {
            if keeps_text(&next) {
                return self.run_with(fd, next);
            }
            return self.run_without(fd, next);
        }
        self.run_with(fd, next)
    }

    // The run is over, and all is sent: continues with the buffered stream.
    #[tactic(auto, using(crate::proofs::Responses::Clients::rest_rules))]
    fn end_free(&mut self, context: Context) -> Result<Course, AllocError>
        ensures { EndsRun context.scripts context.fd Receiving self.old (WantsToEnd self.old Receiving)
            result self.new }
    {
        match self.conn.advance_free(context.fd)? {
            Onward::Asks(call) => {
                self.run = None;
                self.script = Vec::new(self.alloc);
                Ok(Course::Asks(self.file_call(context.scripts, context.fd, call)))
            }
            Onward::Leaves(phase) => Ok(Course::Leaves(Left::Ends { phase })),
        }
    }

    // The run is over, and the connection continues in this phase.
    #[tactic(auto, using(crate::proofs::Responses::Clients::ends_asks, crate::proofs::Responses::Clients::ends_wants))]
    fn end_with(&mut self, context: Context, phase: Phase) -> Result<Course, AllocError>
        requires { (phase ≢ Receiving) × (phase ≢ Closed) × IsSmall phase × (is_left phase ≡ false) }
        ensures { EndsRun context.scripts context.fd phase self.old (has_bytes phase ≡ true) result
            self.new }
    {
        let call = self.conn.proceed(context.fd, phase)?;
        self.run = None;
        self.script = Vec::new(self.alloc);
        Ok(Course::Asks(self.file_call(context.scripts, context.fd, call)))
    }

    // The run is over.
    #[tactic(auto, using(crate::proofs::Responses::Clients::over_leaves, crate::proofs::Responses::Clients::ends_wants))]
    fn end(&mut self, context: Context, phase: Phase) -> Result<Course, AllocError>
        requires { IsSmall phase × (is_left phase ≡ false) }
        ensures { EndsRun context.scripts context.fd phase self.old (WantsToEnd self.old phase)
            result self.new }
    {
        match phase {
            Phase::Receiving => {
                let course = self.end_free(context)?;
                Ok(course)
            }
            Phase::Closed => Ok(Course::Leaves(Left::Ends { phase })),
            _ => {
                let course = self.end_with(context, phase)?;
                Ok(course)
            }
        }
    }

    // The phase of a run whose response is taken whole, if more input is buffered.
    fn answered(&self, running: &Running) -> Option<Phase>
        ensures none { IfNone result (has_answered_by self.now.conn running.now ≡ false) }
        ensures some { OnSome result (has_answered_by self.now.conn running.now ≡ true) }
        ensures phase { IfSome result (λ phase. running.now ≡ Finishing phase) }
    {
        match *running {
            Running::Finishing { phase } => {
                if self.conn.has_answered(&phase) {
                    Some(phase)
                } else {
                    None
                }
            }
            _ => None,
        }
    }

    // The action after the reply to the call of its run.
    #[tactic(auto, using(crate::proofs::Responses::RunsOn::run_rules))]
    fn advance_running(
        &mut self,
        context: Context,
        running: Running,
        reply: Received<'_>,
    ) -> Result<Course, AllocError>
        requires worker { context.worker < MAX_WORKERS }
        requires runs { self.old.run ≡ Some running }
        requires goes { IsSmallRunning running × (is_over running ≡ false) }
        ensures { RunsOn context.scripts context.fd context.worker running self.old
            reply.entry.last.now (received reply.entry.parts) result self.new }
    {
        if is_later(reply.last) {
            return Ok(Course::Leaves(Left::Stays));
        }
        let next = self.run_after(context.worker, &running, reply);
        if waits(&next) {
            return Ok(Course::Leaves(Left::Stays));
        }
        if let Some(phase) = self.answered(&next) {
            return Ok(Course::Leaves(Left::Continues { phase }));
        }
        match after_run(&next) {
            Some(phase) => {
                let course = self.end(context, phase)?;
                Ok(course)
            }
            None => {
                let call = self.run_on(context.fd, &running, next)?;
                Ok(Course::Asks(call))
            }
        }
    }

    /// The action after the reply to its call. If memory runs out it is unchanged. It needs memory
    /// only to buffer bytes that it reads, to begin a request, or for a call with bytes of its own.
    pub fn advance(&mut self, context: Context, reply: Received<'_>) -> Result<Course, AllocError>
        requires { context.worker < MAX_WORKERS }
        ensures { ProceedsAfterReply context.scripts context.fd context.worker self.old
            reply.entry.last.now (received reply.entry.parts) result self.new }
    {
        match self.run {
            Some(running) => {
                let course = self.advance_running(context, running, reply)?;
                Ok(course)
            }
            None => {
                let course = self.advance_file(context, reply)?;
                Ok(course)
            }
        }
    }

    /// Returns whether it waits for a worker.
    pub fn awaits(&self) -> bool
        ensures { result ≡ spec.awaits self.now }
    {
        match self.run {
            Some(running) => waits(&running),
            None => false,
        }
    }

    /// The worker that runs its script, if any.
    pub fn worker(&self) -> Option<u32>
        ensures worker { result ≡ worker_of self.now }
        ensures within { IfSome result (λ worker. worker < MAX_WORKERS) }
    {
        match self.run {
            Some(running) => run_worker(&running),
            None => None,
        }
    }

    /// Its turn passes to others, and it continues in this state afterwards.
    pub fn leave(&mut self, left: Left)
        requires { CanRest self.old left }
        ensures { self.new ≡ left_with self.old left }
    {
        match left {
            Left::Goes { phase } => self.conn.leave(phase),
            Left::Ends { phase } => {
                self.conn.leave(phase);
                self.run = None;
                self.script = Vec::new(self.alloc);
            }
            Left::Begins => {
                self.conn.leave(Phase::MakingHead {
                    content: Payload::Script,
                });
                self.run = Some(Running::AwaitingWorker);
            }
            Left::Continues { phase } => self.run = Some(Running::Finishing { phase }),
            Left::Stays => {}
        }
    }

    /// Its next call.
    #[tactic(auto, using(crate::proofs::Responses::Clients::ready_alone))]
    pub fn next_call(&self, scripts: bool, fd: Fd) -> Result<Call, AllocError>
        ensures call { IfOk result (λ call. call ≡ spec.next_call scripts fd self.now) }
        ensures ready { spec.Readies self.now self.now }
        ensures wants { OnErr result (makes_bytes self.now ≡ true) }
    {
        match self.run {
            Some(running) => self.run_call(fd, self.script.as_slice(), &running),
            None => {
                let call = self.conn.next_call(fd)?;
                Ok(self.file_call(scripts, fd, call))
            }
        }
    }
}
