//! Calls that make pipes and accept connections, and that give and close descriptors.
ghost use Rattle.std.specs.Prelude.{◌≡◌, ◌≢◌, ℕ, true, Option, Some, None, Err};
ghost use Rattle.iol_core.specs.State as state;
ghost use Rattle.iol_core.specs.Prelude.{conn_at, is_numbered, lookup, taken, closed_on, freed, with_fds};
ghost use Rattle.iol_core.specs.Calls.Descriptors as calls;
ghost use Rattle.iol_kernel.specs.ClosedEnds.{Closes, IsLetGo};
ghost use Rattle.iol_kernel.specs.Denials.{ReportsDenied};
ghost use Rattle.iol_kernel.specs.KernelState.{objects_of, IsOpenEnd, IsSound};
ghost use Rattle.iol_kernel.specs.NewDescriptors.{MayAccept, MayGiveFd, MayPipe};
ghost use Rattle.iol_kernel.specs.Readings.{Reading};

use crate::kernel::Kernel;
use iol_core::descriptors::Descriptor;
use iol_core::limits::MAX_PIPES;
use iol_core::numbers::{ConnId, DomainId, Fd, FileId, PoolId};
use iol_core::refusals::Refusal;
use std::alloc::AllocError;

impl Kernel {
    ghost use Rattle.iol_kernel.specs.Kernel.{state_of, as_read, Attempts, CarriesOut, IsOpenOn, KeepsPlaces, Leaves};

    /// Makes a pipe, and opens its read end and its write end.
    #[tactic(auto, using(crate::proofs::State::Stay::stay_rules))]
    pub fn pipe(&mut self, by: DomainId) -> Result<(Fd, Fd), Refusal>
        requires { IsSound (state_of self.old) }
        ensures { CarriesOut (λ s. calls.pipe s by) self.old result self.new }
    {
        if !self.is_live(by) {
            return Err(Refusal::NoDomain);
        }
        if self.is_open_beyond(by, 2) || self.pipe_count() >= MAX_PIPES {
            return Err(Refusal::TooMany);
        }
        Ok(self.new_pipe(by)?)
    }

    /// The number of live pipes.
    #[tactic(auto, using(crate::proofs::State::Views::count_rules), unfolding(crate::specs::KernelState::read_of))]
    fn pipe_count(&self) -> usize
        ensures { (f : Reading) → result ≡ taken (as_read f self.now).pipes }
    {
        self.pipes.count()
    }

    /// Adds a pipe, and opens both ends in a domain.
    #[tactic(auto, using(crate::proofs::State::Stay::stay_rules, crate::proofs::AggregateCalls::Slices::held_rules))]
    fn new_pipe(&mut self, by: DomainId) -> Result<(Fd, Fd), AllocError>
        requires { MayPipe by (state_of self.old) }
        ensures { Attempts (λ s. calls.pipe s by) self.old result self.new }
    {
        self.pipes.reserve()?;
        let ends = self.domains.add_ends(by, self.pipes.next())?;
        self.pipes.add(self.alloc);
        Ok(ends)
    }

    /// Moves a descriptor to another domain, under its lowest free number.
    #[tactic(auto, using(crate::proofs::State::Stay::stay_rules))]
    pub fn give_fd(&mut self, by: DomainId, fd: Fd, to: DomainId) -> Result<Fd, Refusal>
        requires { IsSound (state_of self.old) }
        ensures { CarriesOut (λ s. calls.give_fd s by fd to) self.old result self.new }
    {
        if !self.is_live(by) || !self.is_live(to) {
            return Err(Refusal::NoDomain);
        }
        let Some(given) = self.descriptor(by, fd) else {
            return Err(Refusal::BadFd);
        };
        if by.number() != to.number() && self.is_open_beyond(to, 1) {
            return Err(Refusal::TooMany);
        }
        if let Some(pool) = self.denied_pool(to, given) {
            return Err(Refusal::Denied { pool });
        }
        Ok(self.move_fd(by, fd, to, given)?)
    }

    /// The pool of the descriptor's object, if a domain needs to read it to hold the descriptor and
    /// may not.
    fn denied_pool(&self, to: DomainId, given: Descriptor) -> Option<PoolId>
        requires { IsOpenEnd (objects_of (state_of self.now)) (Some given) }
        ensures { ReportsDenied (state_of self.now) to (λ s. calls.needed_pool s (Some given)) result }
    {
        match given {
            Descriptor::Connection { conn } => self.hidden_pool(to, conn),
            Descriptor::File { file, .. } => self.hidden_file(to, file),
            Descriptor::ReadEnd { .. } | Descriptor::WriteEnd { .. } => None,
        }
    }

    /// The pool of a connection, if a domain may not read it.
    fn hidden_pool(&self, to: DomainId, conn: ConnId) -> Option<PoolId>
        requires { lookup (state_of self.now).conns conn ≢ None }
        ensures { ReportsDenied (state_of self.now) to (λ s. Some (conn_at s conn).pool) result }
    {
        let pool = self.conns.get(conn)?.pool();
        if self.may_read(to, pool) {
            return None;
        }
        Some(pool)
    }

    /// The pool of a file, if a domain may not read it.
    pub(crate) fn hidden_file(&self, to: DomainId, file: FileId) -> Option<PoolId>
        requires { is_numbered (state_of self.now).files file ≡ true }
        ensures { ReportsDenied (state_of self.now) to (λ s. Some (state.file s file).pool) result }
    {
        let pool = self.file_pool(file);
        if self.may_read(to, pool) {
            return None;
        }
        Some(pool)
    }

    /// Moves a descriptor that the receiver may hold.
    #[tactic(auto, using(crate::proofs::State::Stay::stay_rules, crate::proofs::AggregateCalls::Slices::held_rules))]
    fn move_fd(
        &mut self,
        by: DomainId,
        fd: Fd,
        to: DomainId,
        given: Descriptor,
    ) -> Result<Fd, AllocError>
        requires { MayGiveFd by fd to given (state_of self.old) }
        ensures { Attempts (λ s. calls.give_fd s by fd to) self.old result self.new }
    {
        if by.number() == to.number() {
            return Ok(self.domains.move_fd(by, fd, given));
        }
        let number = self.domains.add_fd(to, given)?;
        self.domains.take_fd(by, fd);
        Ok(number)
    }

    /// Closes a descriptor.
    #[tactic(auto, using(crate::proofs::State::Stay::stay_rules))]
    pub fn close(&mut self, by: DomainId, fd: Fd) -> Result<(), Refusal>
        requires { IsSound (state_of self.old) }
        ensures close { KeepsPlaces (λ s. calls.close s by fd) self.old result self.new }
        ensures roomy { (p : ℕ) → result ≢ Err (Refusal.NoRoom p) }
    {
        let end = self.opened(by, fd)?;
        self.close_fd(by, fd, end);
        Ok(())
    }

    /// Closes an open descriptor, and the end that it is open on.
    #[tactic(auto, using(crate::proofs::AggregateCalls::Slices::held_rules))]
    fn close_fd(&mut self, by: DomainId, fd: Fd, end: Descriptor)
        requires { IsOpenOn self.old by fd end }
        ensures { Leaves (λ s. with_fds (closed_on s (Some end)) by (freed s by fd)) self.old
            self.new }
    {
        self.domains.take_fd(by, fd);
        self.close_end(end);
    }

    /// Closes an end of a pipe or a connection, on which no descriptor is open any more. For a file
    /// nothing is closed.
    pub(crate) fn close_end(&mut self, end: Descriptor)
        requires { IsLetGo (state_of self.old) end }
        ensures { Closes end (state_of self.old) (state_of self.new) }
    {
        match end {
            Descriptor::ReadEnd { pipe } => self.pipes.close_reader(&mut self.store, pipe),
            Descriptor::WriteEnd { pipe } => self.pipes.close_writer(&mut self.store, pipe),
            Descriptor::Connection { conn } => self.close_conn(conn),
            Descriptor::File { .. } => {}
        }
    }

    /// Closes a connection, on which no descriptor is open any more, and removes it if no bytes are
    /// left to send.
    fn close_conn(&mut self, conn: ConnId)
        requires { IsLetGo (state_of self.old) (Descriptor.Connection conn) }
        ensures { Closes (Descriptor.Connection conn) (state_of self.old) (state_of self.new) }
    {
        self.conns.close(&mut self.store, conn);
        self.reclaim(conn);
    }

    /// Accepts the first waiting connection whose pool the domain may read, under the domain's
    /// lowest free number.
    #[tactic(auto, using(crate::proofs::State::Stay::stay_rules))]
    pub fn accept(&mut self, by: DomainId) -> Result<Fd, Refusal>
        requires { IsSound (state_of self.old) }
        ensures { CarriesOut (λ s. calls.accept s by) self.old result self.new }
    {
        if !self.is_live(by) {
            return Err(Refusal::NoDomain);
        }
        if self.is_open_beyond(by, 1) {
            return Err(Refusal::TooMany);
        }
        let Some(conn) = self.first_waiting(by) else {
            return Err(Refusal::WouldBlock);
        };
        Ok(self.open_conn(by, conn)?)
    }

    /// The first waiting connection whose pool the domain may read.
    fn first_waiting(&self, by: DomainId) -> Option<ConnId>
        ensures { (f : Reading) → result ≡ calls.waiting (as_read f self.now) by }
    {
        self.conns.first_waiting(&self.store, by)
    }

    /// Opens a waiting connection in a domain.
    #[tactic(auto, using(crate::proofs::State::Stay::stay_rules, crate::proofs::AggregateCalls::Slices::held_rules))]
    fn open_conn(&mut self, by: DomainId, conn: ConnId) -> Result<Fd, AllocError>
        requires { MayAccept by conn (state_of self.old) }
        ensures { Attempts (λ s. calls.accept s by) self.old result self.new }
    {
        let number = self.domains.add_fd(by, Descriptor::Connection { conn })?;
        self.conns.accept(conn);
        Ok(number)
    }
}
