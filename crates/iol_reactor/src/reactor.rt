//! The loop: it polls the sockets, accepts clients, and lets the engine work.
ghost use Rattle.std.specs.Prelude.{◌≡◌, ◌≤◌, [], IfOk, Ok, OnOk, Some, length, true};
ghost use Rattle.iol_reactor.specs.Accepting.{StaysWithin};

use crate::accept::{Acceptor, Listener};
use crate::engine::Engine;
use crate::limits::{EVENTS, Limits, MAX_TURNS, RENEW_MILLIS};
use crate::service::Service;
use crate::turns::Stopwatch;
use iol_back::backing::Backing;
use iol_proc::process::Process;
use iol_proc::world::World;
use mio::event::Event;
use mio::net::{TcpListener, TcpStream};
use mio::{Events, Interest, Poll, Token};
use std::alloc::{AllocError, Global};
use std::io;
use std::io::ErrorKind;
use std::net::{Net, SocketAddr};
use std::rt::Clock;
use std::time::{Duration, Instant};

/// The token of the listener. Those of clients are their places.
const LISTENER: usize = usize::MAX;

/// A listener, its clients, and the worlds that serve them.
#[derive(Drop)]
pub struct Reactor<L, B: Backing, P: Process, V: Service<B, P>> {
    alloc: Global,
    poll: Poll,
    acceptor: Acceptor<L>,
    engine: Engine<TcpStream, B, P, V>,

    // When the service is asked for a new world.
    renew_at: u64,
}

impl<B: Backing + Drop, P: Process, V: Service<B, P>> Reactor<TcpListener, B, P, V> {
    /// Listens on an address.
    pub fn new(
        net: &impl Net,
        alloc: Global,
        address: SocketAddr,
        world: World<B, P>,
        limits: Limits,
    ) -> io::Result<Reactor<TcpListener, B, P, V>>
        requires { V.starts world }
        ensures left { IfOk result (λ reactor. reactor.acceptor.left ≡ limits.stop_after) }
        ensures world { IfOk result
            (λ reactor. reactor.engine.places.worlds.current.world ≡ world) }
        ensures limits { IfOk result (λ reactor. reactor.engine.limits ≡ limits) }
        ensures empty { IfOk result (λ reactor. reactor.engine.places.clients.items ≡ []) }
    {
        match listen(net, address) {
            Ok((listener, poll)) => {
                let acceptor = Acceptor::new(listener, limits.stop_after);
                Reactor::over(alloc, poll, acceptor, Engine::new(alloc, world, limits))
            }
            Err(error) => {
                drop(world);
                Err(error)
            }
        }
    }

    // A reactor of an engine, if there was memory for that.
    fn over(
        alloc: Global,
        poll: Poll,
        acceptor: Acceptor<TcpListener>,
        engine: Result<Engine<TcpStream, B, P, V>, AllocError>,
    ) -> io::Result<Reactor<TcpListener, B, P, V>>
        ensures acceptor { IfOk result (λ reactor. reactor.acceptor ≡ acceptor) }
        ensures engine { IfOk result (λ reactor. Ok reactor.engine ≡ engine) }
    {
        match engine {
            Ok(engine) => Ok(Reactor {
                alloc,
                poll,
                acceptor,
                engine,
                renew_at: RENEW_MILLIS,
            }),
            Err(error) => Err(io::Error::from(error)),
        }
    }

    /// The address that it listens on.
    pub fn local_addr(&self) -> io::Result<SocketAddr> {
        self.acceptor.listener.local_addr()
    }
}

impl<L, B, P, V> Reactor<L, B, P, V>
where
    L: Listener<TcpStream>,
    B: Backing + Drop,
    P: Process,
    V: Service<B, P>,
{
    /// Serves clients. It returns when the number of clients that `Limits::stop_after` gives have
    /// come and gone, or the sockets cannot be polled. It never accepts more.
    pub fn serve(&mut self, clock: &impl Clock, service: &mut V) -> io::Result<()>
        ensures accepts { StaysWithin (L.given self.old.acceptor.listener) self.old.acceptor.left
            (L.given self.new.acceptor.listener) self.new.acceptor.left }
        ensures done { OnOk result (self.new.acceptor.left ≡ Some 0) }
        ensures gone { OnOk result (length self.new.engine.places.clients.items
            ≤ length self.new.engine.free.items) }
    {
        let start = Instant::now(clock)?;
        let mut events = Events::with_capacity(self.alloc, EVENTS)?;
        for _ in 0..u64::MAX {
            if self.is_done() {
                return Ok(());
            }
            self.step(&mut events, &start, clock, service)?;
        }
        Err(io::Error::from(ErrorKind::TimedOut))
    }

    // One poll, and its consequences.
    fn step(
        &mut self,
        events: &mut Events<Global>,
        start: &Instant,
        clock: &impl Clock,
        service: &mut V,
    ) -> io::Result<()>
        ensures { StaysWithin (L.given self.old.acceptor.listener) self.old.acceptor.left
            (L.given self.new.acceptor.listener) self.new.acceptor.left }
    {
        let wait = self.wait();
        self.poll.poll(events, Some(wait))?;
        let now = start.elapsed(clock)?;
        self.engine.set_now(millis_of(now));
        self.note_all(events)?;
        self.turn(start, clock, service)
    }

    // Sockets were reported ready.
    fn note_all(&mut self, events: &Events<Global>) -> io::Result<()>
        ensures listener { self.new.acceptor.listener ≡ self.old.acceptor.listener }
        ensures left { self.new.acceptor.left ≡ self.old.acceptor.left }
    {
        for event in events {
            self.note(event)?;
        }
        Ok(())
    }

    // Whether all clients that may be accepted have come and gone.
    fn is_done(&self) -> bool
        ensures left { result ≡ true → self.now.acceptor.left ≡ Some 0 }
        ensures gone { result ≡ true → length self.now.engine.places.clients.items
            ≤ length self.now.engine.free.items }
    {
        self.acceptor.is_exhausted() && self.engine.count() == 0
    }

    // Whether a client may be waiting to be accepted, and there is a place for it.
    fn may_accept(&self) -> bool {
        self.acceptor.is_open() && self.engine.has_place()
    }

    // The timeout of the poll.
    fn wait(&self) -> Duration {
        if self.engine.is_busy() || self.may_accept() {
            return Duration::from_millis(0);
        }
        let mut first = self.renew_at;
        if let Some(at) = self.engine.first_deadline() {
            first = first.min(at);
        }
        if let Some(at) = self.acceptor.open_at() {
            first = first.min(at);
        }
        let now = self.engine.now();
        if first <= now {
            return Duration::from_millis(0);
        }
        Duration::from_millis(first.saturating_sub(now).saturating_add(1))
    }

    // A socket was reported ready.
    fn note(&mut self, event: &Event) -> io::Result<()>
        ensures listener { self.new.acceptor.listener ≡ self.old.acceptor.listener }
        ensures left { self.new.acceptor.left ≡ self.old.acceptor.left }
    {
        let Token(slot) = event.token();
        if slot == LISTENER {
            self.acceptor.open();
            return Ok(());
        }
        let has_failed = event.is_error() || event.is_write_closed();
        let ends = event.is_read_closed() || has_failed;
        self.engine
            .note(slot, event.is_readable(), ends, event.is_writable())?;
        Ok(())
    }

    // The work between two polls.
    fn turn(&mut self, start: &Instant, clock: &impl Clock, service: &mut V) -> io::Result<()>
        ensures { StaysWithin (L.given self.old.acceptor.listener) self.old.acceptor.left
            (L.given self.new.acceptor.listener) self.new.acceptor.left }
    {
        self.accept_all();
        self.check_accepting()?;
        if self.engine.begin_round(service)? {
            self.run(start, clock)?;
            self.engine.end_round(service)?;
        }
        self.engine.expire(service)?;
        self.renew(service);
        Ok(())
    }

    // The processes have turns until all are idle, or their time is over.
    fn run(&mut self, start: &Instant, clock: &impl Clock) -> io::Result<()>
        ensures listener { self.new.acceptor.listener ≡ self.old.acceptor.listener }
        ensures left { self.new.acceptor.left ≡ self.old.acceptor.left }
    {
        let began = start.elapsed(clock)?;
        let mut watch = Watch {
            start: *start,
            clock,
            began,
        };
        self.engine.take_turns(MAX_TURNS, &mut watch);
        Ok(())
    }

    // Fails if no client can be accepted, no client's end could make room, and the service is to
    // end in that case.
    fn check_accepting(&self) -> io::Result<()> {
        match self.acceptor.failure() {
            Some(kind) if self.engine.limits.ends_unaccepted && self.engine.count() == 0 => {
                Err(io::Error::from(kind))
            }
            _ => Ok(()),
        }
    }

    // Accepts those that wait, while there is a place.
    fn accept_all(&mut self)
        ensures { StaysWithin (L.given self.old.acceptor.listener) self.old.acceptor.left
            (L.given self.new.acceptor.listener) self.new.acceptor.left }
    {
        let now = self.engine.now();
        self.acceptor.reopen(now);
        for _ in 0..EVENTS {
            if !self.acceptor.is_open() {
                return;
            }
            let Some(slot) = self.engine.vacancy() else {
                self.wait_for_memory(now);
                return;
            };
            if let Some((stream, peer)) = self.acceptor.accept(now) {
                self.admit(slot, stream, peer);
            }
        }
    }

    // There was no vacancy: if that is for lack of memory, no client is accepted until some time
    // has passed.
    fn wait_for_memory(&mut self, now: u64)
        ensures listener { self.new.acceptor.listener ≡ self.old.acceptor.listener }
        ensures left { self.new.acceptor.left ≡ self.old.acceptor.left }
    {
        if self.engine.has_place() {
            self.acceptor.pause(now);
        }
    }

    // A client was accepted. If the system refuses to report on its socket, it ends at once.
    fn admit(&mut self, slot: usize, stream: TcpStream, peer: SocketAddr)
        ensures { self.new.acceptor ≡ self.old.acceptor }
    {
        let mut stream = stream;
        let both = Interest::READABLE | Interest::WRITABLE;
        let watched = self
            .poll
            .registry()
            .register(&mut stream, Token(slot), both);
        if watched.is_ok() && stream.set_nodelay(true).is_ok() {
            self.engine.admit(stream, peer);
        }
    }

    // If the time for that has come, lets the service write its records, and asks it for a new
    // world unless one is retiring.
    fn renew(&mut self, service: &mut V)
        ensures { self.new.acceptor ≡ self.old.acceptor }
    {
        let now = self.engine.now();
        if now < self.renew_at {
            return;
        }
        self.renew_at = now.saturating_add(RENEW_MILLIS);
        service.flush();
        let worlds = self.engine.worlds();
        if worlds.is_retiring() {
            return;
        }
        match service.renew(worlds.is_worn()) {
            Some(world) => self.engine.renew(world),
            None => {}
        }
    }
}

// A listener on an address, and a poll that reports it.
fn listen(net: &impl Net, address: SocketAddr) -> io::Result<(TcpListener, Poll)> {
    let mut listener = TcpListener::bind(net, address)?;
    let poll = Poll::new(net)?;
    poll.registry()
        .register(&mut listener, Token(LISTENER), Interest::READABLE)?;
    Ok((listener, poll))
}

// A time in milliseconds.
fn millis_of(time: Duration) -> u64 {
    time.as_secs()
        .saturating_mul(1000)
        .saturating_add(u64::from(time.subsec_millis()))
}

// The time since a run of turns began.
#[derive(Drop)]
struct Watch<'a, C: Clock> {
    start: Instant,
    clock: &'a C,
    began: Duration,
}

impl<'a, C: Clock> Stopwatch for Watch<'a, C> {
    // A clock that fails ends the run.
    fn micros(&mut self) -> u64 {
        match self.start.elapsed(self.clock) {
            Ok(now) => micros_of(now.saturating_sub(self.began)),
            Err(_) => u64::MAX,
        }
    }
}

// A time in microseconds.
fn micros_of(time: Duration) -> u64 {
    time.as_secs()
        .saturating_mul(1_000_000)
        .saturating_add(u64::from(time.subsec_micros()))
}
