//! The clients that are accepted.
ghost use Rattle.std.specs.Prelude.{◌≡◌, ◌≢◌, ◌+◌, ◌-◌, ◌^◌, ◌||◌, ◌↔◌, ℕ, Option, Some, None};
ghost use Rattle.std.specs.Prelude.{true, false, min, if◌then◌else◌, IfNone, IfSome, IsTrue};
ghost use Rattle.iol_reactor.specs.Accepting.{Counts, Falls, StaysWithin, is_due};

use crate::limits::ACCEPT_MILLIS;
use mio::net::{TcpListener, TcpStream};
use std::io;
use std::io::ErrorKind;
use std::net::SocketAddr;

/// A source of clients that never blocks: if no client is waiting, it fails with `WouldBlock`.
pub trait Listener<S> {
    /// The number of clients that it gave, if known. For a listener of the system it is unknown.
    ghost given: { Self → Option ℕ } = { λ listener. None };

    /// The next client.
    fn accept_next(&mut self) -> io::Result<(S, SocketAddr)>
        ensures { Counts (given self.old) (given self.new) result };
}

impl Listener<TcpStream> for TcpListener {
    fn accept_next(&mut self) -> io::Result<(TcpStream, SocketAddr)> {
        self.accept()
    }
}

/// A listener, and the number of clients that may still be accepted.
#[derive(Drop)]
pub struct Acceptor<L> {
    pub listener: L,

    /// None: any number.
    pub left: Option<u32>,

    // Whether a client may wait to be accepted, when one is accepted again after a failure, and the
    // failure of this attempt.
    is_open: bool,
    open_at: Option<u64>,
    failure: Option<ErrorKind>,
}

impl<L> Acceptor<L> {
    /// A listener on which a client may wait.
    pub fn new(listener: L, left: Option<u32>) -> Acceptor<L>
        ensures listener { result.listener ≡ listener }
        ensures left { result.left ≡ left }
        ensures open { result.is_open ≡ true }
        ensures retried { result.open_at ≡ None }
        ensures failure { result.failure ≡ None }
    {
        Acceptor {
            listener,
            left,
            is_open: true,
            open_at: None,
            failure: None,
        }
    }

    /// Whether no more clients may be accepted.
    pub fn is_exhausted(&self) -> bool
        ensures { IsTrue result ↔ (self.now.left ≡ Some 0) }
    {
        self.left == Some(0)
    }

    /// Whether a client may wait to be accepted, and may be accepted.
    pub fn is_open(&self) -> bool
        ensures { IsTrue result ↔ (IsTrue self.now.is_open × (self.now.left ≢ Some 0)) }
    {
        self.is_open && self.left != Some(0)
    }

    /// The time of the next attempt of a listener that failed, if it failed.
    pub fn open_at(&self) -> Option<u64>
        ensures { result ≡ self.now.open_at }
    {
        self.open_at
    }

    /// How accepting failed in this attempt, if it did.
    pub fn failure(&self) -> Option<ErrorKind>
        ensures { result ≡ self.now.failure }
    {
        self.failure
    }

    /// No client is accepted until some time has passed.
    pub fn pause(&mut self, now: u64)
        ensures listener { self.new.listener ≡ self.old.listener }
        ensures left { self.new.left ≡ self.old.left }
        ensures failure { self.new.failure ≡ self.old.failure }
        ensures closed { self.new.is_open ≡ false }
        ensures retried { self.new.open_at ≡ Some (min (now + ACCEPT_MILLIS) (2 ^ 64 - 1)) }
    {
        self.is_open = false;
        self.open_at = Some(now.saturating_add(ACCEPT_MILLIS));
    }

    /// The listener was reported ready.
    pub fn open(&mut self)
        ensures listener { self.new.listener ≡ self.old.listener }
        ensures left { self.new.left ≡ self.old.left }
        ensures open { self.new.is_open ≡ true }
        ensures retried { self.new.open_at ≡ self.old.open_at }
        ensures failure { self.new.failure ≡ self.old.failure }
    {
        self.is_open = true;
    }

    /// A new attempt to accept clients begins. A listener that failed is retried after a delay.
    pub fn reopen(&mut self, now: u64)
        ensures listener { self.new.listener ≡ self.old.listener }
        ensures left { self.new.left ≡ self.old.left }
        ensures failure { self.new.failure ≡ None }
        ensures open { self.new.is_open ≡ (self.old.is_open || is_due self.old.open_at now) }
        ensures retried { self.new.open_at ≡
            (if is_due self.old.open_at now then None else self.old.open_at) }
    {
        self.failure = None;
        if let Some(at) = self.open_at {
            if at <= now {
                self.open_at = None;
                self.is_open = true;
            }
        }
    }

    /// The next client, if one waits and may be accepted.
    pub fn accept<S>(&mut self, now: u64) -> Option<(S, SocketAddr)>
    where
        L: Listener<S>,
        ensures within { StaysWithin (L.given self.old.listener) self.old.left
            (L.given self.new.listener) self.new.left }
        ensures counts { IfSome result (λ client. Falls self.old.left self.new.left) }
        ensures none { IfNone result (self.new.left ≡ self.old.left) }
        ensures closed { self.old.is_open ≡ false → (result ≡ None) × (self.new ≡ self.old) }
        ensures exhausted { self.old.left ≡ Some 0 → (result ≡ None) × (self.new ≡ self.old) }
    {
        if !self.is_open() {
            return None;
        }
        match self.listener.accept_next() {
            Ok(client) => {
                self.count();
                Some(client)
            }
            Err(e) => {
                self.refuse(e.kind(), now);
                None
            }
        }
    }

    // One more was accepted.
    fn count(&mut self)
        requires { self.old.left ≢ Some 0 }
        ensures listener { self.new.listener ≡ self.old.listener }
        ensures left { Falls self.old.left self.new.left }
    {
        if let Some(left) = self.left {
            self.left = Some(left - 1);
        }
    }

    // No client was accepted. A connection that broke before is no failure of the listener.
    fn refuse(&mut self, kind: ErrorKind, now: u64)
        ensures listener { self.new.listener ≡ self.old.listener }
        ensures left { self.new.left ≡ self.old.left }
        ensures aborted { kind ≡ ErrorKind.ConnectionAborted → self.new ≡ self.old }
        ensures interrupted { kind ≡ ErrorKind.Interrupted → self.new ≡ self.old }
        ensures empty { kind ≡ ErrorKind.WouldBlock →
            self.new ≡ record self.old { is_open = false } }
        ensures fails { kind ≢ ErrorKind.ConnectionAborted → kind ≢ ErrorKind.Interrupted →
            kind ≢ ErrorKind.WouldBlock → self.new ≡ record self.old {
              is_open = false;
              open_at = Some (min (now + ACCEPT_MILLIS) (2 ^ 64 - 1));
              failure = Some kind;
            } }
    {
        match kind {
            ErrorKind::ConnectionAborted | ErrorKind::Interrupted => {}
            ErrorKind::WouldBlock => self.is_open = false,
            _ => {
                self.failure = Some(kind);
                self.pause(now);
            }
        }
    }
}
