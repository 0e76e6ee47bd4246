//! Connections, and how they end.
ghost use Rattle.std.specs.Prelude.{◌≡◌, true, is_none, is_some, ◌||◌, ◌≤◌};
ghost use Rattle.iol_core.specs.Prelude.{is_gone};
ghost use Rattle.iol_hold.specs.Prelude.{Covers, byte_len, bufs_of};
ghost use Rattle.iol_pipe.specs.Prelude.{first_pool};
ghost use Rattle.iol_sock.specs.Calls.{Closes, ClosesPeer, ReleasesBoth};
ghost use Rattle.iol_sock.specs.Connections.{held_by, is_over, new_conn};

use iol_core::descriptors::How;
use iol_core::limits::MAX_QUEUE_BYTES;
use iol_core::numbers::PoolId;
use iol_hold::Store;
use iol_pipe::Pipe;
use std::alloc::Global;
use std::marker::Model;

/// A connection: a queue of received bytes, a queue of bytes to be sent, and the state of both
/// ends.
#[derive(Drop)]
pub struct Connection {
    pub(crate) pool: PoolId,
    pub(crate) incoming: Pipe,
    pub(crate) outgoing: Pipe,
    accepted: bool,
    closed: bool,
    peer: Option<How>,
}

impl Model for Connection {
    ghost use Rattle.std.specs.Prelude.{List};
    ghost use Rattle.iol_hold.specs.declared.slices.Slice.{Slice};
    ghost use Rattle.iol_sock.specs.Connections.{Conn};

    ghost Value = { Conn (List Slice) };

    ghost view = { λ c. record {
      pool = c.pool;
      incoming = c.incoming;
      outgoing = c.outgoing;
      accepted = c.accepted;
      closed = c.closed;
      peer = c.peer;
    } };
}

impl Connection {
    /// A connection that waits to be accepted. Bytes that arrive on it will be stored in the pool.
    pub fn new(alloc: Global, pool: PoolId) -> Connection
        ensures { result ≡ new_conn pool }
    {
        Connection {
            pool,
            incoming: Pipe::new(alloc),
            outgoing: Pipe::new(alloc),
            accepted: false,
            closed: false,
            peer: None,
        }
    }

    /// The pool of arriving bytes.
    pub fn pool(&self) -> PoolId
        ensures { result ≡ self.now.pool }
    {
        self.pool
    }

    /// The number of bytes received and not yet read.
    pub fn unread(&self) -> u32
        ensures len { result ≡ byte_len self.now.incoming }
        ensures most { result ≤ MAX_QUEUE_BYTES }
    {
        self.incoming.len()
    }

    /// The number of bytes to be sent.
    pub fn unsent(&self) -> u32
        ensures len { result ≡ byte_len self.now.outgoing }
        ensures most { result ≤ MAX_QUEUE_BYTES }
    {
        self.outgoing.len()
    }

    /// The pool of the first byte to be read, if there is one.
    pub fn first_pool(&self) -> Option<PoolId>
        ensures { result ≡ first_pool self.now.incoming }
    {
        self.incoming.first_pool()
    }

    /// Whether a domain accepted it.
    pub fn is_accepted(&self) -> bool
        ensures { result ≡ self.now.accepted }
    {
        self.accepted
    }

    /// Whether its peer may still send.
    pub fn may_grow(&self) -> bool
        ensures { result ≡ is_none self.now.peer }
    {
        self.peer.is_none()
    }

    /// Whether its peer takes no more bytes.
    pub fn is_gone(&self) -> bool
        ensures { result ≡ is_gone self.now.peer }
    {
        match self.peer {
            None | Some(How::Done) => false,
            Some(How::Gone) => true,
        }
    }

    /// Whether no more bytes may arrive: its peer sends no more, or its domain closed it.
    pub fn is_ended(&self) -> bool
        ensures { result ≡ (is_some self.now.peer || self.now.closed) }
    {
        self.peer.is_some() || self.closed
    }

    /// Whether it can be forgotten: nothing is left to send, and it was closed, or was never
    /// accepted and its peer is gone. It may still have unread bytes, so it ends by
    /// [`release`](Connection::release).
    pub fn is_over(&self) -> bool
        ensures { result ≡ is_over self.now }
    {
        self.unsent() == 0 && (self.closed || (!self.accepted && self.is_gone()))
    }

    /// A domain accepts it.
    pub fn accept(&mut self)
        ensures { self.new ≡ record self.old { accepted = true } }
    {
        self.accepted = true;
    }

    /// The peer sends no more, or also takes no more. Bytes to be sent to a peer that is gone are
    /// dropped.
    pub fn peer_closed(&mut self, store: &mut Store, how: How)
        requires { Covers store.old (bufs_of self.old.outgoing) }
        ensures { ClosesPeer store.old store.new self.old self.new how }
    {
        match how {
            How::Done => {
                if !self.is_gone() {
                    self.peer = Some(How::Done);
                }
            }
            How::Gone => {
                self.outgoing.clear(store);
                self.peer = Some(How::Gone);
            }
        }
    }

    /// The domain closes it. Unread bytes are dropped, and bytes to be sent stay queued.
    pub fn close(&mut self, store: &mut Store)
        requires { Covers store.old (bufs_of self.old.incoming) }
        ensures { Closes store.old store.new self.old self.new }
    {
        self.incoming.clear(store);
        self.closed = true;
    }

    /// Releases all its references, and ends it.
    pub fn release(self, store: &mut Store)
        requires { Covers store.old (held_by self) }
        ensures { ReleasesBoth store.old store.new self.incoming self.outgoing }
    {
        let Connection {
            mut incoming,
            mut outgoing,
            ..
        } = self;
        incoming.clear(store);
        outgoing.clear(store);
    }
}
