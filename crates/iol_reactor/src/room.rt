//! Memory for all clients, which is reserved before the first comes.
ghost use Rattle.std.specs.Prelude.{◌≡◌, [], IfOk, length};

use crate::client::Client;
use crate::limits::{Limits, READ_BYTES};
use crate::links::Links;
use crate::marks::Marks;
use crate::outbox::Outbox;
use crate::steps::QUEUE;
use crate::timers::{Key, Timers};
use std::alloc::{AllocError, Global};
use std::collections::VecDeque;

/// The memory that an engine reserves before its first client.
#[derive(Drop)]
pub struct Room<S> {
    pub clients: Vec<Option<Client<S>>>,
    pub marks: Vec<Option<Marks>>,
    pub free: Vec<usize>,
    pub ready: Vec<usize>,
    pub pending: Vec<usize>,
    pub ready_before: Vec<usize>,
    pub pending_before: Vec<usize>,
    pub waiting: VecDeque<Key>,
    pub piece: Vec<u8>,
    pub outbox: Outbox,
    pub timers: Timers,
    pub links: Links,
}

impl<S: Drop> Room<S> {
    /// Room for as many clients as the limits allow.
    pub fn new(alloc: Global, limits: &Limits) -> Result<Room<S>, AllocError>
        ensures clients { IfOk result (λ room. room.clients.items ≡ []) }
        ensures free { IfOk result (λ room. room.free.items ≡ []) }
        ensures piece { IfOk result (λ room. length room.piece.items ≡ READ_BYTES) }
        ensures outbox { IfOk result (λ room. room.outbox.most ≡ QUEUE) }
    {
        let most = limits.max_clients;
        Ok(Room {
            clients: Vec::with_capacity(alloc, most)?,
            marks: Vec::with_capacity(alloc, most)?,
            free: Vec::with_capacity(alloc, most)?,
            ready: Vec::with_capacity(alloc, most)?,
            pending: Vec::with_capacity(alloc, most)?,
            ready_before: Vec::with_capacity(alloc, most)?,
            pending_before: Vec::with_capacity(alloc, most)?,
            waiting: VecDeque::with_capacity(alloc, most)?,
            piece: vec![in alloc; 0u8; READ_BYTES]?,
            outbox: Outbox::new(alloc, QUEUE as usize)?,
            timers: Timers::new(alloc, limits)?,
            links: Links::new(alloc, most)?,
        })
    }
}
