//! The queues of deadlines, one for each limit.
ghost use Rattle.std.specs.Prelude.{◌≡◌, ◌/◌, [], IfOk, max};
ghost use Rattle.iol_reactor.specs.Deadlines.{earlier_of, first_of};

use crate::deadlines::Deadlines;
use crate::limits::Limits;
use std::alloc::{AllocError, Global};

/// A client, by its place and its serial number: a place is used again, a serial number is not.
#[derive(Clone, Copy)]
pub struct Key {
    pub slot: usize,
    pub serial: u64,
}

/// The deadlines of all clients.
#[derive(Drop)]
pub struct Timers {
    pub silences: Deadlines<Key>,
    pub heads: Deadlines<Key>,
    pub rates: Deadlines<Key>,
    pub drains: Deadlines<Key>,
    pub parks: Deadlines<Key>,
}

// The number of checks of a limit during its time.
const LOOKS: u64 = 8;

// The time between two checks of a limit.
fn interval_of(millis: u64) -> u64
    ensures { result ≡ max (millis / LOOKS) 1 }
{
    (millis / LOOKS).max(1)
}

/// The earlier of two times, or the only one.
pub fn earlier(one: Option<u64>, other: Option<u64>) -> Option<u64>
    ensures { result ≡ earlier_of one other }
{
    match (one, other) {
        (Some(one), Some(other)) => Some(one.min(other)),
        (Some(one), None) => Some(one),
        (None, other) => other,
    }
}

impl Timers {
    /// No deadline yet, and memory for one of each kind for all clients.
    pub fn new(alloc: Global, limits: &Limits) -> Result<Timers, AllocError>
        ensures empty { IfOk result (λ timers. (timers.silences.entries.items ≡ [])
            × (timers.heads.entries.items ≡ []) × (timers.rates.entries.items ≡ [])
            × (timers.drains.entries.items ≡ []) × (timers.parks.entries.items ≡ [])) }
        ensures silences { IfOk result
            (λ timers. timers.silences.delay ≡ max (limits.now.idle_millis / LOOKS) 1) }
        ensures heads { IfOk result
            (λ timers. timers.heads.delay ≡ max (limits.now.head_millis / LOOKS) 1) }
        ensures rates { IfOk result (λ timers. timers.rates.delay ≡ limits.now.rate_millis) }
        ensures drains { IfOk result (λ timers. timers.drains.delay ≡ limits.now.drain_millis) }
        ensures parks { IfOk result (λ timers. timers.parks.delay ≡ limits.now.park_millis) }
    {
        let most = limits.max_clients;
        Ok(Timers {
            silences: Deadlines::new(alloc, interval_of(limits.idle_millis), most)?,
            heads: Deadlines::new(alloc, interval_of(limits.head_millis), most)?,
            rates: Deadlines::new(alloc, limits.rate_millis, most)?,
            drains: Deadlines::new(alloc, limits.drain_millis, most)?,
            parks: Deadlines::new(alloc, limits.park_millis, most)?,
        })
    }

    /// The first deadline.
    pub fn first(&self) -> Option<u64>
        ensures { result ≡ earlier_of (first_of self.now.silences.entries.items)
            (earlier_of (first_of self.now.heads.entries.items)
            (earlier_of (first_of self.now.rates.entries.items)
            (earlier_of (first_of self.now.drains.entries.items)
            (first_of self.now.parks.entries.items)))) }
    {
        let later = earlier(self.drains.first(), self.parks.first());
        let later = earlier(self.rates.first(), later);
        let later = earlier(self.heads.first(), later);
        earlier(self.silences.first(), later)
    }
}
