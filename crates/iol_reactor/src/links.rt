//! The connections of clients.
ghost use Rattle.std.specs.Prelude.{◌≡◌, ◌+◌, ◌++◌, ◌∷◌, ◌==◌, [], None, Some, true, false, set};
ghost use Rattle.std.specs.Prelude.{IfOk, OnErr, OnOk, ◌<◌, ◌≤◌, ◌⊎◌, count_by, is_some, length};
ghost use Rattle.std.specs.Prelude.{if◌then◌else◌};
ghost use Rattle.iol_reactor.specs.Connections.{AreApart, HaveCome, is_current, is_earlier};
ghost use Rattle.iol_reactor.specs.Connections.{link_at};

use iol_core::numbers::ConnId;
use std::alloc::{AllocError, Global};

/// A connection of a world.
#[derive(Clone, Copy, Debug, PartialEq, Eq)]
pub struct Link {
    conn: ConnId,

    // The number of its world, in order of creation.
    generation: u64,
}

impl Link {
    /// Its number in its world.
    pub fn conn(&self) -> ConnId
        ensures { result ≡ self.now.conn }
    {
        self.conn
    }
}

/// The connection of each client that has one, by the client's index. No two clients have the
/// same.
#[derive(Drop)]
pub struct Links {
    table: Vec<Option<Link>>,

    // The number of the current world, and the last of its connections that a client got, or 0.
    generation: u64,
    last: u32,

    // The number of clients with a connection of the current world, and of an earlier one.
    current_count: usize,
    earlier_count: usize,
    ghost apart: { AreApart table.items },
    ghost came: { HaveCome generation last table.items },
    ghost counted: { current_count ≡ count_by (is_current generation) table.items },
    ghost earlier: { earlier_count ≡ count_by (is_earlier generation) table.items },
}

impl Links {
    /// No client has a connection. There is memory for this number of places.
    pub fn new(alloc: Global, places: usize) -> Result<Links, AllocError>
        ensures empty { IfOk result (λ links. links.table.items ≡ []) }
        ensures first { IfOk result (λ links. links.generation ≡ 0) }
        ensures last { IfOk result (λ links. links.last ≡ 0) }
    {
        Ok(Links {
            table: Vec::with_capacity(alloc, places)?,
            generation: 0,
            last: 0,
            current_count: 0,
            earlier_count: 0,
        })
    }

    /// Adds a place, in which no client is yet.
    pub fn add_place(&mut self) -> Result<(), AllocError>
        ensures current { self.new.generation ≡ self.old.generation }
        ensures table { OnOk result (self.new.table.items ≡ self.old.table.items ++ None ∷ []) }
        ensures err { OnErr result (self.new.table.items ≡ self.old.table.items) }
        ensures last { self.new.last ≡ self.old.last }
    {
        self.table.push(None)?;
        Ok(())
    }

    /// The number of clients that have a connection.
    pub fn count(&self) -> usize
        ensures { result ≡ count_by is_some self.now.table.items }
    {
        let _places = self.table.len();
        self.current_count.saturating_add(self.earlier_count)
    }

    /// The number of clients that have a connection of an earlier world.
    pub fn earlier_count(&self) -> usize
        ensures { result ≡ count_by (is_earlier self.now.generation) self.now.table.items }
    {
        self.earlier_count
    }

    /// The connection of the client in this place.
    pub fn get(&self, slot: usize) -> Option<Link>
        ensures { result ≡ link_at self.now.table.items slot }
    {
        match self.table.get(slot) {
            Some(link) => *link,
            None => None,
        }
    }

    /// Whether a connection is of the current world.
    pub fn is_current(&self, link: Link) -> bool
        ensures { result ≡ (link.generation == self.now.generation) }
    {
        link.generation == self.generation
    }

    /// Whether a connection is of the world before the current one.
    pub fn is_before(&self, link: Link) -> bool
        ensures { result ≡ (link.generation + 1 == self.now.generation) }
    {
        let generation = self.generation;
        match link.generation.checked_add(1) {
            Some(next) => next == generation,
            None => false,
        }
    }

    /// The client at this index has this connection of the current world from now on. False: it
    /// cannot have it, since it has one, since there is no such place, or since connections of a
    /// world have ascending numbers.
    pub fn give(&mut self, slot: usize, conn: ConnId) -> bool
        ensures current { self.new.generation ≡ self.old.generation }
        ensures given { result ≡ true → self.new.table.items ≡ set self.old.table.items slot
            (Some (record { conn = conn; generation = self.old.generation })) }
        ensures at { result ≡ true → link_at self.new.table.items slot ≡
            Some (record { conn = conn; generation = self.old.generation }) }
        ensures refused { result ≡ false → self.new ≡ self.old }
        ensures reason { result ≡ false → (conn ≤ self.old.last)
            ⊎ ((length self.old.table.items ≤ slot)
            ⊎ (is_some (link_at self.old.table.items slot) ≡ true)) }
        ensures last { result ≡ true → self.new.last ≡ conn }
    {
        let number = conn.number();
        if number <= self.last {
            return false;
        }
        if slot >= self.table.len() || self.get(slot).is_some() {
            return false;
        }
        let generation = self.generation;
        self.table[slot] = Some(Link { conn, generation });
        self.last = number;
        self.current_count = self.current_count.saturating_add(1);
        true
    }

    /// The client at this index gives up its connection. Returns the connection that it had.
    pub fn take(&mut self, slot: usize) -> Option<Link>
        ensures current { self.new.generation ≡ self.old.generation }
        ensures taken { result ≡ link_at self.old.table.items slot }
        ensures last { self.new.last ≡ self.old.last }
        ensures table { self.new.table.items ≡ set self.old.table.items slot None }
    {
        let taken = self.get(slot);
        let current = count_current(&taken, self.generation);
        let earlier = count_earlier(&taken, self.generation);
        self.current_count = self.current_count.saturating_sub(current);
        self.earlier_count = self.earlier_count.saturating_sub(earlier);
        if slot < self.table.len() {
            self.table[slot] = None;
        }
        taken
    }

    /// A new world is the current one. False: there were too many.
    pub fn renew(&mut self) -> bool
        ensures same { self.new.table.items ≡ self.old.table.items }
        ensures current { result ≡ true → self.new.generation ≡ self.old.generation + 1 }
        ensures refused { result ≡ false → self.new ≡ self.old }
        ensures full { result ≡ false → self.old.generation ≡ 18446744073709551615 }
        ensures room { result ≡ true → self.old.generation < 18446744073709551615 }
        ensures last { result ≡ true → self.new.last ≡ 0 }
        ensures earlier { result ≡ true →
            count_by (is_earlier self.new.generation) self.new.table.items ≡
            count_by is_some self.old.table.items }
    {
        if self.generation == u64::MAX {
            return false;
        }
        let _places = self.table.len();
        self.generation += 1;
        self.last = 0;
        self.earlier_count = self.earlier_count.saturating_add(self.current_count);
        self.current_count = 0;
        true
    }
}

// 1 if a client has a connection of the current world, else 0.
fn count_current(link: &Option<Link>, generation: u64) -> usize
    ensures { result ≡ (if is_current generation link.now then 1 else 0) }
{
    match link {
        Some(link) if link.generation == generation => 1,
        _ => 0,
    }
}

// 1 if a client has a connection of an earlier world, else 0.
fn count_earlier(link: &Option<Link>, generation: u64) -> usize
    ensures { result ≡ (if is_earlier generation link.now then 1 else 0) }
{
    match link {
        Some(link) if link.generation != generation => 1,
        _ => 0,
    }
}
