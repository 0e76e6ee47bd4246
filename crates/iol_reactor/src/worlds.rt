//! The world for new requests, and the one in which earlier requests finish.
ghost use Rattle.std.specs.Prelude.{◌≡◌, Bool, ◌++◌, ◌∷◌, ◌+◌, ◌==◌, List, ℕ, [], None, Some, true};
ghost use Rattle.std.specs.Prelude.{false, IfSome, IsNone, is_some, set, OnErr, OnOk, length, ◌<◌};
ghost use Rattle.std.specs.Prelude.{count_by, ◌≢◌, if◌then◌else◌, min, nat_le, ◌^◌, ◌-◌, ◌↔◌};
ghost use Rattle.std.specs.Io.KnownBytes.{Appends};
ghost use Rattle.iol_core.specs.declared.descriptors.How.TheVariants as how;
ghost use Rattle.iol_proc.specs.World.{copied};
ghost use Rattle.iol_sock.specs.Gathers.{IsCalled};
ghost use Rattle.iol_reactor.specs.Connections.{is_earlier, link_at};
ghost use Rattle.iol_reactor.specs.Visits.{HasVisited};
ghost use Rattle.iol_reactor.specs.LinkVisits.{IsOver, LinksStay, SlotProceeds, serving};
ghost use Rattle.iol_reactor.specs.LinkSteps.{ReportsEnd, WorldsTurnAt};

use crate::host::Host;
use crate::limits::WORN_CONNECTION;
use crate::links::{Link, Links};
use crate::outbox::Outbox;
use crate::service::Service;
use iol_back::backing::Backing;
use iol_proc::activity::Activity;
use iol_proc::process::Process;
use iol_proc::world::World;
use iol_sock::{Drained, Gather};
use std::alloc::AllocError;
use std::mem;

/// How the output of a client's connection was collected.
#[derive(Clone, Copy, Debug, PartialEq, Eq)]
pub enum Collected {
    /// This number of bytes was moved.
    Bytes(u32),

    /// The processes have closed the connection.
    Closed,

    /// There is no connection, or its world no longer serves.
    Gone,
}

/// How the output of a client's connection was offered to a taker.
#[derive(Clone, Copy, Debug, PartialEq, Eq)]
pub enum Offered {
    /// It took all, this number of bytes.
    All(u32),

    /// It took this number of bytes, and not the next ones.
    Part(u32),

    /// The processes have closed the connection.
    Closed,

    /// There is no connection, or its world no longer serves.
    Gone,
}

/// The worlds, and the connections that clients have in them.
#[derive(Drop)]
pub struct Worlds<B: Backing, P: Process, V: Service<B, P>> {
    links: Links,
    current: Host<B, P, V>,
    is_worn: bool,

    // The world before, while a client has a connection of an earlier world.
    retiring: Option<Host<B, P, V>>,
}

impl<B: Backing + Drop, P: Process, V: Service<B, P>> Worlds<B, P, V> {
    /// No client has a connection.
    pub fn new(world: World<B, P>, links: Links) -> Worlds<B, P, V>
        requires { V.starts world }
        ensures world { result.current.world ≡ world }
        ensures alone { result.retiring ≡ None }
        ensures links { result.links ≡ links }
        ensures worn { result.is_worn ≡ false }
    {
        Worlds {
            links,
            current: Host::new(world),
            is_worn: false,
            retiring: None,
        }
    }

    /// Adds a place for a client.
    pub fn add_place(&mut self) -> Result<(), AllocError>
        ensures table { OnOk result (self.new.links.table.items ≡
            self.old.links.table.items ++ None ∷ []) }
        ensures err { OnErr result (self.new.links.table.items ≡ self.old.links.table.items) }
        ensures visits { LinksStay P.turns V.starts V.POOL
            (serving self.old.links.generation self.old.current.world
            (λ h. h.world) self.old.retiring)
            (serving self.new.links.generation self.new.current.world
            (λ h. h.world) self.new.retiring) }
        ensures serves { is_some self.new.retiring ≡ is_some self.old.retiring }
    {
        self.links.add_place()
    }

    /// The number of clients that have a connection.
    pub fn links(&self) -> usize
        ensures { result ≡ count_by is_some self.now.links.table.items }
    {
        self.links.count()
    }

    /// Whether the client in this place has a connection.
    pub fn has_link(&self, slot: usize) -> bool
        ensures { result ≡ is_some (link_at self.now.links.table.items slot) }
    {
        self.links.get(slot).is_some()
    }

    /// Whether the client in this place has a connection of an earlier world.
    pub fn is_outdated(&self, slot: usize) -> bool
        ensures { result ≡ is_earlier self.now.links.generation
            (link_at self.now.links.table.items slot) }
    {
        match self.links.get(slot) {
            Some(link) => !self.links.is_current(link),
            None => false,
        }
    }

    /// Whether the connection numbers of the current world are nearly used up.
    pub fn is_worn(&self) -> bool
        ensures { result ≡ self.now.is_worn }
    {
        self.is_worn
    }

    /// Whether requests finish in the world before the current one.
    pub fn is_retiring(&self) -> bool
        ensures { result ≡ is_some self.now.retiring }
    {
        self.retiring.is_some()
    }

    /// New requests go to this world from now on, and those in progress finish in the present one.
    /// A world that is still retiring is dropped. After 2^64 - 1 renewals the new world is dropped,
    /// and nothing changes.
    pub fn renew(&mut self, world: World<B, P>)
        requires { V.starts world }
        ensures takes { self.old.links.generation < 18446744073709551615 →
            self.new.current.world ≡ world }
        ensures retires { self.old.links.generation < 18446744073709551615 →
            self.new.retiring ≡ (if count_by is_some self.old.links.table.items == 0
            then None
            else Some self.old.current) }
        ensures full { self.old.links.generation ≡ 18446744073709551615 → self.new ≡ self.old }
        ensures worn { self.old.links.generation < 18446744073709551615 →
            self.new.is_worn ≡ false }
        ensures table { self.new.links.table.items ≡ self.old.links.table.items }
        ensures visits { LinksStay P.turns V.starts V.POOL
            (serving self.old.links.generation self.old.current.world
            (λ h. h.world) self.old.retiring)
            (serving self.new.links.generation self.new.current.world
            (λ h. h.world) self.new.retiring) }
    {
        if !self.links.renew() {
            drop(world);
            return;
        }
        let next = Host::new(world);
        let before = mem::replace(&mut self.current, next);
        self.is_worn = false;
        drop(self.retiring.replace(before));
        self.retire();
    }

    // Drops the world before, if no client has a connection of an earlier world.
    fn retire(&mut self)
        ensures current { self.new.current ≡ self.old.current }
        ensures worn { self.new.is_worn ≡ self.old.is_worn }
        ensures retiring { self.new.retiring ≡
            (if count_by (is_earlier self.old.links.generation) self.old.links.table.items == 0
            then None
            else self.old.retiring) }
        ensures links { self.new.links ≡ self.old.links }
        ensures visits { LinksStay P.turns V.starts V.POOL
            (serving self.old.links.generation self.old.current.world
            (λ h. h.world) self.old.retiring)
            (serving self.new.links.generation self.new.current.world
            (λ h. h.world) self.new.retiring) }
    {
        if self.links.earlier_count() == 0 {
            drop(self.retiring.take());
        }
    }

    /// The client at this index, which has no connection, gets a new one of the current world, if
    /// there is room for it.
    pub fn connect(&mut self, slot: usize) -> bool
        ensures begun { result ≡ true → ((c : ℕ) × (link_at self.new.links.table.items slot ≡
            Some (record { conn = c; generation = self.new.links.generation }))
            × ∥ HasVisited P.turns V.starts V.POOL c [] [] false self.new.current.world ∥₁) }
        ensures worn { result ≡ true → IfSome (link_at self.new.links.table.items slot)
            (λ l. self.new.is_worn ≡ nat_le WORN_CONNECTION l.conn) }
        ensures given { result ≡ true → (c : ℕ) × (self.new.links.table.items ≡ set
            self.old.links.table.items slot
            (Some (record { conn = c; generation = self.new.links.generation }))) }
        ensures refused { result ≡ false →
            self.new.links.table.items ≡ self.old.links.table.items }
        ensures visits { LinksStay P.turns V.starts V.POOL
            (serving self.old.links.generation self.old.current.world
            (λ h. h.world) self.old.retiring)
            (serving self.new.links.generation self.new.current.world
            (λ h. h.world) self.new.retiring) }
        ensures serves { is_some self.new.retiring ≡ is_some self.old.retiring }
    {
        let Some(conn) = self.current.connect() else {
            return false;
        };
        self.is_worn = conn.number() >= WORN_CONNECTION;
        self.links.give(slot, conn)
    }

    /// The client in this place gives up its connection, if it has one.
    pub fn release(&mut self, slot: usize)
        ensures table { self.new.links.table.items ≡ set self.old.links.table.items slot None }
        ensures generation { self.new.links.generation ≡ self.old.links.generation }
        ensures current { self.new.current ≡ self.old.current }
        ensures serves { count_by (is_earlier self.new.links.generation) self.new.links.table.items
            ≢ 0 → self.new.retiring ≡ self.old.retiring }
        ensures visits { LinksStay P.turns V.starts V.POOL
            (serving self.old.links.generation self.old.current.world
            (λ h. h.world) self.old.retiring)
            (serving self.new.links.generation self.new.current.world
            (λ h. h.world) self.new.retiring) }
        ensures ends { IfSome (link_at self.old.links.table.items slot)
            (λ l. (l.generation == self.old.links.generation) ≡ false →
            count_by (is_earlier self.new.links.generation) self.new.links.table.items ≡ 0 →
            self.new.retiring ≡ None) }
    {
        let Some(link) = self.links.take(slot) else {
            return;
        };
        if !self.links.is_current(link) {
            self.retire();
        }
    }

    /// The number of processes of both worlds.
    pub fn processes(&self) -> usize
        ensures alone { self.now.retiring ≡ None →
            result ≡ length self.now.current.world.process_slots }
        ensures both { IfSome self.now.retiring (λ h. result ≡
            min (length self.now.current.world.process_slots + length h.world.process_slots)
            (2 ^ 64 - 1)) }
    {
        let earlier = match &self.retiring {
            Some(world) => world.processes(),
            None => 0,
        };
        self.current.processes().saturating_add(earlier)
    }

    /// Gives a turn to the process at an index, and returns its activity. The processes of the
    /// current world come first. None: there is no process at this index.
    pub fn turn_at(&mut self, place: usize) -> Option<Activity>
        ensures turn { WorldsTurnAt P.turns place result
            (serving self.old.links.generation self.old.current.world
            (λ h. h.world) self.old.retiring)
            (serving self.new.links.generation self.new.current.world
            (λ h. h.world) self.new.retiring) }
        ensures links { self.new.links ≡ self.old.links }
        ensures visits { LinksStay P.turns V.starts V.POOL
            (serving self.old.links.generation self.old.current.world
            (λ h. h.world) self.old.retiring)
            (serving self.new.links.generation self.new.current.world
            (λ h. h.world) self.new.retiring) }
    {
        let current = self.current.processes();
        if place < current {
            return self.current.turn_at(place);
        }
        match &mut self.retiring {
            Some(world) => world.turn_at(place.saturating_sub(current)),
            None => None,
        }
    }

    /// The client in this place sends no more on its connection.
    pub fn close(&mut self, slot: usize)
        ensures reported { ReportsEnd P.turns (link_at self.old.links.table.items slot) how.Done
            (serving self.old.links.generation self.old.current.world
            (λ h. h.world) self.old.retiring)
            (serving self.new.links.generation self.new.current.world
            (λ h. h.world) self.new.retiring) }
        ensures links { self.new.links ≡ self.old.links }
        ensures visits { SlotProceeds P.turns V.starts V.POOL
            (link_at self.old.links.table.items slot) [] [] false
            (serving self.old.links.generation self.old.current.world
            (λ h. h.world) self.old.retiring)
            (serving self.new.links.generation self.new.current.world
            (λ h. h.world) self.new.retiring) }
        ensures serves { is_some self.new.retiring ≡ is_some self.old.retiring }
    {
        let Some(link) = self.links.get(slot) else {
            return;
        };
        let is_current = self.links.is_current(link);
        let conn = link.conn();
        if is_current {
            self.current.close(conn);
        } else if self.links.is_before(link) {
            if let Some(world) = &mut self.retiring {
                world.close(conn);
            }
        }
    }

    /// The client at this index is gone, which is reported to the processes of its connection.
    pub fn hang_up(&mut self, slot: usize)
        ensures reported { ReportsEnd P.turns (link_at self.old.links.table.items slot) how.Gone
            (serving self.old.links.generation self.old.current.world
            (λ h. h.world) self.old.retiring)
            (serving self.new.links.generation self.new.current.world
            (λ h. h.world) self.new.retiring) }
        ensures links { self.new.links ≡ self.old.links }
        ensures visits { (gone : Bool) × SlotProceeds P.turns V.starts V.POOL
            (link_at self.old.links.table.items slot) [] [] gone
            (serving self.old.links.generation self.old.current.world
            (λ h. h.world) self.old.retiring)
            (serving self.new.links.generation self.new.current.world
            (λ h. h.world) self.new.retiring) }
        ensures serves { is_some self.new.retiring ≡ is_some self.old.retiring }
    {
        let Some(link) = self.links.get(slot) else {
            return;
        };
        let is_current = self.links.is_current(link);
        let conn = link.conn();
        if is_current {
            self.current.hang_up(conn);
        } else if self.links.is_before(link) {
            if let Some(world) = &mut self.retiring {
                world.hang_up(conn);
            }
        }
    }

    /// Whether the client in this place has a connection that the processes have closed.
    pub fn is_over(&mut self, slot: usize) -> bool
        ensures over { result ≡ true → IsOver (link_at self.old.links.table.items slot)
            (serving self.new.links.generation self.new.current.world
            (λ h. h.world) self.new.retiring) }
        ensures open { result ≡ false → IsOver (link_at self.old.links.table.items slot)
            (serving self.new.links.generation self.new.current.world
            (λ h. h.world) self.new.retiring) → ⊥ }
        ensures links { self.new.links ≡ self.old.links }
        ensures visits { LinksStay P.turns V.starts V.POOL
            (serving self.old.links.generation self.old.current.world
            (λ h. h.world) self.old.retiring)
            (serving self.new.links.generation self.new.current.world
            (λ h. h.world) self.new.retiring) }
        ensures serves { is_some self.new.retiring ≡ is_some self.old.retiring }
        ensures current { copied self.new.current.world ≡ copied self.old.current.world }
        ensures retiring { IfSome self.old.retiring (λ h. IfSome self.new.retiring
            (λ k. copied k.world ≡ copied h.world)) }
    {
        let Some(link) = self.links.get(slot) else {
            return false;
        };
        let conn = link.conn();
        if self.links.is_current(link) {
            return self.current.is_over(conn);
        }
        if !self.links.is_before(link) {
            return false;
        }
        match &mut self.retiring {
            Some(world) => world.is_over(conn),
            None => false,
        }
    }

    /// Bytes arrive on the connection of the client at this index, as many as fit. Returns the
    /// rest.
    pub fn hand_in<'b>(&mut self, slot: usize, bytes: &'b [u8]) -> &'b [u8]
        ensures links { self.new.links ≡ self.old.links }
        ensures visits { (came : List ℕ) × (bytes.now ≡ came ++ result.now)
            × SlotProceeds P.turns V.starts V.POOL
            (link_at self.old.links.table.items slot) came [] false
            (serving self.old.links.generation self.old.current.world
            (λ h. h.world) self.old.retiring)
            (serving self.new.links.generation self.new.current.world
            (λ h. h.world) self.new.retiring) }
        ensures serves { is_some self.new.retiring ≡ is_some self.old.retiring }
    {
        let Some(link) = self.links.get(slot) else {
            return bytes;
        };
        let conn = link.conn();
        if self.links.is_current(link) {
            return self.current.hand_in(conn, bytes);
        }
        if !self.links.is_before(link) {
            return bytes;
        }
        match &mut self.retiring {
            Some(world) => world.hand_in(conn, bytes),
            None => bytes,
        }
    }

    /// Moves the queued output of the connection of the client at this index into the outbox, at
    /// most this number of bytes.
    pub fn collect(&mut self, slot: usize, outbox: &mut Outbox, most: u32) -> Collected
        ensures links { self.new.links ≡ self.old.links }
        ensures visits { (sent : List ℕ) × (outbox.new.bytes.items ≡ outbox.old.bytes.items ++ sent)
            × SlotProceeds P.turns V.starts V.POOL
            (link_at self.old.links.table.items slot) [] sent false
            (serving self.old.links.generation self.old.current.world
            (λ h. h.world) self.old.retiring)
            (serving self.new.links.generation self.new.current.world
            (λ h. h.world) self.new.retiring) }
        ensures over { result ≡ Collected.Closed →
            IsOver (link_at self.old.links.table.items slot)
            (serving self.new.links.generation self.new.current.world
            (λ h. h.world) self.new.retiring) }
        ensures serves { is_some self.new.retiring ≡ is_some self.old.retiring }
    {
        let Some(link) = self.links.get(slot) else {
            return Collected::Gone;
        };
        let conn = link.conn();
        if self.links.is_current(link) {
            return outcome_of(self.current.collect(conn, outbox, most));
        }
        if !self.links.is_before(link) {
            return Collected::Gone;
        }
        match &mut self.retiring {
            Some(world) => outcome_of(world.collect(conn, outbox, most)),
            None => Collected::Gone,
        }
    }

    /// Offers the queued output of the connection of the client at this index to a taker, at most
    /// this number of bytes.
    pub fn offer<G: Gather>(&mut self, slot: usize, taker: &mut G, most: u32) -> Offered
        ensures links { self.new.links ≡ self.old.links }
        ensures visits { (sent : List ℕ)
            × Appends (G.contents taker.old) (G.contents taker.new) sent
            × SlotProceeds P.turns V.starts V.POOL
            (link_at self.old.links.table.items slot) [] sent false
            (serving self.old.links.generation self.old.current.world
            (λ h. h.world) self.old.retiring)
            (serving self.new.links.generation self.new.current.world
            (λ h. h.world) self.new.retiring) }
        ensures calls { IsCalled G.gathers taker.old taker.new }
        ensures over { result ≡ Offered.Closed →
            IsOver (link_at self.old.links.table.items slot)
            (serving self.new.links.generation self.new.current.world
            (λ h. h.world) self.new.retiring) }
        ensures serves { is_some self.new.retiring ≡ is_some self.old.retiring }
    {
        let Some(link) = self.links.get(slot) else {
            return Offered::Gone;
        };
        let conn = link.conn();
        if self.links.is_current(link) {
            return offered_of(self.current.offer(conn, taker, most));
        }
        if !self.links.is_before(link) {
            return Offered::Gone;
        }
        match &mut self.retiring {
            Some(world) => offered_of(world.offer(conn, taker, most)),
            None => Offered::Gone,
        }
    }
}

// How the output of a connection was offered. None: it was closed.
fn offered_of(drained: Option<Drained>) -> Offered
    ensures closed { (result ≡ Offered.Closed) ↔ IsNone drained }
    ensures taken { IfSome drained (λ d. result ≡
        (if d.failed then Offered.Part d.taken else Offered.All d.taken)) }
{
    match drained {
        Some(drained) if drained.failed => Offered::Part(drained.taken),
        Some(drained) => Offered::All(drained.taken),
        None => Offered::Closed,
    }
}

// How the output of a connection was collected. None: it was closed.
fn outcome_of(taken: Option<u32>) -> Collected
    ensures closed { (result ≡ Collected.Closed) ↔ IsNone taken }
    ensures bytes { IfSome taken (λ count. result ≡ Collected.Bytes count) }
{
    match taken {
        Some(count) => Collected::Bytes(count),
        None => Collected::Closed,
    }
}
