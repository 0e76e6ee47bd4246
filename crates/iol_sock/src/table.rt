//! The table of live connections.
ghost use Rattle.std.specs.Prelude.{◌≡◌, ◌≢◌, ◌+◌, ◌<◌, ◌≤◌, [], ◌∷◌, ◌++◌, length, find};
ghost use Rattle.std.specs.Prelude.{false, None, Some, option_map, OnOk, OnErr};
ghost use Rattle.std.specs.Option.{option_copied};
ghost use Rattle.iol_core.specs.Prelude.{lookup, without};
ghost use Rattle.std.specs.Borrow.{sem};
ghost use Rattle.iol_desc.specs.Prelude.{LendsEntry, IsRising, Rises};
ghost use Rattle.iol_pool.specs.Prelude.{names_in};
ghost use Rattle.iol_sock.specs.Connections.{new_conn};
ghost use Rattle.iol_sock.specs.Table.{IsAmong, Unlists, accepted_in, conn_in, first_waiting};
ghost use Rattle.iol_sock.specs.contracts.connections.Connection.{the_row};

use crate::connections::Connection;
use iol_core::limits::LAST_CONNECTION;
use iol_core::numbers::{ConnId, DomainId, PoolId};
use iol_desc::entries::Entries;
use iol_hold::Store;
use iol_pool::pools::Pools;
use std::alloc::{AllocError, Global};
use std::collections::VecDeque;
use std::marker::Model;

/// The live connections, under numbers that rise from 1 and are never used again.
///
/// A connection is found by binary search. Those that no domain accepted are in a second list, so
/// that the first that a domain may accept is found without a search of the others.
#[derive(Drop)]
pub struct Connections {
    pub(crate) live: Entries<Connection>,
    // The connections that no domain accepted, by rising number, each with its pool. Removal moves
    // those on the shorter side.
    waiting: VecDeque<(u64, PoolId)>,
}

impl Model for Connections {
    ghost use Rattle.std.specs.Prelude.{◌≡◌, ◌+◌, ◌-◌, ◌≤◌, min};
    ghost use Rattle.std.specs.VecDeque.{deque_len, deque_capacity};
    ghost use Rattle.iol_core.specs.declared.limits.TheConstants.{LAST_CONNECTION};
    ghost use Rattle.iol_sock.specs.Table as table;

    ghost Value = { table.ConnTable };

    ghost view = { λ t. record {
      conns = t.live.entries;
      next = t.live.next;
      room = min t.live.room (deque_capacity t.waiting - deque_len t.waiting);
    } };

    ghost invariant = { λ t.
        (t.waiting.items ≡ table.waiting_in t.live.entries)
        × (t.live.next ≤ LAST_CONNECTION + 1) };
}

/// Removes the connection of this number from the list of waiting connections.
#[tactic(auto, using(crate::proofs::WaitingList::list_rules))]
fn unlist(waiting: &mut VecDeque<(u64, PoolId)>, number: u64)
    requires rising { IsRising waiting.old.items }
    requires there { lookup waiting.old.items number ≢ None }
    ensures { Unlists waiting.old waiting.new number }
{
    let found = waiting.binary_search_by_key(&number, |entry| entry.0);
    if let Ok(at) = found {
        let _taken = waiting.remove(at);
    }
}

/// The connection of this number, for writing. The numbers rise.
pub(crate) fn conn_mut(live: &mut Entries<Connection>, c: ConnId) -> &mut Connection
    requires { lookup live.old.entries c ≢ None }
    ensures* writes_back { sem 𝓛 (LendsEntry the_row live.entry c result) }
    ensures found { IsAmong live.old.entries live.old.next c result.now }
{
    live.numbers_rise();
    live.value_mut(c.number() as u64)
}

/// The first that waits and whose pool names the domain.
fn first_named(waiting: &VecDeque<(u64, PoolId)>, pools: &Pools, d: DomainId) -> Option<u64>
    ensures { result ≡ option_map (λ w. w.0)
        (find (λ w. names_in pools.now w.1 d) waiting.now.items) }
{
    let first = waiting.iter().find(|w| pools.names(w.1, d))?;
    Some(first.0)
}

impl Connections {
    /// An empty table: the first connection will have number 1.
    pub fn new(alloc: Global) -> Connections
        ensures none { result.conns ≡ [] }
        ensures next { result.next ≡ 1 }
    {
        Connections {
            live: Entries::new(alloc),
            waiting: VecDeque::new(alloc),
        }
    }

    /// The number of live connections.
    pub fn count(&self) -> usize
        ensures { result ≡ length self.now.conns }
    {
        self.live.len()
    }

    /// The number of the next connection, which may be one more than the last valid number.
    pub fn next(&self) -> ConnId
        ensures number { result ≡ self.now.next }
        ensures last { result ≤ LAST_CONNECTION + 1 }
    {
        ConnId::new(self.live.next() as u32)
    }

    /// Does nothing: its contract says that the numbers rise, each below the next.
    pub fn numbers_rise(&self)
        ensures { Rises 0 self.now.conns self.now.next }
    {
        self.live.numbers_rise();
    }

    /// Reserves room for one more connection. If there is room already, it is not refused.
    pub fn reserve(&mut self) -> Result<(), AllocError>
        ensures conns { self.new.conns ≡ self.old.conns }
        ensures next { self.new.next ≡ self.old.next }
        ensures room { OnOk result (0 < self.new.room) }
        ensures no_less { self.old.room ≤ self.new.room }
        ensures needed { OnErr result (self.old.room ≡ 0) }
    {
        self.live.reserve(1)?;
        self.waiting.reserve(1)?;
        Ok(())
    }

    /// Adds a connection that waits to be accepted, in room that is reserved. Bytes that arrive on
    /// it will be stored in the pool.
    #[tactic(auto, using(crate::proofs::WaitingList::table_rules))]
    pub fn add(&mut self, alloc: Global, pool: PoolId) -> ConnId
        requires few { self.old.next ≤ LAST_CONNECTION }
        requires room { 0 < self.old.room }
        ensures number { result ≡ self.old.next }
        ensures conns { self.new.conns ≡ self.old.conns ++ (self.old.next, new_conn pool) ∷ [] }
        ensures next { self.new.next ≡ self.old.next + 1 }
        ensures room { self.old.room ≤ self.new.room + 1 }
    {
        let number = self.live.push(Connection::new(alloc, pool));
        self.waiting.push_back_reserved((number, pool));
        ConnId::new(number as u32)
    }

    /// The connection of this number.
    pub fn get(&self, c: ConnId) -> Option<&Connection>
        ensures { option_copied result ≡ lookup self.now.conns c }
    {
        self.live.get(c.number() as u64)
    }

    /// The first connection that no domain accepted and whose pool names this domain.
    #[tactic(auto, using(crate::proofs::WaitingList::table_rules))]
    pub fn first_waiting(&self, store: &Store, d: DomainId) -> Option<ConnId>
        ensures { result ≡ first_waiting store.now.pools d self.now.conns }
    {
        self.live.numbers_rise();
        let number = first_named(&self.waiting, store.pools(), d)?;
        Some(ConnId::new(number as u32))
    }

    /// A domain accepts a connection that waits.
    #[tactic(auto, using(crate::proofs::WaitingList::table_rules))]
    pub fn accept(&mut self, c: ConnId)
        requires there { lookup self.old.conns c ≢ None }
        requires waits { (conn_in self.old.conns c).accepted ≡ false }
        ensures accepted { self.new.conns ≡ accepted_in self.old.conns c }
        ensures next { self.new.next ≡ self.old.next }
        ensures room { self.old.room ≤ self.new.room }
    {
        let number = c.number() as u64;
        self.live.numbers_rise();
        unlist(&mut self.waiting, number);
        self.live.value_mut(number).accept();
    }

    /// Removes a connection, and returns it for the caller to release.
    #[tactic(auto, using(crate::proofs::WaitingList::table_rules))]
    pub fn forget(&mut self, c: ConnId) -> Connection
        requires { lookup self.old.conns c ≢ None }
        ensures given { Some result ≡ lookup self.old.conns c }
        ensures rest { self.new.conns ≡ without self.old.conns c }
        ensures next { self.new.next ≡ self.old.next }
        ensures room { self.old.room ≤ self.new.room }
    {
        let number = c.number() as u64;
        self.live.numbers_rise();
        let conn = self.live.take(number);
        if !conn.is_accepted() {
            unlist(&mut self.waiting, number);
        }
        conn
    }
}
