//! Values under rising numbers, found by binary search.
ghost use Rattle.std.specs.Prelude.{◌≡◌, ◌≢◌, ◌-◌, ◌<◌, ◌≤◌, length, [], ◌++◌, Some, None, filter, is_some, vec_len, vec_capacity};
ghost use Rattle.std.specs.Option.{option_copied, option_to_list};
ghost use Rattle.std.specs.Borrow.{sem};
ghost use Rattle.iol_core.specs.Prelude.{lookup};
ghost use Rattle.iol_desc.specs.Tables.{place_in};
ghost use Rattle.iol_desc.specs.Loans.{LendsEntry};
ghost use Rattle.iol_desc.specs.EntryLists.{there, AddsEntry, DropsHole, IsRising, Replaces, ReservesEntries, Rises, SwapsEntry, TakesEntry};

use crate::places::occupant;
use iol_core::numbers::AggId;
use std::alloc::{AllocError, Global};
use std::marker::Model;
use std::mem;

/// The largest number of an entry.
pub const LAST_ENTRY: u64 = u64::MAX - 1;

/// The index of the entry of this number, or the length if there is none.
pub fn place_of<X>(list: &[(u64, X)], number: u64) -> usize
    requires { IsRising list.now }
    ensures { result ≡ place_in list.now number }
{
    let found = list.binary_search_by_key(&number, |entry| entry.0);
    if let Ok(at) = found {
        return at;
    }
    list.len()
}

/// The value of the entry of this number.
#[tactic(auto, using(crate::proofs::Holes::found_rules))]
fn entry<A>(list: &[(u64, Option<A>)], number: u64) -> Option<&A>
    requires { IsRising list.now }
    ensures { option_copied result ≡ lookup (there list.now) number }
{
    let found = list.get(place_of(list, number))?;
    found.1.as_ref()
}

/// Replaces the value of the entry of this number.
#[tactic(auto, using(crate::proofs::Holes::found_rules))]
fn replace<A: Drop>(list: &mut Vec<(u64, Option<A>)>, number: u64, other: Option<A>) -> A
    requires rising { IsRising list.old.items }
    requires there { lookup (there list.old.items) number ≢ None }
    ensures { Replaces list.old list.new number other result }
{
    let at = place_of(list, number);
    let entry = &mut list[at];
    let (_, given) = mem::replace(entry, (number, other));
    given.unwrap()
}

/// Removes the holes.
fn close_holes<A: Drop>(list: &mut Vec<(u64, Option<A>)>)
    ensures items { list.new.items ≡ filter (λ e. is_some e.1) list.old.items }
    ensures capacity { vec_capacity list.new ≡ vec_capacity list.old }
{
    list.retain(|entry| entry.1.is_some());
}

/// Drops the last entry if it is a hole.
fn drop_hole<A: Drop>(list: &mut Vec<(u64, Option<A>)>) -> bool
    ensures hole { DropsHole result list.old.items list.new.items }
    ensures room { vec_capacity list.old - vec_len list.old ≤ vec_capacity list.new - vec_len list.new }
{
    let Some((number, held)) = list.pop() else {
        return false;
    };
    if held.is_none() {
        return true;
    }
    list.push_reserved((number, held));
    false
}

/// Takes the last entry that is not a hole, and drops the holes after it.
#[tactic(auto, using(crate::proofs::Holes::end_rules, crate::proofs::Holes::pop_rules))]
fn pop_held<A: Drop>(list: &mut Vec<(u64, Option<A>)>) -> Option<(u64, A)>
    ensures given { there list.old.items ≡ there list.new.items ++ option_to_list result }
    ensures none { result ≡ None → there list.new.items ≡ [] }
{
    while let Some((number, held)) = list.pop() {
        if let Some(value) = held {
            return Some((number, value));
        }
    }
    None
}

/// Values by number, the newest last. Taking a value leaves a hole.
#[derive(Drop)]
pub struct Entries<A> {
    // By rising number; `None` is a hole.
    list: Vec<(u64, Option<A>)>,
    holes: usize,
    next: u64,
}

impl<A> Model for Entries<A> {
    ghost use Rattle.std.specs.Prelude.{◌-◌, vec_len, vec_capacity};
    ghost use Rattle.iol_desc.specs.EntryLists as listed;

    ghost Value = { listed.Listed A };

    ghost view = { λ e. record {
      entries = listed.there e.list.items;
      next = e.next;
      room = vec_capacity e.list - vec_len e.list;
    } };

    ghost invariant = { λ e. listed.IsListed e.holes e.next e.list.items };
}

impl<A: Drop> Entries<A> {
    /// An empty list, whose first entry will have number 1.
    pub fn new(alloc: Global) -> Entries<A>
        ensures entries { result.entries ≡ [] }
        ensures next { result.next ≡ 1 }
    {
        Entries {
            list: Vec::new(alloc),
            holes: 0,
            next: 1,
        }
    }

    /// Removes all entries. The next one has number 1 again.
    pub fn clear(&mut self)
        ensures entries { self.new.entries ≡ [] }
        ensures next { self.new.next ≡ 1 }
    {
        self.list.clear();
        self.holes = 0;
        self.next = 1;
    }

    /// The number of values.
    pub fn len(&self) -> usize
        ensures { result ≡ length self.now.entries }
    {
        self.list.len() - self.holes
    }

    /// The number of the next.
    pub fn next(&self) -> u64
        ensures { result ≡ self.now.next }
    {
        self.next
    }

    /// The value of this number.
    pub fn get(&self, number: u64) -> Option<&A>
        ensures { option_copied result ≡ lookup self.now.entries number }
    {
        entry(&self.list, number)
    }

    /// The entries, including the holes.
    pub fn list(&self) -> &[(u64, Option<A>)]
        ensures { there result.now ≡ self.now.entries }
    {
        &self.list
    }

    /// Removes the holes.
    #[tactic(auto, using(crate::proofs::Holes::method_rules))]
    fn compact(&mut self)
        ensures entries { self.new.entries ≡ self.old.entries }
        ensures next { self.new.next ≡ self.old.next }
        ensures room { self.old.room ≤ self.new.room }
    {
        close_holes(&mut self.list);
        self.holes = 0;
    }

    /// Reserves room for that many more values. If there is that much room, it is not refused. If
    /// half of the list is holes, the list need not grow.
    pub fn reserve(&mut self, count: usize) -> Result<(), AllocError>
        ensures { ReservesEntries self.old self.new count result }
    {
        if count <= self.list.capacity() - self.list.len() {
            return Ok(());
        }
        if self.list.len() - self.holes <= self.holes {
            self.compact();
        }
        self.list.reserve(count)?;
        Ok(())
    }

    /// Adds a value under the next number, in room that is reserved.
    #[tactic(auto, using(crate::proofs::Holes::method_rules))]
    pub fn push(&mut self, value: A) -> u64
        requires few { self.old.next ≤ LAST_ENTRY }
        requires room { 0 < self.old.room }
        ensures { AddsEntry self.old self.new value result }
    {
        let number = self.next;
        self.list.push_reserved((number, Some(value)));
        self.next += 1;
        number
    }

    /// Drops the hole at the end, if there is one.
    #[tactic(auto, using(crate::proofs::Holes::hole_rules))]
    fn trim_one(&mut self) -> bool
        ensures entries { self.new.entries ≡ self.old.entries }
        ensures next { self.new.next ≡ self.old.next }
        ensures room { self.old.room ≤ self.new.room }
    {
        if !drop_hole(&mut self.list) {
            return false;
        }
        self.holes -= 1;
        true
    }

    /// Drops the holes at the end.
    fn trim(&mut self)
        ensures entries { self.new.entries ≡ self.old.entries }
        ensures next { self.new.next ≡ self.old.next }
        ensures room { self.old.room ≤ self.new.room }
    {
        for _ in 0..self.list.len() {
            if !self.trim_one() {
                return;
            }
        }
    }

    /// Takes the value of this number.
    #[tactic(auto, using(crate::proofs::Holes::method_rules))]
    pub fn take(&mut self, number: u64) -> A
        requires { lookup self.old.entries number ≢ None }
        ensures { TakesEntry self.old self.new number result }
    {
        let given = replace(&mut self.list, number, None);
        self.holes += 1;
        self.trim();
        given
    }

    /// Replaces the value of this number.
    #[tactic(auto, using(crate::proofs::Holes::method_rules))]
    pub fn swap(&mut self, number: u64, other: A) -> A
        requires { lookup self.old.entries number ≢ None }
        ensures { SwapsEntry self.old self.new number other result }
    {
        replace(&mut self.list, number, Some(other))
    }

    /// The value of this number, for writing.
    #[tactic(auto, using(crate::proofs::Holes::lent_rules))]
    pub fn value_mut(&mut self, number: u64) -> &mut A
        requires { lookup self.old.entries number ≢ None }
        ensures* writes_back { sem 𝓛 (LendsEntry A.row self.entry number result) }
        ensures value { lookup self.old.entries number ≡ Some result.now }
    {
        let at = place_of(&self.list, number);
        occupant(&mut self.list[at].1)
    }

    /// Does nothing: its contract says that the numbers rise, each below the next.
    #[tactic(auto, using(crate::proofs::Holes::there_rises))]
    pub fn numbers_rise(&self)
        ensures { Rises 0 self.now.entries self.now.next }
    {
        let _next = &self.next;
    }

    /// Takes all values.
    pub fn take_all(&mut self, alloc: Global) -> Taken<A>
        ensures given { result ≡ self.old.entries }
        ensures entries { self.new.entries ≡ [] }
        ensures next { self.new.next ≡ self.old.next }
    {
        self.holes = 0;
        Taken {
            list: mem::replace(&mut self.list, Vec::new(alloc)),
        }
    }
}

/// Aggregates that were taken from a domain, by rising number.
#[derive(Drop)]
pub struct Taken<A> {
    list: Vec<(u64, Option<A>)>,
}

impl<A> Model for Taken<A> {
    ghost use Rattle.std.specs.Prelude.{ℕ, List};
    ghost use Rattle.iol_desc.specs.EntryLists.{there};

    ghost Value = { List (ℕ × A) };

    ghost view = { λ t. there t.list.items };
}

impl<A: Drop> Taken<A> {
    /// Takes the last one.
    #[tactic(auto, using(crate::proofs::Holes::pop_rules))]
    pub fn pop(&mut self) -> Option<(AggId, A)>
        ensures given { self.old ≡ self.new ++ option_to_list result }
        ensures none { result ≡ None → self.new ≡ [] }
    {
        let (number, agg) = pop_held(&mut self.list)?;
        Some((AggId::new(number), agg))
    }
}
