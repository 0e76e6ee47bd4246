//! Lists of places, some of which are free.
ghost use Rattle.std.specs.Prelude.{◌≡◌, ◌≢◌, ◌<◌, ◌≤◌, length, [], None, Some, slice_set, vec_len, vec_capacity};
ghost use Rattle.std.specs.Option.{option_copied};
ghost use Rattle.std.specs.Borrow.{sem};
ghost use Rattle.iol_desc.specs.Loans.{LendsPlace, LendsValue};
ghost use Rattle.iol_core.specs.Prelude.{in_place, lowest, taken};
ghost use Rattle.iol_desc.specs.Lowest.{CanLower, IsLowest, MovesLower, PutsAt, PutsLowest, PutsLower, ReservesPlaces, SetsPlace};

use std::alloc::{AllocError, Global};
use std::marker::Model;
use std::mem;

/// The lowest free place, which may be the first past the end.
#[tactic(auto, using(crate::proofs::TakenPlaces::lowest_rules))]
pub fn lowest_place<T>(places: &[Option<T>]) -> usize
    ensures { IsLowest places.now result }
{
    for (i, place) in places.iter().enumerate() {
        if place.is_none() {
            return i;
        }
    }
    places.len()
}

/// Puts a value in a free place, or in the first past the end.
#[tactic(auto, using(crate::proofs::TakenPlaces::put_rules))]
pub fn put<T: Drop>(places: &mut Vec<Option<T>>, place: usize, value: T)
    requires place { place ≤ length places.old.items }
    requires room { vec_len places.old < vec_capacity places.old }
    ensures { PutsAt places.old places.new place value }
{
    if place < places.len() {
        places[place] = Some(value);
    } else {
        places.push_reserved(Some(value));
    }
}

/// The lowest free place, if no place below a given one is free.
#[tactic(auto, using(crate::proofs::TakenPlaces::from_rules))]
fn lowest_from<T>(places: &[Option<T>], from: usize) -> usize
    requires { from ≤ lowest places.now }
    ensures { IsLowest places.now result }
{
    let (_, rest) = places.split_at(from);
    from + lowest_place(rest)
}

/// Frees a place.
fn set_free<T: Drop>(places: &mut Vec<Option<T>>, place: usize)
    requires { place < length places.old.items }
    ensures { SetsPlace places.old places.new place None }
{
    places[place] = None;
}

/// Puts a value in a place.
fn set_taken<T: Drop>(places: &mut Vec<Option<T>>, place: usize, value: T)
    requires { place < length places.old.items }
    ensures { SetsPlace places.old places.new place (Some value) }
{
    places[place] = Some(value);
}

/// Frees a place, and puts a value in the lowest free place.
#[tactic(auto, using(crate::proofs::TakenPlaces::lower_rules))]
fn set_lower<T: Drop>(places: &mut Vec<Option<T>>, place: usize, from: usize, value: T) -> usize
    requires { CanLower places.old.items place from }
    ensures { MovesLower places.old places.new place value result }
{
    set_free(places, place);
    let lower = lowest_from(places, from);
    set_taken(places, lower, value);
    lower
}

/// The value of a place that is taken, for writing.
pub(crate) fn occupant<T>(place: &mut Option<T>) -> &mut T
    requires { place.old ≢ None }
    ensures* writes_back { sem 𝓛 (LendsValue T.row place.entry result) }
    ensures value { place.old ≡ Some result.now }
{
    match place {
        Some(value) => value,
        None => unreachable!(),
    }
}

/// Places, numbered from 0, some of which are free. A new value is put in the lowest free place.
#[derive(Drop)]
pub struct Places<T> {
    list: Vec<Option<T>>,
    count: usize,
    // No place below it is free.
    low: usize,
}

impl<T> Model for Places<T> {
    ghost use Rattle.std.specs.Prelude.{◌≡◌, ◌-◌, ◌≤◌, vec_len, vec_capacity};
    ghost use Rattle.iol_core.specs.Prelude.{lowest, taken};
    ghost use Rattle.iol_desc.specs.Tables as tables;

    ghost Value = { tables.Slots T };

    ghost view = { λ p. record {
      places = p.list.items;
      room = vec_capacity p.list - vec_len p.list;
    } };

    ghost invariant = { λ p. (p.count ≡ taken p.list.items) × (p.low ≤ lowest p.list.items) };
}

impl<T: Drop> Places<T> {
    /// No places.
    pub fn new(alloc: Global) -> Places<T>
        ensures { result.places ≡ [] }
    {
        Places {
            list: Vec::new(alloc),
            count: 0,
            low: 0,
        }
    }

    /// The value in a place, if it is taken.
    pub fn get(&self, place: usize) -> Option<&T>
        ensures { option_copied result ≡ in_place self.now.places place }
    {
        self.list.get(place)?.as_ref()
    }

    /// The value in a place that is taken, for writing.
    #[tactic(auto, using(crate::proofs::TakenPlaces::lent_rules))]
    pub fn value_mut(&mut self, place: usize) -> &mut T
        requires { in_place self.old.places place ≢ None }
        ensures* writes_back { sem 𝓛 (LendsPlace T.row self.entry place result) }
        ensures value { in_place self.old.places place ≡ Some result.now }
    {
        occupant(&mut self.list[place])
    }

    /// The number of places that are taken.
    pub fn count(&self) -> usize
        ensures { result ≡ taken self.now.places }
    {
        self.count
    }

    /// The lowest free place, which may be the first past the end.
    pub fn lowest(&self) -> usize
        ensures { IsLowest self.now.places result }
    {
        lowest_from(&self.list, self.low)
    }

    /// Reserves room for that many more values. If there is that much room, it is not refused.
    pub fn reserve(&mut self, count: usize) -> Result<(), AllocError>
        ensures { ReservesPlaces self.old self.new count result }
    {
        self.list.reserve(count)?;
        Ok(())
    }

    /// Puts a value in the lowest free place, in room that is reserved.
    #[tactic(auto, using(crate::proofs::TakenPlaces::method_rules))]
    pub fn put(&mut self, value: T) -> usize
        requires { 0 < self.old.room }
        ensures { PutsLowest self.old self.new value result }
    {
        let place = lowest_from(&self.list, self.low);
        put(&mut self.list, place, value);
        self.count += 1;
        self.low = place + 1;
        place
    }

    /// Frees a place that is taken.
    #[tactic(auto, using(crate::proofs::TakenPlaces::free_rules))]
    pub fn free(&mut self, place: usize)
        requires { in_place self.old.places place ≢ None }
        ensures freed { self.new.places ≡ slice_set self.old.places place None }
        ensures room { self.old.room ≤ self.new.room }
    {
        set_free(&mut self.list, place);
        self.count -= 1;
        self.low = self.low.min(place);
    }

    /// Frees a place that is taken, and puts a value in the lowest place that is free then.
    #[tactic(auto, using(crate::proofs::TakenPlaces::moved_rules))]
    pub fn put_lower(&mut self, place: usize, value: T) -> usize
        requires { in_place self.old.places place ≢ None }
        ensures { PutsLower self.old self.new place value result }
    {
        let from = self.low.min(place);
        let lower = set_lower(&mut self.list, place, from, value);
        self.low = lower + 1;
        lower
    }

    /// Takes the values of all places.
    pub fn take(&mut self, alloc: Global) -> Vec<Option<T>>
        ensures given { result.items ≡ self.old.places }
        ensures rest { self.new.places ≡ [] }
    {
        self.count = 0;
        self.low = 0;
        mem::replace(&mut self.list, Vec::new(alloc))
    }

    /// Frees all places.
    pub fn clear(&mut self)
        ensures { self.new.places ≡ [] }
    {
        self.list.clear();
        self.count = 0;
        self.low = 0;
    }
}
