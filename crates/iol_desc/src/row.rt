//! One domain.
ghost use Rattle.std.specs.Prelude.{◌≡◌, ◌≢◌, ◌+◌, ◌<◌, ◌≤◌, length, None, [], OnOk, nat_lt};
ghost use Rattle.std.specs.Option.{option_copied};
ghost use Rattle.iol_core.specs.Prelude.{new_domain, no_domain, in_place, lookup, taken};
ghost use Rattle.iol_desc.specs.Tables.{AddsAgg, HasNothing, KeepsAggs, MovesFdOf, OpensEnds, OpensEndsOf, OpensNext, OpensNextOf, SwapsAgg, TakesAgg, with_fd, without_fd};

use crate::entries::{Entries, Taken};
use crate::places::Places;
use iol_core::descriptors::Descriptor;
use iol_core::limits::{LAST_AGGREGATE, MAX_OPEN};
use iol_core::numbers::{AggId, Fd, PipeId, PoolId};
use std::alloc::{AllocError, Global};
use std::marker::Model;

/// A domain: its aggregates by number, and the objects that its descriptors are open on.
#[derive(Drop)]
pub(crate) struct Domain<A> {
    pub(crate) live: bool,
    pub(crate) aggs: Entries<A>,
    pub(crate) fds: Places<Descriptor>,
    pub(crate) default: Option<PoolId>,
}

impl<A> Model for Domain<A> {
    ghost use Rattle.iol_desc.specs.Tables as tables;

    ghost Value = { tables.Row A };

    ghost view = { λ d. record {
      domain = record {
        live = d.live;
        aggs = d.aggs.entries;
        next_agg = d.aggs.next;
        fds = d.fds.places;
        default = d.default;
      };
      room = d.aggs.room;
    } };
}

/// Opens both ends of a pipe.
fn open_ends(fds: &mut Places<Descriptor>, pipe: PipeId) -> Result<(Fd, Fd), AllocError>
    requires { taken fds.old.places ≤ MAX_OPEN }
    ensures { OpensEnds fds.old.places fds.new.places (λ fds. fds) fds.old.places pipe result }
{
    fds.reserve(2)?;
    let read = fds.put(Descriptor::ReadEnd { pipe });
    let write = fds.put(Descriptor::WriteEnd { pipe });
    Ok((Fd::new(read as u32), Fd::new(write as u32)))
}

/// Opens the lowest free number.
fn open_next(fds: &mut Places<Descriptor>, on: Descriptor) -> Result<Fd, AllocError>
    requires { taken fds.old.places < MAX_OPEN }
    ensures { OpensNext fds.old.places fds.new.places (λ fds. fds) fds.old.places on result }
{
    fds.reserve(1)?;
    let place = fds.put(on);
    Ok(Fd::new(place as u32))
}

impl<A: Drop> Domain<A> {
    /// A live domain with no aggregate and no descriptor.
    pub(crate) fn new(alloc: Global) -> Domain<A>
        ensures { result.domain ≡ new_domain }
    {
        Domain {
            live: true,
            aggs: Entries::new(alloc),
            fds: Places::new(alloc),
            default: None,
        }
    }

    /// Ends the domain: it has no aggregate and no descriptor afterwards.
    pub(crate) fn end(&mut self)
        requires { HasNothing self.old.domain }
        ensures ended { self.new.domain ≡ no_domain }
        ensures count { length self.new.domain.aggs ≡ length self.old.domain.aggs }
    {
        self.live = false;
        self.aggs.clear();
        self.fds.clear();
        self.default = None;
    }

    /// The aggregate of this number.
    pub(crate) fn agg(&self, agg: AggId) -> Option<&A>
        ensures { option_copied result ≡ lookup self.now.domain.aggs agg }
    {
        self.aggs.get(agg.number())
    }

    /// Reserves room for that many more aggregates.
    pub(crate) fn reserve_aggs(&mut self, count: usize) -> Result<(), AllocError>
        ensures domain { self.new.domain ≡ self.old.domain }
        ensures room { OnOk result (count ≤ self.new.room) }
        ensures count { length self.new.domain.aggs ≡ length self.old.domain.aggs }
    {
        self.aggs.reserve(count)?;
        Ok(())
    }

    /// Adds an aggregate under the next number.
    pub(crate) fn add_agg(&mut self, agg: A) -> AggId
        requires few { self.old.domain.next_agg ≤ LAST_AGGREGATE }
        requires room { 0 < self.old.room }
        ensures { AddsAgg self.old self.new agg result }
    {
        AggId::new(self.aggs.push(agg))
    }

    /// Takes the aggregate of this number.
    #[tactic(auto, using(crate::proofs::LiveCounts::counted_rules))]
    pub(crate) fn take_agg(&mut self, agg: AggId) -> A
        requires { lookup self.old.domain.aggs agg ≢ None }
        ensures { TakesAgg self.old self.new agg result }
    {
        self.aggs.take(agg.number())
    }

    /// Replaces the aggregate of this number.
    pub(crate) fn swap_agg(&mut self, agg: AggId, other: A) -> A
        requires { lookup self.old.domain.aggs agg ≢ None }
        ensures { SwapsAgg self.old self.new agg other result }
    {
        self.aggs.swap(agg.number(), other)
    }

    /// The number of aggregates.
    pub(crate) fn agg_count(&self) -> usize
        ensures { result ≡ length self.now.domain.aggs }
    {
        self.aggs.len()
    }

    /// Takes all aggregates, by number.
    pub(crate) fn take_aggs(&mut self, alloc: Global) -> Taken<A>
        ensures given { result ≡ self.old.domain.aggs }
        ensures rest { self.new.domain ≡ record self.old.domain { aggs = [] } }
    {
        self.aggs.take_all(alloc)
    }

    /// Takes all descriptors: no descriptor is open afterwards.
    pub(crate) fn take_fds(&mut self, alloc: Global) -> Vec<Option<Descriptor>>
        ensures given { result.items ≡ self.old.domain.fds }
        ensures rest { self.new.domain ≡ record self.old.domain { fds = [] } }
        ensures kept { KeepsAggs self.old self.new }
    {
        self.fds.take(alloc)
    }

    /// The object that a descriptor is open on.
    pub(crate) fn descriptor(&self, fd: Fd) -> Option<Descriptor>
        ensures { result ≡ in_place self.now.domain.fds fd }
    {
        self.fds.get(fd.number() as usize).copied()
    }

    /// Whether that many more descriptors are too many.
    pub(crate) fn is_open_beyond(&self, made: usize) -> bool
        requires made { made ≤ 2 }
        ensures { result ≡ nat_lt MAX_OPEN (taken self.now.domain.fds + made) }
    {
        let open = self.fds.count();
        open > MAX_OPEN || MAX_OPEN < open + made
    }

    /// Opens both ends of a pipe.
    pub(crate) fn add_ends(&mut self, pipe: PipeId) -> Result<(Fd, Fd), AllocError>
        requires { taken self.old.domain.fds ≤ MAX_OPEN }
        ensures opens { OpensEndsOf self.old.domain self.new.domain pipe result }
        ensures kept { KeepsAggs self.old self.new }
    {
        open_ends(&mut self.fds, pipe)
    }

    /// Opens the lowest free number.
    pub(crate) fn add_fd(&mut self, on: Descriptor) -> Result<Fd, AllocError>
        requires { taken self.old.domain.fds < MAX_OPEN }
        ensures opens { OpensNextOf self.old.domain self.new.domain on result }
        ensures kept { KeepsAggs self.old self.new }
    {
        open_next(&mut self.fds, on)
    }

    /// Closes an open number.
    pub(crate) fn take_fd(&mut self, fd: Fd)
        requires { in_place self.old.domain.fds fd ≢ None }
        ensures closed { self.new.domain ≡ without_fd self.old.domain fd }
        ensures kept { KeepsAggs self.old self.new }
    {
        self.fds.free(fd.number() as usize);
    }

    /// Opens an open number on another object.
    pub(crate) fn set_fd(&mut self, fd: Fd, on: Descriptor)
        requires { in_place self.old.domain.fds fd ≢ None }
        ensures set { self.new.domain ≡ with_fd self.old.domain fd on }
        ensures kept { KeepsAggs self.old self.new }
    {
        *self.fds.value_mut(fd.number() as usize) = on;
    }

    /// Closes an open number, and opens the lowest number that is free then.
    pub(crate) fn move_fd(&mut self, fd: Fd, on: Descriptor) -> Fd
        requires { in_place self.old.domain.fds fd ≢ None }
        ensures moves { MovesFdOf self.old.domain self.new.domain fd on result }
        ensures kept { KeepsAggs self.old self.new }
    {
        Fd::new(self.fds.put_lower(fd.number() as usize, on) as u32)
    }
}
