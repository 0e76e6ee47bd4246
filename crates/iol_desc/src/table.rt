//! The table of domains.
#![tactic(auto, using(crate::proofs::Rows::row_rules, crate::proofs::LiveCounts::counted_rules), unfolding(crate::specs::Tables::domain_in, crate::specs::Tables::with_domain_in, crate::specs::Tables::row_in))]

ghost use Rattle.std.specs.Prelude.{◌≡◌, ◌≢◌, ◌+◌, ◌<◌, ◌≤◌, length, true, None, [], ◌∷◌, ◌++◌, OnOk, OnErr, nat_lt};
ghost use Rattle.std.specs.Option.{option_copied};
ghost use Rattle.iol_core.specs.Prelude.{new_domain, no_domain, in_place, taken};
ghost use Rattle.iol_desc.specs.Tables.{domains_of, room_in, domain_in, with_domain_in, with_default_in, agg_in, aggs_in, with_aggs_in, too_many_in, fds_in, with_fds_in, with_fd_in, without_fd_in, AddsAggIn, MovesFdIn, OpensEndsIn, OpensNextIn, SwapsAggIn, TakesAggIn};

use crate::entries::Taken;
use crate::row::Domain;
use iol_core::descriptors::Descriptor;
use iol_core::limits::{LAST_AGGREGATE, MAX_AGGREGATES, MAX_OPEN};
use iol_core::numbers::{AggId, DomainId, Fd, PipeId, PoolId};
use std::alloc::{AllocError, Global};
use std::marker::Model;

/// Domains, numbered from 1, with their aggregates and descriptors. `A` is the type of an
/// aggregate.
#[derive(Drop)]
pub struct Table<A> {
    alloc: Global,
    rows: Vec<Domain<A>>,
    // The number of aggregates of all rows.
    live_aggs: u128,
}

impl<A> Model for Table<A> {
    ghost use Rattle.std.specs.Prelude.{List};
    ghost use Rattle.iol_desc.specs.Tables as tables;

    ghost Value = { List (tables.Row A) };

    ghost view = { λ t. t.rows.items };

    ghost invariant = { λ t. tables.IsCounted t.live_aggs t.rows.items };
}

impl<A: Drop> Table<A> {
    /// A table of no domains.
    pub fn new(alloc: Global) -> Table<A>
        ensures { result ≡ [] }
    {
        Table {
            alloc,
            rows: Vec::new(alloc),
            live_aggs: 0,
        }
    }

    /// The number of domains that were ever added.
    pub fn len(&self) -> usize
        ensures { result ≡ length self.now }
    {
        self.rows.len()
    }

    /// Adds a live domain with no aggregate and no descriptor.
    pub fn add_domain(&mut self) -> Result<(), AllocError>
        ensures ok { OnOk result (domains_of self.new ≡ domains_of self.old ++ new_domain ∷ []) }
        ensures err { OnErr result (self.new ≡ self.old) }
    {
        self.rows.push(Domain::new(self.alloc))?;
        Ok(())
    }

    /// The place of a live domain.
    fn place_of(&self, d: DomainId) -> usize
        requires live { (domain_in (domains_of self.now) d).live ≡ true }
        ensures place { result + 1 ≡ d }
        ensures within { result < length self.now }
    {
        d.number() as usize - 1
    }

    /// Whether the domain is live.
    pub fn live(&self, d: DomainId) -> bool
        ensures { result ≡ (domain_in (domains_of self.now) d).live }
    {
        let n = d.number() as usize;
        if n == 0 || self.rows.len() < n {
            return false;
        }
        let domain = &self.rows[n - 1];
        domain.live
    }

    /// Ends a domain that has no aggregate and no open descriptor.
    pub fn end_domain(&mut self, d: DomainId)
        requires live { (domain_in (domains_of self.old) d).live ≡ true }
        requires no_aggs { aggs_in (domains_of self.old) d ≡ [] }
        requires no_fds { taken (fds_in (domains_of self.old) d) ≡ 0 }
        ensures { domains_of self.new ≡ with_domain_in (domains_of self.old) d no_domain }
    {
        let at = self.place_of(d);
        let domain = &mut self.rows[at];
        domain.end();
    }

    /// A domain's aggregate.
    pub fn agg(&self, d: DomainId, agg: AggId) -> Option<&A>
        requires { (domain_in (domains_of self.now) d).live ≡ true }
        ensures { option_copied result ≡ agg_in (domains_of self.now) d agg }
    {
        let domain = &self.rows[self.place_of(d)];
        domain.agg(agg)
    }

    /// Whether a domain that gives up `given` aggregates is refused `made` new ones: over 65,536
    /// would be live in all, or its numbers would exceed the last one. Both counts are at most 2.
    pub fn is_too_many(&self, d: DomainId, made: u64, given: u64) -> bool
        requires live { (domain_in (domains_of self.now) d).live ≡ true }
        requires made { made ≤ 2 }
        requires given { given ≤ 2 }
        ensures { result ≡ too_many_in (domains_of self.now) d made given }
    {
        let domain = &self.rows[self.place_of(d)];
        let next = domain.aggs.next();
        MAX_AGGREGATES as u128 + (given as u128) < self.live_aggs + (made as u128)
            || LAST_AGGREGATE as u128 + 1 < next as u128 + (made as u128)
    }

    /// Reserves room for that many more aggregates of a domain.
    pub fn reserve_aggs(&mut self, d: DomainId, count: usize) -> Result<(), AllocError>
        requires { (domain_in (domains_of self.old) d).live ≡ true }
        ensures same { domains_of self.new ≡ domains_of self.old }
        ensures room { OnOk result (count ≤ room_in self.new d) }
    {
        let at = self.place_of(d);
        let domain = &mut self.rows[at];
        domain.reserve_aggs(count)
    }

    /// Adds an aggregate under the domain's next number, in room that is reserved.
    #[tactic(auto, using(std::proofs::lemmas::Grind::common_steps, crate::proofs::Rows::row_rules, crate::proofs::LiveCounts::counted_rules), unfolding(crate::specs::Tables::domain_in, crate::specs::Tables::with_domain_in, crate::specs::Tables::row_in))]
    pub fn add_agg(&mut self, d: DomainId, agg: A) -> AggId
        requires live { (domain_in (domains_of self.old) d).live ≡ true }
        requires few { (domain_in (domains_of self.old) d).next_agg ≤ LAST_AGGREGATE }
        requires room { 0 < room_in self.old d }
        ensures { AddsAggIn self.old self.new d agg result }
    {
        let at = self.place_of(d);
        let domain = &mut self.rows[at];
        let number = domain.add_agg(agg);
        self.live_aggs += 1;
        number
    }

    /// Takes an aggregate from its domain.
    #[tactic(auto, using(std::proofs::lemmas::Grind::common_steps, crate::proofs::Rows::row_rules, crate::proofs::LiveCounts::counted_rules), unfolding(crate::specs::Tables::domain_in, crate::specs::Tables::with_domain_in, crate::specs::Tables::row_in))]
    pub fn take_agg(&mut self, d: DomainId, agg: AggId) -> A
        requires live { (domain_in (domains_of self.old) d).live ≡ true }
        requires there { agg_in (domains_of self.old) d agg ≢ None }
        ensures { TakesAggIn self.old self.new d agg result }
    {
        let at = self.place_of(d);
        let domain = &mut self.rows[at];
        let given = domain.take_agg(agg);
        self.live_aggs -= 1;
        given
    }

    /// Replaces an aggregate under its number, and returns the old one.
    #[tactic(auto, using(std::proofs::lemmas::Grind::common_steps, crate::proofs::Rows::row_rules, crate::proofs::LiveCounts::counted_rules), unfolding(crate::specs::Tables::domain_in, crate::specs::Tables::with_domain_in, crate::specs::Tables::row_in))]
    pub fn swap_agg(&mut self, d: DomainId, agg: AggId, other: A) -> A
        requires live { (domain_in (domains_of self.old) d).live ≡ true }
        requires there { agg_in (domains_of self.old) d agg ≢ None }
        ensures { SwapsAggIn self.old self.new d agg other result }
    {
        let at = self.place_of(d);
        let domain = &mut self.rows[at];
        domain.swap_agg(agg, other)
    }

    /// Takes all aggregates of a domain, by rising number.
    pub fn take_aggs(&mut self, d: DomainId) -> Taken<A>
        requires { (domain_in (domains_of self.old) d).live ≡ true }
        ensures given { result ≡ aggs_in (domains_of self.old) d }
        ensures rest { domains_of self.new ≡ with_aggs_in (domains_of self.old) d [] }
    {
        let at = self.place_of(d);
        let alloc = self.alloc;
        let domain = &mut self.rows[at];
        let count = domain.agg_count();
        let given = domain.take_aggs(alloc);
        self.live_aggs -= count as u128;
        given
    }

    /// The default pool of a domain, in which its new bytes are placed.
    pub fn default_of(&self, d: DomainId) -> Option<PoolId>
        requires { (domain_in (domains_of self.now) d).live ≡ true }
        ensures { result ≡ (domain_in (domains_of self.now) d).default }
    {
        let domain = &self.rows[self.place_of(d)];
        domain.default
    }

    /// Sets the default pool of a domain.
    pub fn set_default(&mut self, d: DomainId, pool: PoolId)
        requires { (domain_in (domains_of self.old) d).live ≡ true }
        ensures { domains_of self.new ≡ with_default_in (domains_of self.old) d pool }
    {
        let at = self.place_of(d);
        let domain = &mut self.rows[at];
        domain.default = Some(pool);
    }

    /// The object that a domain's descriptor is open on.
    pub fn descriptor(&self, d: DomainId, fd: Fd) -> Option<Descriptor>
        requires { (domain_in (domains_of self.now) d).live ≡ true }
        ensures { result ≡ in_place (fds_in (domains_of self.now) d) fd }
    {
        let domain = &self.rows[self.place_of(d)];
        domain.descriptor(fd)
    }

    /// Whether that many more open descriptors are too many.
    pub fn is_open_beyond(&self, d: DomainId, made: usize) -> bool
        requires live { (domain_in (domains_of self.now) d).live ≡ true }
        requires made { made ≤ 2 }
        ensures { result ≡ nat_lt MAX_OPEN (taken (fds_in (domains_of self.now) d) + made) }
    {
        let domain = &self.rows[self.place_of(d)];
        domain.is_open_beyond(made)
    }

    /// Opens a domain's lowest free number.
    pub fn add_fd(&mut self, d: DomainId, on: Descriptor) -> Result<Fd, AllocError>
        requires live { (domain_in (domains_of self.old) d).live ≡ true }
        requires few { taken (fds_in (domains_of self.old) d) < MAX_OPEN }
        ensures { OpensNextIn self.old self.new d on result }
    {
        let at = self.place_of(d);
        let domain = &mut self.rows[at];
        domain.add_fd(on)
    }

    /// Opens both ends of a pipe in a domain, the read end under the lowest free number, then the
    /// write end.
    pub fn add_ends(&mut self, d: DomainId, pipe: PipeId) -> Result<(Fd, Fd), AllocError>
        requires live { (domain_in (domains_of self.old) d).live ≡ true }
        requires few { taken (fds_in (domains_of self.old) d) ≤ MAX_OPEN }
        ensures { OpensEndsIn self.old self.new d pipe result }
    {
        let at = self.place_of(d);
        let domain = &mut self.rows[at];
        domain.add_ends(pipe)
    }

    /// Closes a domain's descriptor.
    pub fn take_fd(&mut self, d: DomainId, fd: Fd)
        requires live { (domain_in (domains_of self.old) d).live ≡ true }
        requires there { in_place (fds_in (domains_of self.old) d) fd ≢ None }
        ensures { domains_of self.new ≡ without_fd_in (domains_of self.old) d fd }
    {
        let at = self.place_of(d);
        let domain = &mut self.rows[at];
        domain.take_fd(fd);
    }

    /// Opens a domain's descriptor on another object. Reserved room for aggregates is unchanged.
    pub fn set_fd(&mut self, d: DomainId, fd: Fd, on: Descriptor)
        requires live { (domain_in (domains_of self.old) d).live ≡ true }
        requires there { in_place (fds_in (domains_of self.old) d) fd ≢ None }
        ensures set { domains_of self.new ≡ with_fd_in (domains_of self.old) d fd on }
        ensures room { room_in self.old d ≤ room_in self.new d }
    {
        let at = self.place_of(d);
        let domain = &mut self.rows[at];
        domain.set_fd(fd, on);
    }

    /// Takes all descriptors of a domain, by rising number, with `None` for a free number. No
    /// descriptor is open afterwards.
    pub fn take_fds(&mut self, d: DomainId) -> Vec<Option<Descriptor>>
        requires { (domain_in (domains_of self.old) d).live ≡ true }
        ensures given { result.items ≡ fds_in (domains_of self.old) d }
        ensures rest { domains_of self.new ≡ with_fds_in (domains_of self.old) d [] }
    {
        let at = self.place_of(d);
        let alloc = self.alloc;
        let domain = &mut self.rows[at];
        domain.take_fds(alloc)
    }

    /// Gives a domain's descriptor to the domain itself: number `fd` is freed, then `on` is opened
    /// under the lowest free number, which is returned.
    pub fn move_fd(&mut self, d: DomainId, fd: Fd, on: Descriptor) -> Fd
        requires live { (domain_in (domains_of self.old) d).live ≡ true }
        requires there { in_place (fds_in (domains_of self.old) d) fd ≢ None }
        ensures { MovesFdIn self.old self.new d fd on result }
    {
        let at = self.place_of(d);
        let domain = &mut self.rows[at];
        domain.move_fd(fd, on)
    }
}
