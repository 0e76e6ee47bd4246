//! Aggregates: made of new bytes or of bytes that are in memory already, shown, and dropped.
ghost use Rattle.std.specs.Prelude.{◌≡◌, ℕ, true, IfOk, IfErr, Err, ◌≢◌};
ghost use Rattle.std.specs.List.{concat};
ghost use Rattle.iol_core.specs.Prelude.{is_live, domain};
ghost use Rattle.iol_core.specs.Calls.Aggregates as calls;
ghost use Rattle.iol_kernel.specs.Calls.{MayMake, RefusesShow};
ghost use Rattle.iol_kernel.specs.Denials.{ReportsBarred};
ghost use Rattle.iol_kernel.specs.DomainAggregates.{HasAgg, MayCut, MayGive, MayJoin, MayReplace, MaySplit};
ghost use Rattle.iol_kernel.specs.KernelState.{IsSound};
ghost use Rattle.iol_kernel.specs.LocatedParts.{Locates};
ghost use Rattle.iol_kernel.specs.NewBytes.{FillsNext, MakesAggregate, TestsMake};
ghost use Rattle.iol_kernel.specs.Readings.{Reading};
ghost use Rattle.iol_kernel.specs.ReadsByCopy.{ShowsInto};

use crate::copies::copy_to_front;
use crate::kernel::Kernel;
use crate::tables::{first_hidden, join_aggs, move_agg, split_agg};
use iol_agg::{Agg, LocatedParts, Parts};
use iol_core::limits::MAX_AGGREGATE_BYTES;
use iol_core::lists::Bytes;
use iol_core::numbers::{AggId, DomainId, PoolId};
use iol_core::refusals::Refusal;
use std::alloc::AllocError;

impl Kernel {
    ghost use Rattle.iol_kernel.specs.Kernel.{state_of, machine, as_read, Steps, Shows, ShowsSoMany, CarriesOut, KeepsPlaces, Attempts, Leaves};

    /// Places bytes in the caller's default pool, as its next aggregate. Clean extents of the
    /// pool's files are evicted if necessary.
    pub fn agg_make(&mut self, by: DomainId, bytes: &[u8]) -> Result<AggId, Refusal>
        requires { IsSound (state_of self.old) }
        ensures { MakesAggregate by bytes.now (state_of self.old) result (state_of self.new) }
    {
        let pool = self.pool_to_make(by, bytes)?;
        if !self.make_room_for(pool, bytes.len() as u32) {
            return Err(Refusal::NoRoom { pool });
        }
        self.fill_agg(by, pool, bytes)
    }

    /// The pool in which the caller's bytes are placed. Refused as `agg_make` is, except for NoRoom
    /// and Memory.
    fn pool_to_make(&self, by: DomainId, bytes: &[u8]) -> Result<PoolId, Refusal>
        ensures { TestsMake by bytes.now (state_of self.now) result }
    {
        if !self.is_live(by) {
            return Err(Refusal::NoDomain);
        }
        let Some(pool) = self.default_of(by) else {
            return Err(Refusal::NoPool);
        };
        if bytes.len() > MAX_AGGREGATE_BYTES {
            return Err(Refusal::TooLong);
        }
        if self.is_too_many(by, 1, 0) {
            return Err(Refusal::TooMany);
        }
        if self.is_closed(pool) {
            return Err(Refusal::PoolClosed { pool });
        }
        Ok(pool)
    }

    /// The pool in which the domain places new bytes.
    #[tactic(auto, using(crate::proofs::State::Views::domain_rules), unfolding(crate::specs::KernelState::read_of))]
    pub(crate) fn default_of(&self, d: DomainId) -> Option<PoolId>
        requires { is_live (machine self.now) d ≡ true }
        ensures { (f : Reading) → result ≡ (domain (as_read f self.now) d).default }
    {
        self.domains.default_of(d)
    }

    /// Places bytes in a pool that has room, as the domain's next aggregate.
    #[tactic(auto, using(crate::proofs::State::Stay::stay_rules, crate::proofs::AggregateCalls::Slices::held_rules))]
    fn fill_agg(&mut self, by: DomainId, pool: PoolId, bytes: &[u8]) -> Result<AggId, Refusal>
        requires sound { IsSound (state_of self.old) }
        requires may { MayMake by bytes.now pool (state_of self.old) }
        ensures { FillsNext by pool bytes.now (state_of self.old) result (state_of self.new) }
    {
        self.domains.reserve_aggs(by, 1)?;
        let agg = Agg::fill(self.alloc, &mut self.store, pool, bytes)?;
        Ok(self.domains.add_agg(by, agg))
    }

    /// Makes a second aggregate of the same bytes.
    #[tactic(auto, using(crate::proofs::State::Stay::stay_rules))]
    pub fn agg_dup(&mut self, by: DomainId, agg: AggId) -> Result<AggId, Refusal>
        requires { IsSound (state_of self.old) }
        ensures { CarriesOut (λ s. calls.agg_dup s by agg) self.old result self.new }
    {
        let len = self.find_len(by, agg)?;
        if self.is_too_many(by, 1, 0) {
            return Err(Refusal::TooMany);
        }
        Ok(self.add_cut(by, agg, 0, len)?)
    }

    /// Makes an aggregate of the bytes `from..to` of another, which stays.
    #[tactic(auto, using(crate::proofs::State::Stay::stay_rules))]
    pub fn agg_cut(
        &mut self,
        by: DomainId,
        agg: AggId,
        from: u32,
        to: u32,
    ) -> Result<AggId, Refusal>
        requires { IsSound (state_of self.old) }
        ensures { CarriesOut (λ s. calls.agg_cut s by agg from to) self.old result self.new }
    {
        let len = self.find_len(by, agg)?;
        if from > to || to > len {
            return Err(Refusal::BadRange);
        }
        if self.is_too_many(by, 1, 0) {
            return Err(Refusal::TooMany);
        }
        Ok(self.add_cut(by, agg, from, to)?)
    }

    /// Adds an aggregate of the bytes of a range.
    #[tactic(auto, using(crate::proofs::State::Stay::stay_rules, crate::proofs::AggregateCalls::Slices::held_rules))]
    fn add_cut(&mut self, by: DomainId, agg: AggId, from: u32, to: u32) -> Result<AggId, AllocError>
        requires { MayCut by agg from to (state_of self.old) }
        ensures { Attempts (λ s. calls.agg_cut s by agg from to) self.old result self.new }
    {
        self.domains.reserve_aggs(by, 1)?;
        let Some(whole) = self.domains.agg(by, agg) else {
            unreachable!()
        };
        let cut = whole.cut(self.alloc, &mut self.store, from, to)?;
        Ok(self.domains.add_agg(by, cut))
    }

    /// Splits an aggregate into the bytes before `at` and those from it on.
    #[tactic(auto, using(crate::proofs::State::Stay::stay_rules))]
    pub fn agg_split(
        &mut self,
        by: DomainId,
        agg: AggId,
        at: u32,
    ) -> Result<(AggId, AggId), Refusal>
        requires { IsSound (state_of self.old) }
        ensures { CarriesOut (λ s. calls.agg_split s by agg at) self.old result self.new }
    {
        let len = self.find_len(by, agg)?;
        if len < at {
            return Err(Refusal::BadRange);
        }
        if self.is_too_many(by, 2, 1) {
            return Err(Refusal::TooMany);
        }
        Ok(self.split(by, agg, at)?)
    }

    /// Splits an aggregate into the domain's next two.
    #[tactic(auto, using(crate::proofs::State::Stay::stay_rules, crate::proofs::AggregateCalls::Slices::held_rules))]
    fn split(&mut self, by: DomainId, agg: AggId, at: u32) -> Result<(AggId, AggId), AllocError>
        requires { MaySplit by agg at (state_of self.old) }
        ensures { Attempts (λ s. calls.agg_split s by agg at) self.old result self.new }
    {
        Ok(split_agg(self.alloc, &mut self.store, &mut self.domains, by, agg, at)?)
    }

    /// Joins two aggregates, the first and then the second.
    #[tactic(auto, using(crate::proofs::State::Stay::stay_rules))]
    pub fn agg_join(&mut self, by: DomainId, first: AggId, second: AggId) -> Result<AggId, Refusal>
        requires { IsSound (state_of self.old) }
        ensures { CarriesOut (λ s. calls.agg_join s by first second) self.old result self.new }
    {
        let len = self.find_len(by, first)?;
        let more = self.find_len(by, second)?;
        if first.number() == second.number() {
            return Err(Refusal::BadAgg);
        }
        if len as u64 + more as u64 > MAX_AGGREGATE_BYTES as u64 {
            return Err(Refusal::TooLong);
        }
        if self.is_too_many(by, 1, 2) {
            return Err(Refusal::TooMany);
        }
        Ok(self.join(by, first, second)?)
    }

    /// Joins two aggregates to the domain's next one.
    #[tactic(auto, using(crate::proofs::State::Stay::stay_rules, crate::proofs::AggregateCalls::Slices::held_rules))]
    fn join(&mut self, by: DomainId, first: AggId, second: AggId) -> Result<AggId, AllocError>
        requires { MayJoin by first second (state_of self.old) }
        ensures { Attempts (λ s. calls.agg_join s by first second) self.old result self.new }
    {
        Ok(join_aggs(self.alloc, &mut self.domains, by, first, second)?)
    }

    /// Makes an aggregate of the bytes of one, with those of another in place of `from..to`. Both
    /// stay.
    #[tactic(auto, using(crate::proofs::State::Stay::stay_rules))]
    pub fn agg_replace(
        &mut self,
        by: DomainId,
        agg: AggId,
        from: u32,
        to: u32,
        other: AggId,
    ) -> Result<AggId, Refusal>
        requires { IsSound (state_of self.old) }
        ensures { CarriesOut (λ s. calls.agg_replace s by agg from to other) self.old result
            self.new }
    {
        let len = self.find_len(by, agg)?;
        let inserted = self.find_len(by, other)?;
        if from > to || to > len {
            return Err(Refusal::BadRange);
        }
        if from as u64 + inserted as u64 + (len - to) as u64 > MAX_AGGREGATE_BYTES as u64 {
            return Err(Refusal::TooLong);
        }
        if self.is_too_many(by, 1, 0) {
            return Err(Refusal::TooMany);
        }
        Ok(self.replace(by, agg, from, to, other)?)
    }

    /// Adds an aggregate of the bytes of one, with those of another in place of a range.
    #[tactic(auto, using(crate::proofs::State::Stay::stay_rules, crate::proofs::AggregateCalls::Slices::held_rules))]
    fn replace(
        &mut self,
        by: DomainId,
        agg: AggId,
        from: u32,
        to: u32,
        other: AggId,
    ) -> Result<AggId, AllocError>
        requires { MayReplace by agg from to other (state_of self.old) }
        ensures { Attempts (λ s. calls.agg_replace s by agg from to other) self.old result
            self.new }
    {
        self.domains.reserve_aggs(by, 1)?;
        let Some(whole) = self.domains.agg(by, agg) else {
            unreachable!()
        };
        let Some(inner) = self.domains.agg(by, other) else {
            unreachable!()
        };
        let replaced = whole.replace(self.alloc, &mut self.store, from, to, inner)?;
        Ok(self.domains.add_agg(by, replaced))
    }

    /// Drops an aggregate.
    #[tactic(auto, using(crate::proofs::State::Stay::stay_rules))]
    pub fn agg_drop(&mut self, by: DomainId, agg: AggId) -> Result<(), Refusal>
        requires { IsSound (state_of self.old) }
        ensures agg_drop { KeepsPlaces (λ s. calls.agg_drop s by agg) self.old result self.new }
        ensures roomy { (p : ℕ) → result ≢ Err (Refusal.NoRoom p) }
    {
        self.find_len(by, agg)?;
        self.release(by, agg);
        Ok(())
    }

    /// Takes an aggregate from its domain, and releases its references.
    #[tactic(auto, using(crate::proofs::AggregateCalls::Slices::held_rules))]
    fn release(&mut self, by: DomainId, agg: AggId)
        requires { HasAgg (state_of self.old) by agg }
        ensures { Leaves (λ s. calls.without_agg s by agg) self.old self.new }
    {
        let given = self.domains.take_agg(by, agg);
        given.release(&mut self.store);
    }

    /// Moves an aggregate to a domain that may read all its bytes.
    #[tactic(auto, using(crate::proofs::State::Stay::stay_rules))]
    pub fn agg_give(&mut self, by: DomainId, agg: AggId, to: DomainId) -> Result<AggId, Refusal>
        requires { IsSound (state_of self.old) }
        ensures { CarriesOut (λ s. calls.agg_give s by agg to) self.old result self.new }
    {
        if !self.is_live(by) || !self.is_live(to) {
            return Err(Refusal::NoDomain);
        }
        let found = self.find(by, agg)?;
        if self.is_too_many(to, 1, 1) {
            return Err(Refusal::TooMany);
        }
        if let Some(pool) = self.first_denied(found, to) {
            return Err(Refusal::Denied { pool });
        }
        Ok(self.give(by, agg, to)?)
    }

    /// The pool of the first byte of an aggregate that the receiver may not read.
    fn first_denied(&self, found: &Agg, to: DomainId) -> Option<PoolId>
        ensures { ReportsBarred (state_of self.now) to found.now result }
    {
        first_hidden(found.slices(), self.store.pools(), to)
    }

    /// Moves an aggregate.
    #[tactic(auto, using(crate::proofs::State::Stay::stay_rules, crate::proofs::AggregateCalls::Slices::held_rules))]
    fn give(&mut self, by: DomainId, agg: AggId, to: DomainId) -> Result<AggId, AllocError>
        requires { MayGive by agg to (state_of self.old) }
        ensures { Attempts (λ s. calls.agg_give s by agg to) self.old result self.new }
    {
        Ok(move_agg(&mut self.domains, by, agg, to)?)
    }

    /// A copy of an aggregate's bytes.
    pub fn show(&self, by: DomainId, agg: AggId) -> Result<Bytes, Refusal>
        requires { IsSound (state_of self.now) }
        ensures show { Steps (λ s. calls.show s by agg) self.now result self.now }
        ensures roomy { (p : ℕ) → result ≢ Err (Refusal.NoRoom p) }
    {
        let found = self.find(by, agg)?;
        Ok(Bytes::from_vec(found.to_vec(self.alloc, &self.store)?))
    }

    /// Copies an aggregate's bytes to the front of `into`, if it has room for all of them. Returns
    /// their number either way. No memory is requested.
    pub fn show_into(&self, by: DomainId, agg: AggId, into: &mut [u8]) -> Result<u32, Refusal>
        requires { IsSound (state_of self.now) }
        ensures { ShowsInto by agg into.old into.new (state_of self.now) result }
    {
        let found = self.find(by, agg)?;
        let len = found.len();
        if len as usize <= into.len() {
            copy_to_front(found, &self.store, into);
        }
        Ok(len)
    }

    /// An aggregate's bytes, at their places in memory.
    pub fn parts(&self, by: DomainId, agg: AggId) -> Result<Parts<'_>, Refusal>
        requires { IsSound (state_of self.now) }
        ensures ok { IfOk result (λ parts. Shows by agg (concat parts) self.now) }
        ensures err { IfErr result (λ x. RefusesShow by agg x (state_of self.now)) }
    {
        let found = self.find(by, agg)?;
        Ok(found.parts(&self.store))
    }

    /// The same bytes. The contract says at which addresses they are.
    pub fn located_parts(&self, by: DomainId, agg: AggId) -> Result<LocatedParts<'_>, Refusal>
        requires { IsSound (state_of self.now) }
        ensures ok { IfOk result (λ parts. Locates by agg parts (state_of self.now)) }
        ensures err { IfErr result (λ x. RefusesShow by agg x (state_of self.now)) }
    {
        let found = self.find(by, agg)?;
        Ok(found.located_parts(&self.store))
    }

    /// The number of bytes of an aggregate. Its slices are not walked.
    pub fn agg_len(&self, by: DomainId, agg: AggId) -> Result<u32, Refusal>
        requires { IsSound (state_of self.now) }
        ensures ok { IfOk result (λ n. ShowsSoMany by agg n self.now) }
        ensures err { IfErr result (λ x. RefusesShow by agg x (state_of self.now)) }
    {
        self.find_len(by, agg)
    }
}
