//! Calls that make and end domains.
ghost use Rattle.std.specs.Prelude.{◌≡◌, ℕ, [], length, Option, Err, ◌≢◌};
ghost use Rattle.iol_core.specs.Calls.Domains as calls;
ghost use Rattle.iol_desc.specs.Prelude.{with_aggs_in, with_fds_in};
ghost use Rattle.iol_kernel.specs.ClosedEnds.{AreLetGo, ClosesAll};
ghost use Rattle.iol_kernel.specs.DomainEnd.{without_aggs, without_fds};
ghost use Rattle.iol_kernel.specs.DomainAggregates.{Lives};
ghost use Rattle.iol_kernel.specs.KernelState.{IsSound};
ghost use Rattle.iol_kernel.specs.Readings.{Reading};

use crate::kernel::Kernel;
use crate::tables::release_all;
use iol_core::descriptors::Descriptor;
use iol_core::limits::MAX_DOMAINS;
use iol_core::numbers::DomainId;
use iol_core::refusals::Refusal;
use std::alloc::AllocError;

impl Kernel {
    ghost use Rattle.iol_kernel.specs.Kernel.{state_of, as_read, CarriesOut, KeepsPlaces, Leaves};

    /// Makes a domain.
    #[tactic(auto, using(crate::proofs::State::Stay::stay_rules))]
    pub fn domain_new(&mut self, by: DomainId) -> Result<DomainId, Refusal>
        requires { IsSound (state_of self.old) }
        ensures { CarriesOut (λ s. calls.domain_new s by) self.old result self.new }
    {
        if !self.is_live(by) {
            return Err(Refusal::NoDomain);
        }
        let count = self.domain_count();
        if count >= MAX_DOMAINS {
            return Err(Refusal::TooMany);
        }
        self.domains.add_domain()?;
        Ok(DomainId::new(count as u32 + 1))
    }

    /// The number of domains ever made.
    #[tactic(auto, using(crate::proofs::State::Views::count_rules), unfolding(crate::specs::KernelState::read_of))]
    fn domain_count(&self) -> usize
        ensures { (f : Reading) → result ≡ length (as_read f self.now).domains }
    {
        self.domains.len()
    }

    /// Ends the caller: its descriptors are closed by rising number, and its aggregates dropped.
    #[tactic(auto, using(crate::proofs::State::Stay::stay_rules))]
    pub fn exit(&mut self, by: DomainId) -> Result<(), Refusal>
        requires { IsSound (state_of self.old) }
        ensures exit { KeepsPlaces (λ s. calls.exit s by) self.old result self.new }
        ensures roomy { (p : ℕ) → result ≢ Err (Refusal.NoRoom p) }
    {
        if !self.is_live(by) {
            return Err(Refusal::NoDomain);
        }
        self.end(by);
        Ok(())
    }

    /// Ends a domain: all its aggregates and descriptors are released.
    fn end(&mut self, by: DomainId)
        requires { Lives (state_of self.old) by }
        ensures { Leaves (λ s. (calls.exit s by).after) self.old self.new }
    {
        self.drop_aggs(by);
        self.close_fds(by);
        self.domains.end_domain(by);
    }

    /// Drops all aggregates of a domain.
    #[tactic(auto, using(crate::proofs::AggregateCalls::Slices::held_rules))]
    fn drop_aggs(&mut self, by: DomainId)
        requires { Lives (state_of self.old) by }
        ensures dropped { Leaves (without_aggs by) self.old self.new }
        ensures domains { (state_of self.new).domains ≡ with_aggs_in (state_of self.old).domains by
            [] }
    {
        let aggs = self.domains.take_aggs(by);
        release_all(&mut self.store, aggs);
    }

    /// Closes all descriptors of a domain, by rising number.
    #[tactic(auto, using(crate::proofs::AggregateCalls::Slices::held_rules))]
    fn close_fds(&mut self, by: DomainId)
        requires { Lives (state_of self.old) by }
        ensures closed { Leaves (without_fds by) self.old self.new }
        ensures domains { (state_of self.new).domains ≡ with_fds_in (state_of self.old).domains by
            [] }
    {
        let ends = self.domains.take_fds(by);
        self.close_ends(&ends);
    }

    /// Closes ends that were taken from a domain, one after another.
    #[tactic(auto, using(crate::proofs::State::Stay::stay_rules))]
    fn close_ends(&mut self, ends: &[Option<Descriptor>])
        requires { AreLetGo (state_of self.old) ends.now }
        ensures { ClosesAll ends.now (state_of self.old) (state_of self.new) }
    {
        for place in ends {
            let Some(end) = *place else {
                continue;
            };
            self.close_end(end);
        }
    }
}
