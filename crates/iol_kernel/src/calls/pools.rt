//! Calls on pools.
ghost use Rattle.std.specs.Prelude.{◌≡◌, ℕ, ◌<◌, length, OnOk, Err, ◌≢◌};
ghost use Rattle.iol_core.specs.State as state;
ghost use Rattle.iol_core.specs.Prelude.{is_pool};
ghost use Rattle.iol_core.specs.Calls.Pools as calls;
ghost use Rattle.iol_kernel.specs.Calls.{with_reader};
ghost use Rattle.iol_kernel.specs.DomainAggregates.{Lives};
ghost use Rattle.iol_kernel.specs.KernelState.{IsSound};
ghost use Rattle.iol_kernel.specs.PoolCalls.{Creates, CreatesPool, IsIdle, MayAdmit, TestsCreate, TestsUse};
ghost use Rattle.iol_kernel.specs.PoolCalls.{are_all_live, with_pool_admitting, with_pool_closed};
ghost use Rattle.iol_kernel.specs.Readings.{Reading};

use crate::kernel::Kernel;
use crate::tables::are_live;
use iol_core::limits::{MAX_CHUNKS, MAX_POOLS};
use iol_core::lists::Domains;
use iol_core::numbers::{DomainId, PoolId};
use iol_core::refusals::Refusal;
use iol_pool::names::Names;

impl Kernel {
    ghost use Rattle.iol_kernel.specs.Kernel.{state_of, machine, as_read, CarriesOut, KeepsPlaces, Answers, Leaves};

    /// Sets the caller's default pool, in which it places new bytes.
    #[tactic(auto, using(crate::proofs::State::Stay::stay_rules))]
    pub fn set_pool(&mut self, by: DomainId, pool: PoolId) -> Result<(), Refusal>
        requires { IsSound (state_of self.old) }
        ensures { CarriesOut (λ s. calls.set_pool s by pool) self.old result self.new }
    {
        self.test_pool(by, pool)?;
        self.set_default(by, pool);
        Ok(())
    }

    /// Whether a domain may place in a pool, or close it: the pool is open, and names the domain.
    fn test_pool(&self, by: DomainId, pool: PoolId) -> Result<(), Refusal>
        ensures { TestsUse by pool (state_of self.now) result }
    {
        if !self.is_live(by) {
            return Err(Refusal::NoDomain);
        }
        if !self.is_pool(pool) {
            return Err(Refusal::NoPool);
        }
        if !self.may_read(by, pool) {
            return Err(Refusal::Denied { pool });
        }
        if self.is_closed(pool) {
            return Err(Refusal::PoolClosed { pool });
        }
        Ok(())
    }

    /// Sets a domain's default pool.
    #[tactic(auto, using(crate::proofs::AggregateCalls::Slices::held_rules))]
    fn set_default(&mut self, by: DomainId, pool: PoolId)
        requires { Lives (state_of self.old) by }
        ensures { Answers (λ s. calls.set_pool s by pool) self.old tt self.new }
    {
        self.domains.set_default(by, pool);
    }

    /// Whether there is a pool of this number.
    #[tactic(auto, using(crate::proofs::State::Views::pool_rules), unfolding(crate::specs::KernelState::read_of))]
    pub(crate) fn is_pool(&self, p: PoolId) -> bool
        ensures { (f : Reading) → result ≡ is_pool (as_read f self.now) p }
    {
        self.store.pools().is_pool(p)
    }

    /// Whether the pool is closed to new bytes.
    #[tactic(auto, using(crate::proofs::State::Views::pool_rules), unfolding(crate::specs::KernelState::read_of))]
    pub(crate) fn is_closed(&self, p: PoolId) -> bool
        ensures { (f : Reading) → result ≡ (state.pool (as_read f self.now) p).closed }
    {
        self.store.pools().is_closed(p)
    }

    /// Makes a pool of `chunks` chunks, which the domains of a list may read.
    #[tactic(auto, using(crate::proofs::State::Stay::stay_rules))]
    pub fn pool_create(
        &mut self,
        by: DomainId,
        chunks: u32,
        list: &Domains,
    ) -> Result<PoolId, Refusal>
        requires { IsSound (state_of self.old) }
        ensures { CreatesPool by chunks list.now (state_of self.old) result (state_of self.new) }
    {
        let names = self.names_for(by, chunks, list.as_slice())?;
        Ok(self.add_pool(chunks, names)?)
    }

    /// The domains that a new pool's list names, without duplicates, or the refusal.
    fn names_for(&self, by: DomainId, chunks: u32, list: &[DomainId]) -> Result<Names, Refusal>
        ensures { TestsCreate by chunks list.now (state_of self.now) result }
    {
        if !self.are_live(by, list) {
            return Err(Refusal::NoDomain);
        }
        if list.is_empty() || chunks == 0 || chunks > MAX_CHUNKS {
            return Err(Refusal::BadRange);
        }
        let Some(names) = Names::of(list) else {
            return Err(Refusal::TooMany);
        };
        if self.pool_count() >= MAX_POOLS {
            return Err(Refusal::TooMany);
        }
        Ok(names)
    }

    /// Whether a domain and all domains of a list are live.
    fn are_live(&self, by: DomainId, list: &[DomainId]) -> bool
        ensures { (f : Reading) → result ≡ are_all_live (as_read f self.now) by list.now }
    {
        self.is_live(by) && are_live(&self.domains, list)
    }

    /// The number of pools ever made.
    #[tactic(auto, using(crate::proofs::State::Views::count_rules), unfolding(crate::specs::KernelState::read_of))]
    fn pool_count(&self) -> usize
        ensures { (f : Reading) → result ≡ length (as_read f self.now).pools }
    {
        self.store.pools().len()
    }

    /// Adds a pool of `chunks` chunks for these domains.
    #[tactic(auto, using(crate::proofs::State::Stay::stay_rules))]
    fn add_pool(&mut self, chunks: u32, names: Names) -> Result<PoolId, Refusal>
        requires sound { IsSound (state_of self.old) }
        requires few { length (machine self.old).pools < MAX_POOLS }
        ensures { Creates chunks names (state_of self.old) result (state_of self.new) }
    {
        Ok(self.store.create_pool(self.alloc, chunks, names)?)
    }

    /// Adds a domain to the list of a pool that the caller may read. No memory is requested; if the
    /// list names the domain already, nothing changes.
    #[tactic(auto, using(crate::proofs::State::Stay::stay_rules))]
    pub fn pool_admit(
        &mut self,
        by: DomainId,
        pool: PoolId,
        domain: DomainId,
    ) -> Result<(), Refusal>
        requires { IsSound (state_of self.old) }
        ensures admit { KeepsPlaces (λ s. calls.pool_admit s by pool domain) self.old result self.new }
        ensures list { OnOk result (state_of self.new ≡ with_reader (state_of self.old) pool domain) }
        ensures free { result ≢ Err Refusal.Memory }
        ensures roomy { (p : ℕ) → result ≢ Err (Refusal.NoRoom p) }
    {
        if !self.is_live(by) || !self.is_live(domain) {
            return Err(Refusal::NoDomain);
        }
        if !self.is_pool(pool) {
            return Err(Refusal::NoPool);
        }
        if !self.has_place(pool, domain) {
            return Err(Refusal::TooMany);
        }
        if !self.may_read(by, pool) {
            return Err(Refusal::Denied { pool });
        }
        if self.is_closed(pool) {
            return Err(Refusal::PoolClosed { pool });
        }
        self.add_reader(pool, domain);
        Ok(())
    }

    /// Whether the pool's list names the domain, or has a free entry for it.
    #[tactic(auto, using(crate::proofs::State::Views::pool_rules), unfolding(crate::specs::KernelState::read_of))]
    fn has_place(&self, p: PoolId, d: DomainId) -> bool
        ensures { (f : Reading) → result ≡ calls.has_place (state.pool (as_read f self.now)
            p).domains d }
    {
        self.store.pools().has_place(p, d)
    }

    /// Adds a domain to a pool's list.
    fn add_reader(&mut self, p: PoolId, d: DomainId)
        requires { MayAdmit p d (state_of self.old) }
        ensures admits { Leaves (with_pool_admitting p d) self.old self.new }
        ensures list { state_of self.new ≡ with_reader (state_of self.old) p d }
    {
        self.store.admit(p, d);
    }

    /// Closes a pool: no more bytes are placed in it, and its bytes stay readable.
    #[tactic(auto, using(crate::proofs::State::Stay::stay_rules))]
    pub fn pool_close(&mut self, by: DomainId, pool: PoolId) -> Result<(), Refusal>
        requires { IsSound (state_of self.old) }
        ensures pool_close { KeepsPlaces (λ s. calls.pool_close s by pool) self.old result self.new }
        ensures roomy { (p : ℕ) → result ≢ Err (Refusal.NoRoom p) }
    {
        self.test_pool(by, pool)?;
        if self.is_busy(pool) {
            return Err(Refusal::PoolBusy { pool });
        }
        self.end_pool(pool);
        Ok(())
    }

    /// Whether any file or connection has the pool.
    #[tactic(auto, using(crate::proofs::State::Views::busy_rules), unfolding(crate::specs::KernelState::read_of))]
    fn is_busy(&self, p: PoolId) -> bool
        ensures { (f : Reading) → result ≡ calls.is_busy (as_read f self.now) p }
    {
        self.files.table.is_any_of(p) || self.conns.is_busy(p)
    }

    /// Closes a pool that no file and no connection has.
    fn end_pool(&mut self, p: PoolId)
        requires { IsIdle (state_of self.old) p }
        ensures { Leaves (with_pool_closed p) self.old self.new }
    {
        self.store.close_pool(p);
    }
}
