//! The state of a system, and the tests that its calls make.
ghost use Rattle.std.specs.Prelude.{IfOk, IfErr, OnOk, ◌≡◌, ◌≤◌, max, true, Some};
ghost use Rattle.iol_core.specs.Prelude.{is_live, may_read, descriptor, too_many_aggs, too_many_open};
ghost use Rattle.iol_kernel.specs.Report.{Reports};
ghost use Rattle.iol_kernel.specs.KernelState.{IsSound};
ghost use Rattle.iol_kernel.specs.Readings.{Reading};

use crate::files::Files;
use crate::pipes::Pipes;
use crate::report::{Report, report_pools};
use iol_agg::Agg;
use iol_core::configuration::Config;
use iol_core::descriptors::Descriptor;
use iol_core::limits::CHUNK_PAGES;
use iol_core::numbers::{AggId, DomainId, Fd, PoolId};
use iol_core::refusals::Refusal;
use iol_desc::table::Table;
use iol_hold::Store;
use iol_sock::Connections;
use iol_sum::SumCache;
use std::alloc::{AllocError, Global};

/// The state of a system: pages and pools, domains with their aggregates and descriptors, pipes,
/// connections, the remembered sums, and files.
#[derive(Drop)]
pub struct Kernel {
    pub(crate) alloc: Global,
    pub(crate) store: Store,
    pub(crate) domains: Table<Agg>,
    pub(crate) pipes: Pipes,
    pub(crate) conns: Connections,
    pub(crate) sums: SumCache,
    pub(crate) files: Files,
}

impl Kernel {
    ghost use Rattle.iol_kernel.specs.NewKernel.{MakesKernel};
    ghost use Rattle.iol_kernel.specs.Kernel.{state_of, machine, as_read, IsFound, IsMissing, IsSoLong, IsUnopened};

    /// A kernel with domain 1 and nothing else. A size out of its range is `BadRange`.
    pub fn new(alloc: Global, config: Config) -> Result<Kernel, Refusal>
        ensures { MakesKernel config result }
    {
        let store = Store::new(alloc, config)?;
        let mut domains = Table::new(alloc);
        domains.add_domain()?;
        let sums = SumCache::new(alloc, config.sums)?;
        let pipes = Pipes::new(alloc);
        let conns = Connections::new(alloc);
        let files = Files::new(alloc, config.chunks as usize * CHUNK_PAGES)?;
        Ok(Kernel {
            alloc,
            store,
            domains,
            pipes,
            conns,
            sums,
            files,
        })
    }

    /// Whether a domain is live.
    #[tactic(auto, using(crate::proofs::State::Views::domain_rules), unfolding(crate::specs::KernelState::read_of))]
    pub(crate) fn is_live(&self, d: DomainId) -> bool
        ensures { (f : Reading) → result ≡ is_live (as_read f self.now) d }
    {
        self.domains.live(d)
    }

    /// A domain's aggregate. `NoDomain` if the domain is not live, `BadAgg` if it has no such
    /// aggregate.
    pub(crate) fn find(&self, d: DomainId, agg: AggId) -> Result<&Agg, Refusal>
        ensures ok { IfOk result (λ x. IsFound self.now d agg x.now) }
        ensures err { IfErr result (IsMissing self.now d agg) }
    {
        if !self.domains.live(d) {
            return Err(Refusal::NoDomain);
        }
        match self.domains.agg(d, agg) {
            Some(found) => Ok(found),
            None => Err(Refusal::BadAgg),
        }
    }

    /// The length of a domain's aggregate in bytes. Refused as `find` is.
    #[tactic(auto, using(crate::proofs::State::ReadOf::length_rules))]
    pub(crate) fn find_len(&self, d: DomainId, agg: AggId) -> Result<u32, Refusal>
        ensures ok { IfOk result (λ n. IsSoLong self.now d agg n) }
        ensures err { IfErr result (IsMissing self.now d agg) }
    {
        let found = self.find(d, agg)?;
        Ok(found.len())
    }

    /// The object that a domain's descriptor is open on. `NoDomain` if the domain is not live,
    /// `BadFd` if it has no such descriptor.
    pub(crate) fn opened(&self, d: DomainId, fd: Fd) -> Result<Descriptor, Refusal>
        ensures live { OnOk result ((f : Reading) → is_live (as_read f self.now) d ≡ true) }
        ensures open { IfOk result (λ x. (f : Reading) → descriptor (as_read f self.now) d fd ≡ Some
            x) }
        ensures err { IfErr result (IsUnopened self.now d fd) }
    {
        if !self.is_live(d) {
            return Err(Refusal::NoDomain);
        }
        match self.descriptor(d, fd) {
            Some(found) => Ok(found),
            None => Err(Refusal::BadFd),
        }
    }

    /// Whether `made` new aggregates, after `given` are dropped, exceed the limits.
    #[tactic(auto, using(crate::proofs::State::Views::domain_rules), unfolding(crate::specs::KernelState::read_of))]
    pub(crate) fn is_too_many(&self, d: DomainId, made: u64, given: u64) -> bool
        requires live { is_live (machine self.now) d ≡ true }
        requires most { max made given ≤ 2 }
        ensures { (f : Reading) → result ≡ too_many_aggs (as_read f self.now) d made given }
    {
        self.domains.is_too_many(d, made, given)
    }

    /// The object that the domain's descriptor is open on.
    #[tactic(auto, using(crate::proofs::State::Views::domain_rules), unfolding(crate::specs::KernelState::read_of))]
    pub(crate) fn descriptor(&self, d: DomainId, fd: Fd) -> Option<Descriptor>
        requires { is_live (machine self.now) d ≡ true }
        ensures { (f : Reading) → result ≡ descriptor (as_read f self.now) d fd }
    {
        self.domains.descriptor(d, fd)
    }

    /// Whether `made` more descriptors exceed the limit.
    #[tactic(auto, using(crate::proofs::State::Views::domain_rules), unfolding(crate::specs::KernelState::read_of))]
    pub(crate) fn is_open_beyond(&self, d: DomainId, made: usize) -> bool
        requires live { is_live (machine self.now) d ≡ true }
        requires made { made ≤ 2 }
        ensures { (f : Reading) → result ≡ too_many_open (as_read f self.now) d made }
    {
        self.domains.is_open_beyond(d, made)
    }

    /// Whether the pool's list names the domain.
    #[tactic(auto, using(crate::proofs::State::Views::pool_rules), unfolding(crate::specs::KernelState::read_of))]
    pub(crate) fn may_read(&self, d: DomainId, p: PoolId) -> bool
        ensures { (f : Reading) → result ≡ may_read (as_read f self.now) d p }
    {
        self.store.pools().names(p, d)
    }

    /// The counts of pools, extents and buffers.
    pub fn report(&self) -> Result<Report, AllocError>
        requires { IsSound (state_of self.now) }
        ensures { Reports (state_of self.now) result }
    {
        let buffers = self.store.buffer_count();
        let cached = self.files.cache.report();
        let pools = report_pools(self.alloc, &self.store)?;
        Ok(Report {
            pools,
            extents: cached.extents,
            dirty: cached.dirty,
            buffers,
        })
    }
}
